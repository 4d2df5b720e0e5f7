//! What the lines of the shell say.

use crate::loading::HexRecord;
use crate::look::Look;
use crate::quoted::Quoted;
use disk_dcdd::SectorAddress;
use pair_events::Event;
use script_language::{Keyword, Query, Words};

/// What a link does to messages: of 100 it loses, repeats or delays this many, chosen by a seed.
#[derive(Clone, Copy)]
pub struct Loss {
    pub percent: u8,
    pub seed: u64,
}

/// Turns of a node, and of the pair around it.
#[derive(Clone, Copy)]
pub struct Turns {
    pub node: u64,
    pub turns: u64,
    pub loss: Option<Loss>,
}

/// Events by their numbers, from 0: the first and the last of them.
#[derive(Clone, Copy)]
pub struct Stretch {
    pub first: u64,
    pub last: u64,
}

/// What a line says.
#[derive(Drop)]
pub enum ShellLine<'a> {
    /// Nothing: it is empty, or a comment.
    Empty,
    /// An event of the script language.
    Event(Event),
    /// A query of the script language.
    Query(Query),
    /// A setup line of the script language, other than a sector, and the words after its keyword.
    Setup {
        keyword: Keyword,
        words: Words<'a>,
    },
    /// The bytes of a sector at boot, from 1 to 137: one alone is each of its bytes, and zeros follow several.
    SetSector {
        sector: SectorAddress,
        bytes: Words<'a>,
    },
    /// Bytes that are loaded into memory; none for the last record of a file.
    Load(HexRecord),
    /// All entries of a node that were not sent yet are sent.
    SendAll {
        node: u64,
    },
    /// All log messages that have not reached a node yet reach this one.
    LogAll {
        node: u64,
    },
    /// All parts of a node's image that were not sent yet are sent.
    SendPartAll {
        node: u64,
    },
    /// All messages with a part that have not reached a node yet reach this one.
    PartAll {
        node: u64,
    },
    /// All bytes that have not arrived yet arrive.
    ArriveAll,
    /// The pair's ordinary day.
    Run(Turns),
    /// The pair is brought to rest.
    Rest,
    /// What is outstanding, what it waits for, and what would bring it on.
    Why,
    /// Text is typed at the terminal of a port.
    TypeText {
        port: u8,
        text: Quoted<'a>,
    },
    /// What a terminal has accepted, as text: all of it, or what was not shown so before.
    Screen {
        port: u8,
        is_new: bool,
    },
    /// What the disk has in a sector.
    Sector(SectorAddress),
    /// What a node's machine has in its registers, or in its memory.
    Look(Look),
    /// The number of the last message.
    Last,
    /// Whether the pair has done what one machine does.
    Check,
    /// Events as a diagram: those of a stretch, or the last ones.
    Picture(Option<Stretch>),
    /// Whether events are printed as the lines of a script.
    Trace(bool),
    /// The list of all lines.
    Help,
    /// The list of all refusals.
    Refusals,
    /// The session ends.
    Quit,
}

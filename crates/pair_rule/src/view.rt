//! What the seats know. No value of a view is made.
use crate::payload::{DiskAnswer, DiskRequest, Packet, Payload};
use disk_dcdd::SectorWrite;
use event_callbacks::Operation;
use log_entry::Entry;
use std::collections::LinkedList;

/// A seat's side of one box: the number of its swaps there, the other side's number as last found, and what it put in or
/// took out last.
pub struct Side {
    pub number: u64,
    pub met: u64,
    pub last: Option<Payload>,
}

/// A byte that arrived at a terminal.
pub struct Arrived {
    pub number: u64,
    pub byte: u8,
}

/// A call of the primary that promises something, with what the promise is about: the list, and what it had been told.
pub enum PrimaryCall {
    Appended {
        list: LinkedList<Entry>,
        counted0: u64,
        counted1: u64,
        answers: LinkedList<DiskAnswer>,
        entry: Entry,
    },
    Released {
        list: LinkedList<Entry>,
        seen: u64,
        operation: Operation,
    },
}

/// What the primary knows, how often it has asked the disk, and its calls that promise something, the last one first.
pub struct PrimaryView {
    pub list: LinkedList<Entry>,
    pub seen: u64,
    pub winner: u64,
    pub counted0: u64,
    pub counted1: u64,
    pub released: LinkedList<Operation>,
    pub asked: u64,
    pub answers: LinkedList<DiskAnswer>,
    pub calls: LinkedList<PrimaryCall>,
}

/// What the backup knows.
pub struct BackupView {
    pub list: LinkedList<Entry>,
    pub held_values: LinkedList<u64>,
    pub winner: u64,
}

/// What the terminals know: what arrived, and the byte that was taken last.
pub struct TerminalView {
    pub arrivals0: LinkedList<Arrived>,
    pub arrivals1: LinkedList<Arrived>,
    pub hand0: Option<Operation>,
    pub hand1: Option<Operation>,
}

/// What the disk knows: the request that was taken last, how many it has taken, the writes that it answered, and all its
/// answers.
pub struct DiskView {
    pub taken: Option<DiskRequest>,
    pub takes: u64,
    pub puts: LinkedList<SectorWrite>,
    pub given: LinkedList<DiskAnswer>,
}

/// What all seats know together: the state of the core.
pub struct Knowledge {
    pub generation: u64,
    pub primary: PrimaryView,
    pub link: Option<Packet>,
    pub backup: BackupView,
    pub terminal: TerminalView,
    pub disk: DiskView,
}

/// The core with the hands of the seats and their sides of the boxes.
pub struct Core {
    pub hands: LinkedList<u64>,
    pub has_slot: LinkedList<bool>,
    pub fills: LinkedList<Side>,
    pub empties: LinkedList<Side>,
    pub known: Knowledge,
}

/// A seat has those parts of the core that are its own.
pub struct SeatView {
    pub mine: LinkedList<bool>,
    pub core: Core,
}

//! What is said of an event that takes what happened before it into account: which byte a key is, and whether a message was sent.
ghost use Rattle.std.specs.Prelude.{◌≡◌};
ghost use Rattle.sequence_diagram.specs.Arrows.{IsStray};
ghost use Rattle.sequence_diagram.specs.Keys.{HasByte, typed_at};
ghost use Rattle.sequence_diagram.specs.Messages.{unknown_at};

use crate::arrows::sent_before;
use crate::cargo::write_key;
use crate::moment::{Moment, delivered};
use crate::notes::{NamedText, NoteText, ReasonText};
use i8080_words::Fault;
use pair_events::{Event, Reply};
use std::fmt::{self, Display};

/// What the event at a place of a run does, or was to do.
#[derive(Clone, Copy)]
pub struct ToldText<'a> {
    pub moments: &'a [Moment],
    pub place: usize,
}

/// Why the event at a place of a run is refused; nothing if it is not.
#[derive(Clone, Copy)]
pub struct WhyText<'a> {
    pub moments: &'a [Moment],
    pub place: usize,
}

/// What is refused at a place of a run, and why.
#[derive(Clone, Copy)]
pub struct Refused<'a> {
    pub moments: &'a [Moment],
    pub place: usize,
}

impl Display for ToldText<'_> {
    fn fmt<W: fmt::Write>(&self, f: &mut fmt::Formatter<W>) -> fmt::Result {
        let Some(moment) = self.moments.get(self.place) else {
            return Ok(());
        };
        match (byte_at(self.moments, self.place), moment.answer) {
            (Some(byte), _) => write_key(f, byte),
            (None, Ok(_)) => NoteText(*moment).fmt(f),
            (None, Err(_)) => NamedText(moment.event).fmt(f),
        }
    }
}

impl Display for WhyText<'_> {
    fn fmt<W: fmt::Write>(&self, f: &mut fmt::Formatter<W>) -> fmt::Result {
        if is_stray(self.moments, self.place) {
            return f.write_str("refused, not one for this");
        }
        match self.moments.get(self.place) {
            Some(
                Moment {
                    answer: Err(fault),
                    ..
                },
            ) => ReasonText(*fault).fmt(f),
            _ => Ok(()),
        }
    }
}

impl Display for Refused<'_> {
    fn fmt<W: fmt::Write>(&self, f: &mut fmt::Formatter<W>) -> fmt::Result {
        let Refused { moments, place } = *self;
        write!(
            f,
            "{}: {}",
            ToldText { moments, place },
            WhyText { moments, place }
        )
    }
}

// The byte of the key that an event takes, or would take; none if no key of that index was typed before.
fn byte_at(moments: &[Moment], place: usize) -> Option<u8> {
    match moments.get(place)?.event {
        Event::TakeKey { port, index, .. } => byte_before(moments, place, port, index),
        _ => None,
    }
}

// The byte that was typed before a place of a run as the key of this index of a terminal.
fn byte_before(moments: &[Moment], place: usize, port: u8, index: u64) -> Option<u8>
    ensures { HasByte moments.now place port index result }
{
    'places: for before in 0..place {
        if let Some(byte) = typed_at(moments, before, port, index) {
            return Some(byte);
        }
    }
    None
}

// The byte that was typed at a place of a run, if it is that key.
fn typed_at(moments: &[Moment], place: usize, port: u8, index: u64) -> Option<u8>
    ensures { result ≡ typed_at moments.now place port index }
{
    let moment = moments.get(place)?;
    match (moment.event, moment.answer) {
        (Event::TypeByte { port: other, byte }, Ok(Reply::Typed { index: typed })) => {
            if other == port && typed == index {
                Some(byte)
            } else {
                None
            }
        }
        _ => None,
    }
}

// Whether an event was to bring a message that was sent before, but that nobody takes: it is of another kind, or its node is not there.
#[tactic(auto, using(crate::proofs::Straying::was_sent, crate::proofs::Straying::was_not_sent, crate::proofs::Straying::is_known))]
fn is_stray(moments: &[Moment], place: usize) -> bool
    ensures { IsStray moments.now place result }
{
    match unknown_at(moments, place) {
        Some(message) => match sent_before(moments, place, message) {
            Some(_) => true,
            None => false,
        },
        None => false,
    }
}

// The message that an event was to bring, if it is unknown.
fn unknown_at(moments: &[Moment], place: usize) -> Option<u64>
    ensures { result ≡ unknown_at moments.now place }
{
    let moment = moments.get(place)?;
    match moment.answer {
        Err(Fault::Unknown) => delivered(moment.event),
        _ => None,
    }
}

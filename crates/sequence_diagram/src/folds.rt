//! What many events on one line have done: parts of a copy, or keys of a terminal.
ghost use Rattle.std.specs.Prelude.{◌≡◌, Some};
ghost use Rattle.std.specs.Fmt.{WritesOnOk};
ghost use Rattle.sequence_diagram.specs.Folds.{AreOfLine, HasNotedPart, NotesKey, counted_part, keys_text, many_keys, many_parts, no_keys, no_parts, parts_text, sent_part};

use crate::cargo::write_number_and;
use crate::exchanges::{Exchange, exchange_of};
use crate::flights::{Flight, flight_to};
use crate::lines::EventLines;
use crate::moment::Moment;
use i8080_words::R;
use pair_events::{Event, Reply};
use std::fmt;

/// Parts of a copy on one line: how many were sent and how many arrived, the index of the first that was sent, the way of the first
/// that arrived, and whether the copy is whole.
#[derive(Clone, Copy)]
pub struct FoldedParts {
    pub sent: u64,
    pub came: u64,
    pub index: Option<u64>,
    pub flight: Option<Flight>,
    pub is_whole: bool,
}

/// Keys of a terminal on one line: how many were typed and how many were taken, and the way of the first that was taken.
#[derive(Clone, Copy)]
pub struct FoldedKeys {
    pub typed: u64,
    pub taken: u64,
    pub exchange: Option<Exchange>,
}

/// The parts on the line that an event begins.
#[tactic(auto, using(crate::proofs::Folding::of_line, crate::proofs::Folding::of_last_line))]
pub fn parts_from(moments: &[Moment], lines: &EventLines, first: usize) -> FoldedParts
    ensures { AreOfLine (HasNotedPart moments.now) no_parts moments.now lines.now.of.items first result }
{
    let mut parts = FoldedParts {
        sent: 0,
        came: 0,
        index: None,
        flight: None,
        is_whole: false,
    };
    for place in first..moments.len() {
        if lines.line(place) != lines.line(first) {
            return parts;
        }
        parts.note(moments, place);
    }
    parts
}

/// The keys on the line that an event begins.
#[tactic(auto, using(crate::proofs::Folding::of_line, crate::proofs::Folding::of_last_line))]
pub fn keys_from(moments: &[Moment], lines: &EventLines, first: usize) -> FoldedKeys
    ensures { AreOfLine (NotesKey moments.now) no_keys moments.now lines.now.of.items first result }
{
    let mut keys = FoldedKeys {
        typed: 0,
        taken: 0,
        exchange: None,
    };
    for place in first..moments.len() {
        if lines.line(place) != lines.line(first) {
            return keys;
        }
        keys.note(moments, place);
    }
    keys
}

impl FoldedParts {
    // Notes one more event of the line.
    fn note(&mut self, moments: &[Moment], place: usize)
        ensures { HasNotedPart moments.now place self.old self.new }
    {
        let Some(moment) = moments.get(place) else {
            return;
        };
        self.count(moment.event, moment.answer);
        if self.flight.is_none() {
            self.flight = flight_to(moments, place);
        }
    }

    // Counts the part that an event has sent or brought.
    fn count(&mut self, event: Event, answer: R<Reply>)
        ensures { self.new ≡ counted_part event answer self.old }
    {
        match (event, answer) {
            (Event::SendPart { index, .. }, Ok(_)) => self.note_sent(index),
            (_, Ok(Reply::New)) => self.came = self.came.saturating_add(1),
            (_, Ok(Reply::Whole)) => {
                self.came = self.came.saturating_add(1);
                self.is_whole = true;
            }
            _ => {}
        }
    }

    fn note_sent(&mut self, index: u64)
        ensures { self.new ≡ sent_part index self.old }
    {
        self.sent = self.sent.saturating_add(1);
        if self.index.is_none() {
            self.index = Some(index);
        }
    }
}

impl FoldedKeys {
    // Notes one more event of the line.
    fn note(&mut self, moments: &[Moment], place: usize)
        ensures { NotesKey moments.now place self.old self.new }
    {
        let Some(moment) = moments.get(place) else {
            return;
        };
        match moment.event {
            Event::TypeByte { .. } => self.typed = self.typed.saturating_add(1),
            _ => self.taken = self.taken.saturating_add(1),
        }
        if self.exchange.is_none() {
            self.exchange = exchange_of(moment);
        }
    }
}

impl fmt::Display for FoldedParts {
    ghost output = { λ parts. Some (parts_text parts) };

    fn fmt<W: fmt::Write>(&self, f: &mut fmt::Formatter<W>) -> fmt::Result {
        let count = if self.flight.is_some() {
            self.came
        } else {
            self.sent
        };
        match (count, self.index) {
            (1, Some(index)) => write_number_and(f, "part", index, " of the copy"),
            (1, None) => f.write_str("a part of the copy"),
            _ => write_parts(f, count),
        }
    }
}

fn write_parts<W: fmt::Write>(f: &mut fmt::Formatter<W>, count: u64) -> fmt::Result
    ensures { WritesOnOk W.write_str_gives f.old result (many_parts count) f.new }
{
    write!(f, "{count} parts of the copy")
}

impl fmt::Display for FoldedKeys {
    ghost output = { λ keys. Some (keys_text keys.typed keys.taken) };

    fn fmt<W: fmt::Write>(&self, f: &mut fmt::Formatter<W>) -> fmt::Result {
        match (self.typed, self.taken) {
            (typed, 0) => write_number_and(f, "types", typed, " keys"),
            (0, taken) => write_number_and(f, "takes", taken, " keys"),
            (typed, taken) => write_keys(f, typed, taken),
        }
    }
}

fn write_keys<W: fmt::Write>(f: &mut fmt::Formatter<W>, typed: u64, taken: u64) -> fmt::Result
    ensures { WritesOnOk W.write_str_gives f.old result (many_keys typed taken) f.new }
{
    write!(f, "{typed} keys typed, {taken} taken")
}

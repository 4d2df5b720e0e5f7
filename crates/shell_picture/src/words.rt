//! What is said of an event beside its columns.
ghost use Rattle.std.specs.Prelude.{◌≡◌, ◌++◌, Some, codes, slice_get};
ghost use Rattle.std.specs.Fmt.{WritesOnOk};
ghost use Rattle.sequence_diagram.specs.Places.{exchange_of};
ghost use Rattle.sequence_diagram.specs.Words.{note_text};
ghost use Rattle.shell_picture.specs.Words.{IsSaid, SaysExchange, again_text, came_by, came_text, held_back_text, left_by, left_text, operations_at, result_text, said_by, said_text, sent_text, there_text, waits_more};

use sequence_diagram::{
    Carried, Departure, Flight, Moment, NoteText, OutcomeText, OutputWait, departure_from,
    exchange_of, flight_to,
};
use std::fmt::{self, Display};

/// What is said of an event: of none nothing; of an exchange what passes, and the result; of one with messages the one that came, the
/// one that left, or both; of any other what happens.
#[derive(Clone, Copy)]
pub enum Said {
    Nothing,
    Passes(Moment),
    Comes(CameMessage),
    Leaves(LeftMessage),
    Answers {
        came: CameMessage,
        left: LeftMessage,
    },
    Happens {
        here: Moment,
        is_held_back: bool,
    },
}

/// A message that came: the event that sent it, whether it had come before, and the event that brought it.
#[derive(Clone, Copy)]
pub struct CameMessage {
    pub sent: Option<Moment>,
    pub is_again: bool,
    pub here: Moment,
}

/// A message that left: its number, the event that sent it, and whether it comes.
#[derive(Clone, Copy)]
pub struct LeftMessage {
    pub message: u64,
    pub here: Moment,
    pub comes: bool,
}

/// What is said of an event, of all that have happened.
#[tactic(auto, using(crate::proofs::Saying::says_nothing, crate::proofs::Saying::says_here))]
pub fn said_of(moments: &[Moment], waits: &[OutputWait], event: usize) -> Said
    ensures { IsSaid moments.now waits.now event result }
{
    match moment_at(moments, event) {
        Some(here) => said_here(moments, waits, event, here),
        None => Said::Nothing,
    }
}

fn moment_at(moments: &[Moment], event: usize) -> Option<Moment>
    ensures { result ≡ slice_get moments.now event }
{
    moments.get(event).copied()
}

#[tactic(auto, using(crate::proofs::Saying::says_exchange, crate::proofs::Saying::says_other))]
fn said_here(moments: &[Moment], waits: &[OutputWait], event: usize, here: Moment) -> Said
    ensures { SaysExchange moments.now waits.now event here (exchange_of here) result }
{
    match exchange_of(&here) {
        Some(_) => Said::Passes(here),
        None => said_by(
            moments,
            here,
            waits_more(waits, event),
            flight_to(moments, event),
            departure_from(moments, event),
        ),
    }
}

// What is said of an event that is no exchange, by the message that came and the one that left.
fn said_by(
    moments: &[Moment],
    here: Moment,
    is_held_back: bool,
    flight: Option<Flight>,
    departure: Option<Departure>,
) -> Said
    ensures { result ≡ said_by moments.now here is_held_back flight departure }
{
    match (flight, departure) {
        (None, None) => Said::Happens { here, is_held_back },
        (Some(flight), None) => Said::Comes(came_by(moments, here, flight)),
        (None, Some(departure)) => Said::Leaves(left_by(here, departure)),
        (Some(flight), Some(departure)) => Said::Answers {
            came: came_by(moments, here, flight),
            left: left_by(here, departure),
        },
    }
}

fn came_by(moments: &[Moment], here: Moment, flight: Flight) -> CameMessage
    ensures { result ≡ came_by moments.now here flight }
{
    CameMessage {
        sent: moment_at(moments, flight.sent),
        is_again: flight.is_again,
        here,
    }
}

fn left_by(here: Moment, departure: Departure) -> LeftMessage
    ensures { result ≡ left_by here departure }
{
    LeftMessage {
        message: departure.message,
        here,
        comes: departure.came.is_some(),
    }
}

// Whether more output waits after an event than before it.
fn waits_more(waits: &[OutputWait], event: usize) -> bool
    ensures { result ≡ waits_more waits.now event }
{
    match event {
        0 => 0 < operations_at(waits, 0),
        event => operations_at(waits, event - 1) < operations_at(waits, event),
    }
}

// How many operations wait after an event.
fn operations_at(waits: &[OutputWait], event: usize) -> usize
    ensures { result ≡ operations_at waits.now event }
{
    match waits.get(event) {
        Some(wait) => wait.operations,
        None => 0,
    }
}

impl Display for Said {
    ghost output = { λ said. Some (said_text said) };

    fn fmt<W: fmt::Write>(&self, f: &mut fmt::Formatter<W>) -> fmt::Result {
        match *self {
            Said::Nothing => Ok(()),
            Said::Passes(here) => write_passed(f, here),
            Said::Comes(came) => write_came(f, came),
            Said::Leaves(left) => write_left(f, left),
            Said::Answers { came, left } => write_both(f, came, left),
            Said::Happens { here, is_held_back } => write_happened(f, here, is_held_back),
        }
    }
}

// What passes in an exchange, and the result.
fn write_passed<W: fmt::Write>(f: &mut fmt::Formatter<W>, here: Moment) -> fmt::Result
    ensures { WritesOnOk W.write_str_gives f.old result (note_text here ++ result_text here) f.new }
{
    NoteText(here).fmt(f)?;
    write_result(f, here)
}

// What happens, and whether more output is held back than before.
fn write_happened<W: fmt::Write>(
    f: &mut fmt::Formatter<W>,
    here: Moment,
    is_held_back: bool,
) -> fmt::Result
    ensures { WritesOnOk W.write_str_gives f.old result (note_text here ++ held_back_text is_held_back) f.new }
{
    NoteText(here).fmt(f)?;
    f.write_str(held_back_text(is_held_back))
}

fn held_back_text(is_held_back: bool) -> &'static str
    ensures { result.now ≡ held_back_text is_held_back }
{
    if is_held_back { ", held back" } else { "" }
}

// The message that came, and the one that left in answer.
fn write_both<W: fmt::Write>(
    f: &mut fmt::Formatter<W>,
    came: CameMessage,
    left: LeftMessage,
) -> fmt::Result
    ensures { WritesOnOk W.write_str_gives f.old result (came_text came ++ (codes "; " ++ left_text left)) f.new }
{
    write_came(f, came)?;
    f.write_str("; ")?;
    write_left(f, left)
}

// What the message carries that came, whether it had come before, and what came of it.
fn write_came<W: fmt::Write>(f: &mut fmt::Formatter<W>, came: CameMessage) -> fmt::Result
    ensures { WritesOnOk W.write_str_gives f.old result (came_text came) f.new }
{
    write_sent(f, came.sent)?;
    f.write_str(again_text(came.is_again))?;
    write_result(f, came.here)
}

fn again_text(is_again: bool) -> &'static str
    ensures { result.now ≡ again_text is_again }
{
    if is_again { ", again" } else { "" }
}

fn write_sent<W: fmt::Write>(f: &mut fmt::Formatter<W>, sent: Option<Moment>) -> fmt::Result
    ensures { WritesOnOk W.write_str_gives f.old result (sent_text sent) f.new }
{
    match sent {
        Some(sent) => Carried(sent).fmt(f),
        None => Ok(()),
    }
}

// What came of a message or a question, unless that goes without saying.
fn write_result<W: fmt::Write>(f: &mut fmt::Formatter<W>, here: Moment) -> fmt::Result
    ensures { WritesOnOk W.write_str_gives f.old result (result_text here) f.new }
{
    let outcome = OutcomeText(here);
    if outcome.is_plain() {
        return Ok(());
    }
    write!(f, "; {outcome}")
}

// The message that left, what it carries, and whether it comes.
fn write_left<W: fmt::Write>(f: &mut fmt::Formatter<W>, left: LeftMessage) -> fmt::Result
    ensures { WritesOnOk W.write_str_gives f.old result (left_text left) f.new }
{
    let carried = Carried(left.here);
    let there = there_text(left.comes);
    write!(f, "sends message {}: {carried}{there}", left.message)
}

fn there_text(comes: bool) -> &'static str
    ensures { result.now ≡ there_text comes }
{
    if comes { "" } else { ", not there yet" }
}

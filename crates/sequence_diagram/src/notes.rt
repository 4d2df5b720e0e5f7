//! What happens at one place, in words.
ghost use Rattle.std.specs.Prelude.{◌≡◌, Some, codes};
ghost use Rattle.std.specs.Fmt.{WritesOnOk};
ghost use Rattle.pair_events.specs.Printed.{◌␣◌};
ghost use Rattle.sequence_diagram.specs.Words.{after_moves, attempt_text, because_text, done_text, event_text, fault_text, late_attempt, lost_text, moves_text, named_byte, named_text, note_text, operation_text, reason_text, refused_text, run_text, stopped_text};

use crate::cargo::{Byte, write_count, write_number, write_number_and};
use crate::moment::{Moment, delivered};
use event_callbacks::OpId;
use guest_lockstep::{ReplayEnd, StopReason};
use i8080_words::Fault;
use pair_events::{Event, Reply};
use std::fmt::{self, Display};

/// What an event does at its place, or what was refused there. Of an exchange, what passes.
#[derive(Clone, Copy)]
pub struct NoteText(pub Moment);

/// An event by itself: what it does, or was to do. One that is to bring a message is named by that.
#[derive(Clone, Copy)]
pub struct NamedText(pub Event);

/// That something is refused, and why.
#[derive(Clone, Copy)]
pub struct ReasonText(pub Fault);

// An operation; port 0 goes without saying.
#[derive(Clone, Copy)]
struct OperationText(OpId);

impl fmt::Display for NoteText {
    ghost output = { λ note. Some (note_text note.0) };

    fn fmt<W: fmt::Write>(&self, f: &mut fmt::Formatter<W>) -> fmt::Result {
        match self.0.answer {
            Err(fault) => write_refused(f, self.0.event, fault),
            Ok(reply) => write_done(f, self.0.event, reply),
        }
    }
}

// An event that was refused, and why.
fn write_refused<W: fmt::Write>(
    f: &mut fmt::Formatter<W>,
    event: Event,
    fault: Fault,
) -> fmt::Result
    ensures { WritesOnOk W.write_str_gives f.old result (refused_text event fault) f.new }
{
    match fault {
        Fault::Lost => write_lost(f, event),
        other => write_because(f, event, other),
    }
}

// A question to the arbiter was asked even if the other node had won.
fn write_lost<W: fmt::Write>(f: &mut fmt::Formatter<W>, event: Event) -> fmt::Result
    ensures { WritesOnOk W.write_str_gives f.old result (lost_text event) f.new }
{
    match event {
        Event::Suspect { .. } => f.write_str("suspects its peer"),
        other => write_because(f, other, Fault::Lost),
    }
}

fn write_because<W: fmt::Write>(
    f: &mut fmt::Formatter<W>,
    event: Event,
    fault: Fault,
) -> fmt::Result
    ensures { WritesOnOk W.write_str_gives f.old result (because_text event fault) f.new }
{
    write!(f, "{}: {}", NamedText(event), ReasonText(fault))
}

impl fmt::Display for NamedText {
    ghost output = { λ named. Some (named_text named.0) };

    fn fmt<W: fmt::Write>(&self, f: &mut fmt::Formatter<W>) -> fmt::Result {
        match delivered(self.0) {
            Some(message) => write_number(f, "message", message),
            None => write_event(f, self.0),
        }
    }
}

impl fmt::Display for ReasonText {
    ghost output = { λ reason. Some (reason_text reason.0) };

    fn fmt<W: fmt::Write>(&self, f: &mut fmt::Formatter<W>) -> fmt::Result {
        f.write_str("refused, ")?;
        f.write_str(fault_text(self.0))
    }
}

// Why something is refused, in words for which there is room between two columns.
fn fault_text(fault: Fault) -> &'static str
    ensures { result.now ≡ fault_text fault }
{
    match fault {
        Fault::OutOfMemory => "out of memory",
        Fault::Spent => "numbers are spent",
        Fault::LogFull => "the log is full",
        Fault::NotDue => "not due",
        Fault::WrongNumber => "wrong number",
        Fault::StaleRead => "stale read",
        Fault::SectorBusy => "the sector is busy",
        Fault::WrongRole => "wrong role",
        Fault::WrongGeneration => "wrong generation",
        Fault::Malformed => "malformed",
        Fault::NotWhole => "not whole",
        Fault::NotCovered => "not covered",
        Fault::DeviceFault => "device fault",
        Fault::Lost => "lost",
        Fault::Unknown => "there is none",
        Fault::BadAck => "bad acknowledgement",
        Fault::Stalled => "stalled",
        Fault::Idle => "idle",
        Fault::BadScript(_) => "bad script",
    }
}

// What an event has done.
fn write_done<W: fmt::Write>(f: &mut fmt::Formatter<W>, event: Event, reply: Reply) -> fmt::Result
    ensures { WritesOnOk W.write_str_gives f.old result (done_text event reply) f.new }
{
    match reply {
        Reply::Ran { steps, why, .. } => write_run(f, steps, why),
        Reply::Moved { moves, why } => write_moves(f, moves, after_moves(why)),
        Reply::MovedAlone { moves } => write_moves(f, moves, ", then is alone"),
        Reply::Told { keys } => write_number(f, "covered keys:", keys),
        Reply::Stale { pages } => write_number(f, "copies pages early, stale:", pages),
        Reply::Generation { generation } => {
            write_number(f, "begins generation", u64::from(generation))
        }
        _ => write_event(f, event),
    }
}

// Moves that were made, and what came after them.
fn write_moves<W: fmt::Write>(f: &mut fmt::Formatter<W>, moves: u64, after: &str) -> fmt::Result
    ensures { WritesOnOk W.write_str_gives f.old result (moves_text moves after.now) f.new }
{
    write_count(f, "replays", moves, "move", "moves")?;
    f.write_str(after)
}

// Whether no more moves were made for want of a sector.
fn after_moves(why: ReplayEnd) -> &'static str
    ensures { result.now ≡ after_moves why }
{
    match why {
        ReplayEnd::Wait => ", waits for a sector",
        _ => "",
    }
}

// Steps that were executed, and what ended them.
fn write_run<W: fmt::Write>(f: &mut fmt::Formatter<W>, steps: u64, why: StopReason) -> fmt::Result
    ensures { WritesOnOk W.write_str_gives f.old result (run_text steps why) f.new }
{
    match why {
        StopReason::Turns => write_count(f, "runs", steps, "step", "steps"),
        StopReason::Operation(id) => write_operation(f, "gives", id),
        StopReason::Refused(fault) => write_stopped(f, fault),
    }
}

fn write_stopped<W: fmt::Write>(f: &mut fmt::Formatter<W>, fault: Fault) -> fmt::Result
    ensures { WritesOnOk W.write_str_gives f.old result (stopped_text fault) f.new }
{
    match fault {
        Fault::Idle => f.write_str("waits for an interrupt"),
        other => write!(f, "runs until {}", fault_text(other)),
    }
}

// Words and an operation.
fn write_operation<W: fmt::Write>(f: &mut fmt::Formatter<W>, words: &str, id: OpId) -> fmt::Result
    ensures { WritesOnOk W.write_str_gives f.old result (words.now ␣ operation_text id) f.new }
{
    write!(f, "{words} {}", OperationText(id))
}

impl fmt::Display for OperationText {
    ghost output = { λ operation. Some (operation_text operation.0) };

    fn fmt<W: fmt::Write>(&self, f: &mut fmt::Formatter<W>) -> fmt::Result {
        match self.0 {
            OpId::Byte(0, number) => write_number(f, "byte", number),
            OpId::Byte(port, number) => write!(f, "byte {number} of port {port}"),
            OpId::Write(number) => write_number(f, "write", number),
        }
    }
}

// An event by itself: what it would do, or has done.
fn write_event<W: fmt::Write>(f: &mut fmt::Formatter<W>, event: Event) -> fmt::Result
    ensures { WritesOnOk W.write_str_gives f.old result (event_text event) f.new }
{
    match event {
        Event::TypeByte { byte, .. } => write_typed(f, byte),
        Event::TakeKey { index, .. } => write_number(f, "key", index),
        Event::TellSent { number, .. } => write_number_and(f, "byte", number, " was accepted"),
        Event::Release { id, .. } => write_operation(f, "release of", id),
        Event::Suspect { .. } => f.write_str("suspects its peer"),
        Event::Stop { .. } => f.write_str("stops"),
        other => write_attempt(f, other),
    }
}

fn write_typed<W: fmt::Write>(f: &mut fmt::Formatter<W>, byte: u8) -> fmt::Result
    ensures { WritesOnOk W.write_str_gives f.old result (codes "types" ␣ named_byte byte) f.new }
{
    f.write_str("types ")?;
    Byte(byte).fmt(f)
}

// An event that is named only if it was refused.
fn write_attempt<W: fmt::Write>(f: &mut fmt::Formatter<W>, event: Event) -> fmt::Result
    ensures { WritesOnOk W.write_str_gives f.old result (attempt_text event) f.new }
{
    match event {
        Event::Send { index, .. } => write_number(f, "send entry", index),
        Event::SendPart { index, .. } => write_number(f, "send part", index),
        Event::Get { sector, .. } => write_number(f, "read sector", u64::from(sector)),
        Event::BeginPair { host, .. } => write_number(f, "pair with host", host),
        Event::Step { .. } => f.write_str("step"),
        Event::Acknowledge { .. } => f.write_str("acknowledge"),
        other => f.write_str(late_attempt(other)),
    }
}

fn late_attempt(event: Event) -> &'static str
    ensures { result.now ≡ late_attempt event }
{
    match event {
        Event::Replay { .. } | Event::Drain { .. } => "replay",
        Event::Told { .. } => "tell the terminal",
        Event::Fetch { .. } => "read a sector",
        Event::Freshen { .. } => "copy pages early",
        _ => "a message",
    }
}

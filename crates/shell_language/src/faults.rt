//! The refusals that an event may meet, and their words.
ghost use Rattle.std.specs.Prelude.{◌≡◌, Some};
ghost use Rattle.std.specs.Fmt.{WritesOnOk};
ghost use Rattle.shell_language.specs.Refusals.{refusal_words, refusals};

use i8080_words::Fault;
use std::fmt;

// All of them, by their numbers.
static REFUSALS: [Fault; 18] = [
    Fault::OutOfMemory,
    Fault::Spent,
    Fault::LogFull,
    Fault::NotDue,
    Fault::WrongNumber,
    Fault::StaleRead,
    Fault::SectorBusy,
    Fault::WrongRole,
    Fault::WrongGeneration,
    Fault::Malformed,
    Fault::NotWhole,
    Fault::NotCovered,
    Fault::DeviceFault,
    Fault::Lost,
    Fault::Unknown,
    Fault::BadAck,
    Fault::Stalled,
    Fault::Idle,
];

/// The refusals of events, in the order of their numbers.
pub fn refusals() -> &'static [Fault]
    ensures { result.now ≡ refusals }
{
    &REFUSALS
}

/// A refusal that prints as its words. They are those of `Fault`, whose own text no contract states.
#[derive(Clone, Copy)]
pub struct Worded(pub Fault);

impl fmt::Display for Worded {
    ghost output = { λ worded. Some (refusal_words worded.0) };

    fn fmt<W: fmt::Write>(&self, f: &mut fmt::Formatter<W>) -> fmt::Result {
        write_words(f, self.0)
    }
}

fn write_words<W: fmt::Write>(f: &mut fmt::Formatter<W>, fault: Fault) -> fmt::Result
    ensures { WritesOnOk W.write_str_gives f.old result (refusal_words fault) f.new }
{
    match fault {
        Fault::OutOfMemory => f.write_str("out of memory"),
        Fault::Spent => f.write_str("the range of numbers is spent"),
        Fault::LogFull => f.write_str("the log is full"),
        Fault::NotDue => f.write_str("not due"),
        Fault::WrongNumber => f.write_str("wrong number"),
        Fault::StaleRead => f.write_str("stale read"),
        Fault::SectorBusy => f.write_str("the sector is busy"),
        Fault::WrongRole => f.write_str("wrong role"),
        Fault::WrongGeneration => f.write_str("wrong generation"),
        Fault::Malformed => f.write_str("malformed"),
        Fault::NotWhole => f.write_str("not whole"),
        Fault::NotCovered => f.write_str("not covered"),
        Fault::DeviceFault => f.write_str("device fault"),
        Fault::Lost => f.write_str("lost"),
        Fault::Unknown => f.write_str("unknown"),
        Fault::BadAck => f.write_str("bad acknowledgement"),
        Fault::Stalled => f.write_str("stalled"),
        Fault::Idle => f.write_str("idle"),
        Fault::BadScript(line) => write!(f, "bad script at line {line}"),
    }
}

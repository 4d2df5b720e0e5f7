//! Why a day of a pair ended.

use i8080_words::Fault;
use std::fmt;

/// Why a day ended.
#[derive(Clone, Copy)]
pub enum DayEnd {
    /// All turns were made.
    Turns,
    /// As many events have happened without a step of the guest as may.
    Events,
    /// The guest waits for an interrupt, and there is none for it: no key was typed that it has not taken.
    WaitsForKey,
    /// The guest only looks, again and again, whether a key has come, and nothing is left to do for it.
    Polls,
    /// The node was refused a turn.
    Refused(Fault),
}

impl fmt::Display for DayEnd {
    ghost use Rattle.std.specs.Prelude.{Some};
    ghost use Rattle.shell_picture.specs.Endings.{ending_text};

    ghost output = { λ ending. Some (ending_text ending) };

    fn fmt<W: fmt::Write>(&self, f: &mut fmt::Formatter<W>) -> fmt::Result {
        match self {
            DayEnd::Turns => f.write_str("turns"),
            DayEnd::Events => f.write_str("events"),
            DayEnd::WaitsForKey => f.write_str("waits for a key"),
            DayEnd::Polls => f.write_str("polls"),
            DayEnd::Refused(fault) => write!(f, "refused {}", fault.number()),
        }
    }
}

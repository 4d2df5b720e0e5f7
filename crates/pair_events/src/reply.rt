//! The replies to events, and what a node is; each prints in the words of a script's output.

ghost use Rattle.std.specs.Prelude.{Some, codes};
ghost use Rattle.pair_events.specs.declared.reply.Reply.TheVariants as reply;
ghost use Rattle.std.specs.Fmt.{WritesOnOk, decimal};
ghost use Rattle.pair_events.specs.Printed.{moved_text, reply_text, role_text, why_text, ◌␣◌};

use event_callbacks::OpId;
use guest_lockstep::{ReplayEnd, StopReason};
use i8080_words::Fault;
use std::fmt;

/// What a node is to its pair.
#[derive(Clone, Copy, PartialEq, Eq)]
pub enum Role {
    /// It runs, and logs what it does.
    Primary,
    /// It repeats what the primary logged.
    Backup,
    /// It is given a copy of the primary's machine, part by part, and will be the backup.
    Joining,
    /// It was a backup and has won: it repeats what it still holds.
    Draining,
    /// It runs without a peer.
    Alone,
    /// It was stopped, or has lost.
    Halted,
}

/// The answer to an event that was not refused.
#[derive(Clone, Copy)]
pub enum Reply {
    /// The steps executed, the instruction count after them, and why no more were executed.
    Ran {
        steps: u64,
        count: u64,
        why: StopReason,
    },
    /// The byte was typed, as the key of this index.
    Typed {
        index: u64,
    },
    /// The node has taken the input.
    Taken,
    /// A message was sent, under this number.
    Message {
        message: u64,
    },
    /// The backup now holds the entry, or the joining node the part.
    New,
    /// It held it before, or lacks an entry before it: nothing changed.
    Old,
    /// The greatest number of entries that the backup has acknowledged.
    Held {
        held: u64,
    },
    /// The moves made, and why no more were made.
    Moved {
        moves: u64,
        why: ReplayEnd,
    },
    /// The moves made, after which no entry is left and the node is alone.
    MovedAlone {
        moves: u64,
    },
    /// The terminal has accepted the byte.
    Accepted,
    /// The byte is not the next one of its port: the terminal has dropped it.
    Dropped,
    /// How many keys the terminal was told are covered.
    Told {
        keys: u64,
    },
    /// The node has won its generation.
    Won,
    /// The node is the primary of a new pair, of this generation.
    Generation {
        generation: u32,
    },
    /// How many pages of the node's machine are stale: never copied for the image of its next generation, or written
    /// since.
    Stale {
        pages: u64,
    },
    /// Every part has arrived: the node is now a backup.
    Whole,
    /// The node is halted.
    Stopped,
}

impl fmt::Display for Role {
    ghost output = { λ role. Some (role_text role) };

    fn fmt<W: fmt::Write>(&self, f: &mut fmt::Formatter<W>) -> fmt::Result {
        match self {
            Role::Primary => f.write_str("primary"),
            Role::Backup => f.write_str("backup"),
            Role::Joining => f.write_str("joining"),
            Role::Draining => f.write_str("draining"),
            Role::Alone => f.write_str("alone"),
            Role::Halted => f.write_str("halted"),
        }
    }
}

// A reason that prints in those words.
#[derive(Clone, Copy)]
struct Why(StopReason);

impl fmt::Display for Why {
    ghost output = { λ why. Some (why_text why.0) };

    fn fmt<W: fmt::Write>(&self, f: &mut fmt::Formatter<W>) -> fmt::Result {
        match self.0 {
            StopReason::Turns => f.write_str("turns"),
            StopReason::Operation(OpId::Byte(port, number)) => write_byte_name(f, port, number),
            StopReason::Operation(OpId::Write(number)) => write_number(f, "write", number),
            StopReason::Refused(Fault::Idle) => f.write_str("idle"),
            StopReason::Refused(Fault::Spent) => f.write_str("spent"),
            StopReason::Refused(_) => f.write_str("memory"),
        }
    }
}

// The name of a byte.
fn write_byte_name<W: fmt::Write>(f: &mut fmt::Formatter<W>, port: u8, number: u64) -> fmt::Result
    ensures { WritesOnOk W.write_str_gives f.old result (codes "byte" ␣ decimal port ␣ decimal number) f.new }
{
    write!(f, "byte {port} {number}")
}

impl fmt::Display for Reply {
    ghost output = { λ reply. Some (reply_text reply) };

    fn fmt<W: fmt::Write>(&self, f: &mut fmt::Formatter<W>) -> fmt::Result {
        match self {
            Reply::Ran { steps, count, why } => write_ran(f, *steps, *count, *why),
            Reply::Typed { index } => write_number(f, "typed", *index),
            Reply::Taken => f.write_str("taken"),
            Reply::Message { message } => write_number(f, "message", *message),
            Reply::New => f.write_str("new"),
            Reply::Old => f.write_str("old"),
            Reply::Held { held } => write_number(f, "held", *held),
            Reply::Moved { moves, why } => write_moved(f, *moves, *why),
            Reply::MovedAlone { moves } => write_moved_and(f, *moves, "alone"),
            Reply::Accepted => f.write_str("accepted"),
            Reply::Dropped => f.write_str("dropped"),
            Reply::Told { keys } => write_number(f, "told", *keys),
            Reply::Won => f.write_str("won"),
            Reply::Generation { generation } => {
                write_number(f, "generation", u64::from(*generation))
            }
            Reply::Stale { pages } => write_number(f, "stale", *pages),
            Reply::Whole => f.write_str("whole"),
            Reply::Stopped => f.write_str("stopped"),
        }
    }
}

// Steps that were executed, the count after them, and why no more were.
fn write_ran<W: fmt::Write>(
    f: &mut fmt::Formatter<W>,
    steps: u64,
    count: u64,
    why: StopReason,
) -> fmt::Result
    ensures { WritesOnOk W.write_str_gives f.old result (reply_text (reply.Ran steps count why)) f.new }
{
    write!(f, "ran {steps} count {count} {}", Why(why))
}

// Moves that were made, and why no more were.
fn write_moved<W: fmt::Write>(f: &mut fmt::Formatter<W>, moves: u64, why: ReplayEnd) -> fmt::Result
    ensures { WritesOnOk W.write_str_gives f.old result (moved_text moves why) f.new }
{
    match why {
        ReplayEnd::Turns | ReplayEnd::Memory => write_number(f, "moved", moves),
        ReplayEnd::End => write_moved_and(f, moves, "end"),
        ReplayEnd::Wait => write_moved_and(f, moves, "wait"),
    }
}

// Moves that were made, and a word.
fn write_moved_and<W: fmt::Write>(f: &mut fmt::Formatter<W>, moves: u64, word: &str) -> fmt::Result
    ensures { WritesOnOk W.write_str_gives f.old result (codes "moved" ␣ decimal moves ␣ word.now) f.new }
{
    write!(f, "moved {moves} {word}")
}

// A word and a number.
pub(crate) fn write_number<W: fmt::Write>(
    f: &mut fmt::Formatter<W>,
    word: &str,
    number: u64,
) -> fmt::Result
    ensures { WritesOnOk W.write_str_gives f.old result (word.now ␣ decimal number) f.new }
{
    write!(f, "{word} {number}")
}

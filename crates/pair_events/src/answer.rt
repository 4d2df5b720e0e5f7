//! What a line of a script answers, in the words of its output.
ghost use Rattle.std.specs.Prelude.{Some};
ghost use Rattle.std.specs.Fmt.{WritesOnOk};
ghost use Rattle.pair_events.specs.Printed.{accepted_text, answer_text, node_text, packet_text};

use crate::in_hexadecimal::{Hexadecimal, Spaced};
use crate::reply::{Reply, Role, write_number};
use i8080_words::Fault;
use std::fmt::{self, Display};

/// The answer to an event or a query.
#[derive(Clone, Copy)]
pub enum Answer<'a> {
    /// An event happened.
    Reply(Reply),
    /// An event was refused, or what was asked for does not exist.
    Refused(Fault),
    /// The bytes that the terminal of a port has accepted.
    Accepted {
        port: u8,
        bytes: &'a [u8],
    },
    /// The bytes of a message of the log.
    Packet(&'a [u8]),
    /// What a node shows of itself: its role, its generation, from 1, and how many steps its machine has executed, which
    /// is not printed for a joining node.
    Node {
        role: Role,
        generation: u32,
        count: u64,
    },
}

impl fmt::Display for Answer<'_> {
    ghost output = { λ answer. Some (answer_text answer) };

    fn fmt<W: fmt::Write>(&self, f: &mut fmt::Formatter<W>) -> fmt::Result {
        match self {
            Answer::Reply(reply) => reply.fmt(f),
            Answer::Refused(fault) => write_number(f, "refused", u64::from(fault.number())),
            Answer::Accepted { port, bytes } => write_accepted(f, *port, bytes),
            Answer::Packet(bytes) => write_packet(f, bytes),
            Answer::Node {
                role,
                generation,
                count,
            } => write_node(f, *role, *generation, *count),
        }
    }
}

// The bytes that the terminal of a port has accepted.
fn write_accepted<W: fmt::Write>(f: &mut fmt::Formatter<W>, port: u8, bytes: &[u8]) -> fmt::Result
    ensures { WritesOnOk W.write_str_gives f.old result (accepted_text port bytes.now) f.new }
{
    write!(f, "port {port}:{}", Spaced(bytes))
}

// The bytes of a message.
fn write_packet<W: fmt::Write>(f: &mut fmt::Formatter<W>, bytes: &[u8]) -> fmt::Result
    ensures { WritesOnOk W.write_str_gives f.old result (packet_text bytes.now) f.new }
{
    let [first, rest @ ..] = bytes else {
        return Ok(());
    };
    write!(f, "{}{}", Hexadecimal(*first), Spaced(rest))
}

// What a node shows of itself.
fn write_node<W: fmt::Write>(
    f: &mut fmt::Formatter<W>,
    role: Role,
    generation: u32,
    count: u64,
) -> fmt::Result
    ensures { WritesOnOk W.write_str_gives f.old result (node_text role generation count) f.new }
{
    match role {
        Role::Halted => role.fmt(f),
        Role::Joining => write!(f, "{role} {generation}"),
        _ => write!(f, "{role} {generation} count {count}"),
    }
}

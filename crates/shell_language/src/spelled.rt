//! Events as the lines of a script.
ghost use Rattle.std.specs.Prelude.{Some, codes};
ghost use Rattle.std.specs.Fmt.{WritesOnOk, decimal};
ghost use Rattle.pair_events.specs.Printed.{byte_text, ◌␣◌};
ghost use Rattle.shell_language.specs.Spelling.{change_text, effect_text, event_text, operation_text};

use event_callbacks::OpId;
use pair_events::{Event, Hexadecimal};
use std::fmt;

/// An event that prints as the line of a script that says it.
#[derive(Clone, Copy)]
pub struct Spelled(pub Event);

// The name of an operation, as a script has it.
#[derive(Clone, Copy)]
struct OperationName(OpId);

impl fmt::Display for OperationName {
    ghost output = { λ named. Some (operation_text named.0) };

    fn fmt<W: fmt::Write>(&self, f: &mut fmt::Formatter<W>) -> fmt::Result {
        match self.0 {
            OpId::Byte(port, number) => write_two(f, "byte", u64::from(port), number),
            OpId::Write(number) => write_one(f, "write", number),
        }
    }
}

impl fmt::Display for Spelled {
    ghost output = { λ spelled. Some (event_text spelled.0) };

    fn fmt<W: fmt::Write>(&self, f: &mut fmt::Formatter<W>) -> fmt::Result {
        write_event(f, self.0)
    }
}

fn write_event<W: fmt::Write>(f: &mut fmt::Formatter<W>, event: Event) -> fmt::Result
    ensures { WritesOnOk W.write_str_gives f.old result (event_text event) f.new }
{
    match event {
        Event::Step { node, turns } => write_two(f, "step", node, turns),
        Event::TypeByte { port, byte } => write_typed(f, port, byte),
        Event::TakeKey { node, port, index } => write_three(f, "key", node, port, index),
        Event::Send { node, index } => write_two(f, "send", node, index),
        Event::DeliverLog { message, node } => write_two(f, "log", message, node),
        Event::Acknowledge { node } => write_one(f, "ack", node),
        Event::DeliverAcknowledgement { message, node } => write_two(f, "acked", message, node),
        Event::Replay { node, turns } => write_two(f, "replay", node, turns),
        Event::Release { node, id } => write_release(f, node, id),
        other => write_effect(f, other),
    }
}

// An event at a terminal or at the disk.
fn write_effect<W: fmt::Write>(f: &mut fmt::Formatter<W>, event: Event) -> fmt::Result
    ensures { WritesOnOk W.write_str_gives f.old result (effect_text event) f.new }
{
    match event {
        Event::Arrive { message } => write_one(f, "arrive", message),
        Event::TellSent { node, port, number } => write_three(f, "sent", node, port, number),
        Event::Told { node, port } => write_two(f, "told", node, u64::from(port)),
        Event::Put { message } => write_one(f, "put", message),
        Event::PutReply { message, node } => write_two(f, "done", message, node),
        Event::Get { node, sector } => write_two(f, "get", node, u64::from(sector)),
        Event::GetReply { message, node } => write_two(f, "under", message, node),
        Event::Fetch { node } => write_one(f, "fetch", node),
        Event::Fetched { message, node } => write_two(f, "fetched", message, node),
        other => write_change(f, other),
    }
}

// An event that changes what a node is.
fn write_change<W: fmt::Write>(f: &mut fmt::Formatter<W>, event: Event) -> fmt::Result
    ensures { WritesOnOk W.write_str_gives f.old result (change_text event) f.new }
{
    match event {
        Event::Suspect { node } => write_one(f, "suspect", node),
        Event::Drain { node, turns } => write_two(f, "drain", node, turns),
        Event::BeginPair { node, host } => write_two(f, "pair", node, host),
        Event::Freshen { node, pages } => write_two(f, "freshen", node, pages),
        Event::SendPart { node, index } => write_two(f, "sendpart", node, index),
        Event::PartComes { message, node } => write_two(f, "part", message, node),
        Event::Stop { node } => write_one(f, "stop", node),
        _ => Ok(()),
    }
}

fn write_typed<W: fmt::Write>(f: &mut fmt::Formatter<W>, port: u8, byte: u8) -> fmt::Result
    ensures { WritesOnOk W.write_str_gives f.old result (codes "type" ␣ decimal port ␣ byte_text byte) f.new }
{
    write!(f, "type {port} {}", Hexadecimal(byte))
}

fn write_release<W: fmt::Write>(f: &mut fmt::Formatter<W>, node: u64, id: OpId) -> fmt::Result
    ensures { WritesOnOk W.write_str_gives f.old result (codes "release" ␣ decimal node ␣ operation_text id) f.new }
{
    write!(f, "release {node} {}", OperationName(id))
}

// A word and the numbers after it.
fn write_one<W: fmt::Write>(f: &mut fmt::Formatter<W>, word: &str, first: u64) -> fmt::Result
    ensures { WritesOnOk W.write_str_gives f.old result (word.now ␣ decimal first) f.new }
{
    write!(f, "{word} {first}")
}

fn write_two<W: fmt::Write>(
    f: &mut fmt::Formatter<W>,
    word: &str,
    first: u64,
    second: u64,
) -> fmt::Result
    ensures { WritesOnOk W.write_str_gives f.old result (word.now ␣ decimal first ␣ decimal second) f.new }
{
    write!(f, "{word} {first} {second}")
}

fn write_three<W: fmt::Write>(
    f: &mut fmt::Formatter<W>,
    word: &str,
    first: u64,
    port: u8,
    third: u64,
) -> fmt::Result
    ensures { WritesOnOk W.write_str_gives f.old result (word.now ␣ decimal first ␣ decimal port ␣ decimal third) f.new }
{
    write!(f, "{word} {first} {port} {third}")
}

//! The events that a line asks for: all that has not gone yet, or the keys of a text.
ghost use Rattle.std.specs.Prelude.{◌≡◌, IfOk};
ghost use Rattle.clone_state.specs.Parts.{part_count};
ghost use Rattle.pair_shell.specs.Asked.{keys_of, left_of};

use pair_events::Event;
use shell_language::{Book, Quoted, SessionSetup, ShellLine};
use shell_picture::{
    bytes_to_arrive, entries_to_deliver, entries_to_send, parts_to_deliver, parts_to_send,
};
use std::alloc::{AllocError, Global};

/// The events that a line with `all` asks for; other lines ask for none.
pub fn left(
    alloc: Global,
    opening: &SessionSetup,
    book: &Book,
    line: ShellLine<'_>,
) -> Result<Vec<Event>, AllocError>
    ensures { IfOk result (λ events. events.items ≡ left_of line.entry book.now opening.now.setup.guest.drives) }
{
    match line {
        ShellLine::SendAll { node } => entries_to_send(alloc, book, node),
        ShellLine::LogAll { node } => entries_to_deliver(alloc, book, node),
        ShellLine::SendPartAll { node } => {
            parts_to_send(alloc, book, node, parts_of(opening.setup.guest.drives))
        }
        ShellLine::PartAll { node } => parts_to_deliver(alloc, book, node),
        ShellLine::ArriveAll => bytes_to_arrive(alloc, book),
        _ => Ok(Vec::new(alloc)),
    }
}

// How many parts the image of a machine with so many drives has.
pub(crate) fn parts_of(drives: u8) -> u64
    ensures { result ≡ part_count drives }
{
    257 + 77 * u64::from(drives)
}

/// The bytes of a text, each typed at a port.
pub fn keys_of(alloc: Global, port: u8, text: Quoted<'_>) -> Result<Vec<Event>, AllocError>
    ensures { IfOk result (λ events. events.items ≡ keys_of port text.entry) }
{
    let mut events = Vec::new(alloc);
    for byte in &text.bytes(alloc)? {
        events.push(Event::TypeByte { port, byte: *byte })?;
    }
    Ok(events)
}

//! What has not gone yet: the events that make it go.
ghost use Rattle.std.specs.Prelude.{◌≡◌, ◌-◌, IfOk, length};
ghost use Rattle.shell_picture.specs.Series.{event_of, run_of};
ghost use Rattle.shell_picture.specs.declared.series.Series.TheVariants as series;

use crate::series::Series;
use pair_events::Event;
use shell_language::Book;
use std::alloc::{AllocError, Global};

/// The entries that a primary has not sent yet.
pub fn entries_to_send(alloc: Global, book: &Book, node: u64) -> Result<Vec<Event>, AllocError>
    ensures { IfOk result (λ events. events.items
        ≡ run_of (event_of (series.Entries node) book.now) book.now.posted (book.now.logged - book.now.posted)) }
{
    let mut events = Vec::new(alloc);
    Series::Entries { node }.add(book, book.posted, book.logged, &mut events)?;
    Ok(events)
}

/// The log messages that have reached no node yet.
pub fn entries_to_deliver(alloc: Global, book: &Book, node: u64) -> Result<Vec<Event>, AllocError>
    ensures { IfOk result (λ events. events.items
        ≡ run_of (event_of (series.EntriesOut node) book.now) 0 (length book.now.letters.items)) }
{
    let mut events = Vec::new(alloc);
    Series::EntriesOut { node }.add(book, 0, book.messages(), &mut events)?;
    Ok(events)
}

/// The bytes that have not arrived yet.
pub fn bytes_to_arrive(alloc: Global, book: &Book) -> Result<Vec<Event>, AllocError>
    ensures { IfOk result (λ events. events.items
        ≡ run_of (event_of series.BytesOut book.now) 0 (length book.now.letters.items)) }
{
    let mut events = Vec::new(alloc);
    Series::BytesOut.add(book, 0, book.messages(), &mut events)?;
    Ok(events)
}

/// The parts of its image that a primary has not sent yet, of so many.
pub fn parts_to_send(
    alloc: Global,
    book: &Book,
    node: u64,
    parts: u64,
) -> Result<Vec<Event>, AllocError>
    ensures { IfOk result (λ events. events.items
        ≡ run_of (event_of (series.Parts node) book.now) book.now.parts (parts - book.now.parts)) }
{
    let mut events = Vec::new(alloc);
    Series::Parts { node }.add(book, book.parts, parts, &mut events)?;
    Ok(events)
}

/// The messages with a part that have reached no node yet.
pub fn parts_to_deliver(alloc: Global, book: &Book, node: u64) -> Result<Vec<Event>, AllocError>
    ensures { IfOk result (λ events. events.items
        ≡ run_of (event_of (series.PartsOut node) book.now) 0 (length book.now.letters.items)) }
{
    let mut events = Vec::new(alloc);
    Series::PartsOut { node }.add(book, 0, book.messages(), &mut events)?;
    Ok(events)
}

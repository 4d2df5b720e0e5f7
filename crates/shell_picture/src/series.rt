//! Series of events, one after another by a number.
ghost use Rattle.std.specs.Prelude.{◌≡◌, ◌-◌, ◌<◌, ◌^◌, ◌++◌, IfOk, option_to_list};
ghost use Rattle.shell_picture.specs.Series.{event_of, is_byte, is_entry, is_part, run_of};
ghost use Rattle.shell_picture.specs.declared.series.Series.TheVariants as series;

use event_callbacks::OpId;
use pair_events::Event;
use shell_language::{Book, Brings};
use std::alloc::AllocError;

/// What the numbers of a series are.
#[derive(Clone, Copy)]
pub enum Series {
    /// Log entries that a node sends.
    Entries { node: u64 },
    /// Bytes of a port that a node releases; the first has number 0 here.
    Bytes { node: u64, port: u8 },
    /// The writes that are not done, by their place, which a node releases.
    Writes { node: u64 },
    /// Bytes of a port that were accepted, which a node is told; the first has number 0 here.
    Acceptances { node: u64, port: u8 },
    /// Messages: of those with a log entry that are out, each is delivered to a node.
    EntriesOut { node: u64 },
    /// Messages: of those with a byte that are out, each arrives.
    BytesOut,
    /// Parts of an image that a node sends.
    Parts { node: u64 },
    /// Messages: of those with a part that are out, each is delivered to a node.
    PartsOut { node: u64 },
}

impl Series {
    /// Puts the events of the numbers from the first up to the end on the agenda.
    #[tactic(auto, using(crate::proofs::Counting::one_more, crate::proofs::Counting::no_more, crate::proofs::Counting::none_yet))]
    pub fn add(
        self,
        book: &Book,
        first: u64,
        end: u64,
        agenda: &mut Vec<Event>,
    ) -> Result<(), AllocError>
        ensures { IfOk result (λ _. agenda.new.items
            ≡ agenda.old.items ++ run_of (event_of self book.now) first (end - first)) }
    {
        for number in first..end {
            add_some(self.event(book, number), agenda)?;
        }
        Ok(())
    }

    // The event of a number.
    fn event(self, book: &Book, number: u64) -> Option<Event>
        requires { number < 2 ^ 64 - 1 }
        ensures { result ≡ event_of self book.now number }
    {
        match self {
            Series::Entries { node } => Some(Event::Send {
                node,
                index: number,
            }),
            Series::Bytes { node, port } => Some(Event::Release {
                node,
                id: OpId::Byte(port, number + 1),
            }),
            Series::Writes { node } => write_at(book, node, number),
            Series::Acceptances { node, port } => Some(Event::TellSent {
                node,
                port,
                number: number + 1,
            }),
            Series::EntriesOut { node } => entry_out(book, node, number),
            Series::BytesOut => byte_out(book, number),
            Series::Parts { node } => Some(Event::SendPart {
                node,
                index: number,
            }),
            Series::PartsOut { node } => part_out(book, node, number),
        }
    }
}

// Puts an event on the agenda, if there is one.
fn add_some(event: Option<Event>, agenda: &mut Vec<Event>) -> Result<(), AllocError>
    ensures { IfOk result (λ _. agenda.new.items ≡ agenda.old.items ++ option_to_list event) }
{
    if let Some(event) = event {
        agenda.push(event)?;
    }
    Ok(())
}

// The release of the write at a place.
fn write_at(book: &Book, node: u64, place: u64) -> Option<Event>
    ensures { result ≡ event_of (series.Writes node) book.now place }
{
    match book.undone.get(place as usize) {
        Some(number) => Some(Event::Release {
            node,
            id: OpId::Write(*number),
        }),
        None => None,
    }
}

// The delivery of a message with an entry that has reached no node yet.
fn entry_out(book: &Book, node: u64, message: u64) -> Option<Event>
    ensures { result ≡ event_of (series.EntriesOut node) book.now message }
{
    let letter = book.letter(message)?;
    if is_entry(letter.brings) && !letter.has_arrived {
        return Some(Event::DeliverLog { message, node });
    }
    None
}

// The arrival of a byte that has not arrived yet.
fn byte_out(book: &Book, message: u64) -> Option<Event>
    ensures { result ≡ event_of series.BytesOut book.now message }
{
    let letter = book.letter(message)?;
    if is_byte(letter.brings) && !letter.has_arrived {
        return Some(Event::Arrive { message });
    }
    None
}

// The delivery of a message with a part that has reached no node yet.
fn part_out(book: &Book, node: u64, message: u64) -> Option<Event>
    ensures { result ≡ event_of (series.PartsOut node) book.now message }
{
    let letter = book.letter(message)?;
    if is_part(letter.brings) && !letter.has_arrived {
        return Some(Event::PartComes { message, node });
    }
    None
}

/// Whether a message brings a log entry.
pub fn is_entry(brings: Brings) -> bool
    ensures { result ≡ is_entry brings }
{
    matches!(brings, Brings::Entry)
}

/// Whether a message brings a byte of a port.
pub fn is_byte(brings: Brings) -> bool
    ensures { result ≡ is_byte brings }
{
    matches!(brings, Brings::Byte { .. })
}

// Whether a message brings a part of an image.
fn is_part(brings: Brings) -> bool
    ensures { result ≡ is_part brings }
{
    matches!(brings, Brings::Part)
}

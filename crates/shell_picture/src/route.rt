//! The way of the messages in a part of a round: which of them it carries, and to whom.
ghost use Rattle.std.specs.Prelude.{◌≡◌, Some, None, if◌then◌else◌, option_map};
ghost use Rattle.pair_events.specs.declared.event.Event.TheVariants as event;
ghost use Rattle.shell_picture.specs.Routes.{arrival, arrival_at, is_acknowledgement, is_sector, is_write, is_written};

use crate::phase::Phase;
use crate::series::{is_byte, is_entry};
use pair_events::Event;
use shell_language::{Book, Brings};

/// A part of a round, the node that runs the guest, and its backup if it has one.
#[derive(Clone, Copy)]
pub struct Route {
    pub part: Phase,
    pub node: u64,
    pub backup: Option<u64>,
}

impl Route {
    /// The arrival of a message, if this part of the round carries it.
    pub fn arrival_at(self, message: u64, book: &Book) -> Option<Event>
        ensures { result ≡ arrival_at self book.now message }
    {
        match book.letter(message) {
            Some(letter) => self.arrival(message, letter.brings),
            None => None,
        }
    }

    fn arrival(self, message: u64, brings: Brings) -> Option<Event>
        ensures { result ≡ arrival self.part self.node self.backup message brings }
    {
        let node = self.node;
        match self.part {
            Phase::Under => when(is_sector(brings), Event::GetReply { message, node }),
            Phase::Log if is_entry(brings) => self.delivered(message),
            Phase::Acknowledged => when(
                is_acknowledgement(brings),
                Event::DeliverAcknowledgement { message, node },
            ),
            Phase::Fetched if is_sector(brings) => self.fetched(message),
            Phase::Arrive if is_byte(brings) => Some(Event::Arrive { message }),
            Phase::Arrive => when(is_write(brings), Event::Put { message }),
            Phase::Complete => when(is_written(brings), Event::PutReply { message, node }),
            _ => None,
        }
    }

    // An entry reaches the backup.
    fn delivered(self, message: u64) -> Option<Event>
        ensures { result ≡ option_map (λ node. event.DeliverLog message node) self.backup }
    {
        match self.backup {
            Some(node) => Some(Event::DeliverLog { message, node }),
            None => None,
        }
    }

    // A sector reaches the backup.
    fn fetched(self, message: u64) -> Option<Event>
        ensures { result ≡ option_map (λ node. event.Fetched message node) self.backup }
    {
        match self.backup {
            Some(node) => Some(Event::Fetched { message, node }),
            None => None,
        }
    }
}

// An event, if it happens.
fn when(happens: bool, happening: Event) -> Option<Event>
    ensures { result ≡ (if happens then Some happening else None) }
{
    if happens { Some(happening) } else { None }
}

fn is_acknowledgement(brings: Brings) -> bool
    ensures { result ≡ is_acknowledgement brings }
{
    matches!(brings, Brings::Acknowledgement)
}

fn is_sector(brings: Brings) -> bool
    ensures { result ≡ is_sector brings }
{
    matches!(brings, Brings::Sector)
}

fn is_write(brings: Brings) -> bool
    ensures { result ≡ is_write brings }
{
    matches!(brings, Brings::Write)
}

fn is_written(brings: Brings) -> bool
    ensures { result ≡ is_written brings }
{
    matches!(brings, Brings::Written { .. })
}

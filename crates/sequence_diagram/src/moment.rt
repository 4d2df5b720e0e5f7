//! What is told of a run: its events, what was answered to each, and what is seen of the pair after it.
ghost use Rattle.std.specs.Prelude.{◌≡◌};
ghost use Rattle.sequence_diagram.specs.Messages.{brought_by, delivered_by, sent_by};
ghost use Rattle.sequence_diagram.specs.Places.{look_role, role_told};

use disk_dcdd::SectorAddress;
use guest_lockstep::Bare;
use i8080_words::{Fault, R};
use pair_events::{Event, Reply, Role};

/// What a message carries.
#[derive(Clone, Copy)]
pub enum Cargo {
    /// An entry of the log: its index, its count, and its input; none if it is a mark.
    Entry {
        index: u64,
        count: u64,
        input: Option<Bare>,
    },
    /// How many entries the backup holds, and how many it has replayed, if it reports that.
    Acknowledgement {
        held: u64,
        replayed: Option<u64>,
    },
    /// A part of an image.
    Part,
    /// A byte for a terminal, with its number.
    Byte {
        port: u8,
        number: u64,
        byte: u8,
    },
    /// A write for a sector of the disk.
    Write {
        number: u64,
        address: SectorAddress,
    },
    /// The write of this number is done.
    Written {
        number: u64,
    },
    /// What a sector has: the bytes of the write of this number.
    Sector {
        number: u64,
        address: SectorAddress,
    },
}

/// What a node shows of itself.
#[derive(Clone, Copy)]
pub struct NodeLook {
    pub node: u64,
    pub role: Role,
    pub count: u64,
}

/// An event, its answer, the cargo of the message that it sent, if any, and what the node at which it happened shows
/// after it, if any.
#[derive(Clone, Copy)]
pub struct Moment {
    pub event: Event,
    pub answer: R<Reply>,
    pub cargo: Option<Cargo>,
    pub look: Option<NodeLook>,
}

impl Moment {
    /// The message that the event sent.
    pub fn sends(&self) -> Option<u64>
        ensures { result ≡ sent_by self.now }
    {
        match self.answer {
            Ok(Reply::Message { message }) => Some(message),
            _ => None,
        }
    }

    /// The message that the event brought to someone, even if it was refused there; none if either does not exist.
    pub fn brings(&self) -> Option<u64>
        ensures { result ≡ brought_by self.now }
    {
        match self.answer {
            Err(Fault::Unknown) => None,
            _ => delivered(self.event),
        }
    }

    /// The role of a node after the event, if the event tells it.
    pub fn role_of(&self, node: u64) -> Option<Role>
        ensures { result ≡ role_told node self.now }
    {
        match (self.event, self.answer) {
            (Event::BeginPair { host, .. }, Ok(_)) if host == node => Some(Role::Joining),
            _ => look_role(node, self.look),
        }
    }
}

// The role that a node shows of itself.
fn look_role(node: u64, look: Option<NodeLook>) -> Option<Role>
    ensures { result ≡ look_role node look }
{
    let look = look?;
    if look.node == node {
        return Some(look.role);
    }
    None
}

/// The message that an event delivers.
pub fn delivered(event: Event) -> Option<u64>
    ensures { result ≡ delivered_by event }
{
    match event {
        Event::DeliverLog { message, .. } => Some(message),
        Event::DeliverAcknowledgement { message, .. } => Some(message),
        Event::Arrive { message } => Some(message),
        Event::Put { message } => Some(message),
        Event::PutReply { message, .. } => Some(message),
        Event::GetReply { message, .. } => Some(message),
        Event::Fetched { message, .. } => Some(message),
        Event::PartComes { message, .. } => Some(message),
        _ => None,
    }
}

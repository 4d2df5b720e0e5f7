//! An event with its answer, and what is seen of the pair after it.
ghost use Rattle.std.specs.Prelude.{◌≡◌, option_map, slice_get};
ghost use Rattle.ft_world.specs.Applies.{Shows};
ghost use Rattle.ft_world.specs.Shows.{Agree};
ghost use Rattle.ft_world.specs.Standing.{Course};
ghost use Rattle.shared_disk.specs.Failing.{records_in};
ghost use Rattle.sequence_diagram.specs.Places.{node_of};
ghost use Rattle.log_channel.specs.Packet.{packet_at};
ghost use Rattle.log_entry.specs.Entries.{bare_of};
ghost use Rattle.altair_pair.specs.Telling.{Carries, LooksAt, TellsCargo, TellsLook, cargo_of, packet_cargo};

use clone_state::Copies;
use disk_dcdd::SectorAddress;
use ft_world::{Message, World};
use guest_lockstep::Bare;
use i8080_words::R;
use log_channel::Packet;
use log_entry::Entry;
use pair_events::{Event, Reply};
use sequence_diagram::{Cargo, Moment, NodeLook, node_of};
use shared_disk::Disk;

/// An event that has just happened in a world: its answer, the cargo of the message that it sent, and what its node
/// shows, if there are such.
pub fn moment_of<B: Copies<H> + Drop, H: Drop>(
    world: &World<B, Disk, H>,
    event: Event,
    answer: R<Reply>,
) -> Moment
    ensures event { result.event ≡ event }
    ensures answer { result.answer ≡ answer }
    ensures cargo { (c : Course B.State) → Shows B.state B.copied B.machine records_in world.now c
        → TellsCargo c.world.messages answer result.cargo }
    ensures look { (c : Course B.State) → Shows B.state B.copied B.machine records_in world.now c
        → TellsLook B.machine c (node_of event) result.look }
{
    Moment {
        event,
        answer,
        cargo: cargo_sent(world, answer),
        look: look_for(world, event),
    }
}

// What the message that was sent carries, if one was sent.
fn cargo_sent<B: Copies<H> + Drop, H: Drop>(
    world: &World<B, Disk, H>,
    answer: R<Reply>,
) -> Option<Cargo>
    ensures { (c : Course B.State) → Shows B.state B.copied B.machine records_in world.now c
        → TellsCargo c.world.messages answer result }
{
    match answer {
        Ok(Reply::Message { message }) => cargo_at(world, message),
        _ => None,
    }
}

// What the message of a number carries, if there is one.
#[tactic(auto, using(crate::proofs::Carrying::carries, crate::proofs::Carrying::carries_none))]
fn cargo_at<B: Copies<H> + Drop, H: Drop>(world: &World<B, Disk, H>, message: u64) -> Option<Cargo>
    ensures { (c : Course B.State) → Shows B.state B.copied B.machine records_in world.now c
        → Agree Carries (slice_get c.world.messages message) result }
{
    match world.message(message) {
        Some(found) => cargo_of(found),
        None => None,
    }
}

// What a message carries.
fn cargo_of(message: &Message) -> Option<Cargo>
    ensures { result ≡ cargo_of message.now }
{
    match message {
        Message::Log(packet) | Message::Ack(packet) => packed(packet),
        Message::Part(_) => Some(Cargo::Part),
        Message::Byte { port, number, byte } => Some(Cargo::Byte {
            port: *port,
            number: *number,
            byte: *byte,
        }),
        Message::Write(write) => Some(Cargo::Write {
            number: write.number,
            address: write.address(),
        }),
        Message::Written(number) => Some(Cargo::Written { number: *number }),
        Message::Sector(read) => Some(Cargo::Sector {
            number: read.number,
            address: SectorAddress {
                drive: read.drive,
                track: read.track,
                sector: read.sector,
            },
        }),
    }
}

// What a packet of the log carries.
fn packed(bytes: &[u8]) -> Option<Cargo>
    ensures { result ≡ option_map packet_cargo (packet_at bytes.now) }
{
    match Packet::read(bytes) {
        Ok(packet) => Some(packet_cargo(packet)),
        Err(_) => None,
    }
}

fn packet_cargo(packet: Packet) -> Cargo
    ensures { result ≡ packet_cargo packet }
{
    match packet {
        Packet::Log { index, entry, .. } => Cargo::Entry {
            index,
            count: entry.count(),
            input: bare_of(&entry),
        },
        Packet::Ack { held, replayed, .. } => Cargo::Acknowledgement { held, replayed },
    }
}

// The input of an entry, if it is not a mark.
fn bare_of(entry: &Entry) -> Option<Bare>
    ensures { result ≡ bare_of entry.now }
{
    match entry.timed() {
        Some(timed) => Some(timed.input),
        None => None,
    }
}

// What the node shows at which an event happened, if it happened at one.
fn look_for<B: Copies<H> + Drop, H: Drop>(
    world: &World<B, Disk, H>,
    event: Event,
) -> Option<NodeLook>
    ensures { (c : Course B.State) → Shows B.state B.copied B.machine records_in world.now c
        → TellsLook B.machine c (node_of event) result }
{
    match node_of(event) {
        Some(node) => look_at(world, node),
        None => None,
    }
}

// What a node shows.
#[tactic(auto, using(crate::proofs::Carrying::looks))]
fn look_at<B: Copies<H> + Drop, H: Drop>(world: &World<B, Disk, H>, node: u64) -> Option<NodeLook>
    ensures { (c : Course B.State) → Shows B.state B.copied B.machine records_in world.now c
        → LooksAt B.machine c node result }
{
    match world.node(node) {
        Some(status) => Some(NodeLook {
            node,
            role: status.role,
            count: status.count,
        }),
        None => None,
    }
}

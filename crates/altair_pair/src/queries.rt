//! What a query of the script language finds.
ghost use Rattle.std.specs.Prelude.{◌≡◌};
ghost use Rattle.ft_world.specs.Applies.{Shows};
ghost use Rattle.ft_world.specs.Standing.{Course};
ghost use Rattle.shared_disk.specs.Failing.{records_in};
ghost use Rattle.pair_events.specs.Printed.{answer_text};
ghost use Rattle.pair_protocol.specs.World.{accepted};
ghost use Rattle.altair_pair.specs.Queries.{Finds, FindsMessage, FindsNode, screen_text};

use clone_state::Copies;
use event_callbacks::PORTS;
use ft_world::{Message, NodeStatus, World};
use i8080_words::Fault;
use pair_events::Answer;
use script_language::Query;
use shared_disk::Disk;

/// What a query finds in whatever world is shown.
pub fn find<'a, B: Copies<H> + Drop, H: Drop>(
    world: &'a World<B, Disk, H>,
    query: Query,
) -> Answer<'a>
    ensures { (c : Course B.State) → Shows B.state B.copied B.machine records_in world.now c
        → Finds B.machine c.world query (answer_text result) }
{
    match query {
        Query::Show { port } => show(world, port),
        Query::Packet { message } => packet(world, message),
        Query::Node { node } => status(world, node),
    }
}

// The bytes that the terminal of a port has accepted.
fn show<B: Copies<H> + Drop, H: Drop>(world: &World<B, Disk, H>, port: u8) -> Answer<'_>
    ensures { (c : Course B.State) → Shows B.state B.copied B.machine records_in world.now c
        → answer_text result ≡ screen_text port (accepted c.world port) }
{
    if usize::from(port) >= PORTS {
        return Answer::Refused(Fault::Unknown);
    }
    let bytes = world.accepted(port);
    Answer::Accepted { port, bytes }
}

// The bytes of a message between the nodes.
fn packet<B: Copies<H> + Drop, H: Drop>(world: &World<B, Disk, H>, message: u64) -> Answer<'_>
    ensures { (c : Course B.State) → Shows B.state B.copied B.machine records_in world.now c
        → FindsMessage c.world.messages message (answer_text result) }
{
    match world.message(message) {
        Some(Message::Log(packet)) => Answer::Packet(packet),
        Some(Message::Ack(packet)) => Answer::Packet(packet),
        Some(Message::Part(bytes)) => Answer::Packet(bytes),
        _ => Answer::Refused(Fault::Unknown),
    }
}

// What a node shows of itself.
fn status<B: Copies<H> + Drop, H: Drop>(world: &World<B, Disk, H>, node: u64) -> Answer<'_>
    ensures { (c : Course B.State) → Shows B.state B.copied B.machine records_in world.now c
        → FindsNode B.machine c.world.nodes node (answer_text result) }
{
    match world.node(node) {
        Some(
            NodeStatus {
                role,
                generation,
                count,
            },
        ) => Answer::Node {
            role,
            generation,
            count,
        },
        None => Answer::Refused(Fault::Unknown),
    }
}

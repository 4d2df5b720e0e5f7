//! How an outstanding operation is completed.
ghost use Rattle.std.specs.Prelude.{◌≡◌, IsTrue};
ghost use Rattle.ft_world.specs.Applies.{Shows};
ghost use Rattle.ft_world.specs.Standing.{Course, machine_of};
ghost use Rattle.pair_progress.specs.Completion.{IsCompletion};
ghost use Rattle.pair_shell.specs.Allowed.{IsAccepted, IsStage, going_on};

use clone_state::Copies;
use event_callbacks::OpId;
use ft_world::World;
use pair_events::Event;
use shared_disk::SectorStore;

/// How far an outstanding operation is.
#[derive(Clone, Copy)]
pub enum OperationStage {
    /// Its mark is not acknowledged, or a read before it is not reported as replayed.
    Held,
    /// It may be released.
    Covered,
    /// Its terminal has accepted it.
    Accepted,
}

/// How far an outstanding operation of a node is.
pub fn stage_of<B: Copies<H> + Drop, D: SectorStore, H: Drop>(
    world: &World<B, D, H>,
    node: u64,
    id: OpId,
) -> OperationStage
    ensures { (c : Course B.State) → Shows B.state B.copied B.machine D.records world.now c
        → IsStage (machine_of B.machine c) c.world node id result }
{
    if is_accepted(world, id) {
        return OperationStage::Accepted;
    }
    if world.may_release(node, id) {
        OperationStage::Covered
    } else {
        OperationStage::Held
    }
}

// Whether this is a byte that its terminal has accepted.
fn is_accepted<B: Copies<H> + Drop, D: SectorStore, H: Drop>(
    world: &World<B, D, H>,
    id: OpId,
) -> bool
    ensures { (c : Course B.State) → Shows B.state B.copied B.machine D.records world.now c
        → IsTrue result → IsAccepted c.world id }
{
    match id {
        OpId::Byte(port, number) => number <= world.accepted(port).len() as u64,
        OpId::Write(_) => false,
    }
}

// The event by which an operation goes on that is not held: a node is told of a byte that was accepted, and releases any other operation.
pub(crate) fn going_on(node: u64, id: OpId, stage: OperationStage) -> Event
    ensures kind { IsCompletion node result }
    ensures is { result ≡ going_on node id stage }
{
    match (id, stage) {
        (OpId::Byte(port, number), OperationStage::Accepted) => Event::TellSent {
            node,
            port,
            number,
        },
        _ => Event::Release { node, id },
    }
}

// Whether one of these operations is held.
pub(crate) fn is_any_held<B: Copies<H> + Drop, D: SectorStore, H: Drop>(
    world: &World<B, D, H>,
    node: u64,
    names: &[OpId],
) -> bool {
    for id in names {
        if is_held(stage_of(world, node, *id)) {
            return true;
        }
    }
    false
}

fn is_held(stage: OperationStage) -> bool {
    matches!(stage, OperationStage::Held)
}

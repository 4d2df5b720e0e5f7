//! How a node repeats what it holds.
ghost use Rattle.std.specs.Prelude.{◌≡◌, ℕ};
ghost use Rattle.pair_progress.specs.CatchingUp.{IsPair};
ghost use Rattle.pair_progress.specs.Settling.{IsPairing};
ghost use Rattle.pair_progress.specs.Takeover.{IsItsOwn};
ghost use Rattle.pair_protocol.specs.Node.{Draining};
ghost use Rattle.ft_world.specs.Applies.{Shows};
ghost use Rattle.ft_world.specs.Standing.{Course};
ghost use Rattle.pair_shell.specs.Allowed.{IsAllowed};
ghost use Rattle.pair_shell.specs.Serves.{Acts};
ghost use Rattle.pair_shell.specs.Shown.{shown_at};

use clone_state::Copies;
use ft_node::Standing;
use ft_world::World;
use pair_events::Event;
use shared_disk::SectorStore;

/// How far a node is with its log, or with what it holds; nothing of a node that has none.
pub(crate) fn standing_of<B: Copies<H> + Drop, D: SectorStore, H: Drop>(
    world: &World<B, D, H>,
    node: u64,
) -> Standing
    ensures { (c : Course B.State) → Shows B.state B.copied B.machine D.records world.now c → result ≡ shown_at c.world.nodes node }
{
    world.standing(node).unwrap_or(Standing {
        entries: 0,
        done: 0,
    })
}

/// How many steps a node has made.
pub(crate) fn count_of<B: Copies<H> + Drop, D: SectorStore, H: Drop>(
    world: &World<B, D, H>,
    node: u64,
) -> u64 {
    match world.node(node) {
        Some(status) => status.count,
        None => 0,
    }
}

// A backup repeats what it holds, or asks the disk for the sector that it waits for.
pub(crate) fn replaying<B: Copies<H> + Drop, D: SectorStore, H: Drop>(
    world: &World<B, D, H>,
    node: u64,
    end: u64,
) -> Event
    ensures kind { (primary : ℕ) → IsPairing primary node result }
    ensures allowed { (c : Course B.State) → Shows B.state B.copied B.machine D.records world.now c
        → (primary generation : ℕ) → IsPair c.world primary node generation → IsAllowed B.machine c result }
{
    if world.may_fetch(node) {
        return Event::Fetch { node };
    }
    let turns = moves_left(standing_of(world, node), count_of(world, node), end);
    Event::Replay { node, turns }
}

// A node that has won repeats what it still holds, or asks the disk for the sector that it waits for.
pub(crate) fn draining<B: Copies<H> + Drop, D: SectorStore, H: Drop>(
    world: &World<B, D, H>,
    node: u64,
) -> Event
    ensures kind { IsItsOwn node result }
    ensures allowed { (c : Course B.State) → Shows B.state B.copied B.machine D.records world.now c
        → (generation : ℕ) → Acts c.world node Draining generation → IsAllowed B.machine c result }
{
    if world.may_fetch(node) {
        return Event::Fetch { node };
    }
    let (_, end) = world.settled();
    let turns = moves_left(standing_of(world, node), count_of(world, node), end).saturating_add(1);
    Event::Drain { node, turns }
}

// How many moves a node makes at most until it has repeated all that it holds: the entries, and the steps up to the count of
// the last one.
fn moves_left(standing: Standing, count: u64, end: u64) -> u64 {
    let entries = standing.entries.saturating_sub(standing.done);
    end.saturating_sub(count).saturating_add(entries)
}

//! How many events there will be at most.
ghost use Rattle.std.specs.Prelude.{◌≡◌, ◌+◌, ◌*◌, IfOk};
ghost use Rattle.ft_world.specs.Applies.{Shows};
ghost use Rattle.ft_world.specs.Standing.{Course};
ghost use Rattle.pair_protocol.specs.Settled.{highest};
ghost use Rattle.pair_shell.specs.Bound.{IsBound, completions, fetches, left, settling, up_to_greatest};
ghost use Rattle.pair_shell.specs.Outstanding.{AreOut};

use crate::plan::names_of;
use crate::repeating::standing_of;
use crate::serving::{ServingNodes, who_serves};
use board_image::OutstandingWrites;
use clone_state::Copies;
use ft_node::Standing;
use ft_world::World;
use shared_disk::SectorStore;
use std::alloc::{AllocError, Global};

// How many operations are outstanding at most.
const OPERATIONS: u64 = 40;

// What a host holds of the log that has just become the backup.
const NOTHING_HELD: Standing = Standing {
    entries: 0,
    done: 0,
};

/// How many events at most bring a pair to rest, among so many hosts, if an image has so many parts: the bound of the law, with
/// each entry that is not replayed counted as a read.
pub fn most_events<B: Copies<H> + OutstandingWrites + Drop, D: SectorStore, H: Drop>(
    alloc: Global,
    world: &World<B, D, H>,
    hosts: u64,
    parts: u64,
) -> Result<u64, AllocError>
    ensures { IfOk result (λ most. (c : Course B.State) → Shows B.state B.copied B.machine D.records world.now c
        → IsBound B.state B.OutstandingWrites.writes B.machine c.world hosts parts (highest c.world.nodes) most) }
{
    match who_serves(world, hosts) {
        ServingNodes::Nobody => Ok(0),
        ServingNodes::Primary { node } => Ok(completed(count_of(
            alloc, world, node,
        )?).saturating_add(1)),
        ServingNodes::Alone { node } => Ok(completed(count_of(alloc, world, node)?)),
        ServingNodes::Backup { node } => Ok(drained(2, standing_of(world, node))),
        ServingNodes::Draining { node } => Ok(drained(1, standing_of(world, node))),
        ServingNodes::Joining { node, .. } => {
            let names = count_of(alloc, world, node)?;
            Ok(joined(parts, paired(standing_of(world, node), NOTHING_HELD, names)))
        }
        ServingNodes::Pair { node, backup } => {
            let names = count_of(alloc, world, node)?;
            Ok(paired(standing_of(world, node), standing_of(world, backup), names))
        }
    }
}

// How many operations are outstanding at a node.
fn count_of<B: Copies<H> + OutstandingWrites + Drop, D: SectorStore, H: Drop>(
    alloc: Global,
    world: &World<B, D, H>,
    node: u64,
) -> Result<u64, AllocError>
    ensures { IfOk result (λ count. (c : Course B.State) → Shows B.state B.copied B.machine D.records world.now c
        → AreOut B.state B.OutstandingWrites.writes B.machine c.world node count) }
{
    Ok(names_of(alloc, world, node)?.len() as u64)
}

// Three events for each operation that is outstanding.
fn completed(names: u64) -> u64
    ensures { result ≡ up_to_greatest (completions names) }
{
    names.saturating_mul(3)
}

// Two events for each part of an image, and then those of a pair.
fn joined(parts: u64, paired: u64) -> u64
    ensures { result ≡ up_to_greatest (2 * parts + paired) }
{
    parts.saturating_mul(2).saturating_add(paired)
}

// A node that repeats what it holds, and completes what is outstanding then.
fn drained(first: u64, held: Standing) -> u64
    ensures { result ≡ up_to_greatest (first + fetches (left held) + completions 40) }
{
    let reads = held.entries.saturating_sub(held.done);
    reads
        .saturating_mul(3)
        .saturating_add(first)
        .saturating_add(completed(OPERATIONS))
}

// A pair: two events for each entry that the backup lacks, three for each that it has not replayed, five for each operation, and five.
fn paired(log: Standing, held: Standing, names: u64) -> u64
    ensures { result ≡ up_to_greatest (settling log held names) }
{
    let lacks = log.entries.saturating_sub(held.entries);
    let reads = log.entries.saturating_sub(held.done);
    lacks
        .saturating_mul(2)
        .saturating_add(reads.saturating_mul(3))
        .saturating_add(names.saturating_mul(5))
        .saturating_add(5)
}

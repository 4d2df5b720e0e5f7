//! What a pair has: what a query finds, a sector, and all that the single machine has to agree with.
ghost use Rattle.std.specs.Prelude.{◌≡◌, ◌==◌, ◌&&◌, IfOk, length};
ghost use Rattle.pair_shell.specs.Looking.{Asks, Reads};
ghost use Rattle.altair_pair.specs.Disks.{over_records};

use altair_pair::{compare, find, sector_of};
use clone_state::Copies;
use disk_dcdd::SectorAddress;
use ft_world::World;
use guest_lockstep::Timed;
use script_language::Query;
use shared_disk::Disk;
use shell_language::{Printed, SessionSetup};
use shell_picture::{print_refusal, print_sector};
use std::alloc::{AllocError, Global};

/// What a query finds.
#[tactic(auto, using(crate::proofs::Finding::asks))]
pub fn show_found<B: Copies<H> + Drop, H: Drop>(
    world: &World<B, Disk, H>,
    query: Query,
    printed: &mut Printed,
) -> Result<(), AllocError>
    ensures { IfOk result (λ _. Asks B.state B.copied B.machine query world.now printed.old printed.new) }
{
    printed.line(&find(world, query))
}

/// What the disk has in a sector.
#[tactic(auto, using(crate::proofs::Finding::reads))]
pub fn show_sector<B: Copies<H> + Drop, H: Drop>(
    world: &mut World<B, Disk, H>,
    address: SectorAddress,
    printed: &mut Printed,
) -> Result<(), AllocError>
    ensures unchanged { over_records world.new ≡ over_records world.old }
    ensures found { IfOk result (λ _. Reads B.state B.copied B.machine address world.new printed.old printed.new) }
{
    print_sector(address, sector_of(world, address), printed)
}

/// Compares what is settled with the single machine.
pub fn check<B: Copies<H> + Drop, H: Drop>(
    alloc: Global,
    opening: &SessionSetup,
    world: &mut World<B, Disk, H>,
    printed: &mut Printed,
) -> Result<(), AllocError>
    ensures { over_records world.new ≡ over_records world.old }
{
    match compare(alloc, world, &opening.setup.guest, &opening.sectors) {
        Ok(verdict) => printed.line(&verdict)?,
        Err(fault) => return print_refusal(fault, printed),
    }
    let (inputs, count) = world.settled();
    if is_unsettled(inputs, count) {
        return printed.line(&"  nothing is settled so far: no input and no output");
    }
    Ok(())
}

// Whether nothing is settled: no input, and no step that may have given an output.
fn is_unsettled(inputs: &[Timed], count: u64) -> bool
    ensures { result ≡ ((count == 0) && (length inputs.now == 0)) }
{
    count == 0 && inputs.is_empty()
}

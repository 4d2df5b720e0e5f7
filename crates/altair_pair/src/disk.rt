//! What a sector of the program's disk has, on a device that may fail once.
ghost use Rattle.std.specs.Prelude.{◌≡◌, IfErr, IfOk, OnErr};
ghost use Rattle.ft_world.specs.Applies.{IsSectorOf, Shows};
ghost use Rattle.ft_world.specs.Standing.{Course, machine_of};
ghost use Rattle.i8080_words.specs.declared.refusal.Fault.TheVariants.{Unknown};
ghost use Rattle.shared_disk.specs.Records.{IsThere};
ghost use Rattle.altair_pair.specs.Disks.{over_records};

use clone_state::Copies;
use disk_dcdd::SectorAddress;
use ft_world::World;
use i8080_words::{Fault, R};
use shared_disk::{Disk, SectorRead};

/// What a sector of a pair's disk has. A device that fails is asked once more: it fails only once. `Unknown` if the disk
/// has no such sector.
#[tactic(auto, using(crate::proofs::Disks::only_counts, crate::proofs::Disks::disk_over, crate::proofs::Disks::not_there, crate::proofs::Disks::is_unknown, crate::proofs::Disks::not_twice))]
pub fn sector_of<B: Copies<H> + Drop, H: Drop>(
    world: &mut World<B, Disk, H>,
    address: SectorAddress,
) -> R<SectorRead>
    ensures ok { IfOk result (λ read. (c : Course B.State)
        → Shows B.state B.copied B.machine (λ records. records) (over_records world.old) c
        → IsSectorOf (machine_of B.machine c) c.world address read) }
    ensures missing { OnErr result (IsThere (over_records world.old).disk address → ⊥) }
    ensures unknown { IfErr result (λ fault. fault ≡ Unknown) }
    ensures unchanged { over_records world.new ≡ over_records world.old }
{
    match world.sector(address) {
        Err(Fault::DeviceFault) => world.sector(address),
        answer => answer,
    }
}

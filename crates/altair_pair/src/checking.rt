//! Whether a pair has done what one never-failing machine does.
ghost use Rattle.std.specs.Prelude.{◌≡◌, ◌↔◌, ℕ, ◌<◌, IfErr, IfOk, IsTrue};
ghost use Rattle.disk_dcdd.specs.declared.drive.TheConstants.{TRACKS};
ghost use Rattle.disk_dcdd.specs.declared.sector.TheConstants.{SECTORS};
ghost use Rattle.guest_board.specs.Guest.{altair};
ghost use Rattle.i8080_words.specs.declared.refusal.Fault.TheVariants.{OutOfMemory};
ghost use Rattle.plain_single.specs.SingleState.{output_of};
ghost use Rattle.plain_single.specs.Image.{boot_sectors, sector_at};
ghost use Rattle.pair_protocol.specs.Faithful.{IsAllBut};
ghost use Rattle.pair_protocol.specs.World.{accepted};
ghost use Rattle.ft_world.specs.Applies.{Shows};
ghost use Rattle.ft_world.specs.Standing.{Course, machine_of};
ghost use Rattle.altair_pair.specs.Comparing.{IsAnswer, IsVerdictOn, deeds_of};
ghost use Rattle.shared_disk.specs.Failing.{records_in};
ghost use Rattle.altair_pair.specs.Disks.{over_records};
ghost use Rattle.altair_pair.specs.Sectors.{EachOf, IsBad, IsGood, SomeOf, Tells, address_at};

use crate::disk::sector_of;
use crate::judging::{WINDOW, is_all_but, may_have, never_fall};
use crate::verdict::Verdict;
use clone_state::Copies;
use disk_dcdd::{SECTORS, SectorAddress, SectorWrite, TRACKS};
use ft_world::World;
use guest_board::Setup;
use guest_lockstep::Timed;
use i8080_words::{Fault, R};
use plain_single::Single;
use shared_disk::Disk;
use std::alloc::Global;

/// Runs the single machine of this setup from the inputs that are settled in a pair. `Same` if each terminal has accepted
/// the machine's output, or all but the last 16 bytes, and each sector of the pair's disk has the bytes of the machine's
/// disk or of a write of the machine that is not settled as done. `OutOfMemory` if the allocator refuses memory.
pub fn compare<B: Copies<H> + Drop, H: Drop>(
    alloc: Global,
    world: &mut World<B, Disk, H>,
    setup: &Setup,
    sectors: &[SectorWrite],
) -> R<Verdict>
    ensures verdict { IfOk result (λ verdict. (c : Course B.State)
        → Shows B.state B.copied B.machine records_in world.old c
        → IsVerdictOn (altair setup.now (boot_sectors sectors.now)) setup.now.drives (machine_of B.machine c) c.world
        world.old.disk.store verdict) }
    ensures only_memory { IfErr result (λ fault. fault ≡ OutOfMemory) }
    ensures unchanged { over_records world.new ≡ over_records world.old }
{
    let single = Single::boot(alloc, setup, sectors)?;
    let (inputs, count) = world.settled();
    let inputs = inputs.to_vec(alloc)?;
    if !never_fall(&inputs) {
        return Ok(Verdict::Differs);
    }
    let single = match single.run(alloc, &inputs, count) {
        Ok(single) => single,
        Err(fault) => match fault {
            Fault::OutOfMemory => return Err(fault),
            _ => return Ok(Verdict::Differs),
        },
    };
    if is_alike(world, &single, setup.drives, &inputs) {
        Ok(Verdict::Same { count })
    } else {
        Ok(Verdict::Differs)
    }
}

// Whether the pair has done the same as the machine.
fn is_alike<B: Copies<H> + Drop, H: Drop>(
    world: &mut World<B, Disk, H>,
    single: &Single,
    drives: u8,
    inputs: &[Timed],
) -> bool
    ensures answer { (c : Course B.State) → Shows B.state B.copied B.machine records_in world.old c
        → IsAnswer drives (deeds_of (machine_of B.machine c) c.world inputs.now) world.old.disk.store
        (output_of single.now) single.now.behind.writes (sector_at single.now.disk) result }
    ensures unchanged { over_records world.new ≡ over_records world.old }
{
    has_output(world, single) && has_disk(world, single, drives, inputs)
}

// Whether each terminal has accepted what the machine has sent, or all but its last bytes.
fn has_output<B: Copies<H> + Drop, H: Drop>(world: &World<B, Disk, H>, single: &Single) -> bool
    ensures { (c : Course B.State) → Shows B.state B.copied B.machine records_in world.now c
        → IsTrue result ↔ ((port : ℕ) → port < 2 → IsAllBut 16 (accepted c.world port) (output_of single.now port)) }
{
    is_all_but(WINDOW, world.accepted(0), single.outputs(0))
        && is_all_but(WINDOW, world.accepted(1), single.outputs(1))
}

// Whether each sector has what the machine's disk has, or what an outstanding write brings.
fn has_disk<B: Copies<H> + Drop, H: Drop>(
    world: &mut World<B, Disk, H>,
    single: &Single,
    drives: u8,
    inputs: &[Timed],
) -> bool
    ensures tells { Tells
        (EachOf drives (λ drive. EachOf TRACKS (λ track. EachOf SECTORS
        (λ sector. IsGood B.state B.copied B.machine (over_records world.old) single.now inputs.now (address_at drive track sector)))))
        (SomeOf drives (λ drive. SomeOf TRACKS (λ track. SomeOf SECTORS
        (λ sector. IsBad B.state B.copied B.machine (over_records world.old) single.now inputs.now (address_at drive track sector)))))
        result }
    ensures unchanged { over_records world.new ≡ over_records world.old }
{
    for drive in 0..drives {
        if !has_drive(world, single, drive, inputs) {
            return false;
        }
    }
    true
}

fn has_drive<B: Copies<H> + Drop, H: Drop>(
    world: &mut World<B, Disk, H>,
    single: &Single,
    drive: u8,
    inputs: &[Timed],
) -> bool
    ensures tells { Tells
        (EachOf TRACKS (λ track. EachOf SECTORS
        (λ sector. IsGood B.state B.copied B.machine (over_records world.old) single.now inputs.now (address_at drive track sector))))
        (SomeOf TRACKS (λ track. SomeOf SECTORS
        (λ sector. IsBad B.state B.copied B.machine (over_records world.old) single.now inputs.now (address_at drive track sector))))
        result }
    ensures unchanged { over_records world.new ≡ over_records world.old }
{
    for track in 0..TRACKS {
        if !has_track(world, single, drive, track, inputs) {
            return false;
        }
    }
    true
}

fn has_track<B: Copies<H> + Drop, H: Drop>(
    world: &mut World<B, Disk, H>,
    single: &Single,
    drive: u8,
    track: u8,
    inputs: &[Timed],
) -> bool
    ensures tells { Tells
        (EachOf SECTORS (λ sector. IsGood B.state B.copied B.machine (over_records world.old) single.now inputs.now (address_at drive track sector)))
        (SomeOf SECTORS (λ sector. IsBad B.state B.copied B.machine (over_records world.old) single.now inputs.now (address_at drive track sector)))
        result }
    ensures unchanged { over_records world.new ≡ over_records world.old }
{
    for sector in 0..SECTORS {
        let address = SectorAddress {
            drive,
            track,
            sector,
        };
        if !has_sector(world, single, address, inputs) {
            return false;
        }
    }
    true
}

fn has_sector<B: Copies<H> + Drop, H: Drop>(
    world: &mut World<B, Disk, H>,
    single: &Single,
    address: SectorAddress,
    inputs: &[Timed],
) -> bool
    ensures tells { Tells
        (IsGood B.state B.copied B.machine (over_records world.old) single.now inputs.now address)
        (IsBad B.state B.copied B.machine (over_records world.old) single.now inputs.now address)
        result }
    ensures unchanged { over_records world.new ≡ over_records world.old }
{
    match sector_of(world, address) {
        Ok(read) => may_have(single, inputs, address, &read.bytes),
        Err(_) => false,
    }
}

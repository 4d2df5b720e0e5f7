//! How a pair of Altairs boots.
ghost use Rattle.std.specs.Prelude.{◌≡◌, ◌⊎◌, IfErr, IfOk, map};
ghost use Rattle.event_callbacks.specs.declared.devices.TheConstants.{SENT, SECTOR, WRITTEN};
ghost use Rattle.event_callbacks.specs.Keeping.{Keeps};
ghost use Rattle.guest_board.specs.Guest.{guest_at_boot};
ghost use Rattle.altair_laws.specs.Copies.{image_copy};
ghost use Rattle.guest_board.specs.Inputs.{some_altair};
ghost use Rattle.i8080_words.specs.declared.refusal.Fault.TheVariants.{OutOfMemory, Unknown};
ghost use Rattle.script_language.specs.Scripts.{boot_write};
ghost use Rattle.shared_disk.specs.Records.{AreOnDrives};
ghost use Rattle.altair_pair.specs.Booting.{IsBooted};

use crate::beginning::{AltairsOn, boot_pair};
use disk_dcdd::SectorWrite;
use event_callbacks::{Callbacks, Completes};
use i8080_words::R;
use script_language::{BootSector, ScriptSetup};
use shared_disk::{Disk, FailOnce, MemoryStore};
use std::alloc::Global;

/// A pair of Altairs over the program's disk.
pub type Altairs<T, S, W> = AltairsOn<T, S, W, Disk>;

/// A pair of this setup, with its spare hosts. `Unknown` if a sector is on a drive that is not attached.
pub fn boot<T: Completes + Drop + Copy, S: Completes + Drop + Copy, W: Completes + Drop + Copy>(
    alloc: Global,
    setup: &ScriptSetup,
    sectors: &[SectorWrite],
    sent: T,
    sector: S,
    written: W,
) -> R<Altairs<T, S, W>>
    requires sent { Keeps (T.may sent) (T.gives sent) SENT }
    requires sector { Keeps (S.may sector) (S.gives sector) SECTOR }
    requires written { Keeps (W.may written) (W.gives written) WRITTEN }
    ensures booted { IfOk result (λ world. IsBooted (λ d. d.board.guest) (λ d. d.board.guest) some_altair
        (image_copy setup.now.guest.drives) setup.now.guest.reads (guest_at_boot setup.now.guest)
        setup.now.guest.drives setup.now.failing_access setup.now.hosts sectors.now world) }
    ensures refused { IfErr result (λ fault. (fault ≡ OutOfMemory)
        ⊎ ((fault ≡ Unknown) × (AreOnDrives setup.now.guest.drives sectors.now → ⊥))) }
{
    let mut world = boot_two(alloc, setup, sectors, sent, sector, written)?;
    'hosts: for _number in 2..setup.hosts {
        if let Err((_, fault)) = world.host(Callbacks::of(sent, sector, written)) {
            return Err(fault);
        }
    }
    Ok(world)
}

// A pair of this setup, with no spare host.
fn boot_two<T: Completes + Drop + Copy, S: Completes + Drop + Copy, W: Completes + Drop + Copy>(
    alloc: Global,
    setup: &ScriptSetup,
    sectors: &[SectorWrite],
    sent: T,
    sector: S,
    written: W,
) -> R<Altairs<T, S, W>>
    requires sent { Keeps (T.may sent) (T.gives sent) SENT }
    requires sector { Keeps (S.may sector) (S.gives sector) SECTOR }
    requires written { Keeps (W.may written) (W.gives written) WRITTEN }
    ensures booted { IfOk result (λ world. IsBooted (λ d. d.board.guest) (λ d. d.board.guest) some_altair
        (image_copy setup.now.guest.drives) setup.now.guest.reads (guest_at_boot setup.now.guest)
        setup.now.guest.drives setup.now.failing_access 2 sectors.now world) }
    ensures refused { IfErr result (λ fault. (fault ≡ OutOfMemory)
        ⊎ ((fault ≡ Unknown) × (AreOnDrives setup.now.guest.drives sectors.now → ⊥))) }
{
    let records = MemoryStore::at_boot(alloc, setup.guest.drives, sectors)?;
    let disk = FailOnce::new(records, setup.failing_access);
    let primary = Callbacks::of(sent, sector, written);
    let backup = Callbacks::of(sent, sector, written);
    match boot_pair(alloc, &setup.guest, disk, primary, backup) {
        Ok(world) => Ok(world),
        Err((_, _, _, fault)) => Err(fault),
    }
}

/// The sectors at boot, as writes that come before every write of a guest.
pub fn writes_of(alloc: Global, sectors: &[BootSector]) -> R<Vec<SectorWrite>>
    ensures { IfOk result (λ writes. writes.items ≡ map boot_write sectors.now) }
{
    let mut writes = Vec::with_capacity(alloc, sectors.len())?;
    for sector in sectors {
        writes.push(sector.write())?;
    }
    Ok(writes)
}

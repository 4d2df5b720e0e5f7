//! The disk of a console at boot, and where its copy is.
ghost use Rattle.std.specs.Prelude.{◌≡◌, IfOk};
ghost use Rattle.disk_file.specs.Drives.{all_records};
ghost use Rattle.shared_disk.specs.Records.{HasWholeSectors, IsAtBoot, IsUnwritten};

use crate::mirror::{Mirror, Mirrored, Shelf};
use command_io::ScriptInput;
use disk_file::{DriveFiles, FileDevice};
use i8080_words::{Fault, R};
use rtrb::RingBuffer;
use shared_disk::{MemoryStore, SectorStore, SharedDisk};
use std::alloc::Global;
use std::sync::Arc;

// How many writes wait at most until the copy of the disk has them.
const WRITES: usize = 1_024;

/// The records of an input at boot, which are those of these drives, and where their copy is. `Unknown` if the drives have others.
pub(crate) fn mirrored_store(
    alloc: Global,
    input: &ScriptInput,
    drives: DriveFiles<FileDevice>,
) -> R<(Mirrored, Arc<Shelf>)>
    ensures at_boot { IfOk result (λ r. IsAtBoot (all_records r.0.store) input.now.script.setup.guest.drives input.now.sectors.items) }
    ensures unwritten { IfOk result (λ r. IsUnwritten (all_records r.0.store)) }
    ensures whole { IfOk result (λ r. HasWholeSectors (all_records r.0.store)) }
{
    let mut copy = store_of(alloc, input)?;
    let drives = checked(input, drives, &mut copy)?;
    let (to, from) = RingBuffer::new(alloc, WRITES)?;
    let mirror = Mirror {
        disk: SharedDisk::new(copy),
        writes: from,
    };
    let shelf = Arc::new(alloc, Shelf::new(mirror))?;
    let shared = Arc::clone(&shelf)?;
    Ok((Mirrored::new(drives, to, shared), shelf))
}

// These drives, if they have just the records of an input at boot, as these are.
fn checked(
    input: &ScriptInput,
    drives: DriveFiles<FileDevice>,
    boot: &mut MemoryStore,
) -> R<DriveFiles<FileDevice>>
    requires at_boot { IsAtBoot boot.old input.now.script.setup.guest.drives input.now.sectors.items }
    ensures at_boot { IfOk result (λ r. IsAtBoot (all_records r) input.now.script.setup.guest.drives input.now.sectors.items) }
    ensures unwritten { IfOk result (λ r. IsUnwritten (all_records r)) }
    ensures whole { IfOk result (λ r. HasWholeSectors (all_records r)) }
    ensures boot { boot.new ≡ boot.old }
{
    let mut drives = drives;
    if !drives.is_like(boot, input.script.setup.guest.drives) {
        return Err(Fault::Unknown);
    }
    drives.has_whole_sectors();
    Ok(drives)
}

// The records of an input at boot.
fn store_of(alloc: Global, input: &ScriptInput) -> R<MemoryStore>
    ensures at_boot { IfOk result (λ store. IsAtBoot store input.now.script.setup.guest.drives input.now.sectors.items) }
    ensures unwritten { IfOk result (λ store. IsUnwritten store) }
    ensures whole { IfOk result (λ store. HasWholeSectors store) }
{
    let store = MemoryStore::at_boot(alloc, input.script.setup.guest.drives, &input.sectors)?;
    store.has_whole_sectors();
    Ok(store)
}

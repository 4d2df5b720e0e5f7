//! A journal that never grows long: it is taken up before a block that would make it so.
ghost use Rattle.std.specs.Prelude.{◌≡◌, ◌+◌, ◌*◌, ◌<◌, ◌≤◌, IfOk, OnOk};
ghost use Rattle.disk_file.specs.Device.{LeavesOnly, Only};
ghost use Rattle.disk_file.specs.Sectors.{IsBeforeOrAfter, Resting, contents, with_sector};

use crate::journal::{BLOCK_BYTES, append};
use crate::recovery::take_up;
use crate::{CrashableFile, DeviceError};
use disk_dcdd::SECTOR_BYTES;
use std::alloc::Global;

// How many bytes a journal has at most: 4,096 blocks.
const JOURNAL_BYTES: usize = 4096 * BLOCK_BYTES;

// Where a journal ends once it has room for a block. If it has none it is taken up into the image.
fn make_room<D: CrashableFile>(
    alloc: Global,
    device: &mut D,
    sectors: usize,
    end: usize,
) -> Result<usize, DeviceError>
    requires rests { Resting sectors end (D.seen device.old) }
    requires durable { Only (D.seen device.old) (D.may_leave device.old) }
    requires few { sectors ≤ 65536 }
    requires short { end ≤ 137 * sectors + 573440 }
    ensures rests { IfOk result (λ end. Resting sectors end (D.seen device.new)) }
    ensures room { IfOk result (λ end. end + 140 ≤ 137 * sectors + 573440) }
    ensures same { OnOk result (contents sectors (D.seen device.new) ≡ contents sectors (D.seen device.old)) }
    ensures durable { OnOk result (Only (D.seen device.new) (D.may_leave device.new)) }
    ensures any_moment { LeavesOnly D.moment D.left_since device.old device.new
        (λ c. contents sectors c ≡ contents sectors (D.seen device.old)) }
{
    let image = SECTOR_BYTES * sectors;
    if end + BLOCK_BYTES <= image + JOURNAL_BYTES {
        return Ok(end);
    }
    take_up(alloc, device, sectors)?;
    Ok(image)
}

/// Adds a block to a journal that ends there, as `append` does, and returns where it ends then: 4,096 blocks after the
/// image at most. At `Err` the file has to be opened again; `MemoryFile` if memory ran out.
pub fn add<D: CrashableFile>(
    alloc: Global,
    device: &mut D,
    sectors: usize,
    end: usize,
    place: u16,
    bytes: &[u8; SECTOR_BYTES],
) -> Result<usize, DeviceError>
    requires rests { Resting sectors end (D.seen device.old) }
    requires durable { Only (D.seen device.old) (D.may_leave device.old) }
    requires few { sectors ≤ 65536 }
    requires short { end ≤ 137 * sectors + 573440 }
    requires fits { place < sectors }
    ensures rests { IfOk result (λ end. Resting sectors end (D.seen device.new)) }
    ensures short { IfOk result (λ end. end ≤ 137 * sectors + 573440) }
    ensures written { OnOk result (contents sectors (D.seen device.new)
        ≡ with_sector (contents sectors (D.seen device.old)) place bytes.now) }
    ensures durable { OnOk result (Only (D.seen device.new) (D.may_leave device.new)) }
    // A crash at any moment of the call leaves the disk from before it, with the new sector or without.
    ensures any_moment { LeavesOnly D.moment D.left_since device.old device.new
        (IsBeforeOrAfter sectors (contents sectors (D.seen device.old)) place bytes.now) }
{
    let end = make_room(alloc, device, sectors, end)?;
    append(device, sectors, end, place, bytes)?;
    Ok(end + BLOCK_BYTES)
}

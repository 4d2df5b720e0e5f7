//! The journal behind an image: a block for each sector that was written since the image was.
ghost use Rattle.std.specs.Prelude.{◌≡◌, ◌+◌, ◌*◌, ◌<◌, ◌≤◌, ◌^◌, ◌++◌, [], ◌∷◌, ℕ, length, IfOk, OnOk, IsErrOf};
ghost use Rattle.disk_file.specs.Device.{Only, LeavesOnly};
ghost use Rattle.disk_file.specs.Sectors.{contents, with_sector, Resting, IsBeforeOrAfter};

use crate::through::write_through;
use crate::{CrashableFile, DeviceError};
use disk_dcdd::SECTOR_BYTES;

// How many bytes a block of the journal has: its gate, the place of a sector in two bytes, and the sector's bytes.
pub(crate) const BLOCK_BYTES: usize = 140;

// How long a file may be, in bytes.
const MAX_BYTES: usize = 1 << 60;

// A block of the journal without its gate, and then the closed gate of the next.
fn block_of(place: u16, bytes: &[u8; SECTOR_BYTES]) -> [u8; BLOCK_BYTES]
    ensures { (low high : ℕ) × (low + high * 256 ≡ place) × (length bytes.now ≡ 137)
        × (result ≡ low ∷ high ∷ bytes.now ++ 0 ∷ []) }
{
    let [low, high] = place.to_le_bytes();
    let mut block = [0; BLOCK_BYTES];
    block[0] = low;
    block[1] = high;
    block[2..139].copy_from_slice(bytes);
    block
}

/// Adds a block to the journal of a file that has this many sectors and ends there. At `Ok` it is on the disk: from then
/// on each crash leaves a file that has it. At `Err` the file has to be opened again.
pub fn append<D: CrashableFile>(
    device: &mut D,
    sectors: usize,
    end: usize,
    place: u16,
    bytes: &[u8; SECTOR_BYTES],
) -> Result<(), DeviceError>
    requires rests { Resting sectors end (D.seen device.old) }
    requires durable { Only (D.seen device.old) (D.may_leave device.old) }
    requires fits { place < sectors }

    ensures rests { OnOk result (Resting sectors (end + 140) (D.seen device.new)) }
    ensures written { OnOk result (contents sectors (D.seen device.new)
        ≡ with_sector (contents sectors (D.seen device.old)) place bytes.now) }
    ensures durable { OnOk result (Only (D.seen device.new) (D.may_leave device.new)) }

    // A crash at any moment of the call leaves the disk from before it, with the new sector or without.
    ensures any_moment { LeavesOnly D.moment D.left_since device.old device.new
        (IsBeforeOrAfter sectors (contents sectors (D.seen device.old)) place bytes.now) }

    ensures room { OnOk result (end < 2 ^ 60) }

    // It does not give up by itself.
    ensures failed { IsErrOf result DeviceError.Failed → D.faults device.old < D.faults device.new }
    ensures full { IsErrOf result DeviceError.Full → 2 ^ 60 ≤ end }
    ensures short { IsErrOf result DeviceError.Short → ⊥ }
{
    if end >= MAX_BYTES {
        return Err(DeviceError::Full);
    }
    let block = block_of(place, bytes);
    write_through(device, end + 1, &block)?;
    write_through(device, end, &[1])
}

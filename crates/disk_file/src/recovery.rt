//! Taking the journal of a file up into its image.
ghost use Rattle.std.specs.Prelude.{◌≡◌, ◌+◌, ◌*◌, ◌<◌, ◌≤◌, ◌++◌, [], ◌∷◌, List, ℕ, length, take, drop, IfSome, IsNone, OnOk, IsErrOf};
ghost use Rattle.disk_file.specs.Device.{Only, LeavesOnly};
ghost use Rattle.disk_file.specs.Sectors.{Entry, contents, journal_of, Redone, Resting};

use crate::through::{cut_through, write_through};
use crate::{CrashableFile, DeviceError};
use disk_dcdd::SECTOR_BYTES;
use std::alloc::Global;

// The first entry of a journal: the place of a sector, its bytes, and the journal after it.
pub(crate) fn first_entry(sectors: usize, journal: &[u8]) -> Option<(usize, &[u8], &[u8])>
    ensures entry { IfSome result (λ e. journal_of sectors journal.now
        ≡ record { place = e.0; bytes = e.1.now } ∷ journal_of sectors e.2.now) }
    ensures fits { IfSome result (λ e. (e.0 < sectors) × (length e.1.now ≡ 137)
        × (length e.2.now < length journal.now)) }
    ensures after { IfSome result (λ e. e.2.now ≡ drop 140 journal.now) }
    ensures none { IsNone result → journal_of sectors journal.now ≡ [] }
{
    let [1, low, high, after @ ..] = journal else {
        return None;
    };
    let place = *low as usize + *high as usize * 256;
    if after.len() < SECTOR_BYTES || place >= sectors {
        return None;
    }
    Some((place, &after[..SECTOR_BYTES], &after[SECTOR_BYTES..]))
}

// Writes the entries of a file's journal into its image. The journal stands.
fn redo<D: CrashableFile>(device: &mut D, sectors: usize, journal: &[u8]) -> Result<(), DeviceError>
    requires is { journal.now ≡ drop (137 * sectors) (D.seen device.old) }
    requires long { 137 * sectors ≤ length (D.seen device.old) }
    requires few { sectors ≤ 65536 }
    requires durable { Only (D.seen device.old) (D.may_leave device.old) }
    ensures done { OnOk result (take (137 * sectors) (D.seen device.new) ≡ contents sectors (D.seen device.old)) }
    ensures redone { OnOk result (Redone sectors (D.seen device.old) (D.seen device.new)) }
    ensures durable { OnOk result (Only (D.seen device.new) (D.may_leave device.new)) }
    ensures any_moment { LeavesOnly D.moment D.left_since device.old device.new (Redone sectors (D.seen device.old)) }
    ensures failed { IsErrOf result DeviceError.Failed → D.faults device.old < D.faults device.new }
    ensures time { D.faults device.old ≤ D.faults device.new }
    ensures full { IsErrOf result DeviceError.Full → ⊥ }
    ensures short { IsErrOf result DeviceError.Short → ⊥ }
{
    let mut rest = journal;
    while let Some((place, bytes, after)) = first_entry(sectors, rest) {
        device.write_at(SECTOR_BYTES * place, bytes)?;
        rest = after;
    }
    device.sync()
}

// Shuts the first gate of a journal that is in the image.
fn shut_first<D: CrashableFile>(
    device: &mut D,
    sectors: usize,
    journal: &[u8],
) -> Result<(), DeviceError>
    requires is { journal.now ≡ drop (137 * sectors) (D.seen device.old) }
    requires long { 137 * sectors ≤ length (D.seen device.old) }
    requires few { sectors ≤ 65536 }
    requires durable { Only (D.seen device.old) (D.may_leave device.old) }
    requires done { contents sectors (D.seen device.old) ≡ take (137 * sectors) (D.seen device.old) }
    ensures image { OnOk result (take (137 * sectors) (D.seen device.new) ≡ take (137 * sectors) (D.seen device.old)) }
    ensures long { OnOk result (137 * sectors ≤ length (D.seen device.new)) }
    ensures nothing { OnOk result (journal_of sectors (drop (137 * sectors) (D.seen device.new)) ≡ []) }
    ensures durable { OnOk result (Only (D.seen device.new) (D.may_leave device.new)) }
    ensures any_moment { LeavesOnly D.moment D.left_since device.old device.new
        (λ c. contents sectors c ≡ take (137 * sectors) (D.seen device.old)) }
    ensures failed { IsErrOf result DeviceError.Failed → D.faults device.old < D.faults device.new }
    ensures time { D.faults device.old ≤ D.faults device.new }
    ensures full { IsErrOf result DeviceError.Full → ⊥ }
    ensures short { IsErrOf result DeviceError.Short → ⊥ }
{
    let [1, ..] = journal else {
        return Ok(());
    };
    write_through(device, SECTOR_BYTES * sectors, &[0])
}

// Cuts off a journal that stands for nothing, and writes the closed gate of a new one.
fn cut_off<D: CrashableFile>(device: &mut D, sectors: usize) -> Result<(), DeviceError>
    requires long { 137 * sectors ≤ length (D.seen device.old) }
    requires few { sectors ≤ 65536 }
    requires durable { Only (D.seen device.old) (D.may_leave device.old) }
    requires nothing { journal_of sectors (drop (137 * sectors) (D.seen device.old)) ≡ [] }
    ensures image { OnOk result (D.seen device.new ≡ take (137 * sectors) (D.seen device.old) ++ 0 ∷ []) }
    ensures durable { OnOk result (Only (D.seen device.new) (D.may_leave device.new)) }
    ensures any_moment { LeavesOnly D.moment D.left_since device.old device.new
        (λ c. contents sectors c ≡ take (137 * sectors) (D.seen device.old)) }
    ensures failed { IsErrOf result DeviceError.Failed → D.faults device.old < D.faults device.new }
    ensures time { D.faults device.old ≤ D.faults device.new }
    ensures full { IsErrOf result DeviceError.Full → ⊥ }
    ensures short { IsErrOf result DeviceError.Short → ⊥ }
{
    let end = SECTOR_BYTES * sectors;
    cut_through(device, end)?;
    write_through(device, end, &[0])
}

/// Takes the journal of a file that a crash may have left up into its image: at `Ok` the file is the image of the disk that
/// it stood for, and a closed gate. It may crash too, and is then done again. `Short` if the file is no such image.
pub fn take_up<D: CrashableFile>(
    alloc: Global,
    device: &mut D,
    sectors: usize,
) -> Result<(), DeviceError>
    // After a restart, what is read is what is on the disk.
    requires durable { Only (D.seen device.old) (D.may_leave device.old) }
    requires few { sectors ≤ 65536 }

    ensures image { OnOk result (D.seen device.new ≡ contents sectors (D.seen device.old) ++ 0 ∷ []) }
    ensures size { OnOk result (length (contents sectors (D.seen device.old)) ≡ 137 * sectors) }
    ensures rests { OnOk result (Resting sectors (137 * sectors) (D.seen device.new)) }
    ensures same { OnOk result (contents sectors (D.seen device.new) ≡ contents sectors (D.seen device.old)) }
    ensures durable { OnOk result (Only (D.seen device.new) (D.may_leave device.new)) }

    // A crash at any moment leaves the same disk.
    ensures any_moment { LeavesOnly D.moment D.left_since device.old device.new
        (λ c. contents sectors c ≡ contents sectors (D.seen device.old)) }

    ensures failed { IsErrOf result DeviceError.Failed → D.faults device.old < D.faults device.new }
    ensures time { D.faults device.old ≤ D.faults device.new }
    ensures full { IsErrOf result DeviceError.Full → ⊥ }
    ensures short { IsErrOf result DeviceError.Short → length (D.seen device.old) < 137 * sectors }
{
    let bytes = device.read(alloc)?;
    if bytes.len() < SECTOR_BYTES * sectors {
        return Err(DeviceError::Short);
    }
    let journal = &bytes[SECTOR_BYTES * sectors..];
    redo(device, sectors, journal)?;
    shut_first(device, sectors, journal)?;
    cut_off(device, sectors)
}

/// The same, and then cuts off the closed gate: at `Ok` the file is an ordinary image of the disk that it stood for.
pub fn finish<D: CrashableFile>(
    alloc: Global,
    device: &mut D,
    sectors: usize,
) -> Result<(), DeviceError>
    requires durable { Only (D.seen device.old) (D.may_leave device.old) }
    requires few { sectors ≤ 65536 }

    ensures image { OnOk result (D.seen device.new ≡ contents sectors (D.seen device.old)) }
    ensures size { OnOk result (length (D.seen device.new) ≡ 137 * sectors) }
    ensures durable { OnOk result (Only (D.seen device.new) (D.may_leave device.new)) }

    // A crash at any moment leaves the same disk.
    ensures any_moment { LeavesOnly D.moment D.left_since device.old device.new
        (λ c. contents sectors c ≡ contents sectors (D.seen device.old)) }

    ensures failed { IsErrOf result DeviceError.Failed → D.faults device.old < D.faults device.new }
    ensures full { IsErrOf result DeviceError.Full → ⊥ }
{
    take_up(alloc, device, sectors)?;
    cut_through(device, SECTOR_BYTES * sectors)
}

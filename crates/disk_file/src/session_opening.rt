//! Opening a disk in a file, and ending its session.
ghost use Rattle.std.specs.Prelude.{◌≡◌, ◌+◌, ◌*◌, ◌≤◌, ◌++◌, [], ◌∷◌, All, List, ℕ, length, None, IfErr, IfOk, OnOk};
ghost use Rattle.shared_disk.specs.declared.store.Record.{Record};
ghost use Rattle.disk_file.specs.Device.{LeavesOnly, Only};
ghost use Rattle.disk_file.specs.Sectors.{contents};
ghost use Rattle.disk_file.specs.Kept.{AreWhole, IsKept, StandsFor, bytes_of};

use crate::kept::{FileRecords, sized};
use crate::recovery::{finish, take_up};
use crate::{CrashableFile, DeviceError};
use disk_dcdd::SECTOR_BYTES;
use shared_disk::Record;
use std::alloc::{AllocError, Global};

// The record of the first sector of an image, and the image after it.
fn first_record(image: &[u8]) -> (Record, &[u8])
    requires more { 137 ≤ length image.now }
    ensures bytes { image.now ≡ result.0.bytes ++ result.1.now }
    ensures size { length result.0.bytes ≡ 137 }
    ensures shorter { 137 + length result.1.now ≡ length image.now }
    ensures unwritten { result.0.number ≡ 0 }
{
    let mut bytes = [0; SECTOR_BYTES];
    bytes.copy_from_slice(&image[..SECTOR_BYTES]);
    sized(&bytes);
    (Record { number: 0, bytes }, &image[SECTOR_BYTES..])
}

// The records of an image, to none of which a write has arrived.
#[tactic(auto, using(crate::proofs::Images::push_record, crate::proofs::Images::push_whole))]
fn records_of(alloc: Global, image: &[u8]) -> Result<Vec<Record>, AllocError>
    requires whole { (n : ℕ) × (length image.now ≡ 137 * n) }
    ensures bytes { IfOk result (λ records. (bytes_of records.items ≡ image.now) × AreWhole records.items) }
    ensures unwritten { IfOk result (λ records. All (λ (r : Record). r.number ≡ 0) records.items) }
    ensures count { IfOk result (λ records. 137 * length records.items ≡ length image.now) }
{
    let mut records = Vec::new(alloc);
    let mut rest = image;
    while rest.len() >= SECTOR_BYTES {
        let (record, after) = first_record(rest);
        records.push(record)?;
        rest = after;
    }
    Ok(records)
}

/// Opens the disk that a file stands for, which a crash may have left. It may crash too, and then the file stands for the
/// same disk. An `Err` hands the file back.
pub fn open_kept<D: CrashableFile>(
    alloc: Global,
    sectors: usize,
    device: D,
) -> Result<FileRecords<D>, (DeviceError, D)>
    // After a restart, what is read is what is on the disk.
    requires durable { Only (D.seen device) (D.may_leave device) }
    requires few { sectors ≤ 65536 }
    ensures kept { IfOk result (λ kept. IsKept D.seen D.may_leave kept × (kept.pending ≡ None)) }
    ensures disk { IfOk result (λ kept. (bytes_of kept.records.items ≡ contents sectors (D.seen device))
        × (length kept.records.items ≡ sectors)) }
    ensures unwritten { IfOk result (λ kept. All (λ (r : Record). r.number ≡ 0) kept.records.items) }
    ensures any_moment { IfOk result (λ kept. LeavesOnly D.moment D.left_since device kept.device
        (λ c. contents sectors c ≡ contents sectors (D.seen device))) }
    ensures any_moment_err { IfErr result (λ e. LeavesOnly D.moment D.left_since device e.1
        (λ c. contents sectors c ≡ contents sectors (D.seen device))) }
{
    let mut device = device;
    if let Err(error) = take_up(alloc, &mut device, sectors) {
        return Err((error, device));
    }
    let records = match read_records(alloc, &mut device, sectors) {
        Ok(records) => records,
        Err(error) => return Err((error, device)),
    };
    Ok(FileRecords {
        alloc,
        device,
        records,
        end: SECTOR_BYTES * sectors,
        pending: None,
        error: None,
    })
}

// The records of a file that has been taken up.
fn read_records<D: CrashableFile>(
    alloc: Global,
    device: &mut D,
    sectors: usize,
) -> Result<Vec<Record>, DeviceError>
    requires durable { Only (D.seen device.old) (D.may_leave device.old) }
    requires few { sectors ≤ 65536 }
    requires rests { (disk : List ℕ) × (D.seen device.old ≡ disk ++ 0 ∷ []) × (length disk ≡ 137 * sectors) }
    ensures bytes { IfOk result (λ records. (bytes_of records.items ++ 0 ∷ [] ≡ D.seen device.old)
        × AreWhole records.items) }
    ensures unwritten { IfOk result (λ records. All (λ (r : Record). r.number ≡ 0) records.items) }
    ensures count { IfOk result (λ records. length records.items ≡ sectors) }
    ensures seen { D.seen device.new ≡ D.seen device.old }
    ensures durable { Only (D.seen device.new) (D.may_leave device.new) }
    ensures any_moment { LeavesOnly D.moment D.left_since device.old device.new (λ c. c ≡ D.seen device.old) }
{
    let bytes = device.read(alloc)?;
    Ok(records_of(alloc, &bytes[..SECTOR_BYTES * sectors])?)
}

/// Ends a session. At `Ok` the file is an ordinary image of the disk.
pub fn close_kept<D: CrashableFile>(
    alloc: Global,
    kept: FileRecords<D>,
) -> (D, Result<(), DeviceError>)
    requires kept { IsKept D.seen D.may_leave kept }
    ensures image { OnOk result.1 (D.seen result.0 ≡ bytes_of kept.records.items) }
    ensures durable { OnOk result.1 (Only (D.seen result.0) (D.may_leave result.0)) }
    ensures any_moment { LeavesOnly D.moment D.left_since kept.device result.0
        (StandsFor (length kept.records.items) (bytes_of kept.records.items) kept.pending) }
{
    let FileRecords {
        alloc: _,
        mut device,
        records,
        end: _,
        pending,
        error: _,
    } = kept;
    match pending {
        Some(_) => (device, Err(DeviceError::Failed)),
        None => {
            let ended = finish(alloc, &mut device, records.len());
            (device, ended)
        }
    }
}

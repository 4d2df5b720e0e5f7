//! The records of a disk, in memory and in a file.
ghost use Rattle.std.specs.Prelude.{◌≡◌, ◌<◌, ◌≤◌, length, slice_set, None, Some, IfErr, OnErr, OnOk};
ghost use Rattle.disk_file.specs.Device.{LeavesOnly};
ghost use Rattle.disk_file.specs.Sectors.{IsBeforeOrAfter};
ghost use Rattle.disk_file.specs.Kept.{IsKept, StandsFor, bytes_of, pending_with};

use crate::room::add;
use crate::{CrashableFile, DeviceError};
use disk_dcdd::SECTOR_BYTES;
use shared_disk::Record;
use std::alloc::Global;

/// A write of a sector in which the device failed: it may be on the disk or not.
#[derive(Clone, Copy)]
pub struct PendingWrite {
    pub place: usize,
    pub bytes: [u8; SECTOR_BYTES],
}

/// Records, the file that has them, the offset of its last gate, the write in which the device failed, and its error.
#[derive(Drop)]
pub struct FileRecords<D: CrashableFile> {
    pub alloc: Global,
    pub device: D,
    pub records: Vec<Record>,
    pub end: usize,
    pub pending: Option<PendingWrite>,
    pub error: Option<DeviceError>,
}

// The bytes of a sector are as many as their type says.
pub(crate) fn sized(bytes: &[u8; SECTOR_BYTES])
    ensures { length bytes.now ≡ 137 }
{}

impl<D: CrashableFile> FileRecords<D> {
    /// Puts a record into a place. At `Ok` it is on the disk, and each crash from then on leaves it there. At `Err` the
    /// device has failed: no record changes, and no further write succeeds.
    pub fn put(&mut self, place: usize, content: Record) -> Result<(), DeviceError>
        requires kept { IsKept D.seen D.may_leave self.old }
        requires there { place < length self.old.records.items }
        ensures kept { IsKept D.seen D.may_leave self.new }
        ensures ok { OnOk result (self.new.records.items ≡ slice_set self.old.records.items place content) }
        ensures unchanged { OnErr result (self.new.records.items ≡ self.old.records.items) }
        ensures works { OnOk result (self.old.pending ≡ None) }
        ensures durable { OnOk result (self.new.pending ≡ None) }

        // A crash at any moment of the call leaves the records from before it, with the new one or without; if the device
        // had failed before, with the one in which it failed or without.
        ensures any_moment { LeavesOnly D.moment D.left_since self.old.device self.new.device
            (StandsFor (length self.old.records.items) (bytes_of self.old.records.items)
            (pending_with self.old.pending place content.bytes)) }
    {
        match self.pending {
            Some(_) => Err(DeviceError::Failed),
            None => self.put_working(place, content),
        }
    }

    // The same while the device works.
    fn put_working(&mut self, place: usize, content: Record) -> Result<(), DeviceError>
        requires kept { IsKept D.seen D.may_leave self.old }
        requires works { self.old.pending ≡ None }
        requires there { place < length self.old.records.items }
        ensures kept { IsKept D.seen D.may_leave self.new }
        ensures ok { OnOk result (self.new.records.items ≡ slice_set self.old.records.items place content) }
        ensures unchanged { OnErr result (self.new.records.items ≡ self.old.records.items) }
        ensures durable { OnOk result (self.new.pending ≡ None) }
        ensures told { IfErr result (λ error. self.new.error ≡ Some error) }
        ensures any_moment { LeavesOnly D.moment D.left_since self.old.device self.new.device
            (IsBeforeOrAfter (length self.old.records.items) (bytes_of self.old.records.items) place content.bytes) }
    {
        sized(&content.bytes);
        let sectors = self.records.len();
        let bytes = content.bytes;
        match add(
            self.alloc,
            &mut self.device,
            sectors,
            self.end,
            place as u16,
            &bytes,
        ) {
            Ok(end) => {
                self.end = end;
                self.records[place] = content;
                Ok(())
            }
            Err(error) => {
                self.pending = Some(PendingWrite { place, bytes });
                self.error = Some(error);
                Err(error)
            }
        }
    }
}

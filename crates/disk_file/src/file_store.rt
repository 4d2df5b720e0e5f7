//! A store of records in a file: each write is on the disk before it is answered.
ghost use Rattle.std.specs.Prelude.{◌≡◌, ◌⊎◌, ◌+◌, ◌*◌, ◌≤◌, All, length, None, IsNone, IfErr, IfOk, OnErr, OnOk};
ghost use Rattle.i8080_words.specs.declared.refusal.Fault.TheVariants.{DeviceFault};
ghost use Rattle.shared_disk.specs.Failing.{before_failures};
ghost use Rattle.shared_disk.specs.Records as table;
ghost use Rattle.disk_file.specs.Device.{LeavesOnly, Only};
ghost use Rattle.disk_file.specs.Sectors.{contents};
ghost use Rattle.shared_disk.specs.declared.store.Record.{Record};
ghost use Rattle.disk_file.specs.Kept.{StandsFor, bytes_of, pending_in};

use crate::kept::FileRecords;
use crate::session_opening::{close_kept, open_kept};
use crate::{CrashableFile, DeviceError};
use disk_dcdd::{DRIVE_SECTORS, SectorAddress};
use i8080_words::{Fault, R};
use shared_disk::{Record, SectorStore};
use std::alloc::Global;
use std::marker::Model;

/// Records in a file. Once the device has failed or memory has run out in a write, which is answered `DeviceFault`, no
/// further write succeeds: the file has to be opened again.
#[derive(Drop)]
pub struct FileStore<D: CrashableFile> {
    kept: FileRecords<D>,
}

impl<D: CrashableFile> Model for FileStore<D> {
    ghost use Rattle.disk_file.specs.Kept.{IsKept};
    ghost use Rattle.disk_file.specs.declared.kept.FileRecords.{FileRecords};

    ghost Value = { FileRecords D };

    ghost view = { λ s. s.kept };

    ghost invariant = { λ s. IsKept D.seen D.may_leave s.kept };
}

impl<D: CrashableFile> FileStore<D> {
    /// Opens the disk of this many drives that a file stands for, which a crash may have left. To no sector of it has a
    /// write of this session arrived. It may crash too, and then the file stands for the same disk. An `Err` hands the
    /// file back.
    pub fn open(alloc: Global, drives: u8, device: D) -> Result<FileStore<D>, (DeviceError, D)>
        // After a restart, what is read is what is on the disk.
        requires durable { Only (D.seen device) (D.may_leave device) }
        requires few { drives ≤ 26 }
        ensures disk { IfOk result (λ store. bytes_of store.records.items
            ≡ contents (drives * 2464) (D.seen device)) }
        ensures size { IfOk result (λ store. length store.records.items ≡ drives * 2464) }
        ensures unwritten { IfOk result (λ store. All (λ (r : Record). r.number ≡ 0) store.records.items) }
        ensures works { IfOk result (λ store. store.pending ≡ None) }
        ensures any_moment { IfOk result (λ store. LeavesOnly D.moment D.left_since device store.device
            (λ c. contents (drives * 2464) c ≡ contents (drives * 2464) (D.seen device))) }
        ensures any_moment_err { IfErr result (λ e. LeavesOnly D.moment D.left_since device e.1
            (λ c. contents (drives * 2464) c ≡ contents (drives * 2464) (D.seen device))) }
    {
        match open_kept(alloc, drives as usize * DRIVE_SECTORS, device) {
            Ok(kept) => Ok(FileStore { kept }),
            Err(error) => Err(error),
        }
    }

    /// The record of a sector. `Unknown` if there is no such sector.
    pub fn record(&self, address: SectorAddress) -> R<Record>
        ensures ok { IfOk result (λ found. table.IsAt self.now.records.items address found) }
        ensures refused { IfErr result (λ fault. fault ≡ table.refusal_at self.now.records.items address) }
    {
        let place = address.index().ok_or(Fault::Unknown)?;
        self.kept.records.get(place).copied().ok_or(Fault::Unknown)
    }

    /// The file.
    pub fn device(&self) -> &D
        ensures { result.now ≡ self.now.device }
    {
        &self.kept.device
    }

    /// Why no further write succeeds: `MemoryFile` if memory ran out in one, and `Failed` if the device failed; `None` while
    /// the store works.
    pub fn error(&self) -> Option<DeviceError>
        ensures error { result ≡ self.now.error }
        ensures works { IsNone result → self.now.pending ≡ None }
    {
        self.kept.error
    }

    /// Ends the session. At `Ok` the file is an ordinary image of the disk. At `Err` the next opening takes the journal up.
    pub fn close(self, alloc: Global) -> (D, Result<(), DeviceError>)
        ensures image { OnOk result.1 (D.seen result.0 ≡ bytes_of self.records.items) }
        ensures durable { OnOk result.1 (Only (D.seen result.0) (D.may_leave result.0)) }
        ensures any_moment { LeavesOnly D.moment D.left_since self.device result.0
            (StandsFor (length self.records.items) (bytes_of self.records.items) self.pending) }
    {
        let FileStore { kept } = self;
        close_kept(alloc, kept)
    }
}

impl<D: CrashableFile> SectorStore for FileStore<D> {
    ghost records = { λ s. s.records.items };

    ghost may_fail = { λ s. None };

    fn has_whole_sectors(&self) {
        let _ = &self.kept;
    }

    fn read(&mut self, address: SectorAddress) -> R<Record> {
        self.record(address)
    }

    fn write(&mut self, address: SectorAddress, content: Record) -> R<()>
        ensures there { OnOk result (table.IsThere self.old.records.items address) }
        ensures ok { OnOk result (self.new.records.items
            ≡ table.with_record self.old.records.items address content) }
        ensures refused { IfErr result (λ fault. fault ≡ table.refusal_at self.old.records.items address) }
        ensures unchanged { OnErr result (self.new.records.items ≡ self.old.records.items) }
        ensures counted { None ≡ before_failures (table.faults_in result) None }
        // It is on the disk.
        ensures durable { OnOk result (self.new.pending ≡ None) }
        // Once the device has failed, no write succeeds.
        ensures works { OnOk result (self.old.pending ≡ None) }
        // A crash at any moment of the call leaves the records from before it, with the new one or without; if the device
        // had failed before, with the one in which it failed or without.
        ensures any_moment { LeavesOnly D.moment D.left_since self.old.device self.new.device
            (StandsFor (length self.old.records.items) (bytes_of self.old.records.items)
            (pending_in self.old.pending address content.bytes)) }
    {
        let sectors = self.kept.records.len();
        let place = match address.index() {
            Some(place) => place,
            None => return Err(Fault::Unknown),
        };
        if place >= sectors {
            return Err(Fault::Unknown);
        }
        self.kept
            .put(place, content)
            .map_err(|_| Fault::DeviceFault)
    }
}

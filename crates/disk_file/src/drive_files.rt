//! A disk of several drives, each in a file of its own.
ghost use Rattle.std.specs.Prelude.{◌≡◌, ◌++◌, [], ◌∷◌, List, length, None, Some, IfErr, IfOk, OnErr, OnOk, option_map, slice_get, true};
ghost use Rattle.disk_dcdd.specs.declared.sector.SectorWrite.{SectorWrite};
ghost use Rattle.shared_disk.specs.Failing.{before_failures};
ghost use Rattle.shared_disk.specs.Records as table;
ghost use Rattle.disk_file.specs.Device.{LeavesOnly};
ghost use Rattle.disk_file.specs.Drives.{Agree, AgreeOnDrive, AgreeOnTrack, IsBooted, IsOnDisk, OnlyDrive, WritesDrive, all_records, in_drive};
ghost use Rattle.disk_file.specs.Kept.{StandsFor, bytes_of, pending_in};

use crate::CrashableFile;
use crate::file_store::FileStore;
use disk_dcdd::{SECTORS, SectorAddress, TRACKS};
use i8080_words::{Fault, R};
use shared_disk::{MemoryStore, Record, SectorStore};
use std::alloc::{AllocError, Global};
use std::marker::Model;

/// The drives of a disk, from drive 0 on, each in a file that has nothing of the others.
#[derive(Drop)]
pub struct DriveFiles<D: CrashableFile> {
    drives: Vec<FileStore<D>>,
}

impl<D: CrashableFile> Model for DriveFiles<D> {
    ghost use Rattle.std.specs.Prelude.{All, List};
    ghost use Rattle.disk_file.specs.Drives.{IsDrive};
    ghost use Rattle.disk_file.specs.declared.kept.FileRecords.{FileRecords};

    ghost Value = { List (FileRecords D) };

    ghost view = { λ s. s.drives.items };

    ghost invariant = { λ s. All IsDrive s.drives.items };
}

impl<D: CrashableFile> DriveFiles<D> {
    /// A disk without a drive.
    pub fn new(alloc: Global) -> DriveFiles<D>
        ensures { result ≡ [] }
    {
        DriveFiles {
            drives: Vec::new(alloc),
        }
    }

    /// Adds the next drive.
    pub fn push(&mut self, drive: FileStore<D>) -> Result<(), AllocError>
        requires { length drive.records.items ≡ 2464 }
        ensures ok { OnOk result (self.new ≡ self.old ++ drive ∷ []) }
        ensures unchanged { OnErr result (self.new ≡ self.old) }
    {
        drive.has_whole_sectors();
        self.drives.push(drive)?;
        Ok(())
    }

    /// The file of a drive, if there is that drive.
    pub fn drive(&self, drive: u8) -> Option<&FileStore<D>>
        ensures { option_map (λ file. file.now) result ≡ slice_get self.now drive }
    {
        self.drives.get(usize::from(drive))
    }

    /// Whether there are so many drives, with just the records of another store. What that one has at boot they have too.
    pub fn is_like(&mut self, other: &mut MemoryStore, drives: u8) -> bool
        ensures unchanged { all_records self.new ≡ all_records self.old }
        ensures other { other.new ≡ other.old }
        ensures like { result ≡ true → (sectors : List SectorWrite) → table.IsAtBoot other.old drives sectors
            → IsBooted (all_records self.old) drives sectors }
    {
        if self.drives.len() != usize::from(drives) {
            return false;
        }
        let mut drive = 0;
        while drive < drives {
            if !self.has_drive(other, drive) {
                return false;
            }
            drive += 1;
        }
        true
    }

    // Whether a drive has the records of another store.
    fn has_drive(&mut self, other: &mut MemoryStore, drive: u8) -> bool
        ensures unchanged { all_records self.new ≡ all_records self.old }
        ensures other { other.new ≡ other.old }
        ensures alike { result ≡ true → AgreeOnDrive drive (all_records self.old) other.old }
    {
        let mut track = 0;
        while track < TRACKS {
            if !self.has_track(other, drive, track) {
                return false;
            }
            track += 1;
        }
        true
    }

    // Whether a track has the records of another store.
    fn has_track(&mut self, other: &mut MemoryStore, drive: u8, track: u8) -> bool
        ensures unchanged { all_records self.new ≡ all_records self.old }
        ensures other { other.new ≡ other.old }
        ensures alike { result ≡ true → AgreeOnTrack drive track (all_records self.old) other.old }
    {
        let mut sector = 0;
        while sector < SECTORS {
            let address = SectorAddress {
                drive,
                track,
                sector,
            };
            if !self.has_sector(other, address) {
                return false;
            }
            sector += 1;
        }
        true
    }

    // Whether a sector has the record of another store.
    fn has_sector(&mut self, other: &mut MemoryStore, address: SectorAddress) -> bool
        ensures unchanged { all_records self.new ≡ all_records self.old }
        ensures other { other.new ≡ other.old }
        ensures alike { result ≡ true → Agree address (all_records self.old) other.old }
    {
        let Ok(found) = self.read(address) else {
            return false;
        };
        let Ok(wanted) = other.read(address) else {
            return false;
        };
        is_same(&found, &wanted)
    }
}

// Whether two records are the same.
fn is_same(one: &Record, other: &Record) -> bool
    ensures { result ≡ true → one.now ≡ other.now }
{
    one.number == other.number && one.bytes == other.bytes
}

// A sector, by its address in the file of its drive.
fn in_drive(address: SectorAddress) -> SectorAddress
    ensures { result ≡ in_drive address }
{
    SectorAddress {
        drive: 0,
        track: address.track,
        sector: address.sector,
    }
}

// Puts a record into the file of a drive, all of whose sectors stay whole.
fn put<D: CrashableFile>(drive: &mut FileStore<D>, address: SectorAddress, content: Record) -> R<()>
    ensures there { OnOk result (table.IsThere drive.old.records.items address) }
    ensures ok { OnOk result (drive.new.records.items
        ≡ table.with_record drive.old.records.items address content) }
    ensures refused { IfErr result (λ fault. fault ≡ table.refusal_at drive.old.records.items address) }
    ensures unchanged { OnErr result (drive.new.records.items ≡ drive.old.records.items) }
    ensures whole { table.HasWholeSectors drive.new.records.items }
    ensures size { length drive.new.records.items ≡ length drive.old.records.items }
    ensures durable { OnOk result (drive.new.pending ≡ None) }
    ensures any_moment { LeavesOnly D.moment D.left_since drive.old.device drive.new.device
        (StandsFor (length drive.old.records.items) (bytes_of drive.old.records.items)
        (pending_in drive.old.pending address content.bytes)) }
{
    let answer = drive.write(address, content);
    drive.has_whole_sectors();
    answer
}

impl<D: CrashableFile> SectorStore for DriveFiles<D> {
    ghost records = { λ s. all_records s };

    ghost may_fail = { λ s. None };

    fn has_whole_sectors(&self) {
        let _ = &self.drives;
    }

    fn read(&mut self, address: SectorAddress) -> R<Record> {
        let drive = address.drive as usize;
        if drive >= self.drives.len() {
            return Err(Fault::Unknown);
        }
        self.drives[drive].record(in_drive(address))
    }

    fn write(&mut self, address: SectorAddress, content: Record) -> R<()>
        ensures there { OnOk result (table.IsThere (all_records self.old) address) }
        ensures ok { OnOk result (all_records self.new ≡ table.with_record (all_records self.old) address content) }
        ensures refused { IfErr result (λ fault. fault ≡ table.refusal_at (all_records self.old) address) }
        ensures unchanged { OnErr result (all_records self.new ≡ all_records self.old) }
        ensures counted { None ≡ before_failures (table.faults_in result) None }
        ensures durable { OnOk result (IsOnDisk address self.new) }
        ensures only { OnlyDrive address self.old self.new }
        // Of the file of the sector's drive.
        ensures any_moment { WritesDrive D.moment D.left_since address content.bytes self.old self.new }
    {
        let drive = address.drive as usize;
        if drive >= self.drives.len() {
            return Err(Fault::Unknown);
        }
        put(&mut self.drives[drive], in_drive(address), content)
    }
}

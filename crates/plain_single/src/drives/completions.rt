//! What the drives wait for: a sector to come under the head, and writes to be done.
ghost use Rattle.std.specs.Prelude.{◌≡◌, ◌<◌, ◌==◌, ◌↔◌, not, filter, OnOk, IfSome, IsSome, IsTrue};
ghost use Rattle.disk_dcdd.specs.Completion as table;
ghost use Rattle.disk_dcdd.specs.Drive as drives;
ghost use Rattle.disk_dcdd.specs.Sector.{is_at};
ghost use Rattle.plain_single.specs.Awaited.{place_with};
ghost use Rattle.std.specs.List.{list_any};

use super::passing::{Passing, SECTOR_BYTES, Selection, Stage};
use super::{Awaited, DiskDrives};
use i8080_words::{Fault, R};

// How many sectors a track has.
const SECTORS: u8 = 32;

impl DiskDrives {
    ghost use Rattle.plain_single.specs.Drives.{drives_of};

    /// The track that the head of a drive is at, if that drive is selected.
    pub(crate) fn track_of(&self, drive: u8) -> Option<u8>
        ensures selected { IsSome result ↔ IsTrue (table.is_selected (drives_of self.now) drive) }
        ensures track { IfSome result (λ track. track ≡ (drives.drive_of (drives_of self.now) drive).track) }
        ensures range { IfSome result (λ track. (drive < 4) × (track < 77)) }
    {
        if self.selection.drive() == Some(drive) {
            Some(self.heads[drive as usize].track)
        } else {
            None
        }
    }

    /// A sector of this number comes under the head, with these bytes. `NotDue` if the head waits for no sector, or no
    /// track has one of this number; otherwise `SectorBusy` if a write of it is not done.
    pub fn arrive(&mut self, number: u8, bytes: [u8; SECTOR_BYTES]) -> R<()>
        ensures answer { result ≡ table.answered (table.sector_refusal (drives_of self.old) number) }
        ensures drives { OnOk result (drives_of self.new ≡ table.after_sector (drives_of self.old) number bytes) }
        ensures writes { self.new.writes ≡ self.old.writes }
    {
        let Some(drive) = self.selection.drive() else {
            return Err(Fault::NotDue);
        };
        let head = self.heads[drive as usize];
        if !head.loaded || self.selection.has_sector() || number >= SECTORS {
            return Err(Fault::NotDue);
        }
        if self.is_written(drive, head.track, number) {
            return Err(Fault::SectorBusy);
        }
        let passing = Passing {
            number,
            bytes,
            read: 0,
            shown: false,
            stage: Stage::Reading,
        };
        self.selection = Selection::Over(drive, passing);
        Ok(())
    }

    /// The write of this number is done. `NotDue` if it is done already, or was never issued.
    pub fn finish(&mut self, number: u64) -> R<()>
        ensures answer { result ≡ table.answered (table.written_refusal (drives_of self.old) number) }
        ensures drives { OnOk result (drives_of self.new ≡ table.after_written (drives_of self.old) number) }
        ensures writes { self.new.writes ≡ self.old.writes }
    {
        if !self.is_awaited(number) {
            return Err(Fault::NotDue);
        }
        self.forget(number);
        Ok(())
    }

    // Stops waiting for the write of this number.
    fn forget(&mut self, number: u64)
        ensures drives { drives_of self.new ≡ table.after_written (drives_of self.old) number }
        ensures writes { self.new.writes ≡ self.old.writes }
    {
        remove_write(&mut self.awaited, number);
    }

    // Whether a write of this sector is not done.
    fn is_written(&self, drive: u8, track: u8, sector: u8) -> bool
        ensures { result ≡ list_any (is_at drive track sector) (drives_of self.now).outstanding }
    {
        has_write_at(self.awaited.as_slice(), drive, track, sector)
    }

    // Whether the write of this number is not done.
    fn is_awaited(&self, number: u64) -> bool
        ensures { result ≡ table.is_outstanding (drives_of self.now) number }
    {
        has_write(self.awaited.as_slice(), number)
    }
}

// Whether one of these writes goes to this sector.
fn has_write_at(awaited: &[Awaited], drive: u8, track: u8, sector: u8) -> bool
    ensures { result ≡ list_any (λ write. is_at drive track sector (place_with write)) awaited.now }
{
    awaited.iter().any(|write| write.drive == drive
        && write.track == track
        && write.sector == sector)
}

// Whether one of these writes has this number.
fn has_write(awaited: &[Awaited], number: u64) -> bool
    ensures { result ≡ list_any (λ write. write.number == number) awaited.now }
{
    awaited.iter().any(|write| write.number == number)
}

// Stops waiting for the write of this number.
fn remove_write(awaited: &mut Vec<Awaited>, number: u64)
    ensures { awaited.new.items ≡ filter (λ write. not (write.number == number)) awaited.old.items }
{
    awaited.retain(|write| write.number != number);
}

//! How the drives answer: a sector comes under the head, a write is done; and whether either is due.
ghost use Rattle.std.specs.Prelude.{◌≡◌, ◌<◌, not, ◌==◌, IfSome, filter};
ghost use Rattle.std.specs.List.{list_any};
ghost use Rattle.disk_dcdd.specs.Sector.{is_at};
ghost use Rattle.disk_dcdd.specs.Drive.{drive_of};
ghost use Rattle.disk_dcdd.specs.Completion as table;
ghost use Rattle.disk_dcdd.specs.declared.controller.TheConstants.{DRIVES};

use super::{Controller, OUTSTANDING};
use crate::sector::{CurrentSector, Place, SECTOR_BYTES, SECTORS};
use arrayvec::ArrayVec;
use i8080_words::{Fault, R};

impl Controller {
    /// A sector comes under the head of the selected drive: its number, and the bytes that it has on the disk.
    ///
    /// `NotDue` if the head is not waiting for this sector; otherwise `SectorBusy` if a write of it is outstanding.
    pub fn sector(&mut self, number: u8, bytes: [u8; SECTOR_BYTES]) -> R<()>
        ensures answer { result ≡ table.answered (table.sector_refusal self.old number) }
        ensures after { self.new ≡ table.moved (table.sector_refusal self.old number) self.old
            (table.after_sector self.old number bytes) }
    {
        if !self.is_sector_due(number) {
            return Err(Fault::NotDue);
        }
        if self.is_sector_busy(number) {
            return Err(Fault::SectorBusy);
        }
        self.current = Some(CurrentSector::new(number, bytes));
        Ok(())
    }

    /// The write of this number is done: its bytes are on the disk.
    ///
    /// `NotDue` if it is not outstanding.
    pub fn written(&mut self, number: u64) -> R<()>
        ensures answer { result ≡ table.answered (table.written_refusal self.old number) }
        ensures after { self.new ≡ table.moved (table.written_refusal self.old number) self.old
            (table.after_written self.old number) }
    {
        if !self.is_outstanding(number) {
            return Err(Fault::NotDue);
        }
        remove_write(&mut self.outstanding, number);
        Ok(())
    }

    /// The selected drive, from 0, if any.
    pub fn selected(&self) -> Option<u8>
        ensures value { result ≡ self.now.selected }
        ensures range { IfSome result (λ drive. drive < DRIVES) }
    {
        self.selected
    }

    /// Whether this drive is the selected one.
    pub fn is_selected(&self, drive: u8) -> bool
        ensures { result ≡ table.is_selected self.now drive }
    {
        self.selected == Some(drive)
    }

    /// The track that the head of a drive is at, from 0.
    pub fn track(&self, drive: u8) -> u8
        requires { drive < DRIVES }
        ensures { result ≡ (drive_of self.now drive).track }
    {
        self.drives[drive as usize].track
    }

    /// Whether the head of the selected drive is waiting for this sector. The sector may still be busy.
    pub fn is_sector_due(&self, sector: u8) -> bool
        ensures { result ≡ table.is_sector_due self.now sector }
    {
        let Some(selected) = self.selected else {
            return false;
        };
        self.drives[selected as usize].loaded && self.current.is_none() && sector < SECTORS
    }

    /// Whether a write of this sector is outstanding, on the selected drive at its track.
    pub fn is_sector_busy(&self, sector: u8) -> bool
        ensures { result ≡ table.is_sector_busy self.now sector }
    {
        let Some(selected) = self.selected else {
            return false;
        };
        let track = self.drives[selected as usize].track;
        has_write_at(self.outstanding.as_slice(), selected, track, sector)
    }

    /// Whether the write of this number is outstanding.
    pub fn is_outstanding(&self, number: u64) -> bool
        ensures { result ≡ table.is_outstanding self.now number }
    {
        self.outstanding
            .as_slice()
            .iter()
            .any(|place| place.number == number)
    }

    /// How many writes were issued since the controller was switched on.
    pub fn issued(&self) -> u64
        ensures { result ≡ self.now.issued }
    {
        self.issued
    }
}

// Whether one of these writes goes to this sector.
pub(super) fn has_write_at(places: &[Place], drive: u8, track: u8, sector: u8) -> bool
    ensures { result ≡ list_any (is_at drive track sector) places.now }
{
    places.iter().any(|place| place.is_at(drive, track, sector))
}

// Removes the write of this number from the outstanding ones.
fn remove_write(places: &mut ArrayVec<Place, OUTSTANDING>, number: u64)
    ensures { places.new.items ≡ filter (λ place. not (place.number == number)) places.old.items }
{
    places.retain(|place| place.number != number);
}

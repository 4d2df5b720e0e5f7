//! The sectors of all drives, each by its address and by its index in a table of them all.
ghost use Rattle.std.specs.Prelude.{◌≡◌, ℕ, Some};
ghost use Rattle.disk_dcdd.specs.Address as table;
ghost use Rattle.disk_dcdd.specs.declared.address.SectorAddress.{SectorAddress};

use crate::drive::TRACKS;
use crate::sector::SECTORS;

/// How many sectors a drive has.
pub const DRIVE_SECTORS: usize = TRACKS as usize * SECTORS as usize;

/// A sector: its drive, its track and its number on the track, each from 0.
#[derive(Clone, Copy, PartialEq, Eq)]
pub struct SectorAddress {
    pub drive: u8,
    pub track: u8,
    pub sector: u8,
}

impl SectorAddress {
    /// The index of the sector in a table of all sectors, ordered by drive, track and number. `None` if no drive has a
    /// track or a sector of this number.
    pub fn index(self) -> Option<usize>
        ensures { result ≡ table.index_of self }
    {
        if self.track >= TRACKS || self.sector >= SECTORS {
            return None;
        }
        Some(
            self.drive as usize * DRIVE_SECTORS
                + self.track as usize * SECTORS as usize
                + self.sector as usize,
        )
    }
}

/// No two sectors have the same index.
pub fn sectors_stand_apart()
    ensures { (a b : SectorAddress) (i : ℕ) → table.index_of a ≡ Some i → table.index_of b ≡ Some i → a ≡ b }
{}

//! A sector: as a numbered write, as the place that such a write goes to, and as it passes under the head.
ghost use Rattle.std.specs.Prelude.{◌≡◌, ◌<◌, ◌↔◌, IfSome, IsTrue};
ghost use Rattle.disk_dcdd.specs.Address as address;
ghost use Rattle.disk_dcdd.specs.Sector as table;

use crate::address::SectorAddress;

/// How many bytes a sector has.
pub const SECTOR_BYTES: usize = 137;

/// How many sectors a track has; they are numbered from 0.
pub const SECTORS: u8 = 32;

// The index of byte 137, a sector's last.
pub(crate) const LAST_BYTE: u8 = (SECTOR_BYTES - 1) as u8;

// What a port reads when it has nothing to show.
pub(crate) const NOTHING: u8 = 0xff;

// The sector position: bits 7 and 6 are always 1, bits 5 to 1 number the sector, and bit 0 is 0 while one is there.
const SECTOR_TRUE: u8 = 0xc0;

/// A write of a whole sector: drive, track and sector from 0. Writes are numbered from 1 across all drives.
#[derive(Clone, Copy, PartialEq, Eq)]
pub struct SectorWrite {
    pub number: u64,
    pub drive: u8,
    pub track: u8,
    pub sector: u8,
    pub bytes: [u8; SECTOR_BYTES],
}

impl SectorWrite {
    /// The sector that the write goes to.
    pub fn address(&self) -> SectorAddress
        ensures { result ≡ address.address_of self.now }
    {
        SectorAddress {
            drive: self.drive,
            track: self.track,
            sector: self.sector,
        }
    }

    // Where the write goes.
    pub(crate) fn place(&self) -> Place
        ensures { result ≡ table.place_of self.now }
    {
        Place {
            number: self.number,
            drive: self.drive,
            track: self.track,
            sector: self.sector,
        }
    }
}

/// Where the write of this number goes.
#[derive(Clone, Copy, Default, PartialEq, Eq)]
pub struct Place {
    pub number: u64,
    pub drive: u8,
    pub track: u8,
    pub sector: u8,
}

impl Place {
    // Whether the write goes to this sector.
    pub(crate) fn is_at(&self, drive: u8, track: u8, sector: u8) -> bool
        ensures { result ≡ table.is_at drive track sector self.now }
    {
        self.drive == drive && self.track == track && self.sector == sector
    }
}

/// The sector under the head: how many of its bytes were read, whether its position was shown and, while it is being
/// written, how many of its bytes are filled in.
#[derive(Clone, Copy, PartialEq, Eq)]
pub struct CurrentSector {
    pub sector: u8,
    pub bytes: [u8; SECTOR_BYTES],
    pub read: u8,
    pub shown: bool,
    pub filled: Option<u8>,
}

impl CurrentSector {
    // A sector as it comes under the head.
    pub(crate) fn new(sector: u8, bytes: [u8; SECTOR_BYTES]) -> Self
        ensures { result ≡ table.arrived sector bytes }
    {
        CurrentSector {
            sector,
            bytes,
            read: 0,
            shown: false,
            filled: None,
        }
    }

    // Whether a byte is left to read and, while the sector is being written, a byte to fill in.
    pub(crate) fn is_unfinished(&self) -> bool
        ensures { IsTrue result ↔ table.IsUnfinished self.now }
    {
        self.read <= LAST_BYTE && self.filled.is_none_or(|filled| filled <= LAST_BYTE)
    }
}

// Whether the next byte of the sector under the head may be read.
pub(crate) fn has_new_data(current: &Option<CurrentSector>) -> bool
    ensures { result ≡ table.has_new_data current.now }
{
    match current {
        Some(sector) => sector.filled.is_none() && sector.read <= LAST_BYTE,
        None => false,
    }
}

// Whether the next byte of the sector under the head may be filled in. The last one needs room for one more write.
pub(crate) fn enters_new_data(current: &Option<CurrentSector>, has_room: bool) -> bool
    ensures { result ≡ table.enters_new_data has_room current.now }
{
    let Some(sector) = current else {
        return false;
    };
    match sector.filled {
        Some(filled) => filled < LAST_BYTE || filled == LAST_BYTE && has_room,
        None => false,
    }
}

// The position of the sector under the head, which leaves if it is not shown again.
pub(crate) fn show_position(current: &mut Option<CurrentSector>) -> u8
    requires { IfSome current.old (λ s. s.sector < SECTORS) }
    ensures value { result ≡ table.shown_position current.old }
    ensures after { current.new ≡ table.after_showing current.old }
{
    let Some(sector) = current else {
        return NOTHING;
    };
    if sector.shown && sector.filled.is_none() {
        *current = None;
        return NOTHING;
    }
    sector.shown = true;
    SECTOR_TRUE + 2 * sector.sector
}

// The next byte of the sector under the head, which leaves after its last byte.
pub(crate) fn read_byte(current: &mut Option<CurrentSector>) -> u8
    requires { IfSome current.old (λ s. s.read < SECTOR_BYTES) }
    ensures value { result ≡ table.next_byte current.old }
    ensures after { current.new ≡ table.after_reading current.old }
{
    let Some(sector) = current else {
        return NOTHING;
    };
    if sector.filled.is_some() {
        return NOTHING;
    }
    let byte = sector.bytes[sector.read as usize];
    if sector.read == LAST_BYTE {
        *current = None;
    } else {
        sector.read += 1;
    }
    byte
}

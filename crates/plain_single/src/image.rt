//! The machine's own disk: the bytes of every sector that drives can have.
ghost use Rattle.std.specs.Prelude.{◌≡◌, ℕ, ◌*◌, IfOk, IfErr, List, vec_len, reverse};
ghost use Rattle.std.specs.Option.{option_map_or, option_copied};
ghost use Rattle.disk_dcdd.specs.Address.{index_of, bytes_with};
ghost use Rattle.disk_dcdd.specs.declared.address.SectorAddress.{SectorAddress};
ghost use Rattle.disk_dcdd.specs.declared.address.TheConstants.{DRIVE_SECTORS};
ghost use Rattle.disk_dcdd.specs.declared.controller.TheConstants.{DRIVES};
ghost use Rattle.i8080_words.specs.declared.refusal.Fault.TheVariants.{OutOfMemory};
ghost use Rattle.plain_single.specs.Image.{IsSector, zero_sector, sector_at, boot_sectors};
ghost use Rattle.guest_lockstep.specs.Reach.{bytes_after};

use disk_dcdd::{SECTOR_BYTES, SectorAddress, SectorWrite, sectors_stand_apart};
use i8080_words::R;
use std::alloc::Global;

// How many tracks a disk has.
const TRACKS: usize = 77;

// How many sectors a track has.
const SECTORS: usize = 32;

// How many sectors four drives have.
const PLACES: usize = 4 * TRACKS * SECTORS;

/// A table of sectors, by drive, track and number.
#[derive(Drop)]
pub(crate) struct DiskImage {
    pub(crate) sectors: Vec<[u8; SECTOR_BYTES]>,
    ghost whole: { vec_len sectors ≡ DRIVES * DRIVE_SECTORS },
}

impl DiskImage {
    /// A disk of zeros with these writes put on it in turn.
    pub(crate) fn new(alloc: Global, writes: &[SectorWrite]) -> R<Self>
        ensures ok { IfOk result (λ image. (a : SectorAddress) → IsSector a
            → sector_at image.sectors.items a ≡ boot_sectors writes.now a) }
        ensures only_memory { IfErr result (λ fault. fault ≡ OutOfMemory) }
    {
        let mut image = DiskImage::zeros(alloc)?;
        for write in writes {
            image.put(write);
        }
        Ok(image)
    }

    // A disk of zeros.
    fn zeros(alloc: Global) -> R<Self>
        ensures ok { IfOk result (λ image. (a : SectorAddress) → sector_at image.sectors.items a ≡ zero_sector) }
        ensures only_memory { IfErr result (λ fault. fault ≡ OutOfMemory) }
    {
        let mut sectors = Vec::with_capacity(alloc, PLACES)?;
        for _ in 0..PLACES {
            sectors.push([0; SECTOR_BYTES])?;
        }
        Ok(DiskImage { sectors })
    }

    /// A copy of the disk.
    pub(crate) fn copy(&self, alloc: Global) -> R<Self>
        ensures ok { IfOk result (λ image. image.sectors.items ≡ self.now.sectors.items) }
        ensures only_memory { IfErr result (λ fault. fault ≡ OutOfMemory) }
    {
        let sectors = Vec::from_slice(alloc, &self.sectors)?;
        Ok(DiskImage { sectors })
    }

    /// The bytes of a sector; zeros if no drive has such a sector.
    #[tactic(auto, unfolding(crate::specs::Image::zero_sector))]
    pub(crate) fn get(&self, address: SectorAddress) -> [u8; SECTOR_BYTES]
        ensures { result ≡ sector_at self.now.sectors.items address }
    {
        match place_of(address) {
            Some(index) if index < PLACES => self.sectors[index],
            _ => [0; SECTOR_BYTES],
        }
    }

    /// Puts a write on the disk.
    pub(crate) fn put(&mut self, write: &SectorWrite)
        ensures { (a : SectorAddress) → IsSector a
            → sector_at self.new.sectors.items a ≡ bytes_with write.now a (sector_at self.old.sectors.items a) }
    {
        sectors_stand_apart();
        let address = SectorAddress {
            drive: write.drive,
            track: write.track,
            sector: write.sector,
        };
        if let Some(index) = place_of(address) {
            if index < PLACES {
                self.sectors[index] = write.bytes;
            }
        }
    }

    /// Puts the write of this number, one of these, on the disk.
    pub(crate) fn complete(&mut self, writes: &[SectorWrite], number: u64)
        ensures { (a : SectorAddress) → IsSector a → sector_at self.new.sectors.items a
            ≡ bytes_after (reverse writes.now) number a (sector_at self.old.sectors.items a) }
    {
        if let Some(write) = latest(writes, number) {
            self.put(write);
        }
    }
}

// The index of a sector in the table. `None` if no drive has a track or a sector of this number.
fn place_of(address: SectorAddress) -> Option<usize>
    ensures { result ≡ index_of address }
{
    let (track, sector) = (address.track as usize, address.sector as usize);
    if track < TRACKS && sector < SECTORS {
        Some((address.drive as usize * TRACKS + track) * SECTORS + sector)
    } else {
        None
    }
}

// The last of these writes that has this number.
fn latest(writes: &[SectorWrite], number: u64) -> Option<&SectorWrite>
    ensures { (a : SectorAddress) (bytes : List ℕ) → bytes_after (reverse writes.now) number a bytes
        ≡ option_map_or (λ write. bytes_with write a bytes) (option_copied result) bytes }
{
    let mut rest = writes;
    while let Some((write, before)) = rest.split_last() {
        if write.number == number {
            return Some(write);
        }
        rest = before;
    }
    None
}

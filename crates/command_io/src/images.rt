//! The images of disks: 77 tracks of 32 sectors of 137 bytes each.
ghost use Rattle.std.specs.Prelude.{◌≡◌, ◌⊎◌, ◌*◌, ◌<◌, IfErr, IfOk, length};
ghost use Rattle.command_io.specs.declared.failure.Failure.TheVariants as failure;
ghost use Rattle.command_io.specs.Images.{ComeFirst, sector_at, sectors_of};

use crate::failure::Failure;
use disk_dcdd::{DRIVE_SECTORS, SECTOR_BYTES, SECTORS, SectorWrite, TRACKS};
use std::alloc::{AllocError, Global};
use std::io::Read;

/// How many bytes an image has.
pub const IMAGE_BYTES: usize = DRIVE_SECTORS * SECTOR_BYTES;

/// Reads the images of these drives, one after another. Their sectors are writes that come before every write of a guest.
pub fn read_images<R: Read + Drop>(
    alloc: Global,
    drives: &[u8],
    reader: &mut R,
) -> Result<Vec<SectorWrite>, Failure>
    ensures read { IfOk result (λ sectors. ComeFirst drives.now sectors.items
        (R.remaining reader.old) (R.remaining reader.new)) }
    ensures errors { IfErr result (λ e. (e ≡ failure.OutOfMemory) ⊎ (e ≡ failure.InputOrOutput)) }
{
    let Some(count) = drives.len().checked_mul(IMAGE_BYTES) else {
        return Err(Failure::OutOfMemory);
    };
    let mut images = vec![in alloc; 0u8; count]?;
    reader.read_exact(&mut images)?;
    let sectors = sectors_of(alloc, drives, &images)?;
    Ok(sectors)
}

// The sectors of these images, in their order.
fn sectors_of(alloc: Global, drives: &[u8], images: &[u8]) -> Result<Vec<SectorWrite>, AllocError>
    requires { length images.now ≡ 337568 * length drives.now }
    ensures { IfOk result (λ sectors. sectors.items ≡ sectors_of drives.now images.now) }
{
    let mut sectors = Vec::new(alloc);
    for place in 0..drives.len() * DRIVE_SECTORS {
        sectors.push(sector_at(drives, images, place))?;
    }
    Ok(sectors)
}

// The sector at this place of the images.
fn sector_at(drives: &[u8], images: &[u8], place: usize) -> SectorWrite
    requires whole { length images.now ≡ 337568 * length drives.now }
    requires within { place < 2464 * length drives.now }
    ensures { result ≡ sector_at drives.now images.now place }
{
    let start = place * SECTOR_BYTES;
    let mut bytes = [0; SECTOR_BYTES];
    bytes.copy_from_slice(&images[start..start + SECTOR_BYTES]);
    SectorWrite {
        number: 0,
        drive: drives[place / DRIVE_SECTORS],
        track: (place / usize::from(SECTORS) % usize::from(TRACKS)) as u8,
        sector: (place % usize::from(SECTORS)) as u8,
        bytes,
    }
}

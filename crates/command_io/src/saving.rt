//! The disks of a pair, as images, and what is written of them at the end.
ghost use Rattle.std.specs.Prelude.{◌≡◌, ◌++◌, ◌+◌, ◌<◌, All, length, IfErr, IfOk, OnOk};
ghost use Rattle.std.specs.Io.KnownBytes.{Appends};
ghost use Rattle.command_io.specs.Saving.{AreWhole, HasDrive, IsUnsaved, address_at, are_attached, image_of, images_of};
ghost use Rattle.shared_disk.specs.Records.{IsThere, bytes_in};

use crate::failure::Failure;
use disk_dcdd::{DRIVE_SECTORS, SECTORS, SectorAddress};
use i8080_words::{Fault, R};
use shared_disk::{SectorStore, SharedDisk};
use std::alloc::Global;
use std::io::Write;

/// Whether each of these drives is one of so many.
pub fn are_attached(drives: &[u8], attached: u8) -> bool
    ensures { result ≡ are_attached attached drives.now }
{
    drives.iter().all(|drive| *drive < attached)
}

/// The images of these drives, one after another, each whole. `Unknown` if the disk lacks one of them.
pub fn images_of<D: SectorStore>(
    alloc: Global,
    disk: &mut SharedDisk<D>,
    drives: &[u8],
) -> R<Vec<u8>>
    ensures are { IfOk result (λ images. images.items ≡ images_of (D.records disk.old) drives.now) }
    ensures whole { IfOk result (λ images. AreWhole images.items drives.now) }
    ensures there { IfOk result (λ _. All (HasDrive (D.records disk.old)) drives.now) }
{
    let mut images = Vec::new(alloc);
    for drive in drives {
        put_image(disk, *drive, &mut images)?;
    }
    Ok(images)
}

/// Writes a mark, and after it the images of these drives, of the records that the disk has. `InputOrOutput` if the disk lacks one
/// of the drives, or if a write fails.
pub fn save_disks<D: SectorStore, W: Write + Drop>(
    alloc: Global,
    disk: SharedDisk<D>,
    drives: &[u8],
    mark: &[u8],
    writer: &mut W,
) -> Result<(), Failure>
    ensures saved { OnOk result (Appends (W.contents writer.old) (W.contents writer.new)
        (mark.now ++ images_of (D.records disk) drives.now)) }
    ensures there { OnOk result (All (HasDrive (D.records disk)) drives.now) }
    ensures failed { IfErr result IsUnsaved }
{
    let mut disk = disk;
    let images = match images_of(alloc, &mut disk, drives) {
        Ok(images) => images,
        Err(Fault::OutOfMemory) => return Err(Failure::OutOfMemory),
        Err(_) => return Err(Failure::InputOrOutput),
    };
    write_after(mark, &images, writer)
}

// Writes a mark, and the images that come after it.
fn write_after<W: Write + Drop>(mark: &[u8], images: &[u8], writer: &mut W) -> Result<(), Failure>
    ensures written { OnOk result (Appends (W.contents writer.old) (W.contents writer.new) (mark.now ++ images.now)) }
    ensures failed { IfErr result IsUnsaved }
{
    writer.write_all(mark)?;
    writer.write_all(images)?;
    writer.flush()?;
    Ok(())
}

// Adds the image of a drive.
fn put_image<D: SectorStore>(disk: &mut SharedDisk<D>, drive: u8, images: &mut Vec<u8>) -> R<()>
    ensures added { OnOk result (images.new.items ≡ images.old.items ++ image_of (D.records disk.old) drive) }
    ensures unchanged { OnOk result (D.records disk.new ≡ D.records disk.old) }
    ensures longer { OnOk result (length images.new.items ≡ length images.old.items + 337568) }
    ensures there { OnOk result (HasDrive (D.records disk.old) drive) }
{
    for place in 0..DRIVE_SECTORS {
        put_sector(disk, address_at(drive, place), images)?;
    }
    Ok(())
}

// The sector at this place of a drive's image.
fn address_at(drive: u8, place: usize) -> SectorAddress
    requires { place < 2464 }
    ensures { result ≡ address_at drive place }
{
    SectorAddress {
        drive,
        track: (place / usize::from(SECTORS)) as u8,
        sector: (place % usize::from(SECTORS)) as u8,
    }
}

// Adds what the disk has in a sector.
fn put_sector<D: SectorStore>(
    disk: &mut SharedDisk<D>,
    address: SectorAddress,
    images: &mut Vec<u8>,
) -> R<()>
    ensures added { OnOk result (images.new.items ≡ images.old.items ++ bytes_in (D.records disk.old) address) }
    ensures unchanged { D.records disk.new ≡ D.records disk.old }
    ensures longer { OnOk result (length images.new.items ≡ length images.old.items + 137) }
    ensures there { OnOk result (IsThere (D.records disk.old) address) }
{
    let sector = disk.get(address)?;
    let bytes = sector.bytes;
    images.extend_from_slice(&bytes)?;
    Ok(())
}

//! The drives of a disk, of which some are in files.
ghost use Rattle.std.specs.Prelude.{◌≡◌, ◌<◌, All, IfOk, true};
ghost use Rattle.disk_file.specs.Names.{AreInFiles, IsKept, is_named};

use crate::closing::end_image;
use crate::file_device::FileDevice;
use crate::opening::{ImageOptions, OpenImage, open_image, take_up};
use crate::refusal::OpenError;
use crate::{DriveFiles, FileStore};
use disk_dcdd::{DRIVE_SECTORS, DRIVES, SECTORS, SectorAddress, SectorWrite};
use shared_disk::{MemoryStore, SectorStore};
use std::alloc::Global;

/// The drives of a disk; the sectors that those in files have, to which no write has arrived; and by drive what padded
/// their images.
#[derive(Drop)]
pub struct Attached {
    pub drives: DriveFiles<FileDevice>,
    pub sectors: Vec<SectorWrite>,
    pub paddings: Vec<Vec<u8>>,
}

/// The drive that is not attached, and why.
#[derive(Drop)]
pub struct Unattached {
    pub drive: u8,
    pub why: OpenError,
}

/// Opens the files of drives by their names, that of drive 0 first; a drive without a name, or with an empty one, has the
/// sectors of `boot`, in memory alone. A missing file is made. Unless they are synced, their file systems may be late.
pub fn open_drives(
    alloc: Global,
    files: &HostRuntime,
    names: &[String],
    is_synced: bool,
    boot: &mut MemoryStore,
    drives: u8,
) -> Result<Attached, Unattached>
    ensures boot { boot.new ≡ boot.old }
    ensures files { IfOk result (λ attached. AreInFiles names.now attached.drives) }
{
    let mut attached = Attached {
        drives: DriveFiles::new(alloc),
        sectors: Vec::new(alloc),
        paddings: Vec::new(alloc),
    };
    for drive in 0..DRIVES as u8 {
        let name = name_of(names, drive);
        let added = if drive >= drives {
            no_drive(name)
        } else if name.is_empty() {
            attached.add_in_memory(alloc, boot, drive)
        } else {
            attached.add_file(alloc, files, name, is_synced, drive)
        };
        if let Err(why) = added {
            let_go(alloc, files, names, attached);
            return Err(Unattached { drive, why });
        }
    }
    if are_in_files(names, &attached.drives) {
        Ok(attached)
    } else {
        Err(Unattached {
            drive: 0,
            why: OpenError::NotFile,
        })
    }
}

// Ends the images that were opened before one was refused.
fn let_go(alloc: Global, files: &HostRuntime, names: &[String], attached: Attached) {
    let Attached {
        drives,
        paddings,
        ..
    } = attached;
    // Each file is free then.
    drop(drives);
    let mut drive = 0_u8;
    for padding in paddings {
        if is_named(names, drive) {
            let name = name_of(names, drive);
            // What cannot be ended is ended by the next opening.
            let _ = end_image(alloc, files, name, padding);
        }
        drive = drive.saturating_add(1);
    }
}

// The name of a drive's file.
fn name_of(names: &[String], drive: u8) -> &str {
    match names.get(usize::from(drive)) {
        Some(name) => name.as_str(),
        None => "",
    }
}

// Whether each drive that has a name is in a file.
fn are_in_files(names: &[String], drives: &DriveFiles<FileDevice>) -> bool
    ensures { result ≡ true → AreInFiles names.now drives.now }
{
    is_kept(names, drives, 0)
        && is_kept(names, drives, 1)
        && is_kept(names, drives, 2)
        && is_kept(names, drives, 3)
}

// Whether a drive is in a file if it has a name.
fn is_kept(names: &[String], drives: &DriveFiles<FileDevice>, drive: u8) -> bool
    ensures { result ≡ true → IsKept names.now drives.now drive }
{
    if !is_named(names, drive) {
        return true;
    }
    match drives.drive(drive) {
        Some(file) => file.device().is_file(),
        None => false,
    }
}

/// Whether each of these sectors is of a drive that has a name.
pub fn are_named(names: &[String], sectors: &[SectorWrite]) -> bool
    ensures { result ≡ true → All (λ (s : SectorWrite). is_named names.now s.drive ≡ true) sectors.now }
{
    sectors.iter().all(|sector| is_named(names, sector.drive))
}

/// Whether a drive has a name.
pub fn is_named(names: &[String], drive: u8) -> bool
    ensures { result ≡ is_named names.now drive }
{
    match names.get(usize::from(drive)) {
        Some(name) => !name.is_empty(),
        None => false,
    }
}

// A drive that is not there has no file.
fn no_drive(name: &str) -> Result<(), OpenError> {
    if name.is_empty() {
        Ok(())
    } else {
        Err(OpenError::NoDrive)
    }
}

impl Attached {
    // Adds the next drive, which is in a file.
    fn add_file(
        &mut self,
        alloc: Global,
        files: &HostRuntime,
        name: &str,
        is_synced: bool,
        drive: u8,
    ) -> Result<(), OpenError> {
        let how = ImageOptions {
            is_made: true,
            is_synced,
            takes_spoiled: false,
        };
        let OpenImage { store, padding, .. } = open_image(alloc, files, name, how)?;
        add_sectors(&mut self.sectors, &store, drive)?;
        self.paddings.push(padding)?;
        self.drives.push(store)?;
        Ok(())
    }

    // Adds the next drive, which is in memory alone.
    fn add_in_memory(
        &mut self,
        alloc: Global,
        boot: &mut MemoryStore,
        drive: u8,
    ) -> Result<(), OpenError>
        ensures boot { boot.new ≡ boot.old }
    {
        let image = image_of(alloc, boot, drive)?;
        let store = take_up(alloc, FileDevice::in_memory(image))?;
        self.paddings.push(Vec::new(alloc))?;
        self.drives.push(store)?;
        Ok(())
    }
}

// Adds the sectors of a file, as those of a drive.
fn add_sectors(
    sectors: &mut Vec<SectorWrite>,
    store: &FileStore<FileDevice>,
    drive: u8,
) -> Result<(), OpenError> {
    for place in 0..DRIVE_SECTORS {
        let address = address_at(0, place);
        let found = store.record(address)?;
        let bytes = found.bytes;
        sectors.push(SectorWrite {
            number: 0,
            drive,
            track: address.track,
            sector: address.sector,
            bytes,
        })?;
    }
    Ok(())
}

// The image of a drive.
fn image_of(alloc: Global, boot: &mut MemoryStore, drive: u8) -> Result<Vec<u8>, OpenError>
    ensures boot { boot.new ≡ boot.old }
{
    let mut image = Vec::new(alloc);
    for place in 0..DRIVE_SECTORS {
        add_sector(boot, address_at(drive, place), &mut image)?;
    }
    Ok(image)
}

// Adds what a sector has.
fn add_sector(
    boot: &mut MemoryStore,
    address: SectorAddress,
    image: &mut Vec<u8>,
) -> Result<(), OpenError>
    ensures boot { boot.new ≡ boot.old }
{
    match boot.read(address) {
        Ok(found) => Ok(image.extend_from_slice(&found.bytes)?),
        Err(_) => Err(OpenError::NoDrive),
    }
}

// The sector at this place of a drive's image.
fn address_at(drive: u8, place: usize) -> SectorAddress
    requires { place < 2464 }
{
    SectorAddress {
        drive,
        track: (place / usize::from(SECTORS)) as u8,
        sector: (place % usize::from(SECTORS)) as u8,
    }
}

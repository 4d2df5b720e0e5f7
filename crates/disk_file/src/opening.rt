//! Opening an image, which no other program has open.
ghost use Rattle.std.specs.Prelude.{◌≡◌, ◌⊎◌, All, drop, length, replicate, None, IfOk, true};
ghost use Rattle.disk_file.specs.FileBytes.{begun, blank_image, has_spoiled_journal, is_padding};
ghost use Rattle.shared_disk.specs.declared.store.Record.{Record};

use crate::FileStore;
use crate::file_device::FileDevice;
use crate::refusal::OpenError;
use crate::spoiled::is_spoiled;
use disk_dcdd::{DRIVE_SECTORS, SECTOR_BYTES};
use std::alloc::{AllocError, Global};
use std::fs::{File, OpenOptions, TryLockError};
use std::os::unix::fs::FileExt;

/// How many bytes the image of a drive has.
pub const IMAGE_BYTES: usize = DRIVE_SECTORS * SECTOR_BYTES;

/// How many bytes are behind an image that is padded to whole blocks of 128 bytes.
pub const PADDING_BYTES: usize = 96;

/// How an image is opened.
#[derive(Clone, Copy)]
pub struct ImageOptions {
    /// Whether a missing file is made.
    pub is_made: bool,
    /// Whether a write is done only once the disk has it; if not, once the file system has.
    pub is_synced: bool,
    /// Whether a journal that was cut or spoiled is taken up to where it was; if not, it is refused, and stays as it is.
    pub takes_spoiled: bool,
}

/// An open image, what padded it, and whether its journal was cut or spoiled.
#[derive(Drop)]
pub struct OpenImage {
    pub store: FileStore<FileDevice>,
    pub padding: Vec<u8>,
    pub is_spoiled: bool,
}

/// Opens the image of one drive, which stays locked until the store is closed or dropped. What a crash has left in its
/// journal is taken up. An empty file, as one that is made, becomes an image of zeros. Bytes after an image that are
/// no journal are cut off, or refused; those that pad it are handed back.
pub fn open_image(
    alloc: Global,
    files: &HostRuntime,
    path: &str,
    how: ImageOptions,
) -> Result<OpenImage, OpenError>
    ensures size { IfOk result (λ image. length image.store.records.items ≡ 2464) }
    ensures unwritten { IfOk result (λ image. All (λ (r : Record). r.number ≡ 0) image.store.records.items) }
    ensures works { IfOk result (λ image. image.store.pending ≡ None) }
{
    let file = open_file(files, path, how.is_made)?;
    lock(&file)?;
    let bytes = read_file(alloc, &file)?;
    let image = begin(alloc, &file, bytes)?;
    let is_spoiled = has_spoiled_journal(&image);
    if is_spoiled && !how.takes_spoiled {
        return Err(OpenError::Spoiled);
    }
    let padding = padding_of(alloc, &image)?;
    let store = take_up(alloc, FileDevice::new(file, image, how.is_synced))?;
    Ok(OpenImage {
        store,
        padding,
        is_spoiled,
    })
}

// Opens a file to read and to write it.
fn open_file(files: &HostRuntime, path: &str, is_made: bool) -> Result<File, OpenError> {
    let file = OpenOptions::new()
        .read(true)
        .write(true)
        .create(is_made)
        .open(files, path)?;
    if !file.metadata()?.is_file() {
        return Err(OpenError::NotFile);
    }
    Ok(file)
}

// Takes the file for this program alone.
fn lock(file: &File) -> Result<(), OpenError> {
    match file.try_lock() {
        Ok(()) => Ok(()),
        Err(TryLockError::WouldBlock) => Err(OpenError::InUse),
        Err(TryLockError::Error(error)) => Err(OpenError::File(error)),
    }
}

// What a file holds, all of it on the disk.
fn read_file(alloc: Global, file: &File) -> Result<Vec<u8>, OpenError> {
    file.sync_all()?;
    let len = file.metadata()?.len() as usize;
    let mut bytes = vec![in alloc; 0; len]?;
    file.read_exact_at(&mut bytes, 0)?;
    Ok(bytes)
}

// What a file that holds these bytes begins with: an empty one is made an image of zeros.
fn begin(alloc: Global, file: &File, bytes: Vec<u8>) -> Result<Vec<u8>, OpenError>
    ensures { IfOk result (λ image. image.items ≡ begun bytes.items) }
{
    if !bytes.is_empty() {
        return Ok(bytes);
    }
    let image = blank_image(alloc)?;
    file.set_len(IMAGE_BYTES as u64)?;
    file.sync_all()?;
    Ok(image)
}

// The image of a drive on which nothing is written.
fn blank_image(alloc: Global) -> Result<Vec<u8>, AllocError>
    ensures { IfOk result (λ image. image.items ≡ blank_image) }
{
    zeros(alloc, IMAGE_BYTES)
}

// So many zeros.
fn zeros(alloc: Global, len: usize) -> Result<Vec<u8>, AllocError>
    ensures { IfOk result (λ image. image.items ≡ replicate len 0) }
{
    vec![in alloc; 0; len]
}

// Whether what is behind an image is a journal that was cut or spoiled.
fn has_spoiled_journal(bytes: &[u8]) -> bool
    ensures { result ≡ has_spoiled_journal bytes.now }
{
    let after = behind_image(bytes);
    !is_padding(after) && is_spoiled(DRIVE_SECTORS, after)
}

// What is behind an image.
fn behind_image(bytes: &[u8]) -> &[u8]
    ensures { result.now ≡ drop 337568 bytes.now }
{
    &bytes[IMAGE_BYTES.min(bytes.len())..]
}

// What pads an image, if it is padded.
fn padding_of(alloc: Global, bytes: &[u8]) -> Result<Vec<u8>, AllocError>
    ensures { IfOk result (λ padding. length padding.items ≡ 0 ⊎ is_padding padding.items ≡ true) }
{
    let after = behind_image(bytes);
    if is_padding(after) {
        after.to_vec(alloc)
    } else {
        Ok(Vec::new(alloc))
    }
}

// Whether bytes after an image pad it: they are as many, and do not begin with an open gate.
fn is_padding(after: &[u8]) -> bool
    ensures { result ≡ is_padding after.now }
{
    match after {
        [gate, ..] => *gate != 1 && after.len() == PADDING_BYTES,
        [] => false,
    }
}

// The disk that a file stands for.
pub(crate) fn take_up(alloc: Global, device: FileDevice) -> Result<FileStore<FileDevice>, OpenError>
    ensures size { IfOk result (λ store. length store.records.items ≡ 2464) }
    ensures unwritten { IfOk result (λ store. All (λ (r : Record). r.number ≡ 0) store.records.items) }
    ensures works { IfOk result (λ store. store.pending ≡ None) }
{
    match FileStore::open(alloc, 1, device) {
        Ok(store) => Ok(store),
        Err((error, _)) => Err(OpenError::from(error)),
    }
}

//! Why an image is not opened, or not ended.

use crate::DeviceError;
use i8080_words::Fault;
use std::alloc::{AllocError, AllocFailed, Global};
use std::io;
use thiserror::Error;

/// Why an image is not opened, or not ended.
#[derive(Debug, Drop, Error)]
pub enum OpenError {
    /// Another program, or another drive, has it open.
    #[error("it is open already, for another program or another drive")]
    InUse,
    /// It is a folder, a device or a pipe.
    #[error("it is no ordinary file")]
    NotFile,
    /// It has bytes, and fewer than the image of a drive.
    #[error("a disk has 337,568 bytes, 77 tracks of 32 sectors of 137 bytes, and this file has fewer")]
    Short,
    /// What is behind its image was cut or spoiled, and would be taken up only up to there.
    #[error("its journal was cut or spoiled; `pair disk recover` takes up what is before the damage")]
    Spoiled,
    /// The machine has fewer drives.
    #[error("the machine has no such drive; a line `drives` of a setup says how many it has")]
    NoDrive,
    /// The allocator refused memory.
    #[error("out of memory")]
    OutOfMemory,
    /// The file is missing, may not be written, or its device failed.
    #[error("{0}")]
    File(io::Error),
}

/// What is said of a file that is not opened or not ended; nothing if there is no memory for it.
pub fn refusal_text(alloc: Global, path: &str, why: &OpenError) -> Option<String> {
    format!(in alloc; "pair: {path}: {why}").ok()
}

/// What is said of a file whose journal was cut or spoiled, once it is ended; nothing if there is no memory for it.
pub fn spoiled_text(alloc: Global, path: &str) -> Option<String> {
    format!(in alloc;
        "pair: {path}: its journal was cut or spoiled; the image has what was before the damage"
    ).ok()
}

impl From<io::Error> for OpenError {
    fn from(error: io::Error) -> Self {
        OpenError::File(error)
    }
}

impl From<AllocError> for OpenError {
    fn from(_: AllocError) -> Self {
        OpenError::OutOfMemory
    }
}

impl<T: Drop> From<AllocFailed<T>> for OpenError {
    fn from(_: AllocFailed<T>) -> Self {
        OpenError::OutOfMemory
    }
}

impl From<DeviceError> for OpenError {
    fn from(error: DeviceError) -> Self {
        match error {
            DeviceError::Memory => OpenError::OutOfMemory,
            DeviceError::Short => OpenError::Short,
            DeviceError::Failed | DeviceError::Full => {
                OpenError::File(io::ErrorKind::Other.into())
            }
        }
    }
}

// A sector that is not there is one of a drive that is not.
impl From<Fault> for OpenError {
    fn from(fault: Fault) -> Self {
        match fault {
            Fault::OutOfMemory => OpenError::OutOfMemory,
            _ => OpenError::NoDrive,
        }
    }
}

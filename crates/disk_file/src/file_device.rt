//! A file of the operating system, or one in memory alone, with what it holds in memory.
ghost use Rattle.std.specs.Prelude.{◌≡◌, ◌⊎◌, length, drop};
ghost use Rattle.std.proofs.Common.{inl};
ghost use Rattle.disk_file.specs.Past.{HadBeen, only_bytes};

use crate::bytes::{lengthen, write_over};
use crate::medium::Medium;
use crate::past::Past;
use crate::{CrashableFile, DeviceError};
use std::alloc::Global;
use std::fs::File;

/// An open file or none, what it holds, and what only clauses read: its past contents, and those at which a call failed. A
/// call counts as done at once.
#[derive(Drop)]
pub struct FileDevice {
    medium: Medium,
    bytes: Vec<u8>,
    past: Past,
    failed: Past,
}

impl FileDevice {
    ghost use Rattle.disk_file.specs.FileBytes.{bytes_in, is_file};

    /// A file that holds these bytes. The caller has read them after a sync. Unless it is synced, a sync waits for nothing.
    pub fn new(file: File, bytes: Vec<u8>, is_synced: bool) -> FileDevice
        ensures { bytes_in result ≡ bytes.items }
    {
        FileDevice::over(Medium::of_file(file, is_synced), bytes)
    }

    /// The same without a file: it is gone with the program.
    pub fn in_memory(bytes: Vec<u8>) -> FileDevice
        ensures { bytes_in result ≡ bytes.items }
    {
        FileDevice::over(Medium::none(), bytes)
    }

    // What holds these bytes.
    fn over(medium: Medium, bytes: Vec<u8>) -> FileDevice
        ensures { bytes_in result ≡ bytes.items }
    {
        FileDevice {
            medium,
            bytes,
            past: Past::new(),
            failed: Past::new(),
        }
    }

    /// Whether it is an open file, and not in memory alone.
    pub fn is_file(&self) -> bool
        ensures { result ≡ is_file self.now }
    {
        self.medium.is_file()
    }

    /// How many bytes it holds.
    pub fn size(&self) -> usize
        ensures { result ≡ length (bytes_in self.now) }
    {
        self.bytes.len()
    }
}

impl CrashableFile for FileDevice {
    ghost seen = { λ m. m.bytes.items };

    ghost may_leave = { λ m c. c ≡ m.bytes.items };

    ghost moment = { λ m. length m.past.contents };

    ghost left_since = { λ m t c. (c ≡ m.bytes.items) ⊎ HadBeen (drop t m.past.contents) c };

    ghost faults = { λ m. length m.failed.contents };

    ghost counts_now = { λ m t c le now. inl now };

    ghost only_now = { λ m c left. only_bytes m.past.contents m.bytes.items c left };

    fn read(&mut self, alloc: Global) -> Result<Vec<u8>, DeviceError> {
        Ok(self.bytes.to_vec(alloc)?)
    }

    fn write_at(&mut self, at: usize, bytes: &[u8]) -> Result<(), DeviceError> {
        self.past.add(&self.bytes);
        let len = self.bytes.len();
        lengthen(&mut self.bytes, at + bytes.len())?;
        if self.medium.write_at(bytes, at).is_err() {
            self.bytes.truncate(len);
            self.failed.add(&[]);
            return Err(DeviceError::Failed);
        }
        write_over(&mut self.bytes, at, bytes);
        Ok(())
    }

    fn cut(&mut self, len: usize) -> Result<(), DeviceError> {
        if self.medium.cut(len).is_err() {
            self.failed.add(&[]);
            return Err(DeviceError::Failed);
        }
        self.past.add(&self.bytes);
        self.bytes.truncate(len);
        Ok(())
    }

    fn sync(&mut self) -> Result<(), DeviceError> {
        if self.medium.sync().is_err() {
            self.failed.add(&[]);
            return Err(DeviceError::Failed);
        }
        Ok(())
    }
}

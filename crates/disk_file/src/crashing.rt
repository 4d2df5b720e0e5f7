//! A file in memory whose device crashes, for tests.
ghost use Rattle.std.specs.Prelude.{◌≡◌, ◌⊎◌, ◌+◌, ◌<◌, ◌≤◌, false, length, drop, IfOk};
ghost use Rattle.std.proofs.Common.{inl};
ghost use Rattle.disk_file.specs.SectorPast.{HadBeen, only_bytes};

use crate::memory::MemoryFile;
use crate::{CrashableFile, DeviceError};
use std::alloc::{AllocError, Global};

/// A file in memory that crashes once so many bytes are written; each sync and each cut counts as one. Of the write at the
/// crash the first bytes are written, and the others are either left out or all written as one byte of the test's choice.
/// After the crash each call fails.
#[derive(Drop)]
pub struct CrashingMemory {
    alloc: Global,
    memory: MemoryFile,
    left: usize,
    fill: Option<u8>,
    failures: Vec<u8>,
}

impl CrashingMemory {
    /// A file with these bytes, all of them on the disk, whose device crashes so many bytes later.
    pub fn new(alloc: Global, bytes: Vec<u8>, left: usize, fill: Option<u8>) -> Self {
        CrashingMemory {
            alloc,
            memory: MemoryFile::new(alloc, bytes),
            left,
            fill,
            failures: Vec::new(alloc),
        }
    }

    /// What it holds.
    pub fn bytes(&self) -> &[u8] {
        self.memory.bytes()
    }
}

// Whether so many bytes are written before the crash.
fn spend(left: &mut usize, bytes: usize) -> bool
    ensures { (result ≡ false) → left.new < bytes }
{
    if *left < bytes {
        return false;
    }
    *left -= bytes;
    true
}

// The device fails.
fn fail(left: &mut usize, failures: &mut Vec<u8>) -> DeviceError
    ensures failed { result ≡ DeviceError.Failed → length failures.old.items < length failures.new.items }
    ensures more { length failures.old.items ≤ length failures.new.items }
    ensures not_full { result ≡ DeviceError.Full → ⊥ }
    ensures not_short { result ≡ DeviceError.Short → ⊥ }
{
    *left = 0;
    match failures.push(0) {
        Ok(()) => DeviceError::Failed,
        Err(_) => DeviceError::Memory,
    }
}

// What is written of these bytes if so many are left before the crash.
fn torn(alloc: Global, bytes: &[u8], left: usize, fill: Option<u8>) -> Result<Vec<u8>, AllocError>
    requires { left ≤ length bytes.now }
    ensures { IfOk result (λ torn. length torn.items ≤ length bytes.now) }
{
    let mut torn = bytes[..left].to_vec(alloc)?;
    if let Some(byte) = fill {
        torn.resize(bytes.len(), byte)?;
    }
    Ok(torn)
}

impl CrashableFile for CrashingMemory {
    ghost seen = { λ m. m.memory.bytes.items };

    ghost may_leave = { λ m c. c ≡ m.memory.bytes.items };

    ghost moment = { λ m. length m.memory.past.items };

    ghost left_since = { λ m t c. (c ≡ m.memory.bytes.items) ⊎ HadBeen (drop t m.memory.past.items) c };

    ghost faults = { λ m. length m.failures.items };

    ghost counts_now = { λ m t c le now. inl now };

    ghost only_now = { λ m c left. only_bytes m.memory.past.items m.memory.bytes.items c left };

    fn read(&mut self, alloc: Global) -> Result<Vec<u8>, DeviceError> {
        if !self.failures.is_empty() {
            return Err(fail(&mut self.left, &mut self.failures));
        }
        self.memory.read(alloc)
    }

    fn write_at(&mut self, at: usize, bytes: &[u8]) -> Result<(), DeviceError> {
        if spend(&mut self.left, bytes.len()) {
            return self.memory.write_at(at, bytes);
        }
        let torn = torn(self.alloc, bytes, self.left, self.fill)?;
        self.memory.write_at(at, &torn)?;
        Err(fail(&mut self.left, &mut self.failures))
    }

    fn cut(&mut self, len: usize) -> Result<(), DeviceError> {
        if !spend(&mut self.left, 1) {
            return Err(fail(&mut self.left, &mut self.failures));
        }
        self.memory.cut(len)
    }

    fn sync(&mut self) -> Result<(), DeviceError> {
        if !spend(&mut self.left, 1) {
            return Err(fail(&mut self.left, &mut self.failures));
        }
        self.memory.sync()
    }
}

//! What the processor is wired to: memory, two serial ports and the drives, by port number.
ghost use Rattle.std.specs.Prelude.{◌≡◌, ◌<◌, ℕ, false, IfOk, IfErr, IfSome, slice_index};
ghost use Rattle.i8080_words.specs.Effects.{after_accesses};
ghost use Rattle.i8080_words.specs.Effects.Access.{Input, Output};
ghost use Rattle.guest_board.specs.Ports.{port_byte, after_access};
ghost use Rattle.guest_board.specs.Guest as guest;
ghost use Rattle.guest_board.specs.Ports as ports;
ghost use Rattle.i8080_words.specs.declared.refusal.Fault.TheVariants.{OutOfMemory};
ghost use Rattle.plain_single.specs.Behind.{behind_of, behind_at_boot, devices_of, wired_of, after_wired, is_full};
ghost use Rattle.plain_single.specs.Executor.{accesses_of};

use crate::drives::DiskDrives;
use crate::executor::Stores;
use crate::memory::Memory;
use crate::serial::SerialLine;
use guest_board::Setup;
use i8080_words::{GREATEST_NUMBER, R};
use std::alloc::Global;

// The port numbers (MITS 88-2SIO and 88-DCDD manuals).
const FIRST_CONTROL: u8 = 0x10;

const FIRST_BYTES: u8 = 0x11;

const SECOND_CONTROL: u8 = 0x12;

const SECOND_BYTES: u8 = 0x13;

const DISK_SELECT: u8 = 0x08;

const DISK_CONTROL: u8 = 0x09;

const DISK_BYTES: u8 = 0x0a;

const SENSE_SWITCHES: u8 = 0xff;

// What IN returns if nothing answers.
const NOTHING: u8 = 0xff;

/// Memory, the ports, the drives, and the sense switches.
#[derive(Drop)]
pub struct Wires {
    pub memory: Memory,
    pub(crate) first: SerialLine,
    pub(crate) second: SerialLine,
    pub(crate) drives: DiskDrives,
    pub(crate) sense: u8,
}

impl Wires {
    /// The memory of a setup, with its ports and drives at boot.
    pub fn new(alloc: Global, setup: &Setup) -> R<Self>
        ensures ok { IfOk result (λ wires. behind_of wires ≡ behind_at_boot setup.now) }
        ensures only_memory { IfErr result (λ fault. fault ≡ OutOfMemory) }
    {
        let bytes = Vec::from_slice(alloc, &setup.memory)?;
        Ok(Wires {
            memory: Memory { bytes },
            first: SerialLine::new(alloc),
            second: SerialLine::new(alloc),
            drives: DiskDrives::new(alloc, setup.drives),
            sense: setup.sense,
        })
    }

    /// A copy of all of it. `OutOfMemory` if the allocator refuses.
    pub fn copy(&self, alloc: Global) -> R<Self>
        ensures ok { IfOk result (λ wires. behind_of wires ≡ behind_of self.now) }
        ensures only_memory { IfErr result (λ fault. fault ≡ OutOfMemory) }
    {
        let bytes = Vec::from_slice(alloc, &self.memory.bytes)?;
        Ok(Wires {
            memory: Memory { bytes },
            first: self.first.copy(alloc)?,
            second: self.second.copy(alloc)?,
            drives: self.drives.copy(alloc)?,
            sense: self.sense,
        })
    }

    /// Whether the number of a port's bytes, or of writes, is at its greatest.
    pub fn is_spent(&self) -> bool
        ensures { result ≡ is_full (behind_of self.now) }
    {
        self.first.output.len() as u64 >= GREATEST_NUMBER
            || self.second.output.len() as u64 >= GREATEST_NUMBER
            || self.drives.writes.len() as u64 >= GREATEST_NUMBER
    }

    /// The interrupt line: the level of the first device that asks, of port 0, port 1 and the disk.
    pub(crate) fn line(&self, levels: [u8; 3]) -> Option<u8>
        ensures value { result ≡ guest.line_of (devices_of (behind_of self.now)) levels }
        ensures range { ((device : ℕ) → slice_index levels device < 8) → IfSome result (λ level. level < 8) }
    {
        let [first, second, disk] = levels;
        if self.first.asks() {
            Some(first)
        } else if self.second.asks() {
            Some(second)
        } else if self.drives.asks() {
            Some(disk)
        } else {
            None
        }
    }

    /// Stores what an instruction stores.
    pub(crate) fn store(&mut self, stores: Stores)
        ensures { behind_of self.new ≡ after_wired (behind_of self.old)
            (after_accesses after_access (accesses_of stores) (wired_of (behind_of self.old))) }
    {
        self.memory.store(stores);
    }

    /// IN.
    pub(crate) fn input(&mut self, number: u8) -> u8
        ensures byte { result ≡ port_byte (wired_of (behind_of self.old)) number }
        ensures after { behind_of self.new ≡ after_wired (behind_of self.old)
            (after_access (Input number) (wired_of (behind_of self.old))) }
    {
        match number {
            FIRST_CONTROL => self.first.status(),
            FIRST_BYTES => self.first.read(),
            SECOND_CONTROL => self.second.status(),
            SECOND_BYTES => self.second.read(),
            DISK_SELECT => self.drives.status(),
            DISK_CONTROL => self.drives.position(),
            DISK_BYTES => self.drives.read(),
            SENSE_SWITCHES => self.sense,
            _ => NOTHING,
        }
    }

    /// OUT.
    pub(crate) fn output(&mut self, number: u8, byte: u8) -> R<()>
        requires { is_full (behind_of self.old) ≡ false }
        ensures ok { IfOk result (λ _. behind_of self.new ≡ after_wired (behind_of self.old)
            (after_access (Output number byte) (wired_of (behind_of self.old)))) }
        ensures only_memory { IfErr result (λ fault. fault ≡ OutOfMemory) }
    {
        match number {
            FIRST_CONTROL => self.first.control(byte),
            FIRST_BYTES => return self.first.send(byte),
            SECOND_CONTROL => self.second.control(byte),
            SECOND_BYTES => return self.second.send(byte),
            DISK_SELECT => self.drives.select(byte),
            DISK_CONTROL => self.drives.command(byte),
            DISK_BYTES => return self.fill(byte),
            _ => {}
        }
        Ok(())
    }

    // OUT to the disk's data.
    fn fill(&mut self, byte: u8) -> R<()>
        requires { is_full (behind_of self.old) ≡ false }
        ensures ok { IfOk result (λ _. behind_of self.new ≡ after_wired (behind_of self.old)
            (ports.after_disk_data (wired_of (behind_of self.old)) byte)) }
        ensures only_memory { IfErr result (λ fault. fault ≡ OutOfMemory) }
    {
        self.drives.fill(byte)
    }
}

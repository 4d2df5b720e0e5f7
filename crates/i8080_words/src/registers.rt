//! The registers of the processor, and its whole state.
ghost use Rattle.std.specs.Prelude.{◌≡◌, ℕ, ◌<◌, ◌^◌};

use crate::arithmetic::Flags;
use std::marker::Model;

/// A 16-bit register that holds an address. It is kept in 32 bits: hosts forward a 32-bit store to the next load at
/// once, but a 16-bit store only after several cycles, and PC is stored and loaded at every step.
#[derive(Clone, Copy, PartialEq, Eq, Default)]
pub struct AddressRegister {
    address: u32,
}

impl Model for AddressRegister {
    ghost Value = { ℕ };

    ghost view = { λ r. r.address };

    ghost invariant = { λ r. r.address < 2 ^ 16 };

    ghost inverse = { λ n. record { address = n } };
}

impl AddressRegister {
    /// A register that holds this address.
    pub fn new(address: u16) -> Self
        ensures { result ≡ address }
    {
        AddressRegister {
            address: u32::from(address),
        }
    }

    /// The address.
    pub fn get(self) -> u16
        ensures { result ≡ self }
    {
        self.address as u16
    }
}

/// The registers: the accumulator A, the six that form the pairs BC, DE and HL, the condition flags, the stack pointer
/// and the program counter. Addresses wrap modulo 65,536. The low register of a pair comes first, so that a host loads and stores
/// a pair as one word.
#[derive(Clone, Copy, PartialEq, Eq, Default)]
pub struct Regs {
    pub pc: AddressRegister,
    pub sp: AddressRegister,
    pub c: u8,
    pub b: u8,
    pub e: u8,
    pub d: u8,
    pub l: u8,
    pub h: u8,
    pub a: u8,
    pub flags: Flags,
}

/// Whether an interrupt request is accepted (8080 User's Manual, chapter 4, EI and DI).
#[derive(Clone, Copy, PartialEq, Eq)]
pub enum Interrupts {
    /// Requests wait.
    Off,
    /// EI was executed: requests wait until the next instruction has been executed.
    Soon,
    /// The next step accepts a request.
    On,
}

/// The whole state of the processor; HLT sets `halted`, and an accepted interrupt clears it.
#[derive(Clone, Copy, PartialEq, Eq)]
pub struct Processor {
    pub regs: Regs,
    pub interrupts: Interrupts,
    pub halted: bool,
}

/// What a step did.
#[derive(Clone, Copy, PartialEq, Eq)]
pub enum Stepped {
    /// It executed one instruction.
    Ran,
    /// It accepted an interrupt: PC was pushed, and is now the restart address.
    Accepted,
    /// It found the processor halted, with no interrupt to accept, and did nothing.
    Idle,
}

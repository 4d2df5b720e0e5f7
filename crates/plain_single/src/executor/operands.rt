//! Operands of instructions: registers, register pairs, the bytes in memory that they name, and conditions.
ghost use Rattle.std.specs.Prelude.{◌≡◌, ◌+◌, ◌*◌, ◌/◌, ◌%◌};
ghost use Rattle.i8080_words.specs.Arithmetic.{wrapped};
ghost use Rattle.i8080_words.specs.Effects as table;
ghost use Rattle.plain_single.specs.Executor.{byte_at, outcome_of};

use super::{Outcome, Stores, quiet};
use crate::memory::Memory;
use i8080_words::{
    AddressRegister, Condition, Flags, Register, RegisterPair, Regs, StackPair, psw,
};

/// An effect that stores one byte.
pub(crate) fn writing(address: u16, byte: u8, regs: &Regs) -> Outcome
    ensures { outcome_of result ≡ table.writing address byte regs.now }
{
    Outcome {
        regs: *regs,
        stores: Stores::Byte(address, byte),
    }
}

/// An effect that stores a word, its low byte first.
pub(crate) fn writing_word(address: u16, low: u8, high: u8, regs: &Regs) -> Outcome
    ensures { outcome_of result ≡ table.writing_word address low high regs.now }
{
    Outcome {
        regs: *regs,
        stores: Stores::Bytes(address, low, address.wrapping_add(1), high),
    }
}

/// The word in a register pair.
pub(crate) fn pair_value(pair: RegisterPair, regs: &Regs) -> u16
    ensures { result ≡ table.pair_value pair regs.now }
{
    match pair {
        RegisterPair::BC => u16::from_le_bytes([regs.c, regs.b]),
        RegisterPair::DE => u16::from_le_bytes([regs.e, regs.d]),
        RegisterPair::HL => u16::from_le_bytes([regs.l, regs.h]),
        RegisterPair::SP => regs.sp.get(),
    }
}

/// A word put into a register pair.
pub(crate) fn with_pair(pair: RegisterPair, word: u16, regs: &Regs) -> Regs
    ensures { result ≡ table.with_pair pair word regs.now }
{
    let [low, high] = word.to_le_bytes();
    match pair {
        RegisterPair::BC => Regs {
            b: high,
            c: low,
            ..*regs
        },
        RegisterPair::DE => Regs {
            d: high,
            e: low,
            ..*regs
        },
        RegisterPair::HL => Regs {
            h: high,
            l: low,
            ..*regs
        },
        RegisterPair::SP => Regs {
            sp: AddressRegister::new(word),
            ..*regs
        },
    }
}

/// The byte that a register operand names.
pub(crate) fn operand(memory: &Memory, register: Register, regs: &Regs) -> u8
    ensures { result ≡ table.operand (byte_at memory.now.bytes.items) register regs.now }
{
    match register {
        Register::B => regs.b,
        Register::C => regs.c,
        Register::D => regs.d,
        Register::E => regs.e,
        Register::H => regs.h,
        Register::L => regs.l,
        Register::M => memory.read(pair_value(RegisterPair::HL, regs)),
        Register::A => regs.a,
    }
}

/// A byte put into a register operand.
pub(crate) fn put(register: Register, byte: u8, regs: &Regs) -> Outcome
    ensures { outcome_of result ≡ table.put register byte regs.now }
{
    match register {
        Register::B => quiet(Regs { b: byte, ..*regs }),
        Register::C => quiet(Regs { c: byte, ..*regs }),
        Register::D => quiet(Regs { d: byte, ..*regs }),
        Register::E => quiet(Regs { e: byte, ..*regs }),
        Register::H => quiet(Regs { h: byte, ..*regs }),
        Register::L => quiet(Regs { l: byte, ..*regs }),
        Register::M => writing(pair_value(RegisterPair::HL, regs), byte, regs),
        Register::A => quiet(Regs { a: byte, ..*regs }),
    }
}

/// Whether a condition is met.
pub(crate) fn holds(condition: Condition, flags: Flags) -> bool
    ensures { result ≡ table.holds condition flags }
{
    match condition {
        Condition::NZ => !flags.z,
        Condition::Z => flags.z,
        Condition::NC => !flags.cy,
        Condition::C => flags.cy,
        Condition::PO => !flags.p,
        Condition::PE => flags.p,
        Condition::P => !flags.s,
        Condition::M => flags.s,
    }
}

/// The registers with the stack pointer past a popped word.
pub(crate) fn popped(regs: &Regs) -> Regs
    ensures { result ≡ table.popped regs.now }
{
    Regs {
        sp: AddressRegister::new(regs.sp.get().wrapping_add(2)),
        ..*regs
    }
}

/// The word that PUSH stores.
pub(crate) fn pushed_value(pair: StackPair, regs: &Regs) -> u16
    ensures { result ≡ table.pushed_value pair regs.now }
{
    match pair {
        StackPair::BC => pair_value(RegisterPair::BC, regs),
        StackPair::DE => pair_value(RegisterPair::DE, regs),
        StackPair::HL => pair_value(RegisterPair::HL, regs),
        StackPair::PSW => u16::from_le_bytes([psw(regs.flags), regs.a]),
    }
}

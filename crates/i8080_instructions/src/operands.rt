//! Operands of instructions: registers, pairs and the bytes in memory that they name, and the conditions of jumps.
//!
//! The caller keeps PC. Where a function takes it beside the registers, its contract says what it does to the registers with that
//! PC, and the code does not use it.
ghost use Rattle.std.specs.Prelude.{◌≡◌, ◌+◌, ◌*◌, ◌/◌, ◌%◌};
ghost use Rattle.i8080_words.specs.Arithmetic.{wrapped};
ghost use Rattle.i8080_words.specs.Effects.{after_accesses, pair_value as value_of_pair, with_pair, operand, put, holds, pushed_value, with_pc, with_pushed};

use crate::bus::Bus;
use i8080_words::{
    AddressRegister, Condition, Flags, Register, RegisterPair, Regs, StackPair, of_psw, psw,
};

/// An address plus an offset, modulo 65,536.
pub fn offset(address: u16, by: u16) -> u16
    ensures { result ≡ wrapped (address + by) }
{
    address.wrapping_add(by)
}

/// The word in a register pair.
pub fn pair_value(pair: RegisterPair, pc: u16, regs: &Regs) -> u16
    ensures { result ≡ value_of_pair pair (with_pc pc regs.now) }
{
    match pair {
        RegisterPair::BC => u16::from_le_bytes([regs.c, regs.b]),
        RegisterPair::DE => u16::from_le_bytes([regs.e, regs.d]),
        RegisterPair::HL => u16::from_le_bytes([regs.l, regs.h]),
        RegisterPair::SP => regs.sp.get(),
    }
}

/// Puts a word into a register pair.
pub fn set_pair(pair: RegisterPair, word: u16, pc: u16, regs: &mut Regs)
    ensures { with_pc pc regs.new ≡ with_pair pair word (with_pc pc regs.old) }
{
    match pair {
        RegisterPair::BC => {
            [regs.c, regs.b] = word.to_le_bytes();
        }
        RegisterPair::DE => {
            [regs.e, regs.d] = word.to_le_bytes();
        }
        RegisterPair::HL => {
            [regs.l, regs.h] = word.to_le_bytes();
        }
        RegisterPair::SP => regs.sp = AddressRegister::new(word),
    }
}

/// The word that PUSH stores.
#[inline(always)]
pub fn stack_pair_value(pair: StackPair, pc: u16, regs: &Regs) -> u16
    ensures { result ≡ pushed_value pair (with_pc pc regs.now) }
{
    match pair {
        StackPair::BC => u16::from_le_bytes([regs.c, regs.b]),
        StackPair::DE => u16::from_le_bytes([regs.e, regs.d]),
        StackPair::HL => u16::from_le_bytes([regs.l, regs.h]),
        StackPair::PSW => u16::from_le_bytes([psw(regs.flags), regs.a]),
    }
}

/// Puts a word into the pair that POP names.
#[inline(always)]
pub fn set_stack_pair(pair: StackPair, word: u16, pc: u16, regs: &mut Regs)
    ensures { with_pc pc regs.new ≡ with_pushed pair word (with_pc pc regs.old) }
{
    match pair {
        StackPair::BC => set_pair(RegisterPair::BC, word, pc, regs),
        StackPair::DE => set_pair(RegisterPair::DE, word, pc, regs),
        StackPair::HL => set_pair(RegisterPair::HL, word, pc, regs),
        StackPair::PSW => {
            let [low, high] = word.to_le_bytes();
            regs.a = high;
            regs.flags = of_psw(low);
        }
    }
}

/// Whether a condition is met.
pub fn is_met(condition: Condition, flags: Flags) -> bool
    ensures { result ≡ holds condition flags }
{
    match condition {
        Condition::NZ => !flags.z,
        Condition::Z => flags.z,
        Condition::NC => !flags.cy,
        Condition::C => flags.cy,
        Condition::PO => !flags.p,
        Condition::PE => flags.p,
        Condition::P => !flags.s,
        Condition::M => flags.s,
    }
}

/// The byte in a register, or in memory for `M`.
pub fn read_operand<B: Bus>(bus: &B, register: Register, pc: u16, regs: &Regs) -> u8
    ensures { result ≡ operand (B.byte_at (B.state bus.now)) register (with_pc pc regs.now) }
{
    match register {
        Register::B => regs.b,
        Register::C => regs.c,
        Register::D => regs.d,
        Register::E => regs.e,
        Register::H => regs.h,
        Register::L => regs.l,
        Register::M => bus.read(pair_value(RegisterPair::HL, pc, regs)),
        Register::A => regs.a,
    }
}

/// Puts a byte into a register, or into memory for `M`.
#[inline(always)]
pub fn write_operand<B: Bus>(bus: &mut B, register: Register, byte: u8, pc: u16, regs: &mut Regs)
    ensures regs { with_pc pc regs.new ≡ (put register byte (with_pc pc regs.old)).regs }
    ensures bus { B.state bus.new
        ≡ after_accesses B.after (put register byte (with_pc pc regs.old)).accesses (B.state bus.old) }
{
    match register {
        Register::B => regs.b = byte,
        Register::C => regs.c = byte,
        Register::D => regs.d = byte,
        Register::E => regs.e = byte,
        Register::H => regs.h = byte,
        Register::L => regs.l = byte,
        Register::M => bus.write(pair_value(RegisterPair::HL, pc, regs), byte),
        Register::A => regs.a = byte,
    }
}

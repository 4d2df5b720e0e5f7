//! What each instruction does, one line for each: from registers to registers, with what it stores.
ghost use Rattle.std.specs.Prelude.{◌≡◌, ℕ, false, true};
ghost use Rattle.i8080_words.specs.Effects as table;
ghost use Rattle.plain_single.specs.Executor.{byte_at, outcome_of, is_among_registers, is_at_port, is_jump, is_load_or_store};

mod groups;
mod operands;

use crate::memory::Memory;
pub(crate) use groups::called;
use groups::{
    accumulated, counted_down, counted_up, decremented_pair, incremented_pair, loaded_pair,
    operated, pair_added, popped_pair, pushed_word, returned, top_exchanged, with_pc,
};
use i8080_words::{AddressRegister, Op, RegisterPair, Regs};
use operands::{holds, operand, pair_value, pushed_value, put, with_pair, writing, writing_word};

/// What an instruction stores: nothing, a byte at an address, or one byte and then another.
#[derive(Clone, Copy)]
pub enum Stores {
    Nothing,
    Byte(u16, u8),
    Bytes(u16, u8, u16, u8),
}

/// What an instruction does: the registers after it, and what it stores.
#[derive(Clone, Copy)]
pub struct Outcome {
    pub regs: Regs,
    pub stores: Stores,
}

/// An effect on the registers alone.
pub(crate) fn quiet(regs: Regs) -> Outcome
    ensures { outcome_of result ≡ table.quiet regs }
{
    Outcome {
        regs,
        stores: Stores::Nothing,
    }
}

/// The effect of every instruction but IN and OUT, on registers whose PC is past it.
pub fn effect(op: Op, regs: &Regs, memory: &Memory) -> Outcome
    requires { is_at_port op ≡ false }
    ensures { (ports : ℕ → ℕ) → outcome_of result ≡ table.effect op regs.now (byte_at memory.now.bytes.items) ports }
{
    match op {
        Op::Nop | Op::Hlt | Op::Di | Op::Ei => quiet(*regs),
        Op::Mov(to, from) => put(to, operand(memory, from, regs), regs),
        Op::Mvi(to, byte) => put(to, byte, regs),
        Op::Lxi(pair, word) => quiet(with_pair(pair, word, regs)),
        Op::Xchg => quiet(Regs {
            d: regs.h,
            e: regs.l,
            h: regs.d,
            l: regs.e,
            ..*regs
        }),
        Op::Pchl => quiet(with_pc(pair_value(RegisterPair::HL, regs), regs)),
        Op::Sphl => quiet(Regs {
            sp: AddressRegister::new(pair_value(RegisterPair::HL, regs)),
            ..*regs
        }),
        _ => loaded_or_stored(op, regs, memory),
    }
}

// The effect of loads and stores, the stack's among them, and of all that comes after them.
fn loaded_or_stored(op: Op, regs: &Regs, memory: &Memory) -> Outcome
    requires port { is_at_port op ≡ false }
    requires registers { is_among_registers op ≡ false }
    ensures { (ports : ℕ → ℕ) → outcome_of result ≡ table.effect op regs.now (byte_at memory.now.bytes.items) ports }
{
    match op {
        Op::Stax(pair) => writing(pair_value(pair, regs), regs.a, regs),
        Op::Ldax(pair) => quiet(Regs {
            a: memory.read(pair_value(pair, regs)),
            ..*regs
        }),
        Op::Sta(address) => writing(address, regs.a, regs),
        Op::Lda(address) => quiet(Regs {
            a: memory.read(address),
            ..*regs
        }),
        Op::Shld(address) => writing_word(address, regs.l, regs.h, regs),
        Op::Lhld(address) => quiet(loaded_pair(memory, address, regs)),
        Op::Push(pair) => pushed_word(pushed_value(pair, regs), regs),
        Op::Pop(pair) => quiet(popped_pair(memory, pair, regs)),
        Op::Xthl => top_exchanged(memory, regs),
        _ => calculated(op, regs, memory),
    }
}

// The effect of arithmetic, and of jumps.
fn calculated(op: Op, regs: &Regs, memory: &Memory) -> Outcome
    requires port { is_at_port op ≡ false }
    requires registers { is_among_registers op ≡ false }
    requires memory { is_load_or_store op ≡ false }
    ensures { (ports : ℕ → ℕ) → outcome_of result ≡ table.effect op regs.now (byte_at memory.now.bytes.items) ports }
{
    match op {
        Op::Arithmetic(operation, from) => quiet(operated(
            operation,
            operand(memory, from, regs),
            regs,
        )),
        Op::Immediate(operation, byte) => quiet(operated(operation, byte, regs)),
        Op::Inr(register) => counted_up(memory, register, regs),
        Op::Dcr(register) => counted_down(memory, register, regs),
        Op::Inx(pair) => quiet(incremented_pair(pair, regs)),
        Op::Dcx(pair) => quiet(decremented_pair(pair, regs)),
        Op::Dad(pair) => quiet(pair_added(pair, regs)),
        Op::Accumulator(operation) => quiet(accumulated(operation, regs)),
        _ => jumped(op, regs, memory),
    }
}

// The effect of jumps, calls and returns.
fn jumped(op: Op, regs: &Regs, memory: &Memory) -> Outcome
    requires { is_jump op ≡ true }
    ensures { (ports : ℕ → ℕ) → outcome_of result ≡ table.effect op regs.now (byte_at memory.now.bytes.items) ports }
{
    match op {
        Op::Jmp(address) => quiet(with_pc(address, regs)),
        Op::JumpIf(condition, address) if holds(condition, regs.flags) => quiet(with_pc(
            address, regs,
        )),
        Op::Call(address) => called(address, regs),
        Op::CallIf(condition, address) if holds(condition, regs.flags) => called(address, regs),
        Op::Ret => quiet(returned(memory, regs)),
        Op::ReturnIf(condition) if holds(condition, regs.flags) => quiet(returned(memory, regs)),
        Op::JumpIf(..) | Op::CallIf(..) | Op::ReturnIf(_) => quiet(*regs),
        Op::Rst(number) => called(8 * number as u16, regs),
        _ => unreachable!(),
    }
}

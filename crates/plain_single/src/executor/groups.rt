//! Groups of instructions: arithmetic, increments and decrements, rotations, the stack, calls and returns.
ghost use Rattle.std.specs.Prelude.{◌≡◌, ◌+◌, ◌*◌, ◌/◌, ◌%◌};
ghost use Rattle.i8080_words.specs.Arithmetic.{wrapped};
ghost use Rattle.i8080_words.specs.Effects as table;
ghost use Rattle.plain_single.specs.Executor.{byte_at, outcome_of};

use super::operands::{operand, pair_value, popped, put, with_pair, writing_word};
use super::{Outcome, Stores};
use crate::memory::Memory;
use i8080_words::{
    AccumulatorOperation, AddressRegister, AluOperation, Flags, Register, RegisterPair, Regs,
    StackPair, add8, and8, daa, dad, dcr, inr, of_psw, or8, rotate_left, rotate_right, sub8, xor8,
};

// A and the flags after an operation.
fn with_result(result_of: (u8, Flags), regs: &Regs) -> Regs
    ensures { result ≡ record regs.now { a = result_of.0; flags = result_of.1 } }
{
    let (a, flags) = result_of;
    Regs { a, flags, ..*regs }
}

/// An operation on the accumulator and a byte (ADD to CMP, ADI to CPI).
pub(crate) fn operated(operation: AluOperation, byte: u8, regs: &Regs) -> Regs
    ensures { result ≡ table.operated operation byte regs.now }
{
    match operation {
        AluOperation::Add => with_result(add8(regs.a, byte, false), regs),
        AluOperation::Adc => with_result(add8(regs.a, byte, regs.flags.cy), regs),
        AluOperation::Sub => with_result(sub8(regs.a, byte, false), regs),
        AluOperation::Sbb => with_result(sub8(regs.a, byte, regs.flags.cy), regs),
        AluOperation::Ana => with_result(and8(regs.a, byte), regs),
        AluOperation::Xra => with_result(xor8(regs.a, byte), regs),
        AluOperation::Ora => with_result(or8(regs.a, byte), regs),
        AluOperation::Cmp => {
            let (_, flags) = sub8(regs.a, byte, false);
            Regs { flags, ..*regs }
        }
    }
}

/// INR.
pub(crate) fn counted_up(memory: &Memory, register: Register, regs: &Regs) -> Outcome
    ensures { outcome_of result ≡ table.counted_up register (byte_at memory.now.bytes.items) regs.now }
{
    let (value, flags) = inr(operand(memory, register, regs), regs.flags.cy);
    let regs = Regs { flags, ..*regs };
    put(register, value, &regs)
}

/// DCR.
pub(crate) fn counted_down(memory: &Memory, register: Register, regs: &Regs) -> Outcome
    ensures { outcome_of result ≡ table.counted_down register (byte_at memory.now.bytes.items) regs.now }
{
    let (value, flags) = dcr(operand(memory, register, regs), regs.flags.cy);
    let regs = Regs { flags, ..*regs };
    put(register, value, &regs)
}

/// INX.
pub(crate) fn incremented_pair(pair: RegisterPair, regs: &Regs) -> Regs
    ensures { result ≡ table.with_pair pair (wrapped (table.pair_value pair regs.now + 1)) regs.now }
{
    let next = pair_value(pair, regs).wrapping_add(1);
    with_pair(pair, next, regs)
}

/// DCX.
pub(crate) fn decremented_pair(pair: RegisterPair, regs: &Regs) -> Regs
    ensures { result ≡ table.with_pair pair (wrapped (table.pair_value pair regs.now + 65535)) regs.now }
{
    let before = pair_value(pair, regs).wrapping_add(0xffff);
    with_pair(pair, before, regs)
}

// The registers with another carry.
fn with_carry(cy: bool, regs: &Regs) -> Regs
    ensures { result ≡ table.with_carry cy regs.now }
{
    let flags = Flags { cy, ..regs.flags };
    Regs { flags, ..*regs }
}

/// DAD.
pub(crate) fn pair_added(pair: RegisterPair, regs: &Regs) -> Regs
    ensures { result ≡ table.pair_added pair regs.now }
{
    let (sum, carry) = dad(pair_value(RegisterPair::HL, regs), pair_value(pair, regs));
    let regs = with_carry(carry, regs);
    with_pair(RegisterPair::HL, sum, &regs)
}

// A and the carry after a rotation.
fn turned(rotated: (u8, bool), regs: &Regs) -> Regs
    ensures { result ≡ table.turned rotated regs.now }
{
    let (a, carry) = rotated;
    let regs = Regs { a, ..*regs };
    with_carry(carry, &regs)
}

// DAA.
fn decimal_adjusted(regs: &Regs) -> Regs
    ensures { result ≡ table.decimal_adjusted regs.now }
{
    with_result(daa(regs.a, regs.flags.ac, regs.flags.cy), regs)
}

/// The rotations, DAA, CMA, STC and CMC.
pub(crate) fn accumulated(operation: AccumulatorOperation, regs: &Regs) -> Regs
    ensures { result ≡ table.accumulated operation regs.now }
{
    let a = regs.a;
    let carry = regs.flags.cy;
    match operation {
        AccumulatorOperation::Rlc => turned(rotate_left(a, a & 0x80 != 0), regs),
        AccumulatorOperation::Rrc => turned(rotate_right(a, a & 0x01 != 0), regs),
        AccumulatorOperation::Ral => turned(rotate_left(a, carry), regs),
        AccumulatorOperation::Rar => turned(rotate_right(a, carry), regs),
        AccumulatorOperation::Daa => decimal_adjusted(regs),
        AccumulatorOperation::Cma => Regs { a: !a, ..*regs },
        AccumulatorOperation::Stc => with_carry(true, regs),
        AccumulatorOperation::Cmc => with_carry(!carry, regs),
    }
}

/// LHLD: loads L from an address and H from the next.
pub(crate) fn loaded_pair(memory: &Memory, address: u16, regs: &Regs) -> Regs
    ensures { result ≡ record regs.now {
      l = byte_at memory.now.bytes.items address;
      h = byte_at memory.now.bytes.items (wrapped (address + 1));
    } }
{
    Regs {
        l: memory.read(address),
        h: memory.read(address.wrapping_add(1)),
        ..*regs
    }
}

/// XTHL: exchanges HL with the word at the stack pointer.
pub(crate) fn top_exchanged(memory: &Memory, regs: &Regs) -> Outcome
    ensures { outcome_of result ≡ table.writing_word regs.now.sp regs.now.l regs.now.h (record regs.now {
      l = byte_at memory.now.bytes.items regs.now.sp;
      h = byte_at memory.now.bytes.items (wrapped (regs.now.sp + 1));
    }) }
{
    let top = regs.sp.get();
    let (low, high) = (regs.l, regs.h);
    let loaded = loaded_pair(memory, top, regs);
    writing_word(top, low, high, &loaded)
}

/// The registers with PC at an address.
pub(crate) fn with_pc(address: u16, regs: &Regs) -> Regs
    ensures { result ≡ table.with_pc address regs.now }
{
    Regs {
        pc: AddressRegister::new(address),
        ..*regs
    }
}

/// A word pushed: its high byte at SP - 1, its low byte at SP - 2.
pub(crate) fn pushed_word(word: u16, regs: &Regs) -> Outcome
    ensures { outcome_of result ≡ table.pushed_word word regs.now }
{
    let top = regs.sp.get();
    let [low, high] = word.to_le_bytes();
    let below = top.wrapping_add(0xfffe);
    Outcome {
        regs: Regs {
            sp: AddressRegister::new(below),
            ..*regs
        },
        stores: Stores::Bytes(top.wrapping_add(0xffff), high, below, low),
    }
}

/// A word put into the pair that POP names.
fn with_pushed(pair: StackPair, word: u16, regs: &Regs) -> Regs
    ensures { result ≡ table.with_pushed pair word regs.now }
{
    match pair {
        StackPair::BC => with_pair(RegisterPair::BC, word, regs),
        StackPair::DE => with_pair(RegisterPair::DE, word, regs),
        StackPair::HL => with_pair(RegisterPair::HL, word, regs),
        StackPair::PSW => {
            let [low, a] = word.to_le_bytes();
            let flags = of_psw(low);
            Regs { a, flags, ..*regs }
        }
    }
}

/// PC pushed, and a jump (CALL, RST, and an accepted interrupt).
pub(crate) fn called(address: u16, regs: &Regs) -> Outcome
    ensures { outcome_of result ≡ table.called address regs.now }
{
    let Outcome { regs, stores } = pushed_word(regs.pc.get(), regs);
    let regs = with_pc(address, &regs);
    Outcome { regs, stores }
}

/// A jump to the word at the stack pointer, which is popped.
pub(crate) fn returned(memory: &Memory, regs: &Regs) -> Regs
    ensures { result ≡ table.returned (byte_at memory.now.bytes.items) regs.now }
{
    let address = memory.word(regs.sp.get());
    let regs = popped(regs);
    with_pc(address, &regs)
}

/// POP.
pub(crate) fn popped_pair(memory: &Memory, pair: StackPair, regs: &Regs) -> Regs
    ensures { result ≡ table.with_pushed pair
        (table.word_at (byte_at memory.now.bytes.items) regs.now.sp)
        (table.popped regs.now) }
{
    let word = memory.word(regs.sp.get());
    let regs = popped(regs);
    with_pushed(pair, word, &regs)
}

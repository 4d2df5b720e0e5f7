//! The stack and the jumps: words pushed and popped, calls and returns, with or without a condition.
ghost use Rattle.std.specs.Prelude.{◌≡◌, if◌then◌else◌, [], ◌+◌, ◌*◌, ◌/◌, ◌%◌};
ghost use Rattle.i8080_words.specs.Arithmetic.{wrapped, word_of};
ghost use Rattle.i8080_words.specs.Effects.{after_accesses, word_at, with_pushed, pushed_word, popped, holds, with_pc};

use crate::bus::Bus;
use crate::operands::{is_met, offset, set_stack_pair};
use i8080_words::{AddressRegister, Condition, Regs, StackPair};

/// Pushes a word: its high byte at SP - 1, its low byte at SP - 2.
#[inline(always)]
pub fn push<B: Bus>(bus: &mut B, word: u16, regs: &mut Regs)
    ensures regs { regs.new ≡ (pushed_word word regs.old).regs }
    ensures bus { B.state bus.new ≡ after_accesses B.after (pushed_word word regs.old).accesses (B.state bus.old) }
{
    let top = regs.sp.get();
    let [low, high] = word.to_le_bytes();
    bus.write(offset(top, 0xffff), high);
    bus.write(offset(top, 0xfffe), low);
    regs.sp = AddressRegister::new(offset(top, 0xfffe));
}

// The word at the stack pointer, which advances past it.
fn pop_word<B: Bus>(bus: &B, regs: &mut Regs) -> u16
    ensures word { result ≡ word_at (B.byte_at (B.state bus.now)) regs.old.sp }
    ensures regs { regs.new ≡ popped regs.old }
{
    let top = regs.sp.get();
    regs.sp = AddressRegister::new(offset(top, 2));
    bus.read_word(top)
}

/// Pops a word into a pair.
#[inline(always)]
pub fn pop<B: Bus>(bus: &B, pair: StackPair, pc: u16, regs: &mut Regs)
    ensures { with_pc pc regs.new
        ≡ with_pushed pair (word_at (B.byte_at (B.state bus.now)) regs.old.sp) (popped (with_pc pc regs.old)) }
{
    let word = pop_word(bus, regs);
    set_stack_pair(pair, word, pc, regs);
}

/// Pushes the address of the next code, and returns the address to go to (CALL, RST, and an accepted interrupt).
pub fn call<B: Bus>(bus: &mut B, address: u16, next: u16, regs: &mut Regs) -> u16
    ensures next { result ≡ address }
    ensures regs { regs.new ≡ (pushed_word next regs.old).regs }
    ensures bus { B.state bus.new ≡ after_accesses B.after (pushed_word next regs.old).accesses (B.state bus.old) }
{
    push(bus, next, regs);
    address
}

/// Pops an address to go to (RET).
pub fn go_back<B: Bus>(bus: &B, regs: &mut Regs) -> u16
    ensures next { result ≡ word_at (B.byte_at (B.state bus.now)) regs.old.sp }
    ensures regs { regs.new ≡ popped regs.old }
{
    pop_word(bus, regs)
}

/// The address to go to if a condition is met, the word after the code at an address, and otherwise the address past that
/// word (JZ and the like).
pub fn jump_if<B: Bus>(bus: &B, condition: Condition, start: u16, regs: &Regs) -> u16
    ensures { result ≡ (if holds condition regs.now.flags
        then word_of
        (B.byte_at (B.state bus.now) (wrapped (start + 1)))
        (B.byte_at (B.state bus.now) (wrapped (start + 2)))
        else wrapped (start + 3)) }
{
    if is_met(condition, regs.flags) {
        bus.read_word_after(start)
    } else {
        offset(start, 3)
    }
}

/// Calls if a condition is met (CZ and the like).
pub fn call_if<B: Bus>(
    bus: &mut B,
    condition: Condition,
    address: u16,
    next: u16,
    regs: &mut Regs,
) -> u16
    ensures next { result ≡ (if holds condition regs.old.flags then address else next) }
    ensures regs { regs.new ≡ (if holds condition regs.old.flags then (pushed_word next regs.old).regs else regs.old) }
    ensures bus { B.state bus.new ≡ after_accesses B.after
        (if holds condition regs.old.flags then (pushed_word next regs.old).accesses else [])
        (B.state bus.old) }
{
    if is_met(condition, regs.flags) {
        call(bus, address, next, regs)
    } else {
        next
    }
}

/// Returns if a condition is met (RZ and the like).
pub fn return_if<B: Bus>(bus: &B, condition: Condition, next: u16, regs: &mut Regs) -> u16
    ensures next { result ≡ (if holds condition regs.old.flags
        then word_at (B.byte_at (B.state bus.now)) regs.old.sp
        else next) }
    ensures regs { regs.new ≡ (if holds condition regs.old.flags then popped regs.old else regs.old) }
{
    if is_met(condition, regs.flags) {
        go_back(bus, regs)
    } else {
        next
    }
}

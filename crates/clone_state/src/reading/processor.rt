//! The processor, as bytes are read for it.
ghost use Rattle.std.specs.Prelude.{◌≡◌, option_map};
ghost use Rattle.clone_state.specs.FirstPart as grammar;
ghost use Rattle.clone_state.specs.Reading.{processor_with, registers_of};

use super::values::{interrupts_of, is_flag_byte, is_truth, word_at};
use i8080_words::{AddressRegister, Flags, Interrupts, Processor, Regs, of_psw};

// The registers but SP and PC, in the order of their bytes.
#[derive(Clone, Copy)]
struct Registers {
    a: u8,
    flags: Flags,
    b: u8,
    c: u8,
    d: u8,
    e: u8,
    h: u8,
    l: u8,
}

#[tactic(auto, unfolding(crate::specs::FirstPart::registers, crate::specs::FirstPart::flags, crate::specs::Codec::both, crate::specs::Codec::by, crate::specs::Codec::only, crate::specs::Codec::one))]
fn registers_at(bytes: &[u8]) -> Option<(Registers, &[u8])>
    ensures { option_map (λ found. (registers_of found.0, found.1.now)) result ≡ grammar.registers.read bytes.now }
{
    let [a, flags, b, c, d, e, h, l, rest @ ..] = bytes else {
        return None;
    };
    if !is_flag_byte(*flags) {
        return None;
    }
    let registers = Registers {
        a: *a,
        flags: of_psw(*flags),
        b: *b,
        c: *c,
        d: *d,
        e: *e,
        h: *h,
        l: *l,
    };
    Some((registers, rest))
}

#[tactic(auto, unfolding(crate::specs::FirstPart::processor, crate::specs::FirstPart::interrupts, crate::specs::FirstPart::truth, crate::specs::Codec::both, crate::specs::Codec::by, crate::specs::Codec::only, crate::specs::Codec::one))]
pub(super) fn processor_at(bytes: &[u8]) -> Option<(Processor, &[u8])>
    ensures { option_map (λ found. (found.0, found.1.now)) result ≡ grammar.processor.read bytes.now }
{
    let Some((registers, rest)) = registers_at(bytes) else {
        return None;
    };
    let (sp, rest) = word_at(rest)?;
    let (pc, rest) = word_at(rest)?;
    let [interrupts, halted, rest @ ..] = rest else {
        return None;
    };
    let Some(interrupts) = interrupts_of(*interrupts) else {
        return None;
    };
    if !is_truth(*halted) {
        return None;
    }
    Some((
        processor_of(registers, sp, pc, interrupts, *halted == 1),
        rest,
    ))
}

// The processor with these registers.
fn processor_of(
    registers: Registers,
    sp: u16,
    pc: u16,
    interrupts: Interrupts,
    halted: bool,
) -> Processor
    ensures { result ≡ processor_with (registers_of registers) sp pc interrupts halted }
{
    let regs = Regs {
        pc: AddressRegister::new(pc),
        sp: AddressRegister::new(sp),
        b: registers.b,
        c: registers.c,
        d: registers.d,
        e: registers.e,
        h: registers.h,
        l: registers.l,
        a: registers.a,
        flags: registers.flags,
    };
    Processor {
        regs,
        interrupts,
        halted,
    }
}

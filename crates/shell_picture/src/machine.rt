//! What a machine has in its registers and in its memory.
ghost use Rattle.std.specs.Prelude.{◌≡◌, ◌++◌, IfOk, Some, codes, take};
ghost use Rattle.std.specs.Fmt.{WritesOnOk};
ghost use Rattle.i8080_words.specs.Arithmetic.{flag_byte};
ghost use Rattle.pair_events.specs.Printed.{byte_text};
ghost use Rattle.shell_language.specs.Texts.{Prints};
ghost use Rattle.shell_language.specs.Shown.{address_text};
ghost use Rattle.shell_picture.specs.Machines.{flags_text, halt_text, interrupts_text, letter_text, memory_rows, memory_text, register_rows, registers_text, state_text};

use crate::answers::after;
use i8080_words::{Flags, Interrupts, Processor, Regs, psw};
use pair_events::{Hexadecimal, Spaced};
use shell_language::{Address, Printable, Printed};
use std::alloc::AllocError;
use std::fmt;

/// How many bytes a line has.
pub(crate) const LINE: usize = 16;

/// The registers of a processor, its flags and its interrupts, and how many steps it has executed.
pub fn print_registers(
    processor: &Processor,
    count: u64,
    printed: &mut Printed,
) -> Result<(), AllocError>
    ensures { IfOk result (λ _. Prints (register_rows processor.now count) printed.old printed.new) }
{
    printed.line(&RegisterRow(processor.regs))?;
    printed.line(&State { processor, count })?;
    Ok(())
}

/// Bytes of memory from an address on, sixteen in each line.
pub fn print_memory(from: u16, bytes: &[u8], printed: &mut Printed) -> Result<(), AllocError>
    ensures { IfOk result (λ _. Prints (memory_rows from bytes.now) printed.old printed.new) }
{
    let mut rest = bytes;
    let mut address = from;
    'lines: while !rest.is_empty() {
        let bytes = before(rest, LINE);
        printed.line(&MemoryRow { address, bytes })?;
        address = address.wrapping_add(LINE as u16);
        rest = after(rest, LINE);
    }
    Ok(())
}

/// The first of some bytes, at most so many.
pub(crate) fn before(bytes: &[u8], count: usize) -> &[u8]
    ensures { result.now ≡ take count bytes.now }
{
    if count < bytes.len() {
        &bytes[..count]
    } else {
        bytes
    }
}

// The registers.
#[derive(Clone, Copy)]
struct RegisterRow(Regs);

impl fmt::Display for RegisterRow {
    ghost output = { λ registers. Some (registers_text registers.0) };

    fn fmt<W: fmt::Write>(&self, f: &mut fmt::Formatter<W>) -> fmt::Result {
        let regs = &self.0;
        write_accumulator(f, regs)?;
        write_others(f, regs)?;
        write_pointers(f, regs)
    }
}

// The accumulator, and the flags as PUSH PSW has them.
fn write_accumulator<W: fmt::Write>(f: &mut fmt::Formatter<W>, regs: &Regs) -> fmt::Result
    ensures { WritesOnOk W.write_str_gives f.old result
        (codes "A " ++ (byte_text regs.now.a ++ (codes " F " ++ byte_text (flag_byte regs.now.flags)))) f.new }
{
    let flags = psw(regs.flags);
    write!(f, "A {} F {}", Hexadecimal(regs.a), Hexadecimal(flags))
}

// The other registers of a byte.
fn write_others<W: fmt::Write>(f: &mut fmt::Formatter<W>, regs: &Regs) -> fmt::Result
    ensures { WritesOnOk W.write_str_gives f.old result
        (codes " B " ++ (byte_text regs.now.b ++ (codes " C " ++ (byte_text regs.now.c ++ (codes " D " ++ (byte_text regs.now.d
        ++ (codes " E " ++ (byte_text regs.now.e ++ (codes " H " ++ (byte_text regs.now.h ++ (codes " L "
        ++ byte_text regs.now.l))))))))))) f.new }
{
    write!(
        f,
        " B {} C {} D {} E {} H {} L {}",
        Hexadecimal(regs.b),
        Hexadecimal(regs.c),
        Hexadecimal(regs.d),
        Hexadecimal(regs.e),
        Hexadecimal(regs.h),
        Hexadecimal(regs.l)
    )
}

// The stack pointer and the program counter.
fn write_pointers<W: fmt::Write>(f: &mut fmt::Formatter<W>, regs: &Regs) -> fmt::Result
    ensures { WritesOnOk W.write_str_gives f.old result
        (codes " SP " ++ (address_text regs.now.sp ++ (codes " PC " ++ address_text regs.now.pc))) f.new }
{
    let stack = regs.sp.get();
    let program = regs.pc.get();
    write!(f, " SP {} PC {}", Address(stack), Address(program))
}

// The rest of a processor, and the count.
#[derive(Clone, Copy)]
struct State<'a> {
    processor: &'a Processor,
    count: u64,
}

impl fmt::Display for State<'_> {
    ghost output = { λ state. Some (state_text state.processor.now state.count) };

    fn fmt<W: fmt::Write>(&self, f: &mut fmt::Formatter<W>) -> fmt::Result {
        write!(
            f,
            "flags {} interrupts {} {} count {}",
            Letters(self.processor.regs.flags),
            interrupts(self.processor.interrupts),
            halt(self.processor.halted),
            self.count
        )
    }
}

// Whether a request for an interrupt is accepted.
fn interrupts(interrupts: Interrupts) -> &'static str
    ensures { result.now ≡ interrupts_text interrupts }
{
    match interrupts {
        Interrupts::Off => "off",
        Interrupts::Soon => "soon",
        Interrupts::On => "on",
    }
}

// Whether the processor executes instructions.
fn halt(halted: bool) -> &'static str
    ensures { result.now ≡ halt_text halted }
{
    if halted { "halted" } else { "running" }
}

// The flags, as letters.
#[derive(Clone, Copy)]
struct Letters(Flags);

impl fmt::Display for Letters {
    ghost output = { λ letters. Some (flags_text letters.0) };

    fn fmt<W: fmt::Write>(&self, f: &mut fmt::Formatter<W>) -> fmt::Result {
        let Flags { s, z, ac, p, cy } = self.0;
        write!(
            f,
            "{}{}{}{}{}",
            letter(s, "S"),
            letter(z, "Z"),
            letter(ac, "A"),
            letter(p, "P"),
            letter(cy, "C")
        )
    }
}

// The letter of a flag that is set.
fn letter(is_set: bool, letter: &'static str) -> &'static str
    ensures { result.now ≡ letter_text is_set letter.now }
{
    if is_set { letter } else { "-" }
}

// Bytes of memory from an address on.
#[derive(Clone, Copy)]
struct MemoryRow<'a> {
    address: u16,
    bytes: &'a [u8],
}

impl fmt::Display for MemoryRow<'_> {
    ghost output = { λ line. Some (memory_text line.address line.bytes.now) };

    fn fmt<W: fmt::Write>(&self, f: &mut fmt::Formatter<W>) -> fmt::Result {
        write!(
            f,
            "{} {}  |{}|",
            Address(self.address),
            Spaced(self.bytes),
            Printable(self.bytes)
        )
    }
}

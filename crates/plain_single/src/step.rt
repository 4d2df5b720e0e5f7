//! One step of the processor over what it is wired to.
ghost use Rattle.std.specs.Prelude.{◌≡◌, ◌<◌, false, IfSome, IfOk, IfErr};
ghost use Rattle.i8080_words.specs.Effects as table;
ghost use Rattle.i8080_words.specs.Effects.{after_accesses};
ghost use Rattle.i8080_words.specs.Steps as steps;
ghost use Rattle.i8080_words.specs.declared.refusal.Fault.TheVariants.{OutOfMemory};
ghost use Rattle.guest_board.specs.Ports.{memory_byte, port_byte, after_access};
ghost use Rattle.plain_single.specs.Behind.{behind_of, wired_of, after_wired, is_full};

use crate::executor::{called, effect};
use crate::wires::Wires;
use i8080_words::{AddressRegister, Interrupts, Op, Processor, R, Regs, decode, length};

/// Accepts a request of level n, from 0 to 7, as RST n.
pub(crate) fn accept(level: u8, processor: &mut Processor, wires: &mut Wires)
    requires { level < 8 }
    ensures processor { processor.new ≡ (steps.accepted level processor.old).after }
    ensures wires { behind_of wires.new ≡ after_wired (behind_of wires.old)
        (after_accesses after_access (steps.accepted level processor.old).accesses (wired_of (behind_of wires.old))) }
{
    let outcome = called(8 * level as u16, &processor.regs);
    processor.regs = outcome.regs;
    processor.interrupts = Interrupts::Off;
    processor.halted = false;
    wires.store(outcome.stores);
}

/// Executes the instruction at PC. `OutOfMemory` if what it sends or writes cannot be kept.
pub fn run(processor: &mut Processor, wires: &mut Wires) -> R<()>
    requires { is_full (behind_of wires.old) ≡ false }
    ensures processor { IfOk result (λ _. processor.new
        ≡ (steps.ran processor.old (memory_byte (wired_of (behind_of wires.old)))
        (port_byte (wired_of (behind_of wires.old)))).after) }
    ensures wires { IfOk result (λ _. behind_of wires.new ≡ after_wired (behind_of wires.old)
        (after_accesses after_access
        (steps.ran processor.old (memory_byte (wired_of (behind_of wires.old)))
        (port_byte (wired_of (behind_of wires.old)))).accesses
        (wired_of (behind_of wires.old)))) }
    ensures only_memory { IfErr result (λ fault. fault ≡ OutOfMemory) }
{
    let pc = processor.regs.pc.get();
    let code = wires.memory.read(pc);
    let low = wires.memory.read(pc.wrapping_add(1));
    let high = wires.memory.read(pc.wrapping_add(2));
    let op = decode([code, low, high]);
    let behind = pc.wrapping_add(length(code) as u16);
    processor.regs.pc = AddressRegister::new(behind);
    execute(op, processor, wires)
}

// Executes an instruction, with PC past it.
fn execute(op: Op, processor: &mut Processor, wires: &mut Wires) -> R<()>
    requires { is_full (behind_of wires.old) ≡ false }
    ensures processor { IfOk result (λ _. processor.new
        ≡ (steps.executed op processor.old.regs.pc processor.old (memory_byte (wired_of (behind_of wires.old)))
        (port_byte (wired_of (behind_of wires.old)))).after) }
    ensures wires { IfOk result (λ _. behind_of wires.new ≡ after_wired (behind_of wires.old)
        (after_accesses after_access
        (steps.executed op processor.old.regs.pc processor.old (memory_byte (wired_of (behind_of wires.old)))
        (port_byte (wired_of (behind_of wires.old)))).accesses
        (wired_of (behind_of wires.old)))) }
    ensures only_memory { IfErr result (λ fault. fault ≡ OutOfMemory) }
{
    carry_out(op, &mut processor.regs, wires)?;
    processor.interrupts = interrupts_after(op, processor.interrupts);
    processor.halted = is_halt(op);
    Ok(())
}

// What an instruction does to the registers, and to what the processor is wired to.
fn carry_out(op: Op, regs: &mut Regs, wires: &mut Wires) -> R<()>
    requires { is_full (behind_of wires.old) ≡ false }
    ensures regs { IfOk result (λ _. regs.new
        ≡ (table.effect op regs.old (memory_byte (wired_of (behind_of wires.old)))
        (port_byte (wired_of (behind_of wires.old)))).regs) }
    ensures wires { IfOk result (λ _. behind_of wires.new ≡ after_wired (behind_of wires.old)
        (after_accesses after_access
        (table.effect op regs.old (memory_byte (wired_of (behind_of wires.old)))
        (port_byte (wired_of (behind_of wires.old)))).accesses
        (wired_of (behind_of wires.old)))) }
    ensures only_memory { IfErr result (λ fault. fault ≡ OutOfMemory) }
{
    match op {
        Op::In(number) => regs.a = wires.input(number),
        Op::Out(number) => wires.output(number, regs.a)?,
        _ => {
            let outcome = effect(op, regs, &wires.memory);
            *regs = outcome.regs;
            wires.store(outcome.stores);
        }
    }
    Ok(())
}

// EI takes effect after the next instruction, DI at once.
fn interrupts_after(op: Op, interrupts: Interrupts) -> Interrupts
    ensures { result ≡ steps.interrupts_after op interrupts }
{
    match op {
        Op::Ei => Interrupts::Soon,
        Op::Di => Interrupts::Off,
        _ => match interrupts {
            Interrupts::Off => Interrupts::Off,
            Interrupts::Soon | Interrupts::On => Interrupts::On,
        },
    }
}

// HLT halts.
fn is_halt(op: Op) -> bool
    ensures { result ≡ steps.is_halt op }
{
    matches!(op, Op::Hlt)
}

//! A step of the machine, and steps up to a count.
ghost use Rattle.std.specs.Prelude.{◌≡◌, ◌<◌, None, false, IfSome, IfOk, IfErr};
ghost use Rattle.i8080_words.specs.Effects.{after_accesses};
ghost use Rattle.i8080_words.specs.Steps as steps;
ghost use Rattle.i8080_words.specs.declared.refusal.Fault.TheVariants.{OutOfMemory};
ghost use Rattle.guest_board.specs.Guest as guest;
ghost use Rattle.guest_board.specs.Ports.{memory_byte, port_byte, after_access};
ghost use Rattle.plain_single.specs.SingleState.{idle_towards as idle_towards_of, state_of, step_refusal, RefusesStep, after_step};
ghost use Rattle.plain_single.specs.Behind.{behind_of, devices_of, wired_of, after_wired, is_full};

use super::Machine;
use crate::step::{accept, run};
use crate::wires::Wires;
use i8080_words::{Fault, GREATEST_NUMBER, Interrupts, Processor, R};

impl Machine {
    // The level of the request that is accepted next, if any.
    fn level(&self) -> Option<u8>
        ensures value { result ≡ steps.heard self.now.processor.interrupts
            (guest.line_of (devices_of (behind_of self.now.wires)) self.now.levels) }
        ensures range { IfSome result (λ level. level < 8) }
    {
        match self.processor.interrupts {
            Interrupts::On => self.wires.line(self.levels),
            Interrupts::Off | Interrupts::Soon => None,
        }
    }

    /// Executes one step on the way to a count. `Spent` if a number is at its greatest; otherwise, if the processor is
    /// halted and no request is accepted, `Spent` if that count is past the limit and `Idle` if not.
    #[tactic(auto, unfolding(guest_board::specs::Guest::step_of, guest_board::specs::Guest::wired_after))]
    pub(crate) fn step(&mut self, last: u64) -> R<()>
        ensures can { IfOk result (λ _. step_refusal last (state_of self.old) ≡ None) }
        ensures after { IfOk result (λ _. state_of self.new ≡ after_step (state_of self.old)) }
        ensures refused { IfErr result (λ fault. RefusesStep last (state_of self.old) fault) }
    {
        if self.count >= GREATEST_NUMBER || self.wires.is_spent() {
            return Err(Fault::Spent);
        }
        let level = self.level();
        if self.processor.halted && level.is_none() {
            return Err(idle_towards(last));
        }
        make_step(level, &mut self.processor, &mut self.wires)?;
        self.count += 1;
        Ok(())
    }
}

// Why a machine that idles does not reach a count.
fn idle_towards(last: u64) -> Fault
    ensures { result ≡ idle_towards_of last }
{
    if last > GREATEST_NUMBER {
        Fault::Spent
    } else {
        Fault::Idle
    }
}

// Accepts the request of this level, or executes an instruction.
fn make_step(level: Option<u8>, processor: &mut Processor, wires: &mut Wires) -> R<()>
    requires level { IfSome level (λ level. level < 8) }
    requires awake { level ≡ None → processor.old.halted ≡ false }
    requires room { is_full (behind_of wires.old) ≡ false }
    ensures processor { IfOk result (λ _. processor.new
        ≡ (steps.unless_heard level processor.old (memory_byte (wired_of (behind_of wires.old)))
        (port_byte (wired_of (behind_of wires.old)))).after) }
    ensures wires { IfOk result (λ _. behind_of wires.new ≡ after_wired (behind_of wires.old)
        (after_accesses after_access
        (steps.unless_heard level processor.old (memory_byte (wired_of (behind_of wires.old)))
        (port_byte (wired_of (behind_of wires.old)))).accesses
        (wired_of (behind_of wires.old)))) }
    ensures only_memory { IfErr result (λ fault. fault ≡ OutOfMemory) }
{
    match level {
        Some(level) => accept(level, processor, wires),
        None => run(processor, wires)?,
    }
    Ok(())
}

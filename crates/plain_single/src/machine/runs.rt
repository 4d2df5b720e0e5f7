//! The machine at boot, and its run over a list of inputs.
ghost use Rattle.std.specs.Prelude.{◌≡◌, ℕ, ◌≤◌, List, [], ◌∷◌, ◌++◌, IfOk, IfErr};
ghost use Rattle.i8080_words.specs.declared.refusal.Fault.TheVariants.{OutOfMemory};
ghost use Rattle.disk_dcdd.specs.declared.address.SectorAddress.{SectorAddress};
ghost use Rattle.guest_board.specs.Guest.{altair};
ghost use Rattle.guest_board.specs.declared.setup.Setup.{Setup};
ghost use Rattle.i8080_words.specs.Steps.{at_reset};
ghost use Rattle.plain_single.specs.SingleState.{state_of};
ghost use Rattle.plain_single.specs.Behind.{behind_of, behind_at_boot};
ghost use Rattle.plain_single.specs.Image.{IsSector, sector_at, boot_sectors};
ghost use Rattle.plain_single.specs.Reaching.{NeverFall, StandsAt, Fails, FailsBefore};
ghost use Rattle.guest_lockstep.specs.declared.timed.Timed.{Timed};

use super::Machine;
use crate::image::DiskImage;
use crate::wires::Wires;
use disk_dcdd::SectorWrite;
use guest_board::Setup;
use guest_lockstep::Timed;
use i8080_words::{Fault, Interrupts, Processor, R, Regs};
use std::alloc::Global;

impl Machine {
    /// The machine of a setup, at boot.
    pub(crate) fn new(alloc: Global, setup: &Setup, sectors: &[SectorWrite]) -> R<Self>
        ensures processor { IfOk result (λ machine. machine.processor ≡ at_reset) }
        ensures behind { IfOk result (λ machine. behind_of machine.wires ≡ behind_at_boot setup.now) }
        ensures disk { IfOk result (λ machine. (a : SectorAddress) → IsSector a
            → sector_at machine.disk.sectors.items a ≡ boot_sectors sectors.now a) }
        ensures count { IfOk result (λ machine. machine.count ≡ 0) }
        ensures levels { IfOk result (λ machine. machine.levels ≡ setup.now.levels) }
        ensures only_memory { IfErr result (λ fault. fault ≡ OutOfMemory) }
    {
        let disk = DiskImage::new(alloc, sectors)?;
        let wires = Wires::new(alloc, setup)?;
        Ok(Machine {
            processor: Processor {
                regs: Regs::default(),
                interrupts: Interrupts::Off,
                halted: false,
            },
            wires,
            disk,
            count: 0,
            levels: setup.levels,
        })
    }

    /// A copy of the machine.
    pub(crate) fn copy(&self, alloc: Global) -> R<Self>
        ensures ok { IfOk result (λ machine. state_of machine ≡ state_of self.now) }
        ensures only_memory { IfErr result (λ fault. fault ≡ OutOfMemory) }
    {
        let disk = self.disk.copy(alloc)?;
        let wires = self.wires.copy(alloc)?;
        Ok(Machine {
            processor: self.processor,
            wires,
            disk,
            count: self.count,
            levels: self.levels,
        })
    }

    /// Takes each input at its count, and runs to the last count.
    pub(crate) fn follow(&mut self, inputs: &[Timed], last: u64) -> R<()>
        requires rising { NeverFall self.old.count inputs.now }
        requires within { self.old.count ≤ last }
        ensures ok { IfOk result (λ _. (setup : Setup) (sectors : SectorAddress → List ℕ)
            → StandsAt (altair setup sectors) [] (state_of self.old)
            → StandsAt (altair setup sectors) inputs.now (state_of self.new)) }
        ensures count { IfOk result (λ _. self.new.count ≡ last) }
        ensures refused { IfErr result (λ fault. (setup : Setup) (sectors : SectorAddress → List ℕ)
            → StandsAt (altair setup sectors) [] (state_of self.old)
            → Fails (altair setup sectors) inputs.now last fault) }
    {
        for timed in inputs {
            self.follow_one(*timed, last)?;
        }
        self.advance(last, last)
    }

    // Runs to the count of an input, but no further than the last count, and takes it.
    fn follow_one(&mut self, timed: Timed, last: u64) -> R<()>
        requires rising { self.old.count ≤ timed.count }
        requires within { self.old.count ≤ last }
        ensures ok { IfOk result (λ _. (setup : Setup) (sectors : SectorAddress → List ℕ) (before : List Timed)
            → StandsAt (altair setup sectors) before (state_of self.old)
            → StandsAt (altair setup sectors) (before ++ timed ∷ []) (state_of self.new)) }
        ensures count { IfOk result (λ _. self.new.count ≡ timed.count) }
        ensures due { IfOk result (λ _. timed.count ≤ last) }
        ensures refused { IfErr result (λ fault. (setup : Setup) (sectors : SectorAddress → List ℕ)
            (before after : List Timed) → StandsAt (altair setup sectors) before (state_of self.old)
            → Fails (altair setup sectors) (before ++ timed ∷ after) last fault) }
    {
        self.advance(timed.count.min(last), last)?;
        if timed.count > last {
            return Err(Fault::Idle);
        }
        self.take(timed.input)
    }

    // Runs to a count on the way to the last one.
    #[tactic(auto, using(crate::proofs::Standing::refused_step))]
    fn advance(&mut self, target: u64, last: u64) -> R<()>
        ensures ok { IfOk result (λ _. (setup : Setup) (sectors : SectorAddress → List ℕ) (list : List Timed)
            → StandsAt (altair setup sectors) list (state_of self.old)
            → StandsAt (altair setup sectors) list (state_of self.new)) }
        ensures count { IfOk result (λ _. self.old.count ≤ target → self.new.count ≡ target) }
        ensures refused { IfErr result (λ fault. (setup : Setup) (sectors : SectorAddress → List ℕ) (list : List Timed)
            → StandsAt (altair setup sectors) list (state_of self.old)
            → FailsBefore (altair setup sectors) list target last fault) }
    {
        for _ in self.count..target {
            self.step(last)?;
        }
        Ok(())
    }
}

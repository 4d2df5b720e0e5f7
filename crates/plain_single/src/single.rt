//! The single machine: at boot, and after a list of inputs.
ghost use Rattle.std.specs.Prelude.{◌≡◌, ℕ, ◌<◌, IfOk, IfErr, IsOkUnless, List, slice_index};
ghost use Rattle.disk_dcdd.specs.declared.address.SectorAddress.{SectorAddress};
ghost use Rattle.guest_board.specs.Guest.{altair};
ghost use Rattle.guest_lockstep.specs.Machine.{Move};
ghost use Rattle.guest_board.specs.declared.setup.Setup.{Setup};
ghost use Rattle.i8080_words.specs.declared.refusal.Fault.TheVariants.{OutOfMemory};
ghost use Rattle.plain_single.specs.SingleState.{output_of};
ghost use Rattle.plain_single.specs.Executor.{byte_at};
ghost use Rattle.plain_single.specs.Image.{boot_sectors, sector_at};
ghost use Rattle.guest_lockstep.specs.Reach.{Reach};
ghost use Rattle.plain_single.specs.Reaching.{NeverFall, IsAtBoot, RunsTo, Fails};

use crate::machine::Machine;
use disk_dcdd::{SECTOR_BYTES, SectorAddress, SectorWrite};
use guest_board::Setup;
use guest_lockstep::Timed;
use i8080_words::{Processor, R};
use std::alloc::Global;
use std::marker::Model;

/// An Altair by itself, with a disk of its own: its own executor over the opcode table, separate from the board's.
#[derive(Drop)]
pub struct Single {
    machine: Machine,
}

impl Model for Single {
    ghost use Rattle.plain_single.specs.SingleState.{SingleState, state_of};

    ghost Value = { SingleState };

    ghost view = { λ single. state_of single.machine };
}

impl Single {
    /// The machine of a setup at count 0. Of the sectors at boot, the last one that goes to a place counts, and every
    /// other place is zeros; their numbers are ignored. `OutOfMemory` if the allocator refuses.
    #[tactic(auto, using(crate::proofs::Boot::at_boot))]
    pub fn boot(alloc: Global, setup: &Setup, sectors: &[SectorWrite]) -> R<Single>
        ensures ok { IfOk result (λ single. IsAtBoot (altair setup.now (boot_sectors sectors.now)) single) }
        ensures count { IfOk result (λ single. single.count ≡ 0) }
        ensures only_memory { IfErr result (λ fault. fault ≡ OutOfMemory) }
    {
        let machine = Machine::new(alloc, setup, sectors)?;
        Ok(Single { machine })
    }

    /// Runs a machine that is at boot from a list of inputs to a count: each input is taken at its own count.
    ///
    /// `NotDue` and `SectorBusy` if the machine reaches an input that it refuses, which includes a port that does not
    /// exist; otherwise `Spent` if the count is past 2^62 - 1 or a number of the machine is spent before it; otherwise
    /// `Idle` if the machine idles before the count, or an input is past it. `OutOfMemory` if the allocator refuses,
    /// which is the only refusal if the trace of the inputs reaches the count.
    pub fn run(&self, alloc: Global, inputs: &[Timed], count: u64) -> R<Single>
        requires boot { self.now.count ≡ 0 }
        requires rising { NeverFall 0 inputs.now }
        ensures ok { IfOk result (λ single. (setup : Setup) (sectors : SectorAddress → List ℕ)
            → IsAtBoot (altair setup sectors) self.now
            → RunsTo (altair setup sectors) inputs.now count single) }
        ensures refused { IfErr result (λ fault. (setup : Setup) (sectors : SectorAddress → List ℕ)
            → IsAtBoot (altair setup sectors) self.now
            → Fails (altair setup sectors) inputs.now count fault) }
        ensures reaches { (setup : Setup) (sectors : SectorAddress → List ℕ) (moves : List Move)
            → IsAtBoot (altair setup sectors) self.now → Reach (altair setup sectors) inputs.now count moves
            → IsOkUnless result OutOfMemory }
    {
        let mut machine = self.machine.copy(alloc)?;
        machine.follow(inputs, count)?;
        Ok(Single { machine })
    }

    /// The bytes that the machine has sent to the terminal of a port, 0 or 1.
    pub fn outputs(&self, port: u8) -> &[u8]
        requires { port < 2 }
        ensures { result.now ≡ output_of self.now port }
    {
        match port {
            0 => &self.machine.wires.first.output,
            _ => &self.machine.wires.second.output,
        }
    }

    /// The sector writes that the machine has issued, in order of number.
    pub fn writes(&self) -> &[SectorWrite]
        ensures { result.now ≡ self.now.behind.writes }
    {
        &self.machine.wires.drives.writes
    }

    /// What the machine's disk has in a sector: the bytes of the last write of it that is done, or those at boot. Zeros
    /// if no drive has such a sector.
    pub fn image(&self, address: SectorAddress) -> [u8; SECTOR_BYTES]
        ensures { result ≡ sector_at self.now.disk address }
    {
        self.machine.disk.get(address)
    }

    /// How many steps the machine has executed.
    pub fn count(&self) -> u64
        ensures { result ≡ self.now.count }
    {
        self.machine.count
    }

    /// The processor.
    pub fn processor(&self) -> &Processor
        ensures { result.now ≡ self.now.processor }
    {
        &self.machine.processor
    }

    /// The byte at an address of memory.
    pub fn byte(&self, address: u16) -> u8
        ensures { result ≡ byte_at self.now.behind.memory address }
    {
        self.machine.wires.memory.read(address)
    }
}

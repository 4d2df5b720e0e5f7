//! What the layers of a pair require of a guest, so that they are proved for any guest.
ghost use Rattle.std.specs.Prelude.{◌≡◌, ◌<◌, ◌≤◌, ℕ, Bool, IfSome, OnErr, OnOk, option_copied};
ghost use Rattle.guest_lockstep.specs.Machine.{Machine, refusal_of};
ghost use Rattle.guest_lockstep.specs.Outstanding.{ComesAndGoes};
ghost use Rattle.guest_lockstep.specs.Recorded.{Counts};
ghost use Rattle.guest_lockstep.specs.Running.{Quiet};
ghost use Rattle.guest_lockstep.specs.Pages.{stale_after};
ghost use Rattle.guest_lockstep.specs.Lockstep.{Executes, Takes, IsInput, IsNumbered, HasRoom};
ghost use Rattle.disk_dcdd.specs.Completion.{answered};
ghost use Rattle.disk_dcdd.specs.declared.controller.TheConstants.{DRIVES};
ghost use Rattle.i8080_words.specs.declared.limits.TheConstants.{GREATEST_NUMBER};
ghost use Rattle.event_callbacks.specs.Operations.{id_of};
ghost use Rattle.event_callbacks.specs.declared.devices.TheConstants.{PORTS};

use crate::input::Input;
use disk_dcdd::SectorAddress;
use event_callbacks::{OpId, Operation};
use i8080_words::R;

/// A guest that can be run in lockstep with another: its state is a pure function of its inputs and their counts.
pub trait Lockstep: Sized {
    // The part of the guest that its further course depends on: its stored closures are left out.
    ghost State: { Type 0 };

    ghost state: { Self → State };

    // How it moves. Nothing here depends on where this machine boots.
    ghost machine: { Machine State };

    // Which pages of its memory the next step writes, by their numbers.
    ghost writes: { State → ℕ → Bool };

    // Which pages are to be copied for its image: every page, but those that a draft of the image has as they are now.
    ghost stale: { Self → ℕ → Bool };

    /// Executes one step, and returns the name of its operation. `Spent` if a number is at its greatest, `Idle` if the
    /// guest waits for an interrupt, `OutOfMemory` if an operation could not be kept; each changes nothing.
    fn step(&mut self) -> R<Option<OpId>>
        ensures answer { Executes machine (state self.old) result (state self.new) }
        ensures pages { OnOk result (stale self.new ≡ stale_after machine writes (stale self.old) (state self.old) 1) }
        ensures unchanged { OnErr result (self.new ≡ self.old) };

    /// Whether an input would be taken now: what `take` would return. No input with a write number past the greatest
    /// would be taken.
    fn check(&self, input: &Input) -> R<()>
        requires { IsInput input.now }
        ensures answer { result ≡ answered (refusal_of machine (state self.now) input.now) }
        ensures numbers { OnOk result (IsNumbered input.now) };

    /// Takes an input. `NotDue`, `SectorBusy` and `StaleRead` change nothing.
    fn take(&mut self, input: Input) -> R<()>
        requires input { IsInput input }
        requires room { HasRoom machine (state self.old) input }
        ensures answer { Takes machine (state self.old) input result (state self.new) }
        ensures pages { stale self.new ≡ stale self.old }
        ensures unchanged { OnErr result (self.new ≡ self.old) };

    /// How many steps were executed.
    fn count(&self) -> u64
        ensures value { result ≡ machine.count (state self.now) }
        ensures within { result ≤ GREATEST_NUMBER };

    /// How many keys of a port were taken.
    fn keys(&self, port: u8) -> u64
        requires { port < PORTS }
        ensures { result ≡ machine.keys (state self.now) port };

    /// The number of the next byte of a port to be accepted, if one was sent and not accepted.
    fn due_byte(&self, port: u8) -> Option<u64>
        requires { port < PORTS }
        ensures { result ≡ machine.due_byte (state self.now) port };

    /// The outstanding operation of this name.
    fn outstanding(&self, id: OpId) -> Option<&Operation>
        ensures value { option_copied result ≡ machine.find (state self.now) id }
        ensures name { IfSome (option_copied result) (λ op. id_of op ≡ id) };

    /// The selected drive.
    fn selected(&self) -> Option<u8>
        ensures value { result ≡ machine.selected (state self.now) }
        ensures within { IfSome result (λ drive. drive < DRIVES) };

    /// The sector of this number on the track that the head of a drive is at.
    fn sector_under(&self, drive: u8, sector: u8) -> SectorAddress
        requires { drive < DRIVES }
        ensures { result ≡ machine.address (state self.now) drive sector };

    /// Executes at most `turns` steps that give no operation, as many as it can in one go. Returns how many it
    /// executed; if none, nothing changes.
    fn step_quietly(&mut self, turns: u64) -> u64
        ensures few { result ≤ turns }
        ensures steps { Quiet machine (state self.old) result (state self.new) }
        ensures pages { stale self.new ≡ stale_after machine writes (stale self.old) (state self.old) result }
        ensures unchanged { result ≡ 0 → self.new ≡ self.old };

    /// A law: the machine counts its steps.
    ghost counts: { Counts machine };

    /// A law: how its outstanding operations come and go.
    ghost operations: { ComesAndGoes machine };
}

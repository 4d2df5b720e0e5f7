//! How a primary's guest moves.
ghost use Rattle.std.specs.Prelude.{◌≡◌, ◌≢◌, ◌<◌, ◌↔◌, ◌⊎◌, [], None, Some, true, false, is_none, is_some, Contains, OnOk};
ghost use Rattle.event_callbacks.specs.declared.devices.TheConstants.{PORTS};
ghost use Rattle.event_callbacks.specs.declared.operations.OpId.{OpId};
ghost use Rattle.event_callbacks.specs.declared.operations.OpId.TheVariants as id;
ghost use Rattle.event_callbacks.specs.declared.operations.Operation.TheVariants.{Byte};
ghost use Rattle.guest_lockstep.specs.Lockstep.{HasRoom, IsInput, step_refusal};
ghost use Rattle.guest_lockstep.specs.Machine.{refusal_of};
ghost use Rattle.guest_lockstep.specs.Outstanding.{completed_by};
ghost use Rattle.guest_lockstep.specs.declared.input.Input.TheVariants as input;
ghost use Rattle.pair_rule.specs.declared.payload.DiskAnswer.TheVariants.{Read, Written};
ghost use Rattle.log_entry.specs.Entries.{entry_of};
ghost use Rattle.guest_lockstep.specs.declared.reads.Reads.TheVariants.{Logged};
ghost use Rattle.shared_disk.specs.Arrivals.{read_address};
ghost use Rattle.pair_threads.specs.Choosing.{byte_at, is_sector, no_sector_waits};
ghost use Rattle.pair_threads.specs.Leading.{HeardOn, LeadsOn, TakesOn};
ghost use Rattle.pair_threads.specs.Patience.{guest_is_held_up};
ghost use Rattle.pair_threads.specs.Turns.{RunsFor};
ghost use Rattle.i8080_words.specs.declared.refusal.Fault.TheVariants.{OutOfMemory};
ghost use Rattle.std.specs.Prelude.{IfErr, IfSome};

use super::Recording;
use disk_dcdd::{DRIVES, SECTORS, SectorAddress};
use event_callbacks::{OpId, Operation};
use guest_lockstep::{Input, Lockstep, Reads, StopReason, Stopped, run};
use i8080_words::{Fault, GREATEST_NUMBER, R};
use log_entry::Entry;
use shared_disk::SectorRead;
use std::alloc::Global;

impl<B: Lockstep> Recording<B> {
    /// A guest at boot, with nothing outstanding.
    pub(crate) fn new(alloc: Global, board: B) -> Recording<B>
        ensures board { result.board ≡ board }
        ensures blank { (result.waiting ≡ None) × (result.given.items ≡ []) × (result.idle ≡ false) }
    {
        Recording {
            board,
            waiting: None,
            given: Vec::new(alloc),
            idle: false,
        }
    }

    /// Executes at most `steps` steps, up to the first that gives an operation, whose mark then waits. Returns whether it
    /// has made any. `OutOfMemory`, and `Spent` if a number is at its greatest.
    #[tactic(auto, using(crate::proofs::Leading::made_all, crate::proofs::Leading::stopped_there, crate::proofs::Leading::gave_one, crate::proofs::Leading::idles_there, crate::proofs::Leading::refused_there, crate::proofs::Telling::says_mark))]
    pub(crate) fn run(&mut self, steps: u64) -> R<bool>
        requires free { self.old.waiting ≡ None }
        ensures onward { OnOk result (LeadsOn B.state B.machine self.old self.new) }
        ensures steps { OnOk result (RunsFor B.machine (B.state self.old.board) steps (B.state self.new.board)) }
        ensures plain { no_sector_waits self.new.waiting ≡ true }
        ensures refused { IfErr result (λ fault. (fault ≡ OutOfMemory)
            ⊎ (step_refusal B.machine (B.state self.new.board) ≡ Some fault)) }
    {
        self.given.reserve(1)?;
        self.idle = false;
        let Stopped { steps, reason } = run(&mut self.board, steps);
        match reason {
            StopReason::Turns => Ok(true),
            StopReason::Operation(id) => {
                self.given.push_reserved(id);
                self.waiting = Some(Entry::Mark {
                    count: self.board.count(),
                });
                Ok(true)
            }
            StopReason::Refused(Fault::OutOfMemory) => Err(Fault::OutOfMemory),
            StopReason::Refused(Fault::Idle) => {
                self.idle = true;
                Ok(steps > 0)
            }
            StopReason::Refused(fault) => Err(fault),
        }
    }

    // Takes an input, whose entry then waits; returns whether it did.
    fn offer(&mut self, input: Input) -> bool
        requires free { self.old.waiting ≡ None }
        requires input { IsInput input }
        requires room { HasRoom B.machine (B.state self.old.board) input }
        ensures refused { result ≡ false → self.new ≡ self.old }
        ensures onward { result ≡ true → TakesOn B.state B.machine input self.old self.new }
        ensures waits { result ≡ true
            → self.new.waiting ≡ Some (entry_of Logged (B.machine.count (B.state self.old.board)) input) }
        ensures plain { is_sector (entry_of Logged (B.machine.count (B.state self.old.board)) input) ≡ false
            → no_sector_waits self.new.waiting ≡ true }
        ensures taken { result ≡ is_none (refusal_of B.machine (B.state self.old.board) input) }
        ensures gone { result ≡ true → (id : OpId) → completed_by B.machine (B.state self.old.board) input ≡ Some id
            → B.machine.find (B.state self.new.board) id ≡ None }
    {
        let entry = Entry::of_input(Reads::Logged, self.board.count(), input);
        match self.board.take(input) {
            Ok(()) => {
                self.waiting = Some(entry);
                self.idle = false;
                true
            }
            Err(_) => false,
        }
    }

    // An operation is no longer outstanding.
    #[tactic(auto, using(crate::proofs::Offering::forgets))]
    fn forget(&mut self, id: OpId)
        requires gone { B.machine.find (B.state self.old.board) id ≡ None }
        ensures onward { LeadsOn B.state B.machine self.old self.new }
        ensures waiting { self.new.waiting ≡ self.old.waiting }
    {
        drop_name(&mut self.given, id);
    }

    /// Takes a key, if one more can be counted; returns whether it did.
    pub(crate) fn key(&mut self, port: u8, byte: u8) -> bool
        requires free { self.old.waiting ≡ None }
        requires port { port < PORTS }
        ensures refused { result ≡ false → self.new ≡ self.old }
        ensures onward { result ≡ true → TakesOn B.state B.machine (input.Rx port byte) self.old self.new }
        ensures plain { no_sector_waits self.new.waiting ≡ true }
    {
        self.board.keys(port) < GREATEST_NUMBER && self.offer(Input::Rx(port, byte))
    }

    /// Takes the acceptance of the byte of a port that is due; returns whether it did.
    pub(crate) fn sent(&mut self, port: u8) -> bool
        requires free { self.old.waiting ≡ None }
        requires port { port < PORTS }
        ensures refused { result ≡ false → self.new ≡ self.old }
        ensures taken { result ≡ is_some (B.machine.due_byte (B.state self.old.board) port) }
        ensures onward { result ≡ true → TakesOn B.state B.machine (input.Sent port) self.old self.new }
        ensures plain { no_sector_waits self.new.waiting ≡ true }
    {
        let Some(number) = self.board.due_byte(port) else {
            return false;
        };
        if !self.offer(Input::Sent(port)) {
            return false;
        }
        self.forget(OpId::Byte(port, number));
        true
    }

    /// Takes the completion of a write; returns whether it did.
    pub(crate) fn written(&mut self, number: u64) -> bool
        requires free { self.old.waiting ≡ None }
        ensures refused { result ≡ false → self.new ≡ self.old }
        ensures onward { result ≡ true → HeardOn B.state B.machine (Written number) self.old self.new }
        ensures plain { no_sector_waits self.new.waiting ≡ true }
    {
        if !self.offer(Input::Written(number)) {
            return false;
        }
        self.forget(OpId::Write(number));
        true
    }

    /// Takes a sector that was read, if it is still under the head; returns whether it did.
    pub(crate) fn sector(&mut self, read: &SectorRead) -> bool
        requires free { self.old.waiting ≡ None }
        ensures refused { result ≡ false → self.new ≡ self.old }
        ensures onward { result ≡ true → HeardOn B.state B.machine (Read read.now) self.old self.new }
        ensures waits { result ≡ true → self.new.waiting ≡ Some (entry_of Logged (B.machine.count (B.state self.old.board))
            (input.Sector read.now.drive read.now.sector read.now.number read.now.bytes)) }
    {
        if usize::from(read.drive) >= DRIVES || read.sector >= SECTORS {
            return false;
        }
        let under = self.board.sector_under(read.drive, read.sector);
        if !is_at(read, under) {
            return false;
        }
        self.offer(Input::Sector {
            drive: read.drive,
            sector: read.sector,
            number: read.number,
            bytes: read.bytes,
        })
    }

    /// Whether it waits for others: it idles, or an operation that it gave is outstanding.
    pub(crate) fn is_held_up(&self) -> bool
        ensures { result ≡ guest_is_held_up self.now }
    {
        self.idle || !self.given.is_empty()
    }

    /// The byte of this number that was given at a port, if it is outstanding.
    pub(crate) fn byte(&self, port: u8, number: u64) -> Option<u8>
        requires { port < PORTS }
        ensures there { IfSome result (λ byte. B.machine.find (B.state self.now.board) (id.Byte port number) ≡ Some (Byte port number byte)) }
        ensures is { result ≡ byte_at B.machine (B.state self.now.board) port number }
    {
        match self.board.outstanding(OpId::Byte(port, number)) {
            Some(Operation::Byte { byte, .. }) => Some(*byte),
            _ => None,
        }
    }
}

// Whether a sector was read at this address.
fn is_at(read: &SectorRead, address: SectorAddress) -> bool
    ensures { result ≡ true ↔ address ≡ read_address read.now }
{
    address.drive == read.drive && address.track == read.track && address.sector == read.sector
}

// Takes a name out of a list, and no other.
fn drop_name(names: &mut Vec<OpId>, id: OpId)
    ensures { (name : OpId) → name ≢ id → Contains names.old.items name → Contains names.new.items name }
{
    names.retain(|other| *other != id);
}

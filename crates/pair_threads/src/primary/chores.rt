//! The chores of a primary's worker at its guest, the link and the terminals.
ghost use Rattle.std.specs.Prelude.{◌≡◌, ◌⊎◌, ◌≢◌, ◌+◌, ◌<◌, ◌≤◌, ◌↔◌, ◌&&◌, ◌==◌, cond, ◌||◌, false, true, nat_lt, if◌then◌else◌, is_some, IfErr, IfSome, IsSome, IsTrue, None, OnOk, Some, length, slice_get};
ghost use Rattle.event_callbacks.specs.declared.devices.TheConstants.{PORTS};
ghost use Rattle.event_callbacks.specs.declared.operations.OpId.TheVariants as id;
ghost use Rattle.event_callbacks.specs.declared.operations.Operation.TheVariants.{Byte};
ghost use Rattle.guest_lockstep.specs.Lockstep.{step_refusal};
ghost use Rattle.i8080_words.specs.declared.refusal.Fault.TheVariants.{OutOfMemory, Stalled};
ghost use Rattle.log_entry.specs.declared.entry.Entry.{Entry};
ghost use Rattle.pair_rule.specs.declared.mailbox.Mailbox.TheVariants.{Outbox};
ghost use Rattle.pair_rule.specs.declared.payload.Payload.TheVariants.{Log};
ghost use Rattle.pair_rule.specs.Seats.{Fills, HasSwapsLeft};
ghost use Rattle.pair_threads.specs.Choosing.{accepted_of, at_other, counted_of, due_byte, in_flight, may_accept, may_emit, post_next, steps_by, to_emit};
ghost use Rattle.pair_threads.specs.Patience.{guest_is_held_up};
ghost use Rattle.pair_threads.specs.Ending.{IsEnding};
ghost use Rattle.pair_threads.specs.Primary.{Emits, HasTakenKeys, IsAtRest, Works};
ghost use Rattle.pair_threads.specs.Turns.{RunsFor};

use super::{KEY_STEPS, PrimaryWorker};
use crate::port_inputs::PortInputs;
use guest_lockstep::Lockstep;
use i8080_words::{Fault, R};
use pair_rule::Fabric;

/// How many steps a guest makes at most in a turn while one of its operations is outstanding; while several are, each has a
/// share of them. So its bytes leave soon, and a guest that waits for its window does not wait for its own turns.
const SHORT_STEPS: u64 = 2_000;

impl<B: Lockstep> PrimaryWorker<B> {
    // Posts the next entry that is not acknowledged, and after the last one the first again. Returns whether it was posted
    // for the first time.
    pub(super) fn post(&mut self, fabric: &Fabric) -> bool
        requires table { self.old.seat.table ≡ fabric.now }
        requires before { self.old.seat.core.known.primary.winner ≡ 0 }
        requires swaps { HasSwapsLeft self.old.seat.core }
        ensures works { Works B.state B.machine self.old self.new }
        ensures next { let first = post_next self.old.next self.old.seen (length self.old.list.items) in
            self.new.next ≡ (if nat_lt first (length self.old.list.items) then first + 1 else first) }
        ensures first { IsTrue result ↔ (self.new.posted ≢ self.old.posted) }
    {
        let index = self.to_post();
        if index >= self.list.len() as u64 {
            self.next = index;
            return false;
        }
        self.send(fabric, index);
        self.next = index + 1;
        let is_new = self.next > self.posted;
        self.posted = self.posted.max(self.next);
        is_new
    }

    // The index of the entry to post, if there is one there.
    fn to_post(&self) -> u64
        ensures is { result ≡ post_next self.now.next self.now.seen (length self.now.list.items) }
        ensures from { self.now.seen ≤ result }
    {
        if self.next < self.seen || self.next >= self.list.len() as u64 {
            self.seen
        } else {
            self.next
        }
    }

    // Posts the entry of this index.
    fn send(&mut self, fabric: &Fabric, index: u64)
        requires table { self.old.seat.table ≡ fabric.now }
        requires before { self.old.seat.core.known.primary.winner ≡ 0 }
        requires swaps { HasSwapsLeft self.old.seat.core }
        requires there { (self.old.seen ≤ index) × (index < length self.old.list.items) }
        ensures works { Works B.state B.machine self.old self.new }
        ensures same { (self.new.next ≡ self.old.next) × (self.new.seen ≡ self.old.seen) × (self.new.posted ≡ self.old.posted)
            × (self.new.list ≡ self.old.list) }
        ensures posted { (e : Entry) × (slice_get self.old.list.items index ≡ Some e)
            × Fills Outbox (Log (record { generation = self.old.seat.core.known.generation; index = index; entry = e }))
            self.old.seat.core self.new.seat.core }
    {
        let entry = self.list[index as usize];
        self.seat.post(fabric, index, &entry);
    }

    // Sees how many entries are acknowledged.
    pub(super) fn see(&mut self, fabric: &Fabric) -> bool
        requires table { self.old.seat.table ≡ fabric.now }
        requires before { self.old.seat.core.known.primary.winner ≡ 0 }
        ensures works { Works B.state B.machine self.old self.new }
        ensures room { self.new.full ≡ false }
        ensures changed { IsTrue result ↔ (self.new.seen ≢ self.old.seen) }
    {
        let before = self.seen;
        self.seen = self.seat.see(fabric);
        self.full = false;
        self.seen != before
    }

    // Lets the guest run, unless one of its entries waits. While several of its operations are outstanding it may do nothing but
    // poll, so only a new one is a change then.
    pub(super) fn run(&mut self) -> R<bool>
        ensures works { OnOk result (Works B.state B.machine self.old self.new) }
        ensures seat { self.new.seat ≡ self.old.seat }
        ensures steps { OnOk result ((self.old.guest.waiting ≢ None)
            ⊎ RunsFor B.machine (B.state self.old.guest.board) (steps_by self.old.plan.steps (in_flight self.old))
            (B.state self.new.guest.board)) }
        ensures refused { IfErr result (λ fault. (fault ≡ OutOfMemory)
            ⊎ ((fault ≡ Stalled) × IsSome (step_refusal B.machine (B.state self.new.guest.board)))) }
        ensures polls { result ≡ Ok true → (length self.new.guest.given.items ≤ 1) ⊎ (self.new.guest.waiting ≢ None) }
        ensures held_up { OnOk result (self.new.held_up
            ≡ (if is_some self.old.guest.waiting then self.old.held_up else guest_is_held_up self.new.guest)) }
    {
        if self.guest.waiting.is_some() {
            return Ok(false);
        }
        let steps = self.steps();
        match self.guest.run(steps) {
            Ok(moved) => {
                if !moved {
                    self.key_count = 0;
                }
                self.held_up = self.guest.is_held_up();
                Ok(self.is_change(moved))
            }
            Err(Fault::OutOfMemory) => Err(Fault::OutOfMemory),
            Err(_) => Err(Fault::Stalled),
        }
    }

    // Whether a run in which the guest moved, or did not, is a change: it has given a new operation, or at most one is
    // outstanding.
    fn is_change(&self, moved: bool) -> bool
        ensures { IsTrue result → (length self.now.guest.given.items ≤ 1) ⊎ (self.now.guest.waiting ≢ None) }
    {
        moved && (self.guest.given.len() <= 1 || self.guest.waiting.is_some())
    }

    // How many steps the guest may make in this turn: the fewer, the more of what it gave or asked is in flight.
    fn steps(&self) -> u64
        ensures { result ≡ steps_by self.now.plan.steps (in_flight self.now) }
    {
        let asked = self.asked || self.answer.is_some();
        let in_flight = self.guest.given.len() as u64 + u64::from(asked);
        match SHORT_STEPS.checked_div(in_flight) {
            Some(share) => share.min(self.plan.steps),
            None => self.plan.steps,
        }
    }

    // Takes a key, if the guest has had time for the one before.
    pub(super) fn take_key(&mut self, port: u8) -> bool
        requires port { port < PORTS }
        ensures works { Works B.state B.machine self.old self.new }
        ensures taken { HasTakenKeys port self.old self.new (cond result 1 0) }
        ensures time { result ≡ true → self.old.key_count ≤ B.machine.count (B.state self.old.guest.board) }
        ensures next { result ≡ true
            → self.new.key_count ≡ B.machine.count (B.state self.old.guest.board) + 300 }
    {
        if !self.has_had_time() {
            return false;
        }
        if !self.may_take_new() {
            return false;
        }
        let count = self.guest.board.count();
        let moved = self.next_key(port);
        if moved {
            self.key_count = count.saturating_add(KEY_STEPS);
        }
        moved
    }

    // Whether the guest has had time for the key before.
    fn has_had_time(&self) -> bool
        ensures { IsTrue result ↔ (self.now.key_count ≤ B.machine.count (B.state self.now.guest.board)) }
    {
        self.guest.board.count() >= self.key_count
    }

    // Takes the next key of a port.
    fn next_key(&mut self, port: u8) -> bool
        requires free { self.old.guest.waiting ≡ None }
        requires port { port < PORTS }
        ensures works { Works B.state B.machine self.old self.new }
        ensures taken { HasTakenKeys port self.old self.new (cond result 1 0) }
    {
        let Some(byte) = self.inputs(port).next() else {
            return false;
        };
        if !self.guest.key(port, byte) {
            return false;
        }
        if port == 0 {
            self.port0.taken += 1;
        } else {
            self.port1.taken += 1;
        }
        true
    }

    // What its guest has taken of what arrived at a port.
    fn inputs(&self, port: u8) -> &PortInputs
        ensures { result.now ≡ (if port == 0 then self.now.port0 else self.now.port1) }
    {
        if port == 0 { &self.port0 } else { &self.port1 }
    }

    // Gives the next byte of a port to its terminal, if all is acknowledged. Returns whether it was given for the first time.
    pub(super) fn emit(&mut self, fabric: &Fabric, port: u8) -> bool
        requires table { self.old.seat.table ≡ fabric.now }
        requires before { self.old.seat.core.known.primary.winner ≡ 0 }
        requires swaps { HasSwapsLeft self.old.seat.core }
        requires port { port < PORTS }
        ensures works { Works B.state B.machine self.old self.new }
        ensures given { Emits (to_emit B.machine (B.state self.old.guest.board) port self.old) port self.old self.new result }
    {
        match self.due_byte(port) {
            Some((number, byte)) if self.is_covered() => self.give(fabric, port, number, byte),
            _ => false,
        }
    }

    // The first byte of a port that its terminal has not accepted, as last seen, if the guest has given it.
    fn due_byte(&self, port: u8) -> Option<(u64, u8)>
        requires { port < PORTS }
        ensures there { IfSome result (λ b. B.machine.find (B.state self.now.guest.board) (id.Byte port b.0) ≡ Some (Byte port b.0 b.1)) }
        ensures is { result ≡ due_byte B.machine (B.state self.now.guest.board) port (counted_of port self.now) }
    {
        let number = self.counted(port).checked_add(1)?;
        let byte = self.guest.byte(port, number)?;
        Some((number, byte))
    }

    // Gives an outstanding byte to its terminal. Returns whether it was given for the first time.
    fn give(&mut self, fabric: &Fabric, port: u8, number: u64, byte: u8) -> bool
        requires table { self.old.seat.table ≡ fabric.now }
        requires before { self.old.seat.core.known.primary.winner ≡ 0 }
        requires swaps { HasSwapsLeft self.old.seat.core }
        requires port { port < PORTS }
        requires due { B.machine.find (B.state self.old.guest.board) (id.Byte port number) ≡ Some (Byte port number byte) }
        requires covered { (self.old.guest.waiting ≡ None) × (self.old.seen ≡ length self.old.list.items) }
        ensures works { Works B.state B.machine self.old self.new }
        ensures given { Emits (Some (number, byte)) port self.old self.new result }
    {
        let (is_new, emitted0, emitted1) = self.emitted_with(port, number);
        self.seat.emit(fabric, port, number, byte);
        self.emitted0 = emitted0;
        self.emitted1 = emitted1;
        is_new
    }

    // Whether the byte of this number is new at a port, and which byte of each port is then the last one given.
    fn emitted_with(&self, port: u8, number: u64) -> (bool, u64, u64)
        ensures { result ≡ (if port == 0 then (nat_lt self.now.emitted0 number, number, self.now.emitted1)
            else (nat_lt self.now.emitted1 number, self.now.emitted0, number)) }
    {
        if port == 0 {
            (self.emitted0 < number, number, self.emitted1)
        } else {
            (self.emitted1 < number, self.emitted0, number)
        }
    }

    // How many bytes of a port are accepted, as last seen.
    fn counted(&self, port: u8) -> u64
        ensures { result ≡ counted_of port self.now }
    {
        if port == 0 {
            self.counted0
        } else {
            self.counted1
        }
    }

    // Sees how many bytes of a port are accepted, if one is out.
    pub(super) fn count(&mut self, fabric: &Fabric, port: u8) -> bool
        requires table { self.old.seat.table ≡ fabric.now }
        requires before { self.old.seat.core.known.primary.winner ≡ 0 }
        requires port { port < PORTS }
        ensures works { Works B.state B.machine self.old self.new }
        ensures changed { IsTrue result ↔ (counted_of port self.new ≢ counted_of port self.old) }
        ensures other { at_other port self.new ≡ at_other port self.old }
    {
        if self.guest.board.due_byte(port).is_none() {
            return false;
        }
        let before = self.counted(port);
        let counted = self.seat.counted(fabric, port);
        let has_changed = counted != before;
        if port == 0 {
            self.counted0 = counted;
        } else {
            self.counted1 = counted;
        }
        has_changed
    }

    // Takes the acceptance of the oldest byte of a port, if it was accepted. While more bytes may be given, it waits: its
    // entry would have to be acknowledged before the next of them.
    pub(super) fn accept(&mut self, port: u8) -> bool
        requires port { port < PORTS }
        ensures works { Works B.state B.machine self.old self.new }
        ensures taken { result ≡ may_accept B.machine (B.state self.old.guest.board) port self.old }
        ensures told { accepted_of port self.new ≡ accepted_of port self.old + cond result 1 0 }
        ensures other { at_other port self.new ≡ at_other port self.old }
    {
        if self.guest.waiting.is_some() {
            return false;
        }
        if self.may_emit(port) {
            return false;
        }
        self.take_acceptance(port)
    }

    // Whether a byte of a port may be given.
    fn may_emit(&self, port: u8) -> bool
        requires { port < PORTS }
        ensures { result ≡ may_emit B.machine (B.state self.now.guest.board) port self.now }
    {
        self.is_covered() && self.due_byte(port).is_some()
    }

    // Takes an acceptance at a port, if its terminal has accepted more bytes than the guest was told.
    fn take_acceptance(&mut self, port: u8) -> bool
        requires port { port < PORTS }
        requires free { self.old.guest.waiting ≡ None }
        ensures works { Works B.state B.machine self.old self.new }
        ensures taken { result ≡ (nat_lt (accepted_of port self.old) (counted_of port self.old)
            && is_some (B.machine.due_byte (B.state self.old.guest.board) port)) }
        ensures told { accepted_of port self.new ≡ accepted_of port self.old + cond result 1 0 }
        ensures other { at_other port self.new ≡ at_other port self.old }
    {
        if self.inputs(port).accepted >= self.counted(port) {
            return false;
        }
        if !self.guest.sent(port) {
            return false;
        }
        if port == 0 {
            self.port0.accepted += 1;
        } else {
            self.port1.accepted += 1;
        }
        true
    }

    // Whether a run in which nobody is planned to go on alone is at its end.
    pub(super) fn is_at_its_end(&self) -> bool
        ensures { IsTrue result ↔ ((self.now.plan.contested ≡ false) × IsAtRest B.state B.machine self.now) }
    {
        !self.plan.contested && self.is_at_rest()
    }

    // Whether the guest idles with all keys taken, nothing is outstanding, in flight or due, and all is acknowledged.
    fn is_at_rest(&self) -> bool
        ensures { IsTrue result ↔ IsAtRest B.state B.machine self.now }
    {
        self.guest.given.is_empty()
            && self.is_covered()
            && !self.asked
            && self.answer.is_none()
            && self.port0.is_taken()
            && self.port1.is_taken()
            && self.guest.idle
            && self.no_sector_is_due()
    }
}

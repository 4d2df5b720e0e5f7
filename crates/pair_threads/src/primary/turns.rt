//! The turns of a primary's worker: it appends the entry that waits, and otherwise does its chores in rotation.
ghost use Rattle.std.specs.Prelude.{◌≡◌, ◌+◌, ◌<◌, ◌⊎◌, ◌↔◌, false, [], length, None, Some, IfErr, IfOk, IfSome, IsTrue, OnOk};
ghost use Rattle.event_callbacks.specs.declared.devices.TheConstants.{PORTS};
ghost use Rattle.event_callbacks.specs.declared.operations.OpId.{OpId};
ghost use Rattle.pair_rule.specs.Seats.{HasSwapsLeft};
ghost use Rattle.pair_threads.specs.Choosing.{fruitless_after, is_covered, to_append, turn_after};
ghost use Rattle.pair_threads.specs.Ending.{IsEnding};
ghost use Rattle.pair_threads.specs.Primary.{Does, HasAppended, HasDone, IsAtRest, WorkerKeeps, WorkerLeads, Works, has_work_at_1, second_after};
ghost use Rattle.pair_threads.specs.Screens.{port_of};
ghost use Rattle.pair_threads.specs.Turns.{Leaves};

use super::PrimaryWorker;
use crate::chore::{Chore, ROTATION};
use crate::plan::Briefing;
use crate::port_inputs::PortInputs;
use crate::recording::Recording;
use crate::signals::Told;
use crate::worker::{Turn, Worker};
use guest_lockstep::Lockstep;
use i8080_words::{Fault, R};
use log_entry::Entry;
use pair_rule::{Fabric, PrimarySeat};
use std::alloc::Global;

impl<B: Lockstep> PrimaryWorker<B> {
    pub(crate) fn new(
        alloc: Global,
        seat: PrimarySeat,
        board: B,
        ports: (PortInputs, PortInputs),
        plan: Briefing,
    ) -> PrimaryWorker<B>
        requires list { seat.core.known.primary.list ≡ [] }
        requires blank { (seat.core.known.primary.seen ≡ 0) × (seat.core.known.primary.released ≡ [])
            × (seat.core.known.primary.calls ≡ []) × (seat.core.known.primary.asked ≡ 0) }
        requires uncounted { (seat.core.known.primary.counted0 ≡ 0) × (seat.core.known.primary.counted1 ≡ 0) }
        requires none { (name : OpId) → B.machine.find (B.state board) name ≡ None }
        requires untaken { (ports.0.taken ≡ 0) × (ports.1.taken ≡ 0) × (ports.0.accepted ≡ 0) × (ports.1.accepted ≡ 0) }
        ensures seat { result.seat ≡ seat }
        ensures board { result.guest.board ≡ board }
        ensures plan { (result.plan ≡ plan) × (result.port0 ≡ ports.0) × (result.port1 ≡ ports.1) }
        ensures first { result.second ≡ false }
        ensures leads { WorkerLeads B.state B.machine (B.state board) result }
        ensures keeps { WorkerKeeps B.machine (B.state board) result }
    {
        let (port0, port1) = ports;
        PrimaryWorker {
            seat,
            list: Vec::new(alloc),
            guest: Recording::new(alloc, board),
            port0,
            port1,
            seen: 0,
            counted0: 0,
            counted1: 0,
            next: 0,
            full: false,
            posted: 0,
            emitted0: 0,
            emitted1: 0,
            asked: false,
            answer: None,
            sector: 0,
            key_count: 0,
            chore: Chore::Post,
            second: false,
            fruitless: 0,
            held_up: false,
            plan,
        }
    }

    // Appends the entry that waits, unless the log is full.
    pub(super) fn append(&mut self, fabric: &Fabric, entry: Entry) -> R<Turn>
        requires table { self.old.seat.table ≡ fabric.now }
        requires before { self.old.seat.core.known.primary.winner ≡ 0 }
        requires waits { self.old.guest.waiting ≡ Some entry }
        ensures works { OnOk result (Works B.state B.machine self.old self.new) }
        ensures table { self.new.seat.table ≡ self.old.seat.table }
        ensures goes_on { Leaves result (Unit {0}) ⊥ }
        ensures turn { IfOk result (HasAppended self.old self.new) }
        ensures refused { IfErr result IsEnding }
    {
        self.list.reserve(1)?;
        match self.seat.append(fabric, entry) {
            Ok(_) => {
                self.list.push_reserved(entry);
                self.guest.waiting = None;
                Ok(Turn::Moved)
            }
            Err(Fault::LogFull) => {
                self.full = true;
                Ok(Turn::Waits)
            }
            Err(_) => Err(Fault::Stalled),
        }
    }

    // The entry to append.
    fn to_append(&self) -> Option<Entry>
        ensures is { result ≡ to_append self.now }
        ensures waits { IfSome result (λ entry. self.now.guest.waiting ≡ Some entry) }
    {
        if self.full {
            return None;
        }
        self.guest.waiting
    }

    // Whether all that its guest did is in the list, and acknowledged.
    pub(super) fn is_covered(&self) -> bool
        ensures all { IsTrue result ↔ ((self.now.guest.waiting ≡ None) × (self.now.seen ≡ length self.now.list.items)) }
        ensures is { result ≡ is_covered self.now }
    {
        self.guest.waiting.is_none() && self.seen == self.list.len() as u64
    }

    // Whether its guest may take a new input: nothing that it gave waits for an acknowledgement.
    pub(super) fn may_take_new(&self) -> bool
        ensures { IsTrue result ↔ ((self.now.guest.waiting ≡ None)
            × ((self.now.guest.given.items ≡ []) ⊎ (self.now.seen ≡ length self.now.list.items))) }
    {
        self.guest.waiting.is_none() && (self.guest.given.is_empty() || self.is_covered())
    }

    // Whether port 1 has a key that is not taken, or a byte that is not accepted. Otherwise each rotation is port 0's.
    fn has_work_at_1(&self) -> bool
        ensures { result ≡ has_work_at_1 B.state B.machine self.now }
    {
        !self.port1.is_taken() || self.guest.board.due_byte(1).is_some()
    }

    // The port whose turn it is.
    fn port(&self) -> u8
        ensures is { result ≡ port_of self.now.second }
        ensures port { result < PORTS }
    {
        if self.second { 1 } else { 0 }
    }

    // Whether it is port 1's turn after this chore.
    fn is_second_after(&self, chore: Chore) -> bool
        ensures { result ≡ second_after chore self.now.second (has_work_at_1 B.state B.machine self.now) }
    {
        match chore {
            Chore::Complete => !self.second && self.has_work_at_1(),
            _ => self.second,
        }
    }

    // Does one chore, at this port if it is a port's. Returns whether it changed anything.
    fn attempt(&mut self, fabric: &Fabric, port: u8) -> R<bool>
        requires table { self.old.seat.table ≡ fabric.now }
        requires before { self.old.seat.core.known.primary.winner ≡ 0 }
        requires swaps { HasSwapsLeft self.old.seat.core }
        requires port { port < PORTS }
        ensures works { OnOk result (Works B.state B.machine self.old self.new) }
        ensures table { self.new.seat.table ≡ self.old.seat.table }
        ensures does { IfOk result (Does B.state B.machine self.old.chore port self.old self.new) }
        ensures refused { IfErr result IsEnding }
    {
        match self.chore {
            Chore::Post => Ok(self.post(fabric)),
            Chore::See => Ok(self.see(fabric)),
            Chore::Run => self.run(),
            Chore::Key => Ok(self.take_key(port)),
            Chore::Emit => Ok(self.emit(fabric, port)),
            Chore::Count => Ok(self.count(fabric, port)),
            Chore::Accept => Ok(self.accept(port)),
            Chore::Ask => Ok(self.ask(fabric)),
            Chore::Answer => Ok(self.hear(fabric)),
            Chore::Complete => Ok(self.complete()),
        }
    }

    // Does the next chore.
    fn work(&mut self, fabric: &Fabric) -> R<Turn>
        requires table { self.old.seat.table ≡ fabric.now }
        requires before { self.old.seat.core.known.primary.winner ≡ 0 }
        requires swaps { HasSwapsLeft self.old.seat.core }
        ensures works { OnOk result (Works B.state B.machine self.old self.new) }
        ensures table { self.new.seat.table ≡ self.old.seat.table }
        ensures leaves { Leaves result (Unit {0}) (IsAtRest B.state B.machine self.new) }
        ensures turn { IfOk result (λ turn. HasDone B.state B.machine self.old self.new turn) }
        ensures refused { IfErr result IsEnding }
    {
        let (chore, fruitless) = (self.chore, self.fruitless);
        if chore == Chore::Run && self.is_at_its_end() {
            return Ok(Turn::Ends);
        }
        let port = self.port();
        let second = self.is_second_after(chore);
        let moved = self.attempt(fabric, port)?;
        self.second = second;
        self.chore = chore.next();
        self.fruitless = fruitless_after(moved, fruitless);
        Ok(turn_after(moved, fruitless, chore))
    }
}

// What a turn is after a chore, by how many before it changed nothing in a row.
fn turn_after(moved: bool, fruitless: u8, chore: Chore) -> Turn
    ensures { result ≡ turn_after moved fruitless chore }
{
    if moved {
        return Turn::Moved;
    }
    match chore {
        Chore::Run if fruitless >= ROTATION => Turn::Waits,
        _ => Turn::Looks,
    }
}

// How many turns have then changed nothing in a row; they are counted up to a rotation.
fn fruitless_after(moved: bool, fruitless: u8) -> u8
    ensures { result ≡ fruitless_after moved fruitless }
{
    if moved {
        0
    } else if fruitless < ROTATION {
        fruitless + 1
    } else {
        fruitless
    }
}

impl<B: Lockstep> Worker for PrimaryWorker<B> {
    ghost use Rattle.std.specs.Prelude.{◌≡◌, ◌&&◌, false};
    ghost use Rattle.pair_threads.specs.Asking.{AsksAt, HasAsked};
    ghost use Rattle.pair_threads.specs.Patience.{is_held_up};
    ghost use Rattle.pair_threads.specs.Primary.{HasHadTurn, IsAtRest, WorkerKeeps, WorkerLeads};

    ghost table = { λ w. w.seat.table };

    ghost ready = { λ w. w.seat.core.known.primary.winner ≡ 0 };

    ghost came = { λ first w. (w.plan ≡ first.plan) × (w.port0.typed ≡ first.port0.typed)
        × (w.port1.typed ≡ first.port1.typed) × HasAsked w.plan.contests_at w.seat.core.known.primary.winner
        × ((boot : B.State) → WorkerLeads B.state B.machine boot first → WorkerLeads B.state B.machine boot w)
        × ((boot : B.State) → WorkerLeads B.state B.machine boot first → WorkerKeeps B.machine boot first
        → WorkerKeeps B.machine boot w) };

    ghost ended = { λ w. w.plan.contested ≡ false → IsAtRest B.state B.machine w };

    ghost asks = { λ old number new.
        AsksAt old.plan.contests_at number old.seat.core.known.primary.winner new.seat.core.known.primary.winner };

    ghost turned = { λ old number new turn. HasHadTurn B.state B.machine old number new turn };

    ghost ends_by = { λ w told. w.plan.contested && told.backup_ended };

    ghost needs_others = { λ w. is_held_up w };

    fn turn(&mut self, fabric: &Fabric, number: u64) -> R<Turn> {
        if !self.seat.has_swaps_left() {
            return Err(Fault::Stalled);
        }
        if self.plan.asks_at(number) {
            let _ = self.seat.contest(fabric);
            return Ok(Turn::Ends);
        }
        match self.to_append() {
            Some(entry) => self.append(fabric, entry),
            None => self.work(fabric),
        }
    }

    fn may_end(&self, told: Told) -> bool {
        self.plan.contested && told.backup_ended
    }

    fn is_held_up(&self) -> bool {
        self.held_up || !self.port0.is_taken() || !self.port1.is_taken()
    }
}

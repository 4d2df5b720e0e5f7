//! The backup's worker: it takes packets, acknowledges its list, repeats its entries, and may go on alone.
ghost use Rattle.std.specs.Prelude.{◌≡◌, ◌≢◌, ◌<◌, ◌≤◌, ◌*◌, ◌^◌, ◌-◌, cond, min, [], false, length, IfErr, IfOk, OnOk};
ghost use Rattle.pair_threads.specs.BackupTurns.{IsTurnOf, LooksSoon, TakesPacket, next_chore, turn_of_asking, turn_of_draining, turn_of_nothing};
ghost use Rattle.pair_threads.specs.Ending.{IsEnding};
ghost use Rattle.pair_threads.specs.Repeating.{FollowsFor, GoesOn, IsAt, has_all, is_far_behind};
ghost use Rattle.pair_threads.specs.Turns.{Leaves};
ghost use Rattle.pair_threads.specs.declared.backup.BackupChore.TheVariants as task;

use crate::plan::Briefing;
use crate::repeater::Repeater;
use crate::signals::Told;
use crate::worker::{Turn, Worker};
use guest_lockstep::Lockstep;
use i8080_words::{Fault, R};
use pair_rule::{BackupSeat, Fabric};
use std::alloc::Global;

// How many steps its guest makes at most before it looks at its box again, after an entry arrived. While none arrives, it
// makes twice as many each time.
const STEPS: u64 = 1_000;

// What the next turn does.
#[derive(Clone, Copy, PartialEq, Eq)]
enum BackupChore {
    Take,
    Hold,
    Replay,
}

impl BackupChore {
    // The chore after this one in the rotation.
    fn next(self) -> BackupChore
        ensures { result ≡ next_chore self }
    {
        match self {
            BackupChore::Take => BackupChore::Hold,
            BackupChore::Hold => BackupChore::Replay,
            BackupChore::Replay => BackupChore::Take,
        }
    }
}

/// The backup's seat, and its guest with the list that it took.
#[derive(Drop)]
pub(crate) struct BackupWorker<B> {
    pub(crate) seat: BackupSeat,
    pub(crate) guest: Repeater<B>,
    held: u64,
    won: bool,
    chore: BackupChore,
    // How many steps its guest makes at most before the next look.
    stride: u64,
    plan: Briefing,
    ghost same: { guest.list.items ≡ seat.core.known.backup.list },
    ghost strides: { 1000 ≤ stride },
}

impl<B: Lockstep> BackupWorker<B> {
    /// A backup that has taken nothing yet.
    pub(crate) fn new(alloc: Global, seat: BackupSeat, board: B, plan: Briefing) -> BackupWorker<B>
        requires { seat.core.known.backup.list ≡ [] }
        ensures seat { result.seat ≡ seat }
        ensures board { result.guest.board ≡ board }
        ensures plan { (result.plan ≡ plan) × (result.won ≡ false) }
        ensures at { IsAt B.state B.machine (B.state board) result.guest }
    {
        BackupWorker {
            seat,
            guest: Repeater::new(alloc, board),
            held: 0,
            won: false,
            chore: BackupChore::Take,
            stride: STEPS,
            plan,
        }
    }

    // Takes the packet that arrived.
    fn take(&mut self, fabric: &Fabric) -> R<Turn>
        requires table { self.old.seat.table ≡ fabric.now }
        requires before { self.old.seat.core.known.backup.winner ≡ 0 }
        ensures table { self.new.seat.table ≡ self.old.seat.table }
        ensures before { self.new.seat.core.known.backup.winner ≡ 0 }
        ensures same { (self.new.plan ≡ self.old.plan) × (self.new.won ≡ self.old.won) × (self.new.chore ≡ self.old.chore) }
        ensures goes_on { OnOk result (GoesOn B.state B.machine self.old.guest self.new.guest) }
        ensures leaves { Leaves result (Unit {0}) ⊥ }
        ensures turn { IfOk result (λ turn. TakesPacket self.old.seat.core self.new.seat.core (has_all self.new.guest) turn) }
        ensures stride { OnOk result (LooksSoon self.old.guest.list.items self.new.guest.list.items self.new.stride) }
        ensures refused { IfErr result IsEnding }
    {
        if !self.seat.has_swaps_left() {
            return Err(Fault::Stalled);
        }
        self.guest.list.reserve(1)?;
        match self.seat.take(fabric) {
            Some(packet) => {
                if packet.index == self.guest.list.len() as u64 {
                    self.stride = STEPS;
                    self.guest.hear(packet.entry);
                }
                Ok(Turn::Moved)
            }
            None => {
                self.stride = longer(self.stride);
                Ok(self.pace(true))
            }
        }
    }

    // Acknowledges the list, if it has grown.
    fn hold(&mut self, fabric: &Fabric)
        requires table { self.old.seat.table ≡ fabric.now }
        requires before { self.old.seat.core.known.backup.winner ≡ 0 }
        ensures table { self.new.seat.table ≡ self.old.seat.table }
        ensures before { self.new.seat.core.known.backup.winner ≡ 0 }
        ensures same { (self.new.plan ≡ self.old.plan) × (self.new.won ≡ self.old.won) × (self.new.guest ≡ self.old.guest)
            × (self.new.chore ≡ self.old.chore) × (self.new.stride ≡ self.old.stride) }
        ensures held { self.new.held ≡ length self.new.guest.list.items }
    {
        if self.held != self.guest.list.len() as u64 {
            self.held = self.seat.hold(fabric);
        }
    }

    // Asks to go on alone. If it has won, it repeats what it still holds.
    fn contest(&mut self, fabric: &Fabric) -> Turn
        requires table { self.old.seat.table ≡ fabric.now }
        requires before { self.old.seat.core.known.backup.winner ≡ 0 }
        requires not_yet { self.old.won ≡ false }
        ensures table { self.new.seat.table ≡ self.old.seat.table }
        ensures same { (self.new.plan ≡ self.old.plan) × (self.new.guest ≡ self.old.guest) }
        ensures leaves { Leaves (Ok result) (self.new.seat.core.known.backup.winner ≡ cond self.new.won 2 0)
            (self.new.seat.core.known.backup.winner ≡ 1) }
        ensures asked { self.new.seat.core.known.backup.winner ≢ 0 }
        ensures turn { result ≡ turn_of_asking self.new.won }
    {
        if self.seat.contest(fabric).is_err() {
            return Turn::Ends;
        }
        self.won = true;
        Turn::Moved
    }

    // Repeats what it still holds, after it has won.
    fn drain(&mut self) -> R<Turn>
        ensures seat { self.new.seat ≡ self.old.seat }
        ensures same { (self.new.plan ≡ self.old.plan) × (self.new.won ≡ self.old.won) }
        ensures goes_on { OnOk result (GoesOn B.state B.machine self.old.guest self.new.guest) }
        ensures leaves { Leaves result (Unit {0}) (self.new.guest.replayed ≡ length self.new.guest.list.items) }
        ensures steps { OnOk result (FollowsFor B.state B.machine self.old.plan.steps self.old.guest self.new.guest) }
        ensures turn { IfOk result (λ turn. turn ≡ turn_of_draining (has_all self.old.guest)) }
        ensures refused { IfErr result IsEnding }
    {
        if self.guest.has_replayed_all() {
            return Ok(Turn::Ends);
        }
        self.guest.replay(self.plan.steps)?;
        Ok(Turn::Moved)
    }

    // What a turn is that did nothing: `Moved` if anything is left to repeat.
    fn pace(&self, waits: bool) -> Turn
        ensures leaves { Leaves (Ok result) (Unit {0}) ⊥ }
        ensures turn { result ≡ turn_of_nothing waits (has_all self.now.guest) }
    {
        if !self.guest.has_replayed_all() {
            return Turn::Moved;
        }
        if waits { Turn::Waits } else { Turn::Looks }
    }

    // Follows the next entry, if there is one.
    fn repeat(&mut self) -> R<Turn>
        ensures seat { self.new.seat ≡ self.old.seat }
        ensures same { (self.new.plan ≡ self.old.plan) × (self.new.won ≡ self.old.won) × (self.new.chore ≡ self.old.chore) }
        ensures goes_on { OnOk result (GoesOn B.state B.machine self.old.guest self.new.guest) }
        ensures leaves { Leaves result (Unit {0}) ⊥ }
        ensures turn { IfOk result (λ turn. turn ≡ turn_of_nothing false (has_all self.new.guest)) }
        ensures steps { OnOk result (FollowsFor B.state B.machine (min self.old.plan.steps self.old.stride) self.old.guest
            self.new.guest) }
        ensures refused { IfErr result IsEnding }
    {
        let steps = self.plan.steps.min(self.stride);
        self.guest.replay(steps)?;
        Ok(self.pace(false))
    }

    // Takes, acknowledges or repeats, in rotation.
    fn follow(&mut self, fabric: &Fabric) -> R<Turn>
        requires table { self.old.seat.table ≡ fabric.now }
        requires before { self.old.seat.core.known.backup.winner ≡ 0 }
        ensures table { self.new.seat.table ≡ self.old.seat.table }
        ensures before { self.new.seat.core.known.backup.winner ≡ 0 }
        ensures same { (self.new.plan ≡ self.old.plan) × (self.new.won ≡ self.old.won) }
        ensures goes_on { OnOk result (GoesOn B.state B.machine self.old.guest self.new.guest) }
        ensures leaves { Leaves result (Unit {0}) ⊥ }
        ensures next { OnOk result (self.new.chore ≡ next_chore self.old.chore) }
        ensures turn { IfOk result
            (IsTurnOf self.old.chore (is_far_behind B.state B.machine self.old.guest) self.old.seat.core self.new.seat.core
            (has_all self.new.guest)) }
        ensures steps { self.old.chore ≡ task.Replay → OnOk result (FollowsFor B.state B.machine
            (min self.old.plan.steps self.old.stride) self.old.guest self.new.guest) }
        ensures refused { IfErr result IsEnding }
    {
        let chore = self.chore;
        self.chore = chore.next();
        match chore {
            BackupChore::Take if self.guest.is_far_behind() => Ok(Turn::Looks),
            BackupChore::Take => self.take(fabric),
            BackupChore::Hold => {
                self.hold(fabric);
                Ok(self.pace(false))
            }
            BackupChore::Replay => self.repeat(),
        }
    }
}

// How many steps its guest makes at most before the next look, after one in which nothing had arrived.
fn longer(stride: u64) -> u64
    ensures { result ≡ min (stride * 2) (2 ^ 64 - 1) }
{
    stride.saturating_mul(2)
}

impl<B: Lockstep> Worker for BackupWorker<B> {
    ghost use Rattle.std.specs.Prelude.{◌≡◌, ◌⊎◌, ◌&&◌, ◌||◌, not, cond, false, length};
    ghost use Rattle.pair_threads.specs.Asking.{AsksAt, HasAsked};
    ghost use Rattle.pair_threads.specs.Repeating.{GoesOn, has_all, is_far_behind};
    ghost use Rattle.pair_threads.specs.BackupTurns.{IsTurn, IsTurnOf};

    ghost table = { λ w. w.seat.table };

    ghost ready = { λ w. w.seat.core.known.backup.winner ≡ cond w.won 2 0 };

    ghost came = { λ first w. (w.plan ≡ first.plan) × HasAsked w.plan.contests_at w.seat.core.known.backup.winner
        × GoesOn B.state B.machine first.guest w.guest };

    ghost ended = { λ w. (w.plan.contested ≡ false) ⊎ (w.seat.core.known.backup.winner ≡ 2)
        → w.guest.replayed ≡ length w.guest.list.items };

    ghost asks = { λ old number new.
        AsksAt old.plan.contests_at number old.seat.core.known.backup.winner new.seat.core.known.backup.winner };

    ghost turned = { λ old number new turn. IsTurn old.won old.plan.contests_at number (has_all old.guest) new.won
        (IsTurnOf old.chore (is_far_behind B.state B.machine old.guest) old.seat.core new.seat.core (has_all new.guest) turn)
        turn };

    ghost ends_by = { λ w told. not w.won && told.primary_ended && (w.plan.contested || has_all w.guest) };

    ghost needs_others = { λ w. false };

    fn turn(&mut self, fabric: &Fabric, number: u64) -> R<Turn> {
        if self.won {
            return self.drain();
        }
        if self.plan.asks_at(number) {
            return Ok(self.contest(fabric));
        }
        self.follow(fabric)
    }

    fn may_end(&self, told: Told) -> bool {
        if self.won || !told.primary_ended {
            return false;
        }
        self.plan.contested || self.guest.has_replayed_all()
    }

    fn is_held_up(&self) -> bool {
        false
    }
}

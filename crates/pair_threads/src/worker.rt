//! What all workers have in common, and the loop that serves each of them.
ghost use Rattle.std.specs.Prelude.{◌≡◌, ◌<◌, ℕ, IfErr, IfOk, IsTrue, OnOk};
ghost use Rattle.pair_threads.specs.Choosing.{turns_of};
ghost use Rattle.pair_threads.specs.Ending.{IsEnding};
ghost use Rattle.pair_threads.specs.Served.{HasGoneOn, HasHadTurns, LeavesAs, next_after};
ghost use Rattle.pair_threads.specs.Turns.{Leaves};

use crate::gate::{Gate, Who};
use crate::pace::Pace;
use crate::signals::{Signals, Told};
use i8080_words::{Fault, R};
use pair_rule::{Fabric, MOST_SWAPS};
use std::time::{Clock, Instant};

/// The result of a turn.
#[derive(Clone, Copy, PartialEq, Eq)]
pub(crate) enum Turn {
    /// It changed something.
    Moved,
    /// It found nothing, and looks for something else at once.
    Looks,
    /// It found nothing in a whole rotation.
    Waits,
    /// The worker is at its end.
    Ends,
}

/// A seat with all that its thread keeps besides it.
pub(crate) trait Worker {
    ghost use Rattle.std.specs.Prelude.{ℕ, Bool};
    ghost use Rattle.atomic_table.specs.Seated.{TableId};
    ghost use Rattle.pair_threads.specs.declared.signals.Told.{Told};
    ghost use Rattle.pair_threads.specs.declared.worker.Turn.{Turn};

    // The table of its seat.
    ghost table: { Self → TableId };

    // What holds before each turn.
    ghost ready: { Self → Type 0 };

    // How a worker is related to itself as it began.
    ghost came: { Self → Self → Type 0 };

    // What holds of a worker that is at its end.
    ghost ended: { Self → Type 0 };

    // What a turn of this number is to a worker that may ask to go on alone.
    ghost asks: { Self → ℕ → Self → Type 0 };

    // What it has done in a turn of this number that was such a turn.
    ghost turned: { Self → ℕ → Self → Turn → Type 0 };

    // Whether it is at its end by what it was told.
    ghost ends_by: { Self → Told → Bool };

    // Whether its guest makes progress only if the other workers do.
    ghost needs_others: { Self → Bool };

    /// Makes at most one call of its seat, or lets its guest move. Refused if the run can no longer end well: `OutOfMemory`,
    /// and `Stalled` otherwise.
    fn turn(&mut self, fabric: &Fabric, number: u64) -> R<Turn>
        requires table { table self.old ≡ fabric.now }
        requires ready { ready self.old }
        ensures table { table self.new ≡ table self.old }
        ensures came { (first : Self) → came first self.old → OnOk result (came first self.new) }
        ensures leaves { Leaves result (ready self.new) (ended self.new) }
        ensures asks { OnOk result (asks self.old number self.new) }
        ensures turned { IfOk result (turned self.old number self.new) }
        ensures refused { IfErr result IsEnding };

    /// Whether it is at its end by what it was told.
    fn may_end(&self, told: Told) -> bool
        requires ready { ready self.now }
        ensures ended { IsTrue result → ended self.now }
        ensures told { result ≡ ends_by self.now told };

    /// Whether its guest makes progress only if the other workers do.
    fn is_held_up(&self) -> bool
        ensures { result ≡ needs_others self.now };
}

// Waits until all workers have begun, or one has failed, for ten seconds at most. If no thread can be made for one of them,
// it begins only after another one has returned.
fn all_begin<C: Clock>(clock: &C, signals: &Signals) -> bool {
    let mut pace = Pace::new(0);
    for _ in 0..u64::MAX {
        if signals.have_all_begun() || signals.has_failed() {
            return true;
        }
        let now = Instant::now(clock).ok();
        if !pace.waits(clock, now, signals.is_held_up(), signals.moved(), false) {
            return false;
        }
    }
    false
}

// How many turns a worker has at most: the primary and the backup as many as they are given, the others as many as a table
// has swaps. Turns in which it finds nothing to do count only if somebody is planned to ask at a turn.
fn turns_of(who: Who, turns: u64) -> u64
    ensures { result ≡ turns_of who turns }
{
    match who {
        Who::Primary | Who::Backup => turns,
        Who::Link | Who::Terminal | Who::Disk => MOST_SWAPS,
    }
}

/// What a worker does after a turn.
#[derive(Clone, Copy, PartialEq, Eq)]
pub(crate) enum Next {
    /// It has another turn.
    GoesOn,
    /// It is at its end.
    Ends,
    /// It gives the run up.
    GivesUp,
}

// What a worker does after such a turn, by whether it goes on.
fn next_after(turn: Turn, goes_on: bool) -> Next
    ensures { result ≡ next_after turn goes_on }
{
    match (turn, goes_on) {
        (Turn::Ends, _) => Next::Ends,
        (_, true) => Next::GoesOn,
        (_, false) => Next::GivesUp,
    }
}

// Has the turn of this number, tells the others whether the worker's guest is held up if that has changed, and goes on as after
// such a turn.
fn take_turn<C: Clock, W: Worker, G: Gate>(
    clock: &C,
    worker: &mut W,
    pace: &mut Pace,
    held_up: &mut bool,
    who: Who,
    number: u64,
    fabric: &Fabric,
    gate: &G,
    signals: &Signals,
    contested: bool,
) -> R<Next>
    requires left { 0 < pace.old.left }
    requires table { W.table worker.old ≡ fabric.now }
    requires ready { W.ready worker.old }
    ensures table { W.table worker.new ≡ fabric.now }
    ensures came { (first : W) → W.came first worker.old → OnOk result (W.came first worker.new) }
    ensures leaves { IfOk result (λ next. LeavesAs next (W.ready worker.new) (W.ended worker.new)) }
    ensures turned { IfOk result (HasGoneOn W.turned contested number worker.old worker.new pace.old pace.new) }
    ensures held_up { OnOk result (held_up.new ≡ W.needs_others worker.new) }
    ensures refused { IfErr result IsEnding }
{
    let turn = worker.turn(fabric, number);
    gate.leave(who, number);
    if worker.is_held_up() != *held_up {
        *held_up = !*held_up;
        signals.holds_up(*held_up);
    }
    let turn = turn?;
    let goes_on = pace.goes_on(clock, signals, who, contested, turn);
    Ok(next_after(turn, goes_on))
}

/// Lets a worker have its turns, until it is at its end. `Stalled` if it is not at its end after all of them, if no worker
/// makes progress, if the gate ends the run, or if another worker has failed; `OutOfMemory` if the others have no threads.
pub(crate) fn serve<C: Clock, W: Worker, G: Gate>(
    clock: &C,
    mut worker: W,
    who: Who,
    fabric: &Fabric,
    gate: &G,
    signals: &Signals,
    turns: u64,
    contested: bool,
) -> (W, R<()>)
    requires table { W.table worker ≡ fabric.now }
    requires ready { W.ready worker }
    requires came { W.came worker worker }
    ensures table { W.table result.0 ≡ fabric.now }
    ensures came { OnOk result.1 (W.came worker result.0) }
    ensures ended { OnOk result.1 (W.ended result.0) }
    ensures turns { OnOk result.1 ((n : ℕ) × HasHadTurns W.turned worker n result.0) }
    ensures refused { IfErr result.1 IsEnding }
{
    signals.begins();
    if !all_begin(clock, signals) {
        signals.fails();
        return (worker, Err(Fault::OutOfMemory));
    }
    let mut pace = Pace::new(turns_of(who, turns));
    let mut held_up = false;
    for number in 0..u64::MAX {
        if pace.left == 0 || signals.has_failed() {
            break;
        }
        if worker.may_end(signals.told()) {
            signals.ends(who);
            return (worker, Ok(()));
        }
        if !gate.enter(who, number) {
            break;
        }
        match take_turn(
            clock,
            &mut worker,
            &mut pace,
            &mut held_up,
            who,
            number,
            fabric,
            gate,
            signals,
            contested,
        ) {
            Ok(Next::GoesOn) => {}
            Ok(Next::Ends) => {
                signals.ends(who);
                return (worker, Ok(()));
            }
            Ok(Next::GivesUp) => break,
            Err(fault) => {
                signals.fails();
                return (worker, Err(fault));
            }
        }
    }
    signals.fails();
    (worker, Err(Fault::Stalled))
}

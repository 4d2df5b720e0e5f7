//! How a worker makes progress: the turns that it has left, how it waits, and when it gives up.
ghost use Rattle.std.specs.Prelude.{◌≡◌, ◌↔◌, ◌<◌, ◌-◌, is_some, unwrap_or, Option, IsTrue, None, Some};
ghost use Rattle.std.specs.declared.time.Instant.{Instant};
ghost use Rattle.pair_threads.specs.Choosing.{left_after_waiting};
ghost use Rattle.pair_threads.specs.Patience.{PacedBy, WaitsOn, after_wait, is_noted, quiet_for, quiet_since, rest_at, sleeps_after};

use crate::gate::Who;
use crate::rest::Rest;
use crate::signals::Signals;
use crate::worker::Turn;
use crate::yields::{Yields, micros_between};
use std::time::{Clock, Instant};

// A run is given up after this many seconds without progress of any worker.
const PATIENCE: u64 = 10;

// A worker that keeps making progress says so once in this many turns.
const NOTED: u64 = 64;

/// What a worker has left, and how long it has found nothing to do.
#[derive(Drop)]
pub(crate) struct Pace {
    /// How many turns it has left.
    pub(crate) left: u64,
    // Since when it has found nothing, and how often it has slept since.
    waiting: Option<Instant>,
    sleeps: u32,
    // How long its yields took.
    yields: Yields,
    // Since when no worker has made progress, as last seen, and how often workers had said so by then.
    quiet: Option<Instant>,
    moves: u64,
}

impl Pace {
    /// A worker that begins with this many turns.
    pub(crate) fn new(turns: u64) -> Pace
        ensures { result ≡ record {
          left = turns;
          waiting = None;
          sleeps = 0;
          yields = record { long = None; shunned = 0 };
          quiet = None;
          moves = 0;
        } }
    {
        Pace {
            left: turns,
            waiting: None,
            sleeps: 0,
            yields: Yields::new(),
            quiet: None,
            moves: 0,
        }
    }

    /// Goes on after a turn; returns whether it has another one, which it has not at its end or if it gives the run up.
    pub(crate) fn goes_on<C: Clock>(
        &mut self,
        clock: &C,
        signals: &Signals,
        who: Who,
        contested: bool,
        turn: Turn,
    ) -> bool
        requires { 0 < self.old.left }
        ensures { PacedBy turn contested self.old self.new result }
    {
        match turn {
            Turn::Moved => {
                self.moves(signals, who);
                true
            }
            Turn::Looks => {
                self.looks(contested);
                true
            }
            Turn::Waits => {
                let now = Instant::now(clock).ok();
                self.waits(clock, now, signals.is_held_up(), signals.moved(), contested)
            }
            Turn::Ends => false,
        }
    }

    // It has made progress.
    fn moves(&mut self, signals: &Signals, who: Who)
        requires { 0 < self.old.left }
        ensures { self.new ≡ record self.old { left = self.old.left - 1; waiting = None; sleeps = 0 } }
    {
        if self.is_noted() {
            signals.moves(who);
        }
        self.waiting = None;
        self.sleeps = 0;
        self.left -= 1;
    }

    // Whether it says so this time.
    fn is_noted(&self) -> bool
        ensures { result ≡ is_noted (is_some self.now.waiting) self.now.left }
    {
        self.waiting.is_some() || self.left % NOTED == 0
    }

    // It has found nothing in a turn. This uses up one of its turns only if somebody is planned to ask at a turn.
    fn looks(&mut self, contested: bool)
        ensures { self.new ≡ record self.old { left = left_after_waiting contested self.old.left } }
    {
        if contested {
            self.left = self.left.saturating_sub(1);
        }
    }

    /// It has found nothing in a whole rotation, and lets the others run, of whom it has seen whether a guest is held up, and
    /// how often they made progress. False if the run is given up: after ten seconds without progress of any worker, though
    /// never if somebody is planned to ask at a turn; and if there is no time.
    pub(crate) fn waits<C: Clock>(
        &mut self,
        clock: &C,
        now: Option<Instant>,
        held_up: bool,
        moves: u64,
        contested: bool,
    ) -> bool
        ensures waits { (ended : Option Instant) × (self.new ≡ after_wait contested now ended held_up moves self.old) }
        ensures goes_on { WaitsOn contested now self.new.quiet result }
    {
        self.looks(contested);
        let Some(now) = now else {
            return false;
        };
        let rest = self.rest_at(now, held_up);
        let ended = rest.take(clock);
        self.yields.note(rest, now, ended);
        self.is_patient(now, moves) || contested
    }

    // How it waits at this moment.
    fn rest_at(&mut self, now: Instant, held_up: bool) -> Rest
        ensures rest { result ≡ rest_at now held_up self.old }
        ensures waits { self.new ≡ record self.old {
          waiting = Some (unwrap_or self.old.waiting now);
          sleeps = sleeps_after result self.old.sleeps;
        } }
    {
        let began = self.waiting.unwrap_or(now);
        self.waiting = Some(began);
        let micros = micros_between(began, now);
        let rest = Rest::after(micros, self.sleeps, held_up, self.yields.is_busy(now));
        if rest != Rest::Yield {
            self.sleeps = self.sleeps.saturating_add(1);
        }
        rest
    }

    // Whether any worker has made progress in the ten seconds before this moment, as last seen.
    fn is_patient(&mut self, now: Instant, moves: u64) -> bool
        ensures seen { self.new ≡ record self.old {
          quiet = quiet_since now moves self.old.quiet self.old.moves;
          moves = moves;
        } }
        ensures patient { IsTrue result ↔ (quiet_for now self.new.quiet < 10_000_000_000) }
    {
        match self.quiet {
            Some(quiet) if self.moves == moves => now.duration_since(quiet).as_secs() < PATIENCE,
            _ => {
                self.moves = moves;
                self.quiet = Some(now);
                true
            }
        }
    }
}

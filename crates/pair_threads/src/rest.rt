//! How a worker that finds nothing to do waits.
ghost use Rattle.std.specs.Prelude.{◌≡◌};
ghost use Rattle.pair_threads.specs.Patience.{rest_after};

use std::thread;
use std::time::{Clock, Duration, Instant};

// For how many microseconds a worker that finds nothing yields before it sleeps: while a guest is held up, and while none is.
const LONG_YIELDS: u128 = 600;

const SHORT_YIELDS: u128 = 10;

// The first sleep takes this many microseconds, and each of this many further ones in a row takes as much more: 500 at most.
const SHORTEST_SLEEP: u32 = 5;

const LONGER_SLEEPS: u32 = 99;

/// What a worker that found nothing to do does.
#[derive(Clone, Copy, PartialEq, Eq)]
pub(crate) enum Rest {
    /// It yields the processor to another thread, and looks again.
    Yield,
    /// It sleeps for this many microseconds.
    Sleep(u32),
}

impl Rest {
    /// What a worker does that has found nothing for this many microseconds, and has slept this often since; `busy` says
    /// that a yield took long a short while ago. A sleep takes some 55 microseconds more than it should, or 15 if Linux was
    /// asked for precise sleeps, and a guest that is held up would wait for that at each hop of a key or a byte. Yields keep
    /// a processor busy, which a guest that computes may need. Beside other work a yield gives the worker's whole share of
    /// the processor away, and takes milliseconds; who sleeps keeps its share, and has the processor soon after it wakes.
    pub(crate) fn after(micros: u128, sleeps: u32, held_up: bool, busy: bool) -> Rest
        ensures { result ≡ rest_after micros sleeps held_up busy }
    {
        let yields = if held_up { LONG_YIELDS } else { SHORT_YIELDS };
        if !busy && micros < yields {
            return Rest::Yield;
        }
        Rest::Sleep(SHORTEST_SLEEP * (1 + sleeps.min(LONGER_SLEEPS)))
    }

    /// Lets the other threads run. Returns when a yield ended, if the clock can be read.
    pub(crate) fn take<C: Clock>(self, clock: &C) -> Option<Instant> {
        match self {
            Rest::Yield => {
                thread::yield_now();
                Instant::now(clock).ok()
            }
            Rest::Sleep(micros) => {
                thread::sleep(clock, Duration::from_micros(u64::from(micros)));
                None
            }
        }
    }
}

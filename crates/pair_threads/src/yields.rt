//! How a worker finds out that the machine is busy: its yields take long.
ghost use Rattle.std.specs.Prelude.{◌≡◌, None};
ghost use Rattle.pair_threads.specs.Patience.{is_busy, micros_between, yields_after};

use crate::rest::Rest;
use std::time::Instant;

// A yield that takes more microseconds than this took long: another thread had the processor for a share of its own.
const LONG: u128 = 1_000;

// The most times as long as a yield took that none is tried after it: 63, as twice this and one more.
const HALF: u32 = 31;

/// A yield that took long, from one moment to another.
#[derive(Clone, Copy)]
pub(crate) struct LongYield {
    began: Instant,
    ended: Instant,
}

/// The yields of a worker.
#[derive(Clone, Copy)]
pub(crate) struct Yields {
    // The last one that took long, and for how many times as long as it took none is tried after it.
    long: Option<LongYield>,
    shunned: u32,
}

impl Yields {
    /// None took long yet.
    pub(crate) fn new() -> Yields
        ensures { result ≡ record { long = None; shunned = 0 } }
    {
        Yields {
            long: None,
            shunned: 0,
        }
    }

    /// Whether none is tried at this moment, since one took long a short while ago.
    pub(crate) fn is_busy(&self, now: Instant) -> bool
        ensures { result ≡ is_busy now self.now }
    {
        let Some(long) = self.long else {
            return false;
        };
        let took = micros_between(long.began, long.ended);
        self.shunned != 0 && micros_between(long.ended, now) / u128::from(self.shunned) < took
    }

    /// Notes a rest between these moments, if it was a yield.
    pub(crate) fn note(&mut self, rest: Rest, began: Instant, ended: Option<Instant>)
        ensures { self.new ≡ yields_after rest began ended self.old }
    {
        let (Rest::Yield, Some(ended)) = (rest, ended) else {
            return;
        };
        if micros_between(began, ended) > LONG {
            self.long = Some(LongYield { began, ended });
            self.shunned = 2 * self.shunned.min(HALF) + 1;
        } else {
            self.shunned = self.shunned.saturating_sub(1);
        }
    }
}

/// How many microseconds are between two moments.
pub(crate) fn micros_between(began: Instant, ended: Instant) -> u128
    ensures { result ≡ micros_between began ended }
{
    ended.duration_since(began).as_micros()
}

//! How a loop that finds nothing to do rests: for a moment it looks again and again, and then it sleeps until it is woken.
ghost use Rattle.std.specs.Prelude.{◌≡◌};
ghost use Rattle.host_frames.specs.Resting.{found, looks_again, worth_after};

use std::sync::Wait;
use std::thread::{self, Parker};
use std::time::{Clock, Duration};

// For how many microseconds a loop looks again after it has found something.
const LOOKS: u64 = 500;

// How much looking again can be worth: so many finds in a row that came late make it worth nothing.
const MOST_WORTH: u64 = 8;

// A yield that took more microseconds than this gave the processor to other work.
const LONG_YIELD: u64 = 1_000;

// For how many microseconds a loop only sleeps after such a yield: beside other work a yield costs its whole share.
const SHUNNED: u64 = 20_000;

/// When a loop last found something, until when it does not look again and again, and what that was worth lately. Times are in
/// microseconds of its clock.
///
/// Waking a thread that sleeps takes 40 to 60 microseconds, and a byte that a guest prints waits for twelve such wakes until the
/// backup has acknowledged it. A loop that yields the processor and looks again needs none. It would take half of a processor
/// from a guest that computes, of whose progress something is to be said each few milliseconds, and nothing in between.
#[derive(Clone, Copy)]
pub struct Rests {
    found_at: u64,
    shuns_until: u64,
    worth: u64,
}

impl Rests {
    /// Of a loop that begins now.
    pub fn new(now: u64) -> Rests
        ensures { result ≡ record { found_at = now; shuns_until = 0; worth = 8 } }
    {
        Rests {
            found_at: now,
            shuns_until: 0,
            worth: MOST_WORTH,
        }
    }

    /// The loop has found something.
    pub fn find(&mut self, now: u64)
        ensures { self.new ≡ found now self.old }
    {
        self.worth = worth_after(now.saturating_sub(self.found_at), self.worth);
        self.found_at = now;
    }

    /// Whether a loop that finds nothing now looks again at once.
    pub fn looks_again(&self, now: u64) -> bool
        ensures { result ≡ looks_again now self.now }
    {
        self.worth > 0 && now >= self.shuns_until && now.saturating_sub(self.found_at) < LOOKS
    }

    /// Rests: yields if it is to look again, and otherwise sleeps until somebody wakes it through the parker, or for so many
    /// microseconds.
    pub fn rest<C: Wait + Clock>(&mut self, rt: &C, now: u64, wake: &Parker, longest: u64)
        ensures { self.new.found_at ≡ self.old.found_at }
    {
        if !self.looks_again(now) {
            wake.park_timeout(rt, Duration::from_micros(longest));
            return;
        }
        thread::yield_now();
        let later = micros(rt, now);
        if later.saturating_sub(now) > LONG_YIELD {
            self.shuns_until = later.saturating_add(SHUNNED);
        }
    }
}

// What looking again is worth after a find that came so many microseconds after the one before.
fn worth_after(waited: u64, worth: u64) -> u64
    ensures { result ≡ worth_after waited worth }
{
    if waited < LOOKS {
        return worth.min(MOST_WORTH - 2) + 2;
    }
    worth.saturating_sub(1)
}

/// The time by a clock, in microseconds; as before, if the clock does not tell.
pub fn micros<C: Clock>(clock: &C, before: u64) -> u64 {
    let Ok(time) = clock.monotonic() else {
        return before;
    };
    u64::try_from(time.as_micros()).unwrap_or(before)
}

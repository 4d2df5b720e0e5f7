//! How many steps a second a guest makes at most.
ghost use Rattle.std.specs.Prelude.{◌≡◌, ◌-◌};
ghost use Rattle.host_node.specs.Speeds.{as_fast_as_it_can, due, has_made, is_late, seen_at, set_to, turns_at};

// Of how many microseconds a guest that is late makes up the steps at most: a tenth of a second.
const MOST_LATE: u64 = 100_000;

/// A guest's speed, and what it has made of it.
#[derive(Clone, Copy)]
pub struct Speed {
    // In steps a second; 0 if the guest runs as fast as it can.
    bound: u64,
    // How many steps it has made since this time, in microseconds.
    since: u64,
    made: u64,
}

impl Speed {
    /// The guest runs as fast as it can.
    pub fn new() -> Speed
        ensures { result ≡ as_fast_as_it_can }
    {
        Speed {
            bound: 0,
            since: 0,
            made: 0,
        }
    }

    /// From now on it makes at most so many steps a second; with 0 as many as it can.
    pub fn set(&mut self, bound: u64, now: u64)
        ensures { self.new ≡ set_to bound now self.old }
    {
        if self.bound == bound {
            return;
        }
        *self = Speed {
            bound,
            since: now,
            made: 0,
        };
    }

    /// If it is late for long by now, as after it idled, its steps count anew: it does not make up for them by a burst.
    pub fn see(&mut self, now: u64)
        ensures { self.new ≡ seen_at now self.old }
    {
        if self.is_late(now) {
            self.since = now;
            self.made = 0;
        }
    }

    /// How many steps it makes now, of at most so many.
    pub fn turns(&self, now: u64, most: u64) -> u64
        ensures { result ≡ turns_at now most self.now }
    {
        if self.bound == 0 {
            return most;
        }
        self.late_by(now).min(u128::from(most)) as u64
    }

    /// It has made so many steps.
    pub fn make(&mut self, steps: u64)
        ensures { self.new ≡ has_made steps self.old }
    {
        self.made = self.made.saturating_add(steps);
    }

    // Whether it is late by more than it makes up for.
    fn is_late(&self, now: u64) -> bool
        ensures { result ≡ is_late self.now now }
    {
        self.late_by(now) > due(self.bound, MOST_LATE)
    }

    // How many steps it has yet to make by now.
    fn late_by(&self, now: u64) -> u128
        ensures { result ≡ due self.now.bound (now - self.now.since) - self.now.made }
    {
        due(self.bound, now.saturating_sub(self.since)).saturating_sub(u128::from(self.made))
    }
}

// The steps that a speed gives in so many microseconds.
fn due(speed: u64, micros: u64) -> u128
    ensures { result ≡ due speed micros }
{
    u128::from(speed) * u128::from(micros) / 1_000_000
}

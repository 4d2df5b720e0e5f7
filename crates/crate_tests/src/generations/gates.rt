//! Gates that hold the first turns of the workers, let nobody have one, or count them all.

use pair_threads::{Gate, Who};
use std::sync::atomic::{AtomicBool, AtomicU64, Ordering};
use std::thread;

/// Holds the first turn of primary and backup until both have begun, and that of terminals and disk until the primary has:
/// one thread alone never makes progress.
#[derive(Drop)]
pub(super) struct Together {
    primary: AtomicBool,
    backup: AtomicBool,
}

impl Together {
    pub(super) fn new() -> Together {
        Together {
            primary: AtomicBool::new(false),
            backup: AtomicBool::new(false),
        }
    }
}

// Waits for another worker's first turn.
fn waits_for(flag: &AtomicBool) -> bool {
    for _ in 0..10_000_000 {
        if flag.load(Ordering::SeqCst) {
            return true;
        }
        thread::yield_now();
    }
    false
}

impl Gate for Together {
    fn enter(&self, who: Who, turn: u64) -> bool {
        if turn != 0 {
            return true;
        }
        match who {
            Who::Primary => {
                self.primary.store(true, Ordering::SeqCst);
                waits_for(&self.backup)
            }
            Who::Backup => {
                self.backup.store(true, Ordering::SeqCst);
                waits_for(&self.primary)
            }
            Who::Terminal | Who::Disk => waits_for(&self.primary),
            Who::Link => true,
        }
    }

    fn leave(&self, _who: Who, _turn: u64) {}
}

/// Lets nobody have a turn.
#[derive(Drop)]
pub(super) struct ClosedGate;

impl Gate for ClosedGate {
    fn enter(&self, _who: Who, _turn: u64) -> bool {
        false
    }

    fn leave(&self, _who: Who, _turn: u64) {}
}

/// Holds nobody, and counts the turns that were entered, and those that were left.
#[derive(Drop)]
pub(super) struct Turnstile {
    entered: AtomicU64,
    left: AtomicU64,
}

impl Turnstile {
    pub(super) fn new() -> Turnstile {
        Turnstile {
            entered: AtomicU64::new(0),
            left: AtomicU64::new(0),
        }
    }

    pub(super) fn entered(&self) -> u64 {
        self.entered.load(Ordering::SeqCst)
    }

    pub(super) fn left(&self) -> u64 {
        self.left.load(Ordering::SeqCst)
    }
}

impl Gate for Turnstile {
    fn enter(&self, _who: Who, _turn: u64) -> bool {
        let _ = self.entered.fetch_add(1, Ordering::SeqCst);
        true
    }

    fn leave(&self, _who: Who, _turn: u64) {
        let _ = self.left.fetch_add(1, Ordering::SeqCst);
    }
}

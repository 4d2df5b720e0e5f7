//! What the workers tell each other besides the table. No contract rests on it.
ghost use Rattle.std.specs.Prelude.{◌≡◌, nat_le};
ghost use Rattle.pair_threads.specs.Patience.{end_mark, is_progress, told_by};

use crate::gate::Who;
use std::sync::atomic::{AtomicBool, AtomicU8, AtomicU64, Ordering};

// How many workers there are.
const WORKERS: u64 = 5;

/// How many workers have begun, who is at its end, whether the guest is held up, whether the run has failed, and how often
/// workers have made progress.
#[derive(Drop)]
pub struct Signals {
    begun: AtomicU64,
    // The marks of those that are at their ends.
    ended: AtomicU8,
    held_up: AtomicBool,
    failed: AtomicBool,
    moves: AtomicU64,
}

/// The signals as a worker found them.
#[derive(Clone, Copy, PartialEq, Eq)]
pub struct Told {
    pub primary_ended: bool,
    pub backup_ended: bool,
}

impl Signals {
    /// No worker has begun.
    pub fn new() -> Signals {
        Signals {
            begun: AtomicU64::new(0),
            ended: AtomicU8::new(0),
            held_up: AtomicBool::new(false),
            failed: AtomicBool::new(false),
            moves: AtomicU64::new(0),
        }
    }

    /// A worker has begun.
    pub fn begins(&self) {
        let _ = self.begun.fetch_add(1, Ordering::SeqCst);
    }

    /// Whether all have begun.
    pub fn have_all_begun(&self) -> bool {
        are_all(self.begun.load(Ordering::SeqCst))
    }

    /// Which of the nodes are at their ends.
    pub fn told(&self) -> Told {
        told_by(self.ended.load(Ordering::SeqCst))
    }

    /// A guest is held up, or is no longer.
    pub fn holds_up(&self, held_up: bool) {
        self.held_up.store(held_up, Ordering::SeqCst);
    }

    /// Whether a guest is held up.
    pub fn is_held_up(&self) -> bool {
        self.held_up.load(Ordering::SeqCst)
    }

    /// Whether the run has failed.
    pub fn has_failed(&self) -> bool {
        self.failed.load(Ordering::SeqCst)
    }

    /// A worker is at its end. The others need not know this of link, terminals and disk.
    pub fn ends(&self, who: Who) {
        let _ = self.ended.fetch_or(end_mark(who), Ordering::SeqCst);
    }

    /// The run has failed.
    pub fn fails(&self) {
        self.failed.store(true, Ordering::SeqCst);
    }

    /// A worker has made progress. The link does not count: it moves even when it loses one packet again and again.
    pub fn moves(&self, who: Who) {
        if is_progress(who) {
            let _ = self.moves.fetch_add(1, Ordering::SeqCst);
        }
    }

    /// How often workers have said that they made progress.
    pub fn moved(&self) -> u64 {
        self.moves.load(Ordering::SeqCst)
    }
}

// Whether so many workers are all.
fn are_all(begun: u64) -> bool
    ensures { result ≡ nat_le 5 begun }
{
    begun >= WORKERS
}

// The mark of a worker that is at its end.
fn end_mark(who: Who) -> u8
    ensures { result ≡ end_mark who }
{
    match who {
        Who::Primary => 1,
        Who::Backup => 2,
        Who::Link | Who::Terminal | Who::Disk => 0,
    }
}

// Which of the nodes are at their ends, by the marks of all that are.
fn told_by(marks: u8) -> Told
    ensures { result ≡ told_by marks }
{
    Told {
        primary_ended: marks % 2 == 1,
        backup_ended: marks / 2 % 2 == 1,
    }
}

// Whether what a worker does is progress.
fn is_progress(who: Who) -> bool
    ensures { result ≡ is_progress who }
{
    match who {
        Who::Link => false,
        Who::Primary | Who::Backup | Who::Terminal | Who::Disk => true,
    }
}

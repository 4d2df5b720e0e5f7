//! What the threads of a console tell each other.

use std::sync::atomic::{AtomicBool, AtomicU64, Ordering};

/// What is seen of the signs once nothing more can come to the screen. Whatever was sent to it is in its rings by then.
#[derive(Drop)]
pub(crate) struct Over {
    is_seen: bool,
}

/// Signs that are given once, and seen by all threads from then on; and how often the display moved.
#[derive(Drop)]
pub struct Signs {
    stopped: AtomicBool,
    heard_all: AtomicBool,
    shown_all: AtomicBool,
    moved: AtomicU64,
}

impl Signs {
    /// No sign is given yet.
    pub fn new() -> Signs {
        Signs {
            stopped: AtomicBool::new(false),
            heard_all: AtomicBool::new(false),
            shown_all: AtomicBool::new(false),
            moved: AtomicU64::new(0),
        }
    }

    /// No more keys are wanted.
    pub fn stop(&self) {
        self.stopped.store(true, Ordering::SeqCst);
    }

    /// Whether no more keys are wanted.
    pub fn is_stopped(&self) -> bool {
        self.stopped.load(Ordering::SeqCst)
    }

    /// No more keys are heard.
    pub fn hear_all(&self) {
        self.heard_all.store(true, Ordering::SeqCst);
    }

    /// The pair shows no more bytes, and tells of no more events.
    pub fn show_all(&self) {
        self.shown_all.store(true, Ordering::SeqCst);
    }

    /// The display has something to write or keep.
    pub fn moves(&self) {
        let _ = self.moved.fetch_add(1, Ordering::SeqCst);
    }

    /// How often the display had something to write or keep.
    pub fn moved(&self) -> u64 {
        self.moved.load(Ordering::SeqCst)
    }

    /// Whether nothing more can come to the screen.
    pub fn is_over(&self) -> bool {
        self.heard_all.load(Ordering::SeqCst) && self.shown_all.load(Ordering::SeqCst)
    }

    /// That nothing more can come to the screen, once it is so.
    pub(crate) fn over(&self) -> Option<Over> {
        if self.is_over() {
            Some(Over { is_seen: true })
        } else {
            None
        }
    }
}

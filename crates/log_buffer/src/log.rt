//! What takes entries, one after another.
ghost use Rattle.std.specs.Prelude.{◌≡◌, None};
ghost use Rattle.log_buffer.specs.Logs.{Logging, keeps_nothing, room_answer};

use i8080_words::R;
use log_entry::Entry;

/// A log of entries, so that what records a guest's moves is proved for any log.
pub trait EntryLog: Drop {
    // What it does with an entry.
    ghost logging: { Logging Self };

    /// Whether `append` may be called: why it would take no entry.
    fn check_room(&self) -> R<()>
        ensures { result ≡ room_answer logging self.now };

    /// Appends an entry, and returns its index. Allocates no memory.
    fn append(&mut self, entry: Entry) -> u64
        requires { logging.refusal self.old ≡ None }
        ensures index { result ≡ logging.next self.old }
        ensures log { self.new ≡ logging.pushed self.old entry };
}

/// A log that keeps nothing, and is never full: that of a guest which runs with no backup.
#[derive(Drop)]
pub struct NoLog {}

impl EntryLog for NoLog {
    ghost logging = { keeps_nothing };

    fn check_room(&self) -> R<()> {
        Ok(())
    }

    fn append(&mut self, entry: Entry) -> u64 {
        let _ = entry;
        0
    }
}

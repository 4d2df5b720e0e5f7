//! Bytes that are added at the back and removed at the front.
ghost use Rattle.std.specs.Prelude.{◌≡◌, ◌≤◌, ◌++◌, [], length, drop, OnOk, OnErr, IfErr};
ghost use Rattle.i8080_words.specs.declared.refusal.Fault.TheVariants.{OutOfMemory};
ghost use Rattle.log_entry.specs.Spelling.{spelling};

use i8080_words::R;
use log_entry::Entry;
use std::alloc::Global;
use std::marker::Model;

/// The spellings of entries one after another. Taking from the front only moves a mark; the bytes before it are removed
/// once they are the greater part, so that each byte is moved about once.
#[derive(Drop)]
pub(crate) struct Block {
    bytes: Vec<u8>,
    start: usize,
}

impl Model for Block {
    ghost use Rattle.std.specs.Prelude.{ℕ, List, ◌*◌, ◌≤◌, length, drop};

    ghost Value = { List ℕ };

    ghost view = { λ b. drop b.start b.bytes.items };

    // What was taken is at most half of what is kept.
    ghost invariant = { λ b. 2 * b.start ≤ length b.bytes.items };
}

impl Block {
    /// No bytes.
    pub(crate) fn new(alloc: Global) -> Block
        ensures { result ≡ [] }
    {
        Block {
            bytes: Vec::new(alloc),
            start: 0,
        }
    }

    /// The bytes.
    pub(crate) fn as_slice(&self) -> &[u8]
        ensures { result.now ≡ self.now }
    {
        &self.bytes[self.start..]
    }

    /// Appends the spelling of an entry.
    #[tactic(auto, using(crate::proofs::Dropped::drop_longer))]
    pub(crate) fn write(&mut self, entry: &Entry) -> R<()>
        ensures ok { OnOk result (self.new ≡ self.old ++ spelling entry.now) }
        ensures err { OnErr result (self.new ≡ self.old) }
        ensures only_memory { IfErr result (λ fault. fault ≡ OutOfMemory) }
    {
        entry.write(&mut self.bytes)
    }

    /// Takes bytes from the front. Allocates no memory.
    #[tactic(auto, using(crate::proofs::Dropped::drop_twice))]
    pub(crate) fn remove_front(&mut self, count: usize)
        requires { count ≤ length self.old }
        ensures { self.new ≡ drop count self.old }
    {
        self.start += count;
        if self.start > self.bytes.len() / 2 {
            self.bytes.rotate_left(self.start);
            self.bytes.truncate(self.bytes.len() - self.start);
            self.start = 0;
        }
    }
}

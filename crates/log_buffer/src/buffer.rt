//! A ring of entries with consecutive indexes.
ghost use Rattle.std.specs.Prelude.{◌≡◌, ◌≤◌, [], length, IfOk, IfErr, option_copied};
ghost use Rattle.i8080_words.specs.declared.limits.TheConstants.{GREATEST_NUMBER};
ghost use Rattle.i8080_words.specs.declared.refusal.Fault.TheVariants.{OutOfMemory};
ghost use Rattle.log_buffer.specs.Log as table;
ghost use Rattle.log_buffer.specs.Logs as logs;

use crate::log::EntryLog;
use circular_buffer::HeapCircularBuffer;
use i8080_words::{Fault, GREATEST_NUMBER, R};
use log_entry::Entry;
use std::alloc::Global;
use std::marker::Model;

/// The most entries that are kept.
pub const CAPACITY: usize = 256;

/// The entries that are not acknowledged yet, in order of index, in a ring of `CAPACITY` places.
#[derive(Drop)]
pub struct LogBuffer {
    first: u64,
    entries: HeapCircularBuffer<Entry>,
}

impl Model for LogBuffer {
    ghost use Rattle.log_buffer.specs.Log.{Log};

    ghost Value = { Log };

    ghost use Rattle.log_buffer.specs.Buffer.{log_of, IsBuffer};

    ghost view = { log_of };

    ghost invariant = { IsBuffer };
}

impl LogBuffer {
    /// An empty log whose first entry will have this index. Allocates all the memory that the log will ever need.
    pub fn new(alloc: Global, first: u64) -> R<LogBuffer>
        requires { first ≤ GREATEST_NUMBER }
        ensures ok { IfOk result (λ log. log ≡ table.log first []) }
        ensures full { IfErr result (λ fault. fault ≡ OutOfMemory) }
    {
        let entries = HeapCircularBuffer::with_capacity(alloc, CAPACITY)?;
        Ok(LogBuffer { first, entries })
    }

    /// The index of the first entry that is kept, or `next` if none is.
    pub fn first(&self) -> u64
        ensures { result ≡ self.now.first }
    {
        self.first
    }

    /// The index that the next entry will have, at most `GREATEST_NUMBER`, which no entry has.
    pub fn next(&self) -> u64
        ensures { result ≡ table.next_of self.now }
    {
        self.first + self.entries.len() as u64
    }

    /// How many entries are kept, at most `CAPACITY`.
    pub fn len(&self) -> usize
        ensures { result ≡ length self.now.entries }
    {
        self.entries.len()
    }

    /// Every log is within its limits.
    pub fn stands(&self)
        ensures { table.IsWithinLimits self.now }
    {
        let _ = &self.first;
    }

    /// Whether `push` would append an entry: `LogFull` if `CAPACITY` entries are kept, otherwise `Spent` if `next` is
    /// at `GREATEST_NUMBER`.
    pub fn room(&self) -> R<()>
        ensures { result ≡ logs.room_answer table.kept self.now }
    {
        if self.entries.len() == CAPACITY {
            return Err(Fault::LogFull);
        }
        if self.next() == GREATEST_NUMBER {
            return Err(Fault::Spent);
        }
        Ok(())
    }

    /// Appends an entry, and returns its index. Allocates no memory, and is refused as `room` is.
    pub fn push(&mut self, entry: Entry) -> R<u64>
        ensures answer { result ≡ logs.push_answer table.kept self.old }
        ensures after { self.new ≡ table.after_push self.old entry }
    {
        self.room()?;
        let index = self.next();
        match self.entries.try_push_back(entry) {
            Ok(()) => Ok(index),
            Err(_) => unreachable!(),
        }
    }

    /// The entry of this index, if it is kept.
    pub fn get(&self, index: u64) -> Option<&Entry>
        ensures { option_copied result ≡ table.kept_at self.now index }
    {
        if index < self.first {
            return None;
        }
        self.entries.get((index - self.first) as usize)
    }

    /// Drops the entries below this index.
    pub fn drop_to(&mut self, index: u64)
        requires { index ≤ table.next_of self.old }
        ensures { self.new ≡ table.dropped_to self.old index }
    {
        if index <= self.first {
            return;
        }
        let count = (index - self.first) as usize;
        self.entries.truncate_front(self.entries.len() - count);
        self.first = index;
    }
}

impl EntryLog for LogBuffer {
    ghost logging = { table.kept };

    fn check_room(&self) -> R<()> {
        self.room()
    }

    fn append(&mut self, entry: Entry) -> u64 {
        match self.push(entry) {
            Ok(index) => index,
            Err(_) => unreachable!(),
        }
    }
}

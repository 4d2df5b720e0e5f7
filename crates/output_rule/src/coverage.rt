//! Which operations may be released, and how many keys the backup is known to have.
ghost use Rattle.std.specs.Prelude.{◌≡◌, ◌<◌, ◌≤◌, ◌↔◌, ℕ, IsTrue, length, slice_index, None};
ghost use Rattle.i8080_words.specs.declared.limits.TheConstants.{GREATEST_NUMBER};
ghost use Rattle.event_callbacks.specs.Operations.{id_of};
ghost use Rattle.event_callbacks.specs.declared.devices.TheConstants.{PORTS};
ghost use Rattle.log_buffer.specs.Log.{next_of};
ghost use Rattle.output_rule.specs.Covering as table;
ghost use Rattle.output_rule.specs.Notes.{note_in};

use crate::keys::with_keys;
use crate::notes::{self, Note, PLACES};
use arrayvec::ArrayVec;
use event_callbacks::{OpId, Operation, PORTS};
use i8080_words::{Fault, R};
use log_buffer::LogBuffer;
use std::marker::Model;

/// Knows the index in the log of each outstanding operation, how far the log is acknowledged and replayed, and how many
/// keys of each port are covered. None of its calls allocates memory.
#[derive(Drop)]
pub struct Coverage {
    acknowledged: u64,
    reported: u64,
    last_read: u64,
    all: bool,
    keys: [u64; PORTS],
    notes: ArrayVec<Note, PLACES>,
}

impl Model for Coverage {
    ghost use Rattle.output_rule.specs.Covering.{Covering};

    ghost Value = { Covering };

    ghost use Rattle.output_rule.specs.Coverage.{covering_of, IsCoverage};

    ghost view = { covering_of };

    ghost invariant = { IsCoverage };
}

impl Coverage {
    /// No entry is acknowledged yet, no operation has a note, and the image has this many keys of each port.
    pub fn new(keys: [u64; PORTS]) -> Coverage
        requires { (port : ℕ) → slice_index keys port ≤ GREATEST_NUMBER }
        ensures { result ≡ table.nothing_acknowledged keys }
    {
        Coverage {
            acknowledged: 0,
            reported: 0,
            last_read: 0,
            all: false,
            keys,
            notes: ArrayVec::new(),
        }
    }

    /// Notes that the operation's mark is the log entry `index`. A write also waits until every read before it is
    /// replayed.
    pub fn note(&mut self, id: OpId, index: u64)
        requires room { length self.old.notes < PLACES }
        requires new { note_in self.old.notes id ≡ None }
        ensures { self.new ≡ table.after_note self.old id index }
    {
        let after = self.waits_for(id);
        self.notes.push(Note { id, index, after });
    }

    /// Whether there is room for one more note.
    pub fn has_room(&self) -> bool
        ensures { IsTrue result ↔ length self.now.notes < PLACES }
    {
        self.notes.len() < PLACES
    }

    /// Notes that the log entry `index` is a sector that the backup reads from the shared disk.
    pub fn read(&mut self, index: u64)
        requires { index < GREATEST_NUMBER }
        ensures { self.new ≡ table.after_read self.old index }
    {
        self.last_read = index + 1;
    }

    /// Forgets an operation that is no longer outstanding. Changes nothing if it had no note.
    pub fn forget(&mut self, id: OpId)
        ensures { self.new ≡ table.after_forget self.old id }
    {
        notes::remove_note(&mut self.notes, id);
    }

    /// The backup holds the entries below `held` and has replayed those below `replayed`, or was known to hold or to
    /// have replayed more. Called before the log drops them. After `all` it leaves the numbers of keys unchanged.
    pub fn acknowledge(&mut self, log: &LogBuffer, held: u64, replayed: u64)
        requires first { log.now.first ≤ self.old.acknowledged }
        requires next { held ≤ next_of log.now }
        ensures { self.new ≡ table.after_acknowledge self.old log.now held replayed }
    {
        log.stands();
        if held > self.acknowledged {
            if !self.all {
                self.keys = with_keys(self.keys, log, self.acknowledged, held);
            }
            self.acknowledged = held;
        }
        self.reported = self.reported.max(replayed);
    }

    /// Nothing waits for a backup any longer: whatever was done and will be done is covered, and this many keys of each
    /// port.
    pub fn all(&mut self, keys: [u64; PORTS])
        requires { (port : ℕ) → slice_index keys port ≤ GREATEST_NUMBER }
        ensures { self.new ≡ table.after_all self.old keys }
    {
        self.all = true;
        self.keys = keys;
    }

    /// Whether what is at an index of the log is covered: it is acknowledged, and if a write is noted there, the reads
    /// before it are replayed. What has no index was part of the image, and is covered.
    pub fn covered(&self, index: Option<u64>) -> bool
        ensures { result ≡ table.is_covered self.now index }
    {
        match index {
            None => true,
            Some(index) => self.covers(index, notes::after_at(&self.notes, index)),
        }
    }

    // How many entries the backup must have replayed for an operation that is given now: a byte waits for none.
    fn waits_for(&self, id: OpId) -> u64
        ensures { result ≡ table.last_read_for self.now id }
    {
        match id {
            OpId::Byte(..) => 0,
            OpId::Write(_) => self.last_read,
        }
    }

    // Whether what waits for the entry of this index to be acknowledged, and for this many to be replayed, is covered.
    fn covers(&self, index: u64, after: u64) -> bool
        ensures { result ≡ table.covers self.now index after }
    {
        self.all || index < self.acknowledged && after <= self.reported
    }

    /// Whether an outstanding operation may be released: `NotCovered` if it may not yet.
    pub fn release(&self, operation: &Operation) -> R<()>
        ensures { result ≡ table.release_answer self.now (id_of operation.now) }
    {
        match notes::note_of(&self.notes, operation.id()) {
            Some(note) if !self.covers(note.index, note.after) => Err(Fault::NotCovered),
            _ => Ok(()),
        }
    }

    /// How many keys of a port are covered: those of the image and of the acknowledged entries, or those
    /// given to `all`.
    pub fn told(&self, port: u8) -> u64
        requires { port < PORTS }
        ensures { result ≡ slice_index self.now.keys port }
    {
        self.keys[port as usize]
    }

    /// Every coverage is within its limits, and has at most one note for each operation.
    pub fn stands(&self)
        ensures { table.IsCovering self.now }
    {
        let _ = &self.acknowledged;
    }
}

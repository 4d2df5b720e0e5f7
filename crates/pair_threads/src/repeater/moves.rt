//! How a backup's guest repeats the entries of its list.
ghost use Rattle.std.specs.Prelude.{◌≡◌, ◌⊎◌, ◌↔◌, ◌<◌, ◌++◌, [], ◌∷◌, length, vec_len, vec_capacity, IfErr, IsTrue, OnOk};
ghost use Rattle.i8080_words.specs.declared.refusal.Fault.TheVariants.{OutOfMemory, Stalled};
ghost use Rattle.pair_threads.specs.Repeating.{FollowsFor, GoesOn, IsAt, IsStuck, has_all, is_far_behind};

use super::Repeater;
use guest_lockstep::Lockstep;
use i8080_words::{Fault, R};
use log_entry::Entry;
use replayer::{Followed, follow};
use std::alloc::Global;

// How many steps a guest may have to make up to the last entry of its list: about those of a twentieth of a second. With more to make it
// takes no packet (VMware FT, section 3.2.2).
const MOST_BEHIND: u64 = 10_000_000;

impl<B: Lockstep> Repeater<B> {
    /// A guest at boot, with an empty list.
    pub(crate) fn new(alloc: Global, board: B) -> Repeater<B>
        ensures board { result.board ≡ board }
        ensures list { result.list.items ≡ [] }
        ensures at { IsAt B.state B.machine (B.state board) result }
    {
        Repeater {
            list: Vec::new(alloc),
            board,
            replayed: 0,
        }
    }

    /// Whether it has repeated the whole list.
    pub(crate) fn has_replayed_all(&self) -> bool
        ensures all { IsTrue result ↔ (self.now.replayed ≡ length self.now.list.items) }
        ensures is { result ≡ has_all self.now }
    {
        self.replayed == self.list.len()
    }

    /// Whether its guest has to make so many steps up to the last entry that it takes no further one. The primary's log fills up
    /// meanwhile, and its output waits, so it slows down.
    pub(crate) fn is_far_behind(&self) -> bool
        ensures { result ≡ is_far_behind B.state B.machine self.now }
    {
        if self.has_replayed_all() {
            return false;
        }
        let last = &self.list[self.list.len() - 1];
        last.count().saturating_sub(self.board.count()) > MOST_BEHIND
    }

    /// An entry arrives.
    pub(crate) fn hear(&mut self, entry: Entry)
        requires room { vec_len self.old.list < vec_capacity self.old.list }
        ensures list { self.new.list.items ≡ self.old.list.items ++ entry ∷ [] }
        ensures goes_on { GoesOn B.state B.machine self.old self.new }
    {
        self.list.push_reserved(entry);
    }

    /// Makes at most `steps` steps towards the next entry, or that entry's move. `Stalled` if it cannot.
    pub(crate) fn replay(&mut self, steps: u64) -> R<()>
        ensures list { self.new.list ≡ self.old.list }
        ensures goes_on { OnOk result (GoesOn B.state B.machine self.old self.new) }
        ensures steps { OnOk result (FollowsFor B.state B.machine steps self.old self.new) }
        ensures refused { IfErr result (λ fault. (fault ≡ OutOfMemory)
            ⊎ ((fault ≡ Stalled) × IsStuck B.state B.machine self.old)) }
    {
        if self.replayed >= self.list.len() {
            return Ok(());
        }
        let entry = self.list[self.replayed];
        match follow(&mut self.board, &entry, steps) {
            Ok(Followed::Stepped(_)) => Ok(()),
            Ok(Followed::Done) => {
                self.replayed += 1;
                Ok(())
            }
            Err(Fault::OutOfMemory) => Err(Fault::OutOfMemory),
            Ok(Followed::Differs) | Err(_) => Err(Fault::Stalled),
        }
    }
}

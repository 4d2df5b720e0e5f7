//! The arbiter.
ghost use Rattle.std.specs.Prelude.{◌≡◌, ◌≢◌, [], Err, OnOk, OnErr};
ghost use Rattle.i8080_words.specs.declared.refusal.Fault.TheVariants.{OutOfMemory};
ghost use Rattle.arbiter_core.specs.Winners as table;

use i8080_words::{Fault, R};
use std::alloc::Global;
use std::marker::Model;

/// This node asks for this generation.
#[derive(Clone, Copy, PartialEq, Eq)]
pub struct Asking {
    pub generation: u32,
    pub node: u64,
}

/// The answer to a node that has won.
#[derive(Clone, Copy, PartialEq, Eq)]
pub struct Won;

/// The test-and-set that decides which node of a generation goes live (VMware FT, OSR 44(4), 2010, section 2.3).
#[derive(Drop)]
pub struct Arbiter {
    winners: Vec<Asking>,
}

impl Model for Arbiter {
    ghost use Rattle.std.specs.Prelude.{List};
    ghost use Rattle.arbiter_core.specs.declared.arbiter.Asking.{Asking};

    ghost Value = { List Asking };

    ghost view = { λ a. a.winners.items };
}

impl Arbiter {
    /// An arbiter that nobody has asked yet.
    pub fn new(alloc: Global) -> Arbiter
        ensures { result ≡ [] }
    {
        Arbiter {
            winners: Vec::new(alloc),
        }
    }

    /// A node asks for a generation: whoever asks first has won it, and gets the same answer if it asks again. `Lost` for
    /// every other node. `OutOfMemory` is returned only to the first that asks, and then it has not asked.
    #[tactic(auto, using(crate::proofs::FirstAskers::first_wins, crate::proofs::FirstAskers::later_lose))]
    pub fn test_and_set(&mut self, generation: u32, node: u64) -> R<Won>
        ensures answer { table.IsAnswer (table.winner_of self.old generation) node result }
        ensures ok { OnOk result (self.new ≡ table.after_asking self.old generation node) }
        ensures err { OnErr result (self.new ≡ self.old) }
        ensures asked { result ≢ Err OutOfMemory → table.GoesOn self.old generation node self.new }
    {
        match self.winner(generation) {
            Some(winner) if winner == node => Ok(Won),
            Some(_) => Err(Fault::Lost),
            None => {
                self.winners.push(Asking { generation, node })?;
                Ok(Won)
            }
        }
    }

    /// The node that has won a generation; it never changes.
    pub fn winner(&self, generation: u32) -> Option<u64>
        ensures { result ≡ table.winner_of self.now generation }
    {
        let asking = self
            .winners
            .iter()
            .find(|asking| asking.generation == generation)?;
        Some(asking.node)
    }
}

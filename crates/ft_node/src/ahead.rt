//! How far a primary is, and a backup that runs ahead of the entries that it holds.
ghost use Rattle.std.specs.Prelude.{◌≡◌, ℕ, OnErr, OnOk};
ghost use Rattle.pair_protocol.specs.Copying.{Copying};
ghost use Rattle.pair_protocol.specs.Node as protocol;
ghost use Rattle.ft_node.specs.Ahead.{Leads, RunsAhead};
ghost use Rattle.ft_node.specs.AnyNode.{IsNode, PagesStay};

use crate::node::Node;
use crate::ran::Lead;
use clone_state::Copies;
use guest_lockstep::Stopped;
use i8080_words::{Fault, R};

impl<B: Copies<H> + Drop, H: Drop> Node<B, H> {
    /// How far a primary is, for its backup to run ahead.
    pub fn lead(&self) -> R<Lead>
        ensures { (C : Copying B.State) (drives : ℕ) (x : protocol.Node B.State) → IsNode B.state B.machine C drives self.now x
            → Leads B.machine x result }
    {
        match self {
            Node::Primary(primary) => Ok(primary.lead()),
            _ => Err(Fault::WrongRole),
        }
    }

    /// Makes at most `turns` steps of a backup past the last entry that it holds, up to where its primary was, and stops after
    /// the first that gives an operation. Makes none while it has an entry to replay, or lacks one that its primary had.
    pub fn run_ahead(&mut self, lead: Lead, turns: u64) -> R<Stopped>
        ensures answer { (C : Copying B.State) (drives : ℕ) (x : protocol.Node B.State) → IsNode B.state B.machine C drives self.old x
            → RunsAhead B.machine lead turns x result (IsNode B.state B.machine C drives self.new) }
        ensures pages { OnOk result (PagesStay B.stale self.old self.new) }
        ensures unchanged { OnErr result (self.new ≡ self.old) }
    {
        match self {
            Node::Backup(backup) => Ok(backup.run_ahead(lead, turns)),
            _ => Err(Fault::WrongRole),
        }
    }
}

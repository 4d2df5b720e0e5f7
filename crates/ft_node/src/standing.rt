//! How far a node is with the log of its generation.
ghost use Rattle.std.specs.Prelude.{◌≡◌, ℕ};
ghost use Rattle.pair_protocol.specs.Copying.{Copying};
ghost use Rattle.pair_protocol.specs.Node as protocol;
ghost use Rattle.ft_node.specs.AnyNode.{IsNode};
ghost use Rattle.ft_node.specs.Roles.{IsFollower};
ghost use Rattle.ft_node.specs.Standings.{held_by, shown_standing};

use crate::node::Node;
use crate::ran::Standing;
use clone_state::Copies;
use i8080_words::R;
use log_channel::Receiver;

impl<B: Copies<H> + Drop, H: Drop> Node<B, H> {
    /// How far a primary is with its log, or a backup or a draining node with what it holds; none at any other node.
    pub fn standing(&self) -> Option<Standing>
        ensures { (C : Copying B.State) (drives : ℕ) (x : protocol.Node B.State) → IsNode B.state B.machine C drives self.now x
            → result ≡ shown_standing x }
    {
        match self {
            Node::Primary(primary) => Some(primary.standing()),
            Node::Backup(backup) => Some(standing_in(&backup.receiver)),
            Node::Draining(winner) => Some(standing_in(winner.draining.receiver())),
            _ => None,
        }
    }
}

// How far a node is with what it holds.
fn standing_in(receiver: &Receiver) -> Standing
    ensures { result ≡ held_by receiver.now }
{
    Standing {
        entries: receiver.held(),
        done: receiver.popped(),
    }
}

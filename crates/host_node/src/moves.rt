//! The moves of a host's machine.
ghost use Rattle.host_node.specs.Goes.{Goes};
ghost use Rattle.host_node.specs.Guests.{HasWriteFrom, HasWrites, IsPolling, KeepsKey, keeps_at, number_from};
ghost use Rattle.std.specs.Prelude.{◌≡◌};

use crate::host::{HostNode, Hosted};
use board_image::{KeyRoom, OutstandingWrites};
use clone_state::Copies;
use disk_dcdd::Place;
use ft_node::{Drained, Lead, Ran};
use guest_lockstep::Stopped;
use i8080_words::{Fault, R};
use replayer::Replayed;

impl<B: Copies<H> + Drop, H: Drop> HostNode<B, H> {
    /// Makes at most `turns` steps of a live node's machine, as the node's `step`. `WrongRole` if the host has no node.
    #[tactic(auto, using(crate::proofs::Stepping::steps, crate::proofs::Going::stays))]
    pub fn step(&mut self, turns: u64) -> R<Ran>
        ensures { Goes B.state B.machine B.copied self.old self.new }
    {
        let Hosted::Node(node) = &mut self.node else {
            return Err(Fault::WrongRole);
        };
        node.step(turns)
    }

    /// Makes at most `turns` moves of a backup, as the node's `replay`.
    #[tactic(auto, using(crate::proofs::Stepping::replays, crate::proofs::Going::stays))]
    pub fn replay(&mut self, turns: u64) -> R<Replayed>
        ensures { Goes B.state B.machine B.copied self.old self.new }
    {
        let Hosted::Node(node) = &mut self.node else {
            return Err(Fault::WrongRole);
        };
        node.replay(turns)
    }

    /// Makes at most `turns` steps of a backup past the last entry that it holds, as the node's `run_ahead`.
    #[tactic(auto, using(crate::proofs::Stepping::runs_ahead, crate::proofs::Going::stays))]
    pub fn run_ahead(&mut self, lead: Lead, turns: u64) -> R<Stopped>
        ensures { Goes B.state B.machine B.copied self.old self.new }
    {
        let Hosted::Node(node) = &mut self.node else {
            return Err(Fault::WrongRole);
        };
        node.run_ahead(lead, turns)
    }

    /// Makes at most `turns` moves of a node that won, as the node's `drain`.
    #[tactic(auto, using(crate::proofs::Stepping::drains, crate::proofs::Going::stays))]
    pub fn drain(&mut self, turns: u64) -> R<Drained>
        ensures { Goes B.state B.machine B.copied self.old self.new }
    {
        let Hosted::Node(node) = &mut self.node else {
            return Err(Fault::WrongRole);
        };
        node.drain(turns)
    }

    /// Copies at most `pages` stale pages of a node that is alone. Returns how many are still stale.
    #[tactic(auto, using(crate::proofs::Stepping::freshens, crate::proofs::Going::stays))]
    pub fn freshen(&mut self, pages: u64) -> R<u64>
        ensures { Goes B.state B.machine B.copied self.old self.new }
    {
        let Hosted::Node(node) = &mut self.node else {
            return Err(Fault::WrongRole);
        };
        node.freshen(self.alloc, pages)
    }

    /// Takes the first key of a port that waits. Returns false if none waits, or if the node does not take it now; a key that
    /// the guest has taken before is forgotten.
    #[tactic(auto, using(crate::proofs::Taking::key, crate::proofs::Going::stays, crate::proofs::Going::looked))]
    pub fn take_key(&mut self, port: u8) -> R<bool>
        ensures { Goes B.state B.machine B.copied self.old self.new }
    {
        let Some(key) = self.mail.first_key(port) else {
            return Ok(false);
        };
        let Hosted::Node(node) = &mut self.node else {
            return Err(Fault::WrongRole);
        };
        if usize::from(key.port) >= event_callbacks::PORTS {
            return Ok(false);
        }
        match node.key(key.port, key.index, key.byte) {
            Ok(()) => {
                self.mail.drop_key(port);
                Ok(true)
            }
            Err(Fault::WrongNumber) => {
                self.mail.drop_key(port);
                Ok(false)
            }
            Err(_) => Ok(false),
        }
    }
}

impl<B: Copies<H> + KeyRoom + OutstandingWrites + Drop, H: Drop> HostNode<B, H> {
    /// Whether a key that came to this port now would be kept by the guest of its node; false if it has none.
    #[tactic(auto, using(crate::proofs::Looking::says, crate::proofs::Looking::says_nothing))]
    pub fn keeps_key(&self, port: u8) -> bool
        ensures { KeepsKey B.state B.machine B.keeps_key self.now.node port result }
    {
        match self.guest() {
            Some(guest) => keeps_at(guest, port),
            None => false,
        }
    }

    /// Whether the guest of its node polls; false if it has none.
    #[tactic(auto, using(crate::proofs::Looking::polls, crate::proofs::Looking::polls_none))]
    pub fn is_polling(&self) -> bool
        ensures { IsPolling B.state B.machine B.polls self.now.node result }
    {
        match self.guest() {
            Some(guest) => guest.is_polling(),
            None => false,
        }
    }

    /// How many writes of the guest of its node are outstanding; 0 if it has no guest.
    #[tactic(auto, using(crate::proofs::Looking::says, crate::proofs::Looking::says_nothing))]
    pub fn writes(&self) -> u64
        ensures { HasWrites B.state B.machine B.OutstandingWrites.writes self.now.node result }
    {
        match self.guest() {
            Some(guest) => guest.outstanding_writes().len() as u64,
            None => 0,
        }
    }

    /// The number of the first outstanding write from this number on; none if there is none, or if the host has no guest.
    #[tactic(auto, using(crate::proofs::Looking::says, crate::proofs::Looking::says_nothing))]
    pub fn write_from(&self, from: u64) -> Option<u64>
        ensures { HasWriteFrom B.state B.machine B.OutstandingWrites.writes self.now.node from result }
    {
        match self.guest() {
            Some(guest) => number_from(guest.outstanding_writes(), from),
            None => None,
        }
    }
}

// Whether a guest would keep a key that came to this port now; false if it has no such port.
fn keeps_at<G: KeyRoom>(guest: &G, port: u8) -> bool
    ensures { result ≡ keeps_at (G.keeps_key guest.now) port }
{
    if usize::from(port) >= event_callbacks::PORTS {
        return false;
    }
    guest.keeps_key(port)
}

// The number of the first write from this number on.
fn number_from(writes: &[Place], from: u64) -> Option<u64>
    ensures { result ≡ number_from writes.now from }
{
    let write = writes.iter().find(|write| from <= write.number)?;
    Some(write.number)
}

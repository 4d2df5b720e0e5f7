//! The arbiter's answers, and the generations that begin.
ghost use Rattle.std.specs.Prelude.{IsTrue};
ghost use Rattle.host_frames.specs.Frames.{Tells};
ghost use Rattle.host_frames.specs.declared.frame.Notice.TheVariants as notice;
ghost use Rattle.host_node.specs.Goes.{Goes};
ghost use Rattle.host_node.specs.Mail.{IsFrom};
ghost use Rattle.host_node.specs.Roles.{MayAsk};

use crate::early::is_ready;
use crate::heard::FrameOutcome;
use crate::host::{HostNode, Hosted};
use arbiter_core::Arbiter;
use clone_state::{Assembly, Copies};
use disk_dcdd::DRIVES;
use ft_node::Node;
use guest_lockstep::Reads;
use host_frames::{Frame, Notice};
use i8080_words::{Fault, R};
use pair_events::Role;
use std::mem;

impl<B: Copies<H> + Drop, H: Drop> HostNode<B, H> {
    // The node has won its generation, if that was asked. It asks an arbiter of its own, whom nobody else asks.
    #[tactic(auto, using(crate::proofs::Asked::wins, crate::proofs::Asked::never_lost, crate::proofs::Going::stays, crate::proofs::Going::looked))]
    pub(crate) fn win(&mut self, generation: u32) -> R<FrameOutcome>
        requires { IsFrom self.old.mail.came (Tells (notice.Won generation)) }
        ensures { Goes B.state B.machine B.copied self.old self.new }
    {
        let Hosted::Node(node) = &mut self.node else {
            return Ok(FrameOutcome::Nothing);
        };
        if !self.is_waiting || node.generation() != generation || !may_ask(node.role()) {
            return Ok(FrameOutcome::Nothing);
        }
        let mut arbiter = Arbiter::new(self.alloc);
        match node.suspect(u64::from(self.number), &mut arbiter) {
            Ok(_) => {
                self.is_waiting = false;
                self.mail.forget_keys();
                Ok(FrameOutcome::Won)
            }
            Err(Fault::Lost) => {
                self.node = Hosted::Halted;
                Ok(FrameOutcome::Lost)
            }
            Err(fault) => Err(fault),
        }
    }

    // Another host has won the node's generation: the node halts, and is kept no longer.
    #[tactic(auto, using(crate::proofs::Asked::loses, crate::proofs::Going::stays))]
    pub(crate) fn lose(&mut self, generation: u32) -> R<FrameOutcome>
        requires { IsFrom self.old.mail.came (Tells (notice.Lost generation)) }
        ensures { Goes B.state B.machine B.copied self.old self.new }
    {
        let Hosted::Node(node) = &mut self.node else {
            return Ok(FrameOutcome::Nothing);
        };
        if node.generation() != generation {
            return Ok(FrameOutcome::Nothing);
        }
        node.stop()?;
        self.node = Hosted::Halted;
        self.early = None;
        Ok(FrameOutcome::Lost)
    }

    // A node that is alone begins this generation with the host at that place, once a copy has gone there early.
    #[tactic(auto, using(crate::proofs::Begun::begins, crate::proofs::Going::stays, crate::proofs::Going::looked))]
    pub(crate) fn begin(&mut self, generation: u32, host: u8) -> R<FrameOutcome>
        requires { IsFrom self.old.mail.came (Tells (notice.Begin generation host)) }
        ensures { Goes B.state B.machine B.copied self.old self.new }
    {
        let Hosted::Node(node) = &mut self.node else {
            return Ok(FrameOutcome::Nothing);
        };
        let Role::Alone = node.role() else {
            return Ok(FrameOutcome::Nothing);
        };
        let before = node.generation();
        if before == u32::MAX || before + 1 != generation {
            return Ok(FrameOutcome::Nothing);
        }
        if !is_ready(&self.early, generation, host) {
            return Ok(FrameOutcome::Asked { generation, host });
        }
        if !self.mail.has_room() {
            return Ok(FrameOutcome::Nothing);
        }
        let join = Frame::Notice(Notice::Join {
            generation,
            host,
            drives: self.drives,
            count: node.count(),
        });
        let bytes = host_frames::spelled(self.alloc, &join)?;
        node.begin(self.alloc)?;
        self.mail.say_bytes(bytes);
        self.peer = host;
        self.early = None;
        Ok(FrameOutcome::Begun)
    }

    // A spare joins the generation that is to be its number, with the host at that place as its primary.
    #[tactic(auto, using(crate::proofs::Begun::joins_it, crate::proofs::Going::stays))]
    pub(crate) fn join(
        &mut self,
        generation: u32,
        host: u8,
        drives: u8,
        count: u64,
    ) -> R<FrameOutcome>
        requires { IsFrom self.old.mail.came (Tells (notice.Join generation host drives count)) }
        ensures { Goes B.state B.machine B.copied self.old self.new }
    {
        if generation == 0 || drives == 0 || usize::from(drives) > DRIVES {
            return Ok(FrameOutcome::Malformed);
        }
        if drives != self.drives {
            return Ok(FrameOutcome::Nothing);
        }
        let assembly = Assembly::new(self.alloc, generation, drives)?;
        match mem::replace(&mut self.node, Hosted::Halted) {
            Hosted::Spare(callbacks) => {
                let node = Node::joining(assembly, callbacks, generation, count, Reads::Shared);
                self.node = Hosted::Node(node);
                self.number = generation;
                self.peer = host;
                Ok(FrameOutcome::Joined)
            }
            other => {
                self.node = other;
                Ok(FrameOutcome::Nothing)
            }
        }
    }
}

/// Whether a node in this role may ask the arbiter.
pub(crate) fn may_ask(role: Role) -> bool
    ensures { IsTrue result → MayAsk role }
{
    match role {
        Role::Primary | Role::Backup => true,
        Role::Joining | Role::Draining | Role::Alone | Role::Halted => false,
    }
}

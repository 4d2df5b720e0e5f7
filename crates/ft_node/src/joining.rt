//! A node that is given the copy of a machine.
ghost use Rattle.std.specs.Prelude.{◌≡◌, ◌<◌};
ghost use Rattle.clone_state.specs.Assembly.{after_part, is_whole, part_answer};
ghost use Rattle.ft_node.specs.Joined.{Joined};
ghost use Rattle.ft_node.specs.AnyNode.{Becomes};

use crate::backup::Backup;
use crate::node::Node;
use crate::ran::PartCame;
use clone_state::{Assembly, Copies};
use guest_lockstep::Reads;
use i8080_words::R;
use log_channel::Receiver;
use replayer::Replayer;
use std::alloc::Global;
use std::marker::Model;

/// The parts of a machine's image that arrived, the stored closures that the machine will have here, how many steps it
/// had made when its image was made, and how the log of its generation carries sectors.
#[derive(Drop)]
pub struct Joining<H> {
    assembly: Assembly,
    callbacks: H,
    generation: u32,
    count: u64,
    reads: Reads,
}

impl<H> Model for Joining<H> {
    ghost use Rattle.std.specs.Prelude.{◌≡◌, ◌<◌};
    ghost use Rattle.ft_node.specs.Joined.{Joined};

    ghost Value = { Joined };

    ghost view = { λ j. record { gathering = j.assembly; count = j.count; reads = j.reads } };

    ghost invariant = { λ j. (0 < j.generation) × (j.assembly.generation ≡ j.generation) };
}

impl<H: Drop> Joining<H> {
    /// A node that joins in this generation, to be given the copy of a machine that has made `count` steps.
    pub(crate) fn new(
        assembly: Assembly,
        callbacks: H,
        generation: u32,
        count: u64,
        reads: Reads,
    ) -> Joining<H>
        requires first { 0 < generation }
        requires generation { assembly.generation ≡ generation }
        ensures { result ≡ record { gathering = assembly; count = count; reads = reads } }
    {
        Joining {
            assembly,
            callbacks,
            generation,
            count,
            reads,
        }
    }

    /// The generation, at least 1.
    pub(crate) fn generation(&self) -> u32
        ensures value { result ≡ self.now.gathering.generation }
        ensures first { 0 < result }
    {
        self.generation
    }

    /// How many steps the machine that is copied had made.
    pub(crate) fn count(&self) -> u64
        ensures { result ≡ self.now.count }
    {
        self.count
    }

    /// A part arrives; returns whether it is new. A repeat and a refusal change nothing.
    pub(crate) fn gather(&mut self, bytes: &[u8]) -> R<bool>
        ensures answer { result ≡ part_answer self.old.gathering bytes.now }
        ensures after { self.new ≡ record self.old { gathering = after_part self.old.gathering bytes.now } }
    {
        self.assembly.part(bytes)
    }

    /// Whether every part has arrived.
    pub(crate) fn is_whole(&self) -> bool
        ensures { result ≡ is_whole self.now.gathering }
    {
        self.assembly.whole().is_ok()
    }

    /// The backup that the node becomes with the last part, which the bytes spell. If no machine is made, the part is
    /// taken back.
    pub(crate) fn become_backup<B: Copies<H> + Drop>(
        self,
        alloc: Global,
        bytes: &[u8],
    ) -> (R<PartCame>, Node<B, H>)
        ensures { Becomes B.copied bytes.now self result.0 result.1 }
    {
        let Joining {
            assembly,
            callbacks,
            generation,
            count,
            reads,
        } = self;
        match B::assembled(alloc, assembly, callbacks) {
            Ok(board) => {
                let backup = Backup {
                    replayer: Replayer::new(board),
                    receiver: Receiver::new(alloc, generation),
                    reads,
                };
                (Ok(PartCame::Whole), Node::Backup(backup))
            }
            Err((mut assembly, callbacks, fault)) => {
                assembly.forget(bytes);
                let joining = Joining::new(assembly, callbacks, generation, count, reads);
                (Err(fault), Node::Joining(joining))
            }
        }
    }
}

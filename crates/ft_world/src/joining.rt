//! What happens at a station when a generation begins with a copied machine: a node begins it, another joins it.
ghost use Rattle.std.specs.Prelude.{◌≡◌, ◌<◌, ◌≤◌, ℕ, None, length, IfErr, IfOk, OnErr, OnOk};
ghost use Rattle.clone_state.specs.Copies.{CopiesAs};
ghost use Rattle.clone_state.specs.Parts.{message_at};
ghost use Rattle.disk_dcdd.specs.declared.controller.TheConstants.{DRIVES};
ghost use Rattle.i8080_words.specs.declared.refusal.Fault.TheVariants.{OutOfMemory};
ghost use Rattle.pair_protocol.specs.Copying.{Copying};
ghost use Rattle.pair_protocol.specs.Node as protocol;
ghost use Rattle.pair_protocol.specs.Refusals as refusals;
ghost use Rattle.ft_node.specs.Calls as calls;
ghost use Rattle.ft_node.specs.AnyNode.{PagesStay, alone_board};
ghost use Rattle.ft_world.specs.Opening.{IsJoined, IsOpening, Opens};
ghost use Rattle.ft_world.specs.Shows.{IsStation};

use crate::input_list::Inputs;
use crate::opening::Opening;
use crate::station::Station;
use clone_state::{Assembly, Copies};
use ft_node::{NextGeneration, Node, PartCame};
use i8080_words::R;
use std::alloc::Global;

impl<B: Copies<H> + Drop, H: Drop> Station<B, H> {
    /// An alone node begins the next generation as its primary. Returns what the joining host is given.
    pub(crate) fn begin(&mut self, alloc: Global) -> R<Opening>
        ensures answer { (C : Copying B.State) (drives : ℕ) (x : protocol.Node B.State)
            → CopiesAs B.state B.copied drives C.parts C.part_count C.assemble
            → (x.role ≡ protocol.Alone → calls.HasTakenKeys B.machine x)
            → (x.role ≡ protocol.Alone → length (C.parts x.machine) ≡ C.part_count)
            → IsStation B.state B.machine C drives self.old x
            → calls.Call (refusals.begin_pair_refusal x) calls.Ever
            (λ opening. Opens B.machine drives opening self.old.inputs self.old.count) x result
            (IsStation B.state B.machine C drives self.new) }
        ensures pages { OnOk result (PagesStay B.stale self.old.node self.new.node) }
        ensures unchanged { OnErr result (self.new ≡ self.old) }
    {
        let next = self.node.next_generation()?;
        let opening = opened(alloc, next, &self.inputs, self.count)?;
        self.node.begin(alloc)?;
        Ok(opening)
    }

    /// The station of a node that joins a generation, with no part of the image yet.
    pub(crate) fn joining(opening: Opening, resources: H) -> Station<B, H>
        ensures joined { IsJoined B.state B.machine opening result }
        ensures pages { alone_board result.node ≡ None }
    {
        let Opening {
            generation,
            assembly,
            inputs,
            count,
            reads,
        } = opening;
        Station {
            node: Node::joining(assembly, resources, generation, count, reads),
            inputs,
            count,
        }
    }

    /// A joining node takes a part of the image; with the last one that was missing it is the backup.
    pub(crate) fn part(&mut self, alloc: Global, bytes: &[u8]) -> R<PartCame>
        ensures answer { (C : Copying B.State) (drives : ℕ) (x : protocol.Node B.State)
            → CopiesAs B.state B.copied drives C.parts C.part_count C.assemble
            → IsStation B.state B.machine C drives self.old x
            → calls.GetsPart C (message_at drives bytes.now) x result (IsStation B.state B.machine C drives self.new) }
        ensures pages { OnOk result (PagesStay B.stale self.old.node self.new.node) }
        ensures unchanged { OnErr result (self.new ≡ self.old) }
    {
        self.node.part(alloc, bytes)
    }
}

// What a host is given that joins this generation: an assembly, and a copy of these inputs.
fn opened(alloc: Global, next: NextGeneration, inputs: &Inputs, count: u64) -> R<Opening>
    requires first { 0 < next.generation }
    requires some { 1 ≤ next.drives }
    requires few { next.drives ≤ DRIVES }
    ensures ok { IfOk result (IsOpening next inputs.now count) }
    ensures full { IfErr result (λ fault. fault ≡ OutOfMemory) }
{
    let assembly = Assembly::new(alloc, next.generation, next.drives)?;
    let inputs = inputs.copy(alloc)?;
    Ok(Opening {
        generation: next.generation,
        assembly,
        inputs,
        count,
        reads: next.reads,
    })
}

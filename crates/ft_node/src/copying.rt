//! A generation that begins with the copy of a machine: an alone node begins it, and a joining node is given the parts.
ghost use Rattle.std.specs.Prelude.{◌≡◌, ◌+◌, ◌-◌, ◌<◌, ◌≤◌, ℕ, None, [], length, IfErr, IfOk, IsOkUnless, OnErr, OnOk};
ghost use Rattle.clone_state.specs.Copies.{CopiesAs, image_parts};
ghost use Rattle.clone_state.specs.Parts.{message_at};
ghost use Rattle.clone_state.specs.Stale.{AreCopied, stale_count};
ghost use Rattle.guest_lockstep.specs.Pages.{every_page};
ghost use Rattle.disk_dcdd.specs.declared.controller.TheConstants.{DRIVES};
ghost use Rattle.event_callbacks.specs.declared.devices.TheConstants.{PORTS};
ghost use Rattle.i8080_words.specs.declared.limits.TheConstants.{GREATEST_NUMBER};
ghost use Rattle.i8080_words.specs.declared.refusal.Fault.TheVariants.{OutOfMemory};
ghost use Rattle.log_buffer.specs.Log as logs;
ghost use Rattle.pair_protocol.specs.Copying.{Copying};
ghost use Rattle.pair_protocol.specs.Node as protocol;
ghost use Rattle.ft_node.specs.Calls as calls;
ghost use Rattle.ft_node.specs.Calls.{next_after};
ghost use Rattle.ft_node.specs.Kept.{image_of};
ghost use Rattle.ft_node.specs.Roles.{IsAlone, IsJoining};
ghost use Rattle.ft_node.specs.AnyNode.{AreFreshened, IsNode, NoneCopied, PagesStay, alone_board};
ghost use Rattle.ft_node.specs.declared.node.Node.TheVariants as node;

use crate::alone::Alone;
use crate::joining::Joining;
use crate::kept_image::KeptImage;
use crate::node::Node;
use crate::primary::Primary;
use crate::ran::{NextGeneration, PartCame};
use clone_state::{Copies, Image, parts_make_their_machines};
use guest_lockstep::Reads;
use i8080_words::{Fault, R};
use log_buffer::LogBuffer;
use std::alloc::Global;

impl<B: Copies<H> + Drop, H: Drop> Node<B, H> {
    /// The generation that an alone node may begin, for a machine with its drives, and with a log that carries sectors as
    /// its own does. `Spent` if that of the node is the greatest.
    pub fn next_generation(&self) -> R<NextGeneration>
        ensures answer { (C : Copying B.State) (drives : ℕ) (x : protocol.Node B.State)
            → CopiesAs B.state B.copied drives C.parts C.part_count C.assemble
            → (x.role ≡ protocol.Alone → length (C.parts x.machine) ≡ C.part_count)
            → IsNode B.state B.machine C drives self.now x → calls.MayBegin drives x result }
        ensures first { IfOk result (λ next. 0 < next.generation) }
        ensures some { IfOk result (λ next. 1 ≤ next.drives) }
        ensures few { IfOk result (λ next. next.drives ≤ DRIVES) }
    {
        parts_make_their_machines();
        match self {
            Node::Alone(alone) => next_of(
                alone.generation,
                alone.recorder.board().drives(),
                alone.recorder.reads(),
            ),
            _ => Err(Fault::WrongRole),
        }
    }

    /// An alone node begins the next generation as its primary, with an image of its machine and an empty log. Returns
    /// the generation. `Spent` if that of the node is the greatest.
    pub fn begin(&mut self, alloc: Global) -> R<u32>
        ensures answer { (C : Copying B.State) (drives : ℕ) (x : protocol.Node B.State)
            → CopiesAs B.state B.copied drives C.parts C.part_count C.assemble
            → calls.HasTakenKeys B.machine x → IsNode B.state B.machine C drives self.old x
            → calls.BeginsPair B.machine x result (IsNode B.state B.machine C drives self.new) }
        ensures pages { OnOk result (PagesStay B.stale self.old self.new) }
        ensures unchanged { OnErr result (self.new ≡ self.old) }
    {
        match self.take_out() {
            Node::Alone(alone) => {
                let (result, node) = begun(alloc, alone);
                self.become_node(node);
                result
            }
            other => {
                self.become_node(other);
                Err(Fault::WrongRole)
            }
        }
    }

    /// Copies the lowest stale pages of an alone node's machine, `pages` at most, for the image of a generation that it
    /// may begin. Returns how many are still stale. `OutOfMemory` if the allocator refuses.
    pub fn freshen(&mut self, alloc: Global, pages: u64) -> R<u64>
        ensures answer { (C : Copying B.State) (drives : ℕ) (x : protocol.Node B.State)
            → IsNode B.state B.machine C drives self.old x
            → calls.Freshens x result (IsNode B.state B.machine C drives self.new) }
        ensures stale { IfOk result (λ left. AreFreshened B.stale pages left self.old self.new) }
        ensures begins { IfErr result (λ fault. fault ≡ OutOfMemory → NoneCopied B.stale self.old) }
        ensures unchanged { OnErr result (self.new ≡ self.old) }
    {
        match self {
            Node::Alone(alone) => freshened::<B, H>(alone, alloc, pages),
            _ => Err(Fault::WrongRole),
        }
    }

    /// The message of a part of the image that a primary keeps until the first acknowledgement. `Unknown` if there is no
    /// such part, and at every other node.
    pub fn send_part(&self, alloc: Global, index: u64) -> R<Vec<u8>>
        ensures { (C : Copying B.State) (drives : ℕ) (x : protocol.Node B.State)
            → IsNode B.state B.machine C drives self.now x → calls.SendsPart C index x result }
    {
        match self {
            Node::Primary(primary) => primary.part(alloc, index),
            _ => Err(Fault::Unknown),
        }
    }

    /// A joining node takes the message of a part; with the last one that was missing it is the backup. `Malformed` if
    /// the bytes spell no part, otherwise `WrongGeneration` if they spell one of another generation. With the last part
    /// also `OutOfMemory`, or `Malformed` if the parts together make no machine; those of one image do make one.
    pub fn part(&mut self, alloc: Global, bytes: &[u8]) -> R<PartCame>
        ensures answer { (C : Copying B.State) (drives : ℕ) (x : protocol.Node B.State)
            → CopiesAs B.state B.copied drives C.parts C.part_count C.assemble
            → IsNode B.state B.machine C drives self.old x
            → calls.GetsPart C (message_at drives bytes.now) x result (IsNode B.state B.machine C drives self.new) }
        ensures pages { OnOk result (PagesStay B.stale self.old self.new) }
        ensures unchanged { OnErr result (self.new ≡ self.old) }
    {
        match self.take_out() {
            Node::Joining(joining) => {
                let (result, node) = with_part(joining, alloc, bytes);
                self.become_node(node);
                result
            }
            other => {
                self.become_node(other);
                Err(Fault::WrongRole)
            }
        }
    }
}

// The generation after this one, for a machine with this many drives.
#[tactic(auto, using(crate::proofs::BegunPairs::next_if, crate::proofs::BegunPairs::no_next))]
fn next_of(generation: u32, drives: u8, reads: Reads) -> R<NextGeneration>
    requires some { 1 ≤ drives }
    requires few { drives ≤ DRIVES }
    ensures { result ≡ next_after generation drives reads }
{
    if generation == u32::MAX {
        return Err(Fault::Spent);
    }
    Ok(NextGeneration {
        generation: generation + 1,
        drives,
        reads,
    })
}

// An alone node copies pages of its machine early. Returns how many are still stale.
fn freshened<B: Copies<H> + Drop, H: Drop>(
    alone: &mut Alone<B>,
    alloc: Global,
    pages: u64,
) -> R<u64>
    ensures answer { (x : protocol.Node B.State) → IsAlone alone.old.recorder.reads (B.state alone.old.recorder.board) alone.old.generation x
        → calls.Freshens x result (IsAlone alone.new.recorder.reads (B.state alone.new.recorder.board) alone.new.generation) }
    ensures fewer { IfOk result (λ left. left ≡ stale_count (B.stale alone.old.recorder.board) - pages) }
    ensures left { IfOk result (λ left. left ≡ stale_count (B.stale alone.new.recorder.board)) }
    ensures lowest { OnOk result (AreCopied pages (B.stale alone.old.recorder.board) (B.stale alone.new.recorder.board)) }
    ensures begins { OnErr result (B.stale alone.old.recorder.board ≡ every_page) }
    ensures unchanged { OnErr result (alone.new ≡ alone.old) }
{
    alone.recorder.board_mut().freshen(alloc, pages)
}

// The node that an alone node becomes when it begins the next generation; if it can't, it stays alone.
fn begun<B: Copies<H> + Drop, H: Drop>(alloc: Global, mut alone: Alone<B>) -> (R<u32>, Node<B, H>)
    ensures answer { (C : Copying B.State) (drives : ℕ) (x : protocol.Node B.State)
        → CopiesAs B.state B.copied drives C.parts C.part_count C.assemble
        → calls.HasTakenKeys B.machine x → IsAlone alone.recorder.reads (B.state alone.recorder.board) alone.generation x
        → calls.BeginsPair B.machine x result.0 (IsNode B.state B.machine C drives result.1) }
    ensures pages { OnOk result.0 (alone_board result.1 ≡ None) }
    ensures unchanged { OnErr result.0 (result.1 ≡ node.Alone alone) }
{
    if alone.generation == u32::MAX {
        return (Err(Fault::Spent), Node::Alone(alone));
    }
    let generation = alone.generation + 1;
    let (log, image) = match log_and_image::<B, H>(alloc, &mut alone, generation) {
        Ok(made) => made,
        Err(fault) => return (Err(fault), Node::Alone(alone)),
    };
    let board = alone.recorder.board();
    let keys = [board.keys(0), board.keys(1)];
    let reads = alone.recorder.reads();
    let image = KeptImage::of(image);
    let board = alone.recorder.into_board();
    let primary = Primary::begin(board, log, generation, reads, keys, image);
    (Ok(generation), Node::Primary(primary))
}

// All that a generation needs memory for when it begins: its log and its image.
fn log_and_image<B: Copies<H> + Drop, H: Drop>(
    alloc: Global,
    alone: &mut Alone<B>,
    generation: u32,
) -> R<(LogBuffer, Image)>
    requires { 0 < generation }
    ensures log { IfOk result (λ made. made.0 ≡ logs.log 0 []) }
    ensures image { IfOk result (λ made. image_of made.1
        ≡ record { generation = generation; parts = image_parts (B.copied alone.old.recorder.board) }) }
    ensures keys { IfOk result (λ made. (port : ℕ) → port < PORTS
        → B.machine.keys (B.state alone.new.recorder.board) port ≤ GREATEST_NUMBER) }
    ensures state { B.state alone.new.recorder.board ≡ B.state alone.old.recorder.board }
    ensures reads { alone.new.recorder.reads ≡ alone.old.recorder.reads }
    ensures full { IsOkUnless result OutOfMemory }
    ensures unchanged { OnErr result (alone.new ≡ alone.old) }
{
    let log = LogBuffer::new(alloc, 0)?;
    let image = alone.recorder.board_mut().image(alloc, generation)?;
    Ok((log, image))
}

// The node that a joining node becomes when a part arrives.
#[tactic(auto, using(crate::proofs::JoiningParts::becomes_none))]
fn with_part<B: Copies<H> + Drop, H: Drop>(
    mut joining: Joining<H>,
    alloc: Global,
    bytes: &[u8],
) -> (R<PartCame>, Node<B, H>)
    ensures answer { (C : Copying B.State) (drives : ℕ) (x : protocol.Node B.State)
        → CopiesAs B.state B.copied drives C.parts C.part_count C.assemble
        → IsJoining C drives joining x
        → calls.GetsPart C (message_at drives bytes.now) x result.0 (IsNode B.state B.machine C drives result.1) }
    ensures pages { alone_board result.1 ≡ None }
    ensures unchanged { OnErr result.0 (result.1 ≡ node.Joining joining) }
{
    clone_state::parts_are_read_again();
    match joining.gather(bytes) {
        Err(fault) => (Err(fault), Node::Joining(joining)),
        Ok(false) => (Ok(PartCame::Old), Node::Joining(joining)),
        Ok(true) if !joining.is_whole() => (Ok(PartCame::New), Node::Joining(joining)),
        Ok(true) => joining.become_backup(alloc, bytes),
    }
}

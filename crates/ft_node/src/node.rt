//! A node, in whatever role.
ghost use Rattle.std.specs.Prelude.{◌≡◌, ◌<◌, ℕ, Some, None, [], IfErr, IfOk, OnErr, OnOk, option_map};
ghost use Rattle.clone_state.specs.Assembly.{nothing_gathered};
ghost use Rattle.clone_state.specs.Parts.{part_count};
ghost use Rattle.i8080_words.specs.declared.refusal.Fault.TheVariants.{WrongRole};
ghost use Rattle.log_buffer.specs.Log as logs;
ghost use Rattle.pair_protocol.specs.Copying.{Copying};
ghost use Rattle.pair_protocol.specs.Node as protocol;
ghost use Rattle.pair_protocol.specs.Node.{halts};
ghost use Rattle.ft_node.specs.Calls as calls;
ghost use Rattle.ft_node.specs.Checked as checked;
ghost use Rattle.ft_node.specs.Guests.{shown_machine};
ghost use Rattle.ft_node.specs.Roles.{IsHalted, node_count};
ghost use Rattle.ft_node.specs.Pages.{PagesGoOn, StepsWrite};
ghost use Rattle.ft_node.specs.AnyNode.{IsNode, IsRole, MayRun, PagesStay, alone_board, board_of};

use crate::alone::Alone;
use crate::backup::Backup;
use crate::halted::Halted;
use crate::joining::Joining;
use crate::kept_image::KeptImage;
use crate::primary::Primary;
use crate::ran::Ran;
use crate::winner::Winner;
use clone_state::{Assembly, Copies};
use event_callbacks::PORTS;
use guest_lockstep::Reads;
use i8080_words::{Fault, R};
use log_buffer::LogBuffer;
use log_channel::Receiver;
use pair_events::Role;
use replayer::Replayer;
use std::alloc::Global;
use std::mem;

/// A node of a pair, by its role. A call in which the role has no part is refused with `WrongRole`, `packet` and
/// `send_part` with `Unknown`. A refused call leaves the node as it was, except that a node that asked the arbiter and
/// lost is halted.
#[derive(Drop)]
pub enum Node<B, H> {
    Primary(Primary<B>),
    Backup(Backup<B>),
    Joining(Joining<H>),
    Draining(Winner<B>),
    Alone(Alone<B>),
    Halted(Halted),
}

impl<B: Copies<H> + Drop, H: Drop> Node<B, H> {
    /// The primary of a generation, with an empty log; `reads` says whether that log carries sector bytes.
    pub fn primary(board: B, log: LogBuffer, generation: u32, reads: Reads) -> Node<B, H>
        requires generation { 0 < generation }
        requires unused { log ≡ logs.log 0 [] }
        ensures { (C : Copying B.State) (drives : ℕ) (x : protocol.Node B.State)
            → calls.Begins B.machine protocol.Primary generation reads (B.state board) x → IsNode B.state B.machine C drives result x }
    {
        Node::Primary(Primary::begin(board, log, generation, reads, [0; PORTS], KeptImage::none()))
    }

    /// The backup of a generation, which holds nothing yet.
    pub fn backup(alloc: Global, board: B, generation: u32, reads: Reads) -> Node<B, H>
        requires { 0 < generation }
        ensures { (C : Copying B.State) (drives : ℕ) (x : protocol.Node B.State)
            → calls.Begins B.machine protocol.Backup generation reads (B.state board) x → IsNode B.state B.machine C drives result x }
    {
        Node::Backup(Backup {
            replayer: Replayer::new(board),
            receiver: Receiver::new(alloc, generation),
            reads,
        })
    }

    /// A node that joins in a generation, to be given the copy of a machine that has made `count` steps. No part has arrived.
    pub fn joining(
        assembly: Assembly,
        callbacks: H,
        generation: u32,
        count: u64,
        reads: Reads,
    ) -> Node<B, H>
        requires generation { 0 < generation }
        requires unused { assembly ≡ nothing_gathered generation assembly.drives (part_count assembly.drives) }
        ensures pages { alone_board result ≡ None }
        ensures node { let drives = assembly.drives in
            (C : Copying B.State) (x : protocol.Node B.State) → C.part_count ≡ part_count drives
            → calls.Joins C generation count reads x → IsNode B.state B.machine C drives result x }
    {
        Node::Joining(Joining::new(assembly, callbacks, generation, count, reads))
    }

    /// Makes at most `turns` steps of a primary's or an alone node's machine, up to the first that gives an operation.
    /// `LogFull`, `Spent`, `Idle` and `OutOfMemory` are returned only if no step is made; `LogFull` also if a primary has no
    /// room to note one more operation.
    pub fn step(&mut self, turns: u64) -> R<Ran>
        ensures answer { (C : Copying B.State) (drives : ℕ) (x : protocol.Node B.State) → IsNode B.state B.machine C drives self.old x
            → checked.Steps B.machine turns x result (IsNode B.state B.machine C drives self.new) }
        ensures exactly { MayRun B.state B.machine self.old → (C : Copying B.State) (drives : ℕ) (x : protocol.Node B.State) → IsNode B.state B.machine C drives self.old x
            → calls.Steps B.machine turns x result (IsNode B.state B.machine C drives self.new) }
        ensures pages { IfOk result (λ ran. PagesGoOn B.stale (StepsWrite B.state B.machine B.writes B.stale ran.steps)
            (alone_board self.old) (alone_board self.new)) }
        ensures unchanged { OnErr result (self.new ≡ self.old) }
    {
        match self {
            Node::Primary(primary) => primary.step(turns),
            Node::Alone(alone) => alone.step(turns),
            _ => Err(Fault::WrongRole),
        }
    }

    /// Halts. `WrongRole` if it was halted before.
    pub fn stop(&mut self) -> R<()>
        ensures answer { (C : Copying B.State) (drives : ℕ) (x : protocol.Node B.State) → IsNode B.state B.machine C drives self.old x
            → calls.Stops x result (IsNode B.state B.machine C drives self.new) }
        ensures pages { OnOk result (PagesStay B.stale self.old self.new) }
        ensures unchanged { OnErr result (self.new ≡ self.old) }
    {
        if let Node::Halted(_) = self {
            return Err(Fault::WrongRole);
        }
        self.halt();
        Ok(())
    }

    /// Its role in its generation.
    pub fn role(&self) -> Role
        ensures { (C : Copying B.State) (drives : ℕ) (x : protocol.Node B.State) → IsNode B.state B.machine C drives self.now x → IsRole x result }
    {
        match self {
            Node::Primary(_) => Role::Primary,
            Node::Backup(_) => Role::Backup,
            Node::Joining(_) => Role::Joining,
            Node::Draining(_) => Role::Draining,
            Node::Alone(_) => Role::Alone,
            Node::Halted(_) => Role::Halted,
        }
    }

    /// How many steps the machine has made; for a halted node, how many it had made, and for a joining node, how many the
    /// machine that is copied had made.
    pub fn count(&self) -> u64
        ensures { (C : Copying B.State) (drives : ℕ) (x : protocol.Node B.State) → IsNode B.state B.machine C drives self.now x
            → node_count B.machine x x.role ≡ result }
    {
        match self {
            Node::Primary(primary) => primary.recorder.board().count(),
            Node::Backup(backup) => backup.replayer.board().count(),
            Node::Joining(joining) => joining.count(),
            Node::Draining(winner) => winner.draining.board().count(),
            Node::Alone(alone) => alone.recorder.board().count(),
            Node::Halted(halted) => halted.count,
        }
    }

    /// The generation, at least 1.
    pub fn generation(&self) -> u32
        ensures first { 0 < result }
        ensures value { (C : Copying B.State) (drives : ℕ) (x : protocol.Node B.State) → IsNode B.state B.machine C drives self.now x → x.generation ≡ result }
    {
        match self {
            Node::Primary(primary) => primary.sender.generation(),
            Node::Backup(backup) => backup.receiver.generation(),
            Node::Joining(joining) => joining.generation(),
            Node::Draining(winner) => winner.draining.receiver().generation(),
            Node::Alone(alone) => alone.generation,
            Node::Halted(halted) => halted.generation,
        }
    }

    /// The guest of a node; none if the node has halted, or if it is still given its machine.
    pub fn guest(&self) -> Option<&B>
        ensures { (C : Copying B.State) (drives : ℕ) (x : protocol.Node B.State) → IsNode B.state B.machine C drives self.now x
            → option_map (λ guest. B.state guest.now) result ≡ shown_machine x }
    {
        match self {
            Node::Primary(primary) => Some(primary.recorder.board()),
            Node::Backup(backup) => Some(backup.replayer.board()),
            Node::Joining(_) => None,
            Node::Draining(winner) => Some(winner.draining.board()),
            Node::Alone(alone) => Some(alone.recorder.board()),
            Node::Halted(_) => None,
        }
    }

    // The guest of a node that takes input; `WrongRole` if the node takes none.
    pub(crate) fn board(&self) -> R<&B>
        ensures takes { IfOk result (λ board. board_of self.now ≡ Some board.now) }
        ensures none { IfErr result (λ fault. (fault ≡ WrongRole) × (board_of self.now ≡ None)) }
    {
        match self {
            Node::Primary(primary) => Ok(primary.recorder.board()),
            Node::Alone(alone) => Ok(alone.recorder.board()),
            _ => Err(Fault::WrongRole),
        }
    }

    // Halts the node.
    pub(crate) fn halt(&mut self)
        ensures pages { PagesStay B.stale self.old self.new }
        ensures node { (C : Copying B.State) (drives : ℕ) (x : protocol.Node B.State) → IsNode B.state B.machine C drives self.old x
            → IsNode B.state B.machine C drives self.new (halts x) }
    {
        let halted = self.halted();
        self.become_node(Node::Halted(halted));
    }

    // The node becomes another one.
    pub(crate) fn become_node(&mut self, node: Node<B, H>)
        ensures { self.new ≡ node }
    {
        *self = node;
    }

    // Takes the node out of its place, where a halted one is left.
    pub(crate) fn take_out(&mut self) -> Node<B, H>
        ensures { result ≡ self.old }
    {
        let halted = self.halted();
        mem::replace(self, Node::Halted(halted))
    }

    // The node as it would be if it halted now.
    pub(crate) fn halted(&self) -> Halted
        ensures { (C : Copying B.State) (drives : ℕ) (x : protocol.Node B.State) → IsNode B.state B.machine C drives self.now x
            → IsHalted B.machine result.generation result.count (halts x) }
    {
        Halted {
            generation: self.generation(),
            count: self.count(),
        }
    }
}

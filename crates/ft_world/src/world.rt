//! The world of a pair.

use crate::hosts::NodeStatus;
use crate::message::Message;
use crate::pair::Pair;
use crate::room::Room;
use crate::{devices, hosts};
use clone_state::Copies;
use disk_dcdd::SectorAddress;
use event_callbacks::OpId;
use ft_node::Standing;
use guest_lockstep::{Reads, Timed};
use i8080_words::{Fault, R};
use pair_events::{Event, Reply};
use shared_disk::{SectorRead, SectorStore};
use std::alloc::Global;
use std::marker::Model;

/// A pair of nodes with everything that they share: every message ever sent, a terminal at each port, the arbiter, the
/// disk.
#[derive(Drop)]
pub struct World<B: Copies<H> + Drop, D: SectorStore, H: Drop> {
    pair: Pair<B, D, H>,
}

impl<B: Copies<H> + Drop, D: SectorStore, H: Drop> Model for World<B, D, H> {
    ghost use Rattle.ft_world.specs.Running.{Running};
    ghost use Rattle.ft_world.specs.Applies.{ShowsSome};
    ghost use Rattle.ft_world.specs.Pairs.{running_of};

    ghost Value = { Running B H D };

    ghost view = { λ w. running_of w.pair };

    ghost invariant = { λ w. ShowsSome B.state B.copied B.machine D.records (running_of w.pair) };
}

impl<B: Copies<H> + Drop, D: SectorStore, H: Drop> World<B, D, H> {
    ghost use Rattle.std.specs.Prelude.{◌≡◌, [], ◌∷◌, ◌++◌, length, IfErr, IfOk, OnErr, OnOk, is_none, option_map, slice_get};
    ghost use Rattle.disk_dcdd.specs.declared.address.SectorAddress.{SectorAddress};
    ghost use Rattle.i8080_words.specs.declared.refusal.Fault.TheVariants.{OutOfMemory};
    ghost use Rattle.pair_protocol.specs.Copying.{Copying};
    ghost use Rattle.pair_protocol.specs.Grows.{Grows};
    ghost use Rattle.pair_protocol.specs.World.{accepted, terminal, winner_in, with_host};
    ghost use Rattle.pair_protocol.specs.Refusals.{at_node, fetch_refusal, release_refusal};
    ghost use Rattle.pair_protocol.specs.Settled.{Settled, highest};
    ghost use Rattle.shared_disk.specs.Failing.{before_failures};
    ghost use Rattle.shared_disk.specs.Records.{faults_in, refusal_at};
    ghost use Rattle.ft_world.specs.Applies.{Happens, IsFaithful, IsSectorOf, Runs, Shows};
    ghost use Rattle.ft_world.specs.Applies.{failures_over, failures_told};
    ghost use Rattle.ft_world.specs.Beginning.{MayBegin, MayBeginSome, beginning};
    ghost use Rattle.ft_world.specs.Chaining.{HaveApplied};
    ghost use Rattle.ft_world.specs.Freshened.{PagesAfter, TellsStale};
    ghost use Rattle.ft_world.specs.Guests.{machine_at, standing_at};
    ghost use Rattle.ft_world.specs.Shows.{Agree, IsStatusAt};
    ghost use Rattle.ft_world.specs.Standing.{Course, machine_of};
    ghost use Rattle.ft_world.specs.Staying.{SparesAfter, SparesLeft, Stays};
    ghost use Rattle.ft_world.specs.Surviving.{Survives};
    ghost use Rattle.ft_world.specs.Words.{IsMessage};
    ghost use Rattle.ft_world.specs.declared.host.Host.TheVariants as host;

    /// A pair begins: nodes 0 and 1 are primary and backup of generation 1, both guests are in the same state, and
    /// `reads` says whether the log carries sector bytes. The world shows that pair however its machine may be copied.
    /// `OutOfMemory` hands the guests and the disk's store back.
    pub fn begin(
        alloc: Global,
        reads: Reads,
        primary: B,
        backup: B,
        store: D,
    ) -> Result<Self, (B, B, D, Fault)>
        requires may { MayBeginSome B.state B.copied B.machine D.records primary backup store }
        ensures ok { IfOk result (λ world. (C : Copying B.State)
            → MayBegin B.state B.copied B.machine C D.records primary backup store
            → Shows B.state B.copied B.machine D.records world
            (beginning B.machine C reads (B.state primary) (D.records store))) }
        ensures faithful { OnOk result ((C : Copying B.State)
            → MayBegin B.state B.copied B.machine C D.records primary backup store
            → IsFaithful B.machine (beginning B.machine C reads (B.state primary) (D.records store))) }
        ensures disk { IfOk result (λ world. world.disk ≡ store) }
        ensures full { IfErr result (λ refused. refused ≡ (primary, backup, store, OutOfMemory)) }
    {
        let Ok(room) = Room::new(alloc) else {
            return Err((primary, backup, store, Fault::OutOfMemory));
        };
        Ok(World::begin_in(alloc, room, reads, primary, backup, store))
    }

    /// A pair begins as by `begin`, in memory that was allocated for it.
    pub fn begin_in(
        alloc: Global,
        room: Room<B, H>,
        reads: Reads,
        primary: B,
        backup: B,
        store: D,
    ) -> Self
        requires may { MayBeginSome B.state B.copied B.machine D.records primary backup store }
        ensures shows { (C : Copying B.State) → MayBegin B.state B.copied B.machine C D.records primary backup store
            → Shows B.state B.copied B.machine D.records result
            (beginning B.machine C reads (B.state primary) (D.records store)) }
        ensures faithful { (C : Copying B.State) → MayBegin B.state B.copied B.machine C D.records primary backup store
            → IsFaithful B.machine (beginning B.machine C reads (B.state primary) (D.records store)) }
        ensures disk { result.disk ≡ store }
    {
        World {
            pair: Pair::begin(alloc, room, reads, primary, backup, store),
        }
    }

    /// An event happens: the reply, or why it is refused, and the world after it are the event's row, whatever world of
    /// the protocol this one showed. A refused event leaves everything as it was, except that a node that asked the
    /// arbiter and lost is halted, and that a disk that failed may fail once less. A whole node that asks the
    /// arbiter in a generation that nobody has won has won it, unless there is no memory for its request.
    pub fn apply(&mut self, alloc: Global, event: Event) -> R<Reply>
        ensures row { Happens B.state B.copied B.machine D.records self.old event result self.new }
        ensures counted { D.may_fail self.old.disk
            ≡ before_failures (failures_told event result) (D.may_fail self.new.disk) }
        ensures unchanged { IfErr result (λ fault. Stays D.records event fault self.old self.new) }
        ensures spares { SparesAfter event result self.old.hosts self.new.hosts }
        ensures stale { TellsStale B.stale event result self.old.hosts self.new.hosts }
        ensures pages { PagesAfter B.state B.machine B.writes B.stale event result self.old.hosts self.new.hosts }
        ensures survives { Survives B.state B.copied B.machine D.records self.old event result }
    {
        self.pair.apply(alloc, event)
    }

    /// Events happen, one after another, each as by `apply`, and each is answered. `OutOfMemory` if there is no room
    /// for the answers; then none has happened.
    pub fn run(&mut self, alloc: Global, events: &[Event]) -> R<Vec<R<Reply>>>
        ensures ok { IfOk result (λ answers. (c : Course B.State) → Shows B.state B.copied B.machine D.records self.old c
            → Runs B.state B.copied B.machine D.records c events.now answers.items self.new) }
        ensures each { IfOk result (λ answers. HaveApplied B.state B.copied B.machine D.records D.may_fail B.writes B.stale
            self.old events.now answers.items self.new) }
        ensures counted { IfOk result (λ answers. D.may_fail self.old.disk
            ≡ before_failures (failures_over events.now answers.items) (D.may_fail self.new.disk)) }
        ensures spares { SparesLeft self.old.hosts self.new.hosts }
        ensures full { IfErr result (λ fault. fault ≡ OutOfMemory) }
        ensures unchanged { OnErr result (self.new ≡ self.old) }
    {
        self.pair.run(alloc, events)
    }

    /// Adds a host without a role, and returns its number. `OutOfMemory` hands its resources back.
    pub fn host(&mut self, resources: H) -> Result<u64, (H, Fault)>
        ensures ok { OnOk result ((c : Course B.State) → Shows B.state B.copied B.machine D.records self.old c
            → Shows B.state B.copied B.machine D.records self.new
            (record c { world = with_host (machine_of B.machine c) c.world })) }
        ensures faithful { OnOk result ((c : Course B.State) → Shows B.state B.copied B.machine D.records self.old c
            → IsFaithful B.machine (record c { world = with_host (machine_of B.machine c) c.world })) }
        ensures grows { OnOk result ((c : Course B.State) → Shows B.state B.copied B.machine D.records self.old c
            → Grows (machine_of B.machine c) c.world (with_host (machine_of B.machine c) c.world)) }
        ensures others { OnOk result (self.new
            ≡ record self.old { hosts = self.old.hosts ++ host.Spare resources ∷ [] }) }
        ensures number { IfOk result (λ number. number ≡ length self.old.hosts) }
        ensures refused { IfErr result (λ refusal. (refusal.0 ≡ resources) × (refusal.1 ≡ OutOfMemory)) }
        ensures unchanged { OnErr result (self.new ≡ self.old) }
    {
        self.pair.host(resources)
    }

    /// The bytes that the terminal of a port has accepted, in order; empty if there is no such port.
    pub fn accepted(&self, port: u8) -> &[u8]
        ensures { (c : Course B.State) → Shows B.state B.copied B.machine D.records self.now c → result.now ≡ accepted c.world port }
    {
        devices::accepted(&self.pair.terminals, port)
    }

    /// How many of its keys the terminal of a port was told are covered; 0 if there is no such port.
    pub fn terminal_told(&self, port: u8) -> u64
        ensures { (c : Course B.State) → Shows B.state B.copied B.machine D.records self.now c
            → result ≡ (terminal c.world port).told }
    {
        devices::told(&self.pair.terminals, port)
    }

    /// What a sector of the disk has. `Unknown` if no drive has it; `DeviceFault` if the device failed.
    pub fn sector(&mut self, address: SectorAddress) -> R<SectorRead>
        ensures ok { IfOk result (λ read. (c : Course B.State) → Shows B.state B.copied B.machine D.records self.old c
            → IsSectorOf (machine_of B.machine c) c.world address read) }
        ensures refused { IfErr result (λ fault. fault ≡ refusal_at (D.records self.old.disk) address) }
        ensures kept { D.records self.new.disk ≡ D.records self.old.disk }
        ensures counted { D.may_fail self.old.disk ≡ before_failures (faults_in result) (D.may_fail self.new.disk) }
        ensures others { self.new ≡ record self.old { disk = self.new.disk } }
    {
        self.pair.sector(address)
    }

    /// The role, the generation and the count of a node; `None` if no node has this number.
    pub fn node(&self, node: u64) -> Option<NodeStatus>
        ensures { (c : Course B.State) → Shows B.state B.copied B.machine D.records self.now c
            → IsStatusAt B.machine (slice_get c.world.nodes node) result }
    {
        hosts::status(&self.pair.hosts, node)
    }

    /// The guest of a node, with the machine that the world shows there; `None` if no node has this number, if it has
    /// halted, or if it is still given its machine.
    pub fn guest(&self, node: u64) -> Option<&B>
        ensures { (c : Course B.State) → Shows B.state B.copied B.machine D.records self.now c
            → option_map (λ guest. B.state guest.now) result ≡ machine_at c.world.nodes node }
    {
        hosts::guest(&self.pair.hosts, node)
    }

    /// How far a node is with the log of its generation: how many entries a primary has logged, and how many of them are
    /// acknowledged; how many a backup or a draining node holds, and how many of them it has replayed. `None` at any other.
    pub fn standing(&self, node: u64) -> Option<Standing>
        ensures { (c : Course B.State) → Shows B.state B.copied B.machine D.records self.now c
            → result ≡ standing_at c.world.nodes node }
    {
        hosts::standing(&self.pair.hosts, node)
    }

    /// Whether a node would release an operation: it is outstanding, and a primary's backup has acknowledged it. Nothing is
    /// sent.
    pub fn may_release(&self, node: u64, id: OpId) -> bool
        ensures { (c : Course B.State) → Shows B.state B.copied B.machine D.records self.now c
            → result ≡ is_none (at_node (slice_get c.world.nodes node) (release_refusal (machine_of B.machine c) id)) }
    {
        match hosts::station(&self.pair.hosts, node) {
            Ok(station) => station.node.release(id).is_ok(),
            Err(_) => false,
        }
    }

    /// Whether a node would ask the disk for a sector: it repeats what it holds, and waits for one. Nothing is sent.
    pub fn may_fetch(&self, node: u64) -> bool
        ensures { (c : Course B.State) → Shows B.state B.copied B.machine D.records self.now c
            → result ≡ is_none (at_node (slice_get c.world.nodes node) (fetch_refusal (machine_of B.machine c))) }
    {
        match hosts::station(&self.pair.hosts, node) {
            Ok(station) => station.node.wanted().is_ok(),
            Err(_) => false,
        }
    }

    /// The message of this number, if it was sent.
    pub fn message(&self, message: u64) -> Option<&Message>
        ensures { (c : Course B.State) → Shows B.state B.copied B.machine D.records self.now c
            → Agree IsMessage (option_map (λ found. found.now) result) (slice_get c.world.messages message) }
    {
        self.pair.messages.get(message as usize)
    }

    /// The node that has won a generation, if one has.
    pub fn winner(&self, generation: u32) -> Option<u64>
        ensures { (c : Course B.State) → Shows B.state B.copied B.machine D.records self.now c
            → result ≡ winner_in c.world.winners generation }
    {
        self.pair.arbiter.winner(generation)
    }

    /// The inputs that are settled, and the count up to which they are settled: those of the winner of the highest
    /// generation, or of its backup if nobody has won.
    pub fn settled(&self) -> (&[Timed], u64)
        ensures { (c : Course B.State) → Shows B.state B.copied B.machine D.records self.now c
            → Settled (machine_of B.machine c) c.world result.0.now result.1 }
    {
        let winner = self.pair.arbiter.winner(self.pair.generation);
        let node = winner.unwrap_or(self.pair.backup as u64);
        hosts::settled(&self.pair.hosts, node)
    }

    /// The highest generation, at least 1.
    pub fn generation(&self) -> u32
        ensures { (c : Course B.State) → Shows B.state B.copied B.machine D.records self.now c
            → result ≡ highest c.world.nodes }
    {
        self.pair.generation
    }
}

//! A pair with everything that it shares, how it begins, and the events that happen in it.
ghost use Rattle.std.specs.Prelude.{◌≡◌, [], ◌∷◌, ◌++◌, false, true, length, IfErr, IfOk, OnErr, OnOk};
ghost use Rattle.i8080_words.specs.declared.refusal.Fault.TheVariants.{OutOfMemory};
ghost use Rattle.pair_protocol.specs.Copying.{Copying};
ghost use Rattle.pair_protocol.specs.Grows.{Grows};
ghost use Rattle.pair_protocol.specs.World.{with_host};
ghost use Rattle.shared_disk.specs.Failing.{before_failures};
ghost use Rattle.shared_disk.specs.Records.{faults_in, refusal_at};
ghost use Rattle.ft_world.specs.Applies.{IsFaithful, IsSectorOf, Runs, Shows, ShowsSome, failures_over};
ghost use Rattle.ft_world.specs.Beginning.{MayBegin, MayBeginSome, beginning};
ghost use Rattle.ft_world.specs.Chaining.{HasApplied, HaveApplied};
ghost use Rattle.ft_world.specs.EventKinds.{is_at_node, is_read_or_copy};
ghost use Rattle.ft_world.specs.Standing.{Course, machine_of};
ghost use Rattle.ft_world.specs.Pairs.{running_of};
ghost use Rattle.ft_world.specs.Staying.{SparesLeft};
ghost use Rattle.ft_world.specs.declared.host.Host.TheVariants as host;

use crate::host::Host;
use crate::message::Message;
use crate::room::Room;
use arbiter_core::Arbiter;
use clone_state::Copies;
use disk_dcdd::SectorAddress;
use event_callbacks::PORTS;
use guest_lockstep::Reads;
use i8080_words::{Fault, R};
use pair_events::{Event, Reply};
use shared_disk::{SectorRead, SectorStore, SharedDisk};
use std::alloc::Global;
use terminals::Terminal;

/// The hosts, every message ever sent, a terminal at each port, the arbiter and the disk; also the highest generation,
/// and the number of the only node that may be its backup.
#[derive(Drop)]
pub(crate) struct Pair<B: Copies<H> + Drop, D: SectorStore, H: Drop> {
    pub(crate) hosts: Vec<Host<B, H>>,
    pub(crate) messages: Vec<Message>,
    pub(crate) terminals: [Terminal; PORTS],
    pub(crate) arbiter: Arbiter,
    pub(crate) disk: SharedDisk<D>,
    pub(crate) generation: u32,
    pub(crate) backup: usize,
}

impl<B: Copies<H> + Drop, D: SectorStore, H: Drop> Pair<B, D, H> {
    /// A pair with these guests and this disk; `reads` says whether its log carries sector bytes. Allocates no further memory.
    pub(crate) fn begin(
        alloc: Global,
        room: Room<B, H>,
        reads: Reads,
        primary: B,
        backup: B,
        store: D,
    ) -> Pair<B, D, H>
        requires may { MayBeginSome B.state B.copied B.machine D.records primary backup store }
        ensures shows { (C : Copying B.State) → MayBegin B.state B.copied B.machine C D.records primary backup store
            → Shows B.state B.copied B.machine D.records (running_of result)
            (beginning B.machine C reads (B.state primary) (D.records store)) }
        ensures disk { result.disk ≡ store }
    {
        Pair {
            hosts: room.begin(alloc, reads, primary, backup),
            messages: Vec::new(alloc),
            terminals: [Terminal::new(alloc), Terminal::new(alloc)],
            arbiter: Arbiter::new(alloc),
            disk: SharedDisk::new(store),
            generation: 1,
            backup: 1,
        }
    }

    /// An event happens.
    pub(crate) fn apply(&mut self, alloc: Global, event: Event) -> R<Reply>
        requires shown { ShowsSome B.state B.copied B.machine D.records (running_of self.old) }
        ensures { HasApplied B.state B.copied B.machine D.records D.may_fail B.writes B.stale (running_of self.old) event result
            (running_of self.new) }
    {
        match event {
            Event::Step { node, turns } => self.step(node, turns),
            Event::Send { node, index } => self.send(alloc, node, index),
            Event::DeliverLog { message, node } => self.deliver_log(message, node),
            Event::Acknowledge { node } => self.acknowledge(alloc, node),
            Event::DeliverAcknowledgement { message, node } => self.deliver_acknowledgement(
                message, node,
            ),
            Event::Replay { node, turns } => self.replay(node, turns),
            Event::Suspect { node } => self.suspect(node),
            Event::Drain { node, turns } => self.drain(node, turns),
            Event::TakeKey { node, port, index } => self.take_key(node, port, index),
            _ => self.apply_at_device(alloc, event),
        }
    }

    // A node halts, or an event happens at a terminal or at the disk, or with the copy of a machine.
    fn apply_at_device(&mut self, alloc: Global, event: Event) -> R<Reply>
        requires shown { ShowsSome B.state B.copied B.machine D.records (running_of self.old) }
        requires beyond { is_at_node event ≡ false }
        ensures { HasApplied B.state B.copied B.machine D.records D.may_fail B.writes B.stale (running_of self.old) event result
            (running_of self.new) }
    {
        match event {
            Event::Stop { node } => self.stop(node),
            Event::TypeByte { port, byte } => self.type_byte(port, byte),
            Event::Release { node, id } => self.release(alloc, node, id),
            Event::Arrive { message } => self.arrive(message),
            Event::TellSent { node, port, number } => self.tell_sent(node, port, number),
            Event::Told { node, port } => self.tell(node, port),
            Event::Put { message } => self.put(message),
            Event::PutReply { message, node } => self.put_reply(message, node),
            _ => self.apply_with_copies(alloc, event),
        }
    }

    // A sector is read, or an event happens with the copy of a machine.
    fn apply_with_copies(&mut self, alloc: Global, event: Event) -> R<Reply>
        requires shown { ShowsSome B.state B.copied B.machine D.records (running_of self.old) }
        requires beyond { is_read_or_copy event ≡ true }
        ensures { HasApplied B.state B.copied B.machine D.records D.may_fail B.writes B.stale (running_of self.old) event result
            (running_of self.new) }
    {
        match event {
            Event::Get { node, sector } => self.get(alloc, node, sector),
            Event::GetReply { message, node } => self.get_reply(message, node),
            Event::Fetch { node } => self.fetch(alloc, node),
            Event::Fetched { message, node } => self.fetched(message, node),
            Event::BeginPair { node, host } => self.begin_pair(alloc, node, host),
            Event::SendPart { node, index } => self.send_part(alloc, node, index),
            Event::PartComes { message, node } => self.part_comes(alloc, message, node),
            Event::Freshen { node, pages } => self.freshen(alloc, node, pages),
            _ => unreachable!(),
        }
    }

    /// Events happen, one after another. Room for the answers is reserved before the first one happens.
    pub(crate) fn run(&mut self, alloc: Global, events: &[Event]) -> R<Vec<R<Reply>>>
        requires shown { ShowsSome B.state B.copied B.machine D.records (running_of self.old) }
        ensures ok { IfOk result (λ answers. (c : Course B.State)
            → Shows B.state B.copied B.machine D.records (running_of self.old) c
            → Runs B.state B.copied B.machine D.records c events.now answers.items (running_of self.new)) }
        ensures each { IfOk result (λ answers. HaveApplied B.state B.copied B.machine D.records D.may_fail B.writes B.stale
            (running_of self.old) events.now answers.items (running_of self.new)) }
        ensures counted { IfOk result (λ answers. D.may_fail self.old.disk
            ≡ before_failures (failures_over events.now answers.items) (D.may_fail self.new.disk)) }
        ensures spares { SparesLeft self.old.hosts.items self.new.hosts.items }
        ensures full { IfErr result (λ fault. fault ≡ OutOfMemory) }
        ensures unchanged { OnErr result (running_of self.new ≡ running_of self.old) }
    {
        let mut answers = Vec::with_capacity(alloc, events.len())?;
        for event in events {
            let answer = self.apply(alloc, *event);
            answers.push_reserved(answer);
        }
        Ok(answers)
    }

    /// What a sector of the disk has.
    pub(crate) fn sector(&mut self, address: SectorAddress) -> R<SectorRead>
        ensures ok { IfOk result (λ read. (c : Course B.State)
            → Shows B.state B.copied B.machine D.records (running_of self.old) c
            → IsSectorOf (machine_of B.machine c) c.world address read) }
        ensures refused { IfErr result (λ fault. fault ≡ refusal_at (D.records self.old.disk) address) }
        ensures kept { D.records self.new.disk ≡ D.records self.old.disk }
        ensures counted { D.may_fail self.old.disk ≡ before_failures (faults_in result) (D.may_fail self.new.disk) }
        ensures others { running_of self.new ≡ record (running_of self.old) { disk = self.new.disk } }
    {
        self.disk.get(address)
    }

    /// Adds a host without a role, and returns its number. `OutOfMemory` hands its resources back.
    pub(crate) fn host(&mut self, resources: H) -> Result<u64, (H, Fault)>
        ensures ok { OnOk result ((c : Course B.State) → Shows B.state B.copied B.machine D.records (running_of self.old) c
            → Shows B.state B.copied B.machine D.records (running_of self.new)
            (record c { world = with_host (machine_of B.machine c) c.world })) }
        ensures faithful { OnOk result ((c : Course B.State)
            → Shows B.state B.copied B.machine D.records (running_of self.old) c
            → IsFaithful B.machine (record c { world = with_host (machine_of B.machine c) c.world })) }
        ensures grows { OnOk result ((c : Course B.State)
            → Shows B.state B.copied B.machine D.records (running_of self.old) c
            → Grows (machine_of B.machine c) c.world (with_host (machine_of B.machine c) c.world)) }
        ensures others { OnOk result (running_of self.new
            ≡ record (running_of self.old) { hosts = self.old.hosts.items ++ host.Spare resources ∷ [] }) }
        ensures number { IfOk result (λ number. number ≡ length self.old.hosts.items) }
        ensures refused { IfErr result (λ refusal. (refusal.0 ≡ resources) × (refusal.1 ≡ OutOfMemory)) }
        ensures unchanged { OnErr result (running_of self.new ≡ running_of self.old) }
    {
        match self.hosts.reserve(1) {
            Ok(()) => (),
            Err(_) => return Err((resources, Fault::OutOfMemory)),
        }
        let number = self.hosts.len() as u64;
        self.hosts.push_reserved(Host::Spare(resources));
        Ok(number)
    }
}

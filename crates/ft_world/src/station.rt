//! A node with its list of inputs, and what an event does there.
ghost use Rattle.pair_protocol.specs.Copying.{Copying};
ghost use Rattle.std.specs.Prelude.{◌≡◌, ℕ, ◌≢◌, [], None, IfErr, IfOk, OnErr, OnOk};
ghost use Rattle.disk_dcdd.specs.Completion.{answered};
ghost use Rattle.i8080_words.specs.declared.refusal.Fault.TheVariants.{Lost};
ghost use Rattle.log_channel.specs.Packet.{packet_at};
ghost use Rattle.pair_protocol.specs.Effects.{Took, NeedsEntry};
ghost use Rattle.pair_protocol.specs.Node as protocol;
ghost use Rattle.ft_node.specs.Calls as calls;
ghost use Rattle.ft_node.specs.Roles.{node_count};
ghost use Rattle.ft_node.specs.Pages.{PagesGoOn, StepsWrite};
ghost use Rattle.ft_node.specs.AnyNode.{IsNode, MayAccept, MayReplay, MayRun, PagesStay, alone_board};
ghost use Rattle.ft_world.specs.Offers.{IsOffer, input_of, offer_refusal};
ghost use Rattle.ft_world.specs.Shows.{IsStation, drained_count};

use crate::input_list::Inputs;
use crate::offer::Offer;
use arbiter_core::{Arbiter, Won};
use clone_state::Copies;
use disk_dcdd::SectorAddress;
use ft_node::{Drained, Node, Ran};
use guest_lockstep::{Input, ReplayEnd};
use i8080_words::R;
use replayer::Replayed;
use std::alloc::Global;

/// A node with the list of inputs that its machine has taken or will take, and the count up to which they settle it. No
/// node reads either.
#[derive(Drop)]
pub struct Station<B, H> {
    pub(crate) node: Node<B, H>,
    pub(crate) inputs: Inputs,
    pub(crate) count: u64,
}

impl<B: Copies<H> + Drop, H: Drop> Station<B, H> {
    // A node that begins, with no inputs yet, settled at the count of its machine.
    pub(crate) fn new(alloc: Global, node: Node<B, H>) -> Station<B, H>
        ensures node { result.node ≡ node }
        ensures inputs { result.inputs ≡ [] }
        ensures count { (C : Copying B.State) (drives : ℕ) (x : protocol.Node B.State) → IsNode B.state B.machine C drives node x
            → result.count ≡ node_count B.machine x x.role }
    {
        let count = node.count();
        Station {
            node,
            inputs: Inputs::new(alloc),
            count,
        }
    }

    // The count by which a node settles after a drain: its machine's if it is alone now, and the same as before if not.
    fn settled_count(&self, why: ReplayEnd) -> u64
        ensures { (C : Copying B.State) (drives : ℕ) (x : protocol.Node B.State) → IsNode B.state B.machine C drives self.now.node x
            → result ≡ drained_count why self.now.count (node_count B.machine x x.role) }
    {
        match why {
            ReplayEnd::End => self.node.count(),
            ReplayEnd::Turns | ReplayEnd::Wait | ReplayEnd::Memory => self.count,
        }
    }

    /// The machine of a node makes at most `turns` steps, up to the first that gives an operation.
    pub(crate) fn step(&mut self, turns: u64) -> R<Ran>
        requires few { MayRun B.state B.machine self.old.node }
        ensures answer { (C : Copying B.State) (drives : ℕ) (x : protocol.Node B.State) → IsStation B.state B.machine C drives self.old x
            → calls.Steps B.machine turns x result (IsStation B.state B.machine C drives self.new) }
        ensures pages { IfOk result (λ ran. PagesGoOn B.stale (StepsWrite B.state B.machine B.writes B.stale ran.steps)
            (alone_board self.old.node) (alone_board self.new.node)) }
        ensures unchanged { OnErr result (self.new ≡ self.old) }
    {
        let ran = self.node.step(turns)?;
        self.count = ran.count;
        Ok(ran)
    }

    // Whether a node takes an input that is offered: returns its refusal, and changes nothing.
    fn check(&self, offer: &Offer) -> R<()>
        requires { IsOffer offer.now }
        ensures answer { (C : Copying B.State) (drives : ℕ) (x : protocol.Node B.State) → IsNode B.state B.machine C drives self.now.node x
            → result ≡ answered (offer_refusal B.machine offer.now x) }
        ensures may { OnOk result (MayAccept B.state B.machine self.now.node (input_of offer.now)) }
    {
        match *offer {
            Offer::Key { port, index, .. } => self.node.check_key(port, index),
            Offer::Sent { port, number } => self.node.check_sent(port, number),
            Offer::Written { number } => self.node.check_done(number),
            Offer::Sector { read } => {
                let address = SectorAddress {
                    drive: read.drive,
                    track: read.track,
                    sector: read.sector,
                };
                self.node.check_under(address, read.number, read.bytes)
            }
        }
    }

    /// A node takes an input that an event offers, once it is appended to the inputs. `OutOfMemory` if they have no room.
    pub(crate) fn take(&mut self, offer: &Offer) -> R<()>
        requires { IsOffer offer.now }
        ensures answer { (C : Copying B.State) (drives : ℕ) (x : protocol.Node B.State) → IsStation B.state B.machine C drives self.old x
            → calls.Call (offer_refusal B.machine offer.now x) calls.Ever (λ done. Took B.machine (input_of offer.now)) x result
            (IsStation B.state B.machine C drives self.new) }
        ensures pages { OnOk result (PagesStay B.stale self.old.node self.new.node) }
        ensures unchanged { OnErr result (self.new ≡ self.old) }
    {
        self.check(offer)?;
        let input = offer.input();
        self.inputs.push(self.count, &input)?;
        self.node.accept(input);
        Ok(())
    }

    /// A node takes a packet of the log: true if its entry is the next one, and is now held; a repeat, or one past a
    /// gap, is false.
    pub(crate) fn deliver_log(&mut self, bytes: &[u8]) -> R<bool>
        ensures answer { (C : Copying B.State) (drives : ℕ) (x : protocol.Node B.State) → IsStation B.state B.machine C drives self.old x
            → calls.DeliversLog NeedsEntry (packet_at bytes.now) x result (IsStation B.state B.machine C drives self.new) }
        ensures pages { OnOk result (PagesStay B.stale self.old.node self.new.node) }
        ensures unchanged { OnErr result (self.new ≡ self.old) }
    {
        let Some(entry) = self.node.next_entry(bytes)? else {
            return Ok(false);
        };
        let before = self.inputs.len();
        self.inputs.hold(&entry)?;
        match self.node.hold(entry) {
            Ok(()) => {
                self.count = entry.count();
                Ok(true)
            }
            Err(fault) => {
                self.inputs.truncate(before);
                Err(fault)
            }
        }
    }

    /// A node takes an acknowledgement, and returns how many entries are acknowledged then.
    pub(crate) fn deliver_acknowledgement(&mut self, bytes: &[u8]) -> R<u64>
        ensures answer { (C : Copying B.State) (drives : ℕ) (x : protocol.Node B.State) → IsStation B.state B.machine C drives self.old x
            → calls.DeliversAcknowledgement (packet_at bytes.now) x result (IsStation B.state B.machine C drives self.new) }
        ensures pages { OnOk result (PagesStay B.stale self.old.node self.new.node) }
        ensures unchanged { OnErr result (self.new ≡ self.old) }
    {
        self.node.on_ack(bytes)
    }

    /// A backup makes at most `turns` moves from the entries that it holds.
    pub(crate) fn replay(&mut self, turns: u64) -> R<Replayed>
        requires on_trace { MayReplay B.state B.machine self.old.node }
        ensures answer { (C : Copying B.State) (drives : ℕ) (x : protocol.Node B.State) → IsStation B.state B.machine C drives self.old x
            → calls.Replays B.machine turns x result (IsStation B.state B.machine C drives self.new) }
        ensures pages { OnOk result (PagesStay B.stale self.old.node self.new.node) }
        ensures unchanged { OnErr result (self.new ≡ self.old) }
    {
        self.node.replay(turns)
    }

    /// A node that won makes at most `turns` moves from the entries that it still holds; with nothing left it is alone.
    pub(crate) fn drain(&mut self, turns: u64) -> R<Drained>
        requires on_trace { MayReplay B.state B.machine self.old.node }
        ensures answer { (C : Copying B.State) (drives : ℕ) (x : protocol.Node B.State) → IsStation B.state B.machine C drives self.old x
            → calls.Drains B.machine turns x result (IsStation B.state B.machine C drives self.new) }
        ensures pages { OnOk result (PagesStay B.stale self.old.node self.new.node) }
        ensures unchanged { OnErr result (self.new ≡ self.old) }
    {
        let drained = self.node.drain(turns)?;
        self.count = self.settled_count(drained.why);
        Ok(drained)
    }

    /// A node halts.
    pub(crate) fn stop(&mut self) -> R<()>
        ensures answer { (C : Copying B.State) (drives : ℕ) (x : protocol.Node B.State) → IsStation B.state B.machine C drives self.old x
            → calls.Stops x result (IsStation B.state B.machine C drives self.new) }
        ensures pages { OnOk result (PagesStay B.stale self.old.node self.new.node) }
        ensures unchanged { OnErr result (self.new ≡ self.old) }
    {
        self.node.stop()
    }

    /// Asks the arbiter for the generation: the first node to ask has won, and is alone, or drains first if it was a backup.
    pub(crate) fn suspect(&mut self, id: u64, arbiter: &mut Arbiter) -> R<Won>
        ensures answer { (C : Copying B.State) (drives : ℕ) (x : protocol.Node B.State) → IsStation B.state B.machine C drives self.old x
            → calls.Suspects arbiter.old id x result arbiter.new (IsStation B.state B.machine C drives self.new) }
        ensures pages { OnOk result (PagesStay B.stale self.old.node self.new.node) }
        ensures beside { self.new ≡ record self.old { node = self.new.node } }
        ensures unchanged { IfErr result (λ fault. fault ≢ Lost → self.new ≡ self.old) }
        ensures arbiter { OnErr result (arbiter.new ≡ arbiter.old) }
    {
        self.node.suspect(id, arbiter)
    }
}

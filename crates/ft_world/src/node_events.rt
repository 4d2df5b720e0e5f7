//! The events at a node itself.
ghost use Rattle.std.specs.Prelude.{◌≡◌, if◌then◌else◌, IfErr, IfOk, OnErr, OnOk};
ghost use Rattle.ft_node.specs.Pages.{StepsWrite};
ghost use Rattle.ft_world.specs.Applies.{Applies, Happens, Shows, ShowsSome};
ghost use Rattle.ft_world.specs.Freshened.{PagesChange, PagesKeep, steps_in};
ghost use Rattle.ft_world.specs.Offers.{IsOffer, Offers};
ghost use Rattle.ft_world.specs.Pairs.{running_of};
ghost use Rattle.ft_world.specs.Standing.{Course};
ghost use Rattle.ft_world.specs.Staying.{SpareHostsStay, Stays};
ghost use Rattle.ft_world.specs.Words.{reply_of};
ghost use Rattle.pair_protocol.specs.Rows.{drain_reply};
ghost use Rattle.pair_events.specs.declared.event.Event.{Event};
ghost use Rattle.pair_events.specs.declared.event.Event.TheVariants as happens;
ghost use Rattle.pair_events.specs.declared.reply.Reply.TheVariants as reply;

use crate::message::Message;
use crate::offer::Offer;
use crate::pair::Pair;
use crate::{devices, hosts, messages};
use clone_state::Copies;
use ft_node::Drained;
use guest_lockstep::ReplayEnd;
use i8080_words::{Fault, R};
use pair_events::Reply;
use shared_disk::SectorStore;
use std::alloc::Global;

impl<B: Copies<H> + Drop, D: SectorStore, H: Drop> Pair<B, D, H> {
    /// The machine of a primary or alone node makes at most this many steps.
    pub(crate) fn step(&mut self, node: u64, turns: u64) -> R<Reply>
        requires shown { ShowsSome B.state B.copied B.machine D.records (running_of self.old) }
        ensures row { Happens B.state B.copied B.machine D.records (running_of self.old) (happens.Step node turns) result
            (running_of self.new) }
        ensures disk { self.new.disk ≡ self.old.disk }
        ensures unchanged { OnErr result (running_of self.new ≡ running_of self.old) }
        ensures pages { IfOk result (λ reply. PagesChange B.stale (StepsWrite B.state B.machine B.writes B.stale (steps_in reply)) node
            self.old.hosts.items self.new.hosts.items) }
        ensures spares { SpareHostsStay self.old.hosts.items self.new.hosts.items }
    {
        let station = hosts::station_mut(&mut self.hosts, node)?;
        let ran = station.step(turns)?;
        Ok(Reply::Ran {
            steps: ran.steps,
            count: ran.count,
            why: ran.why,
        })
    }

    /// A node takes the key at an index from the terminal of a port.
    pub(crate) fn take_key(&mut self, node: u64, port: u8, index: u64) -> R<Reply>
        requires shown { ShowsSome B.state B.copied B.machine D.records (running_of self.old) }
        ensures row { Happens B.state B.copied B.machine D.records (running_of self.old) (happens.TakeKey node port index) result
            (running_of self.new) }
        ensures disk { self.new.disk ≡ self.old.disk }
        ensures unchanged { OnErr result (running_of self.new ≡ running_of self.old) }
        ensures pages { OnOk result (PagesKeep B.stale self.old.hosts.items self.new.hosts.items) }
        ensures spares { SpareHostsStay self.old.hosts.items self.new.hosts.items }
    {
        let byte = devices::key_at(&self.terminals, port, index)?;
        self.take(node, &Offer::Key { port, index, byte })
    }

    // A node takes an input, whichever event offers it.
    pub(crate) fn take(&mut self, node: u64, offer: &Offer) -> R<Reply>
        requires { IsOffer offer.now }
        ensures row { (c : Course B.State) (e : Event) → Offers B.machine c node offer.now e
            → Shows B.state B.copied B.machine D.records (running_of self.old) c
            → Applies B.state B.copied B.machine D.records c e result (running_of self.new) }
        ensures disk { self.new.disk ≡ self.old.disk }
        ensures unchanged { OnErr result (running_of self.new ≡ running_of self.old) }
        ensures pages { OnOk result (PagesKeep B.stale self.old.hosts.items self.new.hosts.items) }
        ensures spares { SpareHostsStay self.old.hosts.items self.new.hosts.items }
    {
        let station = hosts::station_mut(&mut self.hosts, node)?;
        station.take(offer)?;
        Ok(Reply::Taken)
    }

    /// A primary sends an entry of its log.
    #[tactic(auto, using(crate::proofs::CopiedPages::pages_kept_on))]
    pub(crate) fn send(&mut self, alloc: Global, node: u64, index: u64) -> R<Reply>
        ensures row { Happens B.state B.copied B.machine D.records (running_of self.old) (happens.Send node index) result
            (running_of self.new) }
        ensures disk { self.new.disk ≡ self.old.disk }
        ensures unchanged { OnErr result (running_of self.new ≡ running_of self.old) }
        ensures pages { OnOk result (PagesKeep B.stale self.old.hosts.items self.new.hosts.items) }
        ensures spares { SpareHostsStay self.old.hosts.items self.new.hosts.items }
    {
        let station = hosts::station(&self.hosts, node)?;
        let bytes = station.node.packet(alloc, index)?;
        messages::say(&mut self.messages, Message::Log(bytes))
    }

    /// A log entry arrives at a backup.
    pub(crate) fn deliver_log(&mut self, message: u64, node: u64) -> R<Reply>
        ensures row { Happens B.state B.copied B.machine D.records (running_of self.old) (happens.DeliverLog message node) result
            (running_of self.new) }
        ensures disk { self.new.disk ≡ self.old.disk }
        ensures unchanged { OnErr result (running_of self.new ≡ running_of self.old) }
        ensures pages { OnOk result (PagesKeep B.stale self.old.hosts.items self.new.hosts.items) }
        ensures spares { SpareHostsStay self.old.hosts.items self.new.hosts.items }
    {
        let Some(packet) = messages::log_in(&self.messages, message) else {
            return Err(Fault::Unknown);
        };
        let station = hosts::station_mut(&mut self.hosts, node)?;
        let new = station.deliver_log(packet)?;
        Ok(new_or_old(new))
    }

    /// A backup sends an acknowledgement of all that it holds.
    #[tactic(auto, using(crate::proofs::CopiedPages::pages_kept_on))]
    pub(crate) fn acknowledge(&mut self, alloc: Global, node: u64) -> R<Reply>
        ensures row { Happens B.state B.copied B.machine D.records (running_of self.old) (happens.Acknowledge node) result
            (running_of self.new) }
        ensures disk { self.new.disk ≡ self.old.disk }
        ensures unchanged { OnErr result (running_of self.new ≡ running_of self.old) }
        ensures pages { OnOk result (PagesKeep B.stale self.old.hosts.items self.new.hosts.items) }
        ensures spares { SpareHostsStay self.old.hosts.items self.new.hosts.items }
    {
        let station = hosts::station(&self.hosts, node)?;
        let bytes = station.node.ack(alloc)?;
        messages::say(&mut self.messages, Message::Ack(bytes))
    }

    /// An acknowledgement arrives at a primary.
    pub(crate) fn deliver_acknowledgement(&mut self, message: u64, node: u64) -> R<Reply>
        ensures row { Happens B.state B.copied B.machine D.records (running_of self.old)
            (happens.DeliverAcknowledgement message node) result (running_of self.new) }
        ensures disk { self.new.disk ≡ self.old.disk }
        ensures unchanged { OnErr result (running_of self.new ≡ running_of self.old) }
        ensures pages { OnOk result (PagesKeep B.stale self.old.hosts.items self.new.hosts.items) }
        ensures spares { SpareHostsStay self.old.hosts.items self.new.hosts.items }
    {
        let Some(packet) = messages::ack_in(&self.messages, message) else {
            return Err(Fault::Unknown);
        };
        let station = hosts::station_mut(&mut self.hosts, node)?;
        let held = station.deliver_acknowledgement(packet)?;
        Ok(Reply::Held { held })
    }

    /// A backup makes at most this many moves from the entries that it holds.
    pub(crate) fn replay(&mut self, node: u64, turns: u64) -> R<Reply>
        requires shown { ShowsSome B.state B.copied B.machine D.records (running_of self.old) }
        ensures row { Happens B.state B.copied B.machine D.records (running_of self.old) (happens.Replay node turns) result
            (running_of self.new) }
        ensures disk { self.new.disk ≡ self.old.disk }
        ensures unchanged { OnErr result (running_of self.new ≡ running_of self.old) }
        ensures pages { OnOk result (PagesKeep B.stale self.old.hosts.items self.new.hosts.items) }
        ensures spares { SpareHostsStay self.old.hosts.items self.new.hosts.items }
    {
        let station = hosts::station_mut(&mut self.hosts, node)?;
        let replayed = station.replay(turns)?;
        Ok(Reply::Moved {
            moves: replayed.moves,
            why: replayed.why,
        })
    }

    /// A node asks the arbiter for its generation.
    pub(crate) fn suspect(&mut self, node: u64) -> R<Reply>
        requires shown { ShowsSome B.state B.copied B.machine D.records (running_of self.old) }
        ensures row { Happens B.state B.copied B.machine D.records (running_of self.old) (happens.Suspect node) result
            (running_of self.new) }
        ensures disk { self.new.disk ≡ self.old.disk }
        ensures unchanged { IfErr result (λ fault. Stays D.records (happens.Suspect node) fault (running_of self.old)
            (running_of self.new)) }
        ensures pages { OnOk result (PagesKeep B.stale self.old.hosts.items self.new.hosts.items) }
        ensures spares { SpareHostsStay self.old.hosts.items self.new.hosts.items }
    {
        let station = hosts::station_mut(&mut self.hosts, node)?;
        station.suspect(node, &mut self.arbiter)?;
        Ok(Reply::Won)
    }

    /// A node that won makes at most this many moves from the entries that it still holds.
    pub(crate) fn drain(&mut self, node: u64, turns: u64) -> R<Reply>
        requires shown { ShowsSome B.state B.copied B.machine D.records (running_of self.old) }
        ensures row { Happens B.state B.copied B.machine D.records (running_of self.old) (happens.Drain node turns) result
            (running_of self.new) }
        ensures disk { self.new.disk ≡ self.old.disk }
        ensures unchanged { OnErr result (running_of self.new ≡ running_of self.old) }
        ensures pages { OnOk result (PagesKeep B.stale self.old.hosts.items self.new.hosts.items) }
        ensures spares { SpareHostsStay self.old.hosts.items self.new.hosts.items }
    {
        let station = hosts::station_mut(&mut self.hosts, node)?;
        let drained = station.drain(turns)?;
        Ok(reply_to(drained))
    }

    /// A node halts.
    pub(crate) fn stop(&mut self, node: u64) -> R<Reply>
        ensures row { Happens B.state B.copied B.machine D.records (running_of self.old) (happens.Stop node) result
            (running_of self.new) }
        ensures disk { self.new.disk ≡ self.old.disk }
        ensures unchanged { OnErr result (running_of self.new ≡ running_of self.old) }
        ensures pages { OnOk result (PagesKeep B.stale self.old.hosts.items self.new.hosts.items) }
        ensures spares { SpareHostsStay self.old.hosts.items self.new.hosts.items }
    {
        let station = hosts::station_mut(&mut self.hosts, node)?;
        station.stop()?;
        Ok(Reply::Stopped)
    }
}

// The reply to a packet of the log, by whether it brought the next entry.
fn new_or_old(new: bool) -> Reply
    ensures { result ≡ (if new then reply.New else reply.Old) }
{
    if new { Reply::New } else { Reply::Old }
}

// The reply to a drain: with nothing left the node is alone.
fn reply_to(drained: Drained) -> Reply
    ensures { reply_of result ≡ drain_reply drained.moves drained.why }
{
    let Drained { moves, why } = drained;
    match why {
        ReplayEnd::End => Reply::MovedAlone { moves },
        ReplayEnd::Turns | ReplayEnd::Wait | ReplayEnd::Memory => Reply::Moved { moves, why },
    }
}

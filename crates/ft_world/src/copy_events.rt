//! The events of a generation that begins with a copied machine.
ghost use Rattle.std.specs.Prelude.{◌≡◌, OnErr, OnOk};
ghost use Rattle.ft_world.specs.Applies.{Happens, ShowsSome};
ghost use Rattle.ft_node.specs.Calls.{part_reply};
ghost use Rattle.ft_world.specs.Pairs.{running_of};
ghost use Rattle.ft_world.specs.Freshened.{Freshens, PagesKeep, TellsStale};
ghost use Rattle.ft_world.specs.Words.{reply_of};
ghost use Rattle.ft_world.specs.Staying.{SpareHostsStay, SparesAfter};
ghost use Rattle.pair_events.specs.declared.event.Event.TheVariants as happens;

use crate::message::Message;
use crate::pair::Pair;
use crate::{hosts, messages};
use clone_state::Copies;
use ft_node::PartCame;
use i8080_words::{Fault, R};
use pair_events::Reply;
use shared_disk::SectorStore;
use std::alloc::Global;

impl<B: Copies<H> + Drop, D: SectorStore, H: Drop> Pair<B, D, H> {
    /// A node that is alone begins the next generation with a spare host.
    pub(crate) fn begin_pair(&mut self, alloc: Global, node: u64, host: u64) -> R<Reply>
        requires shown { ShowsSome B.state B.copied B.machine D.records (running_of self.old) }
        ensures row { Happens B.state B.copied B.machine D.records (running_of self.old) (happens.BeginPair node host) result
            (running_of self.new) }
        ensures disk { self.new.disk ≡ self.old.disk }
        ensures unchanged { OnErr result (running_of self.new ≡ running_of self.old) }
        ensures pages { OnOk result (PagesKeep B.stale self.old.hosts.items self.new.hosts.items) }
        ensures spares { SparesAfter (happens.BeginPair node host) result self.old.hosts.items self.new.hosts.items }
    {
        hosts::check_pair(&self.hosts, node, host)?;
        let station = hosts::station_mut(&mut self.hosts, node)?;
        let opening = station.begin(alloc)?;
        let generation = opening.generation;
        hosts::join(&mut self.hosts, host, opening);
        self.generation = generation;
        self.backup = host as usize;
        Ok(Reply::Generation { generation })
    }

    /// A primary sends a part of its image.
    #[tactic(auto, using(crate::proofs::CopiedPages::pages_kept_on))]
    pub(crate) fn send_part(&mut self, alloc: Global, node: u64, index: u64) -> R<Reply>
        ensures row { Happens B.state B.copied B.machine D.records (running_of self.old) (happens.SendPart node index) result
            (running_of self.new) }
        ensures disk { self.new.disk ≡ self.old.disk }
        ensures unchanged { OnErr result (running_of self.new ≡ running_of self.old) }
        ensures pages { OnOk result (PagesKeep B.stale self.old.hosts.items self.new.hosts.items) }
        ensures spares { SpareHostsStay self.old.hosts.items self.new.hosts.items }
    {
        let station = hosts::station(&self.hosts, node)?;
        let bytes = station.node.send_part(alloc, index)?;
        messages::say(&mut self.messages, Message::Part(bytes))
    }

    /// A part of an image arrives at a joining node.
    pub(crate) fn part_comes(&mut self, alloc: Global, message: u64, node: u64) -> R<Reply>
        ensures row { Happens B.state B.copied B.machine D.records (running_of self.old) (happens.PartComes message node) result
            (running_of self.new) }
        ensures disk { self.new.disk ≡ self.old.disk }
        ensures unchanged { OnErr result (running_of self.new ≡ running_of self.old) }
        ensures pages { OnOk result (PagesKeep B.stale self.old.hosts.items self.new.hosts.items) }
        ensures spares { SpareHostsStay self.old.hosts.items self.new.hosts.items }
    {
        let Some(bytes) = messages::part_in(&self.messages, message) else {
            return Err(Fault::Unknown);
        };
        let station = hosts::station_mut(&mut self.hosts, node)?;
        let part = station.part(alloc, bytes)?;
        Ok(reply_to(part))
    }

    /// A node that is alone copies pages of its machine early.
    pub(crate) fn freshen(&mut self, alloc: Global, node: u64, pages: u64) -> R<Reply>
        ensures row { Happens B.state B.copied B.machine D.records (running_of self.old) (happens.Freshen node pages) result
            (running_of self.new) }
        ensures stale { TellsStale B.stale (happens.Freshen node pages) result self.old.hosts.items self.new.hosts.items }
        ensures disk { self.new.disk ≡ self.old.disk }
        ensures unchanged { OnErr result (running_of self.new ≡ running_of self.old) }
        ensures pages { Freshens B.stale node pages result self.old.hosts.items self.new.hosts.items }
        ensures spares { SpareHostsStay self.old.hosts.items self.new.hosts.items }
    {
        let station = hosts::station_mut(&mut self.hosts, node)?;
        let pages = station.freshen(alloc, pages)?;
        Ok(Reply::Stale { pages })
    }
}

// The reply to a part.
fn reply_to(part: PartCame) -> Reply
    ensures { reply_of result ≡ part_reply part }
{
    match part {
        PartCame::New => Reply::New,
        PartCame::Old => Reply::Old,
        PartCame::Whole => Reply::Whole,
    }
}

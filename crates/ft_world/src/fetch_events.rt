//! The events by which a node that replays reads the shared disk.
ghost use Rattle.std.specs.Prelude.{◌≡◌, IfErr, OnErr, OnOk};
ghost use Rattle.shared_disk.specs.Failing.{before_failures};
ghost use Rattle.shared_disk.specs.Records.{faults_in};
ghost use Rattle.ft_world.specs.Applies.{Happens, ShowsSome};
ghost use Rattle.ft_world.specs.Freshened.{PagesKeep};
ghost use Rattle.ft_world.specs.Pairs.{running_of};
ghost use Rattle.ft_world.specs.Staying.{SpareHostsStay, Stays};
ghost use Rattle.pair_events.specs.declared.event.Event.TheVariants as happens;

use crate::pair::Pair;
use crate::{devices, hosts, messages};
use clone_state::Copies;
use i8080_words::{Fault, R};
use pair_events::Reply;
use shared_disk::SectorStore;
use std::alloc::Global;

impl<B: Copies<H> + Drop, D: SectorStore, H: Drop> Pair<B, D, H> {
    /// A node that waits for the bytes of a sector asks the disk for it.
    #[tactic(auto, using(crate::proofs::CopiedPages::pages_kept_on))]
    pub(crate) fn fetch(&mut self, alloc: Global, node: u64) -> R<Reply>
        requires shown { ShowsSome B.state B.copied B.machine D.records (running_of self.old) }
        ensures row { Happens B.state B.copied B.machine D.records (running_of self.old) (happens.Fetch node) result
            (running_of self.new) }
        ensures counted { D.may_fail self.old.disk ≡ before_failures (faults_in result) (D.may_fail self.new.disk) }
        ensures unchanged { IfErr result (λ fault. Stays D.records (happens.Fetch node) fault (running_of self.old)
            (running_of self.new)) }
        ensures pages { OnOk result (PagesKeep B.stale self.old.hosts.items self.new.hosts.items) }
        ensures spares { SpareHostsStay self.old.hosts.items self.new.hosts.items }
    {
        let station = hosts::station(&self.hosts, node)?;
        let address = station.node.wanted()?;
        devices::get(alloc, &mut self.messages, &mut self.disk, address)
    }

    /// A sector that was read arrives at a node that waits for its bytes.
    pub(crate) fn fetched(&mut self, message: u64, node: u64) -> R<Reply>
        requires shown { ShowsSome B.state B.copied B.machine D.records (running_of self.old) }
        ensures row { Happens B.state B.copied B.machine D.records (running_of self.old) (happens.Fetched message node) result
            (running_of self.new) }
        ensures disk { self.new.disk ≡ self.old.disk }
        ensures unchanged { OnErr result (running_of self.new ≡ running_of self.old) }
        ensures pages { OnOk result (PagesKeep B.stale self.old.hosts.items self.new.hosts.items) }
        ensures spares { SpareHostsStay self.old.hosts.items self.new.hosts.items }
    {
        let Some(read) = messages::sector_in(&self.messages, message) else {
            return Err(Fault::Unknown);
        };
        let station = hosts::station_mut(&mut self.hosts, node)?;
        station.fetched(&read)?;
        Ok(Reply::Taken)
    }
}

//! The events at terminals and at the disk, and the answers that nodes get.
ghost use Rattle.std.specs.Prelude.{◌≡◌, IfErr, OnErr, OnOk};
ghost use Rattle.shared_disk.specs.Failing.{before_failures};
ghost use Rattle.shared_disk.specs.Records.{faults_in};
ghost use Rattle.ft_world.specs.Applies.{Happens, ShowsSome};
ghost use Rattle.ft_world.specs.Freshened.{PagesKeep};
ghost use Rattle.ft_world.specs.Pairs.{running_of};
ghost use Rattle.ft_world.specs.Staying.{SpareHostsStay, Stays};
ghost use Rattle.pair_events.specs.declared.event.Event.TheVariants as happens;

use crate::offer::Offer;
use crate::pair::Pair;
use crate::{devices, hosts, messages};
use clone_state::Copies;
use disk_dcdd::SECTORS;
use event_callbacks::{OpId, PORTS};
use i8080_words::{Fault, R};
use pair_events::Reply;
use shared_disk::SectorStore;
use std::alloc::Global;

impl<B: Copies<H> + Drop, D: SectorStore, H: Drop> Pair<B, D, H> {
    /// A byte is typed at the terminal of a port.
    #[tactic(auto, using(crate::proofs::CopiedPages::pages_kept_on))]
    pub(crate) fn type_byte(&mut self, port: u8, byte: u8) -> R<Reply>
        ensures row { Happens B.state B.copied B.machine D.records (running_of self.old) (happens.TypeByte port byte) result
            (running_of self.new) }
        ensures disk { self.new.disk ≡ self.old.disk }
        ensures unchanged { OnErr result (running_of self.new ≡ running_of self.old) }
        ensures pages { OnOk result (PagesKeep B.stale self.old.hosts.items self.new.hosts.items) }
        ensures spares { SpareHostsStay self.old.hosts.items self.new.hosts.items }
    {
        devices::type_byte(&mut self.terminals, port, byte)
    }

    /// A node sends an outstanding operation to its device.
    #[tactic(auto, using(crate::proofs::CopiedPages::pages_kept_on))]
    pub(crate) fn release(&mut self, alloc: Global, node: u64, id: OpId) -> R<Reply>
        ensures row { Happens B.state B.copied B.machine D.records (running_of self.old) (happens.Release node id) result
            (running_of self.new) }
        ensures disk { self.new.disk ≡ self.old.disk }
        ensures unchanged { OnErr result (running_of self.new ≡ running_of self.old) }
        ensures pages { OnOk result (PagesKeep B.stale self.old.hosts.items self.new.hosts.items) }
        ensures spares { SpareHostsStay self.old.hosts.items self.new.hosts.items }
    {
        devices::check_device(id)?;
        let station = hosts::station(&self.hosts, node)?;
        let operation = station.node.release(id)?;
        messages::say_released(alloc, &mut self.messages, operation)
    }

    /// A released byte arrives at its terminal.
    #[tactic(auto, using(crate::proofs::CopiedPages::pages_kept_on))]
    pub(crate) fn arrive(&mut self, message: u64) -> R<Reply>
        ensures row { Happens B.state B.copied B.machine D.records (running_of self.old) (happens.Arrive message) result
            (running_of self.new) }
        ensures disk { self.new.disk ≡ self.old.disk }
        ensures unchanged { OnErr result (running_of self.new ≡ running_of self.old) }
        ensures pages { OnOk result (PagesKeep B.stale self.old.hosts.items self.new.hosts.items) }
        ensures spares { SpareHostsStay self.old.hosts.items self.new.hosts.items }
    {
        let Some((port, number, byte)) = messages::byte_in(&self.messages, message) else {
            return Err(Fault::Unknown);
        };
        devices::arrive(&mut self.terminals, port, number, byte)
    }

    /// A node is told that the terminal of a port has accepted the byte with a number.
    pub(crate) fn tell_sent(&mut self, node: u64, port: u8, number: u64) -> R<Reply>
        requires shown { ShowsSome B.state B.copied B.machine D.records (running_of self.old) }
        ensures row { Happens B.state B.copied B.machine D.records (running_of self.old) (happens.TellSent node port number)
            result (running_of self.new) }
        ensures disk { self.new.disk ≡ self.old.disk }
        ensures unchanged { OnErr result (running_of self.new ≡ running_of self.old) }
        ensures pages { OnOk result (PagesKeep B.stale self.old.hosts.items self.new.hosts.items) }
        ensures spares { SpareHostsStay self.old.hosts.items self.new.hosts.items }
    {
        devices::check_accepted(&self.terminals, port, number)?;
        self.take(node, &Offer::Sent { port, number })
    }

    /// The terminal of a port is told how many of its keys a node has covered.
    #[tactic(auto, using(crate::proofs::CopiedPages::pages_kept_on))]
    pub(crate) fn tell(&mut self, node: u64, port: u8) -> R<Reply>
        ensures row { Happens B.state B.copied B.machine D.records (running_of self.old) (happens.Told node port) result
            (running_of self.new) }
        ensures disk { self.new.disk ≡ self.old.disk }
        ensures unchanged { OnErr result (running_of self.new ≡ running_of self.old) }
        ensures pages { OnOk result (PagesKeep B.stale self.old.hosts.items self.new.hosts.items) }
        ensures spares { SpareHostsStay self.old.hosts.items self.new.hosts.items }
    {
        if port as usize >= PORTS {
            return Err(Fault::Unknown);
        }
        let station = hosts::station(&self.hosts, node)?;
        let keys = station.node.told(port)?;
        devices::tell(&mut self.terminals, port, keys);
        Ok(Reply::Told { keys })
    }

    /// A released write arrives at the shared disk.
    #[tactic(auto, using(crate::proofs::CopiedPages::pages_kept_on))]
    pub(crate) fn put(&mut self, message: u64) -> R<Reply>
        requires shown { ShowsSome B.state B.copied B.machine D.records (running_of self.old) }
        ensures row { Happens B.state B.copied B.machine D.records (running_of self.old) (happens.Put message) result
            (running_of self.new) }
        ensures counted { D.may_fail self.old.disk ≡ before_failures (faults_in result) (D.may_fail self.new.disk) }
        ensures unchanged { IfErr result (λ fault. Stays D.records (happens.Put message) fault (running_of self.old)
            (running_of self.new)) }
        ensures pages { OnOk result (PagesKeep B.stale self.old.hosts.items self.new.hosts.items) }
        ensures spares { SpareHostsStay self.old.hosts.items self.new.hosts.items }
    {
        let Some(write) = messages::write_in(&self.messages, message) else {
            return Err(Fault::Unknown);
        };
        devices::put(&mut self.messages, &mut self.disk, &write)
    }

    /// The disk's answer to a write arrives at a node.
    pub(crate) fn put_reply(&mut self, message: u64, node: u64) -> R<Reply>
        requires shown { ShowsSome B.state B.copied B.machine D.records (running_of self.old) }
        ensures row { Happens B.state B.copied B.machine D.records (running_of self.old) (happens.PutReply message node) result
            (running_of self.new) }
        ensures disk { self.new.disk ≡ self.old.disk }
        ensures unchanged { OnErr result (running_of self.new ≡ running_of self.old) }
        ensures pages { OnOk result (PagesKeep B.stale self.old.hosts.items self.new.hosts.items) }
        ensures spares { SpareHostsStay self.old.hosts.items self.new.hosts.items }
    {
        let Some(number) = messages::written_in(&self.messages, message) else {
            return Err(Fault::Unknown);
        };
        self.take(node, &Offer::Written { number })
    }

    /// A node reads a sector of its selected drive.
    #[tactic(auto, using(crate::proofs::CopiedPages::pages_kept_on))]
    pub(crate) fn get(&mut self, alloc: Global, node: u64, sector: u8) -> R<Reply>
        requires shown { ShowsSome B.state B.copied B.machine D.records (running_of self.old) }
        ensures row { Happens B.state B.copied B.machine D.records (running_of self.old) (happens.Get node sector) result
            (running_of self.new) }
        ensures counted { D.may_fail self.old.disk ≡ before_failures (faults_in result) (D.may_fail self.new.disk) }
        ensures unchanged { IfErr result (λ fault. Stays D.records (happens.Get node sector) fault (running_of self.old)
            (running_of self.new)) }
        ensures pages { OnOk result (PagesKeep B.stale self.old.hosts.items self.new.hosts.items) }
        ensures spares { SpareHostsStay self.old.hosts.items self.new.hosts.items }
    {
        if sector >= SECTORS {
            return Err(Fault::Unknown);
        }
        let station = hosts::station(&self.hosts, node)?;
        let address = station.node.place(sector)?;
        devices::get(alloc, &mut self.messages, &mut self.disk, address)
    }

    /// A sector that was read arrives at a node.
    pub(crate) fn get_reply(&mut self, message: u64, node: u64) -> R<Reply>
        requires shown { ShowsSome B.state B.copied B.machine D.records (running_of self.old) }
        ensures row { Happens B.state B.copied B.machine D.records (running_of self.old) (happens.GetReply message node) result
            (running_of self.new) }
        ensures disk { self.new.disk ≡ self.old.disk }
        ensures unchanged { OnErr result (running_of self.new ≡ running_of self.old) }
        ensures pages { OnOk result (PagesKeep B.stale self.old.hosts.items self.new.hosts.items) }
        ensures spares { SpareHostsStay self.old.hosts.items self.new.hosts.items }
    {
        let Some(read) = messages::sector_in(&self.messages, message) else {
            return Err(Fault::Unknown);
        };
        self.take(node, &Offer::Sector { read })
    }
}

//! The backup of a generation.
ghost use Rattle.std.specs.Prelude.{◌≡◌, IfOk, IfSome, Ok, OnErr};
ghost use Rattle.log_channel.specs.Channel.{MayHold};
ghost use Rattle.log_channel.specs.Packet.{packet_at};
ghost use Rattle.pair_protocol.specs.Node as protocol;
ghost use Rattle.log_entry.specs.Standing.{IsOnTrace};
ghost use Rattle.ft_node.specs.Ahead.{RunsAhead, may_run_ahead, steps_ahead};
ghost use Rattle.ft_node.specs.Calls as calls;
ghost use Rattle.replayer.specs.Replaying.{place_of};
ghost use Rattle.ft_node.specs.Checked as checked;
ghost use Rattle.ft_node.specs.Roles.{IsFollower};

use crate::ran::Lead;
use disk_dcdd::SectorAddress;
use guest_lockstep::{Lockstep, Reads, Stopped};
use i8080_words::{Fault, R};
use log_channel::Receiver;
use log_entry::Entry;
use replayer::{Replayed, Replayer};
use shared_disk::SectorRead;
use std::alloc::Global;

/// A guest that holds the log of its primary and repeats it (VMware FT, section 2.1).
#[derive(Drop)]
pub struct Backup<B> {
    pub(crate) replayer: Replayer<B>,
    pub(crate) receiver: Receiver,
    pub(crate) reads: Reads,
}

impl<B: Lockstep> Backup<B> {
    /// The entry that a packet of the log brings; `None` if it is a repeat or past a gap.
    pub(crate) fn next_entry(&self, bytes: &[u8]) -> R<Option<Entry>>
        ensures answer { (x : protocol.Node B.State)
            → IsFollower protocol.Backup self.now.reads (B.state self.now.replayer.board) self.now.replayer.fetched
            self.now.receiver x
            → calls.Expects (packet_at bytes.now) x result }
        ensures may { IfOk result (λ next. IfSome next (MayHold self.now.receiver)) }
    {
        self.receiver.next_entry(bytes)
    }

    /// Holds the next entry.
    pub(crate) fn hold(&mut self, entry: Entry) -> R<()>
        requires { MayHold self.old.receiver entry }
        ensures answer { (x : protocol.Node B.State)
            → IsFollower protocol.Backup self.old.reads (B.state self.old.replayer.board) self.old.replayer.fetched
            self.old.receiver x
            → calls.Holds entry x result
            (IsFollower protocol.Backup self.new.reads (B.state self.new.replayer.board) self.new.replayer.fetched
            self.new.receiver) }
        ensures unchanged { OnErr result (self.new ≡ self.old) }
    {
        self.receiver.hold(entry)
    }

    /// The packet that acknowledges all that is held, and with shared reads reports how much of it is replayed.
    pub(crate) fn ack(&self, alloc: Global) -> R<Vec<u8>>
        ensures { (x : protocol.Node B.State)
            → IsFollower protocol.Backup self.now.reads (B.state self.now.replayer.board) self.now.replayer.fetched
            self.now.receiver x
            → calls.Acknowledges x result }
    {
        // Both are in a packet's range.
        let _ = (self.receiver.generation(), self.receiver.held());
        let replayed = match self.reads {
            Reads::Logged => None,
            Reads::Shared => Some(self.receiver.popped()),
        };
        self.receiver.ack(alloc, replayed)
    }

    /// Makes at most `turns` moves, each of them a step or a held entry, as far as the entries fit.
    pub(crate) fn replay(&mut self, turns: u64) -> R<Replayed>
        ensures answer { (x : protocol.Node B.State)
            → IsFollower protocol.Backup self.old.reads (B.state self.old.replayer.board) self.old.replayer.fetched
            self.old.receiver x
            → checked.Replays B.machine turns x result
            (IsFollower protocol.Backup self.new.reads (B.state self.new.replayer.board) self.new.replayer.fetched
            self.new.receiver) }
        ensures exactly { IsOnTrace B.machine (B.state self.old.replayer.board) self.old.receiver.entries
            self.old.replayer.fetched → (x : protocol.Node B.State)
            → IsFollower protocol.Backup self.old.reads (B.state self.old.replayer.board) self.old.replayer.fetched
            self.old.receiver x
            → calls.Replays B.machine turns x result
            (IsFollower protocol.Backup self.new.reads (B.state self.new.replayer.board) self.new.replayer.fetched
            self.new.receiver) }
        ensures unchanged { OnErr result (self.new ≡ self.old) }
    {
        self.replayer.replay(&mut self.receiver, turns)
    }

    /// Makes at most `turns` steps past the last entry that it holds, up to where its primary was.
    pub(crate) fn run_ahead(&mut self, lead: Lead, turns: u64) -> Stopped
        ensures { (x : protocol.Node B.State)
            → IsFollower protocol.Backup self.old.reads (B.state self.old.replayer.board) self.old.replayer.fetched
            self.old.receiver x
            → RunsAhead B.machine lead turns x (Ok result)
            (IsFollower protocol.Backup self.new.reads (B.state self.new.replayer.board) self.new.replayer.fetched
            self.new.receiver) }
    {
        let most = turns.min(self.steps_ahead(lead));
        self.replayer.run_ahead(most)
    }

    // How many steps it may make past that entry.
    fn steps_ahead(&self, lead: Lead) -> u64
        ensures { (x : protocol.Node B.State)
            → IsFollower protocol.Backup self.now.reads (B.state self.now.replayer.board) self.now.replayer.fetched
            self.now.receiver x
            → steps_ahead B.machine lead x ≡ result }
    {
        if !self.may_run_ahead(lead) {
            return 0;
        }
        lead.count.saturating_sub(self.replayer.board().count())
    }

    // Whether it has replayed all that it holds, and holds all that its primary had.
    fn may_run_ahead(&self, lead: Lead) -> bool
        ensures { (x : protocol.Node B.State)
            → IsFollower protocol.Backup self.now.reads (B.state self.now.replayer.board) self.now.replayer.fetched
            self.now.receiver x
            → may_run_ahead lead x ≡ result }
    {
        self.receiver.is_empty() && lead.entries <= self.receiver.held()
    }

    /// The sector for whose bytes it waits.
    pub(crate) fn wanted(&self) -> R<SectorAddress>
        ensures { (x : protocol.Node B.State)
            → IsFollower protocol.Backup self.now.reads (B.state self.now.replayer.board) self.now.replayer.fetched
            self.now.receiver x
            → calls.Wanted B.machine x result }
    {
        let Some((drive, sector, _)) = self.replayer.wanted(&self.receiver) else {
            return Err(Fault::NotDue);
        };
        Ok(self.replayer.board().sector_under(drive, sector))
    }

    /// Takes the bytes of the sector for which it waits.
    pub(crate) fn fetched(&mut self, read: &SectorRead) -> R<()>
        ensures answer { (x : protocol.Node B.State)
            → IsFollower protocol.Backup self.old.reads (B.state self.old.replayer.board) self.old.replayer.fetched
            self.old.receiver x
            → calls.Fetches B.machine (place_of read.now) read.now.number read.now.bytes x result
            (IsFollower protocol.Backup self.new.reads (B.state self.new.replayer.board) self.new.replayer.fetched
            self.new.receiver) }
        ensures unchanged { OnErr result (self.new ≡ self.old) }
    {
        self.replayer.bytes(&self.receiver, read)
    }
}

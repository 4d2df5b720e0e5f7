//! A backup that won.
ghost use Rattle.std.specs.Prelude.{◌≡◌, OnErr};
ghost use Rattle.log_entry.specs.Standing.{IsOnTrace};
ghost use Rattle.pair_protocol.specs.Node as protocol;
ghost use Rattle.replayer.specs.Checking.{AnswersUntrusted};
ghost use Rattle.replayer.specs.Replaying.{Answers, place_of};
ghost use Rattle.ft_node.specs.Calls as calls;
ghost use Rattle.ft_node.specs.Roles.{IsFollower};

use disk_dcdd::SectorAddress;
use go_live::Draining;
use guest_lockstep::{Lockstep, Reads};
use i8080_words::{Fault, R};
use replayer::Replayed;
use shared_disk::SectorRead;

/// A guest that replays all that its node holds, and is then alone (VMware FT, section 2.3, "go live"); the next
/// generation's log will carry sectors as its own does.
#[derive(Drop)]
pub struct Winner<B> {
    pub(crate) draining: Draining<B>,
    pub(crate) reads: Reads,
}

impl<B: Lockstep> Winner<B> {
    /// Makes at most `turns` moves from the entries that are held, as far as they fit.
    pub(crate) fn drain(&mut self, turns: u64) -> R<Replayed>
        ensures answers { AnswersUntrusted B.machine (B.state self.old.draining.replayer.board)
            self.old.draining.receiver.entries self.old.draining.replayer.fetched turns result
            (B.state self.new.draining.replayer.board) self.new.draining.receiver.entries
            self.new.draining.replayer.fetched }
        ensures exactly { IsOnTrace B.machine (B.state self.old.draining.replayer.board)
            self.old.draining.receiver.entries self.old.draining.replayer.fetched
            → Answers B.machine (B.state self.old.draining.replayer.board)
            self.old.draining.receiver.entries self.old.draining.replayer.fetched turns result
            (B.state self.new.draining.replayer.board) self.new.draining.receiver.entries
            self.new.draining.replayer.fetched }
        ensures held { self.new.draining.receiver
            ≡ record self.old.draining.receiver { entries = self.new.draining.receiver.entries } }
        ensures reads { self.new.reads ≡ self.old.reads }
        ensures unchanged { OnErr result (self.new ≡ self.old) }
    {
        self.draining.drain(turns)
    }

    /// The sector for whose bytes it waits.
    pub(crate) fn wanted(&self) -> R<SectorAddress>
        ensures { (x : protocol.Node B.State)
            → IsFollower protocol.Draining self.now.reads (B.state self.now.draining.replayer.board)
            self.now.draining.replayer.fetched self.now.draining.receiver x
            → calls.Wanted B.machine x result }
    {
        let Some((drive, sector, _)) = self.draining.wanted() else {
            return Err(Fault::NotDue);
        };
        Ok(self.draining.board().sector_under(drive, sector))
    }

    /// Takes the bytes of the sector for which it waits.
    pub(crate) fn fetched(&mut self, read: &SectorRead) -> R<()>
        ensures answer { (x : protocol.Node B.State)
            → IsFollower protocol.Draining self.old.reads (B.state self.old.draining.replayer.board)
            self.old.draining.replayer.fetched self.old.draining.receiver x
            → calls.Fetches B.machine (place_of read.now) read.now.number read.now.bytes x result
            (IsFollower protocol.Draining self.new.reads (B.state self.new.draining.replayer.board)
            self.new.draining.replayer.fetched self.new.draining.receiver) }
        ensures unchanged { OnErr result (self.new ≡ self.old) }
    {
        self.draining.bytes(read)
    }
}

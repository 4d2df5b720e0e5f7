//! A guest with what it still has to replay.
ghost use Rattle.std.specs.Prelude.{◌≡◌, ◌<◌, ◌≤◌, ◌↔◌, [], IfErr, IfOk, IfSome, IsOk, None, OnErr, OnOk, Some};
ghost use Rattle.disk_dcdd.specs.Completion.{answered};
ghost use Rattle.disk_dcdd.specs.declared.controller.TheConstants.{DRIVES};
ghost use Rattle.disk_dcdd.specs.declared.sector.TheConstants.{SECTORS};
ghost use Rattle.i8080_words.specs.declared.refusal.Fault.TheVariants.{WrongRole};
ghost use Rattle.log_entry.specs.Entries.{last_count};
ghost use Rattle.log_entry.specs.Standing.{IsOnTrace};
ghost use Rattle.replayer.specs.Checking as checking;
ghost use Rattle.replayer.specs.Replaying as table;
ghost use Rattle.replayer.specs.Standing.{StaysOnEach};

use guest_lockstep::Lockstep;
use i8080_words::{Fault, R};
use log_channel::Receiver;
use replayer::{Replayed, Replayer};
use shared_disk::SectorRead;

/// The guest of a backup that won, which takes no input until it has replayed every entry that is held (VMware FT,
/// section 2.3, "go live").
#[derive(Drop)]
pub struct Draining<B> {
    replayer: Replayer<B>,
    receiver: Receiver,
}

impl<B: Lockstep> Draining<B> {
    /// What the backup replays, and what it holds.
    pub fn begin(replayer: Replayer<B>, receiver: Receiver) -> Draining<B>
        ensures replayer { result.replayer ≡ replayer }
        ensures receiver { result.receiver ≡ receiver }
    {
        Draining { replayer, receiver }
    }

    /// The guest.
    pub fn board(&self) -> &B
        ensures { result.now ≡ self.now.replayer.board }
    {
        self.replayer.board()
    }

    /// What is still held.
    pub fn receiver(&self) -> &Receiver
        ensures { result.now ≡ self.now.receiver }
    {
        &self.receiver
    }

    /// Makes at most `turns` moves, each of them a step or an entry, as the replayer's `replay`.
    pub fn drain(&mut self, turns: u64) -> R<Replayed>
        ensures answers { checking.AnswersUntrusted B.machine (B.state self.old.replayer.board) self.old.receiver.entries
            self.old.replayer.fetched turns result (B.state self.new.replayer.board) self.new.receiver.entries
            self.new.replayer.fetched }
        ensures exactly { IsOnTrace B.machine (B.state self.old.replayer.board) self.old.receiver.entries
            self.old.replayer.fetched
            → table.Answers B.machine (B.state self.old.replayer.board) self.old.receiver.entries
            self.old.replayer.fetched turns result (B.state self.new.replayer.board) self.new.receiver.entries
            self.new.replayer.fetched }
        ensures stays { StaysOnEach B.machine (B.state self.old.replayer.board) self.old.receiver.entries
            self.old.replayer.fetched (B.state self.new.replayer.board) self.new.receiver.entries
            self.new.replayer.fetched }
        ensures on_trace { IsOnTrace B.machine (B.state self.old.replayer.board) self.old.receiver.entries
            self.old.replayer.fetched
            → IsOnTrace B.machine (B.state self.new.replayer.board) self.new.receiver.entries self.new.replayer.fetched }
        ensures below { IsOnTrace B.machine (B.state self.old.replayer.board) self.old.receiver.entries
            self.old.replayer.fetched
            → B.machine.count (B.state self.new.replayer.board)
            ≤ last_count (B.machine.count (B.state self.old.replayer.board)) self.old.receiver.entries }
        ensures held { self.new.receiver ≡ record self.old.receiver { entries = self.new.receiver.entries } }
        ensures unchanged { OnErr result (self.new ≡ self.old) }
    {
        self.replayer.replay(&mut self.receiver, turns)
    }

    /// The drive, the sector and the number of the read that it waits for, as the replayer's `wanted`.
    pub fn wanted(&self) -> Option<(u8, u8, u64)>
        ensures value { result ≡ table.wanted B.machine (B.state self.now.replayer.board) self.now.receiver.entries
            self.now.replayer.fetched }
        ensures within { IfSome result (λ read. (read.0 < DRIVES) × (read.1 < SECTORS)) }
    {
        self.replayer.wanted(&self.receiver)
    }

    /// Keeps the bytes of the sector that it waits for, as the replayer's `bytes`.
    pub fn bytes(&mut self, read: &SectorRead) -> R<()>
        ensures answer { result ≡ answered (table.bytes_refusal B.machine (B.state self.old.replayer.board)
            self.old.receiver.entries self.old.replayer.fetched read.now) }
        ensures kept { OnOk result (self.new
            ≡ record self.old { replayer = record self.old.replayer { fetched = Some read.now.bytes } }) }
        ensures unchanged { OnErr result (self.new ≡ self.old) }
    {
        self.replayer.bytes(&self.receiver, read)
    }

    /// The guest, which is then alone. `WrongRole` if an entry is still held, with the value unchanged.
    pub fn finish(self) -> Result<B, (Draining<B>, Fault)>
        ensures drained { IsOk result ↔ (self.receiver.entries ≡ []) }
        ensures board { IfOk result (λ board. board ≡ self.replayer.board) }
        ensures refused { IfErr result (λ refusal. (refusal.0 ≡ self) × (refusal.1 ≡ WrongRole)) }
    {
        if !self.receiver.is_empty() {
            return Err((self, Fault::WrongRole));
        }
        let Draining {
            replayer,
            receiver: _,
        } = self;
        Ok(replayer.into_board())
    }
}

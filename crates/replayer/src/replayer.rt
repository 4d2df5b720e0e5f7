//! A guest that repeats the moves of another.
ghost use Rattle.std.specs.Prelude.{◌≡◌, ◌<◌, ◌≤◌, IfSome, None, OnErr, OnOk, Some};
ghost use Rattle.disk_dcdd.specs.Completion.{answered};
ghost use Rattle.disk_dcdd.specs.declared.controller.TheConstants.{DRIVES};
ghost use Rattle.disk_dcdd.specs.declared.sector.TheConstants.{SECTORS};
ghost use Rattle.guest_lockstep.specs.Running.{RunsOn};
ghost use Rattle.log_entry.specs.Entries.{last_count};
ghost use Rattle.log_entry.specs.Standing.{IsOnTrace};
ghost use Rattle.replayer.specs.Checking as checking;
ghost use Rattle.replayer.specs.Replaying as table;
ghost use Rattle.replayer.specs.Standing.{StaysOnEach};

use crate::reads::{is_at, wanted};
use crate::replay::run;
use disk_dcdd::SECTOR_BYTES;
use guest_lockstep::{Lockstep, ReplayEnd, Stopped};
use i8080_words::{Fault, R};
use log_channel::Receiver;
use shared_disk::SectorRead;

/// How many moves were made, and why no more were.
#[derive(Clone, Copy, PartialEq, Eq)]
pub struct Replayed {
    pub moves: u64,
    pub why: ReplayEnd,
}

/// A guest that repeats the moves of another, and makes none that the entries do not show (VMware FT, section 2.1,
/// "deterministic replay"). A sector that the log does not carry comes from the shared disk (section 4.2).
#[derive(Drop)]
pub struct Replayer<B> {
    board: B,
    fetched: Option<[u8; SECTOR_BYTES]>,
}

impl<B: Lockstep> Replayer<B> {
    /// A guest that begins to repeat.
    pub fn new(board: B) -> Replayer<B>
        ensures board { result.board ≡ board }
        ensures fetched { result.fetched ≡ None }
    {
        Replayer {
            board,
            fetched: None,
        }
    }

    /// The guest.
    pub fn board(&self) -> &B
        ensures { result.now ≡ self.now.board }
    {
        &self.board
    }

    /// The guest, which no longer repeats.
    pub fn into_board(self) -> B
        ensures { result ≡ self.board }
    {
        let Replayer { board, fetched: _ } = self;
        board
    }

    /// Makes at most `turns` moves, each of them a step or an entry. Makes fewer only if no entry is held any longer, the
    /// next one is a read whose bytes have not arrived, a step runs out of memory, or no move by the next one can be made,
    /// since it is not of this guest's run. If the first move is not made, it is refused with `OutOfMemory` or `Malformed`.
    pub fn replay(&mut self, receiver: &mut Receiver, turns: u64) -> R<Replayed>
        ensures answers { checking.AnswersUntrusted B.machine (B.state self.old.board) receiver.old.entries self.old.fetched
            turns result (B.state self.new.board) receiver.new.entries self.new.fetched }
        ensures exactly { IsOnTrace B.machine (B.state self.old.board) receiver.old.entries self.old.fetched
            → table.Answers B.machine (B.state self.old.board) receiver.old.entries self.old.fetched turns
            result (B.state self.new.board) receiver.new.entries self.new.fetched }
        ensures stays { StaysOnEach B.machine (B.state self.old.board) receiver.old.entries self.old.fetched
            (B.state self.new.board) receiver.new.entries self.new.fetched }
        ensures on_trace { IsOnTrace B.machine (B.state self.old.board) receiver.old.entries self.old.fetched
            → IsOnTrace B.machine (B.state self.new.board) receiver.new.entries self.new.fetched }
        ensures below { IsOnTrace B.machine (B.state self.old.board) receiver.old.entries self.old.fetched
            → B.machine.count (B.state self.new.board)
            ≤ last_count (B.machine.count (B.state self.old.board)) receiver.old.entries }
        ensures held { receiver.new ≡ record receiver.old { entries = receiver.new.entries } }
        ensures unchanged { OnErr result ((self.new ≡ self.old) × (receiver.new ≡ receiver.old)) }
    {
        run(&mut self.board, &mut self.fetched, receiver, turns)
    }

    /// Executes at most `turns` steps that no entry shows, and stops after the first that gives an operation.
    pub fn run_ahead(&mut self, turns: u64) -> Stopped
        ensures runs { RunsOn B.machine (B.state self.old.board) turns result (B.state self.new.board) }
        ensures fetched { self.new.fetched ≡ self.old.fetched }
        ensures unchanged { result.steps ≡ 0 → self.new ≡ self.old }
    {
        guest_lockstep::run(&mut self.board, turns)
    }

    /// The drive, the sector and the number of the read that it waits for: the next entry, at its count, whose bytes have
    /// not arrived.
    pub fn wanted(&self, receiver: &Receiver) -> Option<(u8, u8, u64)>
        ensures value { result
            ≡ table.wanted B.machine (B.state self.now.board) receiver.now.entries self.now.fetched }
        ensures within { IfSome result (λ read. (read.0 < DRIVES) × (read.1 < SECTORS)) }
    {
        wanted(&self.board, self.fetched, receiver)
    }

    /// Keeps the bytes of the sector that it waits for. `NotDue` if it waits for none or for another one, `StaleRead`
    /// if the shared disk had what another write left there. Allocates no memory.
    pub fn bytes(&mut self, receiver: &Receiver, read: &SectorRead) -> R<()>
        ensures answer { result ≡ answered (table.bytes_refusal B.machine (B.state self.old.board)
            receiver.now.entries self.old.fetched read.now) }
        ensures kept { OnOk result (self.new ≡ record self.old { fetched = Some read.now.bytes }) }
        ensures unchanged { OnErr result (self.new ≡ self.old) }
    {
        let Some((drive, sector, number)) = self.wanted(receiver) else {
            return Err(Fault::NotDue);
        };
        if !is_at(read, self.board.sector_under(drive, sector)) {
            return Err(Fault::NotDue);
        }
        if number != read.number {
            return Err(Fault::StaleRead);
        }
        let bytes = read.bytes;
        self.fetched = Some(bytes);
        Ok(())
    }
}

//! A guest with the log of its moves.
ghost use Rattle.std.specs.Prelude.{◌≡◌, IfOk, Ok, OnErr, OnOk};
ghost use Rattle.guest_lockstep.specs.Lockstep.{HasRoom, IsInput};
ghost use Rattle.guest_lockstep.specs.Machine.{refusal_of};
ghost use Rattle.guest_lockstep.specs.Pages.{stale_after};
ghost use Rattle.log_entry.specs.Entries.{entry_of};
ghost use Rattle.log_entry.specs.Spelling.{IsEntry};
ghost use Rattle.log_buffer.specs.contracts.log.NoLog as no_log;
ghost use Rattle.recorder.specs.Recording as table;
ghost use Rattle.recorder.specs.contracts.recorder.Recorder.{the_row};
ghost use Rattle.std.specs.Borrow.{Lends, sem};

use crate::run::run;
use guest_lockstep::{Input, Lockstep, Reads, StopReason, Stopped};
use i8080_words::R;
use log_buffer::{EntryLog, NoLog};
use log_entry::Entry;

/// A guest with the log of what it was given and what it gave (VMware FT, section 2.1).
#[derive(Drop)]
pub struct Recorder<B, L> {
    board: B,
    log: L,
    reads: Reads,
}

impl<B: Lockstep, L: EntryLog> Recorder<B, L> {
    /// A guest with a log of its moves; `reads` says whether that log carries sector bytes.
    pub fn new(board: B, log: L, reads: Reads) -> Recorder<B, L>
        ensures board { result.board ≡ board }
        ensures log { result.log ≡ log }
        ensures reads { result.reads ≡ reads }
    {
        Recorder { board, log, reads }
    }

    /// The guest.
    pub fn board(&self) -> &B
        ensures { result.now ≡ self.now.board }
    {
        &self.board
    }

    /// The log.
    pub fn log(&self) -> &L
        ensures { result.now ≡ self.now.log }
    {
        &self.log
    }

    /// How the log carries the sectors that are read.
    pub fn reads(&self) -> Reads
        ensures { result ≡ self.now.reads }
    {
        self.reads
    }

    /// The log, for its owner to drop what the backup has acknowledged.
    pub fn log_mut(&mut self) -> &mut L
        ensures value { result.now ≡ self.old.log }
        ensures* writes_back { sem 𝓛 (Lends (the_row B.row L.row) L.row self.entry result
            (λ log. record self.old { log = log })) }
    {
        &mut self.log
    }

    /// The guest, without its log.
    pub fn into_board(self) -> B
        ensures { result ≡ self.board }
    {
        let Recorder {
            board,
            log: _,
            reads: _,
        } = self;
        board
    }

    /// Executes at most `turns` steps, and stops after the first that gives an operation, whose mark is logged. Refused
    /// only if no step is executed: `LogFull` and `Spent` by the log, `Spent` and `Idle` by the guest, and
    /// `OutOfMemory`.
    pub fn advance(&mut self, turns: u64) -> R<Stopped>
        ensures answer { table.AdvancesUnless B.machine L.logging (B.state self.old.board) self.old.log turns
            (table.advance_refusal B.machine L.logging (B.state self.old.board) self.old.log turns) result
            (B.state self.new.board) self.new.log }
        ensures reads { self.new.reads ≡ self.old.reads }
        ensures pages { IfOk result (λ a. B.stale self.new.board ≡ stale_after B.machine B.writes (B.stale self.old.board) (B.state self.old.board) a.steps) }
        ensures unchanged { OnErr result (self.new ≡ self.old) }
    {
        if turns == 0 {
            return Ok(Stopped {
                steps: 0,
                reason: StopReason::Turns,
            });
        }
        self.log.check_room()?;
        run(&mut self.board, &mut self.log, turns)
    }

    /// Whether `offer` would take an input: returns its refusal, and changes nothing.
    pub fn check(&self, input: &Input) -> R<()>
        requires input { IsInput input.now }
        requires room { HasRoom B.machine (B.state self.now.board) input.now }
        ensures answer { result
            ≡ table.check_answer L.logging (refusal_of B.machine (B.state self.now.board) input.now) self.now.log }
        ensures may { OnOk result (table.MayTake B.machine L.logging (B.state self.now.board) self.now.log input.now) }
    {
        self.board.check(input)?;
        self.log.check_room()
    }

    /// Takes an input that nothing refuses, and logs it at the guest's count, as an entry that can be spelled. Returns
    /// the index of the entry. Allocates no memory.
    pub fn accept(&mut self, input: Input) -> u64
        requires { table.MayTake B.machine L.logging (B.state self.old.board) self.old.log input }
        ensures index { result ≡ L.logging.next self.old.log }
        ensures after { table.Offers B.machine L.logging self.old.reads (B.state self.old.board) self.old.log input (Ok result)
            (B.state self.new.board) self.new.log }
        ensures entry { IsEntry (entry_of self.old.reads (B.machine.count (B.state self.old.board)) input) }
        ensures reads { self.new.reads ≡ self.old.reads }
        ensures pages { B.stale self.new.board ≡ B.stale self.old.board }
    {
        let entry = Entry::of_input(self.reads, self.board.count(), input);
        match self.board.take(input) {
            Ok(()) => self.log.append(entry),
            Err(_) => unreachable!(),
        }
    }

    /// Takes an input as `accept` does, unless it is refused: as the guest refuses the input, and then as the log
    /// refuses an entry.
    pub fn offer(&mut self, input: Input) -> R<u64>
        requires input { IsInput input }
        requires room { HasRoom B.machine (B.state self.old.board) input }
        ensures answer { result
            ≡ table.offer_answer L.logging (refusal_of B.machine (B.state self.old.board) input) self.old.log }
        ensures after { table.Offers B.machine L.logging self.old.reads (B.state self.old.board) self.old.log input result
            (B.state self.new.board) self.new.log }
        ensures unchanged { OnErr result (self.new ≡ self.old) }
        ensures entry { OnOk result
            (IsEntry (entry_of self.old.reads (B.machine.count (B.state self.old.board)) input)) }
        ensures reads { self.new.reads ≡ self.old.reads }
    {
        self.check(&input)?;
        Ok(self.accept(input))
    }
}

impl<B: Lockstep> Recorder<B, NoLog> {
    /// The guest, for its owner to copy: there is no log that would miss what is done to it.
    pub fn board_mut(&mut self) -> &mut B
        ensures value { result.now ≡ self.old.board }
        ensures* writes_back { sem 𝓛 (Lends (the_row B.row no_log.the_row) B.row self.entry result
            (λ board. record self.old { board = board })) }
    {
        &mut self.board
    }
}

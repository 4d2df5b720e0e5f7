//! The primary of a generation.
ghost use Rattle.std.specs.Prelude.{◌≡◌, ◌<◌, ◌≤◌, ℕ, [], Ok, OnErr, slice_index};
ghost use Rattle.event_callbacks.specs.declared.devices.TheConstants.{PORTS};
ghost use Rattle.guest_lockstep.specs.Lockstep.{IsInput};
ghost use Rattle.guest_lockstep.specs.Outstanding as outstanding;
ghost use Rattle.i8080_words.specs.declared.limits.TheConstants.{GREATEST_NUMBER};
ghost use Rattle.log_buffer.specs.Log as logs;
ghost use Rattle.log_buffer.specs.Log.{next_of};
ghost use Rattle.log_channel.specs.Packet.{packet_at};
ghost use Rattle.log_entry.specs.Entries.{entry_of, is_read};
ghost use Rattle.output_rule.specs.Covering.{nothing_acknowledged};
ghost use Rattle.pair_protocol.specs.Copying.{Copying};
ghost use Rattle.pair_protocol.specs.Effects.{Took};
ghost use Rattle.pair_protocol.specs.Node.{Node};
ghost use Rattle.recorder.specs.Recording.{MayTake};
ghost use Rattle.ft_node.specs.Ahead.{lead_of};
ghost use Rattle.ft_node.specs.Calls as calls;
ghost use Rattle.ft_node.specs.Checked as checked;
ghost use Rattle.ft_node.specs.Noting as noting;
ghost use Rattle.ft_node.specs.Roles.{HasImage, IsPrimary};
ghost use Rattle.ft_node.specs.Standings.{logged_by};

use crate::kept_image::KeptImage;
use crate::ran::{Lead, Ran, Standing};
use clone_state::Copies;
use event_callbacks::{OpId, Operation, PORTS};
use guest_lockstep::{Input, Lockstep, Reads, StopReason, Stopped};
use i8080_words::{Fault, R};
use log_buffer::LogBuffer;
use log_channel::Sender;
use output_rule::Coverage;
use recorder::Recorder;
use std::alloc::Global;

/// A guest that takes input and logs it for its backup, and that releases what the backup has acknowledged (VMware FT,
/// sections 2.1 and 2.2).
#[derive(Drop)]
pub struct Primary<B> {
    pub(crate) recorder: Recorder<B, LogBuffer>,
    pub(crate) sender: Sender,
    pub(crate) coverage: Coverage,
    pub(crate) image: KeptImage,
    // The log keeps what is not acknowledged; recorder, sender and coverage agree on how much is acknowledged.
    ghost first: { recorder.log.first ≡ sender.held },
    ghost acknowledged: { coverage.acknowledged ≡ sender.held },
    ghost within: { sender.held ≤ next_of recorder.log },
}

impl<B: Lockstep + Drop> Primary<B> {
    /// The primary of a generation that begins, with an empty log: what is outstanding is covered, and this many keys of
    /// each port.
    pub(crate) fn begin(
        board: B,
        log: LogBuffer,
        generation: u32,
        reads: Reads,
        keys: [u64; PORTS],
        image: KeptImage,
    ) -> Primary<B>
        requires generation { 0 < generation }
        requires unused { log ≡ logs.log 0 [] }
        requires keys { (port : ℕ) → slice_index keys port ≤ GREATEST_NUMBER }
        ensures board { result.recorder.board ≡ board }
        ensures log { result.recorder.log ≡ log }
        ensures reads { result.recorder.reads ≡ reads }
        ensures sender { result.sender ≡ record { generation = generation; held = 0; replayed = 0 } }
        ensures coverage { result.coverage ≡ nothing_acknowledged keys }
        ensures image { result.image ≡ image }
    {
        Primary {
            recorder: Recorder::new(board, log, reads),
            sender: Sender::new(generation),
            coverage: Coverage::new(keys),
            image,
        }
    }

    /// How many entries it has logged, and how many steps its guest has made.
    pub(crate) fn lead(&self) -> Lead
        ensures { (C : Copying B.State) (x : Node B.State)
            → IsPrimary B.machine (HasImage C self.now.sender.generation self.now.image) self.now.recorder.reads
            (B.state self.now.recorder.board) self.now.recorder.log self.now.sender self.now.coverage x
            → lead_of B.machine x ≡ result }
    {
        Lead {
            entries: self.recorder.log().next(),
            count: self.recorder.board().count(),
        }
    }

    /// How many entries it has logged, and how many of them are acknowledged.
    pub(crate) fn standing(&self) -> Standing
        ensures { (C : Copying B.State) (x : Node B.State)
            → IsPrimary B.machine (HasImage C self.now.sender.generation self.now.image) self.now.recorder.reads
            (B.state self.now.recorder.board) self.now.recorder.log self.now.sender self.now.coverage x
            → result ≡ logged_by x }
    {
        Standing {
            entries: self.recorder.log().next(),
            done: self.recorder.log().first(),
        }
    }

    /// Makes at most `turns` steps, and stops after the first that gives an operation, which waits for its mark to be
    /// acknowledged. `LogFull` if there is no room to note one more operation.
    pub(crate) fn step(&mut self, turns: u64) -> R<Ran>
        ensures answer { (C : Copying B.State) (x : Node B.State)
            → IsPrimary B.machine (HasImage C self.old.sender.generation self.old.image) self.old.recorder.reads (B.state self.old.recorder.board) self.old.recorder.log self.old.sender
            self.old.coverage x
            → checked.Steps B.machine turns x result
            (IsPrimary B.machine (HasImage C self.new.sender.generation self.new.image) self.new.recorder.reads (B.state self.new.recorder.board) self.new.recorder.log self.new.sender
            self.new.coverage) }
        ensures exactly { outstanding.IsFrugal B.machine (B.state self.old.recorder.board)
            → (C : Copying B.State) (x : Node B.State)
            → IsPrimary B.machine (HasImage C self.old.sender.generation self.old.image) self.old.recorder.reads (B.state self.old.recorder.board) self.old.recorder.log self.old.sender
            self.old.coverage x
            → calls.Steps B.machine turns x result
            (IsPrimary B.machine (HasImage C self.new.sender.generation self.new.image) self.new.recorder.reads (B.state self.new.recorder.board) self.new.recorder.log self.new.sender
            self.new.coverage) }
        ensures unchanged { OnErr result (self.new ≡ self.old) }
    {
        self.recorder.log().stands();
        self.coverage.stands();
        if !self.coverage.has_room() {
            return Err(Fault::LogFull);
        }
        let mark = self.recorder.log().next();
        let Stopped { steps, reason } = self.recorder.advance(turns)?;
        note(&mut self.coverage, reason, mark);
        Ok(Ran {
            steps,
            count: self.recorder.board().count(),
            why: reason,
        })
    }

    /// Takes an input that nothing refuses: logs it, and forgets the operation that it completes.
    pub(crate) fn accept(&mut self, input: Input)
        requires { MayTake B.machine logs.kept (B.state self.old.recorder.board) self.old.recorder.log input }
        ensures { (C : Copying B.State) (x : Node B.State)
            → IsPrimary B.machine (HasImage C self.old.sender.generation self.old.image) self.old.recorder.reads (B.state self.old.recorder.board) self.old.recorder.log self.old.sender
            self.old.coverage x
            → calls.Makes x (Took B.machine input)
            (IsPrimary B.machine (HasImage C self.new.sender.generation self.new.image) self.new.recorder.reads (B.state self.new.recorder.board) self.new.recorder.log self.new.sender
            self.new.coverage) }
    {
        self.recorder.log().stands();
        let completed = completed_by(self.recorder.board(), &input);
        let is_read = is_read(self.recorder.reads(), &input);
        let index = self.recorder.accept(input);
        note_read(&mut self.coverage, is_read, index);
        if let Some(id) = completed {
            self.coverage.forget(id);
        }
    }

    /// The packet of the entry at an index; `Unknown` if it is acknowledged or not yet logged.
    pub(crate) fn packet(&self, alloc: Global, index: u64) -> R<Vec<u8>>
        ensures { (C : Copying B.State) (x : Node B.State)
            → IsPrimary B.machine (HasImage C self.now.sender.generation self.now.image) self.now.recorder.reads (B.state self.now.recorder.board) self.now.recorder.log self.now.sender
            self.now.coverage x
            → calls.Sends index x result }
    {
        let _generation = self.sender.generation();
        self.recorder.log().stands();
        self.sender.packet(alloc, self.recorder.log(), index)
    }

    /// Takes an acknowledgement, and returns how many entries are acknowledged then. The image is no longer needed.
    pub(crate) fn on_ack(&mut self, bytes: &[u8]) -> R<u64>
        ensures answer { (C : Copying B.State) (x : Node B.State)
            → IsPrimary B.machine (HasImage C self.old.sender.generation self.old.image) self.old.recorder.reads (B.state self.old.recorder.board) self.old.recorder.log self.old.sender
            self.old.coverage x
            → calls.DeliversAcknowledgement (packet_at bytes.now) x result
            (IsPrimary B.machine (HasImage C self.new.sender.generation self.new.image) self.new.recorder.reads (B.state self.new.recorder.board) self.new.recorder.log self.new.sender
            self.new.coverage) }
        ensures unchanged { OnErr result (self.new ≡ self.old) }
    {
        let covered = self.sender.on_ack(self.recorder.log(), bytes)?;
        self.coverage
            .acknowledge(self.recorder.log(), covered, self.sender.replayed());
        self.recorder.log_mut().drop_to(covered);
        self.image.forget();
        Ok(covered)
    }

    /// The outstanding operation with a name, if its mark is acknowledged.
    #[tactic(auto, using(crate::proofs::PrimaryReleases::release_refused))]
    pub(crate) fn release(&self, id: OpId) -> R<Operation>
        ensures { (C : Copying B.State) (x : Node B.State)
            → IsPrimary B.machine (HasImage C self.now.sender.generation self.now.image) self.now.recorder.reads (B.state self.now.recorder.board) self.now.recorder.log self.now.sender
            self.now.coverage x
            → calls.Releases B.machine id x result }
    {
        let Some(operation) = self.recorder.board().outstanding(id) else {
            return Err(Fault::NotDue);
        };
        self.coverage.release(operation)?;
        Ok(*operation)
    }

    /// How many keys of a port are covered.
    pub(crate) fn told(&self, port: u8) -> u64
        requires { port < PORTS }
        ensures { (C : Copying B.State) (x : Node B.State)
            → IsPrimary B.machine (HasImage C self.now.sender.generation self.now.image) self.now.recorder.reads (B.state self.now.recorder.board) self.now.recorder.log self.now.sender
            self.now.coverage x
            → calls.Tells B.machine port x (Ok result) }
    {
        self.coverage.told(port)
    }

    /// The message of a part of its image; `Unknown` if it keeps no image, or the image has no such part.
    pub(crate) fn part(&self, alloc: Global, index: u64) -> R<Vec<u8>>
        ensures { (C : Copying B.State) (x : Node B.State)
            → IsPrimary B.machine (HasImage C self.now.sender.generation self.now.image) self.now.recorder.reads (B.state self.now.recorder.board)
            self.now.recorder.log self.now.sender self.now.coverage x
            → calls.SendsPart C index x result }
    {
        let _generation = self.sender.generation();
        self.image.part(alloc, index)
    }
}

// Whether an input is logged as a read of the shared disk.
fn is_read(reads: Reads, input: &Input) -> bool
    ensures { (count : ℕ) → result ≡ is_read (entry_of reads count input.now) }
{
    match (reads, input) {
        (Reads::Shared, Input::Sector { .. }) => true,
        _ => false,
    }
}

// The operation that an input completes: the byte that is due, or the write.
fn completed_by<B: Lockstep>(board: &B, input: &Input) -> Option<OpId>
    requires { IsInput input.now }
    ensures { result ≡ outstanding.completed_by B.machine (B.state board.now) input.now }
{
    match *input {
        Input::Rx(..) | Input::Sector { .. } => None,
        Input::Sent(port) => Some(OpId::Byte(port, board.due_byte(port)?)),
        Input::Written(number) => Some(OpId::Write(number)),
    }
}

// Notes that a read that was logged at this index is the last one.
fn note_read(coverage: &mut Coverage, is_read: bool, index: u64)
    requires { index < GREATEST_NUMBER }
    ensures { coverage.new ≡ noting.with_read coverage.old is_read index }
{
    if is_read {
        coverage.read(index);
    }
}

// Notes that an operation that a guest gave waits for its mark, which has this index.
fn note(coverage: &mut Coverage, reason: StopReason, mark: u64)
    requires place { noting.HasPlace coverage.old reason }
    ensures { coverage.new ≡ noting.noted coverage.old reason mark }
{
    if let StopReason::Operation(id) = reason {
        coverage.forget(id);
        coverage.note(id, mark);
    }
}

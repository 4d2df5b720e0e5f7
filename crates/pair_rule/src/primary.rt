//! The primary's seat.
ghost use Rattle.std.specs.Prelude.{◌≡◌, ◌↔◌, IsTrue, ◌+◌, ◌^◌, ◌<◌, ◌≤◌, ℕ, length, IfOk, IfErr, Some, None, option_map, MatchResult};
ghost use mathlib.Core.Option.{some};
ghost use lib.ListN.{get_elem?};
ghost use Rattle.pair_protocol.specs.Lawful.{top};
ghost use Rattle.pair_rule.specs.Boxes.{Primary, port_box};
ghost use Rattle.pair_rule.specs.Knowledge.{appended, saw, saw_count, primary_asked};
ghost use Rattle.pair_rule.specs.Seats.{HasSwapsLeft, Fills, Empties, append_refusal, swaps_at};
ghost use Rattle.pair_rule.specs.Kinds.{WasHeld, WasWinner, WasAccepted, with_known, counted_at};
ghost use Rattle.i8080_words.specs.declared.refusal.Fault.TheVariants.{Lost};
ghost use Rattle.pair_rule.specs.declared.mailbox.Mailbox.TheVariants.{Outbox, Requests, Answers};
ghost use Rattle.pair_rule.specs.declared.payload.Payload.TheVariants.{Log, Out, Request, Answer};
ghost use Rattle.event_callbacks.specs.declared.operations.Operation.TheVariants as operation;

use crate::fabric::Fabric;
use crate::mailbox::Mailbox;
use crate::payload::{DiskAnswer, DiskRequest, Packet, Payload};
use crate::seat::SeatState;
use event_callbacks::Operation;
use i8080_words::{Fault, GREATEST_NUMBER};
use log_entry::Entry;
use std::marker::Model;

// The entries that a log holds.
const LOG: u64 = 256;

/// What the primary steps with. Contracts see its table and what it knows.
#[derive(Drop)]
pub struct PrimarySeat {
    pub(crate) state: SeatState,
    pub(crate) generation: u64,
    pub(crate) length: u64,
    pub(crate) seen: u64,
}

impl Model for PrimarySeat {
    ghost use Rattle.pair_rule.specs.Seats.{Seat, IsPrimary};

    ghost Value = { Seat };

    ghost view = { λ s. record { table = s.state.seat.table_id; core = s.state.seat.me.0.core } };

    ghost invariant = { λ s. IsPrimary s.state.seat.me s.state.slot s.state.fills s.state.empties s.generation s.length s.seen };
}

impl PrimarySeat {
    /// Whether the seat may swap once more at each box.
    pub fn has_swaps_left(&self) -> bool
        ensures { IsTrue result ↔ HasSwapsLeft self.now.core }
    {
        self.state.may_swap()
    }

    /// Adds an entry to the list, and returns its index, from 0. `LogFull` while 256 entries are past what was seen,
    /// otherwise `Spent` at the greatest index, 2^62 - 1; neither changes anything.
    #[tactic(auto, unfolding(pair_protocol::specs::Lawful::top))]
    pub fn append(&mut self, fabric: &Fabric, entry: Entry) -> Result<u64, Fault>
        requires table { self.old.table ≡ fabric.now }
        requires before { self.old.core.known.primary.winner ≡ 0 }
        ensures same { self.new.table ≡ self.old.table }
        ensures ok { IfOk result (λ n. (append_refusal self.old.core.known.primary ≡ None) × (n ≡ length self.old.core.known.primary.list)) }
        ensures room { IfOk result (λ n. (n < self.old.core.known.primary.seen + 256) × (n < top)) }
        ensures appended { IfOk result (λ n. self.new.core ≡ with_known (appended entry) self.old.core) }
        ensures refused { IfErr result (λ fault. (append_refusal self.old.core.known.primary ≡ Some fault) × (self.new ≡ self.old)) }
    {
        if self.length - self.seen >= LOG {
            return Err(Fault::LogFull);
        }
        if self.length >= GREATEST_NUMBER {
            return Err(Fault::Spent);
        }
        let packet = Packet {
            generation: self.generation,
            index: self.length,
            entry,
        };
        let index = self.state.append(fabric, packet);
        self.length += 1;
        Ok(index)
    }

    /// Puts the packet of an entry into the outbox. A packet still there is lost.
    pub fn post(&mut self, fabric: &Fabric, index: u64, entry: &Entry)
        requires table { self.old.table ≡ fabric.now }
        requires before { self.old.core.known.primary.winner ≡ 0 }
        requires stands { get_elem? self.old.core.known.primary.list index ≡ some entry.now }
        requires few { swaps_at self.old.core.fills Outbox < 2 ^ 40 }
        ensures same { self.new.table ≡ self.old.table }
        ensures posted { Fills Outbox (Log (record { generation = self.old.core.known.generation; index = index; entry = entry.now })) self.old.core self.new.core }
    {
        let packet = Packet {
            generation: self.generation,
            index,
            entry: *entry,
        };
        self.state
            .fill(fabric, Mailbox::Outbox, Payload::Log(packet));
    }

    /// How many entries the backup has acknowledged.
    pub fn see(&mut self, fabric: &Fabric) -> u64
        requires table { self.old.table ≡ fabric.now }
        requires before { self.old.core.known.primary.winner ≡ 0 }
        ensures same { self.new.table ≡ self.old.table }
        ensures held { WasHeld self.old.core.known result }
        ensures later { (self.old.core.known.primary.seen ≤ result) × (result ≤ length self.old.core.known.primary.list) }
        ensures view { self.new.core ≡ with_known (saw result) self.old.core }
    {
        self.seen = self.state.see(fabric);
        self.seen
    }

    /// The test-and-set: Ok if the primary goes on alone. `Lost` if the backup asked first.
    pub fn contest(&mut self, fabric: &Fabric) -> Result<(), Fault>
        requires table { self.old.table ≡ fabric.now }
        requires before { self.old.core.known.primary.winner ≡ 0 }
        ensures same { self.new.table ≡ self.old.table }
        ensures view { (r : ℕ) × (r < 3) × WasWinner Primary self.old.core.known r
            × (self.new.core ≡ with_known (primary_asked r) self.old.core) }
        ensures won { MatchResult result (λ _. self.new.core.known.primary.winner ≡ 1) (λ e. (e ≡ Lost) × (self.new.core.known.primary.winner ≡ 2)) }
    {
        if self.state.contest_primary(fabric) <= 1 {
            Ok(())
        } else {
            Err(Fault::Lost)
        }
    }

    /// Gives a byte of a port to its terminal. A byte still in the box is lost.
    pub fn emit(&mut self, fabric: &Fabric, port: u8, number: u64, byte: u8)
        requires table { self.old.table ≡ fabric.now }
        requires before { self.old.core.known.primary.winner ≡ 0 }
        requires port { port < 2 }
        requires few { swaps_at self.old.core.fills (port_box port) < 2 ^ 40 }
        ensures same { self.new.table ≡ self.old.table }
        ensures emitted { Fills (port_box port) (Out (operation.Byte port number byte)) self.old.core self.new.core }
    {
        let mailbox = port_box(port);
        self.state.fill(
            fabric,
            mailbox,
            Payload::Out(Operation::Byte { port, number, byte }),
        );
    }

    /// How many bytes of a port, 0 or 1, its terminal has accepted.
    pub fn counted(&mut self, fabric: &Fabric, port: u8) -> u64
        requires table { self.old.table ≡ fabric.now }
        requires before { self.old.core.known.primary.winner ≡ 0 }
        requires port { port < 2 }
        ensures same { self.new.table ≡ self.old.table }
        ensures accepted { WasAccepted port self.old.core.known result }
        ensures later { counted_at port self.old.core.known ≤ result }
        ensures view { self.new.core ≡ with_known (saw_count port result) self.old.core }
    {
        self.state.counted(fabric, port)
    }

    /// Asks the disk. A request still in the box is lost.
    pub fn request(&mut self, fabric: &Fabric, request: DiskRequest)
        requires table { self.old.table ≡ fabric.now }
        requires before { self.old.core.known.primary.winner ≡ 0 }
        requires few { swaps_at self.old.core.fills Requests < 2 ^ 40 }
        ensures same { self.new.table ≡ self.old.table }
        ensures asked { Fills Requests (Request request) self.old.core self.new.core }
    {
        self.state
            .fill(fabric, Mailbox::Requests, Payload::Request(request));
    }

    /// Takes what the disk answers; `None` if no answer is in the box.
    pub fn answer(&mut self, fabric: &Fabric) -> Option<DiskAnswer>
        requires table { self.old.table ≡ fabric.now }
        requires before { self.old.core.known.primary.winner ≡ 0 }
        requires few { swaps_at self.old.core.empties Answers < 2 ^ 40 }
        ensures same { self.new.table ≡ self.old.table }
        ensures taken { Empties Answers (option_map Answer result) self.old.core self.new.core }
    {
        match self.state.empty(fabric, Mailbox::Answers) {
            Some(Payload::Answer(answer)) => Some(answer),
            _ => None,
        }
    }
}

// The box of a port's bytes.
fn port_box(port: u8) -> Mailbox
    requires { port < 2 }
    ensures { result ≡ port_box port }
{
    if port == 0 {
        Mailbox::Bytes0
    } else {
        Mailbox::Bytes1
    }
}

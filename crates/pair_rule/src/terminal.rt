//! The seat of the two terminals.
ghost use Rattle.std.specs.Prelude.{◌≡◌, ◌↔◌, IsTrue, ◌==◌, ◌+◌, ◌^◌, ◌<◌, List, cond, Some, option_map};
ghost use Rattle.event_callbacks.specs.declared.operations.Operation.TheVariants as operation;
ghost use Rattle.pair_rule.specs.Boxes.{port_box};
ghost use Rattle.pair_rule.specs.Knowledge.{accepted_after, accepted_with, arrives, byte_arrived};
ghost use Rattle.pair_rule.specs.Seats.{HasSwapsLeft, Empties, byte_of, swaps_at};
ghost use Rattle.pair_rule.specs.Kinds.{with_known};
ghost use Rattle.pair_rule.specs.declared.mailbox.Mailbox.TheVariants.{Bytes0, Bytes1};
ghost use Rattle.pair_rule.specs.declared.payload.Payload.TheVariants.{Out};
ghost use Rattle.pair_rule.specs.declared.view.Arrived.{Arrived};

use crate::fabric::Fabric;
use crate::mailbox::Mailbox;
use crate::payload::{Payload, PortByte};
use crate::seat::SeatState;
use event_callbacks::Operation;
use std::marker::Model;

// What the terminal of one port has: the byte that it took last, and how many bytes it has accepted.
#[derive(Clone, Copy)]
pub(crate) struct PortTerminal {
    pub(crate) hand: Option<Operation>,
    pub(crate) accepted: u64,
}

impl PortTerminal {
    // How many bytes are accepted with the byte in hand.
    fn with_hand(&self) -> u64
        ensures { (arrivals : List Arrived) → self.now.accepted ≡ accepted_after 0 arrivals →
            result ≡ accepted_after 0 (arrives self.now.hand arrivals) }
    {
        match self.hand {
            Some(operation) => accepted_with_one(self.accepted, operation),
            None => self.accepted,
        }
    }
}

// How many bytes are accepted after one more.
fn accepted_with_one(accepted: u64, operation: Operation) -> u64
    ensures { (arrivals : List Arrived) → accepted ≡ accepted_after 0 arrivals →
        result ≡ accepted_after 0 (arrives (Some operation) arrivals) }
{
    match operation {
        Operation::Byte { number, .. } => accepted_then(accepted, number),
        Operation::Write(_) => accepted,
    }
}

// How many bytes are accepted after one more with this number.
fn accepted_then(accepted: u64, number: u64) -> u64
    ensures { result ≡ cond (number == accepted + 1) (accepted + 1) accepted }
{
    if number > 0 && number - 1 == accepted {
        number
    } else {
        accepted
    }
}

/// What the terminals step with. Contracts see its table and what it knows.
#[derive(Drop)]
pub struct TerminalSeat {
    pub(crate) state: SeatState,
    pub(crate) line0: PortTerminal,
    pub(crate) line1: PortTerminal,
}

impl Model for TerminalSeat {
    ghost use Rattle.pair_rule.specs.Seats.{Seat, IsTerminal};

    ghost Value = { Seat };

    ghost view = { λ s. record { table = s.state.seat.table_id; core = s.state.seat.me.0.core } };

    ghost invariant = { λ s. IsTerminal s.state.seat.me s.state.slot s.state.fills s.state.empties s.line0.hand s.line0.accepted s.line1.hand s.line1.accepted };
}

impl TerminalSeat {
    /// Whether the seat may swap once more at each box.
    pub fn has_swaps_left(&self) -> bool
        ensures { IsTrue result ↔ HasSwapsLeft self.now.core }
    {
        self.state.may_swap()
    }

    /// Takes the byte that is in the box of a port, 0 or 1; `None` if it is empty.
    pub fn take_byte(&mut self, fabric: &Fabric, port: u8) -> Option<PortByte>
        requires table { self.old.table ≡ fabric.now }
        requires port { port < 2 }
        requires few { swaps_at self.old.core.empties (port_box port) < 2 ^ 40 }
        ensures same { self.new.table ≡ self.old.table }
        ensures taken { Empties (port_box port) (option_map (byte_of port) result) self.old.core self.new.core }
    {
        if port == 0 {
            self.take0(fabric)
        } else {
            self.take1(fabric)
        }
    }

    // Takes the byte that lies in the box of port 0.
    fn take0(&mut self, fabric: &Fabric) -> Option<PortByte>
        requires table { self.old.table ≡ fabric.now }
        requires few { swaps_at self.old.core.empties Bytes0 < 2 ^ 40 }
        ensures same { self.new.table ≡ self.old.table }
        ensures taken { Empties Bytes0 (option_map (byte_of 0) result) self.old.core self.new.core }
    {
        match self.state.empty(fabric, Mailbox::Bytes0) {
            Some(Payload::Out(Operation::Byte { port, number, byte })) => {
                self.line0.hand = Some(Operation::Byte { port, number, byte });
                Some(PortByte { number, byte })
            }
            _ => None,
        }
    }

    // Takes the byte that lies in the box of port 1.
    fn take1(&mut self, fabric: &Fabric) -> Option<PortByte>
        requires table { self.old.table ≡ fabric.now }
        requires few { swaps_at self.old.core.empties Bytes1 < 2 ^ 40 }
        ensures same { self.new.table ≡ self.old.table }
        ensures taken { Empties Bytes1 (option_map (byte_of 1) result) self.old.core self.new.core }
    {
        match self.state.empty(fabric, Mailbox::Bytes1) {
            Some(Payload::Out(Operation::Byte { port, number, byte })) => {
                self.line1.hand = Some(Operation::Byte { port, number, byte });
                Some(PortByte { number, byte })
            }
            _ => None,
        }
    }

    /// Counts the byte in hand as arrived, and returns how many bytes of the port are accepted.
    pub fn count(&mut self, fabric: &Fabric, port: u8) -> u64
        requires table { self.old.table ≡ fabric.now }
        requires port { port < 2 }
        ensures same { self.new.table ≡ self.old.table }
        ensures counted { (result ≡ accepted_with port self.old.core.known)
            × (self.new.core ≡ with_known (byte_arrived port) self.old.core) }
    {
        if port == 0 {
            let accepted = self.line0.with_hand();
            self.state.count(fabric, 0, accepted);
            self.line0.accepted = accepted;
            accepted
        } else {
            let accepted = self.line1.with_hand();
            self.state.count(fabric, 1, accepted);
            self.line1.accepted = accepted;
            accepted
        }
    }
}

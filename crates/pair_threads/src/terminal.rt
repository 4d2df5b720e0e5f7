//! The worker of the two terminals: it takes bytes, counts them, and keeps those that are accepted.
ghost use Rattle.std.specs.Prelude.{◌≡◌, ◌++◌, ◌<◌, [], length, vec_len, vec_capacity, is_some, IfErr, IfOk, None, Some, OnOk, false, not};
ghost use Rattle.pair_rule.specs.declared.payload.PortByte.{PortByte};
ghost use Rattle.pair_rule.specs.Threads.{bytes_accepted};
ghost use Rattle.pair_threads.specs.declared.worker.Turn.TheVariants as turn;
ghost use Rattle.pair_threads.specs.Ending.{IsEnding};
ghost use Rattle.pair_threads.specs.Screens.{HasInHand, next_byte, port_of};
ghost use Rattle.pair_threads.specs.Turns.{turn_by};

use crate::signals::Told;
use crate::worker::{Turn, Worker};
use i8080_words::{Fault, R};
use pair_rule::{Fabric, PortByte, TerminalSeat};
use std::alloc::Global;

/// The terminals' seat, and what each of them has accepted.
#[derive(Drop)]
pub(crate) struct TerminalWorker {
    pub(crate) seat: TerminalSeat,
    pub(crate) accepted0: Vec<u8>,
    pub(crate) accepted1: Vec<u8>,
    // Whether it is the second port's turn, and the byte that was taken there and not counted yet.
    second: bool,
    hand: Option<PortByte>,
    ghost screen0: { accepted0.items ≡ bytes_accepted 0 seat.core.known },
    ghost screen1: { accepted1.items ≡ bytes_accepted 1 seat.core.known },
    ghost in_hand: { (byte : PortByte) → hand ≡ Some byte → HasInHand second byte seat.core.known },
}

// A byte arrives at a terminal, which accepts it if it is the next one.
fn accept(accepted: &mut Vec<u8>, byte: PortByte)
    requires room { vec_len accepted.old < vec_capacity accepted.old }
    ensures { accepted.new.items ≡ accepted.old.items ++ next_byte (length accepted.old.items) byte }
{
    if byte.number > 0 && byte.number - 1 == accepted.len() as u64 {
        accepted.push_reserved(byte.byte);
    }
}

impl TerminalWorker {
    /// Terminals at which nothing has arrived.
    pub(crate) fn new(alloc: Global, seat: TerminalSeat) -> TerminalWorker
        requires first { bytes_accepted 0 seat.core.known ≡ [] }
        requires second { bytes_accepted 1 seat.core.known ≡ [] }
        ensures seat { result.seat ≡ seat }
    {
        TerminalWorker {
            seat,
            accepted0: Vec::new(alloc),
            accepted1: Vec::new(alloc),
            second: false,
            hand: None,
        }
    }

    // The port whose turn it is.
    fn port(&self) -> u8
        ensures is { result ≡ port_of self.now.second }
        ensures port { result < 2 }
    {
        if self.second { 1 } else { 0 }
    }

    // Counts the byte in hand, and keeps it if it is accepted. The other port is next.
    fn count(&mut self, fabric: &Fabric, byte: PortByte) -> R<()>
        requires table { self.old.seat.table ≡ fabric.now }
        requires hand { self.old.hand ≡ Some byte }
        ensures table { self.new.seat.table ≡ self.old.seat.table }
        ensures next { OnOk result (self.new.second ≡ not self.old.second) }
        ensures refused { IfErr result IsEnding }
    {
        self.accepted0.reserve(1)?;
        self.accepted1.reserve(1)?;
        let port = self.port();
        self.seat.count(fabric, port);
        self.hand = None;
        if self.second {
            accept(&mut self.accepted1, byte);
            self.second = false;
        } else {
            accept(&mut self.accepted0, byte);
            self.second = true;
        }
        Ok(())
    }

    // Takes the byte in the box of the port whose turn it is; if the box is empty, the other port is next.
    fn take(&mut self, fabric: &Fabric) -> R<Turn>
        requires table { self.old.seat.table ≡ fabric.now }
        requires hand { self.old.hand ≡ None }
        ensures table { self.new.seat.table ≡ self.old.seat.table }
        ensures next { result ≡ Ok turn.Waits → self.new.second ≡ not self.old.second }
        ensures same { result ≡ Ok turn.Moved → self.new.second ≡ self.old.second }
        ensures turn { IfOk result (λ turn. turn ≡ turn_by false (is_some self.new.hand)) }
        ensures refused { IfErr result IsEnding }
    {
        if !self.seat.has_swaps_left() {
            return Err(Fault::Stalled);
        }
        let port = self.port();
        self.hand = self.seat.take_byte(fabric, port);
        if self.hand.is_some() {
            return Ok(Turn::Moved);
        }
        self.second = !self.second;
        Ok(Turn::Waits)
    }
}

impl Worker for TerminalWorker {
    ghost use Rattle.std.specs.Prelude.{◌≡◌, ◌&&◌, is_some, false};
    ghost use Rattle.pair_threads.specs.Turns.{turn_by};

    ghost table = { λ w. w.seat.table };

    ghost ready = { λ w. Unit {0} };

    ghost came = { λ first w. Unit {0} };

    ghost ended = { λ w. Unit {0} };

    ghost asks = { λ old number new. Unit {0} };

    ghost turned = { λ old number new turn. turn ≡ turn_by (is_some old.hand) (is_some new.hand) };

    ghost ends_by = { λ w told. told.primary_ended && told.backup_ended };

    ghost needs_others = { λ w. false };

    fn turn(&mut self, fabric: &Fabric, _number: u64) -> R<Turn> {
        match self.hand {
            Some(byte) => {
                self.count(fabric, byte)?;
                Ok(Turn::Moved)
            }
            None => self.take(fabric),
        }
    }

    fn may_end(&self, told: Told) -> bool {
        told.primary_ended && told.backup_ended
    }

    fn is_held_up(&self) -> bool {
        false
    }
}

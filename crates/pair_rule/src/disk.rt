//! The disk's seat.
ghost use Rattle.std.specs.Prelude.{◌≡◌, ◌↔◌, IsTrue, ◌^◌, ◌<◌, option_map};
ghost use Rattle.pair_rule.specs.Seats.{HasSwapsLeft, Fills, Empties, Replies, swaps_at};
ghost use Rattle.pair_rule.specs.declared.mailbox.Mailbox.TheVariants.{Requests, Answers};
ghost use Rattle.pair_rule.specs.declared.payload.Payload.TheVariants.{Request, Answer};

use crate::fabric::Fabric;
use crate::mailbox::Mailbox;
use crate::payload::{DiskAnswer, DiskRequest, Payload};
use crate::seat::SeatState;
use std::marker::Model;

/// What the disk steps with. Contracts see its table and what it knows.
#[derive(Drop)]
pub struct DiskSeat {
    pub(crate) state: SeatState,
}

impl Model for DiskSeat {
    ghost use Rattle.pair_rule.specs.Seats.{Seat, Keeps};
    ghost use Rattle.pair_rule.specs.Boxes.{Disk};

    ghost Value = { Seat };

    ghost view = { λ s. record { table = s.state.seat.table_id; core = s.state.seat.me.0.core } };

    ghost invariant = { λ s. Keeps Disk s.state.seat.me s.state.slot s.state.fills s.state.empties };
}

impl DiskSeat {
    /// Whether the seat may swap once more at each box.
    pub fn has_swaps_left(&self) -> bool
        ensures { IsTrue result ↔ HasSwapsLeft self.now.core }
    {
        self.state.may_swap()
    }

    /// Takes what the primary asks; `None` if no request is in the box.
    pub fn take_request(&mut self, fabric: &Fabric) -> Option<DiskRequest>
        requires table { self.old.table ≡ fabric.now }
        requires few { swaps_at self.old.core.empties Requests < 2 ^ 40 }
        ensures same { self.new.table ≡ self.old.table }
        ensures taken { Empties Requests (option_map Request result) self.old.core self.new.core }
    {
        match self.state.empty(fabric, Mailbox::Requests) {
            Some(Payload::Request(request)) => Some(request),
            _ => None,
        }
    }

    /// Answers the request that was taken last. An answer still in the box is lost.
    #[tactic(auto, using(crate::proofs::Replies::can_reply))]
    pub fn reply(&mut self, fabric: &Fabric, answer: DiskAnswer)
        requires table { self.old.table ≡ fabric.now }
        requires answers { Replies self.old.core.known.disk answer }
        requires few { swaps_at self.old.core.fills Answers < 2 ^ 40 }
        ensures same { self.new.table ≡ self.old.table }
        ensures replied { Fills Answers (Answer answer) self.old.core self.new.core }
    {
        self.state
            .fill(fabric, Mailbox::Answers, Payload::Answer(answer));
    }
}

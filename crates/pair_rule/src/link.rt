//! The link's seat. It carries packets from the outbox to the inbox.
ghost use Rattle.std.specs.Prelude.{cond, ◌≡◌, ◌↔◌, IsTrue, ◌^◌, ◌<◌, true, None, Some, IsSome, is_some, option_map};
ghost use Rattle.pair_rule.specs.Seats.{HasSwapsLeft, Fills, Empties, swaps_at};
ghost use Rattle.pair_rule.specs.declared.mailbox.Mailbox.TheVariants.{Outbox, Inbox};
ghost use Rattle.pair_rule.specs.declared.payload.Packet.{Packet};
ghost use Rattle.pair_rule.specs.declared.payload.Payload.TheVariants.{Log};

use crate::fabric::Fabric;
use crate::mailbox::Mailbox;
use crate::payload::{Packet, Payload};
use crate::seat::SeatState;
use std::marker::Model;

/// What the link steps with. Contracts see its table, what it knows, and the packet in its hand.
#[derive(Drop)]
pub struct LinkSeat {
    pub(crate) state: SeatState,
    pub(crate) hand: Option<Packet>,
}

impl Model for LinkSeat {
    ghost use Rattle.pair_rule.specs.Seats.{Carrier, IsLink};

    ghost Value = { Carrier };

    ghost view = { λ s. record { table = s.state.seat.table_id; core = s.state.seat.me.0.core; hand = s.hand } };

    ghost invariant = { λ s. IsLink s.state.seat.me s.state.slot s.state.fills s.state.empties s.hand };
}

impl LinkSeat {
    /// Whether the seat may swap once more at each box.
    pub fn has_swaps_left(&self) -> bool
        ensures { IsTrue result ↔ HasSwapsLeft self.now.core }
    {
        self.state.may_swap()
    }

    /// Takes what lies in the outbox, and says whether the hand then has a packet. With a full hand it takes nothing.
    pub fn carry_out(&mut self, fabric: &Fabric) -> bool
        requires table { self.old.table ≡ fabric.now }
        requires few { swaps_at self.old.core.empties Outbox < 2 ^ 40 }
        ensures same { self.new.table ≡ self.old.table }
        ensures full { IsSome self.old.hand → (result ≡ true) × (self.new ≡ self.old) }
        ensures empty { self.old.hand ≡ None →
            (result ≡ is_some self.new.hand) × Empties Outbox (option_map Log self.new.hand) self.old.core self.new.core }
    {
        if self.hand.is_some() {
            return true;
        }
        match self.state.empty(fabric, Mailbox::Outbox) {
            Some(Payload::Log(packet)) => {
                self.hand = Some(packet);
                true
            }
            _ => false,
        }
    }

    /// Puts the packet in the hand into the inbox. A packet still there is lost. With `keep` it also stays in the hand.
    /// With an empty hand it does nothing.
    pub fn carry_in(&mut self, fabric: &Fabric, keep: bool)
        requires table { self.old.table ≡ fabric.now }
        requires few { swaps_at self.old.core.fills Inbox < 2 ^ 40 }
        ensures same { self.new.table ≡ self.old.table }
        ensures empty { self.old.hand ≡ None → self.new ≡ self.old }
        ensures full { (p : Packet) → self.old.hand ≡ Some p →
            (self.new.hand ≡ cond keep (Some p) None) × Fills Inbox (Log p) self.old.core self.new.core }
    {
        let Some(packet) = self.hand else {
            return;
        };
        self.state
            .fill(fabric, Mailbox::Inbox, Payload::Log(packet));
        if !keep {
            self.hand = None;
        }
    }

    /// Empties the hand, and makes no step.
    pub fn discard(&mut self, fabric: &Fabric)
        requires table { self.old.table ≡ fabric.now }
        ensures { (self.new.table ≡ self.old.table) × (self.new.core ≡ self.old.core) × (self.new.hand ≡ None) }
    {
        let _ = fabric;
        self.hand = None;
    }
}

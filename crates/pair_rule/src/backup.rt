//! The backup's seat.
ghost use Rattle.std.specs.Prelude.{◌≡◌, ◌↔◌, IsTrue, ◌^◌, ◌<◌, ℕ, length, option_map, MatchResult};
ghost use Rattle.pair_rule.specs.Boxes.{Backup};
ghost use Rattle.pair_rule.specs.Knowledge.{held, backup_asked};
ghost use Rattle.pair_rule.specs.Seats.{HasSwapsLeft, Empties, swaps_at, with_packet};
ghost use Rattle.pair_rule.specs.Kinds.{WasWinner, with_known};
ghost use Rattle.i8080_words.specs.declared.refusal.Fault.TheVariants.{Lost};
ghost use Rattle.pair_rule.specs.declared.mailbox.Mailbox.TheVariants.{Inbox};
ghost use Rattle.pair_rule.specs.declared.payload.Payload.TheVariants.{Log};

use crate::fabric::Fabric;
use crate::mailbox::Mailbox;
use crate::payload::{Packet, Payload};
use crate::seat::SeatState;
use i8080_words::Fault;
use std::marker::Model;

/// What the backup steps with. Contracts see its table and what it knows.
#[derive(Drop)]
pub struct BackupSeat {
    pub(crate) state: SeatState,
    pub(crate) length: u64,
}

impl Model for BackupSeat {
    ghost use Rattle.pair_rule.specs.Seats.{Seat, IsBackup};

    ghost Value = { Seat };

    ghost view = { λ s. record { table = s.state.seat.table_id; core = s.state.seat.me.0.core } };

    ghost invariant = { λ s. IsBackup s.state.seat.me s.state.slot s.state.fills s.state.empties s.length };
}

impl BackupSeat {
    /// Whether the seat may swap once more at each box.
    pub fn has_swaps_left(&self) -> bool
        ensures { IsTrue result ↔ HasSwapsLeft self.now.core }
    {
        self.state.may_swap()
    }

    /// Takes the packet that is in the inbox; `None` if it is empty. If its index is the list's length, the list grows by its
    /// entry.
    pub fn take(&mut self, fabric: &Fabric) -> Option<Packet>
        requires table { self.old.table ≡ fabric.now }
        requires before { self.old.core.known.backup.winner ≡ 0 }
        requires few { swaps_at self.old.core.empties Inbox < 2 ^ 40 }
        ensures same { self.new.table ≡ self.old.table }
        ensures taken { Empties Inbox (option_map Log result) self.old.core self.new.core }
        ensures backup { self.new.core.known.backup ≡ with_packet self.old.core.known.backup result }
    {
        match self.state.empty(fabric, Mailbox::Inbox) {
            Some(Payload::Log(packet)) => {
                if packet.index == self.length {
                    self.length += 1;
                }
                Some(packet)
            }
            _ => None,
        }
    }

    /// Acknowledges the list, and returns how many entries it has.
    pub fn hold(&mut self, fabric: &Fabric) -> u64
        requires table { self.old.table ≡ fabric.now }
        requires before { self.old.core.known.backup.winner ≡ 0 }
        ensures same { self.new.table ≡ self.old.table }
        ensures held { (result ≡ length self.old.core.known.backup.list) × (self.new.core ≡ with_known held self.old.core) }
    {
        self.state.hold(fabric, self.length);
        self.length
    }

    /// The test-and-set: Ok if the backup goes on alone. `Lost` if the primary asked first.
    pub fn contest(&mut self, fabric: &Fabric) -> Result<(), Fault>
        requires table { self.old.table ≡ fabric.now }
        requires before { self.old.core.known.backup.winner ≡ 0 }
        ensures same { self.new.table ≡ self.old.table }
        ensures view { (r : ℕ) × (r < 3) × WasWinner Backup self.old.core.known r
            × (self.new.core ≡ with_known (backup_asked r) self.old.core) }
        ensures won { MatchResult result (λ _. self.new.core.known.backup.winner ≡ 2) (λ e. (e ≡ Lost) × (self.new.core.known.backup.winner ≡ 1)) }
    {
        if self.state.contest_backup(fabric) == 1 {
            Err(Fault::Lost)
        } else {
            Ok(())
        }
    }
}

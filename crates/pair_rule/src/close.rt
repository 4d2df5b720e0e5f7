//! How a generation's table ends.
ghost use Rattle.std.specs.Prelude.{◌≡◌, true, false, slice_set};
ghost use mathlib.Core.Option.{some};
ghost use lib.ListN.{get_elem?};
ghost use Rattle.pair_rule.specs.Boxes.{Primary, Backup, Terminal, Disk, seat_index};
ghost use Rattle.pair_rule.specs.Rules.{has};
ghost use Rattle.pair_rule.specs.Kinds.{know_of};
ghost use Rattle.pair_rule.specs.Seats.{Keeps, Settled};
ghost use Rattle.std.specs.Mem.Slots.{IsFull};

use crate::backup::BackupSeat;
use crate::disk::DiskSeat;
use crate::fabric::{Fabric, PairTable, SharedTable, TableSeat};
use crate::kinds::{LastSlot, Part};
use crate::open::FiveSeats;
use crate::payload::Payload;
use crate::seat::SeatState;
use crate::seated::Seated;
use crate::terminal::TerminalSeat;
use std::alloc::Global;

/// The words of a table that no thread shares any longer.
#[derive(Clone, Copy)]
pub struct Closed {
    /// How many entries the primary's list has.
    pub tail: u64,
    /// How many of them are acknowledged.
    pub held: u64,
    /// Who goes on alone: nobody (0), the primary (1) or the backup (2).
    pub winner: u64,
}

// A seat ends, and the primary's takes over its part.
fn join<S: Seated>(table: &SharedTable, lead: &mut TableSeat, state: SeatState)
    requires table { (lead.old.table_id ≡ table.now.table_id) × (state.seat.table_id ≡ table.now.table_id)
        × (table.now.table_id.words ≡ 11) }
    requires lead { has lead.old.me.0 Primary × (get_elem? lead.old.me.0.mine (seat_index S.who) ≡ some false) }
    requires seat { Keeps S.who state.seat.me state.slot state.fills state.empties }
    ensures table { lead.new.table_id ≡ lead.old.table_id }
    ensures mine { lead.new.me.0.mine ≡ slice_set lead.old.me.0.mine (seat_index S.who) true }
    ensures known { lead.new.me.0.core.known ≡ know_of S.who state.seat.me.0.core.known lead.old.me.0.core.known }
{
    let SeatState {
        seat: mut other,
        slot,
        ..
    } = state;
    table.exchange(&mut other, slot, None);
    table.load::<LastSlot<S>>(&mut other, 0);
    table.join_seat::<Part<S>>(lead, other);
}

// Drops what the slots hold.
fn drop_slots(mut closed: atomic_table::Closed<Option<Payload>, Global>)
    requires { IsFull closed.slots }
{
    for i in 0..closed.slot_count() {
        drop(closed.take(i));
    }
    closed.free();
}

// The words at the end, for a seat that has the parts of all that are joined.
fn settle(table: PairTable, seat: TableSeat) -> Closed
    requires table { (seat.table_id ≡ table.shared.table_id) × (table.shared.table_id.words ≡ 11) }
    requires parts { has seat.me.0 Primary × has seat.me.0 Backup × has seat.me.0 Terminal × has seat.me.0 Disk }
    ensures { Settled seat.me.0.core.known.primary seat.me.0.core.known.backup seat.me.0.core.known.terminal seat.me.0.core.known.disk result.tail result.held result.winner }
{
    let closed = table.close_with(seat);
    let tail = closed.word(0);
    let held = closed.word(1);
    let winner = closed.word(2);
    drop_slots(closed);
    Closed { tail, held, winner }
}

impl Fabric {
    /// Ends the generation. The words and what its seats know are those of one moment.
    pub fn close(self, seats: FiveSeats) -> Closed
        requires { (seats.primary.table ≡ self) × (seats.backup.table ≡ self) × (seats.terminal.table ≡ self)
            × (seats.disk.table ≡ self) }
        ensures { Settled seats.primary.core.known.primary seats.backup.core.known.backup seats.terminal.core.known.terminal seats.disk.core.known.disk result.tail result.held result.winner }
    {
        let FiveSeats {
            primary,
            link,
            backup,
            terminal,
            disk,
        } = seats;
        drop(link);
        let Fabric { table } = self;
        let mut lead = primary.state.seat;
        join::<BackupSeat>(&table.shared, &mut lead, backup.state);
        join::<TerminalSeat>(&table.shared, &mut lead, terminal.state);
        join::<DiskSeat>(&table.shared, &mut lead, disk.state);
        settle(table, lead)
    }
}

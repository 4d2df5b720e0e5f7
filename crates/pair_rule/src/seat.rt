//! How a seat steps, whichever it is.
ghost use Rattle.std.specs.Prelude.{◌≡◌, ◌&&◌, ◌^◌, ◌+◌, ◌<◌, ◌≤◌, Some, length, length as len, slice_index_or};
ghost use Rattle.pair_rule.specs.Boxes.{filler, emptier, empty_word, full_word, Primary, Backup, Terminal};
ghost use Rattle.pair_rule.specs.Histories.{AsksNot, MayAppend, MayPut};
ghost use Rattle.pair_rule.specs.Knowledge.{CanFill, appended, saw, held, primary_asked, backup_asked, accepted_with, byte_arrived, saw_count};
ghost use Rattle.pair_rule.specs.Kinds.{WasHeld, WasWinner, WasAccepted, filled, emptied, with_core, with_known, counted_at};
ghost use Rattle.pair_rule.specs.Seats.{Keeps, Fills, Empties, swaps_at, all_below};

use crate::fabric::{Fabric, TableSeat};
use crate::kinds::{
    Append, ContestBackup, ContestPrimary, Count, Empty, Fill, Hold, See, SeeCount,
};
use crate::mailbox::{Mailbox, index_of};
use crate::payload::{Packet, Payload};

/// How often a seat may swap at one box.
pub const MOST_SWAPS: u64 = 1 << 40;

// A seat of the table, the slot that it holds, and how often it has filled and emptied each box.
#[derive(Drop)]
pub(crate) struct SeatState {
    pub(crate) seat: TableSeat,
    pub(crate) slot: usize,
    pub(crate) fills: [u64; 6],
    pub(crate) empties: [u64; 6],
}

impl SeatState {
    // Whether it may swap once more at each box.
    pub(crate) fn may_swap(&self) -> bool
        ensures { result ≡ (all_below self.now.fills && all_below self.now.empties) }
    {
        are_below(&self.fills) && are_below(&self.empties)
    }

    // Puts a payload into a box. One still there is lost.
    pub(crate) fn fill(&mut self, fabric: &Fabric, mailbox: Mailbox, payload: Payload)
        requires table { self.old.seat.table_id ≡ fabric.now }
        requires seat { Keeps (filler mailbox) self.old.seat.me self.old.slot self.old.fills self.old.empties }
        requires few { swaps_at self.old.seat.me.0.core.fills mailbox < 2 ^ 40 }
        requires can { CanFill mailbox self.old.seat.me.0.core.known payload }
        requires may { MayPut mailbox self.old.seat.me.0.core.known payload }
        ensures table { self.new.seat.table_id ≡ self.old.seat.table_id }
        ensures seat { Keeps (filler mailbox) self.new.seat.me self.new.slot self.new.fills self.new.empties }
        ensures filled { Fills mailbox payload self.old.seat.me.0.core self.new.seat.me.0.core }
    {
        let table = &fabric.table.shared;
        let index = index_of(mailbox);
        let number = next_number(&self.fills, index);
        let new = full_word(number, self.slot);
        table.exchange(&mut self.seat, self.slot, Some(payload));
        let found = table.swap::<Fill>(&mut self.seat, 5 + index, new);
        self.slot = (found % 16) as usize;
        self.fills[index] = number;
    }

    // Takes what lies in a box.
    pub(crate) fn empty(&mut self, fabric: &Fabric, mailbox: Mailbox) -> Option<Payload>
        requires table { self.old.seat.table_id ≡ fabric.now }
        requires seat { Keeps (emptier mailbox) self.old.seat.me self.old.slot self.old.fills self.old.empties }
        requires few { swaps_at self.old.seat.me.0.core.empties mailbox < 2 ^ 40 }
        requires before { AsksNot (emptier mailbox) self.old.seat.me.0.core.known }
        ensures table { self.new.seat.table_id ≡ self.old.seat.table_id }
        ensures seat { Keeps (emptier mailbox) self.new.seat.me self.new.slot self.new.fills self.new.empties }
        ensures emptied { Empties mailbox result self.old.seat.me.0.core self.new.seat.me.0.core }
    {
        let table = &fabric.table.shared;
        let index = index_of(mailbox);
        let number = next_number(&self.empties, index);
        let new = empty_word(number, self.slot);
        let found = table.swap::<Empty>(&mut self.seat, 5 + index, new);
        self.slot = (found % 16) as usize;
        self.empties[index] = number;
        if found / 16 % 2 == 1 {
            table.exchange(&mut self.seat, self.slot, None)
        } else {
            None
        }
    }

    // Adds an entry to the primary's list: one step, and its number is the entry's index.
    pub(crate) fn append(&mut self, fabric: &Fabric, packet: Packet) -> u64
        requires table { self.old.seat.table_id ≡ fabric.now }
        requires seat { Keeps Primary self.old.seat.me self.old.slot self.old.fills self.old.empties }
        requires room { length self.old.seat.me.0.core.known.primary.list < 2 ^ 62 }
        requires may { MayAppend self.old.seat.me.0.core.known }
        ensures table { self.new.seat.table_id ≡ self.old.seat.table_id }
        ensures seat { Keeps Primary self.new.seat.me self.new.slot self.new.fills self.new.empties }
        ensures index { result ≡ length self.old.seat.me.0.core.known.primary.list }
        ensures view { self.new.seat.me.0 ≡ with_core self.old.seat.me.0 (with_known (appended packet.entry) self.old.seat.me.0.core) }
    {
        let table = &fabric.table.shared;
        table.exchange(&mut self.seat, self.slot, Some(Payload::Log(packet)));
        table.fetch_add::<Append>(&mut self.seat, 0, 1)
    }

    // How many entries the backup has acknowledged.
    pub(crate) fn see(&mut self, fabric: &Fabric) -> u64
        requires table { self.old.seat.table_id ≡ fabric.now }
        requires before { self.old.seat.me.0.core.known.primary.winner ≡ 0 }
        requires seat { Keeps Primary self.old.seat.me self.old.slot self.old.fills self.old.empties }
        ensures table { self.new.seat.table_id ≡ self.old.seat.table_id }
        ensures seat { Keeps Primary self.new.seat.me self.new.slot self.new.fills self.new.empties }
        ensures held { WasHeld self.old.seat.me.0.core.known result }
        ensures later { (self.old.seat.me.0.core.known.primary.seen ≤ result)
            × (result ≤ length self.old.seat.me.0.core.known.primary.list) }
        ensures view { self.new.seat.me.0 ≡ with_core self.old.seat.me.0 (with_known (saw result) self.old.seat.me.0.core) }
    {
        fabric.table.shared.load::<See>(&mut self.seat, 1)
    }

    // Acknowledges the backup's list.
    pub(crate) fn hold(&mut self, fabric: &Fabric, length: u64)
        requires table { self.old.seat.table_id ≡ fabric.now }
        requires before { self.old.seat.me.0.core.known.backup.winner ≡ 0 }
        requires seat { Keeps Backup self.old.seat.me self.old.slot self.old.fills self.old.empties }
        requires all { length ≡ len self.old.seat.me.0.core.known.backup.list }
        ensures table { self.new.seat.table_id ≡ self.old.seat.table_id }
        ensures seat { Keeps Backup self.new.seat.me self.new.slot self.new.fills self.new.empties }
        ensures view { self.new.seat.me.0 ≡ with_core self.old.seat.me.0 (with_known held self.old.seat.me.0.core) }
    {
        fabric
            .table
            .shared
            .fetch_max::<Hold>(&mut self.seat, 1, length);
    }

    // Counts the bytes that a terminal has accepted with the byte in hand.
    pub(crate) fn count(&mut self, fabric: &Fabric, port: u8, accepted: u64)
        requires table { self.old.seat.table_id ≡ fabric.now }
        requires seat { Keeps Terminal self.old.seat.me self.old.slot self.old.fills self.old.empties }
        requires port { port < 2 }
        requires accepted { accepted ≡ accepted_with port self.old.seat.me.0.core.known }
        ensures table { self.new.seat.table_id ≡ self.old.seat.table_id }
        ensures seat { Keeps Terminal self.new.seat.me self.new.slot self.new.fills self.new.empties }
        ensures view { self.new.seat.me.0 ≡ with_core self.old.seat.me.0 (with_known (byte_arrived port) self.old.seat.me.0.core) }
    {
        fabric
            .table
            .shared
            .fetch_max::<Count>(&mut self.seat, 3 + port as usize, accepted);
    }

    // The primary's test-and-set: returns who goes on alone.
    pub(crate) fn contest_primary(&mut self, fabric: &Fabric) -> u64
        requires table { self.old.seat.table_id ≡ fabric.now }
        requires before { self.old.seat.me.0.core.known.primary.winner ≡ 0 }
        requires seat { Keeps Primary self.old.seat.me self.old.slot self.old.fills self.old.empties }
        ensures table { self.new.seat.table_id ≡ self.old.seat.table_id }
        ensures seat { Keeps Primary self.new.seat.me self.new.slot self.new.fills self.new.empties }
        ensures few { result < 3 }
        ensures winner { WasWinner Primary self.old.seat.me.0.core.known result }
        ensures view { self.new.seat.me.0 ≡ with_core self.old.seat.me.0 (with_known (primary_asked result) self.old.seat.me.0.core) }
    {
        fabric
            .table
            .shared
            .compare_exchange::<ContestPrimary>(&mut self.seat, 2, 0, 1)
    }

    // The backup's test-and-set: returns who goes on alone.
    pub(crate) fn contest_backup(&mut self, fabric: &Fabric) -> u64
        requires table { self.old.seat.table_id ≡ fabric.now }
        requires before { self.old.seat.me.0.core.known.backup.winner ≡ 0 }
        requires seat { Keeps Backup self.old.seat.me self.old.slot self.old.fills self.old.empties }
        ensures table { self.new.seat.table_id ≡ self.old.seat.table_id }
        ensures seat { Keeps Backup self.new.seat.me self.new.slot self.new.fills self.new.empties }
        ensures few { result < 3 }
        ensures winner { WasWinner Backup self.old.seat.me.0.core.known result }
        ensures view { self.new.seat.me.0 ≡ with_core self.old.seat.me.0 (with_known (backup_asked result) self.old.seat.me.0.core) }
    {
        fabric
            .table
            .shared
            .compare_exchange::<ContestBackup>(&mut self.seat, 2, 0, 2)
    }

    // How many bytes of a port its terminal has counted.
    pub(crate) fn counted(&mut self, fabric: &Fabric, port: u8) -> u64
        requires table { self.old.seat.table_id ≡ fabric.now }
        requires before { self.old.seat.me.0.core.known.primary.winner ≡ 0 }
        requires seat { Keeps Primary self.old.seat.me self.old.slot self.old.fills self.old.empties }
        requires port { port < 2 }
        ensures table { self.new.seat.table_id ≡ self.old.seat.table_id }
        ensures seat { Keeps Primary self.new.seat.me self.new.slot self.new.fills self.new.empties }
        ensures accepted { WasAccepted port self.old.seat.me.0.core.known result }
        ensures later { counted_at port self.old.seat.me.0.core.known ≤ result }
        ensures view { self.new.seat.me.0 ≡ with_core self.old.seat.me.0 (with_known (saw_count port result) self.old.seat.me.0.core) }
    {
        fabric
            .table
            .shared
            .load::<SeeCount>(&mut self.seat, 3 + port as usize)
    }
}

// Whether each number of swaps leaves room for one more.
fn are_below(numbers: &[u64; 6]) -> bool
    ensures { result ≡ all_below numbers.now }
{
    numbers.iter().all(|number| *number < MOST_SWAPS)
}

// The number of the next swap at a box, from the numbers of those that a seat has made.
fn next_number(numbers: &[u64; 6], index: usize) -> u64
    requires within { index < 6 }
    requires few { slice_index_or numbers.now index 0 < 2 ^ 40 }
    ensures { result ≡ slice_index_or numbers.now index 0 + 1 }
{
    numbers[index] + 1
}

// The word of a full box: the number of the swap that filled it, and the slot at home in it.
fn full_word(number: u64, slot: usize) -> u64
    requires number { number ≤ 2 ^ 40 }
    requires slot { slot < 11 }
    ensures { result ≡ full_word number slot }
{
    number * 32 + 16 + slot as u64
}

// The word of an empty box, likewise.
fn empty_word(number: u64, slot: usize) -> u64
    requires number { number ≤ 2 ^ 40 }
    requires slot { slot < 11 }
    ensures { result ≡ empty_word number slot }
{
    number * 32 + slot as u64
}

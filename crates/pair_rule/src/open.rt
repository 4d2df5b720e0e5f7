//! How a generation's table begins.
ghost use Rattle.std.specs.Prelude.{◌≡◌, ◌+◌, true, None, IfOk, IfErr};
ghost use Rattle.pair_rule.specs.Boxes.{Primary, Link, Backup, Terminal, Disk, seat_index};
ghost use Rattle.pair_rule.specs.Rules.{first_core, first_known, has};
ghost use Rattle.pair_rule.specs.Kinds.{with_slot, without};
ghost use Rattle.pair_rule.specs.Seats.{IsNew, Opened};
ghost use Rattle.i8080_words.specs.declared.refusal.Fault.TheVariants.{OutOfMemory};

use crate::backup::BackupSeat;
use crate::disk::DiskSeat;
use crate::fabric::{Fabric, PairTable, SharedTable, TableSeat};
use crate::kinds::{FirstSlot, Part};
use crate::link::LinkSeat;
use crate::primary::PrimarySeat;
use crate::seat::SeatState;
use crate::seated::Seated;
use crate::terminal::{PortTerminal, TerminalSeat};
use atomic_table::Table;
use i8080_words::Fault;
use std::alloc::{AllocError, Global};

// The states of the five seats.
#[derive(Drop)]
pub(crate) struct SeatStates {
    pub(crate) primary: SeatState,
    pub(crate) link: SeatState,
    pub(crate) backup: SeatState,
    pub(crate) terminal: SeatState,
    pub(crate) disk: SeatState,
}

// A seat of a new table takes its slot. It has made no swaps.
fn first_state<S: Seated>(table: &SharedTable, mut seat: TableSeat, slot: usize) -> SeatState
    requires table { table.now.table_id.words ≡ 11 }
    requires seat { IsNew S.who (first_known 1) table.now.table_id seat.table_id seat.me }
    requires slot { slot ≡ 6 + seat_index S.who }
    ensures { Opened S.who (first_known 1) table.now.table_id result.seat.table_id result.seat.me result.slot result.fills result.empties }
{
    table.load::<FirstSlot<S>>(&mut seat, 0);
    SeatState {
        seat,
        slot,
        fills: [0; 6],
        empties: [0; 6],
    }
}

// A seat is split off the first one of a new table, and takes its slot.
fn split_off<S: Seated>(table: &SharedTable, lead: &mut TableSeat, slot: usize) -> SeatState
    requires table { (lead.old.table_id ≡ table.now.table_id) × (table.now.table_id.words ≡ 11) }
    requires lead { has lead.old.me.0 S.who × (lead.old.me.0.core ≡ first_core 1) }
    requires slot { slot ≡ 6 + seat_index S.who }
    ensures table { lead.new.table_id ≡ lead.old.table_id }
    ensures lead { lead.new.me ≡ (without S.who lead.old.me.0, lead.old.me.1) }
    ensures seat { Opened S.who (first_known 1) table.now.table_id result.seat.table_id result.seat.me result.slot result.fills result.empties }
{
    let seat = table.split_seat::<Part<S>>(lead);
    first_state::<S>(table, seat, slot)
}

// A new table at which nothing is known yet, whose first seat is split into five.
pub(crate) fn open(alloc: Global) -> Result<(Fabric, SeatStates), AllocError>
    ensures primary { IfOk result (λ t. Opened Primary (first_known 1) t.0 t.1.primary.seat.table_id t.1.primary.seat.me t.1.primary.slot t.1.primary.fills t.1.primary.empties) }
    ensures link { IfOk result (λ t. Opened Link (first_known 1) t.0 t.1.link.seat.table_id t.1.link.seat.me t.1.link.slot t.1.link.fills t.1.link.empties) }
    ensures backup { IfOk result (λ t. Opened Backup (first_known 1) t.0 t.1.backup.seat.table_id t.1.backup.seat.me t.1.backup.slot t.1.backup.fills t.1.backup.empties) }
    ensures terminal { IfOk result (λ t. Opened Terminal (first_known 1) t.0 t.1.terminal.seat.table_id t.1.terminal.seat.me t.1.terminal.slot t.1.terminal.fills t.1.terminal.empties) }
    ensures disk { IfOk result (λ t. Opened Disk (first_known 1) t.0 t.1.disk.seat.table_id t.1.disk.seat.me t.1.disk.slot t.1.disk.fills t.1.disk.empties) }
{
    let made: (PairTable, TableSeat) = Table::vacant(
        alloc,
        &[0, 0, 0, 0, 0, 0, 1, 2, 3, 4, 5],
        11,
        &1,
    )?;
    let (table, mut lead) = made;
    let link = split_off::<LinkSeat>(&table.shared, &mut lead, 7);
    let backup = split_off::<BackupSeat>(&table.shared, &mut lead, 8);
    let terminal = split_off::<TerminalSeat>(&table.shared, &mut lead, 9);
    let disk = split_off::<DiskSeat>(&table.shared, &mut lead, 10);
    let primary = first_state::<PrimarySeat>(&table.shared, lead, 6);
    let states = SeatStates {
        primary,
        link,
        backup,
        terminal,
        disk,
    };
    Ok((Fabric { table }, states))
}

/// The seats of one table.
#[derive(Drop)]
pub struct FiveSeats {
    pub primary: PrimarySeat,
    pub link: LinkSeat,
    pub backup: BackupSeat,
    pub terminal: TerminalSeat,
    pub disk: DiskSeat,
}

impl Fabric {
    /// A table for one generation, and its seats, which know nothing yet. `OutOfMemory` is its only refusal.
    pub fn open(alloc: Global) -> Result<(Fabric, FiveSeats), Fault>
        ensures refused { IfErr result (λ fault. fault ≡ OutOfMemory) }
        ensures one { IfOk result (λ t. (t.1.primary.table ≡ t.0) × (t.1.link.table ≡ t.0) × (t.1.backup.table ≡ t.0) × (t.1.terminal.table ≡ t.0) × (t.1.disk.table ≡ t.0)) }
        ensures primary { IfOk result (λ t. t.1.primary.core ≡ with_slot Primary true (first_core 1)) }
        ensures link { IfOk result (λ t. (t.1.link.core ≡ with_slot Link true (first_core 1)) × (t.1.link.hand ≡ None)) }
        ensures backup { IfOk result (λ t. t.1.backup.core ≡ with_slot Backup true (first_core 1)) }
        ensures terminal { IfOk result (λ t. t.1.terminal.core ≡ with_slot Terminal true (first_core 1)) }
        ensures disk { IfOk result (λ t. t.1.disk.core ≡ with_slot Disk true (first_core 1)) }
    {
        let (fabric, states) = open(alloc)?;
        let SeatStates {
            primary,
            link,
            backup,
            terminal,
            disk,
        } = states;
        let seats = FiveSeats {
            primary: PrimarySeat {
                state: primary,
                generation: 1,
                length: 0,
                seen: 0,
            },
            link: LinkSeat {
                state: link,
                hand: None,
            },
            backup: BackupSeat {
                state: backup,
                length: 0,
            },
            terminal: TerminalSeat {
                state: terminal,
                line0: PortTerminal {
                    hand: None,
                    accepted: 0,
                },
                line1: PortTerminal {
                    hand: None,
                    accepted: 0,
                },
            },
            disk: DiskSeat { state: disk },
        };
        Ok((fabric, seats))
    }
}

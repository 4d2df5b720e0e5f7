//! One generation on threads.
ghost use Rattle.std.specs.Prelude.{◌≡◌, ◌⊎◌, ℕ, List, [], ◌∷◌, Option, None, Some, false, length, map, IfErr, IfOk, IsOk, OnOk};
ghost use Rattle.guest_lockstep.specs.Machine.{booted_from};
ghost use Rattle.pair_protocol.specs.Lawful.{Lawful};
ghost use Rattle.pair_rule.specs.Knowledge.{StartsWith, last_or};
ghost use Rattle.pair_rule.specs.Threads.{bytes_accepted};
ghost use Rattle.pair_threads.specs.Choosing.{together};
ghost use Rattle.pair_threads.specs.Asking.{HasAsked};
ghost use Rattle.pair_threads.specs.Ending.{EndsBy, IsEnding, KeepsSectors, WonBy, winner_named};
ghost use Rattle.pair_threads.specs.Left.{LeavesBy};
ghost use Rattle.pair_threads.specs.Primary.{IsAtRest, WorkerKeeps, WorkerLeads};
ghost use Rattle.pair_threads.specs.Repeating.{IsAt};
ghost use Rattle.pair_threads.specs.Shown.{IsOfRun};
ghost use Rattle.pair_threads.specs.Stores.{IsStore};
ghost use Rattle.shared_disk.specs.Records.{IsUnwritten, bytes_in};
ghost use Rattle.shared_disk.specs.declared.store.Record.{Record};

use crate::backup::BackupWorker;
use crate::disk::DiskWorker;
use crate::gate::{Gate, Who};
use crate::join::{Five, WorkerEnd, work};
use crate::link::LinkWorker;
use crate::plan::Briefing;
use crate::port_inputs::PortInputs;
use crate::primary::PrimaryWorker;
use crate::recording::Recording;
use crate::repeater::Repeater;
use crate::terminal::TerminalWorker;
use crate::workers::{GenerationEnd, Workers};
use guest_lockstep::Lockstep;
use i8080_words::{Fault, R};
use log_entry::Entry;
use pair_rule::{Fabric, FiveSeats};
use shared_disk::{SectorStore, SharedDisk};
use std::alloc::Global;
use std::thread::Threads;
use std::time::Clock;

// Who goes on alone, by the word of the table.
fn winner_of(word: u64) -> Option<Who>
    ensures { result ≡ winner_named word }
{
    match word {
        0 => None,
        1 => Some(Who::Primary),
        _ => Some(Who::Backup),
    }
}

// The refusal of two workers together: out of memory before anything else.
fn failure_of(one: R<()>, other: R<()>) -> R<()>
    ensures both { OnOk result (IsOk one × IsOk other) }
    ensures refused { IfErr result IsEnding }
    ensures together { result ≡ together one other }
{
    match (one, other) {
        (Ok(()), Ok(())) => Ok(()),
        (Err(Fault::OutOfMemory), _) | (_, Err(Fault::OutOfMemory)) => Err(Fault::OutOfMemory),
        _ => Err(Fault::Stalled),
    }
}

// The seats, and what is kept besides them, of workers that are at their ends.
#[derive(Drop)]
struct Parts<B, D: SectorStore> {
    seats: FiveSeats,
    primary_list: Vec<Entry>,
    backup_list: Vec<Entry>,
    primary_board: B,
    backup_board: B,
    waiting: Option<Entry>,
    typed0: Vec<u8>,
    typed1: Vec<u8>,
    accepted: [Vec<u8>; 2],
    disk: SharedDisk<D>,
}

// Takes the workers apart.
fn take_apart<B: Lockstep + Drop, D: SectorStore>(
    primary: PrimaryWorker<B>,
    link: LinkWorker,
    backup: BackupWorker<B>,
    terminal: TerminalWorker,
    disk: DiskWorker<D>,
) -> Parts<B, D>
    ensures seats { (result.seats.primary ≡ primary.seat) × (result.seats.backup ≡ backup.seat)
        × (result.seats.terminal ≡ terminal.seat) × (result.seats.disk ≡ disk.seat) }
    ensures lists { (result.primary_list ≡ primary.list) × (result.backup_list ≡ backup.guest.list) }
    ensures boards { (result.primary_board ≡ primary.guest.board) × (result.backup_board ≡ backup.guest.board) }
    ensures waiting { result.waiting ≡ primary.guest.waiting }
    ensures typed { (result.typed0 ≡ primary.port0.typed) × (result.typed1 ≡ primary.port1.typed) }
    ensures disk { result.disk ≡ disk.disk }
    ensures screens { map (λ v. v.items) result.accepted
        ≡ bytes_accepted 0 terminal.seat.core.known ∷ bytes_accepted 1 terminal.seat.core.known ∷ [] }
    ensures accepted { map (λ v. v.items) result.accepted ≡ terminal.accepted0.items ∷ terminal.accepted1.items ∷ [] }
{
    let PrimaryWorker {
        seat: primary_seat,
        list: primary_list,
        guest: primary_guest,
        port0,
        port1,
        ..
    } = primary;
    let PortInputs { typed: typed0, .. } = port0;
    let PortInputs { typed: typed1, .. } = port1;
    let BackupWorker {
        seat: backup_seat,
        guest: backup_guest,
        ..
    } = backup;
    let TerminalWorker {
        seat: terminal_seat,
        accepted0,
        accepted1,
        ..
    } = terminal;
    let DiskWorker {
        seat: disk_seat,
        disk,
        ..
    } = disk;
    let LinkWorker {
        seat: link_seat,
        ..
    } = link;
    let Recording {
        board: primary_board,
        waiting,
        ..
    } = primary_guest;
    let Repeater {
        list: backup_list,
        board: backup_board,
        ..
    } = backup_guest;
    Parts {
        seats: FiveSeats {
            primary: primary_seat,
            link: link_seat,
            backup: backup_seat,
            terminal: terminal_seat,
            disk: disk_seat,
        },
        primary_list,
        backup_list,
        primary_board,
        backup_board,
        waiting,
        typed0,
        typed1,
        accepted: [accepted0, accepted1],
        disk,
    }
}

// The workers of a generation after their turns.
pub(crate) type AllServed<B, D> = Five<
    WorkerEnd<PrimaryWorker<B>>,
    WorkerEnd<LinkWorker>,
    WorkerEnd<BackupWorker<B>>,
    WorkerEnd<TerminalWorker>,
    WorkerEnd<DiskWorker<D>>,
>;

// What workers that are all at their ends leave.
#[tactic(auto, using(crate::proofs::Ending::starts, crate::proofs::Ending::ends))]
fn conclude<B: Lockstep + Drop, D: SectorStore>(
    fabric: Fabric,
    primary: PrimaryWorker<B>,
    link: LinkWorker,
    backup: BackupWorker<B>,
    terminal: TerminalWorker,
    disk: DiskWorker<D>,
    contested: bool,
) -> R<GenerationEnd<B, D>>
    requires tables { (primary.seat.table ≡ fabric) × (backup.seat.table ≡ fabric) × (terminal.seat.table ≡ fabric)
        × (disk.seat.table ≡ fabric) }
    requires rests { contested ≡ false → IsAtRest B.state B.machine primary }
    requires plans { (primary.plan.contested ≡ contested) × (backup.plan.contested ≡ contested) }
    requires asked { HasAsked primary.plan.contests_at primary.seat.core.known.primary.winner
        × HasAsked backup.plan.contests_at backup.seat.core.known.backup.winner }
    requires repeated { (contested ≡ false) ⊎ (backup.seat.core.known.backup.winner ≡ 2)
        → backup.guest.replayed ≡ length backup.guest.list.items }
    ensures refused { IfErr result IsEnding }
    ensures decided { IfOk result (λ e. WonBy primary.plan.contests_at backup.plan.contests_at e.winner) }
    ensures lists { IfOk result (λ e. (e.primary ≡ primary.list) × (e.backup ≡ backup.guest.list)
        × (e.held ≡ last_or 0 backup.seat.core.known.backup.held_values)) }
    ensures boards { IfOk result (λ e. (e.primary_board ≡ primary.guest.board) × (e.backup_board ≡ backup.guest.board)) }
    ensures waiting { IfOk result (λ e. e.waiting ≡ primary.guest.waiting) }
    ensures typed { IfOk result (λ e. (e.typed0.items ≡ primary.port0.typed.items)
        × (e.typed1.items ≡ primary.port1.typed.items)) }
    ensures there { (first : List Record) → KeepsSectors first (D.records disk.disk)
        → IfOk result (λ e. KeepsSectors first (D.records e.disk)) }
    ensures prefix { IfOk result (λ e. StartsWith e.primary.items e.backup.items) }
    ensures ends { (boot : B.State) (first : List Record)
        → Lawful (booted_from B.machine boot (bytes_in first))
        → WorkerLeads B.state B.machine boot primary → IsAt B.state B.machine boot backup.guest
        → IsStore (bytes_in first) (D.records disk.disk) disk.seat.core.known.disk
        → IfOk result (λ e. EndsBy (booted_from B.machine boot (bytes_in first)) e.typed0.items e.typed1.items
        e.winner e.primary.items e.backup.items e.held (map (λ v. v.items) e.accepted) (D.records e.disk)
        (B.state e.primary_board) (B.state e.backup_board)) }
    ensures left { (boot : B.State) (first : List Record)
        → Lawful (booted_from B.machine boot (bytes_in first))
        → WorkerLeads B.state B.machine boot primary → IsAt B.state B.machine boot backup.guest
        → IsStore (bytes_in first) (D.records disk.disk) disk.seat.core.known.disk
        → IfOk result (λ e. LeavesBy (booted_from B.machine boot (bytes_in first)) e.typed0.items e.typed1.items e.winner
        e.primary.items e.backup.items e.waiting (map (λ v. v.items) e.accepted) (D.records e.disk) (B.state e.primary_board)
        (B.state e.backup_board)) }
    ensures ran { (boot : B.State) (first : List Record)
        → Lawful (booted_from B.machine boot (bytes_in first))
        → WorkerLeads B.state B.machine boot primary → WorkerKeeps B.machine boot primary
        → IsAt B.state B.machine boot backup.guest
        → IsStore (bytes_in first) (D.records disk.disk) disk.seat.core.known.disk
        → IfOk result (λ e. IsOfRun (booted_from B.machine boot (bytes_in first)) e.typed0.items e.typed1.items e.winner
        e.primary.items e.backup.items e.held e.waiting (map (λ v. v.items) e.accepted) (D.records e.disk) (B.state e.primary_board)
        (B.state e.backup_board)) }
{
    let parts = take_apart(primary, link, backup, terminal, disk);
    let Parts {
        seats,
        primary_list,
        backup_list,
        primary_board,
        backup_board,
        waiting,
        typed0,
        typed1,
        accepted,
        disk,
    } = parts;
    let closed = fabric.close(seats);
    let winner = winner_of(closed.winner);
    if contested && winner.is_none() {
        return Err(Fault::Stalled);
    }
    Ok(GenerationEnd {
        primary: primary_list,
        backup: backup_list,
        primary_board,
        backup_board,
        waiting,
        typed0,
        typed1,
        held: closed.held,
        winner,
        accepted,
        disk,
    })
}

// What workers leave, if all of them are at their ends.
pub(crate) fn finish<B: Lockstep + Drop, D: SectorStore>(
    fabric: Fabric,
    five: AllServed<B, D>,
    contested: bool,
) -> R<GenerationEnd<B, D>>
    requires primary { (five.primary.0.seat.table ≡ fabric)
        × OnOk five.primary.1 (contested ≡ false → IsAtRest B.state B.machine five.primary.0) }
    requires primary_asked { OnOk five.primary.1 ((five.primary.0.plan.contested ≡ contested)
        × HasAsked five.primary.0.plan.contests_at five.primary.0.seat.core.known.primary.winner) }
    requires backup_asked { OnOk five.backup.1 ((five.backup.0.plan.contested ≡ contested)
        × HasAsked five.backup.0.plan.contests_at five.backup.0.seat.core.known.backup.winner) }
    requires backup { (five.backup.0.seat.table ≡ fabric)
        × OnOk five.backup.1 ((contested ≡ false) ⊎ (five.backup.0.seat.core.known.backup.winner ≡ 2)
        → five.backup.0.guest.replayed ≡ length five.backup.0.guest.list.items) }
    requires others { (five.terminal.0.seat.table ≡ fabric) × (five.disk.0.seat.table ≡ fabric) }
    ensures refused { IfErr result IsEnding }
    ensures failed { IfErr (together (together five.primary.1 five.backup.1) (together five.link.1
        (together five.terminal.1 five.disk.1))) (λ fault. result ≡ Err fault) }
    ensures decided { (first second : Option ℕ) → OnOk five.primary.1 (five.primary.0.plan.contests_at ≡ first)
        → OnOk five.backup.1 (five.backup.0.plan.contests_at ≡ second) → IfOk result (λ e. WonBy first second e.winner) }
    ensures prefix { IfOk result (λ e. StartsWith e.primary.items e.backup.items) }
    ensures ends { (boot : B.State) (first : List Record)
        → Lawful (booted_from B.machine boot (bytes_in first))
        → OnOk five.primary.1 (WorkerLeads B.state B.machine boot five.primary.0)
        → OnOk five.backup.1 (IsAt B.state B.machine boot five.backup.0.guest)
        → OnOk five.disk.1 (IsStore (bytes_in first) (D.records five.disk.0.disk) five.disk.0.seat.core.known.disk)
        → IfOk result (λ e. EndsBy (booted_from B.machine boot (bytes_in first)) e.typed0.items e.typed1.items
        e.winner e.primary.items e.backup.items e.held (map (λ v. v.items) e.accepted) (D.records e.disk)
        (B.state e.primary_board) (B.state e.backup_board)) }
    ensures there { (first : List Record) → OnOk five.disk.1 (KeepsSectors first (D.records five.disk.0.disk))
        → IfOk result (λ e. KeepsSectors first (D.records e.disk)) }
    ensures typed { (typed0 typed1 : List ℕ)
        → OnOk five.primary.1 ((five.primary.0.port0.typed.items ≡ typed0) × (five.primary.0.port1.typed.items ≡ typed1))
        → IfOk result (λ e. (e.typed0.items ≡ typed0) × (e.typed1.items ≡ typed1)) }
    ensures left { (boot : B.State) (first : List Record)
        → Lawful (booted_from B.machine boot (bytes_in first))
        → OnOk five.primary.1 (WorkerLeads B.state B.machine boot five.primary.0)
        → OnOk five.backup.1 (IsAt B.state B.machine boot five.backup.0.guest)
        → OnOk five.disk.1 (IsStore (bytes_in first) (D.records five.disk.0.disk) five.disk.0.seat.core.known.disk)
        → IfOk result (λ e. LeavesBy (booted_from B.machine boot (bytes_in first)) e.typed0.items e.typed1.items e.winner
        e.primary.items e.backup.items e.waiting (map (λ v. v.items) e.accepted) (D.records e.disk) (B.state e.primary_board)
        (B.state e.backup_board)) }
    ensures ran { (boot : B.State) (first : List Record)
        → Lawful (booted_from B.machine boot (bytes_in first))
        → OnOk five.primary.1 (WorkerLeads B.state B.machine boot five.primary.0)
        → OnOk five.primary.1 (WorkerKeeps B.machine boot five.primary.0)
        → OnOk five.backup.1 (IsAt B.state B.machine boot five.backup.0.guest)
        → OnOk five.disk.1 (IsStore (bytes_in first) (D.records five.disk.0.disk) five.disk.0.seat.core.known.disk)
        → IfOk result (λ e. IsOfRun (booted_from B.machine boot (bytes_in first)) e.typed0.items e.typed1.items e.winner
        e.primary.items e.backup.items e.held e.waiting (map (λ v. v.items) e.accepted) (D.records e.disk) (B.state e.primary_board)
        (B.state e.backup_board)) }
{
    let Five {
        primary: (primary, primary_end),
        link: (link, link_end),
        backup: (backup, backup_end),
        terminal: (terminal, terminal_end),
        disk: (disk, disk_end),
    } = five;
    failure_of(
        failure_of(primary_end, backup_end),
        failure_of(link_end, failure_of(terminal_end, disk_end)),
    )?;
    conclude(fabric, primary, link, backup, terminal, disk, contested)
}

/// Runs one generation, a worker for each of the five seats on its own thread, with at most this many turns for the primary
/// and for the backup. If nobody is planned to go on alone, it ends well when the guest idles, all keys are taken, nothing is
/// outstanding, under way or due, and all entries are acknowledged and repeated. Otherwise it ends when it is decided who goes
/// on alone; a backup that does has repeated its list. `Stalled` if it ends in no such way, `OutOfMemory` if memory or a thread
/// is refused.
#[tactic(auto, using(crate::proofs::Beginning::nothing_yet, crate::proofs::Serving::first_disk))]
pub fn run_generation<
    B: Lockstep + Send + Drop,
    D: SectorStore + Send,
    G: Gate + Sync,
    T: Threads + Clock + Sync,
>(rt: &T, alloc: Global, workers: Workers<B, D>, gate: &G, turns: u64) -> R<GenerationEnd<B, D>>
    requires lawful { Lawful (booted_from B.machine (B.state workers.primary) (bytes_in (D.records workers.disk))) }
    requires alike { B.state workers.backup ≡ B.state workers.primary }
    requires unwritten { IsUnwritten (D.records workers.disk) }
    ensures refused { IfErr result IsEnding }
    ensures decided { IfOk result (λ e. WonBy workers.primary_contests workers.backup_contests e.winner) }
    ensures prefix { IfOk result (λ e. StartsWith e.primary.items e.backup.items) }
    ensures typed { IfOk result (λ e. (e.typed0.items ≡ workers.typed0.items) × (e.typed1.items ≡ workers.typed1.items)) }
    ensures there { IfOk result (λ e. KeepsSectors (D.records workers.disk) (D.records e.disk)) }
    ensures ends { IfOk result (λ e. EndsBy (booted_from B.machine (B.state workers.primary) (bytes_in (D.records workers.disk)))
        e.typed0.items e.typed1.items e.winner e.primary.items e.backup.items e.held
        (map (λ v. v.items) e.accepted) (D.records e.disk) (B.state e.primary_board) (B.state e.backup_board)) }
    ensures left { IfOk result (λ e. LeavesBy (booted_from B.machine (B.state workers.primary) (bytes_in (D.records workers.disk)))
        e.typed0.items e.typed1.items e.winner e.primary.items e.backup.items e.waiting
        (map (λ v. v.items) e.accepted) (D.records e.disk) (B.state e.primary_board) (B.state e.backup_board)) }
    ensures ran { IfOk result (λ e. IsOfRun (booted_from B.machine (B.state workers.primary) (bytes_in (D.records workers.disk)))
        e.typed0.items e.typed1.items e.winner e.primary.items e.backup.items e.held e.waiting
        (map (λ v. v.items) e.accepted) (D.records e.disk) (B.state e.primary_board) (B.state e.backup_board)) }
{
    let (fabric, seats) = Fabric::open(alloc)?;
    let Workers {
        primary,
        backup,
        disk,
        typed0,
        typed1,
        fates,
        primary_contests,
        backup_contests,
        steps,
    } = workers;
    let contested = primary_contests.is_some() || backup_contests.is_some();
    let lead = Briefing::new(primary_contests, contested, steps);
    let follow = Briefing::new(backup_contests, contested, steps);
    let ports = (PortInputs::new(typed0), PortInputs::new(typed1));
    let five = Five {
        primary: PrimaryWorker::new(alloc, seats.primary, primary, ports, lead),
        link: LinkWorker::new(seats.link, fates),
        backup: BackupWorker::new(alloc, seats.backup, backup, follow),
        terminal: TerminalWorker::new(alloc, seats.terminal),
        disk: DiskWorker::new(seats.disk, disk),
    };
    let served = work(rt, five, &fabric, gate, turns, contested);
    finish(fabric, served, contested)
}

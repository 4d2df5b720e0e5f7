//! How a pair of Altairs is run on threads.
ghost use Rattle.std.specs.Prelude.{◌≡◌, IfOk};
ghost use Rattle.event_callbacks.specs.declared.devices.TheConstants.{SENT, SECTOR, WRITTEN};
ghost use Rattle.event_callbacks.specs.Keeping.{Keeps};
ghost use Rattle.guest_board.specs.Guest.{guest_at_boot};
ghost use Rattle.shared_disk.specs.Records.{IsUnwritten};

use altair_laws::altairs_are_lawful;
use disk_dcdd::SectorAddress;
use event_callbacks::{Callbacks, Completes, plain_completions};
use guest_board::{Board, Setup};
use guest_lockstep::{Lockstep, Reads};
use i8080_words::{Fault, R};
use pair_threads::{Gate, GenerationEnd, Who, Workers, run_generation};
use shared_disk::{FailOnce, MemoryStore, SectorRead, SharedDisk};
use std::alloc::Global;
use std::thread::Threads;
use std::time::Clock;

// Records on a device whose read or write fails once if a case says so.
type Store = FailOnce<MemoryStore>;

/// What a pair runs: a program at 0000, which access of the disk fails (0 if none), and when the backup asks to go on alone.
#[derive(Clone, Copy)]
pub(super) struct PairCase<'a> {
    pub(super) program: &'a [u8],
    pub(super) fails: u64,
    pub(super) backup_contests: Option<u64>,
}

/// A program alone.
pub(super) fn alone(program: &[u8]) -> PairCase<'_> {
    PairCase {
        program,
        fails: 0,
        backup_contests: None,
    }
}

/// How a pair has ended: who goes on alone, how many entries the primary's list has, and sector 0 of track 0.
#[derive(Clone, Copy)]
pub(super) struct PairOutcome {
    pub(super) winner: Option<Who>,
    pub(super) entries: usize,
    pub(super) sector: SectorRead,
}

// What has come of a pair.
fn outcome_of<B: Lockstep + Drop>(mut end: GenerationEnd<B, Store>) -> R<PairOutcome> {
    let sector = end.disk.get(SectorAddress {
        drive: 0,
        track: 0,
        sector: 0,
    })?;
    Ok(PairOutcome {
        winner: end.winner,
        entries: end.primary.len(),
        sector,
    })
}

// A guest with one drive, whose memory begins with this program.
fn setup_of(alloc: Global, program: &[u8]) -> R<Setup> {
    let mut memory = Vec::from_slice(alloc, program)?;
    memory.resize(65536, 0x00)?;
    if memory.len() != 65536 {
        return Err(Fault::Malformed);
    }
    Ok(Setup {
        memory,
        drives: 1,
        levels: [7; 3],
        sense: 0x00,
        reads: Reads::Logged,
    })
}

// An unwritten disk of one drive, whose access of this number fails.
fn unwritten_disk(alloc: Global, fails: u64) -> R<SharedDisk<Store>>
    ensures { IfOk result (λ disk. IsUnwritten disk.store) }
{
    let store = MemoryStore::at_boot(alloc, 1, &[])?;
    Ok(SharedDisk::new(FailOnce::new(store, fails)))
}

// The workers of these guests.
fn workers_of<B: Lockstep + Drop>(
    alloc: Global,
    case: &PairCase,
    primary: B,
    backup: B,
) -> R<Workers<B, Store>>
    ensures guests { IfOk result (λ workers. (workers.primary ≡ primary) × (workers.backup ≡ backup)) }
    ensures unwritten { IfOk result (λ workers. IsUnwritten workers.disk.store) }
{
    let disk = unwritten_disk(alloc, case.fails)?;
    Ok(Workers {
        primary,
        backup,
        disk,
        typed0: Vec::new(alloc),
        typed1: Vec::new(alloc),
        fates: Vec::new(alloc),
        primary_contests: None,
        backup_contests: case.backup_contests,
        steps: 1,
    })
}

// The workers of Altairs of a setup, with these closures as completions.
fn altairs_of<T: Completes + Drop + Copy, S: Completes + Drop + Copy, W: Completes + Drop + Copy>(
    alloc: Global,
    setup: &Setup,
    case: &PairCase,
    sent: T,
    sector: S,
    written: W,
) -> R<Workers<Board<T, S, W>, Store>>
    requires sent { Keeps (T.may sent) (T.gives sent) SENT }
    requires sector { Keeps (S.may sector) (S.gives sector) SECTOR }
    requires written { Keeps (W.may written) (W.gives written) WRITTEN }
    ensures guests { IfOk result (λ workers. (workers.primary.guest ≡ guest_at_boot setup.now)
        × (workers.backup.guest ≡ guest_at_boot setup.now)) }
    ensures unwritten { IfOk result (λ workers. IsUnwritten workers.disk.store) }
{
    let primary = Board::booted(alloc, setup, Callbacks::of(sent, sector, written))?;
    let backup = Board::booted(alloc, setup, Callbacks::of(sent, sector, written))?;
    workers_of(alloc, case, primary, backup)
}

// Runs a pair of Altairs of a setup, a million turns of one step, with these closures as completions.
fn run_with<
    T: Completes + Drop + Copy + Send,
    S: Completes + Drop + Copy + Send,
    W: Completes + Drop + Copy + Send,
    G: Gate + Sync,
    H: Threads + Clock + Sync,
>(
    rt: &H,
    alloc: Global,
    setup: &Setup,
    case: &PairCase,
    gate: &G,
    sent: T,
    sector: S,
    written: W,
) -> R<PairOutcome>
    requires sent { Keeps (T.may sent) (T.gives sent) SENT }
    requires sector { Keeps (S.may sector) (S.gives sector) SECTOR }
    requires written { Keeps (W.may written) (W.gives written) WRITTEN }
{
    altairs_are_lawful();
    let workers = altairs_of(alloc, setup, case, sent, sector, written)?;
    match run_generation(rt, alloc, workers, gate, 1_000_000) {
        Ok(end) => outcome_of(end),
        Err(fault) => Err(fault),
    }
}

/// Runs a case on Altairs with one drive, with the plain completions.
pub(super) fn run_case<G: Gate + Sync, H: Threads + Clock + Sync>(
    rt: &H,
    alloc: Global,
    case: &PairCase,
    gate: &G,
) -> R<PairOutcome> {
    let setup = setup_of(alloc, case.program)?;
    run_with(
        rt,
        alloc,
        &setup,
        case,
        gate,
        plain_completions::sent,
        plain_completions::sector,
        plain_completions::written,
    )
}

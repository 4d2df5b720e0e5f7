//! Steps of a guest whose log has room for one entry.
ghost use Rattle.std.specs.Prelude.{◌≡◌, ◌<◌, None, IfOk, OnErr};
ghost use Rattle.guest_lockstep.specs.Lockstep.{step_refusal};
ghost use Rattle.guest_lockstep.specs.Pages.{stale_after};
ghost use Rattle.log_entry.specs.declared.entry.Entry.TheVariants.{Mark};
ghost use Rattle.recorder.specs.Recording as table;

use guest_lockstep::{Lockstep, StopReason, Stopped};
use i8080_words::R;
use log_buffer::EntryLog;
use log_entry::Entry;

// Executes at most `turns` steps, up to the first that gives an operation, whose mark is logged. Refused if none is
// executed.
pub(crate) fn run<B: Lockstep, L: EntryLog>(board: &mut B, log: &mut L, turns: u64) -> R<Stopped>
    requires some { 0 < turns }
    requires room { L.logging.refusal log.old ≡ None }
    ensures answer { table.AdvancesUnless B.machine L.logging (B.state board.old) log.old turns
        (step_refusal B.machine (B.state board.old)) result (B.state board.new) log.new }
    ensures pages { IfOk result (λ a. B.stale board.new ≡ stale_after B.machine B.writes (B.stale board.old) (B.state board.old) a.steps) }
    ensures unchanged { OnErr result ((board.new ≡ board.old) × (log.new ≡ log.old)) }
{
    let stopped = guest_lockstep::run(board, turns);
    match stopped.reason {
        StopReason::Turns => Ok(stopped),
        StopReason::Operation(_) => {
            push_mark(board.count(), log);
            Ok(stopped)
        }
        StopReason::Refused(fault) if stopped.steps == 0 => Err(fault),
        StopReason::Refused(_) => Ok(stopped),
    }
}

// Logs the mark of an operation that was given at a count.
fn push_mark<L: EntryLog>(count: u64, log: &mut L)
    requires room { L.logging.refusal log.old ≡ None }
    ensures log { log.new ≡ L.logging.pushed log.old (Mark count) }
{
    let _index = log.append(Entry::Mark { count });
}

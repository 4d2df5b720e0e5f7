//! A pair of Altairs, from its boot to the end of a script.
ghost use Rattle.std.specs.Prelude.{◌≡◌, ◌∷◌, [], IfErr, OnOk};
ghost use Rattle.event_callbacks.specs.declared.devices.TheConstants.{SENT, SECTOR, WRITTEN};
ghost use Rattle.event_callbacks.specs.Keeping.{Keeps};
ghost use Rattle.ft_world.specs.Applies.{Shows};
ghost use Rattle.ft_world.specs.Standing.{Course, machine_of};
ghost use Rattle.guest_board.specs.Guest.{altair};
ghost use Rattle.plain_single.specs.Image.{boot_sectors};
ghost use Rattle.altair_pair.specs.Comparing.{IsVerdictOn};
ghost use Rattle.shared_disk.specs.Failing.{failures_of, records_in};
ghost use Rattle.altair_pair.specs.Disks.{over_records};
ghost use Rattle.pair_events.specs.Printed.{answer_text};
ghost use Rattle.command_script.specs.Printing.{AnswersLines, HandsNone, Prints, PrintsVerdict};
ghost use Rattle.command_io.specs.Reports.{handed};
ghost use Rattle.command_script.specs.Running.{HasHappened, HaveAnswers, HaveHappened};

use crate::order::ScriptTask;
use altair_pair::{Verdict, boot, compare, faithful_pairs_are_alike, find};
use board_image::DraftedBoard;
use clone_state::Copies;
use command_io::{Failure, LineReport, ScriptInput};
use disk_dcdd::SectorWrite;
use event_callbacks::{Callbacks, Completes};
use ft_world::World;
use guest_board::Setup;
use pair_events::{Answer, Event};
use script_language::{Line, Script};
use shared_disk::Disk;
use std::alloc::Global;
use std::io::Write;

/// Boots a pair whose completions are these closures, and runs a script: either its lines are answered, or the pair is
/// compared at its end with a single machine.
pub fn run<
    T: Completes + Drop + Copy,
    S: Completes + Drop + Copy,
    W: Completes + Drop + Copy,
    O: Write + Drop,
>(
    alloc: Global,
    order: ScriptTask,
    input: &ScriptInput,
    report: &mut LineReport,
    writer: &mut O,
    sent: T,
    sector: S,
    written: W,
) -> Result<(), Failure>
    requires sent { Keeps (T.may sent) (T.gives sent) SENT }
    requires sector { Keeps (S.may sector) (S.gives sector) SECTOR }
    requires written { Keeps (W.may written) (W.gives written) WRITTEN }
    ensures { Prints order input.now.script.setup input.now.sectors.items input.now.script.lines.items result
        (handed (O.contents writer.old) report.old) (handed (O.contents writer.new) report.new) }
{
    faithful_pairs_are_alike::<DraftedBoard<T, S, W>, Callbacks<T, S, W>>();
    let Script { setup, lines } = &input.script;
    let sectors = &input.sectors;
    let mut world = boot(alloc, setup, sectors, sent, sector, written)?;
    match order {
        ScriptTask::Script => answer_each(alloc, &mut world, lines, report, writer),
        ScriptTask::Check => {
            run_silently(alloc, &mut world, lines);
            check(alloc, &mut world, &setup.guest, sectors, report, writer)
        }
    }
}

// Compares a pair with the single machine of its setup, and prints the verdict.
fn check<B: Copies<H> + Drop, H: Drop, O: Write + Drop>(
    alloc: Global,
    world: &mut World<B, Disk, H>,
    setup: &Setup,
    sectors: &[SectorWrite],
    report: &mut LineReport,
    writer: &mut O,
) -> Result<(), Failure>
    ensures verdict { (c : Course B.State) → Shows B.state B.copied B.machine records_in world.old c
        → PrintsVerdict (IsVerdictOn (altair setup.now (boot_sectors sectors.now)) setup.now.drives
        (machine_of B.machine c) c.world world.old.disk.store) result
        (handed (O.contents writer.old) report.old) (handed (O.contents writer.new) report.new) }
    ensures unchanged { over_records world.new ≡ over_records world.old }
{
    let verdict = compare(alloc, world, setup, sectors)?;
    report.line(writer, &verdict)?;
    match verdict {
        Verdict::Same { .. } => Ok(()),
        Verdict::Differs => Err(Failure::Differs),
    }
}

// Makes every event happen, and answers nothing.
fn run_silently<B: Copies<H> + Drop, H: Drop>(
    alloc: Global,
    world: &mut World<B, Disk, H>,
    lines: &[Line],
)
    ensures { (c : Course B.State) → Shows B.state B.copied B.machine records_in world.old c
        → HaveHappened B.state B.copied B.machine c lines.now world.old world.new }
{
    for line in lines {
        pass(alloc, world, *line);
    }
}

// Makes a line's event happen, if it has one.
#[tactic(auto, using(crate::proofs::Lines::passes_event, crate::proofs::Lines::passes_query))]
fn pass<B: Copies<H> + Drop, H: Drop>(alloc: Global, world: &mut World<B, Disk, H>, line: Line)
    ensures { (c : Course B.State) → Shows B.state B.copied B.machine records_in world.old c
        → HaveHappened B.state B.copied B.machine c (line ∷ []) world.old world.new }
{
    if let Line::Event(event) = line {
        let _ = world.apply(alloc, event);
    }
}

// Answers one line after another. What was answered is written before guests run for long.
fn answer_each<B: Copies<H> + Drop, H: Drop, O: Write + Drop>(
    alloc: Global,
    world: &mut World<B, Disk, H>,
    lines: &[Line],
    report: &mut LineReport,
    writer: &mut O,
) -> Result<(), Failure>
    ensures { (c : Course B.State) → Shows B.state B.copied B.machine records_in world.old c
        → AnswersLines (machine_of B.machine c) c.copying c.world lines.now (failures_of world.old.disk.left) result
        (handed (O.contents writer.old) report.old) (handed (O.contents writer.new) report.new) }
{
    for line in lines {
        report.before_turns(writer, turns_of(*line))?;
        answer(alloc, world, *line, report, writer)?;
    }
    Ok(())
}

// How many turns a guest may make in a line.
fn turns_of(line: Line) -> u64 {
    match line {
        Line::Event(Event::Step { turns, .. }) => turns,
        Line::Event(Event::Replay { turns, .. }) => turns,
        Line::Event(Event::Drain { turns, .. }) => turns,
        _ => 0,
    }
}

// Answers a line.
#[tactic(auto, using(crate::proofs::Lines::event_answers, crate::proofs::Lines::query_answers, crate::proofs::Answering::hands_none))]
fn answer<B: Copies<H> + Drop, H: Drop, O: Write + Drop>(
    alloc: Global,
    world: &mut World<B, Disk, H>,
    line: Line,
    report: &mut LineReport,
    writer: &mut O,
) -> Result<(), Failure>
    ensures answered { OnOk result ((c : Course B.State) → Shows B.state B.copied B.machine records_in world.old c
        → HaveAnswers B.state B.copied B.machine c (line ∷ []) world.old world.new
        (handed (O.contents writer.old) report.old) (handed (O.contents writer.new) report.new)) }
    ensures failed { IfErr result (λ e. HandsNone e
        (handed (O.contents writer.old) report.old) (handed (O.contents writer.new) report.new)) }
{
    match line {
        Line::Event(event) => {
            let answer = happen(alloc, world, event);
            report.line(writer, &answer)
        }
        Line::Query(query) => report.line(writer, &find(world, query)),
    }
}

// Makes an event happen, and answers it.
fn happen<B: Copies<H> + Drop, H: Drop>(
    alloc: Global,
    world: &mut World<B, Disk, H>,
    event: Event,
) -> Answer<'static>
    ensures { (c : Course B.State) → Shows B.state B.copied B.machine records_in world.old c
        → HasHappened B.state B.copied B.machine c event (answer_text result) world.old world.new }
{
    match world.apply(alloc, event) {
        Ok(reply) => Answer::Reply(reply),
        Err(fault) => Answer::Refused(fault),
    }
}

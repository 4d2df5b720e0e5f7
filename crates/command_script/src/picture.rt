//! A script that is run, and drawn.
ghost use Rattle.std.specs.Prelude.{◌≡◌, ◌∷◌, [], IfErr, IfOk, OnOk};
ghost use Rattle.command_io.specs.declared.failure.Failure.TheVariants as failure;
ghost use Rattle.command_script.specs.Drawing.{Draws};
ghost use Rattle.command_script.specs.Telling.{HaveTold, IsToldOf, TellsAfter};
ghost use Rattle.event_callbacks.specs.declared.devices.TheConstants.{SENT, SECTOR, WRITTEN};
ghost use Rattle.event_callbacks.specs.Keeping.{Keeps};
ghost use Rattle.ft_world.specs.Applies.{Shows};
ghost use Rattle.ft_world.specs.Standing.{Course};
ghost use Rattle.shared_disk.specs.Failing.{records_in};

use altair_pair::{boot, moment_of};
use clone_state::Copies;
use command_io::{Failure, ScriptInput};
use event_callbacks::{Completes, plain_completions};
use ft_world::World;
use script_language::{Line, Script};
use sequence_diagram::{Moment, draw};
use shared_disk::Disk;
use std::alloc::{AllocError, Global};
use std::io::Write;

/// Runs a script, and writes a picture of what happened in it.
#[tactic(auto, using(crate::proofs::Drawing::draws_run))]
pub fn run_picture<W: Write + Drop>(
    alloc: Global,
    input: &ScriptInput,
    writer: &mut W,
) -> Result<(), Failure>
    ensures { Draws input.now.script.setup input.now.sectors.items input.now.script.lines.items result
        (W.contents writer.old) (W.contents writer.new) }
{
    let moments = run(
        alloc,
        input,
        plain_completions::sent,
        plain_completions::sector,
        plain_completions::written,
    )?;
    let picture = draw(alloc, &moments)?;
    writer.write_all(picture.as_bytes())?;
    writer.flush()?;
    Ok(())
}

// Boots a pair whose completions are these closures, makes the events of a script happen, and tells of each.
fn run<T: Completes + Drop + Copy, S: Completes + Drop + Copy, W: Completes + Drop + Copy>(
    alloc: Global,
    input: &ScriptInput,
    sent: T,
    sector: S,
    written: W,
) -> Result<Vec<Moment>, Failure>
    requires sent { Keeps (T.may sent) (T.gives sent) SENT }
    requires sector { Keeps (S.may sector) (S.gives sector) SECTOR }
    requires written { Keeps (W.may written) (W.gives written) WRITTEN }
    ensures told { IfOk result (λ moments. IsToldOf input.now.script.setup input.now.sectors.items
        input.now.script.lines.items moments.items) }
    ensures refused { IfErr result (λ e. e ≡ failure.OutOfMemory) }
{
    let Script { setup, lines } = &input.script;
    let mut world = boot(alloc, setup, &input.sectors, sent, sector, written)?;
    let moments = tell_each(alloc, &mut world, lines)?;
    Ok(moments)
}

// Makes every event happen, and tells of each.
fn tell_each<B: Copies<H> + Drop, H: Drop>(
    alloc: Global,
    world: &mut World<B, Disk, H>,
    lines: &[Line],
) -> Result<Vec<Moment>, AllocError>
    ensures { IfOk result (λ moments. (c : Course B.State) → Shows B.state B.copied B.machine records_in world.old c
        → HaveTold B.state B.copied B.machine c lines.now moments.items world.old world.new) }
{
    let mut moments = Vec::new(alloc);
    for line in lines {
        tell(alloc, world, *line, &mut moments)?;
    }
    Ok(moments)
}

// Makes a line's event happen, if it has one, and tells of it after the others.
#[tactic(auto, using(crate::proofs::Telling::tells_no_query))]
fn tell<B: Copies<H> + Drop, H: Drop>(
    alloc: Global,
    world: &mut World<B, Disk, H>,
    line: Line,
    moments: &mut Vec<Moment>,
) -> Result<(), AllocError>
    ensures { OnOk result (TellsAfter B.state B.copied B.machine world.old (line ∷ []) moments.old.items moments.new.items world.new) }
{
    if let Line::Event(event) = line {
        let answer = world.apply(alloc, event);
        moments.push(moment_of(world, event, answer))?;
    }
    Ok(())
}

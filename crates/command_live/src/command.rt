//! A pair on threads that is run, and printed.
ghost use Rattle.std.specs.Prelude.{◌≡◌, IfErr, IsTrue, OnOk};
ghost use Rattle.std.specs.Io.KnownBytes.{Appends};
ghost use Rattle.command_io.specs.declared.failure.Failure.TheVariants as failure;
ghost use Rattle.command_io.specs.Typed.{typed_in};
ghost use Rattle.command_live.specs.Living.{PrintsLive};
ghost use Rattle.command_io.specs.Saving.{are_attached};

use crate::live;
use command_io::{Failure, LineReport, ScriptInput, are_attached};
use command_line::LiveOrder;
use event_callbacks::plain_completions;
use std::alloc::Global;
use std::io::Write;
use std::thread::Threads;
use std::time::Clock;

/// Runs a pair on threads, and writes what it prints and the images of the disks that are saved. If a disk is to be saved that no drive
/// of the setup has, input or output fails, and nothing runs.
pub fn run_live<H: Threads + Clock + Sync, W: Write + Drop>(
    rt: &H,
    alloc: Global,
    order: LiveOrder,
    input: &ScriptInput,
    writer: &mut W,
) -> Result<(), Failure>
    ensures printed { PrintsLive input.now.script.setup input.now.sectors.items (typed_in 0 input.now.script.lines.items)
        (typed_in 1 input.now.script.lines.items) order result (W.contents writer.old) (W.contents writer.new) }
{
    if !are_attached(&order.saved, input.script.setup.guest.drives) {
        return Err(Failure::InputOrOutput);
    }
    run_attached(rt, alloc, order, input, writer)
}

// The same, if each disk that is to be saved is that of a drive of the setup.
#[tactic(auto, using(crate::proofs::Living::settled_live, crate::proofs::Living::settled_residual))]
fn run_attached<H: Threads + Clock + Sync, W: Write + Drop>(
    rt: &H,
    alloc: Global,
    order: LiveOrder,
    input: &ScriptInput,
    writer: &mut W,
) -> Result<(), Failure>
    requires attached { IsTrue (are_attached input.now.script.setup.guest.drives order.saved.items) }
    ensures printed { PrintsLive input.now.script.setup input.now.sectors.items (typed_in 0 input.now.script.lines.items)
        (typed_in 1 input.now.script.lines.items) order result (W.contents writer.old) (W.contents writer.new) }
{
    let mut printed = LineReport::new(alloc);
    let ended = live::run(
        rt,
        alloc,
        order,
        input,
        &mut printed,
        writer,
        plain_completions::sent,
        plain_completions::sector,
        plain_completions::written,
    );
    printed.flush(writer)?;
    let images = ended?;
    write_images(&images, writer)
}

// Writes the images of disks, whole.
fn write_images<W: Write + Drop>(images: &[u8], writer: &mut W) -> Result<(), Failure>
    ensures written { OnOk result (Appends (W.contents writer.old) (W.contents writer.new) images.now) }
    ensures errors { IfErr result (λ e. e ≡ failure.InputOrOutput) }
{
    writer.write_all(images)?;
    writer.flush()?;
    Ok(())
}

//! A script that is run, and told of.
ghost use Rattle.command_script.specs.Printing.{Prints};

use crate::order::ScriptTask;
use crate::session;
use command_io::{Failure, LineReport, ScriptInput};
use event_callbacks::plain_completions;
use std::alloc::Global;
use std::io::Write;

/// Runs a script, and writes what it prints. What was answered before a failure is written too.
#[tactic(auto, using(crate::proofs::Answering::settled_prints))]
pub fn run_script<W: Write + Drop>(
    alloc: Global,
    order: ScriptTask,
    input: &ScriptInput,
    writer: &mut W,
) -> Result<(), Failure>
    ensures { Prints order input.now.script.setup input.now.sectors.items input.now.script.lines.items result
        (W.contents writer.old) (W.contents writer.new) }
{
    let mut report = LineReport::new(alloc);
    let ended = session::run(
        alloc,
        order,
        input,
        &mut report,
        writer,
        plain_completions::sent,
        plain_completions::sector,
        plain_completions::written,
    );
    report.flush(writer)?;
    ended
}

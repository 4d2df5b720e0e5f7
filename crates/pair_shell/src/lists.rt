//! The lists that a session prints.
ghost use Rattle.std.specs.Prelude.{◌≡◌, IfOk};
ghost use Rattle.shell_language.specs.declared.outcome.LineOutcome.TheVariants as outcome;

use shell_language::{LineOutcome, Printed};
use shell_picture::{print_help, print_refusals};
use std::alloc::AllocError;

/// All forms of lines.
pub fn list_forms(printed: &mut Printed) -> Result<LineOutcome, AllocError>
    ensures { IfOk result (λ told. told ≡ outcome.Done) }
{
    print_help(printed)?;
    Ok(LineOutcome::Done)
}

/// All refusals of events.
pub fn list_refusals(printed: &mut Printed) -> Result<LineOutcome, AllocError>
    ensures { IfOk result (λ told. told ≡ outcome.Done) }
{
    print_refusals(printed)?;
    Ok(LineOutcome::Done)
}

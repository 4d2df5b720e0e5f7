//! What becomes of a line.
ghost use Rattle.std.specs.Prelude.{◌≡◌, ◌++◌, codes, false, IfOk};
ghost use Rattle.shell_language.specs.Outcomes.{is_ended};
ghost use Rattle.shell_language.specs.Texts.{AddsLine};
ghost use Rattle.shell_language.specs.Mistakes.{flaw_of, flaw_text};
ghost use Rattle.shell_language.specs.declared.outcome.LineOutcome.TheVariants as outcome;

use crate::Mistake;
use crate::printing::Printed;
use std::alloc::AllocError;

/// What became of a line.
#[derive(Clone, Copy)]
pub enum LineOutcome {
    /// It is wrong: this was told, and nothing changed.
    Refused,
    /// It was done.
    Done,
    /// The session ends with it.
    Ended,
}

/// Tells what is wrong.
pub fn refuse(mistake: Mistake<'_>, printed: &mut Printed) -> Result<LineOutcome, AllocError>
    ensures refused { IfOk result (λ told. told ≡ outcome.Refused) }
    ensures goes_on { IfOk result (λ told. is_ended told ≡ false) }
    ensures told { IfOk result (λ _. AddsLine (codes "? " ++ flaw_text (flaw_of mistake.entry)) printed.old printed.new) }
{
    printed.line(&format_args!("? {mistake}"))?;
    Ok(LineOutcome::Refused)
}

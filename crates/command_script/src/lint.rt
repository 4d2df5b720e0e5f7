//! A script that is read, and its bad lines named.
ghost use Rattle.std.specs.Prelude.{◌≡◌, ◌≤◌, ◌∷◌, [], IfErr, IfOk, length};
ghost use Rattle.command_io.specs.Reports.{handed};
ghost use Rattle.command_io.specs.declared.failure.Failure.TheVariants as failure;
ghost use Rattle.command_script.specs.Linting.{IsFirstBad, Lints, LintsText, NamesUntil, bad_at, bad_from, bad_lines, is_bad, line_after, named};
ghost use Rattle.script_language.specs.Meaning as meaning;
ghost use Rattle.script_language.specs.Text.{lines_of};

use crate::named::{Named, WellFormed};
use crate::reason::{Reason, reason_of};
use command_io::{Failure, LineReport};
use script_language::{
    SCRIPT_BYTES, ScriptDraft, ScriptError, first_line, parse, read_script, text_of,
};
use std::alloc::{AllocError, Global};
use std::io::{Read, Write};

/// Reads a script, and names each of its bad lines, or says that it is well formed. `BadScript` if a line is bad: the
/// first that is named is the one for which every command refuses the script.
pub fn run_lint<R: Read + Drop, W: Write + Drop>(
    alloc: Global,
    reader: &mut R,
    writer: &mut W,
) -> Result<(), Failure>
    ensures { Lints (R.remaining reader.old) result (W.contents writer.old) (W.contents writer.new) }
{
    let bytes = read_script(alloc, reader)?;
    let mut report = LineReport::new(alloc);
    let ended = lint(alloc, &bytes, &mut report, writer);
    report.flush(writer)?;
    ended
}

// Names each bad line of these bytes, or says that they are a script.
#[tactic(auto, using(crate::proofs::Linting::names_first, crate::proofs::Linting::lints_until, crate::proofs::Linting::some_none))]
fn lint<W: Write + Drop>(
    alloc: Global,
    bytes: &[u8],
    report: &mut LineReport,
    writer: &mut W,
) -> Result<(), Failure>
    ensures { LintsText bytes.now result
        (handed (W.contents writer.old) report.old) (handed (W.contents writer.new) report.new) }
{
    let Some(first) = first_bad(alloc, bytes)? else {
        let lines = line_count(bytes);
        return report.line(writer, &WellFormed { lines });
    };
    name_all(alloc, bytes, report, writer)?;
    Err(Failure::BadScript(first))
}

// The number of the line for which every command refuses these bytes; none if they are a script.
#[tactic(auto, using(crate::proofs::Linting::is_script))]
fn first_bad(alloc: Global, bytes: &[u8]) -> Result<Option<u64>, Failure>
    ensures bad { IfOk result (IsFirstBad bytes.now) }
    ensures errors { IfErr result (λ e. e ≡ failure.OutOfMemory) }
{
    match parse(alloc, bytes) {
        Ok(_) => Ok(None),
        Err(ScriptError::BadScript { line }) => Ok(Some(line)),
        Err(ScriptError::OutOfMemory) => Err(Failure::OutOfMemory),
    }
}

// How many lines a text has.
fn line_count(text: &[u8]) -> usize
    ensures { result ≡ length (lines_of text.now) }
{
    let mut rest = text;
    let mut count = 0usize;
    'lines: while !rest.is_empty() {
        let (_, after) = first_line(rest);
        rest = after;
        count += 1;
    }
    count
}

// Names each bad line.
#[tactic(auto, using(crate::proofs::Linting::names_until, crate::proofs::Linting::names_lines, crate::proofs::Linting::some_none))]
fn name_all<W: Write + Drop>(
    alloc: Global,
    bytes: &[u8],
    report: &mut LineReport,
    writer: &mut W,
) -> Result<(), Failure>
    ensures { NamesUntil (bad_lines bytes.now) result
        (handed (W.contents writer.old) report.old) (handed (W.contents writer.new) report.new) }
{
    let drives = drives_of(alloc, bytes)?;
    let mut draft = ScriptDraft::new(alloc)?;
    name_each(alloc, bytes, drives, &mut draft, report, writer)
}

// Names each bad line after what was said before it. The first without room is the last that is looked at.
#[tactic(auto, using(crate::proofs::Linting::names_until, crate::proofs::Linting::some_none))]
fn name_each<W: Write + Drop>(
    alloc: Global,
    bytes: &[u8],
    drives: u8,
    draft: &mut ScriptDraft,
    report: &mut LineReport,
    writer: &mut W,
) -> Result<(), Failure>
    ensures { NamesUntil (bad_from drives 1048576 1 (lines_of bytes.now) (meaning.said_by draft.old)) result
        (handed (W.contents writer.old) report.old) (handed (W.contents writer.new) report.new) }
{
    let mut rest = bytes;
    let mut room = SCRIPT_BYTES;
    let mut number = 1u64;
    'lines: while !rest.is_empty() {
        let (line, after) = first_line(rest);
        if line.len() > room {
            return name(number, Reason::Size, report, writer);
        }
        name_if_bad(alloc, draft, number, text_of(line), drives, report, writer)?;
        rest = after;
        room -= line.len();
        number += 1;
    }
    Ok(())
}

// How many drives are attached in the end.
fn drives_of(alloc: Global, bytes: &[u8]) -> Result<u8, AllocError>
    ensures { IfOk result (λ drives. drives ≡ (meaning.said_in bytes.now).boot.drives) }
{
    let mut draft = ScriptDraft::new(alloc)?;
    draft.read(alloc, bytes)?;
    Ok(draft.drives())
}

// Takes a line, or names it if it is bad.
#[tactic(auto, using(crate::proofs::Linting::names_none, crate::proofs::Linting::names_until, crate::proofs::Linting::some_none))]
fn name_if_bad<W: Write + Drop>(
    alloc: Global,
    draft: &mut ScriptDraft,
    number: u64,
    text: &[u8],
    drives: u8,
    report: &mut LineReport,
    writer: &mut W,
) -> Result<(), Failure>
    requires { 1 ≤ number }
    ensures named { NamesUntil (bad_at drives number text.now (meaning.said_by draft.old)) result
        (handed (W.contents writer.old) report.old) (handed (W.contents writer.new) report.new) }
    ensures after { IfOk result (λ _.
        meaning.said_by draft.new ≡ line_after number text.now (meaning.said_by draft.old)) }
{
    if !take_bad(alloc, draft, number, text, drives)? {
        return Ok(());
    }
    let reason = reason_of(text, draft.has_begun(), drives);
    name(number, reason, report, writer)
}

// Takes a line. Whether it is bad.
fn take_bad(
    alloc: Global,
    draft: &mut ScriptDraft,
    number: u64,
    text: &[u8],
    drives: u8,
) -> Result<bool, AllocError>
    requires { 1 ≤ number }
    ensures bad { IfOk result (λ bad. bad ≡ is_bad drives number (meaning.with_line number text.now (meaning.said_by draft.old))) }
    ensures after { IfOk result (λ _.
        meaning.said_by draft.new ≡ line_after number text.now (meaning.said_by draft.old)) }
{
    if !draft.take(alloc, number, text)? {
        return Ok(true);
    }
    Ok(draft.is_astray(number, drives))
}

// Names a line.
#[tactic(auto, using(crate::proofs::Linting::named_line))]
fn name<W: Write + Drop>(
    number: u64,
    reason: Reason<'_>,
    report: &mut LineReport,
    writer: &mut W,
) -> Result<(), Failure>
    ensures { NamesUntil (named number reason.entry ∷ []) result
        (handed (W.contents writer.old) report.old) (handed (W.contents writer.new) report.new) }
{
    report.line(writer, &Named { number, reason })
}

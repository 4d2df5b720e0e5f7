//! The scripts of a pair on threads: a setup, and what is typed.
ghost use Rattle.std.specs.Prelude.{◌≡◌, ◌≤◌, IfErr, IfOk, IfSome};
ghost use Rattle.script_language.specs.Live.{first_unfit, fits, fits_words, is_live_setup, is_typed, live_script_of};
ghost use Rattle.script_language.specs.Meaning.{Answers};
ghost use Rattle.script_language.specs.Scripts.{IsAttached, IsNumbered};
ghost use Rattle.script_language.specs.Text.{lines_of};

use crate::error::ScriptError;
use crate::keyword::Keyword;
use crate::line::Line;
use crate::script::{Script, parse};
use crate::text::{first_line, text_of};
use crate::words::Words;
use event_callbacks::PORTS;
use pair_events::Event;
use std::alloc::Global;

/// The script of a pair on threads that these bytes are. `BadScript` names the first line that is bad in any script, or
/// that is neither a line of the setup nor a byte typed at port 0 or 1. Of the setup, no access of the disk may fail, and
/// reads may not be shared: threads log a sector with its bytes. `OutOfMemory` if the allocator refuses.
#[tactic(auto, unfolding(crate::specs::Live::live_script_of))]
pub fn parse_live(alloc: Global, bytes: &[u8]) -> Result<Script, ScriptError>
    ensures attached { IfOk result (λ script. IsAttached script.setup.guest.drives script.setup.sectors.items) }
    ensures numbered { IfErr result IsNumbered }
    ensures exact { Answers result (live_script_of bytes.now) }
{
    let parsed = parse(alloc, bytes);
    let Some(unfit) = first_unfit(bytes) else {
        return parsed;
    };
    match parsed {
        Ok(_) => Err(ScriptError::BadScript { line: unfit }),
        Err(ScriptError::BadScript { line }) => Err(ScriptError::BadScript {
            line: unfit.min(line),
        }),
        Err(ScriptError::OutOfMemory) => Err(ScriptError::OutOfMemory),
    }
}

// The number of the first line that no pair on threads takes.
fn first_unfit(text: &[u8]) -> Option<u64>
    ensures exact { result ≡ first_unfit 1 (lines_of text.now) }
    ensures counted { IfSome result (λ line. 1 ≤ line) }
{
    let mut rest = text;
    let mut number = 1u64;
    'lines: while !rest.is_empty() {
        let (line, after) = first_line(rest);
        if !fits(text_of(line)) {
            return Some(number);
        }
        rest = after;
        number += 1;
    }
    None
}

// Whether a pair on threads takes a line. The answer does not matter for a line that is bad in any script.
fn fits(text: &[u8]) -> bool
    ensures { result ≡ fits text.now }
{
    match text {
        [] | [b'#', ..] => true,
        _ => words_fit(&mut Words::of(text)),
    }
}

fn words_fit(words: &mut Words<'_>) -> bool
    ensures { result ≡ fits_words words.old }
{
    let Some(word) = words.next() else {
        return false;
    };
    let Some(keyword) = Keyword::of(word) else {
        return false;
    };
    is_live_setup(keyword) || is_typed(Line::read(keyword, words))
}

// Whether a line with this keyword belongs to the setup of a pair on threads.
fn is_live_setup(keyword: Keyword) -> bool
    ensures { result ≡ is_live_setup keyword }
{
    match keyword {
        Keyword::Fail | Keyword::Reads => false,
        other => other.is_setup(),
    }
}

// Whether a line types a byte at a port that exists.
fn is_typed(line: Option<Line>) -> bool
    ensures { result ≡ is_typed line }
{
    match line {
        Some(Line::Event(Event::TypeByte { port, .. })) => usize::from(port) < PORTS,
        _ => false,
    }
}

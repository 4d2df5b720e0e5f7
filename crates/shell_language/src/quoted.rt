//! Text in double quotes, in which a backslash begins a character that cannot be typed.
ghost use Rattle.std.specs.Prelude.{◌≡◌, ◌<◌, ℕ, List, [], true, IfOk, IfSome, MatchOption, IsSome, Some, None, if◌then◌else◌, is_some, length, unwrap_or};
ghost use Rattle.std.specs.List.{list_all};
ghost use Rattle.script_language.specs.Words.{is_space};
ghost use Rattle.shell_language.specs.Quoting.{characters, escape_of, is_end, text_in, with_first};

use std::alloc::{AllocError, Global};
use std::marker::Model;

/// The characters of a text, without its quotes. Each is a printable one or one of the four with a backslash before it.
#[derive(Drop)]
pub struct Quoted<'a> {
    // What follows the first quote, up to the end of the line.
    rest: &'a [u8],
}

impl<'a> Model for Quoted<'a> {
    ghost Value = { List ℕ };

    ghost view = { λ text. unwrap_or (text_in text.rest.now) [] };

    ghost invariant = { λ text. IsSome (text_in text.rest.now) };
}

impl<'a> Quoted<'a> {
    /// The text that follows a quote, if another ends it, with only spaces after that, and each backslash is followed by
    /// r, n, a quote or a backslash.
    pub fn of(line: &'a [u8]) -> Option<Quoted<'a>>
        ensures { result ≡ text_in line.now }
    {
        if !is_text(line) {
            return None;
        }
        Some(Quoted { rest: line })
    }

    /// All characters.
    pub fn bytes(&self, alloc: Global) -> Result<Vec<u8>, AllocError>
        ensures { IfOk result (λ bytes. bytes.items ≡ self.now) }
    {
        characters_of(alloc, self.rest)
    }
}

// Whether what follows a quote is a text.
#[tactic(auto, using(crate::proofs::Quoting::quoting))]
fn is_text(line: &[u8]) -> bool
    ensures { result ≡ is_some (text_in line.now) }
{
    let mut rest = line;
    'characters: while let Some((_, after)) = character(rest) {
        rest = after;
    }
    is_end(rest)
}

// The characters of a text that follows a quote.
#[tactic(auto, using(crate::proofs::Quoting::quoting))]
fn characters_of(alloc: Global, line: &[u8]) -> Result<Vec<u8>, AllocError>
    requires { IsSome (text_in line.now) }
    ensures { IfOk result (λ bytes. text_in line.now ≡ Some bytes.items) }
{
    let mut rest = line;
    let mut bytes = Vec::new(alloc);
    'characters: while let Some((byte, after)) = character(rest) {
        bytes.push(byte)?;
        rest = after;
    }
    Ok(bytes)
}

// The first character of a text, and what is after it; none if the text ends there, or is not one.
#[tactic(auto, unfolding(crate::specs::Quoting::characters))]
fn character(line: &[u8]) -> Option<(u8, &[u8])>
    ensures shorter { IfSome result (λ found. length found.1.now < length line.now) }
    ensures exact { MatchOption result (text_in line.now ≡ (if is_end line.now then Some [] else None))
        (λ found. text_in line.now ≡ with_first found.0 (text_in found.1.now)) }
{
    match line {
        [] | [b'"', ..] => None,
        [b'\\', after @ ..] => escaped(after),
        [byte, after @ ..] => Some((*byte, after)),
    }
}

// The character that follows a backslash.
#[tactic(auto, unfolding(crate::specs::Quoting::characters))]
fn escaped(line: &[u8]) -> Option<(u8, &[u8])>
    ensures shorter { IfSome result (λ found. length found.1.now < length line.now) }
    ensures exact { MatchOption result (characters true line.now ≡ None)
        (λ found. characters true line.now ≡ with_first found.0 (text_in found.1.now)) }
{
    let [escape, after @ ..] = line else {
        return None;
    };
    let byte = unescaped(*escape)?;
    Some((byte, after))
}

// The byte that a character stands for after a backslash.
fn unescaped(character: u8) -> Option<u8>
    ensures { result ≡ escape_of character }
{
    match character {
        b'r' => Some(b'\r'),
        b'n' => Some(b'\n'),
        b'"' | b'\\' => Some(character),
        _ => None,
    }
}

// Whether this is the quote that ends a text, and nothing but spaces.
fn is_end(line: &[u8]) -> bool
    ensures { result ≡ is_end line.now }
{
    match line {
        [b'"', after @ ..] => are_spaces(after),
        _ => false,
    }
}

// Whether all bytes are spaces.
fn are_spaces(text: &[u8]) -> bool
    ensures { result ≡ list_all is_space text.now }
{
    text.iter().all(|byte| *byte == b' ')
}

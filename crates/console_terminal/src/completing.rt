//! How a line is completed that has only begun to name a command, and which commands it may name.
ghost use Rattle.std.specs.Prelude.{◌≡◌, ◌≤◌, true, OnOk, length, map};
ghost use Rattle.std.specs.Io.KnownBytes.{Appends};
ghost use Rattle.console_terminal.specs.Completing.{begins, completion_after, completion_of, is_open_still, listed, no_word, shared, word_if_begun, words_for};

use crate::command::{KEYWORDS, Keyword, is_same_word};
use crate::redraw::common;
use std::io::{self, Write};

/// How many commands begin as a line does, and what they have in common after that.
#[tactic(auto, unfolding(crate::specs::Completing::completion_of))]
pub(crate) fn completion(front: &[u8]) -> (usize, &'static [u8])
    ensures { record { count = result.0; tail = result.1.now } ≡ completion_of front.now }
{
    completion_among(&KEYWORDS, front)
}

/// Whether several commands begin as a line does, and have nothing in common after that.
pub(crate) fn is_open_still(front: &[u8]) -> bool
    ensures { result ≡ is_open_still (completion_of front.now) }
{
    let (count, tail) = completion(front);
    count > 1 && tail.is_empty()
}

// The same of some rows.
fn completion_among<'a>(rows: &'a [(&'a [u8], Keyword)], front: &[u8]) -> (usize, &'a [u8])
    ensures { record { count = result.0; tail = result.1.now }
        ≡ completion_after no_word (map (λ row. (row.0.now, row.1)) rows.now) front.now }
{
    let mut count = 0;
    let mut tail: &[u8] = &[];
    let mut rest = rows;
    'rows: while let [(word, _), after @ ..] = rest {
        if begins(word, front) {
            let (_, other) = word.split_at(front.len());
            tail = shared(count, tail, other);
            count += 1;
        }
        rest = after;
    }
    (count, tail)
}

// What the tails of so many words have in common with that of one more.
fn shared<'a>(count: usize, tail: &'a [u8], other: &'a [u8]) -> &'a [u8]
    ensures { result.now ≡ shared count tail.now other.now }
{
    if count == 0 {
        return other;
    }
    let (both, _) = tail.split_at(common(tail, other));
    both
}

// Whether a word begins so.
fn begins(word: &[u8], front: &[u8]) -> bool
    ensures begins { result ≡ begins front.now word.now }
    ensures within { result ≡ true → length front.now ≤ length word.now }
{
    if word.len() < front.len() {
        return false;
    }
    let (begin, _) = word.split_at(front.len());
    is_same_word(begin, front)
}

/// Writes the commands that begin as a line does, a space after each.
#[tactic(auto, unfolding(crate::specs::Completing::words_for))]
pub(crate) fn write_words<W: Write>(writer: &mut W, front: &[u8]) -> io::Result<()>
    ensures { OnOk result (Appends (W.contents writer.old) (W.contents writer.new) (words_for front.now)) }
{
    write_among(writer, &KEYWORDS, front)
}

// The same of some rows.
fn write_among<W: Write>(writer: &mut W, rows: &[(&[u8], Keyword)], front: &[u8]) -> io::Result<()>
    ensures { OnOk result (Appends (W.contents writer.old) (W.contents writer.new)
        (listed (map (λ row. (row.0.now, row.1)) rows.now) front.now)) }
{
    let mut rest = rows;
    'rows: while let [(word, _), after @ ..] = rest {
        write_if_begun(writer, word, front)?;
        rest = after;
    }
    Ok(())
}

// Writes a word and a space, if it begins so.
#[tactic(auto, using(crate::proofs::Bytes::appends_both, crate::proofs::Bytes::appends_none))]
fn write_if_begun<W: Write>(writer: &mut W, word: &[u8], front: &[u8]) -> io::Result<()>
    ensures { OnOk result (Appends (W.contents writer.old) (W.contents writer.new) (word_if_begun front.now word.now)) }
{
    if !begins(word, front) {
        return Ok(());
    }
    writer.write_all(word)?;
    writer.write_all(b" ")
}

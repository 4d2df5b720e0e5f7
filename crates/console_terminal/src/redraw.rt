//! What is written so that a screen which shows a line shows the line after an edit.
ghost use Rattle.std.specs.Prelude.{◌≡◌, ◌≤◌, ◌++◌, OnOk, length, replicate};
ghost use Rattle.std.specs.Io.KnownBytes.{Appends};
ghost use Rattle.console_terminal.specs.Completing.{common};
ghost use Rattle.console_terminal.specs.Editing.{kept_of, redrawn, redrawn_text};

use crate::character::{begins_inner, columns, last_size};
use crate::cursor_line::{CursorLine, MOST_BYTES, copied};
use arrayvec::ArrayVec;
use std::io::{self, Write};

const BACKSPACE: u8 = 0x08;

const SPACE: u8 = b' ';

/// The cursor goes so many places back, a text is written and then so many spaces, and the cursor goes back again: BS and what can be
/// printed, which every terminal knows.
#[derive(Drop)]
pub struct Redraw {
    pub back: usize,
    pub text: ArrayVec<u8, MOST_BYTES>,
    pub blanks: usize,
    pub left: usize,
}

impl Redraw {
    /// What is written where an old line is shown, to show the new one.
    pub(crate) fn between(old: &CursorLine, new: &CursorLine) -> Redraw
        ensures { result ≡ redrawn old.now new.now }
    {
        let (front, _) = old.bytes().split_at(old.at());
        let kept = kept_of(common(front, new.bytes()), old.bytes(), new.bytes());
        let (_, gone) = front.split_at(kept);
        let (_, text) = new.bytes().split_at(kept);
        let (_, after) = new.bytes().split_at(new.at());
        let blanks = columns(old.bytes()).saturating_sub(columns(new.bytes()));
        Redraw {
            back: columns(gone),
            text: copied(text),
            blanks,
            left: blanks + columns(after),
        }
    }
}

// How many bytes of an old line stay of so many that are equal.
fn kept_of(count: usize, old: &[u8], new: &[u8]) -> usize
    requires { (count ≤ length old.now) × (count ≤ length new.now) }
    ensures exact { result ≡ kept_of count old.now new.now }
    ensures within { result ≤ count }
{
    if count == old.len() {
        return count;
    }
    let (_, old_rest) = old.split_at(count);
    let (equal, new_rest) = new.split_at(count);
    if begins_inner(old_rest) || begins_inner(new_rest) {
        count - last_size(equal)
    } else {
        count
    }
}

/// With how many equal bytes two slices begin.
#[tactic(auto, using(crate::proofs::Redraws::common_ends))]
pub(crate) fn common(first: &[u8], second: &[u8]) -> usize
    ensures exact { result ≡ common first.now second.now }
    ensures within { (result ≤ length first.now) × (result ≤ length second.now) }
{
    let mut rest = (first, second);
    let mut count = 0;
    'equal: while let ([one, after @ ..], [other, others @ ..]) = rest {
        if one != other {
            return count;
        }
        rest = (after, others);
        count += 1;
    }
    count
}

// Writes it.
#[tactic(auto, using(crate::proofs::Bytes::appends_both))]
pub(crate) fn write_redraw<W: Write>(writer: &mut W, redraw: &Redraw) -> io::Result<()>
    ensures { OnOk result (Appends (W.contents writer.old) (W.contents writer.new) (redrawn_text redraw.now)) }
{
    write_times(writer, BACKSPACE, redraw.back)?;
    write_text(writer, redraw)
}

#[tactic(auto, using(crate::proofs::Bytes::appends_both))]
fn write_text<W: Write>(writer: &mut W, redraw: &Redraw) -> io::Result<()>
    ensures { OnOk result (Appends (W.contents writer.old) (W.contents writer.new)
        (redraw.now.text.items ++ (replicate redraw.now.blanks 32 ++ replicate redraw.now.left 8))) }
{
    writer.write_all(redraw.text.as_slice())?;
    write_blanks(writer, redraw.blanks, redraw.left)
}

#[tactic(auto, using(crate::proofs::Bytes::appends_both))]
fn write_blanks<W: Write>(writer: &mut W, blanks: usize, left: usize) -> io::Result<()>
    ensures { OnOk result (Appends (W.contents writer.old) (W.contents writer.new) (replicate blanks 32 ++ replicate left 8)) }
{
    write_times(writer, SPACE, blanks)?;
    write_times(writer, BACKSPACE, left)
}

// Writes a byte so many times.
fn write_times<W: Write>(writer: &mut W, byte: u8, times: usize) -> io::Result<()>
    ensures { OnOk result (Appends (W.contents writer.old) (W.contents writer.new) (replicate times byte)) }
{
    let mut rest = times;
    'times: while rest > 0 {
        writer.write_all(&[byte])?;
        rest -= 1;
    }
    Ok(())
}

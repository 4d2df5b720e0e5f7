//! What each byte does, by what has come of a command line and of an escape sequence: the table of `specs/Typing`.
ghost use Rattle.std.specs.Prelude.{◌≡◌};
ghost use Rattle.console_terminal.specs.Typing.{begun, done_in, edited, edited_in, ended, key_does, parameter, paused, typed, within};

use crate::desk::Act;
use crate::edit::Edit;
use crate::sequence::{Sequence, edit_of_final, edit_of_number};

const CONTROL_A: u8 = 0x01;

const CONTROL_C: u8 = 0x03;

const CONTROL_E: u8 = 0x05;

const BACKSPACE: u8 = 0x08;

const TAB: u8 = 0x09;

const LINE_FEED: u8 = 0x0A;

const CONTROL_K: u8 = 0x0B;

const CARRIAGE_RETURN: u8 = 0x0D;

const CONTROL_U: u8 = 0x15;

const ESC: u8 = 0x1B;

const DELETE: u8 = 0x7F;

// What a byte does while none is open.
pub(crate) fn typed(escape: u8, byte: u8) -> Act
    ensures { result ≡ typed escape byte }
{
    if byte == escape {
        Act::Opens
    } else {
        Act::Key(byte)
    }
}

// What a byte does while a command line is open, after so much of an escape sequence.
pub(crate) fn done_in(escape: u8, is_empty: bool, sequence: Sequence, byte: u8) -> Act
    ensures { result ≡ done_in escape is_empty sequence byte }
{
    match sequence {
        Sequence::Nothing => edited(escape, is_empty, byte),
        Sequence::Escape => begun(escape, byte),
        _ => within(escape, is_empty, sequence, byte),
    }
}

// What a pause does while a command line is open.
pub(crate) fn paused(sequence: Sequence) -> Act
    ensures { result ≡ paused sequence }
{
    match sequence {
        Sequence::Escape => Act::Cancels,
        _ => Act::Nothing,
    }
}

// Outside of a sequence.
fn edited(escape: u8, is_empty: bool, byte: u8) -> Act
    ensures { result ≡ edited escape is_empty byte }
{
    if byte == escape {
        return if is_empty {
            Act::Key(byte)
        } else {
            Act::Nothing
        };
    }
    match byte {
        CARRIAGE_RETURN | LINE_FEED => Act::HandsOn,
        CONTROL_C => Act::Cancels,
        ESC => Act::Waits(Sequence::Escape),
        _ => edited_in(byte),
    }
}

// The bytes that edit a command line.
fn edited_in(byte: u8) -> Act
    ensures { result ≡ edited_in byte }
{
    match byte {
        BACKSPACE | DELETE => Act::Edits(Edit::TakesBack),
        CONTROL_A => Act::Edits(Edit::GoesToBegin),
        CONTROL_E => Act::Edits(Edit::GoesToEnd),
        TAB => Act::Edits(Edit::Completes),
        CONTROL_K => Act::Edits(Edit::CutsRest),
        CONTROL_U => Act::Edits(Edit::CutsFront),
        b' '..=b'~' | 0x80.. => Act::Edits(Edit::Adds(byte)),
        _ => Act::Nothing,
    }
}

// After ESC.
fn begun(escape: u8, byte: u8) -> Act
    ensures { result ≡ begun escape byte }
{
    match byte {
        b'[' => Act::Waits(Sequence::Control),
        b'O' => Act::Waits(Sequence::Shift),
        ESC => Act::Waits(Sequence::Escape),
        _ => typed(escape, byte),
    }
}

// In a sequence.
fn within(escape: u8, is_empty: bool, sequence: Sequence, byte: u8) -> Act
    ensures { result ≡ within escape is_empty sequence byte }
{
    match byte {
        b' '..=b'?' => Act::Waits(parameter(sequence, byte)),
        b'@'..=b'~' => ended(sequence, byte),
        _ => edited(escape, is_empty, byte),
    }
}

// After one more parameter.
fn parameter(sequence: Sequence, byte: u8) -> Sequence
    ensures { result ≡ parameter sequence byte }
{
    match (sequence, byte) {
        (Sequence::Control, b'0'..=b'9') => Sequence::Digit(byte),
        _ => Sequence::Unknown,
    }
}

// What the byte does that ends a sequence.
fn ended(sequence: Sequence, byte: u8) -> Act
    ensures { result ≡ ended sequence byte }
{
    match sequence {
        Sequence::Control | Sequence::Shift => key_does(edit_of_final(byte)),
        Sequence::Digit(digit) if byte == b'~' => key_does(edit_of_number(digit)),
        _ => Act::Nothing,
    }
}

// What a key of the terminal does, if it is known.
fn key_does(edit: Option<Edit>) -> Act
    ensures { result ≡ key_does edit }
{
    match edit {
        Some(edit) => Act::Edits(edit),
        None => Act::Nothing,
    }
}

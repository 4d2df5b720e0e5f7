//! Escape sequences that keys of a terminal send: cursor keys, Home, End, Delete.
ghost use Rattle.std.specs.Prelude.{◌≡◌};
ghost use Rattle.console_terminal.specs.Sequences.{edit_of_final, edit_of_number};

use crate::edit::Edit;

/// How much of an escape sequence has come.
#[derive(Debug, Clone, Copy, PartialEq, Eq)]
pub enum Sequence {
    /// None of it.
    Nothing,
    /// ESC.
    Escape,
    /// ESC and `[`, the control sequence introducer.
    Control,
    /// That and one digit.
    Digit(u8),
    /// That and more, or other parameters: what ends it means nothing here.
    Unknown,
    /// ESC and `O`, the single shift three.
    Shift,
}

/// What the key does whose sequence ends in this byte, without parameters.
pub(crate) fn edit_of_final(last: u8) -> Option<Edit>
    ensures { result ≡ edit_of_final last }
{
    match last {
        b'A' => Some(Edit::RecallsEarlier),
        b'B' => Some(Edit::RecallsLater),
        b'C' => Some(Edit::GoesRight),
        b'D' => Some(Edit::GoesLeft),
        b'F' => Some(Edit::GoesToEnd),
        b'H' => Some(Edit::GoesToBegin),
        _ => None,
    }
}

/// What the key does whose sequence has this digit before a tilde.
pub(crate) fn edit_of_number(digit: u8) -> Option<Edit>
    ensures { result ≡ edit_of_number digit }
{
    match digit {
        b'1' | b'7' => Some(Edit::GoesToBegin),
        b'3' => Some(Edit::Deletes),
        b'4' | b'8' => Some(Edit::GoesToEnd),
        _ => None,
    }
}

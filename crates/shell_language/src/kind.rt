//! The kinds of words in a line.

ghost use Rattle.std.specs.Prelude.{◌≡◌, Some};
ghost use Rattle.std.specs.Fmt.{WritesOnOk};
ghost use Rattle.shell_language.specs.Forms.{Exactly, Within, word_of};
ghost use Rattle.shell_language.specs.Mistakes.{fits, is_range, word_text};

use script_language::Words;
use std::fmt;

/// What a word of a line has to be.
#[derive(Clone, Copy)]
pub enum Kind {
    /// A decimal number below 2^64.
    Number,
    /// A decimal number from one to another.
    Within(u16, u16),
    /// A byte, as two hexadecimal digits.
    Byte,
    /// An address, as four hexadecimal digits.
    Address,
    /// This word.
    Exactly(&'static str),
    /// Text in double quotes, which may have spaces; it ends the line.
    Text,
    /// A record of Intel HEX, which begins with a colon.
    Record,
    /// Bytes, at least one and at most so many; they end the line.
    Bytes(u32),
}

impl Kind {
    /// Whether a word is of this kind.
    pub(crate) fn fits(self, word: &[u8]) -> bool
        ensures { result ≡ fits (word_of self) word.now }
    {
        let mut one = Words::of(word);
        match self {
            Kind::Number => one.number().is_some(),
            Kind::Within(least, greatest) => match one.number() {
                Some(number) => u64::from(least) <= number && number <= u64::from(greatest),
                None => false,
            },
            Kind::Byte | Kind::Bytes(_) => one.byte().is_some(),
            Kind::Address => one.address().is_some(),
            Kind::Exactly(text) => word == text.as_bytes(),
            Kind::Text => matches!(word, [b'"', ..]),
            Kind::Record => matches!(word, [b':', ..]),
        }
    }

    /// Whether a number from one to another is expected.
    pub(crate) fn is_range(self) -> bool
        ensures { result ≡ is_range (word_of self) }
    {
        matches!(self, Kind::Within(..))
    }
}

impl fmt::Display for Kind {
    ghost output = { λ kind. Some (word_text (word_of kind)) };

    fn fmt<W: fmt::Write>(&self, f: &mut fmt::Formatter<W>) -> fmt::Result {
        match self {
            Kind::Number => f.write_str("a number below 18446744073709551616"),
            Kind::Within(least, greatest) => write_range(f, *least, *greatest),
            Kind::Byte | Kind::Bytes(_) => f.write_str("a byte of two hexadecimal digits"),
            Kind::Address => f.write_str("an address of four hexadecimal digits"),
            Kind::Exactly(text) => write_word(f, text),
            Kind::Text => f.write_str("text in double quotes"),
            Kind::Record => f.write_str("a record of Intel HEX"),
        }
    }
}

fn write_range<W: fmt::Write>(f: &mut fmt::Formatter<W>, least: u16, greatest: u16) -> fmt::Result
    ensures { WritesOnOk W.write_str_gives f.old result (word_text (Within least greatest)) f.new }
{
    write!(f, "a number from {least} to {greatest}")
}

fn write_word<W: fmt::Write>(f: &mut fmt::Formatter<W>, text: &str) -> fmt::Result
    ensures { WritesOnOk W.write_str_gives f.old result (word_text (Exactly text.now)) f.new }
{
    f.write_str("the word ")?;
    f.write_str(text)
}

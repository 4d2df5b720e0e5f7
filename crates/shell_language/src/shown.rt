//! Bytes as they are shown: as text, or in hexadecimal.
ghost use Rattle.std.specs.Prelude.{◌≡◌, ◌∷◌, [], Some};
ghost use Rattle.std.specs.Fmt.{WritesOnOk};
ghost use Rattle.shell_language.specs.Shown.{address_text, shown_byte, shown_bytes, shown_text};

use pair_events::Hexadecimal;
use std::fmt;

// How many bytes of a word are shown.
const SHOWN_BYTES: usize = 24;

/// An address as four hexadecimal digits.
#[derive(Clone, Copy)]
pub struct Address(pub u16);

impl fmt::Display for Address {
    ghost output = { λ address. Some (address_text address.0) };

    fn fmt<W: fmt::Write>(&self, f: &mut fmt::Formatter<W>) -> fmt::Result {
        let high = Hexadecimal((self.0 / 256) as u8);
        let low = Hexadecimal((self.0 % 256) as u8);
        write!(f, "{high}{low}")
    }
}

/// Bytes as text; what is not printable is shown as a dot.
#[derive(Clone, Copy)]
pub struct Printable<'a>(pub &'a [u8]);

impl fmt::Display for Printable<'_> {
    ghost output = { λ bytes. Some (shown_bytes bytes.0.now) };

    fn fmt<W: fmt::Write>(&self, f: &mut fmt::Formatter<W>) -> fmt::Result {
        for byte in self.0 {
            write_shown(f, *byte)?;
        }
        Ok(())
    }
}

fn write_shown<W: fmt::Write>(f: &mut fmt::Formatter<W>, byte: u8) -> fmt::Result
    ensures { WritesOnOk W.write_str_gives f.old result (shown_byte byte ∷ []) f.new }
{
    f.write_char(char::from(shown_byte(byte)))
}

// A byte as it is shown.
fn shown_byte(byte: u8) -> u8
    ensures { result ≡ shown_byte byte }
{
    if 0x20 <= byte && byte <= 0x7e {
        byte
    } else {
        b'.'
    }
}

/// A word, or its first bytes.
#[derive(Clone, Copy)]
pub struct ShownWord<'a>(pub &'a [u8]);

impl fmt::Display for ShownWord<'_> {
    ghost output = { λ word. Some (shown_text word.0.now) };

    fn fmt<W: fmt::Write>(&self, f: &mut fmt::Formatter<W>) -> fmt::Result {
        if SHOWN_BYTES < self.0.len() {
            return write!(f, "{}...", Printable(&self.0[..SHOWN_BYTES]));
        }
        write!(f, "{}", Printable(self.0))
    }
}

//! Bytes in hexadecimal.
ghost use Rattle.std.specs.Prelude.{◌∷◌, Some};
ghost use Rattle.std.specs.Fmt.{WritesOnOk};
ghost use Rattle.pair_events.specs.Printed.{byte_text, bytes_text};

use std::fmt;

/// A byte as two hexadecimal digits.
#[derive(Clone, Copy)]
pub struct Hexadecimal(pub u8);

impl fmt::Display for Hexadecimal {
    ghost output = { λ byte. Some (byte_text byte.0) };

    fn fmt<W: fmt::Write>(&self, f: &mut fmt::Formatter<W>) -> fmt::Result {
        write_byte(f, self.0)
    }
}

fn write_byte<W: fmt::Write>(f: &mut fmt::Formatter<W>, byte: u8) -> fmt::Result
    ensures { WritesOnOk W.write_str_gives f.old result (byte_text byte) f.new }
{
    write!(f, "{byte:02X}")
}

/// Bytes as such digits, each after a space.
#[derive(Clone, Copy)]
pub struct Spaced<'a>(pub &'a [u8]);

impl fmt::Display for Spaced<'_> {
    ghost output = { λ spaced. Some (bytes_text spaced.0.now) };

    fn fmt<W: fmt::Write>(&self, f: &mut fmt::Formatter<W>) -> fmt::Result {
        for byte in self.0 {
            write_spaced(f, *byte)?;
        }
        Ok(())
    }
}

fn write_spaced<W: fmt::Write>(f: &mut fmt::Formatter<W>, byte: u8) -> fmt::Result
    ensures { WritesOnOk W.write_str_gives f.old result (32 ∷ byte_text byte) f.new }
{
    write!(f, " {}", Hexadecimal(byte))
}

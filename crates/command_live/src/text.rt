//! What a terminal has accepted, as text.
ghost use Rattle.std.specs.Fmt.{WritesOnOk};
ghost use Rattle.command_live.specs.Text.{byte_text};

use pair_events::Hexadecimal;
use std::fmt;

/// What the terminal of a port has accepted, line by line: each begins with the port and stands between two bars. LF ends a line, and
/// whatever else is not printable is escaped as `--type` has it.
#[derive(Clone, Copy)]
pub(crate) struct TerminalText<'a> {
    pub(crate) port: u8,
    pub(crate) bytes: &'a [u8],
}

impl fmt::Display for TerminalText<'_> {
    ghost use Rattle.std.specs.Prelude.{Some};
    ghost use Rattle.command_live.specs.Text.{terminal_text};

    ghost output = { λ text. Some (terminal_text text.port text.bytes.now) };

    fn fmt<W: fmt::Write>(&self, f: &mut fmt::Formatter<W>) -> fmt::Result {
        let TerminalText { port, bytes } = *self;
        write!(f, "port {port}: |{}|", Escaped { port, bytes })
    }
}

// The same between the first bar and the last.
#[derive(Clone, Copy)]
struct Escaped<'a> {
    port: u8,
    bytes: &'a [u8],
}

impl fmt::Display for Escaped<'_> {
    ghost use Rattle.std.specs.Prelude.{Some};
    ghost use Rattle.command_live.specs.Text.{escaped_text};

    ghost output = { λ text. Some (escaped_text text.port text.bytes.now) };

    fn fmt<W: fmt::Write>(&self, f: &mut fmt::Formatter<W>) -> fmt::Result {
        let Escaped { port, bytes } = *self;
        for byte in bytes {
            write_byte(f, port, *byte)?;
        }
        Ok(())
    }
}

fn write_byte<W: fmt::Write>(f: &mut fmt::Formatter<W>, port: u8, byte: u8) -> fmt::Result
    ensures { WritesOnOk W.write_str_gives f.old result (byte_text port byte) f.new }
{
    match byte {
        b'\n' => write!(f, "|\nport {port}: |"),
        b'\r' => f.write_str("\\r"),
        b'\t' => f.write_str("\\t"),
        b'\\' => f.write_str("\\\\"),
        0x20..=0x7e => f.write_char(char::from(byte)),
        _ => write!(f, "\\x{}", Hexadecimal(byte)),
    }
}

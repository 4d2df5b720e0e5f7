//! What a terminal shows, as text.
ghost use Rattle.std.specs.Prelude.{◌≡◌, Some};
ghost use Rattle.std.specs.Fmt.{WritesOnOk};
ghost use Rattle.shell_picture.specs.Screens.{bytes_word, escaped_byte, escaped_text, head_text, screen_text, without};

use pair_events::Hexadecimal;
use std::fmt;

/// The first line of a screen: a port, and how many bytes are shown, all of them or what is new.
#[derive(Clone, Copy)]
pub struct ScreenHead {
    pub port: u8,
    pub count: usize,
    pub is_new: bool,
}

impl fmt::Display for ScreenHead {
    ghost output = { λ head. Some (head_text head.port head.count head.is_new) };

    fn fmt<W: fmt::Write>(&self, f: &mut fmt::Formatter<W>) -> fmt::Result {
        let ScreenHead {
            port,
            count,
            is_new,
        } = *self;
        let what = bytes_word(is_new);
        write!(f, "screen {port}: {count}{what}")
    }
}

fn bytes_word(is_new: bool) -> &'static str
    ensures { result.now ≡ bytes_word is_new }
{
    if is_new { " new bytes" } else { " bytes" }
}

/// A line of a terminal between two bars: LF ends it, CR is left out before that, and a byte that is not printable is
/// shown as `\xHH`.
#[derive(Clone, Copy)]
pub struct ScreenLine<'a>(pub &'a [u8]);

impl fmt::Display for ScreenLine<'_> {
    ghost output = { λ line. Some (screen_text line.0.now) };

    fn fmt<W: fmt::Write>(&self, f: &mut fmt::Formatter<W>) -> fmt::Result {
        let text = Escaped(without_cr(without_lf(self.0)));
        write!(f, "|{text}|")
    }
}

fn without_lf(line: &[u8]) -> &[u8]
    ensures { result.now ≡ without 10 line.now }
{
    line.strip_suffix(b"\n").unwrap_or(line)
}

fn without_cr(line: &[u8]) -> &[u8]
    ensures { result.now ≡ without 13 line.now }
{
    line.strip_suffix(b"\r").unwrap_or(line)
}

// Bytes as text; what is not printable is shown as `\xHH`.
#[derive(Clone, Copy)]
struct Escaped<'a>(&'a [u8]);

impl fmt::Display for Escaped<'_> {
    ghost output = { λ bytes. Some (escaped_text bytes.0.now) };

    fn fmt<W: fmt::Write>(&self, f: &mut fmt::Formatter<W>) -> fmt::Result {
        for byte in self.0 {
            write_escaped(f, *byte)?;
        }
        Ok(())
    }
}

fn write_escaped<W: fmt::Write>(f: &mut fmt::Formatter<W>, byte: u8) -> fmt::Result
    ensures { WritesOnOk W.write_str_gives f.old result (escaped_byte byte) f.new }
{
    if 0x20 <= byte && byte <= 0x7e {
        return f.write_char(char::from(byte));
    }
    let byte = Hexadecimal(byte);
    write!(f, "\\x{byte}")
}

//! Keys as they come.
ghost use Rattle.std.specs.Prelude.{◌≡◌};

use std::io::{ErrorKind, IsTerminal, Read};

/// What a source of keys gives.
#[derive(Clone, Copy, PartialEq, Eq)]
pub enum Heard {
    Key(u8),
    /// No key came for a while.
    Quiet,
    /// No key can come any more: the source is at its end.
    End,
    /// No key can come any more, since the source fails.
    Failed,
}

/// A source of keys, which are bytes.
pub trait KeySource {
    ghost use Rattle.std.specs.Prelude.{◌≡◌, ℕ, List};
    ghost use Rattle.std.specs.Io.KnownBytes.{Consumes, IsAtEnd};
    ghost use Rattle.std.specs.declared.option.Option.{Option};
    ghost use Rattle.console_terminal.specs.Keys.{heard_bytes};

    // The keys that it has still to give, if they are known.
    ghost left: { Self → Option (List ℕ) };

    /// The next key, or that none came for a while: a call must come back soon.
    fn hear(&mut self) -> Heard
        ensures heard { Consumes (left self.old) (left self.new) (heard_bytes result) }
        ensures ended { result ≡ Heard.End → IsAtEnd (left self.new) };
}

/// The keys of a terminal that is set to `min 0 time 1`, or the bytes of another reader.
#[derive(Drop)]
pub struct TerminalKeys<R> {
    reader: R,
}

impl<R> TerminalKeys<R> {
    pub fn new(reader: R) -> TerminalKeys<R>
        ensures { result.reader ≡ reader }
    {
        TerminalKeys { reader }
    }

    /// The reader that it was made of.
    pub fn into_reader(self) -> R
        ensures { result ≡ self.reader }
    {
        let TerminalKeys { reader } = self;
        reader
    }
}

impl<R: Read + IsTerminal> KeySource for TerminalKeys<R> {
    ghost left = { λ keys. R.remaining keys.reader };

    // A read that gives nothing says of a terminal that no key came for a while, and of anything else that it has ended;
    // a terminal that was closed is none any more. One that was interrupted is made again.
    fn hear(&mut self) -> Heard {
        let mut key = [0u8];
        match self.reader.read(&mut key) {
            Ok(0) if self.reader.is_terminal() => Heard::Quiet,
            Ok(0) => Heard::End,
            Ok(_) => Heard::Key(key[0]),
            Err(error) if error.kind() == ErrorKind::Interrupted => Heard::Quiet,
            Err(_) => Heard::Failed,
        }
    }
}

//! The lines that `lint` prints.
ghost use Rattle.std.specs.Prelude.{Some};
ghost use Rattle.command_script.specs.Linting.{named, named_text, told_text};

use crate::reason::Reason;
use std::fmt;

/// A bad line, by its number, and why it is bad.
#[derive(Clone, Copy)]
pub(crate) struct Named<'a> {
    pub(crate) number: u64,
    pub(crate) reason: Reason<'a>,
}

impl fmt::Display for Named<'_> {
    ghost output = { λ line. Some (named_text (named line.number line.reason)) };

    fn fmt<W: fmt::Write>(&self, f: &mut fmt::Formatter<W>) -> fmt::Result {
        write!(f, "line {}: {}", self.number, self.reason)
    }
}

/// A script without a bad line, by the number of its lines.
#[derive(Drop)]
pub(crate) struct WellFormed {
    pub(crate) lines: usize,
}

impl fmt::Display for WellFormed {
    ghost output = { λ told. Some (told_text told.lines) };

    fn fmt<W: fmt::Write>(&self, f: &mut fmt::Formatter<W>) -> fmt::Result {
        write!(f, "well formed; lines: {}", self.lines)
    }
}

//! The lines of `help` and of `help refusals`.
ghost use Rattle.std.specs.Prelude.{◌≡◌, Some, replicate};
ghost use Rattle.shell_language.specs.Forms.{shape_of};
ghost use Rattle.shell_picture.specs.Answers.{help_text, listed_text};

use i8080_words::Fault;
use shell_language::{Form, Worded};
use std::fmt;

// The column in which the meaning of a form begins.
const MEANING: usize = 24;

/// A form of lines, and what it does.
#[derive(Clone, Copy)]
pub struct FormLine<'a>(pub &'a Form);

impl fmt::Display for FormLine<'_> {
    ghost output = { λ line. Some (help_text (shape_of line.0.now)) };

    fn fmt<W: fmt::Write>(&self, f: &mut fmt::Formatter<W>) -> fmt::Result {
        let usage = self.0.usage;
        let gap = Spaces(MEANING.saturating_sub(usage.len()));
        let meaning = self.0.meaning;
        write!(f, "{usage}{gap}{meaning}")
    }
}

/// A refusal, by its number and in words.
#[derive(Clone, Copy)]
pub struct RefusalLine(pub Fault);

impl fmt::Display for RefusalLine {
    ghost output = { λ line. Some (listed_text line.0) };

    fn fmt<W: fmt::Write>(&self, f: &mut fmt::Formatter<W>) -> fmt::Result {
        let number = self.0.number();
        let gap = Spaces(if number < 10 { 3 } else { 2 });
        let words = Worded(self.0);
        write!(f, "{number}{gap}{words}")
    }
}

// So many spaces.
#[derive(Clone, Copy)]
struct Spaces(usize);

impl fmt::Display for Spaces {
    ghost output = { λ spaces. Some (replicate spaces.0 32) };

    fn fmt<W: fmt::Write>(&self, f: &mut fmt::Formatter<W>) -> fmt::Result {
        for _i in 0..self.0 {
            f.write_str(" ")?;
        }
        Ok(())
    }
}

//! What a comparison of a pair with a single machine found.

use std::fmt;

/// What a comparison found.
#[derive(Clone, Copy, PartialEq, Eq)]
pub enum Verdict {
    /// The pair has done the same, up to this count.
    Same { count: u64 },
    Differs,
}

impl fmt::Display for Verdict {
    ghost use Rattle.std.specs.Prelude.{Some};
    ghost use Rattle.altair_pair.specs.Verdicts.{words_of};

    ghost output = { λ verdict. Some (words_of verdict) };

    fn fmt<W: fmt::Write>(&self, f: &mut fmt::Formatter<W>) -> fmt::Result {
        match self {
            Verdict::Same { count } => write!(f, "same {count}"),
            Verdict::Differs => write!(f, "differs"),
        }
    }
}

//! What the shell prints: lines, which are the comments of a script while events are traced.
ghost use Rattle.std.specs.Prelude.{◌≡◌, ◌∷◌, [], IfOk, IfSome, codes, string_bytes};
ghost use Rattle.shell_language.specs.Tapes.{Traces, event_lines};
ghost use Rattle.shell_language.specs.Texts.{Adds, AddsShown, AddsSome, AddsWords, mark};

use crate::tape::Played;
use crate::{Spelled, Worded};
use i8080_words::Fault;
use std::alloc::{AllocError, Global};
use std::fmt;

/// The lines that answer a line of the shell.
#[derive(Drop)]
pub struct Printed {
    text: String,
    // The last piece of a line alone.
    piece: String,
    is_traced: bool,
}

impl Printed {
    /// No lines yet.
    pub fn new(alloc: Global, is_traced: bool) -> Printed
        ensures text { string_bytes result.text ≡ [] }
        ensures traced { result.is_traced ≡ is_traced }
    {
        Printed {
            text: String::new(alloc),
            piece: String::new(alloc),
            is_traced,
        }
    }

    /// All lines, each with an LF.
    pub fn into_text(self) -> String
        ensures { result ≡ self.text }
    {
        let Printed { text, .. } = self;
        text
    }

    /// Whether a script is printed.
    pub fn is_traced(&self) -> bool
        ensures { result ≡ self.now.is_traced }
    {
        self.is_traced
    }

    /// A line with this text; a comment of the script that is printed, if one is.
    #[tactic(auto, using(crate::proofs::Adding::adds_line, crate::proofs::Adding::adds_shown))]
    pub fn line<D: fmt::Display>(&mut self, text: &D) -> Result<(), AllocError>
        ensures some { IfOk result (λ _. AddsSome self.old self.new) }
        ensures shown { IfOk result (λ _. AddsShown (D.output text.now) self.old self.new) }
    {
        self.begin()?;
        self.add(text)?;
        self.end()?;
        Ok(())
    }

    /// A line with the words of a refusal between two texts.
    #[tactic(auto, using(crate::proofs::Adding::adds_line, crate::proofs::Adding::adds_more))]
    pub fn around<D: fmt::Display, E: fmt::Display>(
        &mut self,
        front: &D,
        fault: Fault,
        back: &E,
    ) -> Result<(), AllocError>
        ensures some { IfOk result (λ _. AddsSome self.old self.new) }
        ensures shown { IfOk result (λ _. AddsWords (D.output front.now) fault (E.output back.now) self.old self.new) }
    {
        self.begin()?;
        self.add(front)?;
        self.add(&Worded(fault))?;
        self.add(back)?;
        self.end()?;
        Ok(())
    }

    // Begins a line.
    #[tactic(auto, using(crate::proofs::Adding::adds_none))]
    fn begin(&mut self) -> Result<(), AllocError>
        ensures { IfOk result (λ _. Adds (mark self.old.is_traced) self.old self.new) }
    {
        if self.is_traced {
            self.text.push_str("# ")?;
        }
        Ok(())
    }

    // Goes on with a line.
    fn add<D: fmt::Display>(&mut self, text: &D) -> Result<(), AllocError>
        ensures some { IfOk result (λ _. AddsSome self.old self.new) }
        ensures shown { IfOk result (λ _. IfSome (D.output text.now) (λ t. Adds t self.old self.new)) }
    {
        self.piece.clear();
        write!(self.piece, "{text}")?;
        self.text.push_str(&self.piece)
    }

    // Ends a line.
    fn end(&mut self) -> Result<(), AllocError>
        ensures { IfOk result (λ _. Adds (10 ∷ []) self.old self.new) }
    {
        self.text.push_str("\n")
    }

    /// A line of a script, if one is printed.
    pub fn script_line<D: fmt::Display>(&mut self, text: &D) -> Result<(), AllocError> {
        if !self.is_traced {
            return Ok(());
        }
        writeln!(self.text, "{text}")
    }

    /// The events of a tape with their answers, if a script is printed.
    pub fn trace(&mut self, tape: &[Played]) -> Result<(), AllocError>
        ensures { IfOk result (λ _. Traces self.old.is_traced tape.now
            (string_bytes self.old.text) (string_bytes self.new.text)) }
    {
        if !self.is_traced {
            return Ok(());
        }
        for played in tape {
            self.trace_one(played)?;
        }
        Ok(())
    }

    // An event as a line of a script, and its answer as a comment.
    fn trace_one(&mut self, played: &Played) -> Result<(), AllocError>
        ensures { IfOk result (λ _. Adds (event_lines played.now) self.old self.new) }
    {
        writeln!(self.text, "{}\n# {}", Spelled(played.event), played.said())
    }
}

//! A tape: the events that a line made, each with its answer.

use i8080_words::R;
use pair_events::{Answer, Event, Reply};

/// An event that has happened, and its answer.
#[derive(Clone, Copy)]
pub struct Played {
    pub event: Event,
    pub answer: R<Reply>,
}

impl Played {
    ghost use Rattle.std.specs.Prelude.{◌≡◌};
    ghost use Rattle.pair_events.specs.Printed.{answer_line, answer_text};

    /// What a line of a script would answer.
    pub fn said(&self) -> Answer<'static>
        ensures { answer_text result ≡ answer_line self.now.answer }
    {
        match self.answer {
            Ok(reply) => Answer::Reply(reply),
            Err(fault) => Answer::Refused(fault),
        }
    }
}

//! What happens to a message where it arrives, and what the arbiter answers, in words.
ghost use Rattle.std.specs.Prelude.{◌≡◌, Some};
ghost use Rattle.std.specs.Fmt.{WritesOnOk};
ghost use Rattle.sequence_diagram.specs.Words.{arbiter_text, came_text, is_plain, outcome_text, result_text, winner_text};

use crate::cargo::write_number_and;
use crate::moment::{Moment, NodeLook};
use crate::notes::ReasonText;
use i8080_words::Fault;
use pair_events::{Event, Reply};
use std::fmt::{self, Display};

/// What an event did with the message that it brought, or the result of an exchange; nothing if that is plain.
#[derive(Clone, Copy)]
pub struct OutcomeText(pub Moment);

impl OutcomeText {
    /// Whether there is nothing to say.
    pub fn is_plain(&self) -> bool
        ensures { result ≡ is_plain self.now.0.answer }
    {
        matches!(
            self.0.answer,
            Ok(Reply::Taken | Reply::Told { .. } | Reply::Held { .. } | Reply::Message { .. })
        )
    }
}

impl Display for OutcomeText {
    ghost output = { λ outcome. Some (outcome_text outcome.0) };

    fn fmt<W: fmt::Write>(&self, f: &mut fmt::Formatter<W>) -> fmt::Result {
        let Moment {
            event,
            answer,
            look,
            ..
        } = self.0;
        match answer {
            Err(Fault::Lost) => write_lost(f, event),
            Err(fault) => ReasonText(fault).fmt(f),
            Ok(reply) => write_came(f, event, reply, look),
        }
    }
}

// What was refused since the other node has won.
fn write_lost<W: fmt::Write>(f: &mut fmt::Formatter<W>, event: Event) -> fmt::Result
    ensures { WritesOnOk W.write_str_gives f.old result (arbiter_text event) f.new }
{
    match event {
        Event::Suspect { .. } => f.write_str("refuses: the other won"),
        _ => ReasonText(Fault::Lost).fmt(f),
    }
}

// What came of an event.
fn write_came<W: fmt::Write>(
    f: &mut fmt::Formatter<W>,
    event: Event,
    reply: Reply,
    look: Option<NodeLook>,
) -> fmt::Result
    ensures { WritesOnOk W.write_str_gives f.old result (came_text event reply look) f.new }
{
    match event {
        Event::Suspect { .. } => write_winner(f, look),
        _ => f.write_str(result_text(reply)),
    }
}

fn write_winner<W: fmt::Write>(f: &mut fmt::Formatter<W>, look: Option<NodeLook>) -> fmt::Result
    ensures { WritesOnOk W.write_str_gives f.old result (winner_text look) f.new }
{
    match look {
        Some(NodeLook { node, .. }) => write_number_and(f, "node", node, " has won"),
        None => Ok(()),
    }
}

// What an answer says of a message; nothing if that is plain.
fn result_text(reply: Reply) -> &'static str
    ensures { result.now ≡ result_text reply }
{
    match reply {
        Reply::New => "held",
        Reply::Old => "nothing new",
        Reply::Accepted => "accepted",
        Reply::Dropped => "dropped",
        Reply::Whole => "the copy is whole",
        _ => "",
    }
}

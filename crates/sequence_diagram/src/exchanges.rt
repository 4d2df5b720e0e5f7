//! What passes between two places at once, without a message: keys, what a terminal has accepted, questions to the arbiter.
ghost use Rattle.std.specs.Prelude.{◌≡◌};
ghost use Rattle.sequence_diagram.specs.Places.{exchange_of};

use crate::moment::Moment;
use crate::place::Lifeline;
use i8080_words::Fault;
use pair_events::Event;

/// An exchange: who begins it, and with whom.
#[derive(Clone, Copy)]
pub struct Exchange {
    pub from: Lifeline,
    pub to: Lifeline,
}

/// The exchange that an event is, if it was not refused; a refusal by the arbiter is also an answer.
pub fn exchange_of(moment: &Moment) -> Option<Exchange>
    ensures { result ≡ exchange_of moment.now }
{
    match (moment.event, moment.answer) {
        (Event::Suspect { node }, Ok(_) | Err(Fault::Lost)) => Some(Exchange {
            from: Lifeline::Node(node),
            to: Lifeline::Arbiter,
        }),
        (_, Err(_)) => None,
        (Event::TakeKey { node, port, .. } | Event::TellSent { node, port, .. }, Ok(_)) => {
            Some(Exchange {
                from: Lifeline::Terminal(port),
                to: Lifeline::Node(node),
            })
        }
        (Event::Told { node, port }, Ok(_)) => Some(Exchange {
            from: Lifeline::Node(node),
            to: Lifeline::Terminal(port),
        }),
        _ => None,
    }
}

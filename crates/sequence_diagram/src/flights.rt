//! The way of a message from place to place, and what it carries.
ghost use Rattle.std.specs.Prelude.{◌≡◌};
ghost use Rattle.sequence_diagram.specs.Places.{HasFlight, is_other};
ghost use Rattle.sequence_diagram.specs.Waits.{HasCargo};

use crate::arrows::{arrow_to, departure_from};
use crate::moment::{Cargo, Moment};
use crate::place::{Lifeline, receiver_of, sender_of};

/// The way of a message that arrived: from where to where, the place in the run of the event that sent it, and whether it
/// had arrived before.
#[derive(Clone, Copy)]
pub struct Flight {
    pub from: Lifeline,
    pub to: Lifeline,
    pub sent: usize,
    pub is_again: bool,
}

/// The way of the message that an event has brought.
#[tactic(auto, using(crate::proofs::Flying::not_here, crate::proofs::Flying::not_there, crate::proofs::Flying::not_sent))]
pub fn flight_to(moments: &[Moment], place: usize) -> Option<Flight>
    ensures { HasFlight moments.now place result }
{
    let moment = moments.get(place)?;
    let arrow = arrow_to(moments, place)?;
    let sent = moments.get(arrow.sent)?;
    let departure = departure_from(moments, arrow.sent)?;
    Some(Flight {
        from: sender_of(sent.event),
        to: receiver_of(sent, moment.event),
        sent: arrow.sent,
        is_again: is_other(departure.came, place),
    })
}

// Whether the first event that brought a message is not this one.
fn is_other(came: Option<usize>, place: usize) -> bool
    ensures { result ≡ is_other came place }
{
    match came {
        Some(came) => came != place,
        None => true,
    }
}

/// What the message carries that an event has brought.
#[tactic(auto, using(crate::proofs::Waiting::brings_nothing, crate::proofs::Waiting::brings_lost, crate::proofs::Waiting::brings_cargo))]
pub fn cargo_to(moments: &[Moment], place: usize) -> Option<Cargo>
    ensures { HasCargo moments.now place result }
{
    let arrow = arrow_to(moments, place)?;
    let sent = moments.get(arrow.sent)?;
    sent.cargo
}

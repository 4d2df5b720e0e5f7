//! The columns of a diagram, from left to right: terminals, nodes, the arbiter and the disk, those that take part.
ghost use Rattle.std.specs.Prelude.{◌≡◌, ◌++◌, IfOk};
ghost use Rattle.std.specs.List.{list_any};
ghost use Rattle.sequence_diagram.specs.Columns.{answer_port, columns_of, event_port, host_in, hosts_in, is_port, nodes_in, takes_part, used, uses_disk};
ghost use Rattle.sequence_diagram.specs.Places.{column_of, is_place};
ghost use Rattle.sequence_diagram.specs.declared.place.Lifeline.TheVariants.{Terminal, Arbiter, Disk};

use crate::moment::Moment;
use crate::place::Lifeline;
use event_callbacks::OpId;
use guest_lockstep::StopReason;
use i8080_words::R;
use pair_events::{Event, Reply};
use std::alloc::{AllocError, Global};

/// The places that take part in a run. Nodes 0 and 1 always do.
#[derive(Drop)]
pub struct Columns {
    pub places: Vec<Lifeline>,
}

impl Columns {
    /// The places that take part in a run.
    pub fn of(alloc: Global, moments: &[Moment]) -> Result<Columns, AllocError>
        ensures { IfOk result (λ columns. columns.places.items ≡ columns_of moments.now) }
    {
        let mut places = Vec::new(alloc);
        add_all(moments, &mut places)?;
        Ok(Columns { places })
    }

    /// The column of a place, from 0; the first if it has none.
    pub fn column(&self, place: Lifeline) -> usize
        ensures { result ≡ column_of self.now.places.items place }
    {
        let mut rest = self.places.as_slice();
        let mut column = 0usize;
        'places: while let [other, after @ ..] = rest {
            if is_place(*other, place) {
                return column;
            }
            rest = after;
            column = column.saturating_add(1);
        }
        0
    }
}

// Whether two places are the same.
fn is_place(place: Lifeline, other: Lifeline) -> bool
    ensures { result ≡ is_place place other }
{
    match (place, other) {
        (Lifeline::Terminal(port), Lifeline::Terminal(other)) => port == other,
        (Lifeline::Node(node), Lifeline::Node(other)) => node == other,
        (Lifeline::Arbiter, Lifeline::Arbiter) | (Lifeline::Disk, Lifeline::Disk) => true,
        _ => false,
    }
}

// Adds the places of a run to others.
fn add_all(moments: &[Moment], places: &mut Vec<Lifeline>) -> Result<(), AllocError>
    ensures { IfOk result (λ _. places.new.items ≡ places.old.items ++ used (Terminal 0) moments.now
        ++ used (Terminal 1) moments.now ++ nodes_in moments.now ++ used Arbiter moments.now ++ used Disk moments.now) }
{
    add_if_used(Lifeline::Terminal(0), moments, places)?;
    add_if_used(Lifeline::Terminal(1), moments, places)?;
    add_nodes(moments, places)?;
    add_if_used(Lifeline::Arbiter, moments, places)?;
    add_if_used(Lifeline::Disk, moments, places)
}

// Adds a place, if it takes part.
fn add_if_used(
    place: Lifeline,
    moments: &[Moment],
    places: &mut Vec<Lifeline>,
) -> Result<(), AllocError>
    ensures { IfOk result (λ _. places.new.items ≡ places.old.items ++ used place moments.now) }
{
    if is_used(place, moments) {
        places.push(place)?;
    }
    Ok(())
}

// Whether a place takes part in an event of a run.
fn is_used(place: Lifeline, moments: &[Moment]) -> bool
    ensures { result ≡ list_any (takes_part place) moments.now }
{
    let mut rest = moments;
    'moments: while let [moment, after @ ..] = rest {
        if takes_part(place, moment) {
            return true;
        }
        rest = after;
    }
    false
}

// Adds nodes 0 and 1, and the hosts with which pairs have begun.
#[tactic(auto, using(crate::proofs::Joining::nodes_added))]
fn add_nodes(moments: &[Moment], places: &mut Vec<Lifeline>) -> Result<(), AllocError>
    ensures { IfOk result (λ _. places.new.items ≡ places.old.items ++ nodes_in moments.now) }
{
    places.push(Lifeline::Node(0))?;
    places.push(Lifeline::Node(1))?;
    add_hosts(moments, places)
}

#[tactic(auto, using(crate::proofs::Joining::host_added, crate::proofs::Joining::hosts_added))]
fn add_hosts(moments: &[Moment], places: &mut Vec<Lifeline>) -> Result<(), AllocError>
    ensures { IfOk result (λ _. places.new.items ≡ places.old.items ++ hosts_in moments.now) }
{
    let mut rest = moments;
    'moments: while let [moment, after @ ..] = rest {
        add_host(moment, places)?;
        rest = after;
    }
    Ok(())
}

// Adds the host with which a pair has begun at an event, if one has.
fn add_host(moment: &Moment, places: &mut Vec<Lifeline>) -> Result<(), AllocError>
    ensures { IfOk result (λ _. places.new.items ≡ places.old.items ++ host_in moment.now) }
{
    if let (Event::BeginPair { host, .. }, Ok(Reply::Generation { .. })) = (
        moment.event,
        moment.answer,
    ) {
        places.push(Lifeline::Node(host))?;
    }
    Ok(())
}

// Whether a place other than a node takes part in an event.
fn takes_part(place: Lifeline, moment: &Moment) -> bool
    ensures { result ≡ takes_part place moment.now }
{
    match place {
        Lifeline::Terminal(port) => {
            is_port(port, event_port(moment.event)) || is_port(port, answer_port(moment.answer))
        }
        Lifeline::Node(_) => false,
        Lifeline::Arbiter => matches!(moment.event, Event::Suspect { .. }),
        Lifeline::Disk => uses_disk(moment.event),
    }
}

/// Whether what was found is this port.
pub fn is_port(port: u8, found: Option<u8>) -> bool
    ensures { result ≡ is_port port found }
{
    match found {
        Some(other) => other == port,
        None => false,
    }
}

// The port of an event, if it is one of a terminal; where a byte arrives is not known here.
fn event_port(event: Event) -> Option<u8>
    ensures { result ≡ event_port event }
{
    match event {
        Event::TypeByte { port, .. }
        | Event::TakeKey { port, .. }
        | Event::TellSent { port, .. }
        | Event::Told { port, .. }
        | Event::Release {
            id: OpId::Byte(port, _),
            ..
        } => Some(port),
        Event::Arrive { .. } => Some(0),
        _ => None,
    }
}

// The port of a byte that a guest has given.
fn answer_port(answer: R<Reply>) -> Option<u8>
    ensures { result ≡ answer_port answer }
{
    match answer {
        Ok(
            Reply::Ran {
                why: StopReason::Operation(OpId::Byte(port, _)),
                ..
            },
        ) => Some(port),
        _ => None,
    }
}

fn uses_disk(event: Event) -> bool
    ensures { result ≡ uses_disk event }
{
    matches!(
        event,
        Event::Put { .. }
            | Event::Get { .. }
            | Event::Fetch { .. }
            | Event::Release {
                id: OpId::Write(_),
                ..
            }
    )
}

//! Where things happen: at a terminal, at a node, at the arbiter or at the disk.
ghost use Rattle.std.specs.Prelude.{◌≡◌, Some};
ghost use Rattle.sequence_diagram.specs.Places.{change_node_of, later_node_of, node_of, node_or_terminal, place_of, place_text, receiver_by, sender_of};

use crate::moment::{Cargo, Moment};
use pair_events::Event;
use std::fmt;

/// A column of the diagram.
#[derive(Clone, Copy)]
pub enum Lifeline {
    Terminal(u8),
    Node(u64),
    Arbiter,
    Disk,
}

impl fmt::Display for Lifeline {
    ghost output = { λ place. Some (place_text place) };

    fn fmt<W: fmt::Write>(&self, f: &mut fmt::Formatter<W>) -> fmt::Result {
        match self {
            Lifeline::Terminal(port) => write!(f, "terminal {port}"),
            Lifeline::Node(node) => write!(f, "node {node}"),
            Lifeline::Arbiter => f.write_str("arbiter"),
            Lifeline::Disk => f.write_str("disk"),
        }
    }
}

/// The node at which an event happens, if it happens at one.
pub fn node_of(event: Event) -> Option<u64>
    ensures { result ≡ node_of event }
{
    match event {
        Event::Step { node, .. }
        | Event::TakeKey { node, .. }
        | Event::Send { node, .. }
        | Event::DeliverLog { node, .. }
        | Event::Acknowledge { node }
        | Event::DeliverAcknowledgement { node, .. }
        | Event::Replay { node, .. }
        | Event::Release { node, .. } => Some(node),
        _ => later_node_of(event),
    }
}

fn later_node_of(event: Event) -> Option<u64>
    ensures { result ≡ later_node_of event }
{
    match event {
        Event::TellSent { node, .. }
        | Event::Told { node, .. }
        | Event::PutReply { node, .. }
        | Event::Get { node, .. }
        | Event::GetReply { node, .. }
        | Event::Fetch { node }
        | Event::Fetched { node, .. } => Some(node),
        _ => change_node_of(event),
    }
}

fn change_node_of(event: Event) -> Option<u64>
    ensures { result ≡ change_node_of event }
{
    match event {
        Event::Suspect { node }
        | Event::Drain { node, .. }
        | Event::BeginPair { node, .. }
        | Event::Freshen { node, .. }
        | Event::SendPart { node, .. }
        | Event::PartComes { node, .. }
        | Event::Stop { node } => Some(node),
        _ => None,
    }
}

/// Where the message that an event sent leaves.
pub fn sender_of(event: Event) -> Lifeline
    ensures { result ≡ sender_of event }
{
    match event {
        Event::Send { node, .. }
        | Event::Acknowledge { node }
        | Event::Release { node, .. }
        | Event::SendPart { node, .. } => Lifeline::Node(node),
        _ => Lifeline::Disk,
    }
}

/// Where the message that the first event sent and the second one brings arrives.
pub fn receiver_of(sent: &Moment, event: Event) -> Lifeline
    ensures { result ≡ receiver_by event sent.now.cargo }
{
    match (event, sent.cargo) {
        (Event::Put { .. }, _) => Lifeline::Disk,
        (Event::Arrive { .. }, Some(Cargo::Byte { port, .. })) => Lifeline::Terminal(port),
        (other, _) => node_or_terminal(node_of(other)),
    }
}

// A node, or the terminal of port 0 if there is none.
fn node_or_terminal(node: Option<u64>) -> Lifeline
    ensures { result ≡ node_or_terminal node }
{
    match node {
        Some(node) => Lifeline::Node(node),
        None => Lifeline::Terminal(0),
    }
}

/// Where an event happens that neither sends nor brings a message.
pub fn place_of(event: Event) -> Lifeline
    ensures { result ≡ place_of event }
{
    match event {
        Event::TypeByte { port, .. } => Lifeline::Terminal(port),
        Event::Put { .. } => Lifeline::Disk,
        other => node_or_terminal(node_of(other)),
    }
}

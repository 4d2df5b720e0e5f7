//! Where a message should arrive that an event has sent.
ghost use Rattle.std.specs.Prelude.{◌≡◌, ◌≤◌, length};
ghost use Rattle.sequence_diagram.specs.Aims.{HasAim, HasOrigin, first_peer, paired_with, peer_after, peer_at};

use crate::arrows::arrow_to;
use crate::moment::Moment;
use crate::place::{Lifeline, node_of, sender_of};
use event_callbacks::OpId;
use pair_events::{Event, Reply};

/// Where the message that the event at a place of the run sent should arrive.
pub fn aim_of(moments: &[Moment], place: usize) -> Option<Lifeline>
    ensures { HasAim moments.now place result }
{
    let moment = moments.get(place)?;
    match moment.event {
        Event::Send { node, .. } | Event::Acknowledge { node } | Event::SendPart { node, .. } => {
            Some(Lifeline::Node(peer_at(moments, place, node)))
        }
        Event::Release {
            id: OpId::Byte(port, _),
            ..
        } => Some(Lifeline::Terminal(port)),
        Event::Release {
            id: OpId::Write(_),
            ..
        } => Some(Lifeline::Disk),
        Event::Put { .. } => origin_of(moments, place),
        other => Some(Lifeline::Node(node_of(other)?)),
    }
}

// Where the message was sent that an event has brought.
#[tactic(auto, using(crate::proofs::Aiming::brings_nothing, crate::proofs::Aiming::brings_lost, crate::proofs::Aiming::brings_sent))]
fn origin_of(moments: &[Moment], place: usize) -> Option<Lifeline>
    ensures { HasOrigin moments.now place result }
{
    let arrow = arrow_to(moments, place)?;
    let sent = moments.get(arrow.sent)?;
    Some(sender_of(sent.event))
}

// The other node of a node's pair before a place of the run.
fn peer_at(moments: &[Moment], place: usize, node: u64) -> u64
    requires { place ≤ length moments.now }
    ensures { result ≡ peer_at moments.now place node }
{
    let (before, _) = moments.split_at(place);
    peer_after(before, node)
}

// The same after some events.
fn peer_after(moments: &[Moment], node: u64) -> u64
    ensures { result ≡ peer_after node (first_peer node) moments.now }
{
    let mut peer = first_peer(node);
    let mut rest = moments;
    'moments: while let [moment, after @ ..] = rest {
        peer = paired_with(node, moment).unwrap_or(peer);
        rest = after;
    }
    peer
}

// The other node of the first pair.
fn first_peer(node: u64) -> u64
    ensures { result ≡ first_peer node }
{
    match node {
        0 => 1,
        _ => 0,
    }
}

// The node with which a node is paired by an event.
fn paired_with(node: u64, moment: &Moment) -> Option<u64>
    ensures { result ≡ paired_with node moment.now }
{
    match (moment.event, moment.answer) {
        (Event::BeginPair { node: first, host }, Ok(Reply::Generation { .. })) => {
            if first == node {
                Some(host)
            } else if host == node {
                Some(first)
            } else {
                None
            }
        }
        _ => None,
    }
}

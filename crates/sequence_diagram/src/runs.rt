//! Like events that follow one another: parts of a copy, and keys of a terminal.
ghost use Rattle.std.specs.Prelude.{◌≡◌, ◌<◌, ◌≤◌, length};
ghost use Rattle.std.specs.List.{prefix_len};
ghost use Rattle.sequence_diagram.specs.Runs.{is_of_kind, is_part, is_taken_by, key_of, kind_of, run_length, shared, taker_in, taker_of};

use crate::columns::is_port;
use crate::moment::Moment;
use pair_events::Event;

// How many events of keys in a row have lines of their own; those of a longer row share one.
const FEW: usize = 8;

/// What like events are: parts of a copy, or keys of the terminal of a port, all of them that are taken by one node.
#[derive(Clone, Copy)]
pub enum RunKind {
    Parts,
    Keys { port: u8, node: Option<u64> },
}

/// How many of some events share the line which the first of them begins, since they are alike.
pub fn run_length(moments: &[Moment]) -> usize
    ensures exact { result ≡ run_length moments.now }
    ensures some { 0 < length moments.now → 0 < result }
    ensures within { result ≤ length moments.now }
{
    let [moment, after @ ..] = moments else {
        return 0;
    };
    match kind_of(moment, moments) {
        Some(kind) => shared(kind, 1 + count_alike(kind, after)),
        None => 1,
    }
}

// What an event is like with which these events begin.
fn kind_of(moment: &Moment, moments: &[Moment]) -> Option<RunKind>
    ensures { result ≡ kind_of moment.now moments.now }
{
    if is_part(moment) {
        return Some(RunKind::Parts);
    }
    let port = key_of(moment)?;
    let node = taker_in(port, moments);
    Some(RunKind::Keys { port, node })
}

// How many of so many like events share a line.
fn shared(kind: RunKind, count: usize) -> usize
    requires { 0 < count }
    ensures exact { result ≡ shared kind count }
    ensures some { 0 < result }
    ensures within { result ≤ count }
{
    match kind {
        RunKind::Parts => count,
        RunKind::Keys { .. } => { if count > FEW { count } else { 1 } }
    }
}

// How many events come first that are of this kind.
fn count_alike(kind: RunKind, moments: &[Moment]) -> usize
    ensures exact { result ≡ prefix_len (is_of_kind kind) moments.now }
    ensures within { result ≤ length moments.now }
{
    let mut rest = moments;
    let mut count = 0usize;
    'alike: while let [moment, after @ ..] = rest {
        if !is_of_kind(kind, moment) {
            return count;
        }
        rest = after;
        count += 1;
    }
    count
}

fn is_of_kind(kind: RunKind, moment: &Moment) -> bool
    ensures { result ≡ is_of_kind kind moment.now }
{
    match kind {
        RunKind::Parts => is_part(moment),
        RunKind::Keys { port, node } => {
            is_port(port, key_of(moment)) && is_taken_by(moment.event, node)
        }
    }
}

// Whether an event takes a key at this node, or takes none.
fn is_taken_by(event: Event, node: Option<u64>) -> bool
    ensures { result ≡ is_taken_by event node }
{
    match (event, node) {
        (Event::TakeKey { node: taker, .. }, Some(node)) => taker == node,
        (Event::TakeKey { .. }, None) => false,
        _ => true,
    }
}

// Of the keys of one terminal that come first, the node that takes one first.
fn taker_in(port: u8, moments: &[Moment]) -> Option<u64>
    ensures { result ≡ taker_in port moments.now }
{
    let mut rest = moments;
    'keys: while let [moment, after @ ..] = rest {
        if !is_port(port, key_of(moment)) {
            return None;
        }
        if let Some(node) = taker_of(moment.event) {
            return Some(node);
        }
        rest = after;
    }
    None
}

// The node that takes a key by an event.
fn taker_of(event: Event) -> Option<u64>
    ensures { result ≡ taker_of event }
{
    match event {
        Event::TakeKey { node, .. } => Some(node),
        _ => None,
    }
}

/// Whether an event has sent or brought a part of a copy.
pub fn is_part(moment: &Moment) -> bool
    ensures { result ≡ is_part moment.now }
{
    match (moment.event, moment.answer) {
        (Event::SendPart { .. } | Event::PartComes { .. }, Ok(_)) => true,
        _ => false,
    }
}

/// The port at which an event has typed a key or taken one.
pub fn key_of(moment: &Moment) -> Option<u8>
    ensures { result ≡ key_of moment.now }
{
    match (moment.event, moment.answer) {
        (Event::TypeByte { port, .. } | Event::TakeKey { port, .. }, Ok(_)) => Some(port),
        _ => None,
    }
}

//! Which message made which arrow: from the event that sent it to an event that brought it.
ghost use Rattle.std.specs.Prelude.{◌≡◌, ◌+◌, ◌<◌, ◌↔◌, None, Some, IfSome, IsTrue, MatchOption, length};
ghost use Rattle.sequence_diagram.specs.Arrows.{BroughtNowhere, HasArrow, HasDeparture, SentNowhere};
ghost use Rattle.sequence_diagram.specs.Messages.{brought_at, sent_at};

use crate::moment::Moment;

/// A message that arrived: its number, and the place in the run of the event that sent it.
#[derive(Clone, Copy)]
pub struct Arrow {
    pub message: u64,
    pub sent: usize,
}

/// A message that left: its number, and the place of the first event that brought it; none if it is lost.
#[derive(Clone, Copy)]
pub struct Departure {
    pub message: u64,
    pub came: Option<usize>,
}

/// The arrow that ends at an event, by its place in the run.
pub fn arrow_to(moments: &[Moment], place: usize) -> Option<Arrow>
    ensures { HasArrow moments.now place result }
{
    let message = brought(moments, place)?;
    let sent = sent_before(moments, place, message)?;
    Some(Arrow { message, sent })
}

/// The message that was sent at an event, by its place in the run.
pub fn departure_from(moments: &[Moment], place: usize) -> Option<Departure>
    ensures { HasDeparture moments.now place result }
{
    let message = sent(moments, place)?;
    let came = brought_after(moments, place, message);
    Some(Departure { message, came })
}

// The message that was sent at a place.
fn sent(moments: &[Moment], place: usize) -> Option<u64>
    ensures { result ≡ sent_at moments.now place }
{
    match moments.get(place) {
        Some(moment) => moment.sends(),
        None => None,
    }
}

// The message that was brought at a place.
fn brought(moments: &[Moment], place: usize) -> Option<u64>
    ensures { result ≡ brought_at moments.now place }
{
    match moments.get(place) {
        Some(moment) => moment.brings(),
        None => None,
    }
}

// Whether this is that message.
fn is_message(found: Option<u64>, message: u64) -> bool
    ensures { IsTrue result ↔ (found ≡ Some message) }
{
    match found {
        Some(number) => number == message,
        None => false,
    }
}

/// The last event before a place that sent a message.
pub fn sent_before(moments: &[Moment], place: usize, message: u64) -> Option<usize>
    ensures { MatchOption result (SentNowhere moments.now 0 place message) (λ k. (k < place)
        × (sent_at moments.now k ≡ Some message) × SentNowhere moments.now (k + 1) place message) }
{
    let mut before = place;
    'places: while before > 0 {
        before -= 1;
        if is_message(sent(moments, before), message) {
            return Some(before);
        }
    }
    None
}

// The first event after a place that brought a message.
fn brought_after(moments: &[Moment], place: usize, message: u64) -> Option<usize>
    ensures { MatchOption result (BroughtNowhere moments.now (place + 1) (length moments.now) message) (λ k. (place < k)
        × (brought_at moments.now k ≡ Some message) × BroughtNowhere moments.now (place + 1) k message) }
{
    'places: for later in place.saturating_add(1)..moments.len() {
        if is_message(brought(moments, later), message) {
            return Some(later);
        }
    }
    None
}

//! Which refusals hold something up after the events of a line.
ghost use Rattle.std.specs.Prelude.{◌≡◌, ◌==◌, bytes_eq};
ghost use Rattle.i8080_words.specs.Refusals.{number_of};
ghost use Rattle.shell_language.specs.HeldUp.{fault_in, holds_up, is_met, kept, meeting_of, met, waits, word_of, word_after};

use crate::book::OutstandingOutput;
use crate::tape::Played;
use guest_lockstep::{ReplayEnd, StopReason};
use i8080_words::{Fault, R};
use pair_events::{Event, Reply};

/// What the events of a tape met of a refusal: how many were refused with it, and the last of these, unless an event of its
/// kind was answered otherwise after it.
#[derive(Clone, Copy)]
pub struct Meeting {
    pub times: u64,
    pub last: Option<Event>,
}

// No event was refused with it.
const NEVER: Meeting = Meeting {
    times: 0,
    last: None,
};

/// What the events of a tape met of a refusal.
pub fn meeting_of(fault: Fault, tape: &[Played]) -> Meeting
    ensures { result ≡ meeting_of fault tape.now }
{
    let mut rest = tape;
    let mut meeting = NEVER;
    'events: while let [played, after @ ..] = rest {
        meeting = met(fault, meeting, played);
        rest = after;
    }
    meeting
}

// What was met with one more event.
#[tactic(auto, unfolding(crate::specs::HeldUp::met))]
fn met(fault: Fault, meeting: Meeting, played: &Played) -> Meeting
    ensures { result ≡ met fault meeting played.now }
{
    if is_met(fault, played.answer) {
        return Meeting {
            times: meeting.times.saturating_add(1),
            last: Some(played.event),
        };
    }
    Meeting {
        times: meeting.times,
        last: kept(meeting.last, played.event),
    }
}

// Whether an answer is this refusal.
fn is_met(fault: Fault, answer: R<Reply>) -> bool
    ensures { result ≡ is_met fault answer }
{
    match fault_in(answer) {
        Some(met) => met.number() == fault.number(),
        None => false,
    }
}

// The refusal in an answer: of the event, or of a step or a move after those that were made.
fn fault_in(answer: R<Reply>) -> Option<Fault>
    ensures { result ≡ fault_in answer }
{
    match answer {
        Err(fault) => Some(fault),
        Ok(
            Reply::Ran {
                why: StopReason::Refused(fault),
                ..
            },
        ) => Some(fault),
        Ok(
            Reply::Moved {
                why: ReplayEnd::Memory,
                ..
            },
        ) => Some(Fault::OutOfMemory),
        Ok(_) => None,
    }
}

// The last event that was refused, unless one of its kind has come since.
fn kept(last: Option<Event>, event: Event) -> Option<Event>
    ensures { result ≡ kept last event }
{
    let refused = last?;
    if word_of(refused).as_bytes() == word_of(event).as_bytes() {
        return None;
    }
    Some(refused)
}

/// Whether a refusal holds something up, of which the events of a line met so much: output, if it is not covered and waits;
/// otherwise what an event of some kind would have done, if the last one of that kind was refused. That nobody waits for an
/// input holds nothing up, and a guest that idles waits for a key.
pub fn holds_up(fault: Fault, meeting: Meeting, waiting: OutstandingOutput) -> bool
    ensures { result ≡ holds_up fault meeting waiting }
{
    match fault {
        Fault::NotDue | Fault::Idle => false,
        Fault::NotCovered => meeting.times > 0 && (waiting.bytes > 0 || waiting.writes > 0),
        _ => meeting.last.is_some(),
    }
}

// The kind of an event: the first word of its line.
fn word_of(event: Event) -> &'static str
    ensures { result.now ≡ word_of event }
{
    match event {
        Event::Step { .. } => "step",
        Event::TakeKey { .. } => "key",
        Event::Send { .. } => "send",
        Event::DeliverLog { .. } => "log",
        Event::Acknowledge { .. } => "ack",
        Event::DeliverAcknowledgement { .. } => "acked",
        Event::Replay { .. } => "replay",
        Event::Release { .. } => "release",
        other => word_after(other),
    }
}

// The same of an event at a terminal or at the disk; there are no others in a day.
fn word_after(event: Event) -> &'static str
    ensures { result.now ≡ word_after event }
{
    match event {
        Event::Arrive { .. } => "arrive",
        Event::TellSent { .. } => "sent",
        Event::Put { .. } => "put",
        Event::PutReply { .. } => "done",
        Event::Get { .. } => "get",
        Event::GetReply { .. } => "under",
        Event::Fetch { .. } => "fetch",
        Event::Fetched { .. } => "fetched",
        _ => "",
    }
}

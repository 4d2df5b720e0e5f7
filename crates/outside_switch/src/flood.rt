//! How many bodies of each host were taken lately, and how many were refused.
ghost use Rattle.std.specs.Prelude.{◌≡◌};
ghost use Rattle.outside_switch.specs.Floods.{accepted_if, accepted_one, came_of, cleared, count_at, has_flooded, one_more, refused_one, rested, sent_one, taken_if, ticked, unheard};

use crate::BodyOutcome;

/// How many bodies of a host are taken at most until its count is set to 0. For an outside that was stopped some 15,000 wait: 10,922
/// of the smallest frames in a pipe, and 4,096 bodies in a ring.
pub(crate) const MOST_BODIES: u64 = 32_768;

// By how many bodies an accepted one lowers the count of its host: a byte has an entry or two in the log, and an acceptance another.
// So a host whose guest prints without end is never far from 0, however fast both are.
const PAID: u64 = 8;

// At how many places there may be hosts.
const PLACES: usize = 256;

/// What became of the next body of a host.
#[derive(Clone, Copy)]
pub(crate) enum Came {
    /// None waited, or its stream has ended.
    Nothing,
    /// It is no frame or means nothing where it comes from, or its host was cut off before.
    Refused,
    Taken,
    /// It was taken, and a terminal or the disk has accepted what it brought.
    Accepted,
}

/// What became of the next body of a host, by what was heard, and whether the host was open before.
pub(crate) fn came_of(heard: BodyOutcome, is_open: bool) -> Came
    ensures { result ≡ came_of heard is_open }
{
    match heard {
        BodyOutcome::Nothing => Came::Nothing,
        BodyOutcome::Ended => Came::Nothing,
        BodyOutcome::Failed => Came::Refused,
        BodyOutcome::Met => taken_if(is_open),
        BodyOutcome::Read(_) => taken_if(is_open),
        BodyOutcome::Shown { .. } => accepted_if(is_open),
        BodyOutcome::Written => accepted_if(is_open),
        BodyOutcome::Unwritten => taken_if(is_open),
        BodyOutcome::Became(_) => taken_if(is_open),
        BodyOutcome::Won(_) => taken_if(is_open),
        BodyOutcome::Lost(_) => taken_if(is_open),
    }
}

fn taken_if(is_open: bool) -> Came
    ensures { result ≡ taken_if is_open }
{
    if is_open { Came::Taken } else { Came::Refused }
}

fn accepted_if(is_open: bool) -> Came
    ensures { result ≡ accepted_if is_open }
{
    if is_open {
        Came::Accepted
    } else {
        Came::Refused
    }
}

/// Two counts of the host at each place, neither of which goes past the greatest number that there is.
#[derive(Drop)]
pub(crate) struct Flood {
    // How many of its bodies were taken lately.
    sent: [u64; PLACES],
    // How many were refused in all.
    refused: [u64; PLACES],
    // Whether there was a tick just before this turn.
    has_ticked: bool,
}

impl Flood {
    /// Nothing was heard of any host.
    pub(crate) fn new() -> Flood
        ensures { result ≡ unheard }
    {
        Flood {
            sent: [0; PLACES],
            refused: [0; PLACES],
            has_ticked: false,
        }
    }

    /// No body of any host was taken lately.
    pub(crate) fn clear(&mut self)
        ensures { self.new ≡ cleared self.old }
    {
        self.sent = [0; PLACES];
    }

    /// A turn ends, at whose end is a tick or none.
    pub(crate) fn end_turn(&mut self, has_ticked: bool)
        ensures { self.new ≡ ticked has_ticked self.old }
    {
        self.has_ticked = has_ticked;
    }

    /// No body of the host at a place waits. In the turn after a tick its count is set to 0.
    pub(crate) fn rest(&mut self, place: u8)
        ensures { self.new ≡ rested place self.old }
    {
        if self.has_ticked {
            self.sent[usize::from(place)] = 0;
        }
    }

    /// One body more of the host at a place was taken. Returns whether that is one too many.
    pub(crate) fn take(&mut self, place: u8) -> bool
        ensures after { self.new ≡ sent_one place self.old }
        ensures many { result ≡ has_flooded (sent_one place self.old) place }
    {
        let sent = one_more(self.sent[usize::from(place)]);
        self.sent[usize::from(place)] = sent;
        sent > MOST_BODIES
    }

    /// What a body of the host at a place brought was accepted.
    pub(crate) fn accept(&mut self, place: u8)
        ensures { self.new ≡ accepted_one place self.old }
    {
        let sent = self.sent[usize::from(place)];
        self.sent[usize::from(place)] = sent.saturating_sub(PAID);
    }

    /// One body more of the host at a place was refused.
    pub(crate) fn refuse(&mut self, place: u8)
        ensures { self.new ≡ refused_one place self.old }
    {
        self.refused[usize::from(place)] = one_more(self.refused[usize::from(place)]);
    }

    /// How many bodies of the host at a place were refused.
    pub(crate) fn refused(&self, place: u8) -> u64
        ensures { result ≡ count_at self.now.refused place }
    {
        self.refused[usize::from(place)]
    }

    /// The same of all hosts, by their places.
    pub(crate) fn all_refused(&self) -> &[u64]
        ensures { result.now ≡ self.now.refused }
    {
        &self.refused
    }
}

fn one_more(count: u64) -> u64
    ensures { result ≡ one_more count }
{
    count.saturating_add(1)
}

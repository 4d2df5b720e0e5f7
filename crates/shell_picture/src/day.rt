//! The ordinary day of a pair: what happens when nothing goes wrong but, perhaps, the link.
ghost use Rattle.std.specs.Prelude.{◌≡◌, ◌==◌, [], IfOk, None, Some, false, is_some, if◌then◌else◌, unwrap_or};
ghost use Rattle.shell_picture.specs.Links.{loss_of, seeded};
ghost use Rattle.shell_picture.specs.Parts.{Fills};
ghost use Rattle.shell_picture.specs.Rounds.{after, begun, has_nothing_left, is_begin, is_open, is_out, is_telling, is_typed, left_waiting, may_pause, part_next, rested};
ghost use Rattle.shell_picture.specs.declared.ending.DayEnd.TheVariants as ends;
ghost use Rattle.shell_picture.specs.declared.phase.Phase.TheVariants as round;
ghost use Rattle.std.specs.List.{list_any};

mod hearing;
mod parts;

use crate::ending::DayEnd;
use crate::link::Link;
use crate::phase::Phase;
use pair_events::Event;
use shell_language::{Book, PortNotes, Turns};
use std::alloc::{AllocError, Global};

// How many steps the guest makes at most between two looks at its devices.
const STEPS: u64 = 500;

// How many rounds are made at most after the last turn, so that what is on its way arrives: on a safe link, and on one
// that loses messages.
const SAFE_ROUNDS: u8 = 3;

const LOSSY_ROUNDS: u8 = 60;

/// A day of the node that runs the guest, and of its backup if it has one.
#[derive(Drop)]
pub struct Day {
    node: u64,
    backup: Option<u64>,
    link: Link,
    phase: Phase,
    turns: u64,
    made: u64,
    events: u64,
    ending: Option<DayEnd>,
    // Rounds that are left after the ending.
    rounds: u8,
    // Whether the guest waits for an interrupt, whether it was given an input since, and how many rounds ago it was.
    is_idle: bool,
    was_given: bool,
    rounds_idle: u8,
    // Whether the backup waits for the bytes of a sector, and has been given some; and whether a write waits until the
    // backup says what it has replayed.
    awaits_sector: bool,
    has_sector: bool,
    awaits_report: bool,
    // The first message that was sent in this part of the round.
    mark: u64,
    // Steps since a key of each port was taken.
    since_key0: u64,
    since_key1: u64,
    // The sector that comes next, and after how many looks.
    sector: u8,
    pause: u8,
    looks: u8,
}

impl Day {
    /// A day of this many turns.
    pub fn new(alloc: Global, turns: Turns, backup: Option<u64>) -> Day
        ensures of { (result.node ≡ turns.node) × (result.backup ≡ backup) × (result.turns ≡ turns.turns) }
        ensures loss { (result.link.percent ≡ (loss_of turns.loss).percent)
            × (result.link.generator ≡ seeded (loss_of turns.loss).seed) × (result.link.overtaken.items ≡ []) }
        ensures ending { result.ending ≡ (if turns.turns == 0 then Some ends.Turns else None) }
        ensures rounds { result.rounds ≡ (if (loss_of turns.loss).percent == 0 then 3 else 60) }
        ensures begins { (result.phase ≡ round.Keys) × (result.made ≡ 0) × (result.events ≡ 0) × (result.mark ≡ 0) }
        ensures idle { (result.is_idle ≡ false) × (result.was_given ≡ false) × (result.rounds_idle ≡ 0) }
        ensures awaits { (result.awaits_sector ≡ false) × (result.has_sector ≡ false) × (result.awaits_report ≡ false) }
        ensures paces { (result.since_key0 ≡ 500) × (result.since_key1 ≡ 500) × (result.sector ≡ 0) × (result.pause ≡ 1) × (result.looks ≡ 0) }
    {
        let link = Link::new(alloc, turns.loss);
        let rounds = if link.is_safe() {
            SAFE_ROUNDS
        } else {
            LOSSY_ROUNDS
        };
        let ending = if turns.turns == 0 {
            Some(DayEnd::Turns)
        } else {
            None
        };
        Day {
            node: turns.node,
            backup,
            link,
            phase: Phase::Keys,
            turns: turns.turns,
            made: 0,
            events: 0,
            ending,
            rounds,
            is_idle: false,
            was_given: false,
            rounds_idle: 0,
            awaits_sector: false,
            has_sector: false,
            awaits_report: false,
            mark: 0,
            since_key0: STEPS,
            since_key1: STEPS,
            sector: 0,
            pause: 1,
            looks: 0,
        }
    }

    /// How many steps the guest has made.
    pub fn made(&self) -> u64
        ensures { result ≡ self.now.made }
    {
        self.made
    }

    /// Why the day ended.
    pub fn ending(&self) -> DayEnd
        ensures { result ≡ unwrap_or self.now.ending ends.Turns }
    {
        self.ending.unwrap_or(DayEnd::Turns)
    }

    /// Puts the events of the next part of the round on the agenda. `false` if the day is over.
    #[tactic(auto, using(crate::proofs::Filling::fills_on, crate::proofs::Filling::fills_none))]
    pub fn fill(&mut self, book: &Book, agenda: &mut Vec<Event>) -> Result<bool, AllocError>
        ensures more { IfOk result (λ more. more ≡ is_some (part_next self.old book.now)) }
        ensures fills { IfOk result (λ _. Fills (part_next self.old book.now) self.old book.now agenda.old.items
            agenda.new.items self.new) }
    {
        let Some(part) = self.next_part(book) else {
            return Ok(false);
        };
        self.fill_part(part, book, agenda)?;
        Ok(true)
    }

    // The part of the round that comes next, which has then begun. None if the day is over.
    fn next_part(&mut self, book: &Book) -> Option<Phase>
        ensures part { result ≡ part_next self.old book.now }
        ensures begun { self.new ≡ begun (part_next self.old book.now) self.old }
    {
        if is_begin(self.phase) && self.ending.is_some() {
            if self.rounds == 0 || !self.is_open(book) {
                return None;
            }
            self.rounds -= 1;
            return self.begin(Phase::Send);
        }
        if is_telling(self.phase) && self.has_sector {
            self.has_sector = false;
            return self.begin(Phase::Replay);
        }
        self.begin(self.phase)
    }

    // A part of the round begins.
    fn begin(&mut self, part: Phase) -> Option<Phase>
        ensures part { result ≡ Some part }
        ensures after { self.new ≡ record self.old { phase = after part } }
    {
        self.phase = part.after();
        Some(part)
    }

    /// The node that has just made steps, if nothing is left to do that could give its guest an input, and the day goes on.
    pub fn left_waiting(&self, event: Event, book: &Book) -> Option<u64>
        ensures { result ≡ left_waiting event self.now book.now }
    {
        match event {
            Event::Step { node, .. } if self.has_nothing_left(book) => Some(node),
            _ => None,
        }
    }

    fn has_nothing_left(&self, book: &Book) -> bool
        ensures { result ≡ has_nothing_left self.now book.now }
    {
        self.ending.is_none() && !self.is_open(book) && !is_any_typed(&book.ports)
    }

    /// Its guest polls, and nothing is left to do: the day ends.
    pub fn rest(&mut self)
        ensures { self.new ≡ rested self.old }
    {
        self.ending = Some(DayEnd::Polls);
    }

    /// Whether the day may pause after this event: it goes on, and a whole round is still to come.
    pub fn may_pause(&self, event: Event) -> bool
        ensures { result ≡ may_pause event self.now }
    {
        matches!(event, Event::Step { .. }) && self.ending.is_none()
    }

    // Whether something is on its way.
    fn is_open(&self, book: &Book) -> bool
        ensures { result ≡ is_open self.now.backup book.now }
    {
        let is_unheld = self.backup.is_some() && book.held < book.logged;
        is_unheld || is_any_out(&book.ports) || !book.undone.is_empty()
    }
}

// Whether the guest has given bytes of a port that it has not heard of.
fn is_any_out(ports: &[PortNotes]) -> bool
    ensures { result ≡ list_any is_out ports.now }
{
    ports.iter().any(|notes| notes.heard < notes.sent)
}

// Whether keys of a port wait at its terminal.
fn is_any_typed(ports: &[PortNotes]) -> bool
    ensures { result ≡ list_any is_typed ports.now }
{
    ports.iter().any(|notes| notes.taken < notes.typed)
}

fn is_begin(part: Phase) -> bool
    ensures { result ≡ is_begin part }
{
    matches!(part, Phase::Keys)
}

fn is_telling(part: Phase) -> bool
    ensures { result ≡ is_telling part }
{
    matches!(part, Phase::Tell)
}

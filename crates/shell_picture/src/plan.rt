//! Which events a line makes: a list of them, or those of a day, each chosen when the one before it was answered.
ghost use Rattle.std.specs.Prelude.{◌≡◌, ◌+◌, ◌<◌, ◌≤◌, [], IfOk, IfSome, None, Some, false, if◌then◌else◌, is_some, option_map, slice_get, length};
ghost use Rattle.shell_picture.specs.Hearing.{counted, heard};
ghost use Rattle.shell_picture.specs.Plans.{GivesFirst};
ghost use Rattle.shell_picture.specs.Rounds.{left_waiting, may_pause, rested};
ghost use Rattle.std.specs.Option.{option_and_then, option_map_or};

use crate::day::Day;
use i8080_words::R;
use pair_events::{Event, Reply};
use shell_language::Book;
use std::alloc::{AllocError, Global};

// The most phases of a day that pass without an event.
const PHASES: u32 = 64;

/// The events that are still to happen.
#[derive(Drop)]
pub struct EventQueue {
    agenda: Vec<Event>,
    place: usize,
    day: Option<Day>,
}

impl EventQueue {
    /// These events.
    pub fn of(agenda: Vec<Event>) -> EventQueue
        ensures { (result.agenda ≡ agenda) × (result.place ≡ 0) × (result.day ≡ None) }
    {
        EventQueue {
            agenda,
            place: 0,
            day: None,
        }
    }

    /// A day of a pair.
    pub fn day(alloc: Global, day: Day) -> EventQueue
        ensures { (result.agenda.items ≡ []) × (result.place ≡ 0) × (result.day ≡ Some day) }
    {
        EventQueue {
            agenda: Vec::new(alloc),
            place: 0,
            day: Some(day),
        }
    }

    /// The next event; none if there is no more. The events of a list come one after another; after them those of the
    /// next part of the day that makes any.
    #[tactic(auto, using(std::proofs::lemmas::Option::slice_get_cases))]
    pub fn next(&mut self, book: &Book) -> Result<Option<Event>, AllocError>
        ensures listed { IfOk result (λ next. self.old.place < length self.old.agenda.items
            → (next ≡ slice_get self.old.agenda.items self.old.place) × (self.new ≡ record self.old { place = self.old.place + 1 })) }
        ensures list_ends { IfOk result (λ next. length self.old.agenda.items ≤ self.old.place → self.old.day ≡ None → next ≡ None) }
        ensures first { IfOk result (λ next. length self.old.agenda.items ≤ self.old.place
            → IfSome next (λ event. GivesFirst event self.new)) }
    {
        if let Some(event) = self.listed() {
            return Ok(Some(event));
        }
        'parts: for _ in 0..PHASES {
            self.agenda.clear();
            self.place = 0;
            let Some(day) = &mut self.day else {
                return Ok(None);
            };
            if !day.fill(book, &mut self.agenda)? {
                return Ok(None);
            }
            if let Some(event) = self.listed() {
                return Ok(Some(event));
            }
        }
        Ok(None)
    }

    // The next event of the list; it has gone then.
    fn listed(&mut self) -> Option<Event>
        ensures event { result ≡ slice_get self.old.agenda.items self.old.place }
        ensures gone { self.new ≡ record self.old { place = if is_some result then self.old.place + 1 else self.old.place } }
    {
        let event = *self.agenda.get(self.place)?;
        self.place += 1;
        Some(event)
    }

    /// Hears what was answered to an event.
    pub fn hear(&mut self, event: Event, answer: R<Reply>)
        ensures { self.new ≡ record self.old { day = option_map (λ day. heard event answer (counted day)) self.old.day } }
    {
        if let Some(day) = &mut self.day {
            day.hear(event, answer);
        }
    }

    /// The node that has just made steps, if this is a day that goes on, and nothing is left to do that could give its guest an input.
    pub fn left_waiting(&self, event: Event, book: &Book) -> Option<u64>
        ensures { result ≡ option_and_then (λ day. left_waiting event day book.now) self.now.day }
    {
        match &self.day {
            Some(day) => day.left_waiting(event, book),
            None => None,
        }
    }

    /// The guest polls: the day ends.
    pub fn rest(&mut self)
        ensures { self.new ≡ record self.old { day = option_map rested self.old.day } }
    {
        if let Some(day) = &mut self.day {
            day.rest();
        }
    }

    /// Whether this is a day that may pause after this event.
    pub fn may_pause(&self, event: Event) -> bool
        ensures { result ≡ option_map_or (may_pause event) self.now.day false }
    {
        match &self.day {
            Some(day) => day.may_pause(event),
            None => false,
        }
    }

    /// The day, if it is one.
    pub fn as_day(&self) -> Option<&Day>
        ensures { option_map (λ day. day.now) result ≡ self.now.day }
    {
        self.day.as_ref()
    }
}

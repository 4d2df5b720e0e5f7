//! What a day notes of the answers to its events.
ghost use Rattle.std.specs.Prelude.{◌≡◌};
ghost use Rattle.shell_picture.specs.Hearing.{after_steps, counted, heard, heard_fetched, heard_get, heard_key, heard_release, heard_replay, heard_sector, heard_step, heard_taken, key_taken, lengthened, passed, refused, stepped};

use super::Day;
use crate::ending::DayEnd;
use event_callbacks::OpId;
use guest_lockstep::{ReplayEnd, StopReason};
use i8080_words::{Fault, R};
use pair_events::{Event, Reply};

// How many events a day has at most without a step of the guest before it ends.
const MOST_EVENTS: u64 = 1_000_000;

// How many sectors a track has.
const SECTORS: u8 = 32;

// The longest pause of the disk, in looks: while no drive is selected, and while one is and waits for no sector.
const UNSELECTED_PAUSE: u8 = 32;

const BUSY_PAUSE: u8 = 2;

impl Day {
    /// Hears what was answered to an event.
    pub fn hear(&mut self, event: Event, answer: R<Reply>)
        ensures { self.new ≡ heard event answer (counted self.old) }
    {
        self.count();
        match event {
            Event::Step { .. } => self.hear_step(answer),
            Event::Get { .. } => self.hear_get(answer),
            Event::GetReply { .. } => self.pass_sector(answer.is_ok()),
            Event::TakeKey { port, .. } => self.hear_key(port, answer),
            Event::Replay { .. } => self.hear_replay(answer),
            Event::Fetched { .. } => self.hear_fetched(answer),
            Event::Release { id, .. } => self.hear_release(id, answer),
            _ => self.hear_taken(answer),
        }
    }

    // One more event has happened.
    fn count(&mut self)
        ensures { self.new ≡ counted self.old }
    {
        self.events = self.events.saturating_add(1);
        if self.events == MOST_EVENTS && self.ending.is_none() {
            self.ending = Some(DayEnd::Events);
        }
    }

    fn hear_step(&mut self, answer: R<Reply>)
        ensures { self.new ≡ heard_step answer self.old }
    {
        match answer {
            Ok(Reply::Ran { steps, why, .. }) => {
                self.make(steps);
                self.stop(why);
            }
            Ok(Reply::Taken) => self.was_given = true,
            Ok(_) => {}
            Err(fault) => self.hear_refusal(fault),
        }
    }

    // The guest has made steps.
    fn make(&mut self, steps: u64)
        ensures { self.new ≡ stepped steps self.old }
    {
        if steps > 0 {
            self.events = 0;
        }
        self.made = self.made.saturating_add(steps);
        self.since_key0 = self.since_key0.saturating_add(steps);
        self.since_key1 = self.since_key1.saturating_add(steps);
        self.is_idle = false;
        self.rounds_idle = 0;
    }

    // Why it made no more steps.
    fn stop(&mut self, why: StopReason)
        ensures { self.new ≡ after_steps why self.old }
    {
        if self.made >= self.turns {
            self.ending = Some(DayEnd::Turns);
        } else if let StopReason::Refused(fault) = why {
            self.hear_refusal(fault);
        }
    }

    // A node that waits for an interrupt goes on when it is given one.
    fn hear_refusal(&mut self, fault: Fault)
        ensures { self.new ≡ refused fault self.old }
    {
        match fault {
            Fault::Idle => {
                self.is_idle = true;
                self.was_given = false;
            }
            _ => self.ending = Some(DayEnd::Refused(fault)),
        }
    }

    fn hear_get(&mut self, answer: R<Reply>)
        ensures { self.new ≡ heard_get answer self.old }
    {
        match answer {
            Err(_) => self.lengthen_pause(UNSELECTED_PAUSE),
            Ok(_) => self.hear_taken(answer),
        }
    }

    // No drive waits for a sector: the disk is asked more seldom.
    fn lengthen_pause(&mut self, longest: u8)
        ensures { self.new ≡ lengthened longest self.old }
    {
        self.looks = self.pause.min(longest);
        self.pause = self.pause.saturating_mul(2).min(longest);
    }

    // A sector has come by, and was taken or not; the next one comes.
    fn pass_sector(&mut self, was_taken: bool)
        ensures { self.new ≡ passed was_taken self.old }
    {
        self.sector = (self.sector % SECTORS + 1) % SECTORS;
        if was_taken {
            self.was_given = true;
            self.pause = 1;
            self.looks = 0;
        } else {
            self.lengthen_pause(BUSY_PAUSE);
        }
    }

    fn hear_key(&mut self, port: u8, answer: R<Reply>)
        ensures { self.new ≡ heard_key port answer self.old }
    {
        if answer.is_ok() {
            self.take_key(port);
        }
    }

    // A key was taken at a port.
    fn take_key(&mut self, port: u8)
        ensures { self.new ≡ key_taken port self.old }
    {
        self.was_given = true;
        match port {
            0 => self.since_key0 = 0,
            1 => self.since_key1 = 0,
            _ => {}
        }
    }

    // Whether the backup waits for the bytes of a sector.
    fn hear_replay(&mut self, answer: R<Reply>)
        ensures { self.new ≡ heard_replay answer self.old }
    {
        match answer {
            Ok(
                Reply::Moved {
                    why: ReplayEnd::Wait,
                    ..
                },
            ) => self.awaits_sector = true,
            _ => self.hear_taken(answer),
        }
    }

    // It has them.
    fn hear_fetched(&mut self, answer: R<Reply>)
        ensures { self.new ≡ heard_fetched answer self.old }
    {
        if answer.is_ok() {
            self.has_sector = true;
        }
    }

    // Whether a write waits until the backup says what it has replayed.
    fn hear_release(&mut self, id: OpId, answer: R<Reply>)
        ensures { self.new ≡ heard_release id answer self.old }
    {
        match (id, answer) {
            (OpId::Write(_), Err(Fault::NotCovered)) => self.awaits_report = true,
            _ => self.hear_taken(answer),
        }
    }

    fn hear_taken(&mut self, answer: R<Reply>)
        ensures { self.new ≡ heard_taken answer self.old }
    {
        if let Ok(Reply::Taken) = answer {
            self.was_given = true;
        }
    }
}

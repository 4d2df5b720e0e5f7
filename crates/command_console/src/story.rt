//! Which hosts have the machine, by what becomes of them, and the lines that tell of it.
ghost use Rattle.std.specs.Prelude.{◌≡◌};
ghost use Rattle.command_console.specs.Stories.{asks, begins, began, first_line, line_of, story_after};

use crate::line::PairLine;
use outside_switch::HostEvent;
use pair_events::Role;

/// The hosts of a pair, by their places.
#[derive(Clone, Copy, PartialEq, Eq)]
pub(crate) struct Story {
    pub(crate) generation: u32,
    pub(crate) primary: Option<u8>,
    pub(crate) backup: Option<u8>,
    /// The one that is given a copy.
    pub(crate) joining: Option<u8>,
    /// Whether it was told that no spare is left for the host that is alone.
    pub(crate) is_alone: bool,
    /// Whether it was told that the disk refuses writes.
    pub(crate) is_unwritten: bool,
}

impl Story {
    /// Before any host has reported.
    pub(crate) fn new() -> Story {
        Story {
            generation: 0,
            primary: None,
            backup: None,
            joining: None,
            is_alone: false,
            is_unwritten: false,
        }
    }

    /// How it goes on once this becomes of the host at a place.
    pub(crate) fn after(self, place: u8, event: HostEvent) -> Story
        ensures { result ≡ story_after place event self }
    {
        match event {
            HostEvent::Became(generation, Some(Role::Primary)) => Story {
                primary: Some(place),
                ..self.began(generation)
            },
            HostEvent::Became(generation, Some(Role::Backup)) => Story {
                backup: Some(place),
                joining: None,
                ..self.began(generation)
            },
            HostEvent::Won(_) => Story {
                primary: Some(place),
                backup: None,
                joining: None,
                is_alone: false,
                ..self
            },
            HostEvent::Joins(_) => Story {
                joining: Some(place),
                is_alone: false,
                ..self
            },
            HostEvent::Alone => Story {
                is_alone: true,
                ..self
            },
            HostEvent::Gone if self.joining == Some(place) => Story {
                joining: None,
                ..self
            },
            HostEvent::Unwritten => Story {
                is_unwritten: true,
                ..self
            },
            _ => self,
        }
    }

    // The same in a generation; a new one has a backup only once that one reports.
    fn began(self, generation: u32) -> Story
        ensures { result ≡ began generation self }
    {
        if generation == self.generation {
            return self;
        }
        Story {
            generation,
            backup: None,
            ..self
        }
    }

    /// The line that tells of it, if there is one.
    pub(crate) fn line_of(self, place: u8, event: HostEvent) -> Option<PairLine>
        ensures { result ≡ line_of place event self }
    {
        let host = u32::from(place);
        match event {
            HostEvent::Became(_, Some(Role::Primary)) => self.after(place, event).begins(),
            HostEvent::Became(_, Some(Role::Backup)) => self.after(place, event).begins(),
            HostEvent::Won(_) => Some(PairLine::Won { host }),
            HostEvent::Joins(_) if self.joining != Some(place) => Some(PairLine::Copies { host }),
            HostEvent::Failed => Some(PairLine::CutOff { host }),
            HostEvent::Flooded => Some(PairLine::Flooded { host }),
            HostEvent::Gone if self.joining == Some(place) => Some(PairLine::Lost { host }),
            HostEvent::Alone if !self.is_alone => Some(PairLine::Alone { host }),
            HostEvent::Unwritten if !self.is_unwritten => Some(PairLine::Unwritten { host }),
            _ => None,
        }
    }

    // That two hosts have the machine, if they do.
    fn begins(self) -> Option<PairLine>
        ensures { result ≡ begins self }
    {
        Some(PairLine::Begins {
            generation: self.generation,
            primary: u32::from(self.primary?),
            backup: u32::from(self.backup?),
        })
    }

    /// The line that comes before that one, if there is one: who has failed, if the host at a place has won.
    pub(crate) fn first_line(self, place: u8, event: HostEvent) -> Option<PairLine>
        ensures { result ≡ first_line place event self }
    {
        match event {
            HostEvent::Won(_) if self.primary == Some(place) => asks(self.backup, place),
            HostEvent::Won(_) => asks(self.primary, place),
            _ => None,
        }
    }
}

// That a host asks since another one has failed, if it is known which.
fn asks(failed: Option<u8>, place: u8) -> Option<PairLine>
    ensures { result ≡ asks failed place }
{
    Some(PairLine::Asks {
        failed: u32::from(failed?),
        host: u32::from(place),
    })
}

//! What is told of the hosts while they run.
ghost use Rattle.std.specs.Prelude.{◌≡◌, IfOk, string_bytes};
ghost use Rattle.command_console.specs.Telling.{handed_text, shown_text, told_as};

use crate::line::PairLine;
use crate::seats::Seats;
use crate::story::Story;
use console_terminal::Signs;
use outside_switch::{HostEvent, HostLine, Inspection, LinkState, Sight, Steward};
use rtrb::Producer;
use std::alloc::{AllocError, Global};
use std::sync::Arc;

/// Tells in lines which hosts have the machine, notes what they report for whoever asks, and says what becomes of packets
/// and how fast the guest runs.
#[derive(Drop)]
pub(crate) struct Teller {
    alloc: Global,
    seats: Arc<Seats>,
    signs: Arc<Signs>,
    story: Story,
    lines: Producer<String>,
    // Between which lines are handed over; empty if they are written as they are read.
    mark: String,
    // Whether all lines of the last event were told. Contracts speak of it.
    is_told: bool,
}

impl Teller {
    /// It tells its lines through this ring, and hands them over between marks if there is one.
    pub(crate) fn new(
        alloc: Global,
        seats: Arc<Seats>,
        signs: Arc<Signs>,
        lines: Producer<String>,
        mark: String,
    ) -> Teller {
        Teller {
            alloc,
            seats,
            signs,
            story: Story::new(),
            lines,
            mark,
            is_told: true,
        }
    }

    // Sends a line, if there is one. It is lost if memory is refused for it, or if the ring is full.
    fn send(&mut self, line: Option<PairLine>) -> bool {
        let Some(line) = line else {
            return true;
        };
        match text_of_line(self.alloc, self.mark.as_str(), line) {
            Ok(text) => self.lines.push(text).is_ok(),
            Err(_) => false,
        }
    }
}

impl Steward for Teller {
    fn hears(&mut self, place: u8, event: HostEvent) {
        let first = self.story.first_line(place, event);
        let line = self.story.line_of(place, event);
        self.story = self.story.after(place, event);
        let was_first = self.send(first);
        self.is_told = self.send(line) && was_first;
    }

    fn looks(&mut self, lines: &[HostLine], refused: &[u64]) {
        self.seats.note(lines, refused);
    }

    fn asks(&mut self) -> Option<Inspection> {
        self.seats.asked()
    }

    fn sees(&mut self, sight: &Sight) {
        self.seats.see(sight);
    }

    // Nothing is shown any more, since it cannot be written.
    fn is_over(&mut self) -> bool {
        self.signs.is_stopped()
    }

    fn speed(&mut self) -> u64 {
        self.seats.speed()
    }

    fn fate(&mut self) -> LinkState {
        self.seats.fate()
    }
}

// How a line is told, by the mark between which lines are handed over; an empty one if they are written as they are read.
fn text_of_line(alloc: Global, mark: &str, line: PairLine) -> Result<String, AllocError>
    ensures { IfOk result (λ text. string_bytes text ≡ told_as mark.now line) }
{
    if mark.is_empty() {
        shown(alloc, line)
    } else {
        handed_over(alloc, mark, line)
    }
}

// How a line is written at a terminal that takes each byte as it is.
fn shown(alloc: Global, line: PairLine) -> Result<String, AllocError>
    ensures { IfOk result (λ text. string_bytes text ≡ shown_text line) }
{
    format!(in alloc; "\r\npair: {line}\r\n")
}

// How it is handed over to the command that shows it.
fn handed_over(alloc: Global, mark: &str, line: PairLine) -> Result<String, AllocError>
    ensures { IfOk result (λ text. string_bytes text ≡ handed_text mark.now line) }
{
    format!(in alloc; "{mark}{mark}pair: {line}{mark}")
}

//! The lines after the pair has booted: events and queries.
ghost use Rattle.std.specs.Prelude.{◌≡◌, [], true, IfOk, length, slice_get, string_bytes, unwrap_or};
ghost use Rattle.altair_pair.specs.Disks.{over_records};
ghost use Rattle.pair_shell.specs.Playing.{Plays};
ghost use Rattle.pair_shell.specs.Sessions.{IsHeeded, shown_at};
ghost use Rattle.pair_shell.specs.Hints.{early_row, full_row, is_early, is_full};
ghost use Rattle.pair_shell.specs.Looking.{left_out};
ghost use Rattle.shell_language.specs.Texts.{AddsSome, Prints};
ghost use Rattle.shell_language.specs.declared.printing.Printed.{Printed};
ghost use Rattle.shell_picture.specs.Pictures.{DrawsPicture};
ghost use Rattle.shell_picture.specs.Screens.{screen_rows};
ghost use Rattle.shell_language.specs.Tapes.{Begins, IsAnswered, Traces, trace_text};

use crate::asked::{keys_of, left};
use crate::play::{KEPT, play, play_one};
use crate::running::PausedDay;
use crate::showing::check;
use board_image::KeyRoom;
use clone_state::Copies;
use event_callbacks::PORTS;
use ft_world::World;
use pair_events::Event;
use sequence_diagram::Moment;
use shared_disk::Disk;
use shell_language::{Book, Played, Printed, Quoted, SessionSetup, ShellLine, Stretch};
use shell_picture::{EventQueue, print_last, print_picture, print_screen, print_sum};
use std::alloc::{AllocError, Global};

/// What was noted since the pair has booted: the book, the events of the last line, and all events with what was seen of them.
#[derive(Drop)]
pub struct Notes {
    pub book: Book,
    pub tape: Vec<Played>,
    pub past: Vec<Moment>,
    // A day that has paused.
    pub left: Option<PausedDay>,
    // How many bytes of each terminal were shown as text.
    shown: [usize; PORTS],
}

impl Notes {
    /// Nothing has happened yet.
    pub fn new(alloc: Global) -> Notes {
        Notes {
            book: Book::new(alloc),
            tape: Vec::new(alloc),
            past: Vec::new(alloc),
            left: None,
            shown: [0; PORTS],
        }
    }

    /// Does what a line says, other than one of the setup. The tape has the events that it made.
    pub fn take<B: Copies<H> + KeyRoom + Drop, H: Drop>(
        &mut self,
        alloc: Global,
        opening: &SessionSetup,
        world: &mut World<B, Disk, H>,
        line: ShellLine<'_>,
        printed: &mut Printed,
    ) -> Result<(), AllocError>
        requires { self.old.tape.items ≡ [] }
        ensures played { Plays B.state B.copied B.machine world.old self.new.tape.items world.new }
        ensures traced { IfOk result (λ _. printed.old.is_traced ≡ true → string_bytes printed.old.text ≡ []
            → Begins (trace_text self.new.tape.items) (string_bytes printed.new.text)) }
        ensures heeded { IfOk result (λ _. IsHeeded line.entry self.new.tape.items printed.old.is_traced
            (string_bytes printed.old.text) (string_bytes printed.new.text)) }
    {
        match line {
            ShellLine::Event(event) => self.happen(alloc, world, event, printed),
            ShellLine::Run(turns) => self.run(alloc, opening, world, turns, printed),
            ShellLine::TypeText { port, text } => {
                self.type_text(alloc, world, port, text, printed)
            }
            line => self.take_all(alloc, opening, world, line, printed),
        }
    }

    // Makes everything go that has not gone yet, if the line is one of those that ask for that.
    #[tactic(auto, using(crate::proofs::Playing::plays_nothing, crate::proofs::Tracing::begins_nothing))]
    fn take_all<B: Copies<H> + KeyRoom + Drop, H: Drop>(
        &mut self,
        alloc: Global,
        opening: &SessionSetup,
        world: &mut World<B, Disk, H>,
        line: ShellLine<'_>,
        printed: &mut Printed,
    ) -> Result<(), AllocError>
        requires { self.old.tape.items ≡ [] }
        ensures played { Plays B.state B.copied B.machine world.old self.new.tape.items world.new }
        ensures traced { IfOk result (λ _. printed.old.is_traced ≡ true → string_bytes printed.old.text ≡ []
            → Begins (trace_text self.new.tape.items) (string_bytes printed.new.text)) }
    {
        match line {
            ShellLine::SendAll { .. }
            | ShellLine::LogAll { .. }
            | ShellLine::SendPartAll { .. }
            | ShellLine::PartAll { .. }
            | ShellLine::ArriveAll => {
                let events = left(alloc, opening, &self.book, line)?;
                self.happen_all(alloc, world, events, printed)
            }
            line => self.show(alloc, opening, world, line, printed),
        }
    }

    // Shows what a line asks for that is not what the pair has, and makes nothing happen.
    fn show<B: Copies<H> + Drop, H: Drop>(
        &mut self,
        alloc: Global,
        opening: &SessionSetup,
        world: &mut World<B, Disk, H>,
        line: ShellLine<'_>,
        printed: &mut Printed,
    ) -> Result<(), AllocError>
        ensures unchanged { over_records world.new ≡ over_records world.old }
        ensures tape { self.new.tape ≡ self.old.tape }
    {
        match line {
            ShellLine::Last => print_last(&self.book, printed),
            ShellLine::Check => check(alloc, opening, world, printed),
            ShellLine::Picture(stretch) => self.show_picture(alloc, stretch, printed),
            _ => Ok(()),
        }
    }

    // A stretch of what has happened as a picture, and whether more has happened than is kept for one.
    fn show_picture(
        &self,
        alloc: Global,
        stretch: Option<Stretch>,
        printed: &mut Printed,
    ) -> Result<(), AllocError>
        ensures { IfOk result (λ _. (mid : Printed) × (DrawsPicture self.now.past.items stretch printed.old mid
            × Prints (full_row (is_full (length self.now.past.items))) mid printed.new)) }
    {
        print_picture(alloc, &self.past, stretch, printed)?;
        print_full(is_full(self.past.len()), printed)
    }

    // Types a text at a port.
    #[tactic(auto, using(crate::proofs::Playing::plays_nothing, crate::proofs::Tracing::begins_nothing))]
    fn type_text<B: Copies<H> + KeyRoom + Drop, H: Drop>(
        &mut self,
        alloc: Global,
        world: &mut World<B, Disk, H>,
        port: u8,
        text: Quoted<'_>,
        printed: &mut Printed,
    ) -> Result<(), AllocError>
        requires { self.old.tape.items ≡ [] }
        ensures played { Plays B.state B.copied B.machine world.old self.new.tape.items world.new }
        ensures traced { IfOk result (λ _. printed.old.is_traced ≡ true → string_bytes printed.old.text ≡ []
            → Begins (trace_text self.new.tape.items) (string_bytes printed.new.text)) }
    {
        let events = keys_of(alloc, port, text)?;
        self.happen_all(alloc, world, events, printed)?;
        print_early(is_early(port, &self.book), port, printed)
    }

    /// What a terminal has accepted; it was shown then.
    pub(crate) fn show_screen(
        &mut self,
        port: u8,
        is_new: bool,
        accepted: &[u8],
        printed: &mut Printed,
    ) -> Result<(), AllocError>
        ensures book { self.new.book ≡ self.old.book }
        ensures tape { self.new.tape ≡ self.old.tape }
        ensures past { self.new.past ≡ self.old.past }
        ensures shown { IfOk result (λ _. self.new.shown ≡ shown_at self.old.shown port (length accepted.now)) }
        ensures told { IfOk result (λ _. Prints (screen_rows port accepted.now (left_out self.old.shown port is_new))
            printed.old printed.new) }
    {
        print_screen(port, accepted, self.left_out(port, is_new), printed)?;
        match port {
            0 => self.shown[0] = accepted.len(),
            1 => self.shown[1] = accepted.len(),
            _ => {}
        }
        Ok(())
    }

    // How many bytes of a terminal are left out: those that were shown so far, if a line asks for what is new.
    fn left_out(&self, port: u8, is_new: bool) -> Option<usize>
        ensures { result ≡ left_out self.now.shown port is_new }
    {
        if is_new { Some(self.seen(port)) } else { None }
    }

    // How many bytes of a terminal were shown so far.
    fn seen(&self, port: u8) -> usize
        ensures { result ≡ unwrap_or (slice_get self.now.shown port) 0 }
    {
        self.shown.get(usize::from(port)).copied().unwrap_or(0)
    }

    // One event, answered as in a script.
    #[tactic(auto, using(crate::proofs::Tracing::begins_nothing, crate::proofs::Tracing::begins_answer, crate::proofs::Tracing::answered, crate::proofs::Tracing::answered_traced))]
    fn happen<B: Copies<H> + Drop, H: Drop>(
        &mut self,
        alloc: Global,
        world: &mut World<B, Disk, H>,
        event: Event,
        printed: &mut Printed,
    ) -> Result<(), AllocError>
        requires { self.old.tape.items ≡ [] }
        ensures played { Plays B.state B.copied B.machine world.old self.new.tape.items world.new }
        ensures answered { IfOk result (λ _. IsAnswered event self.new.tape.items printed.old.is_traced
            (string_bytes printed.old.text) (string_bytes printed.new.text)) }
    {
        let answer = play_one(
            alloc,
            world,
            &mut self.book,
            event,
            &mut self.tape,
            &mut self.past,
        )?;
        if printed.is_traced() {
            return printed.trace(&self.tape);
        }
        printed.line(&Played { event, answer }.said())
    }

    // Several events, answered together.
    #[tactic(auto, using(crate::proofs::Playing::plays_nothing, crate::proofs::Tracing::begins_nothing, crate::proofs::Tracing::begins_trace, crate::proofs::Tracing::begins_more))]
    fn happen_all<B: Copies<H> + KeyRoom + Drop, H: Drop>(
        &mut self,
        alloc: Global,
        world: &mut World<B, Disk, H>,
        events: Vec<Event>,
        printed: &mut Printed,
    ) -> Result<(), AllocError>
        requires { self.old.tape.items ≡ [] }
        ensures played { Plays B.state B.copied B.machine world.old self.new.tape.items world.new }
        ensures traced { IfOk result (λ _. printed.old.is_traced ≡ true → string_bytes printed.old.text ≡ []
            → Begins (trace_text self.new.tape.items) (string_bytes printed.new.text)) }
    {
        let mut plan = EventQueue::of(events);
        self.play(alloc, world, &mut plan, printed)?;
        print_sum(&self.tape, printed)
    }

    // Makes the events of a plan happen, and traces them. Whether the plan has come to its end.
    pub(crate) fn play<B: Copies<H> + KeyRoom + Drop, H: Drop>(
        &mut self,
        alloc: Global,
        world: &mut World<B, Disk, H>,
        plan: &mut EventQueue,
        printed: &mut Printed,
    ) -> Result<bool, AllocError>
        ensures played { Plays B.state B.copied B.machine world.old self.new.tape.items world.new }
        ensures traced { IfOk result (λ _. Traces printed.old.is_traced self.new.tape.items
            (string_bytes printed.old.text) (string_bytes printed.new.text)) }
    {
        let is_over = play(
            alloc,
            world,
            &mut self.book,
            plan,
            &mut self.tape,
            &mut self.past,
        )?;
        printed.trace(&self.tape)?;
        Ok(is_over)
    }
}

// Says that no more events are kept for pictures, if so many were.
#[tactic(auto, using(shell_language::proofs::Adding::prints_none, shell_language::proofs::Adding::prints_text))]
fn print_full(is_full: bool, printed: &mut Printed) -> Result<(), AllocError>
    ensures { IfOk result (λ _. Prints (full_row is_full) printed.old printed.new) }
{
    if is_full {
        printed.line(&format_args!(
            "  the first {KEPT} events are kept for pictures; later ones are in none"
        ))?;
    }
    Ok(())
}

// Whether as many events are kept as can be.
fn is_full(count: usize) -> bool
    ensures { result ≡ is_full count }
{
    count >= KEPT
}

// Says that keys may get lost, if they come too early.
#[tactic(auto, using(shell_language::proofs::Adding::adds_none, shell_language::proofs::Adding::prints_none, shell_language::proofs::Adding::prints_text))]
fn print_early(is_early: bool, port: u8, printed: &mut Printed) -> Result<(), AllocError>
    ensures some { IfOk result (λ _. AddsSome printed.old printed.new) }
    ensures told { IfOk result (λ _. Prints (early_row is_early port) printed.old printed.new) }
{
    if is_early {
        printed.line(&format_args!(
            "  the guest has not run yet: keys that it takes before it resets port {port} are lost"
        ))?;
    }
    Ok(())
}

// Whether the guest has not run so far, and so has not set up its port.
fn is_early(port: u8, book: &Book) -> bool
    ensures { result ≡ is_early port book.now.has_run }
{
    usize::from(port) < PORTS && !book.has_run
}

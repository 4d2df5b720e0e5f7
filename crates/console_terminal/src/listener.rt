//! The thread that hears what is typed.
ghost use Rattle.std.specs.Prelude.{◌≡◌, ◌++◌, ◌∷◌, ◌+◌, ◌<◌, ◌≤◌, [], IsTrue, None, Some};
ghost use Rattle.rtrb.specs.Ring.{SameProducer, known_free, sent};
ghost use Rattle.console_terminal.specs.Commands.{Grows};
ghost use Rattle.console_terminal.specs.Listening.{HasRoom, Listens, closed, ending_of, strokes_after};
ghost use Rattle.console_terminal.specs.Telling.{Answers, Says, changed, closing, lists, note_of, redraws};
ghost use Rattle.console_terminal.specs.Typing.{act_of, after, command_in, line_of, order_by, place_of, strokes_by};

use crate::Stroke;
use crate::command::{Command, Order};
use crate::desk::{Act, Desk, Done};
use crate::keys::{Heard, KeySource};
use crate::note::DisplayNote;
use crate::port::Port;
use crate::redraw::Redraw;
use crate::signs::Signs;
use rtrb::Producer;
use std::thread;
use std::time::{Clock, Duration};

/// What carries commands out.
pub trait Interpreter {
    ghost use Rattle.std.specs.Prelude.{◌∷◌, [], List};
    ghost use Rattle.std.specs.declared.option.Option.{Option};
    ghost use Rattle.console_terminal.specs.Commands.{Grows};
    ghost use Rattle.console_terminal.specs.declared.command.Command.{Command};

    // The commands that it was given, in order, if they are known.
    ghost given: { Self → Option (List Command) };

    /// Carries the command of a line out, and says what it answers, if anything; lines of an answer have CR LF between them.
    fn carry_out(&mut self, command: Command, line: &[u8]) -> Option<String>
        ensures { Grows (given self.old) (given self.new) (command ∷ []) };
}

/// Why no more is heard.
#[derive(Debug, Clone, Copy, PartialEq, Eq)]
pub enum Ending {
    Quit,
    Stopped,
    EndOfInput,
    /// Reading fails.
    Failed,
}

/// What hears: where keys come from and where they go, with what becomes of commands.
#[derive(Drop)]
pub struct Listener<S, I> {
    pub source: S,
    pub desk: Desk,
    /// The keyboard of port 0.
    pub first: Producer<Stroke>,
    /// The keyboard of port 1.
    pub second: Producer<Stroke>,
    /// What is said to the display. The ring needs places for three notes: a byte is heard only while there is room for the two that it
    /// may be worth and for the one that closes a command line at the end.
    pub notes: Producer<DisplayNote>,
    pub interpreter: I,
}

/// Hears keys, and hands them on through the rings until the console is to end. At the end of the source, if it fails, and when it is
/// told to quit, both keyboards are told that no key comes any more. A command line that is open at the end is closed, so the display catches up.
pub fn listen<C: Clock, S: KeySource + Drop, I: Interpreter + Drop>(
    clock: &C,
    mut listener: Listener<S, I>,
    signs: &Signs,
) -> (Listener<S, I>, Ending)
    requires { 3 ≤ known_free listener.notes }
    ensures { Listens S.left I.given (Some result.1) listener result.0 }
{
    let ending = hear_all(clock, &mut listener, signs);
    signs.hear_all();
    (listener, ending)
}

// Hears keys until the console is to end.
#[tactic(auto, using(crate::proofs::Hearing::none_yet, crate::proofs::Hearing::of_none, crate::proofs::Hearing::and_then))]
fn hear_all<C: Clock, S: KeySource + Drop, I: Interpreter + Drop>(
    clock: &C,
    listener: &mut Listener<S, I>,
    signs: &Signs,
) -> Ending
    requires { 0 < known_free listener.old.notes }
    ensures { Listens S.left I.given (Some result) listener.old listener.new }
{
    for _ in 0..u64::MAX {
        if signs.is_stopped() {
            break;
        }
        if !listener.has_room() {
            thread::sleep(clock, Duration::from_micros(100));
            continue;
        }
        let ending = listener.turn();
        if let Some(ending) = ending {
            return ending;
        }
    }
    listener.leave();
    Ending::Stopped
}

impl<S: KeySource, I: Interpreter> Listener<S, I> {
    // Whether each ring takes what one byte may send. It waits for both keyboards: a pair takes keys out of both at once, so neither
    // stays full while the other one is emptied.
    #[tactic(auto, using(crate::proofs::Hearing::none_yet))]
    fn has_room(&mut self) -> bool
        ensures same { Listens S.left I.given None self.old self.new }
        ensures room { IsTrue result → HasRoom self.new }
        ensures kept { known_free self.old.notes ≤ known_free self.new.notes }
    {
        let first = self.first.slots();
        let second = self.second.slots();
        let notes = self.notes.slots();
        first > 0 && second > 0 && notes > 2
    }

    // Hears a key, or that none came for a while, and does what that does.
    #[tactic(auto, using(crate::proofs::Hearing::of_none, crate::proofs::Hearing::of_heard))]
    fn turn(&mut self) -> Option<Ending>
        requires { HasRoom self.old }
        ensures heard { Listens S.left I.given result self.old self.new }
        ensures room { result ≡ None → 0 < known_free self.new.notes }
    {
        match self.source.hear() {
            Heard::Quiet => self.take(Heard::Quiet),
            Heard::Key(byte) => self.take(Heard::Key(byte)),
            Heard::End => {
                self.end();
                Some(Ending::EndOfInput)
            }
            Heard::Failed => {
                self.end();
                Some(Ending::Failed)
            }
        }
    }

    // Does what a byte does, or a pause.
    fn take(&mut self, heard: Heard) -> Option<Ending>
        requires { HasRoom self.old }
        ensures source { self.new.source ≡ self.old.source }
        ensures escape { self.new.desk.escape ≡ self.old.desk.escape }
        ensures place { place_of self.new.desk ≡ after self.old.desk.escape (place_of self.old.desk) heard }
        ensures first { sent self.new.first ≡ (sent self.old.first ++ strokes_by Port.Zero self.old.desk.port (act_of self.old.desk heard)) ++ strokes_after result }
        ensures second { sent self.new.second ≡ (sent self.old.second ++ strokes_by Port.One self.old.desk.port (act_of self.old.desk heard)) ++ strokes_after result }
        ensures commands { Grows (I.given self.old.interpreter) (I.given self.new.interpreter) (command_in (order_by (act_of self.old.desk heard) (line_of self.old.desk))) }
        ensures notes { Says self.old.desk.escape (place_of self.old.desk) heard (sent self.old.notes) (sent self.new.notes) }
        ensures ending { result ≡ ending_of (act_of self.old.desk heard) (order_by (act_of self.old.desk heard) (line_of self.old.desk)) }
        ensures rings { SameProducer self.old.first self.new.first × SameProducer self.old.second self.new.second × SameProducer self.old.notes self.new.notes }
        ensures room { 0 < known_free self.new.notes }
    {
        let port = self.desk.port;
        let was_open = self.desk.is_open();
        let Done { act, order, redraw } = self.desk.take(heard);
        let ending = send(&mut self.first, &mut self.second, port, act, order);
        obey(
            &mut self.interpreter,
            &mut self.notes,
            order,
            self.desk.line(),
        );
        tell(&mut self.notes, act, was_open, redraw, self.desk.port);
        ending
    }

    // Says to both keyboards that no key comes any more, and leaves.
    fn end(&mut self)
        requires { HasRoom self.old }
        ensures source { self.new.source ≡ self.old.source }
        ensures escape { self.new.desk.escape ≡ self.old.desk.escape }
        ensures place { place_of self.new.desk ≡ closed (place_of self.old.desk) }
        ensures first { sent self.new.first ≡ sent self.old.first ++ Stroke.End ∷ [] }
        ensures second { sent self.new.second ≡ sent self.old.second ++ Stroke.End ∷ [] }
        ensures interpreter { self.new.interpreter ≡ self.old.interpreter }
        ensures notes { sent self.new.notes ≡ sent self.old.notes ++ closing (place_of self.old.desk) }
        ensures rings { SameProducer self.old.first self.new.first × SameProducer self.old.second self.new.second × SameProducer self.old.notes self.new.notes }
    {
        end(&mut self.first, &mut self.second);
        self.leave();
    }

    // Closes the command line, if one is open, and says so.
    fn leave(&mut self)
        requires { 0 < known_free self.old.notes }
        ensures source { self.new.source ≡ self.old.source }
        ensures escape { self.new.desk.escape ≡ self.old.desk.escape }
        ensures place { place_of self.new.desk ≡ closed (place_of self.old.desk) }
        ensures keyboards { (self.new.first ≡ self.old.first) × (self.new.second ≡ self.old.second) }
        ensures interpreter { self.new.interpreter ≡ self.old.interpreter }
        ensures notes { sent self.new.notes ≡ sent self.old.notes ++ closing (place_of self.old.desk) }
        ensures ring { SameProducer self.old.notes self.new.notes }
    {
        if self.desk.is_open() {
            self.desk.close();
            self.notes
                .push_reserved(DisplayNote::Closed(self.desk.port));
        }
    }
}

// Hands a key on, if a byte is one; or says that none comes any more, if the console is to end.
fn send(
    first: &mut Producer<Stroke>,
    second: &mut Producer<Stroke>,
    port: Port,
    act: Act,
    order: Order,
) -> Option<Ending>
    requires { (0 < known_free first.old) × (0 < known_free second.old) }
    ensures rings { SameProducer first.old first.new × SameProducer second.old second.new }
    ensures first { sent first.new ≡ (sent first.old ++ strokes_by Port.Zero port act) ++ strokes_after result }
    ensures second { sent second.new ≡ (sent second.old ++ strokes_by Port.One port act) ++ strokes_after result }
    ensures ending { result ≡ ending_of act order }
{
    match act {
        Act::Key(_) => {
            press(first, second, port, act);
            None
        }
        _ => match order {
            Order::Command(Command::Quit) => {
                end(first, second);
                Some(Ending::Quit)
            }
            _ => None,
        },
    }
}

// Says to both keyboards that no key comes any more.
fn end(first: &mut Producer<Stroke>, second: &mut Producer<Stroke>)
    requires { (0 < known_free first.old) × (0 < known_free second.old) }
    ensures rings { SameProducer first.old first.new × SameProducer second.old second.new }
    ensures first { sent first.new ≡ sent first.old ++ Stroke.End ∷ [] }
    ensures second { sent second.new ≡ sent second.old ++ Stroke.End ∷ [] }
{
    first.push_reserved(Stroke::End);
    second.push_reserved(Stroke::End);
}

// Hands a key on, if a byte is one.
fn press(first: &mut Producer<Stroke>, second: &mut Producer<Stroke>, port: Port, act: Act)
    requires { (0 < known_free first.old) × (0 < known_free second.old) }
    ensures rings { SameProducer first.old first.new × SameProducer second.old second.new }
    ensures first { sent first.new ≡ sent first.old ++ strokes_by Port.Zero port act }
    ensures second { sent second.new ≡ sent second.old ++ strokes_by Port.One port act }
{
    match (act, port) {
        (Act::Key(byte), Port::Zero) => first.push_reserved(Stroke::Key(byte)),
        (Act::Key(byte), Port::One) => second.push_reserved(Stroke::Key(byte)),
        _ => {}
    }
}

// Gives the command of a line to the interpreter, and says what it answers.
fn obey<I: Interpreter>(
    interpreter: &mut I,
    notes: &mut Producer<DisplayNote>,
    order: Order,
    line: &[u8],
)
    requires { 0 < known_free notes.old }
    ensures given { Grows (I.given interpreter.old) (I.given interpreter.new) (command_in order) }
    ensures notes { Answers order (sent notes.old) (sent notes.new) }
    ensures ring { SameProducer notes.old notes.new }
    ensures room { known_free notes.old ≤ known_free notes.new + 1 }
{
    match order {
        Order::Nothing => {}
        Order::Mistake(mistake) => notes.push_reserved(DisplayNote::Mistaken(mistake)),
        Order::Command(command) => say(notes, interpreter.carry_out(command, line)),
    }
}

// Says what the interpreter answers, if anything.
fn say(notes: &mut Producer<DisplayNote>, answer: Option<String>)
    requires { 0 < known_free notes.old }
    ensures notes { sent notes.new ≡ sent notes.old ++ note_of answer }
    ensures ring { SameProducer notes.old notes.new }
    ensures room { known_free notes.old ≤ known_free notes.new + 1 }
{
    if let Some(text) = answer {
        notes.push_reserved(DisplayNote::Answered(text));
    }
}

// Says what a byte or a pause did to the command line.
fn tell(
    notes: &mut Producer<DisplayNote>,
    act: Act,
    was_open: bool,
    redraw: Option<Redraw>,
    port: Port,
)
    requires { 0 < known_free notes.old }
    ensures notes { sent notes.new ≡ sent notes.old ++ changed act was_open redraw port }
    ensures ring { SameProducer notes.old notes.new }
    ensures room { known_free notes.old ≤ known_free notes.new + 1 }
{
    match act {
        Act::Opens => notes.push_reserved(DisplayNote::Opened),
        Act::Edits(_) => show(notes, redraw),
        Act::Lists => list(notes, redraw),
        Act::Cancels | Act::HandsOn => notes.push_reserved(DisplayNote::Closed(port)),
        Act::Key(_) if was_open => notes.push_reserved(DisplayNote::Closed(port)),
        Act::Key(_) | Act::Waits(_) | Act::Nothing => {}
    }
}

// Says what is drawn of an edit, if anything.
fn show(notes: &mut Producer<DisplayNote>, redraw: Option<Redraw>)
    requires { 0 < known_free notes.old }
    ensures notes { sent notes.new ≡ sent notes.old ++ redraws redraw }
    ensures ring { SameProducer notes.old notes.new }
    ensures room { known_free notes.old ≤ known_free notes.new + 1 }
{
    if let Some(redraw) = redraw {
        notes.push_reserved(DisplayNote::Redraws(redraw));
    }
}

// Says what is listed, and drawn after that.
fn list(notes: &mut Producer<DisplayNote>, redraw: Option<Redraw>)
    requires { 0 < known_free notes.old }
    ensures notes { sent notes.new ≡ sent notes.old ++ lists redraw }
    ensures ring { SameProducer notes.old notes.new }
    ensures room { known_free notes.old ≤ known_free notes.new + 1 }
{
    if let Some(redraw) = redraw {
        notes.push_reserved(DisplayNote::Lists(redraw));
    }
}

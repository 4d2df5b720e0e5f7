//! The thread that hears what is typed, from its start to its end.
ghost use Rattle.std.specs.Prelude.{◌≡◌, ◌≤◌, ◌<◌, ◌∷◌, [], IfOk, IfSome, IsTrue};
ghost use Rattle.command_io.specs.Typed.{typed_by};
ghost use Rattle.command_console.specs.Hearing.{HasHeard, HasPressed, LinesType};
ghost use Rattle.rtrb.specs.Ring.{ProducerLooked, known_free};

use command_io::Failure;
use console_terminal::{Ending, Interpreter, KeySource, Listener, Signs, Stroke, listen};
use outside_switch::Quit;
use pair_events::Event;
use rtrb::Producer;
use script_language::Line;
use std::snapshot::Snapshot;
use std::sync::Arc;
use std::thread::{self, Promise, PromisedHandle, Threads};
use std::time::{Clock, Duration};

/// What hears, what a script types before that, and where it is told that the user wants all to end.
#[derive(Drop)]
pub(crate) struct Hearing<S, I> {
    pub(crate) listener: Listener<S, I>,
    pub(crate) lines: Vec<Line>,
    pub(crate) quits: Producer<Quit>,
}

/// What a thread that hears has done when it ends, unless it was stopped while it typed what a script types.
#[derive(Drop)]
pub(crate) struct Hears<S, I>(Snapshot<Hearing<S, I>>);

impl<S: KeySource, I: Interpreter> Promise<(Hearing<S, I>, Option<Ending>)> for Hears<S, I> {
    ghost kept_by = { λ promise result. IfSome result.1 (λ e. HasHeard S.left I.given e promise.0.value result.0) };
}

/// The thread that hears what is typed.
pub(crate) type HearingThread<S, I> = PromisedHandle<(Hearing<S, I>, Option<Ending>), Hears<S, I>>;

/// Starts the thread. `OutOfMemory` if there is none for it.
pub(crate) fn start_hearing<
    H: Threads + Clock + Copy + Drop + Send + Sync + 'static,
    S: KeySource + Drop + Send + 'static,
    I: Interpreter + Drop + Send + 'static,
>(rt: H, hearing: Hearing<S, I>, signs: Arc<Signs>) -> Result<HearingThread<S, I>, Failure>
    requires { 3 ≤ known_free hearing.listener.notes }
    ensures { IfOk result (λ thread. thread.promise.0.value ≡ hearing) }
{
    let promise = Hears(Snapshot::of(&hearing));
    let thread = thread::spawn_with(
        &rt,
        promise,
        move || -> (Hearing<S, I>, Option<Ending>)
            requires { 3 ≤ known_free hearing.listener.notes }
            ensures { IfSome result.1 (λ e. HasHeard S.left I.given e hearing result.0) }
        { hear(&rt, hearing, &signs) },
    );
    match thread {
        Ok(thread) => Ok(thread),
        Err(_) => Err(Failure::OutOfMemory),
    }
}

// Types what the script types, and hears keys until the console is to end; None if it was stopped before it has heard any.
fn hear<C: Clock, S: KeySource + Drop, I: Interpreter + Drop>(
    clock: &C,
    hearing: Hearing<S, I>,
    signs: &Signs,
) -> (Hearing<S, I>, Option<Ending>)
    requires { 3 ≤ known_free hearing.listener.notes }
    ensures { IfSome result.1 (λ e. HasHeard S.left I.given e hearing result.0) }
{
    let Hearing {
        mut listener,
        lines,
        mut quits,
    } = hearing;
    let is_typed = type_lines(
        clock,
        &mut listener.first,
        &mut listener.second,
        &lines,
        signs,
    );
    if !is_typed {
        let hearing = Hearing {
            listener,
            lines,
            quits,
        };
        return (hearing, None);
    }
    let (listener, ending) = listen(clock, listener, signs);
    tell_quit(&mut quits, ending);
    let hearing = Hearing {
        listener,
        lines,
        quits,
    };
    (hearing, Some(ending))
}

// Tells that the user wants all to end, if the console has ended by a command to quit.
fn tell_quit(quits: &mut Producer<Quit>, ending: Ending) {
    if matches!(ending, Ending::Quit) {
        let _ = quits.push(Quit).is_ok();
    }
}

// Types what some lines type, as there is room. Returns false if it was stopped.
fn type_lines<C: Clock>(
    clock: &C,
    first: &mut Producer<Stroke>,
    second: &mut Producer<Stroke>,
    lines: &[Line],
    signs: &Signs,
) -> bool
    ensures { IsTrue result → LinesType lines.now first.old second.old first.new second.new }
{
    let mut rest = lines;
    'lines: while let [line, after @ ..] = rest {
        if !type_line(clock, first, second, line, signs) {
            return false;
        }
        rest = after;
    }
    true
}

// Types what a line types, if it types anything.
fn type_line<C: Clock>(
    clock: &C,
    first: &mut Producer<Stroke>,
    second: &mut Producer<Stroke>,
    line: &Line,
    signs: &Signs,
) -> bool
    ensures { IsTrue result → LinesType (line.now ∷ []) first.old second.old first.new second.new }
{
    if !press(clock, first, typed_by(0, line), signs) {
        return false;
    }
    press(clock, second, typed_by(1, line), signs)
}

// The key that a line types at a port.
fn typed_by(port: u8, line: &Line) -> Option<u8>
    ensures { result ≡ typed_by port line.now }
{
    match line {
        Line::Event(Event::TypeByte { port: at, byte }) if *at == port => Some(*byte),
        _ => None,
    }
}

// Hands a key on, if there is one, once there is room. Returns false if it was stopped.
fn press<C: Clock>(clock: &C, ring: &mut Producer<Stroke>, key: Option<u8>, signs: &Signs) -> bool
    ensures { HasPressed key result ring.old ring.new }
{
    let Some(byte) = key else {
        return true;
    };
    if !has_room(clock, ring, signs) {
        return false;
    }
    ring.push_reserved(Stroke::Key(byte));
    true
}

// Waits until there is room for one more key. Returns false if it was stopped.
fn has_room<C: Clock>(clock: &C, ring: &mut Producer<Stroke>, signs: &Signs) -> bool
    ensures looked { ProducerLooked ring.old ring.new }
    ensures room { IsTrue result → 0 < known_free ring.new }
{
    for _ in 0..u64::MAX {
        if !ring.is_full() {
            return true;
        }
        if signs.is_stopped() {
            return false;
        }
        thread::sleep(clock, Duration::from_millis(1));
    }
    false
}

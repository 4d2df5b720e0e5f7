//! One sitting: the threads that hear and show, and the loop that serves the hosts between them.
ghost use Rattle.std.specs.Prelude.{◌≡◌, ◌≤◌, IfOk, OnOk};
ghost use Rattle.command_console.specs.Leaving.{HasLeft, HaveBegun, MayHear, MayLeave, WasHeard, WasHeardIf};
ghost use Rattle.command_console.specs.Rings.{ComesOutOf};
ghost use Rattle.command_console.specs.Sitting.{AreOpen, HasSat};
ghost use Rattle.console_terminal.specs.Lines.{came_by};
ghost use Rattle.pair_protocol.specs.Faithful.{IsPrefix};
ghost use Rattle.disk_file.specs.Drives.{all_records};
ghost use Rattle.rtrb.specs.Ring.{IsPair, SameConsumer, SameProducer, known_free, received, sent};

use crate::console::Streams;
use crate::hearing::{Hearing, HearingThread, start_hearing};
use crate::mirror::Mirrored;
use crate::showing::{Showing, finish, is_all, start_showing};
use crate::supervisor::Supervisor;
use crate::teller::Teller;
use crate::waking::WakingKeys;
use command_io::Failure;
use console_terminal::{
    Desk, Display, DisplayNote, Ending, Interpreter, KeySource, Keyboard, Listener, Port, Shown,
    Signs, Stroke, TerminalKeys,
};
use outside_switch::{HostsEnd, Quit, Session, SessionParts, run_hosts};
use rtrb::{Consumer, Producer};
use script_language::Line;
use shared_disk::SharedDisk;
use std::alloc::Global;
use std::io::{IsTerminal, Read, Write};
use std::sync::{Arc, Wait};
use std::thread::{Parker, Threads};
use std::time::Clock;

/// The ends of the rings that are not the session's own.
#[derive(Drop)]
pub(crate) struct Ends {
    /// Where the keys of port 0 go, and those of port 1.
    pub(crate) first: Producer<Stroke>,
    pub(crate) second: Producer<Stroke>,
    /// Where it is told that the user wants all to end.
    pub(crate) quits: Producer<Quit>,
    /// Where the bytes come from that the terminals have accepted.
    pub(crate) shown: Consumer<Shown>,
    /// Where notes on commands go, and where they come from.
    pub(crate) notes: (Producer<DisplayNote>, Consumer<DisplayNote>),
    /// Where lines about the hosts come from.
    pub(crate) lines: Consumer<String>,
}

/// What is heard and carried out, and how.
#[derive(Drop)]
pub(crate) struct Desktop {
    pub(crate) escape: u8,
    /// What the script types first.
    pub(crate) lines: Vec<Line>,
    pub(crate) supervisor: Supervisor,
    /// Wakes the loop that serves the hosts.
    pub(crate) wake: Arc<Parker>,
    pub(crate) signs: Arc<Signs>,
}

/// What a sitting leaves: why it has ended, the disk of then, and the streams that are written.
#[derive(Drop)]
pub(crate) struct Left<W, N> {
    pub(crate) end: HostsEnd,
    pub(crate) disk: SharedDisk<Mirrored>,
    pub(crate) writer: W,
    pub(crate) notes: N,
}

// The threads beside the loop.
struct Beside<S: KeySource, I: Interpreter, W: Write, N: Write> {
    hearing: HearingThread<S, I>,
    showing: Showing<W, N>,
}

/// Lets one sit at a pair until there is a reason to end.
pub(crate) fn sit<
    H: Threads + Wait + Clock + Copy + Drop + Send + Sync + 'static,
    R: Read + IsTerminal + Drop + Send + 'static,
    W: Write + Drop + Send + 'static,
    N: Write + Drop + Send + 'static,
>(
    rt: H,
    alloc: Global,
    mut session: Session<Mirrored, Teller>,
    ends: Ends,
    desktop: Desktop,
    streams: Streams<R, W, N>,
) -> Result<Left<W, N>, Failure>
    requires { AreOpen session ends }
    ensures { IfOk result (λ left. HasSat R.remaining W.contents N.contents desktop.escape desktop.lines.items session streams
        (all_records left.disk.store) left.end left.writer left.notes) }
{
    let wake = Arc::try_clone(&desktop.wake)?;
    let signs = Arc::try_clone(&desktop.signs)?;
    let beside = begin(rt, alloc, ends, desktop, streams)?;
    let end = run_hosts(&rt, alloc, &mut session, &wake);
    signs.stop();
    leave(rt, end, session.into_parts(), beside, &signs)
}

// Starts the threads beside the loop.
fn begin<
    H: Threads + Wait + Clock + Copy + Drop + Send + Sync + 'static,
    R: Read + IsTerminal + Drop + Send + 'static,
    W: Write + Drop + Send + 'static,
    N: Write + Drop + Send + 'static,
>(
    rt: H,
    alloc: Global,
    ends: Ends,
    desktop: Desktop,
    streams: Streams<R, W, N>,
) -> Result<Beside<WakingKeys<TerminalKeys<R>>, Supervisor, W, N>, Failure>
    requires { 3 ≤ known_free ends.notes.0 }
    ensures { IfOk result (λ beside. HaveBegun ends desktop streams beside) }
{
    let Streams {
        reader,
        writer,
        notes,
    } = streams;
    let Ends {
        first,
        second,
        quits,
        shown,
        notes: (notes_to, notes_from),
        lines: told,
    } = ends;
    let Desktop {
        escape,
        lines,
        supervisor,
        wake,
        signs,
    } = desktop;
    let listener = Listener {
        source: WakingKeys::new(TerminalKeys::new(reader), wake),
        desk: Desk::new(Port::Zero, escape),
        first,
        second,
        notes: notes_to,
        interpreter: supervisor,
    };
    let hearing = Hearing {
        listener,
        lines,
        quits,
    };
    let display = Display::new(alloc, writer, notes, Port::Zero, shown, notes_from, told);
    let hearing = start_hearing(rt, hearing, Arc::try_clone(&signs)?)?;
    let showing = start_showing(rt, display, signs)?;
    Ok(Beside { hearing, showing })
}

// Waits for the threads beside the loop. If no host is left, whoever hears may wait for a key, and is not waited for.
fn leave<
    H: Threads + Clock + Copy + Drop + Send + Sync + 'static,
    S: KeySource + Drop + Send + 'static,
    I: Interpreter + Drop + Send + 'static,
    W: Write + Drop + Send + 'static,
    N: Write + Drop + Send + 'static,
>(
    rt: H,
    end: HostsEnd,
    parts: SessionParts<Mirrored, Teller>,
    beside: Beside<S, I, W, N>,
    signs: &Signs,
) -> Result<Left<W, N>, Failure>
    requires { MayLeave parts beside }
    ensures { IfOk result (λ left. HasLeft S.left I.given W.contents N.contents end parts beside left) }
{
    let SessionParts {
        disk,
        keyboards,
        screen,
        quits: _quits,
        steward: _steward,
    } = parts;
    let Beside { hearing, showing } = beside;
    let finished = finish(screen);
    await_hearing(rt, end, hearing, keyboards, signs)?;
    signs.show_all();
    let (display, written) = showing.join(&rt);
    written?;
    let (writer, notes, shown) = display.into_parts();
    let Some(finished) = finished else {
        return Err(Failure::InputOrOutput);
    };
    if !is_all(finished, shown) {
        return Err(Failure::InputOrOutput);
    }
    Ok(Left {
        end,
        disk,
        writer,
        notes,
    })
}

// Waits for the thread that hears, unless no host is left: then it may wait for a key.
fn await_hearing<
    H: Threads + Clock + Copy + Drop + Send + Sync + 'static,
    S: KeySource + Drop + Send + 'static,
    I: Interpreter + Drop + Send + 'static,
>(
    rt: H,
    end: HostsEnd,
    hearing: HearingThread<S, I>,
    keyboards: (Keyboard, Keyboard),
    signs: &Signs,
) -> Result<(), Failure>
    requires { MayHear hearing.promise.0.value keyboards }
    ensures { OnOk result (WasHeardIf end S.left I.given hearing.promise.0.value keyboards) }
{
    match end {
        HostsEnd::NoHosts => {
            signs.hear_all();
            Ok(())
        }
        HostsEnd::Settled | HostsEnd::Silent => {
            let _ending = await_keys(rt, hearing, keyboards)?;
            Ok(())
        }
        HostsEnd::UserQuit => match await_keys(rt, hearing, keyboards)? {
            Ending::Quit => Ok(()),
            _ => Err(Failure::Stalled),
        },
        HostsEnd::Stopped => Err(Failure::InputOrOutput),
    }
}

// Waits for the thread that hears, which has ended or does so soon: the user has quit, or no more keys can come.
fn await_keys<
    H: Threads + Clock + Copy + Drop + Send + Sync + 'static,
    S: KeySource + Drop + Send + 'static,
    I: Interpreter + Drop + Send + 'static,
>(rt: H, hearing: HearingThread<S, I>, keyboards: (Keyboard, Keyboard)) -> Result<Ending, Failure>
    requires { MayHear hearing.promise.0.value keyboards }
    ensures { IfOk result (λ e. WasHeard S.left I.given e hearing.promise.0.value keyboards) }
{
    let (heard, ending) = hearing.join(&rt);
    let Some(ending) = ending else {
        return Err(Failure::Stalled);
    };
    let Hearing { listener, .. } = heard;
    let Listener { first, second, .. } = listener;
    let (keyboard0, keyboard1) = keyboards;
    compare_keys(first, keyboard0);
    compare_keys(second, keyboard1);
    Ok(ending)
}

// The keys that came from a keyboard are the first of those that were sent to it.
fn compare_keys(mut to: Producer<Stroke>, keyboard: Keyboard)
    requires { ComesOutOf to keyboard.ring }
    ensures { IsPrefix (came_by keyboard.ring) (sent to) }
{
    if let Some(mut from) = keyboard.into_ring() {
        compare(&mut to, &mut from);
    }
}

// What has come out of a ring is the first part of what went in.
fn compare<T: Drop>(to: &mut Producer<T>, from: &mut Consumer<T>)
    requires { IsPair to.old from.old }
    ensures front { IsPrefix (received from.old) (sent to.old) }
    ensures same { SameProducer to.old to.new × SameConsumer from.old from.new }
{
    let _ = from.slots_beside(to);
}

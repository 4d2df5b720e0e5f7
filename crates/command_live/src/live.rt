//! A pair on threads, from its boot to its end.
ghost use Rattle.std.specs.Prelude.{◌≡◌, ◌∷◌, [], ℕ, IfOk, List, Option, false, map, true};
ghost use Rattle.std.specs.Fmt.{WritesOnOk};
ghost use Rattle.event_callbacks.specs.declared.devices.TheConstants.{SENT, SECTOR, WRITTEN};
ghost use Rattle.event_callbacks.specs.Keeping.{Keeps};
ghost use Rattle.command_io.specs.Reports.{handed};
ghost use Rattle.command_io.specs.Typed.{typed_in};
ghost use Rattle.command_live.specs.Living.{HasEnded, PrintsNone, Tells, TellsScreens, end_text, failure_of, screens_text};
ghost use Rattle.pair_threads.specs.Ending.{WonBy};

use crate::beginning::{Asked, STEPS, workers_of};
use crate::text::TerminalText;
use altair_laws::altairs_are_lawful;
use command_io::{Failure, LineReport, ScriptInput, images_of};
use command_line::LiveOrder;
use event_callbacks::Completes;
use guest_board::Board;
use guest_lockstep::Lockstep;
use i8080_words::{Fault, R};
use pair_events::Answer;
use pair_threads::{Fate, GenerationEnd, OpenGate, Who, run_generation};
use shared_disk::MemoryStore;
use std::alloc::Global;
use std::fmt;
use std::io::Write;
use std::thread::Threads;
use std::time::Clock;

// What a pair on threads prints: what each terminal has accepted, and who goes on alone, if anybody asked to.
#[derive(Clone, Copy)]
struct EndText<'a> {
    as_text: bool,
    first: &'a [u8],
    second: &'a [u8],
    winner: Option<Who>,
}

impl fmt::Display for EndText<'_> {
    ghost use Rattle.std.specs.Prelude.{Some};
    ghost use Rattle.command_live.specs.Living.{end_text};

    ghost output = { λ end. Some (end_text end.as_text end.first.now end.second.now end.winner) };

    fn fmt<W: fmt::Write>(&self, f: &mut fmt::Formatter<W>) -> fmt::Result {
        write_screens(f, self.as_text, self.first, self.second)?;
        match self.winner {
            None => Ok(()),
            Some(Who::Primary) => write!(f, "\nwinner: primary"),
            Some(_) => write!(f, "\nwinner: backup"),
        }
    }
}

// What each of two terminals has accepted, as text or in hexadecimal.
fn write_screens<W: fmt::Write>(
    f: &mut fmt::Formatter<W>,
    as_text: bool,
    first: &[u8],
    second: &[u8],
) -> fmt::Result
    ensures { WritesOnOk W.write_str_gives f.old result (screens_text as_text first.now second.now) f.new }
{
    if as_text {
        write_text(f, first, second)
    } else {
        write_bytes(f, first, second)
    }
}

// What each of two terminals has accepted, as text.
fn write_text<W: fmt::Write>(f: &mut fmt::Formatter<W>, first: &[u8], second: &[u8]) -> fmt::Result
    ensures { WritesOnOk W.write_str_gives f.old result (screens_text true first.now second.now) f.new }
{
    let first = TerminalText {
        port: 0,
        bytes: first,
    };
    let second = TerminalText {
        port: 1,
        bytes: second,
    };
    write!(f, "{first}\n{second}")
}

// The same in hexadecimal.
fn write_bytes<W: fmt::Write>(f: &mut fmt::Formatter<W>, first: &[u8], second: &[u8]) -> fmt::Result
    ensures { WritesOnOk W.write_str_gives f.old result (screens_text false first.now second.now) f.new }
{
    let first = Answer::Accepted {
        port: 0,
        bytes: first,
    };
    let second = Answer::Accepted {
        port: 1,
        bytes: second,
    };
    write!(f, "{first}\n{second}")
}

/// Boots a pair whose completions are these closures, runs it on threads until it is at its end, and prints what its
/// terminals have accepted. Nothing is printed of a pair that stalls. What is returned are the images of the disks that
/// are saved; input or output has failed if one of them is not attached.
#[tactic(auto, using(crate::proofs::Living::tells_of))]
pub(crate) fn run<
    H: Threads + Clock + Sync,
    T: Completes + Drop + Copy + Send,
    S: Completes + Drop + Copy + Send,
    W: Completes + Drop + Copy + Send,
    O: Write + Drop,
>(
    rt: &H,
    alloc: Global,
    order: LiveOrder,
    input: &ScriptInput,
    report: &mut LineReport,
    writer: &mut O,
    sent: T,
    sector: S,
    written: W,
) -> Result<Vec<u8>, Failure>
    requires sent { Keeps (T.may sent) (T.gives sent) SENT }
    requires sector { Keeps (S.may sector) (S.gives sector) SECTOR }
    requires written { Keeps (W.may written) (W.gives written) WRITTEN }
    ensures told { Tells input.now.script.setup input.now.sectors.items (typed_in 0 input.now.script.lines.items)
        (typed_in 1 input.now.script.lines.items) order result
        (handed (O.contents writer.old) report.old) (handed (O.contents writer.new) report.new) }
{
    let asked = Asked {
        turns: order.turns,
        steps: STEPS,
        primary: order.primary_asks,
        backup: order.backup_asks,
    };
    match generation(rt, alloc, asked, order.link, input, sent, sector, written) {
        Ok(mut end) => tell(alloc, &mut end, order.text, &order.saved, report, writer),
        Err(fault) => Err(failure_of(fault)),
    }
}

// Why nothing is printed.
fn failure_of(fault: Fault) -> Failure
    ensures why { result ≡ failure_of fault }
    ensures none { (told : Option (List ℕ)) → PrintsNone result told told }
{
    match fault {
        Fault::Stalled => Failure::Stalled,
        Fault::Unknown => Failure::InputOrOutput,
        _ => Failure::OutOfMemory,
    }
}

// Prints what the terminals have accepted at the end of a generation, and returns the images of the disks that are saved.
#[tactic(auto, using(crate::proofs::Living::tells_screens))]
fn tell<B: Lockstep + Drop, O: Write + Drop>(
    alloc: Global,
    end: &mut GenerationEnd<B, MemoryStore>,
    as_text: bool,
    saved: &[u8],
    report: &mut LineReport,
    writer: &mut O,
) -> Result<Vec<u8>, Failure>
    ensures { TellsScreens as_text end.old.winner (map (λ v. v.items) end.old.accepted) end.old.disk saved.now result
        (handed (O.contents writer.old) report.old) (handed (O.contents writer.new) report.new) }
{
    let images = match images_of(alloc, &mut end.disk, saved) {
        Ok(images) => images,
        Err(fault) => return Err(failure_of(fault)),
    };
    let (first, second) = both(&end.accepted);
    let text = EndText {
        as_text,
        first,
        second,
        winner: end.winner,
    };
    report.line(writer, &text)?;
    Ok(images)
}

// What each of two terminals has accepted.
fn both(accepted: &[Vec<u8>; 2]) -> (&[u8], &[u8])
    ensures { map (λ v. v.items) accepted.now ≡ result.0.now ∷ result.1.now ∷ [] }
{
    let [first, second] = accepted;
    (first, second)
}

// The pair at its end.
#[tactic(auto, using(crate::proofs::Living::has_ended))]
fn generation<
    H: Threads + Clock + Sync,
    T: Completes + Drop + Copy + Send,
    S: Completes + Drop + Copy + Send,
    W: Completes + Drop + Copy + Send,
>(
    rt: &H,
    alloc: Global,
    asked: Asked,
    link: Vec<Fate>,
    input: &ScriptInput,
    sent: T,
    sector: S,
    written: W,
) -> R<GenerationEnd<Board<T, S, W>, MemoryStore>>
    requires sent { Keeps (T.may sent) (T.gives sent) SENT }
    requires sector { Keeps (S.may sector) (S.gives sector) SECTOR }
    requires written { Keeps (W.may written) (W.gives written) WRITTEN }
    ensures ended { IfOk result (λ end. HasEnded input.now.script.setup input.now.sectors.items
        input.now.script.lines.items end.winner (map (λ v. v.items) end.accepted) end.disk) }
    ensures won { IfOk result (λ end. WonBy asked.primary asked.backup end.winner) }
{
    altairs_are_lawful();
    let workers = workers_of(alloc, asked, link, input, sent, sector, written)?;
    run_generation(rt, alloc, workers, &OpenGate, asked.turns)
}

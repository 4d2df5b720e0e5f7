//! A console whose hosts are processes, from the files that come first to the disks that are saved.
ghost use Rattle.std.specs.Prelude.{◌≡◌, ◌⊎◌, ◌*◌, ◌++◌, ◌-◌, ◌^◌, IfErr, IfOk, OnOk, min, string_bytes};
ghost use Rattle.std.specs.Io.KnownBytes.{Appends};
ghost use Rattle.command_io.specs.declared.failure.Failure.TheVariants.{InputOrOutput, OutOfMemory};
ghost use Rattle.command_io.specs.Saving.{images_of};
ghost use Rattle.console_terminal.specs.Greeting.{greeting_of};
ghost use Rattle.command_console.specs.Console.{HasRun, HasServed, OpensFor};
ghost use Rattle.command_console.specs.Sitting.{AreOpen};
ghost use Rattle.disk_file.specs.Drives.{all_records};

use crate::files::{Files, attach, end_files};
use crate::mirror::Mirrored;
use crate::seats::Seats;
use crate::session::{Desktop, Ends, Left, sit};
use crate::store::mirrored_store;
use crate::supervisor::Supervisor;
use crate::teller::Teller;
use crate::{Pipes, add_places, read_opening};
use command_io::{Failure, Language, ScriptInput, read_input, save_disks};
use command_line::ConsoleOrder;
use console_terminal::{Keyboard, Screen, Signs, greeting};
use disk_file::{DriveFiles, FileDevice};
use i8080_words::R;
use outside_switch::{HostsEnd, PortEnd, Session};
use rtrb::RingBuffer;
use script_language::Script;
use shared_disk::SharedDisk;
use std::alloc::{AllocError, Global};
use std::io::{IsTerminal, Read, Write};
use std::sync::{Arc, Wait};
use std::thread::{Parker, Threads};
use std::time::Clock;

// How many keys, and how many bytes that a terminal has accepted, wait at most.
const BYTES: usize = 4_096;

// How many microseconds a second has.
const SECOND: u64 = 1_000_000;

// How many notes, and how many lines about the hosts, wait at most.
const LINES: usize = 1_024;

/// The streams of a console.
#[derive(Drop)]
pub struct Streams<R, W, N> {
    /// Files, and then keys.
    pub reader: R,
    /// The guest's bytes, and then the disks that are saved.
    pub writer: W,
    /// Notes on commands, and lines about the hosts.
    pub notes: N,
}

/// Opens the files that are disks, and an outside as the images and the script say that come first, and lets one sit at its pair: further bytes are keys or commands,
/// and what its terminals accept is written as it is accepted. Its hosts are at the ends of named pipes. It ends at the command `quit`, once
/// no more keys can come and the pair does nothing more, or if no host is left; then the disks that are saved are written, as they are then.
pub fn run_console<
    H: Threads + Wait + Clock + Copy + Drop + Send + Sync + 'static,
    R: Read + IsTerminal + Drop + Send + 'static,
    W: Write + Drop + Send + 'static,
    N: Write + Drop + Send + 'static,
>(
    rt: H,
    files: HostRuntime,
    alloc: Global,
    order: &ConsoleOrder,
    streams: Streams<R, W, N>,
) -> Result<HostsEnd, Failure>
    ensures { IfOk result (λ end. HasServed R.remaining W.contents N.contents order.now streams end) }
{
    let Streams {
        mut reader,
        writer,
        mut notes,
    } = streams;
    let opening = read_opening(alloc, order.before, &mut reader)?;
    let input = read_input(
        alloc,
        Language::Threads,
        &order.images,
        &mut opening.as_slice(),
    )?;
    let (booted, attached) = attach(alloc, &files, order, input)?;
    write_greeting(alloc, order.escape, &mut notes)?;
    let streams = Streams {
        reader,
        writer,
        notes,
    };
    run_input(
        rt,
        files,
        alloc,
        order,
        (booted, Arc::new(alloc, opening)?),
        attached,
        streams,
    )
}

// Says what this is, and which key opens a command line.
fn write_greeting<N: Write>(alloc: Global, escape: u8, notes: &mut N) -> Result<(), Failure>
    ensures greeted { OnOk result (Appends (N.contents notes.old) (N.contents notes.new) (greeting_of escape)) }
    ensures failed { IfErr result (λ failure. (failure ≡ OutOfMemory) ⊎ (failure ≡ InputOrOutput)) }
{
    let text = greeting(alloc, escape)?;
    notes.write_all(text.as_bytes())?;
    Ok(())
}

// Lets one sit at the pair of an input, which its hosts are given as it came, ends the files that are disks, and writes the disks that
// are saved.
fn run_input<
    H: Threads + Wait + Clock + Copy + Drop + Send + Sync + 'static,
    R: Read + IsTerminal + Drop + Send + 'static,
    W: Write + Drop + Send + 'static,
    N: Write + Drop + Send + 'static,
>(
    rt: H,
    files: HostRuntime,
    alloc: Global,
    order: &ConsoleOrder,
    opening: (ScriptInput, Arc<Vec<u8>>),
    attached: Files,
    streams: Streams<R, W, N>,
) -> Result<HostsEnd, Failure>
    ensures { IfOk result (λ end. HasRun R.remaining W.contents N.contents order.now opening.0 streams end) }
{
    let (input, bytes) = opening;
    let Files { drives, paddings } = attached;
    let prepared = prepare(alloc, order, &input, drives)?;
    let Prepared {
        mut session,
        ends,
        supervisor,
        signs,
    } = prepared;
    let ScriptInput { script, .. } = input;
    let Script { lines, .. } = script;
    let wake = Arc::new(alloc, Parker::new())?;
    let pipes = Pipes {
        files,
        folder: order.folder.as_str(),
        opening: &bytes,
    };
    add_places(rt, alloc, &pipes, order.places, &wake, &mut session)?;
    let desktop = Desktop {
        escape: order.escape,
        lines,
        supervisor,
        wake,
        signs,
    };
    let left = sit(rt, alloc, session, ends, desktop, streams)?;
    let Left {
        end,
        disk,
        mut writer,
        mut notes,
    } = left;
    end_disks(
        alloc,
        &files,
        order,
        disk,
        paddings,
        &mut writer,
        &mut notes,
    )?;
    Ok(end)
}

// Writes the disks that an order wants saved, and ends the files that are disks, whether these are written or not.
fn end_disks<W: Write + Drop, N: Write + Drop>(
    alloc: Global,
    files: &HostRuntime,
    order: &ConsoleOrder,
    disk: SharedDisk<Mirrored>,
    paddings: Vec<Vec<u8>>,
    writer: &mut W,
    notes: &mut N,
) -> Result<(), Failure>
    ensures { OnOk result (Appends (W.contents writer.old) (W.contents writer.new)
        (string_bytes order.now.mark ++ images_of (all_records disk.store) order.now.saved.items)) }
{
    let saved = save_ordered(alloc, order, disk, writer);
    end_files(alloc, files, order, paddings, notes)?;
    saved
}

// Writes the disks that an order wants saved, and lets the disk go.
fn save_ordered<W: Write + Drop>(
    alloc: Global,
    order: &ConsoleOrder,
    disk: SharedDisk<Mirrored>,
    writer: &mut W,
) -> Result<(), Failure>
    ensures { OnOk result (Appends (W.contents writer.old) (W.contents writer.new)
        (string_bytes order.now.mark ++ images_of (all_records disk.store) order.now.saved.items)) }
{
    save_disks(alloc, disk, &order.saved, order.mark.as_bytes(), writer)
}

/// What a console begins with.
#[derive(Drop)]
struct Prepared {
    session: Session<Mirrored, Teller>,
    ends: Ends,
    supervisor: Supervisor,
    signs: Arc<Signs>,
}

// The outside of an input, with no place for a host yet.
fn prepare(
    alloc: Global,
    order: &ConsoleOrder,
    input: &ScriptInput,
    drives: DriveFiles<FileDevice>,
) -> R<Prepared>
    ensures opens { IfOk result (λ p. OpensFor input.now p.session) }
    ensures open { IfOk result (λ p. AreOpen p.session p.ends) }
    ensures silence { IfOk result (λ p. p.session.silence ≡ min (order.now.silence * 1_000_000) (2 ^ 64 - 1)) }
{
    let (store, shelf) = mirrored_store(alloc, input, drives)?;
    let seats = Arc::new(alloc, Seats::new(alloc))?;
    let signs = Arc::new(alloc, Signs::new())?;
    let (first, keys0) = RingBuffer::new(alloc, BYTES)?;
    let (second, keys1) = RingBuffer::new(alloc, BYTES)?;
    let (screen, shown) = RingBuffer::new(alloc, BYTES)?;
    let (quits, quits_from) = RingBuffer::new(alloc, 1)?;
    let notes = RingBuffer::new(alloc, LINES)?;
    let (lines_to, lines) = RingBuffer::new(alloc, LINES)?;
    let teller = Teller::new(
        alloc,
        Arc::try_clone(&seats)?,
        Arc::try_clone(&signs)?,
        lines_to,
        mark_of_lines(alloc, order)?,
    );
    let supervisor = Supervisor::new(alloc, seats, shelf, order.mark.clone()?);
    let session = Session::new(
        alloc,
        store,
        PortEnd::new(Keyboard::of(keys0)),
        PortEnd::new(Keyboard::of(keys1)),
        Screen::of(screen),
        quits_from,
        teller,
        order.silence.saturating_mul(SECOND),
    )?;
    let ends = Ends {
        first,
        second,
        quits,
        shown,
        notes,
        lines,
    };
    Ok(Prepared {
        session,
        ends,
        supervisor,
        signs,
    })
}

// The mark between which lines about the hosts are handed over, if they are.
fn mark_of_lines(alloc: Global, order: &ConsoleOrder) -> Result<String, AllocError> {
    let mark = order.mark.clone()?;
    Ok(if order.apart {
        mark
    } else {
        String::new(alloc)
    })
}

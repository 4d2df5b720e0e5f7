//! One host in a process: what it boots with and then frames come on one stream, and frames go on another.
ghost use Rattle.std.specs.Io.Buffered.{writer_buffer, writer_inner};
ghost use Rattle.std.specs.Prelude.{◌≡◌, [], IfOk, IfSome, IsSome};
ghost use Rattle.command_console.specs.Serving.{HasServed};
ghost use Rattle.event_callbacks.specs.Keeping.{Keeps};
ghost use Rattle.event_callbacks.specs.declared.devices.TheConstants.{SECTOR, SENT, WRITTEN};
ghost use Rattle.host_frames.specs.StreamReading.{contents_of};
ghost use Rattle.host_frames.specs.Threads.{HasHeard, ReadsInto};
ghost use Rattle.host_node.specs.declared.pace.End.TheVariants as of_end;
ghost use Rattle.rtrb.specs.Ring.{received};

use crate::booting::{Booted, board_of, host_of};
use crate::opening::read_opening;
use board_image::{KeyRoom, OutstandingWrites, Snapshots};
use clone_state::Copies;
use command_io::{Failure, Language, read_input};
use command_line::{HostOrder, HostRole};
use event_callbacks::{Callbacks, Completes, plain_completions};
use guest_board::Setup;
use host_frames::{
    ReadStream, Reading, WrittenStream, end_reading, end_writing, start_reading, start_writing,
};
use host_node::{End, Inspect, Mail, Settings, serve};
use i8080_words::{Fault, R};
use rtrb::Consumer;
use std::alloc::Global;
use std::io::{BufWriter, Read, Write};
use std::sync::{Arc, Wait};
use std::thread::{Parker, Threads};
use std::time::Clock;

// How many moves its node makes in one turn at most.
const STEPS: u64 = 20_000;

// How often it says that it is there, in microseconds.
const BEAT: u64 = 100_000;

// How many frames wait on a ring at most.
const FRAMES: usize = 1_024;

/// How a host has ended, and its streams then.
#[derive(Drop)]
pub struct Served<I, O> {
    /// Why its loop has ended.
    pub end: End,
    /// The stream of frames to it, if that has ended; none if the host has ended before, as more may come then.
    pub heard: Option<ReadStream<I>>,
    /// The stream of frames from it, to which all that it said is written, unless that says why not.
    pub said: WrittenStream<O>,
}

/// Runs a host until there is a reason to end, which is returned: its stream of frames ends, for one. What it wrote is then
/// whole frames, unless the stream failed.
pub fn run_host<
    H: Threads + Wait + Clock + Copy + Drop + Send + Sync + 'static,
    R: Read + Drop + Send + 'static,
    W: Write + Drop + Send + 'static,
>(rt: H, alloc: Global, order: &HostOrder, mut reader: R, writer: W) -> Result<End, Failure> {
    let opening = read_opening(alloc, order.before, &mut reader)?;
    let input = read_input(
        alloc,
        Language::Threads,
        &order.images,
        &mut opening.as_slice(),
    )?;
    let writer = buffered(alloc, writer)?;
    let served = run_setup(
        rt,
        alloc,
        order,
        &input.script.setup.guest,
        (reader, writer),
        plain_completions::sent,
        plain_completions::sector,
        plain_completions::written,
    )?;
    Ok(served.end)
}

/// The stream, but that several frames are written to it at once.
pub(crate) fn buffered<W: Write + Drop>(alloc: Global, writer: W) -> R<BufWriter<W>>
    ensures { IfOk result (λ stream. (writer_inner stream ≡ writer) × (writer_buffer stream ≡ [])) }
{
    match BufWriter::new(alloc, writer) {
        Ok(writer) => Ok(writer),
        Err(_) => Err(Fault::OutOfMemory),
    }
}

// Runs a host whose pair has the machine of this setup.
fn run_setup<
    H: Threads + Wait + Clock + Copy + Drop + Send + Sync + 'static,
    I: Read + Drop + Send + 'static,
    O: Write + Drop + Send + 'static,
    T: Completes + Drop,
    S: Completes + Drop,
    W: Completes + Drop,
>(
    rt: H,
    alloc: Global,
    order: &HostOrder,
    setup: &Setup,
    streams: (I, O),
    sent: T,
    sector: S,
    written: W,
) -> R<Served<I, O>>
    requires sent { Keeps (T.may sent) (T.gives sent) SENT }
    requires sector { Keeps (S.may sector) (S.gives sector) SECTOR }
    requires written { Keeps (W.may written) (W.gives written) WRITTEN }
{
    let callbacks = Callbacks::of(sent, sector, written);
    let booted = match order.role {
        HostRole::Primary => Booted::Primary(board_of(alloc, setup, callbacks)?),
        HostRole::Backup => Booted::Backup(board_of(alloc, setup, callbacks)?),
        HostRole::Spare => Booted::Spare(callbacks),
    };
    run_booted(rt, alloc, settings(order), setup.drives, booted, streams)
}

/// Runs a host that boots with this, over a stream of frames to it and one from it, until there is a reason to end, and then until
/// all that it said is written. If it ends before the stream to it does, nobody waits for that: then nothing is said of what was
/// read.
pub fn run_booted<
    B: Copies<K> + KeyRoom + OutstandingWrites + Snapshots + Inspect + Drop,
    K: Drop,
    H: Threads + Wait + Clock + Copy + Drop + Send + Sync + 'static,
    I: Read + Drop + Send + 'static,
    O: Write + Drop + Send + 'static,
>(
    rt: H,
    alloc: Global,
    settings: Settings,
    drives: u8,
    booted: Booted<B, K>,
    streams: (I, O),
) -> R<Served<I, O>>
    ensures { IfOk result (HasServed B.state B.machine B.copied I.remaining O.contents drives booted streams) }
{
    let (reader, writer) = streams;
    let mine = Arc::new(alloc, Parker::new())?;
    let (bodies, reading) = start_reading(rt, alloc, FRAMES, reader, &mine)?;
    let (frames, wake, writing) = start_writing(rt, alloc, FRAMES, writer)?;
    let mail = Mail::new(alloc, bodies, frames, wake)?;
    let host = host_of(alloc, drives, booted, mail)?;
    let (host, end) = serve(&rt, host, settings, &mine);
    let mail = host.into_mail();
    let (bodies, frames) = mail.into_rings();
    let said = end_writing(rt, writing, frames);
    let heard = heard_of(rt, end, reading, bodies);
    Ok(Served { end, heard, said })
}

// The stream to a host whose loop has ended so, once that stream has ended too. None if more may come on it: nobody waits for that.
fn heard_of<
    H: Threads + Wait + Clock + Copy + Drop + Send + Sync + 'static,
    I: Read + Drop + Send + 'static,
>(rt: H, end: End, reading: Reading<I>, bodies: Consumer<Vec<u8>>) -> Option<ReadStream<I>>
    requires { ReadsInto reading.promise.reader.value.source bodies reading.promise.reader.value }
    ensures waits { end ≡ of_end.Closed → IsSome result }
    ensures heard { IfSome result (HasHeard I.remaining reading.promise.reader.value.source (contents_of (received bodies))) }
{
    match end {
        End::Closed => Some(end_reading(rt, reading, bodies)),
        _ => None,
    }
}

// How its loop goes.
fn settings(order: &HostOrder) -> Settings {
    Settings {
        steps: STEPS,
        patience: order.patience.saturating_mul(1_000),
        beat: BEAT,
    }
}

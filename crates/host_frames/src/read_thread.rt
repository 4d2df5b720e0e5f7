//! The thread that reads a stream of frames, from its start to its end: then what was taken out of its ring is what it has read.
ghost use Rattle.std.specs.Prelude.{◌≡◌, [], IfOk};
ghost use Rattle.host_frames.specs.StreamReading.{contents_of};
ghost use Rattle.host_frames.specs.Rings.{Leaves};
ghost use Rattle.host_frames.specs.Threads.{HasHeard, HasRead, ReadsInto};
ghost use Rattle.rtrb.specs.Ring.{IsFinishedOf, received};

use crate::FrameBuffer;
use crate::carried::CarriedBlocks;
use crate::failures::{Deserted, finish};
use crate::reader::{FrameReader, StreamEnd, read_frames};
use i8080_words::{Fault, R};
use rtrb::{Consumer, Finished, RingBuffer};
use std::alloc::Global;
use std::io::Read;
use std::snapshot::Snapshot;
use std::sync::{Arc, Wait};
use std::thread::{self, Parker, Promise, PromisedHandle, Threads};
use std::time::Clock;

/// What a reading thread gives at its end: its stream, why it reads no more, and its end of the ring, unless the other end had
/// left that before.
#[derive(Drop)]
pub struct ReadEnd<S> {
    source: S,
    end: StreamEnd,
    finished: Result<Finished<Vec<u8>>, Deserted>,
}

/// What the thread of a reader has read was handed on.
#[derive(Drop)]
pub struct ReadsAll<S> {
    pub reader: Snapshot<FrameReader<S>>,
}

impl<S: Read> Promise<ReadEnd<S>> for ReadsAll<S> {
    ghost kept_by = { λ promise result. HasRead S.remaining promise.reader.value result };
}

/// A thread that reads frames.
pub type Reading<S> = PromisedHandle<ReadEnd<S>, ReadsAll<S>>;

/// Starts a thread that reads frames from a stream, and returns the ring through which their bodies come, so many at a time. The
/// thread wakes whoever waits for them. It leaves its end of the ring when the stream has ended.
#[tactic(auto, using(crate::proofs::Threads::reads_into))]
pub fn start_reading<
    H: Threads + Wait + Clock + Copy + Drop + Send + Sync + 'static,
    S: Read + Drop + Send + 'static,
>(
    rt: H,
    alloc: Global,
    capacity: usize,
    source: S,
    wake: &Arc<Parker>,
) -> R<(Consumer<Vec<u8>>, Reading<S>)>
    ensures reads { IfOk result (λ started. ReadsInto source started.0 started.1.promise.reader.value) }
    ensures none { IfOk result (λ started. received started.0 ≡ []) }
{
    let (bodies, from) = RingBuffer::new(alloc, capacity)?;
    let wake = Arc::try_clone(wake)?;
    let pending = FrameBuffer::new(alloc)?;
    let reader = FrameReader {
        source,
        pending,
        carried: CarriedBlocks::new(alloc),
        bodies,
    };
    let reading = spawn_reader(rt, alloc, reader, wake)?;
    Ok((from, reading))
}

// Starts the thread of a reader.
fn spawn_reader<
    H: Threads + Wait + Clock + Copy + Drop + Send + Sync + 'static,
    S: Read + Drop + Send + 'static,
>(rt: H, alloc: Global, reader: FrameReader<S>, wake: Arc<Parker>) -> R<Reading<S>>
    ensures { IfOk result (λ reading. reading.promise.reader.value ≡ reader) }
{
    let promise = ReadsAll {
        reader: Snapshot::of(&reader),
    };
    match thread::spawn_with(&rt, promise, move || read_to_end(&rt, alloc, reader, &wake)) {
        Ok(reading) => Ok(reading),
        Err(_) => Err(Fault::OutOfMemory),
    }
}

/// A stream that has ended for this reason, and how many bodies that its thread has handed on were not taken out of the ring.
#[derive(Drop)]
pub struct ReadStream<S> {
    pub source: S,
    pub end: StreamEnd,
    pub left: Result<usize, Deserted>,
}

/// Waits until a stream has ended, and returns it.
#[tactic(auto, using(crate::proofs::Threads::is_finished))]
pub fn end_reading<
    H: Threads + Wait + Clock + Copy + Drop + Send + Sync + 'static,
    S: Read + Drop + Send + 'static,
>(rt: H, reading: Reading<S>, bodies: Consumer<Vec<u8>>) -> ReadStream<S>
    requires { ReadsInto reading.promise.reader.value.source bodies reading.promise.reader.value }
    ensures { HasHeard S.remaining reading.promise.reader.value.source (contents_of (received bodies)) result }
{
    let read = reading.join(&rt);
    let ReadEnd {
        source,
        end,
        finished,
    } = read;
    match finished {
        Ok(finished) => {
            let count = left_in(finished, bodies);
            ReadStream {
                source,
                end,
                left: Ok(count),
            }
        }
        Err(deserted) => ReadStream {
            source,
            end,
            left: Err(deserted),
        },
    }
}

// Reads frames until there is a reason to end, and then leaves the ring.
fn read_to_end<C: Wait + Clock, S: Read + Drop>(
    rt: &C,
    alloc: Global,
    reader: FrameReader<S>,
    wake: &Parker,
) -> ReadEnd<S>
    ensures { HasRead S.remaining reader result }
{
    let (reader, end) = read_frames(rt, alloc, reader, wake);
    let FrameReader { source, bodies, .. } = reader;
    let finished = finish(bodies);
    wake.unpark();
    ReadEnd {
        source,
        end,
        finished,
    }
}

// How many items are left in a ring, into which nothing more is put.
fn left_in(mut finished: Finished<Vec<u8>>, mut from: Consumer<Vec<u8>>) -> usize
    requires { IsFinishedOf finished from }
    ensures { Leaves finished from result }
{
    from.slots_after(&mut finished)
}

//! The thread that writes a stream of frames, from its start to its end: then all that went into its ring is written.
ghost use Rattle.std.specs.Prelude.{◌≡◌, [], Ok, IfOk, IsOk, OnOk};
ghost use Rattle.host_frames.specs.StreamReading.{contents_of};
ghost use Rattle.host_frames.specs.Threads.{HasWritten, IsWritten, WritesFrom};
ghost use Rattle.host_frames.specs.Writing.{WritesRest};
ghost use Rattle.rtrb.specs.Ring.{Finishes, IsFinishedOf, sent};

use crate::carried::CarriedBlocks;
use crate::failures::{Deserted, Unwritten, WriteFailed, finish};
use crate::writer::{FrameWriter, write_frames};
use i8080_words::{Fault, R};
use rtrb::{Finished, Producer, RingBuffer};
use std::alloc::Global;
use std::io::Write;
use std::snapshot::Snapshot;
use std::sync::{Arc, Wait};
use std::thread::{self, Parker, Promise, PromisedHandle, Threads};
use std::time::Clock;

/// What came to the thread of a writer was written, if no write fails.
#[derive(Drop)]
pub struct WritesAll<W> {
    pub writer: Snapshot<FrameWriter<W>>,
}

impl<W: Write> Promise<(FrameWriter<W>, Result<(), WriteFailed>)> for WritesAll<W> {
    ghost kept_by = { λ promise result. OnOk result.1 (HasWritten W.contents promise.writer.value result.0) };
}

/// A thread that writes frames.
pub type Writing<W> = PromisedHandle<(FrameWriter<W>, Result<(), WriteFailed>), WritesAll<W>>;

/// Starts a thread that writes frames to a stream, and returns the ring that leads to it, with room for so many, and the parker at
/// which it rests. It ends when nobody puts anything into its ring any more and all that came through it is written, or when a
/// write fails.
#[tactic(auto, using(crate::proofs::Threads::writes_from))]
pub fn start_writing<
    H: Threads + Wait + Clock + Copy + Drop + Send + Sync + 'static,
    W: Write + Drop + Send + 'static,
>(rt: H, alloc: Global, capacity: usize, sink: W) -> R<(Producer<Vec<u8>>, Arc<Parker>, Writing<W>)>
    ensures writes { IfOk result (λ started. WritesFrom sink started.0 started.2.promise.writer.value) }
    ensures none { IfOk result (λ started. sent started.0 ≡ []) }
{
    let (to, frames) = RingBuffer::new(alloc, capacity)?;
    let wake = Arc::new(alloc, Parker::new())?;
    let theirs = Arc::try_clone(&wake)?;
    let writer = FrameWriter {
        sink,
        carried: CarriedBlocks::new(alloc),
        frames,
    };
    let writing = spawn_writer(rt, writer, theirs)?;
    Ok((to, wake, writing))
}

// Starts the thread of a writer.
fn spawn_writer<
    H: Threads + Wait + Clock + Copy + Drop + Send + Sync + 'static,
    W: Write + Drop + Send + 'static,
>(rt: H, writer: FrameWriter<W>, wake: Arc<Parker>) -> R<Writing<W>>
    ensures { IfOk result (λ writing. writing.promise.writer.value ≡ writer) }
{
    let promise = WritesAll {
        writer: Snapshot::of(&writer),
    };
    match thread::spawn_with(&rt, promise, move || write_frames(&rt, writer, &wake)) {
        Ok(writing) => Ok(writing),
        Err(_) => Err(Fault::OutOfMemory),
    }
}

/// A stream to which all frames are written; if they are not, this is why.
#[derive(Drop)]
pub struct WrittenStream<W> {
    pub sink: W,
    pub end: Result<(), Unwritten>,
}

/// Puts nothing more into the ring, waits until its thread has ended, writes what that has left in the ring, and returns the
/// stream. A write or a flush may have failed then, before all is written.
pub fn end_writing<
    H: Threads + Wait + Clock + Copy + Drop + Send + Sync + 'static,
    W: Write + Drop + Send + 'static,
>(rt: H, writing: Writing<W>, frames: Producer<Vec<u8>>) -> WrittenStream<W>
    requires { WritesFrom writing.promise.writer.value.sink frames writing.promise.writer.value }
    ensures { IsWritten W.contents writing.promise.writer.value.sink (contents_of (sent frames)) result }
{
    let finished = finish(frames);
    let (writer, written) = writing.join(&rt);
    match left_after(written, finished) {
        Ok(left) => write_left(writer, left),
        Err(why) => {
            let FrameWriter { sink, .. } = writer;
            WrittenStream {
                sink,
                end: Err(why),
            }
        }
    }
}

// The ring that a thread has left after it had written what it took out, unless either has failed.
fn left_after(
    written: Result<(), WriteFailed>,
    finished: Result<Finished<Vec<u8>>, Deserted>,
) -> Result<Finished<Vec<u8>>, Unwritten>
    ensures written { OnOk result (IsOk written) }
    ensures left { IfOk result (λ left. finished ≡ Ok left) }
{
    match written {
        Ok(()) => match finished {
            Ok(finished) => Ok(finished),
            Err(deserted) => Err(Unwritten::Deserted(deserted)),
        },
        Err(failed) => Err(Unwritten::Failed(failed)),
    }
}

// Writes the frames that are left in the ring of a writer, and returns its stream.
fn write_left<W: Write + Drop>(
    mut writer: FrameWriter<W>,
    finished: Finished<Vec<u8>>,
) -> WrittenStream<W>
    requires { IsFinishedOf finished writer.frames }
    ensures { WritesRest W.contents writer finished result }
{
    let written = writer.write_rest(finished);
    let FrameWriter { sink, .. } = writer;
    match written {
        Ok(()) => WrittenStream { sink, end: Ok(()) },
        Err(failed) => WrittenStream {
            sink,
            end: Err(Unwritten::Failed(failed)),
        },
    }
}

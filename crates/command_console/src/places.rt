//! The places of hosts at the outside: two named pipes for each, opened by the threads that read and write them.
ghost use Rattle.command_console.specs.Places.{AddsPlaces};

use crate::host::buffered;
use host_frames::{
    CarriedBlocks, FrameBuffer, FrameReader, FrameWriter, read_frames, write_frames,
};
use i8080_words::{Fault, R};
use outside_switch::{Session, Steward};
use rtrb::{Consumer, Producer, RingBuffer};
use shared_disk::SectorStore;
use std::alloc::Global;
use std::fs::{File, OpenOptions};
use std::io::Write;
use std::sync::{Arc, Wait};
use std::thread::{self, Parker, Threads};
use std::time::{Clock, Duration};

// How many frames of one host wait at most: more than are on their way at once, which are 256 entries, all parts of an image, and 64 keys
// of each port.
const FRAMES: usize = 1_024;

/// The named pipes of all places: their folder, and what each host is given before its first frame.
#[derive(Drop)]
pub struct Pipes<'a> {
    pub files: HostRuntime,
    pub folder: &'a str,
    pub opening: &'a Arc<Vec<u8>>,
}

/// Adds places for hosts, so many, to a session. Whoever reads a host's frames wakes the session's loop.
#[tactic(auto, using(crate::proofs::Starting::adds_none, crate::proofs::Starting::adds_same, crate::proofs::Starting::adds_one))]
pub fn add_places<
    H: Threads + Wait + Clock + Copy + Drop + Send + Sync + 'static,
    D: SectorStore,
    S: Steward + Drop,
>(
    rt: H,
    alloc: Global,
    pipes: &Pipes<'_>,
    count: u64,
    mine: &Arc<Parker>,
    session: &mut Session<D, S>,
) -> R<()>
    ensures { AddsPlaces session.old session.new }
{
    for place in 0..count {
        let from = read_place(rt, alloc, pipes, place, mine)?;
        let (to, wake) = write_place(rt, alloc, pipes, place)?;
        session.add(from, to, wake)?;
    }
    Ok(())
}

// Starts the thread that reads the frames of the host at a place. Its pipe is opened when the host opens it, which need not be
// soon.
fn read_place<H: Threads + Wait + Clock + Copy + Drop + Send + Sync + 'static>(
    rt: H,
    alloc: Global,
    pipes: &Pipes<'_>,
    place: u64,
    mine: &Arc<Parker>,
) -> R<Consumer<Vec<u8>>> {
    let folder = pipes.folder;
    let files = pipes.files;
    let (bodies, from) = RingBuffer::new(alloc, FRAMES)?;
    let path = format!(in alloc; "{folder}/{place}.out")?;
    let wake = Arc::try_clone(mine)?;
    let pending = FrameBuffer::new(alloc)?;
    let thread = thread::spawn(&rt, move || {
        let bodies = match File::open(&files, path.as_str()) {
            Ok(source) => {
                let reader = FrameReader {
                    source,
                    pending,
                    carried: CarriedBlocks::new(alloc),
                    bodies,
                };
                let (FrameReader { bodies, .. }, _) = read_frames(&rt, alloc, reader, &wake);
                bodies
            }
            Err(_) => bodies,
        };
        end_bodies(&rt, alloc, bodies);
        wake.unpark();
    });
    match thread {
        Ok(_) => Ok(from),
        Err(_) => Err(Fault::OutOfMemory),
    }
}

// Hands on an empty body, which says that no more come, as soon as the ring has room for it. No frame's body is empty.
fn end_bodies<C: Wait + Clock>(rt: &C, alloc: Global, mut bodies: Producer<Vec<u8>>) {
    for _ in rt.forever() {
        if !bodies.is_full() {
            bodies.push_reserved(Vec::new(alloc));
            return;
        }
        if bodies.is_abandoned() {
            return;
        }
        thread::sleep(rt, Duration::from_micros(100));
    }
}

// Starts the thread that gives the host at a place what comes first, and writes frames to it.
fn write_place<H: Threads + Wait + Clock + Copy + Drop + Send + Sync + 'static>(
    rt: H,
    alloc: Global,
    pipes: &Pipes<'_>,
    place: u64,
) -> R<(Producer<Vec<u8>>, Arc<Parker>)> {
    let folder = pipes.folder;
    let files = pipes.files;
    let (to, frames) = RingBuffer::new(alloc, FRAMES)?;
    let path = format!(in alloc; "{folder}/{place}.in")?;
    let theirs = Arc::new(alloc, Parker::new())?;
    let wake = Arc::try_clone(&theirs)?;
    let opening = Arc::try_clone(pipes.opening)?;
    let thread = thread::spawn(&rt, move || {
        let Ok(mut sink) = OpenOptions::new().write(true).open(&files, path.as_str()) else {
            return;
        };
        if sink.write_all(opening.as_slice()).is_err() {
            return;
        }
        if let Ok(sink) = buffered(alloc, sink) {
            let writer = FrameWriter {
                sink,
                carried: CarriedBlocks::new(alloc),
                frames,
            };
            let _ = write_frames(&rt, writer, &wake);
        }
    });
    match thread {
        Ok(_) => Ok((to, theirs)),
        Err(_) => Err(Fault::OutOfMemory),
    }
}

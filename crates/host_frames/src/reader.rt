//! The thread that reads frames from a stream.
ghost use Rattle.std.specs.Prelude.{◌≡◌, ◌<◌, ◌≤◌, ◌++◌, None, Some, OnOk, length, take};
ghost use Rattle.std.specs.Io.KnownBytes.{Consumes};
ghost use Rattle.rtrb.specs.Ring.{ProducerLooked, known_free};
ghost use Rattle.host_frames.specs.Stream.{IsPartial};
ghost use Rattle.host_frames.specs.StreamReading.{HandsBody, HandsNext, Reads, end_of};

use crate::carried::CarriedBlocks;
use crate::failures::{Deserted, ReadFailed, left_by_taker, read};
use crate::{FrameBuffer, streams_stand_apart};
use i8080_words::Fault;
use rtrb::Producer;
use std::alloc::Global;
use std::io::Read;
use std::sync::Wait;
use std::thread::{self, Parker};
use std::time::{Clock, Duration};

/// How many bytes are read at once, at most.
const PIECE_BYTES: usize = 4096;

/// Why no more frames are read.
#[derive(Clone, Copy)]
pub enum StreamEnd {
    /// Whoever wrote the stream has closed it.
    Closed,
    /// A read failed.
    Failed(ReadFailed),
    /// What came is no stream of frames.
    Malformed,
    OutOfMemory,
    /// Nobody takes frames any more.
    Deserted(Deserted),
}

/// A stream, what has come of its next frame, the blocks that it has carried, and where the bodies of its frames go.
#[derive(Drop)]
pub struct FrameReader<S> {
    pub source: S,
    pub pending: FrameBuffer,
    pub carried: CarriedBlocks,
    pub bodies: Producer<Vec<u8>>,
}

/// Reads frames until the stream ends, fails or is none of frames, and hands their bodies on through the ring; waits while the
/// ring is full. Wakes whoever takes them, also when it ends: the ring is dropped then, which its other end can see.
pub fn read_frames<C: Wait + Clock, S: Read + Drop>(
    rt: &C,
    alloc: Global,
    mut reader: FrameReader<S>,
    wake: &Parker,
) -> (FrameReader<S>, StreamEnd)
    ensures { Reads S.remaining (Some result.1) reader result.0 }
{
    let end = reader.read_all(rt, alloc, wake);
    (reader, end)
}

impl<S: Read> FrameReader<S> {
    // Reads frames until there is a reason to end.
    #[tactic(auto, using(crate::proofs::StreamReading::none_yet, crate::proofs::StreamReading::and_then))]
    fn read_all<C: Wait + Clock>(&mut self, rt: &C, alloc: Global, wake: &Parker) -> StreamEnd
        ensures { Reads S.remaining (Some result) self.old self.new }
    {
        for _ in rt.forever() {
            let end = self.turn(rt, alloc, wake);
            if let Some(end) = end {
                return end;
            }
        }
        unreachable!()
    }

    // Hands on the frames that are whole, and reads a piece more.
    fn turn<C: Wait + Clock>(&mut self, rt: &C, alloc: Global, wake: &Parker) -> Option<StreamEnd>
        ensures { Reads S.remaining result self.old self.new }
    {
        match self.hand_on(rt, alloc, wake) {
            None => self.read_piece(),
            Some(end) => Some(end),
        }
    }

    // Hands on the frames that are whole.
    #[tactic(auto, using(crate::proofs::StreamReading::none_yet, crate::proofs::StreamReading::and_then))]
    fn hand_on<C: Wait + Clock>(
        &mut self,
        rt: &C,
        alloc: Global,
        wake: &Parker,
    ) -> Option<StreamEnd>
        ensures reads { Reads S.remaining result self.old self.new }
        ensures part { result ≡ None → IsPartial self.new.pending }
    {
        for _ in rt.forever() {
            let next = self.hand_next(rt, alloc, wake);
            match next {
                Ok(true) => {}
                Ok(false) => return None,
                Err(end) => return Some(end),
            }
        }
        unreachable!()
    }

    // Hands on the next frame, if it is whole.
    fn hand_next<C: Wait + Clock>(
        &mut self,
        rt: &C,
        alloc: Global,
        wake: &Parker,
    ) -> Result<bool, StreamEnd>
        ensures { HandsNext S.remaining result self.old self.new }
    {
        if let Err(deserted) = self.wait_for_room(rt) {
            return Err(StreamEnd::Deserted(deserted));
        }
        match self.pending.next(alloc) {
            Ok(Some(body)) => self.hand_body(body, wake),
            Ok(None) => Ok(false),
            Err(fault) => Err(end_of(fault)),
        }
    }

    // Hands on a body that has crossed the stream, for which there is room, with the block that it names.
    fn hand_body(&mut self, body: Vec<u8>, wake: &Parker) -> Result<bool, StreamEnd>
        requires { 0 < known_free self.old.bodies }
        ensures { HandsBody self.old body.items result self.new }
    {
        match self.carried.expand(body) {
            Ok(whole) => {
                self.bodies.push_reserved(whole);
                wake.unpark();
                Ok(true)
            }
            Err(fault) => Err(end_of(fault)),
        }
    }

    // Waits until the ring takes one more body, unless nobody takes them any more.
    fn wait_for_room<C: Wait + Clock>(&mut self, rt: &C) -> Result<(), Deserted>
        ensures source { self.new.source ≡ self.old.source }
        ensures pending { self.new.pending ≡ self.old.pending }
        ensures carried { self.new.carried ≡ self.old.carried }
        ensures looked { ProducerLooked self.old.bodies self.new.bodies }
        ensures room { OnOk result (0 < known_free self.new.bodies) }
    {
        for _ in rt.forever() {
            if !self.bodies.is_full() {
                return Ok(());
            }
            if let Some(deserted) = left_by_taker(&mut self.bodies) {
                return Err(deserted);
            }
            thread::sleep(rt, Duration::from_micros(100));
        }
        unreachable!()
    }

    // Reads a piece, for which there is room. A read that was interrupted is made again by the next turn.
    fn read_piece(&mut self) -> Option<StreamEnd>
        requires { IsPartial self.old.pending }
        ensures { Reads S.remaining result self.old self.new }
    {
        streams_stand_apart();
        let mut piece = [0u8; PIECE_BYTES];
        match read(&mut self.source, &mut piece) {
            Ok(0) => Some(StreamEnd::Closed),
            Ok(count) => {
                self.pending.feed(&piece[..count]);
                None
            }
            Err(failed) if failed.is_interrupted() => None,
            Err(failed) => Some(StreamEnd::Failed(failed)),
        }
    }
}

// Why no more frames are read, if the next one is refused.
fn end_of(fault: Fault) -> StreamEnd
    ensures { result ≡ end_of fault }
{
    match fault {
        Fault::OutOfMemory => StreamEnd::OutOfMemory,
        _ => StreamEnd::Malformed,
    }
}

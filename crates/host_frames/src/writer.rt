//! The thread that writes frames to a stream.
ghost use Rattle.std.specs.Prelude.{◌≡◌, ◌<◌, ◌∷◌, ◌++◌, [], Ok, false, length, OnOk, IfOk};
ghost use Rattle.std.specs.Io.KnownBytes.{Appends};
ghost use Rattle.host_frames.specs.Frames.{framed};
ghost use Rattle.rtrb.specs.Ring.{IsFinishedOf, SameConsumer, all_sent, known_items, received};
ghost use Rattle.host_frames.specs.Blocks as blocks;
ghost use Rattle.host_frames.specs.Writing.{Wrote, WroteFrame};

use crate::carried::{CarriedBlocks, SHORT};
use crate::failures::{WriteFailed, flush, put};
use crate::resting::{Rests, micros};
use crate::slots::BLOCK_BYTES;
use rtrb::{Consumer, Finished};
use std::io::Write;
use std::sync::Wait;
use std::thread::Parker;
use std::time::Clock;

/// How many frames are written at once, at most.
const MOST_AT_ONCE: usize = 64;

// How many microseconds it rests if nobody wakes it.
const REST: u64 = 50_000;

/// A stream, the blocks that it has carried, and the spelled frames that are to be written to it.
#[derive(Drop)]
pub struct FrameWriter<W> {
    pub sink: W,
    pub carried: CarriedBlocks,
    pub frames: Consumer<Vec<u8>>,
}

/// Writes each frame once and in order, several at once if several wait, until no more can come. Whoever sends frames wakes it
/// through the parker. Ends at the first write that fails; what comes after that is not written.
pub fn write_frames<C: Wait + Clock, W: Write + Drop>(
    rt: &C,
    mut writer: FrameWriter<W>,
    wake: &Parker,
) -> (FrameWriter<W>, Result<(), WriteFailed>)
    ensures wrote { OnOk result.1 (Wrote W.contents writer result.0) }
    ensures rest { OnOk result.1 (known_items result.0.frames ≡ []) }
{
    let end = writer.write_all(rt, wake);
    (writer, end)
}

impl<W: Write> FrameWriter<W> {
    // Writes what comes until no more can come.
    #[tactic(auto, using(crate::proofs::Writing::nothing_yet, crate::proofs::Writing::and_then))]
    fn write_all<C: Wait + Clock>(&mut self, rt: &C, wake: &Parker) -> Result<(), WriteFailed>
        ensures wrote { OnOk result (Wrote W.contents self.old self.new) }
        ensures rest { OnOk result (known_items self.new.frames ≡ []) }
    {
        let mut now = micros(rt, 0);
        let mut rests = Rests::new(now);
        for _ in rt.forever() {
            let is_over = self.frames.is_abandoned();
            now = micros(rt, now);
            if self.write_some()? {
                rests.find(now);
                continue;
            }
            if is_over {
                return Ok(());
            }
            rests.rest(rt, now, wake, REST);
        }
        unreachable!()
    }

    // Writes the frames that wait, up to `MOST_AT_ONCE`. Returns whether there was one.
    #[tactic(auto, using(crate::proofs::Writing::and_then, crate::proofs::Writing::flushed))]
    fn write_some(&mut self) -> Result<bool, WriteFailed>
        ensures wrote { OnOk result (Wrote W.contents self.old self.new) }
        ensures rest { result ≡ Ok false → known_items self.new.frames ≡ [] }
    {
        if !self.write_next()? {
            return Ok(false);
        }
        self.write_more()?;
        flush(&mut self.sink)?;
        Ok(true)
    }

    // Writes further frames that wait.
    #[tactic(auto, using(crate::proofs::Writing::nothing_yet, crate::proofs::Writing::and_then))]
    fn write_more(&mut self) -> Result<(), WriteFailed>
        ensures { OnOk result (Wrote W.contents self.old self.new) }
    {
        for _ in 1..MOST_AT_ONCE {
            if !self.write_next()? {
                break;
            }
        }
        Ok(())
    }

    // Writes the next frame, if one waits.
    #[tactic(auto, using(crate::proofs::Writing::nothing_yet, crate::proofs::Writing::of_one))]
    fn write_next(&mut self) -> Result<bool, WriteFailed>
        ensures wrote { OnOk result (Wrote W.contents self.old self.new) }
        ensures rest { result ≡ Ok false → known_items self.new.frames ≡ [] }
    {
        let Ok(frame) = self.frames.pop() else {
            return Ok(false);
        };
        self.write_frame(&frame)?;
        Ok(true)
    }

    // Writes a frame, without its block if that has crossed. If there is no memory to keep its block, it crosses again.
    fn write_frame(&mut self, frame: &[u8]) -> Result<(), WriteFailed>
        ensures { OnOk result (WroteFrame W.contents self.old self.new frame.now) }
    {
        let body = body_in(frame);
        if self.carried.has(body) {
            return put_short(&mut self.sink, &body[..body.len() - BLOCK_BYTES]);
        }
        let _ = self.carried.keep(body).is_ok();
        put(&mut self.sink, frame)
    }

    // Writes all frames that are left in the ring, into which nothing more is put.
    #[tactic(auto, using(crate::proofs::Writing::nothing_yet, crate::proofs::Writing::and_then, crate::proofs::Writing::of_one, crate::proofs::Writing::flushed))]
    pub(crate) fn write_rest(&mut self, mut finished: Finished<Vec<u8>>) -> Result<(), WriteFailed>
        requires { IsFinishedOf finished self.old.frames }
        ensures wrote { OnOk result (Wrote W.contents self.old self.new) }
        ensures all { OnOk result (received self.new.frames ≡ all_sent finished) }
    {
        let count = self.frames.slots_after(&mut finished);
        for _done in 0..count {
            let left = self.frames.pop_known();
            self.write_frame(&left)?;
        }
        flush(&mut self.sink)
    }
}

// The body of a frame.
fn body_in(frame: &[u8]) -> &[u8]
    ensures { result.now ≡ blocks.body_in frame.now }
{
    if frame.len() < 4 {
        return &[];
    }
    &frame[4..]
}

// Writes the frame of a head, whose block is not carried.
fn put_short<W: Write>(sink: &mut W, head: &[u8]) -> Result<(), WriteFailed>
    requires { length head.now < 255 }
    ensures { OnOk result (Appends (W.contents sink.old) (W.contents sink.new) (framed (SHORT ∷ head.now))) }
{
    put(sink, &[0x46, 0x52, 0, head.len() as u8 + 1, SHORT])?;
    put(sink, head)
}

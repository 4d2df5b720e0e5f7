//! A stream of frames, whose bytes come in any pieces.
ghost use Rattle.std.specs.Prelude.{◌≡◌, ◌-◌, ◌++◌, [], length, min, take, IfErr, IfOk};
ghost use Rattle.i8080_words.specs.declared.refusal.Fault.TheVariants.{OutOfMemory};
ghost use Rattle.host_frames.specs.Stream.{Gives};

use crate::ring::{fill, pop};
use circular_buffer::HeapCircularBuffer;
use i8080_words::R;
use std::alloc::Global;
use std::marker::Model;

/// How many bytes a buffer has room for: two frames of the greatest length.
pub const BUFFER_BYTES: usize = 8192;

/// The bytes of a stream that have come and are not given yet, in a ring of `BUFFER_BYTES` places. After `next` has found no
/// whole frame there is room for a piece of 4,096 bytes.
#[derive(Drop)]
pub struct FrameBuffer {
    pending: HeapCircularBuffer<u8>,
}

impl Model for FrameBuffer {
    ghost use Rattle.std.specs.Prelude.{List, ℕ};

    ghost Value = { List ℕ };

    ghost use Rattle.host_frames.specs.Buffer.{pending_in, IsBuffer};

    ghost view = { pending_in };

    ghost invariant = { IsBuffer };
}

impl FrameBuffer {
    /// A buffer to which nothing has come. Allocates all the memory that the buffer will ever need.
    pub fn new(alloc: Global) -> R<FrameBuffer>
        ensures ok { IfOk result (λ buffer. buffer ≡ []) }
        ensures full { IfErr result (λ fault. fault ≡ OutOfMemory) }
    {
        let pending = HeapCircularBuffer::with_capacity(alloc, BUFFER_BYTES)?;
        Ok(FrameBuffer { pending })
    }

    /// Takes as many of the bytes as there is room for, the first ones, and returns how many.
    pub fn feed(&mut self, piece: &[u8]) -> usize
        ensures count { result ≡ min (length piece.now) (BUFFER_BYTES - length self.old) }
        ensures after { self.new ≡ self.old ++ take result piece.now }
    {
        fill(&mut self.pending, piece)
    }

    /// The body of the next frame, which leaves the buffer; none if no whole frame has come yet. `Malformed` if the bytes begin
    /// no frame, however they go on.
    pub fn next(&mut self, alloc: Global) -> R<Option<Vec<u8>>>
        ensures { Gives self.old result self.new }
    {
        pop(&mut self.pending, alloc)
    }
}

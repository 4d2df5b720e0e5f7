//! Failures of a stream or of a ring, each shown by a value that is made here alone, where the failure is seen.
ghost use Rattle.std.specs.Prelude.{IfOk, OnOk};
ghost use Rattle.std.specs.Io.{ReadsAtMost};
ghost use Rattle.std.specs.Io.KnownBytes.{Appends, Keeps, ReadConsumes};
ghost use Rattle.rtrb.specs.Ring.{Finishes, ProducerLooked};

use rtrb::{Finished, Producer};
use std::io::{self, ErrorKind, Read, Write};

/// A read of a stream has failed with this error.
#[derive(Clone, Copy)]
pub struct ReadFailed {
    error: io::Error,
}

/// A write to a stream has failed, or a flush of it, with this error.
#[derive(Clone, Copy)]
pub struct WriteFailed {
    error: io::Error,
}

/// Whoever took items out of a ring had left it before the other end did.
#[derive(Clone, Copy)]
pub struct Deserted {
    _seen: (),
}

/// Why it is not known that all frames were written.
#[derive(Clone, Copy)]
pub enum Unwritten {
    Failed(WriteFailed),
    Deserted(Deserted),
}

impl ReadFailed {
    // Whether the read was interrupted, and may be made again.
    pub(crate) fn is_interrupted(&self) -> bool {
        self.error.kind() == ErrorKind::Interrupted
    }
}

// Reads some bytes.
pub(crate) fn read<S: Read>(source: &mut S, piece: &mut [u8]) -> Result<usize, ReadFailed>
    ensures bound { ReadsAtMost result piece.new }
    ensures bytes { ReadConsumes (S.remaining source.old) (S.remaining source.new) result piece.new }
{
    match source.read(piece) {
        Ok(count) => Ok(count),
        Err(error) => Err(ReadFailed { error }),
    }
}

// Writes all these bytes.
pub(crate) fn put<W: Write>(sink: &mut W, bytes: &[u8]) -> Result<(), WriteFailed>
    ensures { OnOk result (Appends (W.contents sink.old) (W.contents sink.new) bytes.now) }
{
    match sink.write_all(bytes) {
        Ok(()) => Ok(()),
        Err(error) => Err(WriteFailed { error }),
    }
}

// Passes on what the stream holds back.
pub(crate) fn flush<W: Write>(sink: &mut W) -> Result<(), WriteFailed>
    ensures { Keeps (W.contents sink.old) (W.contents sink.new) }
{
    match sink.flush() {
        Ok(()) => Ok(()),
        Err(error) => Err(WriteFailed { error }),
    }
}

// Whether whoever takes items out of a ring has left it.
pub(crate) fn left_by_taker(ring: &mut Producer<Vec<u8>>) -> Option<Deserted>
    ensures { ProducerLooked ring.old ring.new }
{
    if ring.is_abandoned() {
        return Some(Deserted { _seen: () });
    }
    None
}

// Leaves a ring, into which nothing more is put then.
pub(crate) fn finish(ring: Producer<Vec<u8>>) -> Result<Finished<Vec<u8>>, Deserted>
    ensures { IfOk result (Finishes ring) }
{
    match ring.finish() {
        Some(finished) => Ok(finished),
        None => Err(Deserted { _seen: () }),
    }
}

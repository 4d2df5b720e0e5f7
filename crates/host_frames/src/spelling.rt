//! The bytes of a frame.
ghost use Rattle.std.specs.Prelude.{◌≡◌, ◌≤◌, ◌++◌, true, length, IfErr, IfOk, OnOk};
ghost use Rattle.i8080_words.specs.declared.refusal.Fault.TheVariants.{OutOfMemory};
ghost use Rattle.host_frames.specs.Frames as table;
ghost use Rattle.host_frames.specs.Frames.{IsSpelling, body_of, refusal_of, said_by};

use crate::frame::Frame;
use crate::notices::{notice_length, write_notice};
use crate::ranges::{is_notice, is_transfer};
use crate::transfers::{transfer_length, write_transfer};
use i8080_words::{Fault, R};
use std::alloc::Global;

/// The most bytes that the body of a frame has: with its head of four bytes a frame is within 4,096 bytes, which a pipe takes
/// whole.
pub const MOST_BYTES: usize = 4092;

// How many bytes the head of a frame has.
pub(crate) const HEAD: usize = 4;

/// The bytes of a frame. `Malformed` if it has none: a packet is too long, or a number is out of range.
pub fn spelled(alloc: Global, frame: &Frame<'_>) -> R<Vec<u8>>
    ensures ok { IfOk result (λ bytes. IsSpelling (said_by frame.now) bytes.items) }
    ensures refused { IfErr result (λ fault. fault ≡ refusal_of (said_by frame.now)) }
{
    if !has_spelling(frame) {
        return Err(Fault::Malformed);
    }
    let length = body_length(frame);
    let mut bytes = Vec::with_capacity(alloc, HEAD + length)?;
    bytes.extend_from_slice(&[0x46, 0x52, (length / 256) as u8, (length % 256) as u8])?;
    write_body(&mut bytes, frame)?;
    Ok(bytes)
}

// Whether the frame has a spelling.
fn has_spelling(frame: &Frame<'_>) -> bool
    ensures { result ≡ table.is_frame (said_by frame.now) }
{
    match frame {
        Frame::Packet { bytes, .. } => bytes.len() + 2 <= MOST_BYTES,
        Frame::Transfer(transfer) => is_transfer(transfer),
        Frame::Notice(notice) => is_notice(notice),
    }
}

// How many bytes the body has.
fn body_length(frame: &Frame<'_>) -> usize
    requires { table.is_frame (said_by frame.now) ≡ true }
    ensures length { result ≡ length (body_of (said_by frame.now)) }
    ensures within { result ≤ MOST_BYTES }
{
    match frame {
        Frame::Packet { bytes, .. } => bytes.len() + 2,
        Frame::Transfer(transfer) => transfer_length(transfer),
        Frame::Notice(notice) => notice_length(notice),
    }
}

// Appends the body.
fn write_body(out: &mut Vec<u8>, frame: &Frame<'_>) -> R<()>
    ensures ok { OnOk result (out.new.items ≡ out.old.items ++ body_of (said_by frame.now)) }
    ensures full { IfErr result (λ fault. fault ≡ OutOfMemory) }
{
    match frame {
        Frame::Packet { host, bytes } => {
            out.extend_from_slice(&[0x50, *host])?;
            out.extend_from_slice(bytes)?;
            Ok(())
        }
        Frame::Transfer(transfer) => write_transfer(out, transfer),
        Frame::Notice(notice) => write_notice(out, notice),
    }
}

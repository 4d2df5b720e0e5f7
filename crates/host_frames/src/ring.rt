//! The first frame of the bytes in a ring.
ghost use Rattle.std.specs.Prelude.{◌≡◌, ◌+◌, ◌-◌, ◌≤◌, ◌++◌, drop, length, min, take, IfErr, IfOk, IfSome, OnErr, OnOk};
ghost use Rattle.i8080_words.specs.declared.refusal.Fault.TheVariants.{OutOfMemory};
ghost use Rattle.log_entry.specs.Numbers.{IsBytes};
ghost use Rattle.host_frames.specs.Stream as stream;

use crate::spelling::{HEAD, MOST_BYTES};
use circular_buffer::HeapCircularBuffer;
use i8080_words::{Fault, R};
use std::alloc::Global;

/// Takes the first bytes of a piece, as many as there is room for, and returns how many.
pub(crate) fn fill(pending: &mut HeapCircularBuffer<u8>, piece: &[u8]) -> usize
    requires { IsBytes pending.old.items }
    ensures count { result ≡ min (length piece.now) (pending.old.capacity - length pending.old.items) }
    ensures after { pending.new.items ≡ pending.old.items ++ take result piece.now }
    ensures places { pending.new.capacity ≡ pending.old.capacity }
    ensures bytes { IsBytes pending.new.items }
{
    pending.fill_from_slice(piece)
}

/// The body of the first frame, which leaves the ring.
pub(crate) fn pop(pending: &mut HeapCircularBuffer<u8>, alloc: Global) -> R<Option<Vec<u8>>>
    requires { IsBytes pending.old.items }
    ensures gives { stream.Gives pending.old.items result pending.new.items }
    ensures places { pending.new.capacity ≡ pending.old.capacity }
    ensures bytes { IsBytes pending.new.items }
{
    let Some(length) = first_length(pending)? else {
        return Ok(None);
    };
    if pending.len() < HEAD + length {
        return Ok(None);
    }
    let body = pop_body(pending, alloc, length)?;
    Ok(Some(body))
}

// The body of this length after the head of a frame. It leaves the ring, with the head.
fn pop_body(pending: &mut HeapCircularBuffer<u8>, alloc: Global, count: usize) -> R<Vec<u8>>
    requires whole { HEAD + count ≤ length pending.old.items }
    requires bytes { IsBytes pending.old.items }
    ensures ok { IfOk result (λ body. body.items ≡ take count (drop 4 pending.old.items)) }
    ensures rest { OnOk result (pending.new.items ≡ drop count (drop 4 pending.old.items)) }
    ensures err { OnErr result (pending.new.items ≡ pending.old.items) }
    ensures full { IfErr result (λ fault. fault ≡ OutOfMemory) }
    ensures places { pending.new.capacity ≡ pending.old.capacity }
    ensures bytes_left { IsBytes pending.new.items }
{
    let mut body = vec![in alloc; 0; count]?;
    let rest = pending.len() - HEAD;
    pending.truncate_front(rest);
    pending.read_into(&mut body);
    Ok(body)
}

// The length of the first body; none if the head of its frame has not come yet. `Malformed` if no frame begins so.
fn first_length(pending: &HeapCircularBuffer<u8>) -> R<Option<usize>>
    ensures value { result ≡ stream.head_of pending.now.items }
    ensures within { IfOk result (λ length. IfSome length (λ n. n ≤ MOST_BYTES)) }
{
    let Some(first) = pending.get(0) else {
        return Ok(None);
    };
    if *first != 0x46 {
        return Err(Fault::Malformed);
    }
    let Some(second) = pending.get(1) else {
        return Ok(None);
    };
    if *second != 0x52 {
        return Err(Fault::Malformed);
    }
    let Some(high) = pending.get(2) else {
        return Ok(None);
    };
    if *high > 15 {
        return Err(Fault::Malformed);
    }
    let Some(low) = pending.get(3) else {
        return Ok(None);
    };
    length_of(*high, *low)
}

// The length that two bytes spell.
fn length_of(high: u8, low: u8) -> R<Option<usize>>
    ensures value { result ≡ stream.length_of high low }
    ensures within { IfOk result (λ length. IfSome length (λ n. n ≤ MOST_BYTES)) }
{
    let length = usize::from(high) * 256 + usize::from(low);
    if length == 0 || length > MOST_BYTES {
        return Err(Fault::Malformed);
    }
    Ok(Some(length))
}

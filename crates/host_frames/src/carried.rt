//! What one end of a stream keeps of what has crossed it: blocks of 256 bytes, which cross no second time.
ghost use Rattle.std.specs.Prelude.{◌≡◌, ◌<◌, ◌≤◌, [], true, false, length, IfErr, MatchOption, OnErr, OnOk};
ghost use Rattle.i8080_words.specs.declared.refusal.Fault.TheVariants.{OutOfMemory};
ghost use Rattle.host_frames.specs.Blocks.{block_of, forgotten, has_block, head_of, is_kept, kept};
ghost use Rattle.host_frames.specs.Blocks as blocks;
ghost use Rattle.host_frames.specs.Crossing.{Finds, Opens};
ghost use Rattle.host_frames.specs.Slots.{blocks_in};

use crate::slots::{BLOCK_BYTES, block_at, keep_block};
use i8080_words::{Fault, R};
use std::alloc::Global;
use std::marker::Model;

/// The tag of a body whose block is not carried.
pub(crate) const SHORT: u8 = 0x72;

/// The last block that has crossed a stream for each of 512 places. Memory for all of them is taken with the first.
#[derive(Drop)]
pub struct CarriedBlocks {
    alloc: Global,
    slots: Vec<Option<[u8; BLOCK_BYTES]>>,
}

impl Model for CarriedBlocks {
    ghost use Rattle.std.specs.Prelude.{List, ℕ, Option};

    ghost Value = { List (Option (List ℕ)) };

    ghost use Rattle.host_frames.specs.Slots.{AreSlots};

    ghost view = { λ c. c.slots.items };

    ghost invariant = { λ c. AreSlots c.slots.items };
}

impl CarriedBlocks {
    /// Of a stream that has carried nothing. Takes no memory.
    pub fn new(alloc: Global) -> CarriedBlocks
        ensures { result ≡ [] }
    {
        CarriedBlocks {
            alloc,
            slots: Vec::new(alloc),
        }
    }

    /// Whether the body has a block that is kept for its place.
    pub(crate) fn has(&self, body: &[u8]) -> bool
        ensures { result ≡ is_kept (blocks_in self.now) body.now }
    {
        let Some((head, block)) = parted(body) else {
            return false;
        };
        let block: &[u8] = block;
        block_at(&self.slots, place_of(head)) == block
    }

    /// Keeps the block of a body that crosses, if it has one.
    pub(crate) fn keep(&mut self, body: &[u8]) -> R<()>
        ensures ok { OnOk result (blocks_in self.new ≡ kept (blocks_in self.old) body.now) }
        ensures err { OnErr result (blocks_in self.new ≡ forgotten (blocks_in self.old) body.now) }
        ensures full { IfErr result (λ fault. fault ≡ OutOfMemory) }
    {
        let Some((head, block)) = parted(body) else {
            return Ok(());
        };
        keep_block(self.alloc, &mut self.slots, place_of(head), block)
    }

    /// What is handed on when this body has crossed, whose block is kept then. `Malformed` if it names a block that is not kept.
    pub(crate) fn expand(&mut self, body: Vec<u8>) -> R<Vec<u8>>
        ensures { Opens (blocks_in self.old) body.items result (blocks_in self.new) }
    {
        if let [SHORT, head @ ..] = body.as_slice() {
            return self.whole(head);
        }
        self.keep(&body)?;
        Ok(body)
    }

    // A head, with the block that is kept for its place.
    fn whole(&self, head: &[u8]) -> R<Vec<u8>>
        ensures { Finds (blocks_in self.now) head.now result }
    {
        if head.len() != 9 && head.len() != 10 {
            return Err(Fault::Malformed);
        }
        let block = block_at(&self.slots, place_of(head));
        if block.len() != BLOCK_BYTES {
            return Err(Fault::Malformed);
        }
        let mut body = Vec::with_capacity(self.alloc, head.len() + BLOCK_BYTES)?;
        body.extend_from_slice(head)?;
        body.extend_from_slice(block)?;
        Ok(body)
    }
}

// The head and the block of a body that has one.
fn parted(body: &[u8]) -> Option<(&[u8], &[u8; BLOCK_BYTES])>
    ensures { MatchOption result (has_block body.now ≡ false) (λ parts.
        (has_block body.now ≡ true) × (parts.0.now ≡ head_of body.now) × (parts.1.now ≡ block_of body.now)) }
{
    if body.len() != 265 && body.len() != 266 {
        return None;
    }
    body.split_last_chunk::<BLOCK_BYTES>()
}

// The place for the block after this head.
fn place_of(head: &[u8]) -> usize
    requires { 2 ≤ length head.now }
    ensures place { result ≡ blocks.place_of head.now }
    ensures within { result < 512 }
{
    let high = head[head.len() - 2];
    let low = head[head.len() - 1];
    usize::from(high % 2) * 256 + usize::from(low)
}

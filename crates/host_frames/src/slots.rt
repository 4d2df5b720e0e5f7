//! The slots in which the blocks of a stream lie: none until the first block, and then one for each place.
ghost use Rattle.std.specs.Prelude.{◌≡◌, ◌<◌, ℕ, [], length, IfErr, OnErr, OnOk};
ghost use Rattle.i8080_words.specs.declared.refusal.Fault.TheVariants.{OutOfMemory};
ghost use Rattle.host_frames.specs.Blocks.{with_block};
ghost use Rattle.host_frames.specs.Slots.{AreSlots, blocks_in};

use i8080_words::R;
use std::alloc::Global;

/// How many places there are.
pub(crate) const PLACES: usize = 512;

/// How many bytes a block has.
pub(crate) const BLOCK_BYTES: usize = 256;

/// The block of a place; no bytes if none is kept.
pub(crate) fn block_at(slots: &[Option<[u8; BLOCK_BYTES]>], place: usize) -> &[u8]
    ensures { result.now ≡ blocks_in slots.now place }
{
    match slots.get(place) {
        Some(Some(block)) => block,
        _ => &[],
    }
}

/// Keeps a block for a place. If there is no memory for the slots, none is kept there.
pub(crate) fn keep_block(
    alloc: Global,
    slots: &mut Vec<Option<[u8; BLOCK_BYTES]>>,
    place: usize,
    block: &[u8; BLOCK_BYTES],
) -> R<()>
    requires place { place < PLACES }
    requires slots { AreSlots slots.old.items }
    ensures ok { OnOk result ((other : ℕ) → blocks_in slots.new.items other
        ≡ with_block (blocks_in slots.old.items) place block.now other) }
    ensures err { OnErr result ((other : ℕ) → blocks_in slots.new.items other
        ≡ with_block (blocks_in slots.old.items) place [] other) }
    ensures full { IfErr result (λ fault. fault ≡ OutOfMemory) }
    ensures slots { AreSlots slots.new.items }
{
    reach(alloc, slots, place)?;
    slots[place] = Some(*block);
    Ok(())
}

// Makes a slot for each place, if there are none.
fn reach(alloc: Global, slots: &mut Vec<Option<[u8; BLOCK_BYTES]>>, place: usize) -> R<()>
    requires place { place < PLACES }
    requires slots { AreSlots slots.old.items }
    ensures same { (other : ℕ) → blocks_in slots.new.items other ≡ blocks_in slots.old.items other }
    ensures ok { OnOk result (place < length slots.new.items) }
    ensures err { OnErr result (blocks_in slots.old.items place ≡ []) }
    ensures full { IfErr result (λ fault. fault ≡ OutOfMemory) }
    ensures slots { AreSlots slots.new.items }
{
    if slots.is_empty() {
        *slots = vec![in alloc; None; PLACES]?;
    }
    Ok(())
}

//! Entries that are held: the first of them, and those after it one after another in a block of bytes.
ghost use Rattle.std.specs.Prelude.{◌≡◌, ◌≢◌, ◌++◌, ◌∷◌, [], drop, slice_get, OnOk, OnErr, IfErr, IfSome};
ghost use Rattle.i8080_words.specs.declared.refusal.Fault.TheVariants.{OutOfMemory};
ghost use Rattle.log_entry.specs.Spelling.{IsEntry};
ghost use Rattle.log_channel.specs.Block.{first_of, held_in, IsBlock, TakesFirst};

use crate::block::Block;
use i8080_words::R;
use log_entry::{Entry, size};

/// Puts an entry after those that are held. The first one needs no memory.
pub(crate) fn hold(front: &mut Option<Entry>, block: &mut Block, entry: Entry) -> R<()>
    requires block { IsBlock front.old block.old }
    requires valid { IsEntry entry }
    ensures ok { OnOk result (held_in front.new block.new ≡ held_in front.old block.old ++ entry ∷ []) }
    ensures err { OnErr result (held_in front.new block.new ≡ held_in front.old block.old) }
    ensures only_memory { IfErr result (λ fault. fault ≡ OutOfMemory) }
    ensures full { OnErr result (held_in front.old block.old ≢ []) }
    ensures block { IsBlock front.new block.new }
{
    match front {
        None => {
            *front = Some(entry);
            Ok(())
        }
        Some(_) => block.write(&entry),
    }
}

/// Takes the first entry that is held. Allocates no memory.
pub(crate) fn unhold(front: &mut Option<Entry>, block: &mut Block) -> Option<Entry>
    requires { IsBlock front.old block.old }
    ensures entry { result ≡ slice_get (held_in front.old block.old) 0 }
    ensures valid { IfSome result IsEntry }
    ensures after { held_in front.new block.new ≡ drop 1 (held_in front.old block.old) }
    ensures block { IsBlock front.new block.new }
{
    let first = front.take()?;
    *front = take_first(block);
    Some(first)
}

// Takes the first entry of a block.
#[tactic(auto, unfolding(crate::specs::Block::first_of))]
fn take_first(block: &mut Block) -> Option<Entry>
    ensures { TakesFirst (first_of block.old) block.old result block.new }
{
    let bytes = block.as_slice();
    let count = size(*bytes.first()?)?;
    let entry = Entry::read(bytes.get(..count)?).ok()?;
    block.remove_front(count);
    Some(entry)
}

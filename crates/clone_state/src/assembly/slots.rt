//! The slots of an assembly: the payload of each part that arrived.
ghost use Rattle.std.specs.Prelude.{All, ◌≡◌, ◌<◌, ◌≤◌, ◌+◌, ◌==◌, None, Some, [], length, is_none, is_some, slice_index_or, slice_set, if◌then◌else◌, vec_capacity};
ghost use Rattle.std.specs.List.{list_all};
ghost use Rattle.clone_state.specs.Assembly.{gathered};
ghost use Rattle.clone_state.specs.Slots.{FitsSlot, IsPage, is_free, slots_of, taken};

use guest_memory::PAGE_BYTES;

/// Puts the payload of a new part into its slot; a repeat changes nothing. Returns whether it was new.
pub(super) fn keep(
    first: &mut Vec<u8>,
    later: &mut Vec<Option<[u8; PAGE_BYTES]>>,
    index: u16,
    payload: &[u8],
) -> bool
    requires room { length payload.now ≤ vec_capacity first.old }
    requires fits { FitsSlot (length later.old.items) index payload.now }
    ensures new { result ≡ is_free (slots_of first.old.items later.old.items) index }
    ensures slots { slots_of first.new.items later.new.items
        ≡ taken (slots_of first.old.items later.old.items) index payload.now }
    ensures count { length later.new.items ≡ length later.old.items }
    ensures pages { All IsPage later.old.items → All IsPage later.new.items }
    ensures capacity { vec_capacity first.old ≤ vec_capacity first.new }
{
    let place = index as usize;
    if place == 0 {
        keep_first(first, payload)
    } else {
        keep_later(later, place - 1, payload)
    }
}

fn keep_first(first: &mut Vec<u8>, payload: &[u8]) -> bool
    requires room { length payload.now ≤ vec_capacity first.old }
    ensures new { result ≡ (length first.old.items == 0) }
    ensures after { first.new.items ≡ (if length first.old.items == 0 then payload.now else first.old.items) }
    ensures capacity { vec_capacity first.old ≤ vec_capacity first.new }
{
    if !first.is_empty() {
        return false;
    }
    match first.extend_from_slice(payload) {
        Ok(()) => true,
        Err(_) => unreachable!(),
    }
}

fn keep_later(later: &mut Vec<Option<[u8; PAGE_BYTES]>>, place: usize, payload: &[u8]) -> bool
    requires place { place < length later.old.items }
    requires whole { length payload.now ≡ PAGE_BYTES }
    ensures new { result ≡ is_none (slice_index_or later.old.items place None) }
    ensures after { later.new.items ≡ (if is_none (slice_index_or later.old.items place None)
        then slice_set later.old.items place (Some payload.now) else later.old.items) }
{
    if later[place].is_some() {
        return false;
    }
    match <[u8; PAGE_BYTES]>::try_from(payload) {
        Ok(bytes) => {
            later[place] = Some(bytes);
            true
        }
        Err(_) => unreachable!(),
    }
}

/// Empties the slot of this index.
pub(super) fn clear(first: &mut Vec<u8>, later: &mut Vec<Option<[u8; PAGE_BYTES]>>, index: u16)
    requires { index < length later.old.items + 1 }
    ensures slots { slots_of first.new.items later.new.items
        ≡ slice_set (slots_of first.old.items later.old.items) index None }
    ensures count { length later.new.items ≡ length later.old.items }
    ensures pages { All IsPage later.old.items → All IsPage later.new.items }
    ensures capacity { vec_capacity first.old ≤ vec_capacity first.new }
{
    let place = index as usize;
    if place == 0 {
        first.clear();
    } else {
        later[place - 1] = None;
    }
}

/// Whether no slot is empty.
#[tactic(auto, using(crate::proofs::Filling::full_is))]
pub(super) fn are_full(first: &[u8], later: &[Option<[u8; PAGE_BYTES]>]) -> bool
    ensures { result ≡ is_some (gathered (slots_of first.now later.now)) }
{
    !first.is_empty() && all_came(later)
}

fn all_came(later: &[Option<[u8; PAGE_BYTES]>]) -> bool
    ensures { result ≡ list_all is_some later.now }
{
    later.iter().all(|slot| slot.is_some())
}

//! A part in a message, as bytes are read for it.
ghost use Rattle.std.specs.Prelude.{◌≡◌, option_map};
ghost use Rattle.clone_state.specs.Parts as parts;
ghost use Rattle.clone_state.specs.Reading.{message_is};

use super::first_part::first_part_of;
use super::table::table_of;
use super::values::word_at;
use crate::spelling::PART_TAG;
use disk_dcdd::TRACKS;
use guest_memory::{PAGE_BYTES, PAGES};
use log_entry::generation_at;

/// A part of an image: what it says is its payload.
#[derive(Clone, Copy)]
pub(crate) struct PartMessage<'a> {
    pub(crate) generation: u32,
    pub(crate) index: u16,
    pub(crate) payload: &'a [u8],
}

/// The part that bytes spell, of an image for this many drives.
#[tactic(auto, unfolding(crate::specs::Parts::message_at))]
pub(crate) fn message_of(drives: u8, bytes: &[u8]) -> Option<PartMessage<'_>>
    ensures { option_map message_is result ≡ parts.message_at drives bytes.now }
{
    let [tag, rest @ ..] = bytes else {
        return None;
    };
    if *tag != PART_TAG {
        return None;
    }
    let (generation, rest) = generation_at(rest)?;
    let (index, payload) = word_at(rest)?;
    if !is_payload(drives, index, payload) {
        return None;
    }
    Some(PartMessage {
        generation,
        index,
        payload,
    })
}

// Whether the payload is one of the part of this index.
#[tactic(auto, unfolding(crate::specs::Parts::is_payload))]
fn is_payload(drives: u8, index: u16, payload: &[u8]) -> bool
    ensures { result ≡ parts.is_payload drives index payload.now }
{
    let place = index as usize;
    if place == 0 {
        first_part_of(drives, payload).is_some()
    } else if place <= PAGES {
        is_page(payload)
    } else if place <= PAGES + TRACKS as usize * drives as usize {
        table_of(payload).is_some()
    } else {
        false
    }
}

// Whether the payload is a page.
#[tactic(auto, unfolding(crate::specs::Parts::page, crate::specs::Codec::bytes))]
fn is_page(payload: &[u8]) -> bool
    ensures { result ≡ parts.is_page payload.now }
{
    payload.len() == PAGE_BYTES
}

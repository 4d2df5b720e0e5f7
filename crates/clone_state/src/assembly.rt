//! The parts of one image as they arrive, in any order, and what they say of a board.
ghost use Rattle.std.specs.Prelude.{◌≡◌, ◌<◌, ◌≤◌, true, false, None, Some, length, IfOk, IfErr, IsOkUnless, is_none, is_some, slice_index_or, slice_set, if◌then◌else◌, vec_capacity};
ghost use Rattle.disk_dcdd.specs.declared.controller.TheConstants.{DRIVES};
ghost use Rattle.i8080_words.specs.declared.refusal.Fault.TheVariants.{OutOfMemory};
ghost use Rattle.guest_memory.specs.declared.memory.TheConstants.{PAGES};
ghost use Rattle.guest_parts.specs.Parts.{guest_of_parts, stands};
ghost use Rattle.clone_state.specs.Assembly as table;
ghost use Rattle.clone_state.specs.Copies.{refused_as};
ghost use Rattle.clone_state.specs.Parts.{guest_in, part_count};

mod building;
mod slots;

use crate::reading::{first_part_of, message_of};
use disk_dcdd::TRACKS;
use guest_memory::{PAGE_BYTES, PAGES};
use guest_parts::BoardParts;
use i8080_words::{Fault, R};
use std::alloc::Global;
use std::marker::Model;

// The most bytes that the payload of a first part has: with eight outstanding writes.
const FIRST_MOST: usize = 1445;

/// The payloads of the parts of one image that have arrived. Memory for all of them is taken at the start.
#[derive(Drop)]
pub struct Assembly {
    generation: u32,
    drives: u8,
    // The payload of the first part; it is empty until that part arrives.
    first: Vec<u8>,
    // The payload of each other part that arrived, in order of index.
    later: Vec<Option<[u8; PAGE_BYTES]>>,
}

impl Model for Assembly {
    ghost use Rattle.clone_state.specs.Assembly.{Gathering};

    ghost Value = { Gathering };

    ghost use Rattle.clone_state.specs.Slots.{HasSlots, slots_of};

    ghost view = { λ a. record {
      generation = a.generation;
      drives = a.drives;
      slots = slots_of a.first.items a.later.items;
    } };

    ghost invariant = { λ a. HasSlots a.drives a.first a.later };
}

impl Assembly {
    /// An assembly of the image of this generation, for a machine of this many drives, with no part yet. `OutOfMemory` if
    /// the allocator refuses; no part that arrives needs memory.
    pub fn new(alloc: Global, generation: u32, drives: u8) -> R<Assembly>
        requires some { 1 ≤ drives }
        requires few { drives ≤ DRIVES }
        ensures ok { IfOk result (λ assembly. assembly ≡ table.nothing_gathered generation drives (part_count drives)) }
        ensures full { IsOkUnless result OutOfMemory }
    {
        let first = Vec::with_capacity(alloc, FIRST_MOST)?;
        let later = vec![in alloc; None; PAGES + TRACKS as usize * drives as usize]?;
        Ok(Assembly {
            generation,
            drives,
            first,
            later,
        })
    }

    /// A part arrives; returns whether it is new. `Malformed` if the bytes spell no part of an image for this many drives,
    /// otherwise `WrongGeneration` if they spell one of another generation. A repeat and a refusal change nothing.
    pub fn part(&mut self, bytes: &[u8]) -> R<bool>
        ensures answer { result ≡ table.part_answer self.old bytes.now }
        ensures after { self.new ≡ table.after_part self.old bytes.now }
    {
        let Some(part) = message_of(self.drives, bytes) else {
            return Err(Fault::Malformed);
        };
        if part.generation != self.generation {
            return Err(Fault::WrongGeneration);
        }
        Ok(slots::keep(&mut self.first, &mut self.later, part.index, part.payload))
    }

    /// Takes back the part that the bytes spell, as if it had not arrived. If they spell none of this image, nothing
    /// changes.
    pub fn forget(&mut self, bytes: &[u8])
        ensures { self.new ≡ table.after_forgetting self.old bytes.now }
    {
        let Some(part) = message_of(self.drives, bytes) else {
            return;
        };
        if part.generation == self.generation {
            slots::clear(&mut self.first, &mut self.later, part.index);
        }
    }

    /// Whether every part has arrived. `NotWhole` if one is missing.
    pub fn whole(&self) -> R<()>
        ensures { result ≡ table.whole_answer self.now }
    {
        if slots::are_full(&self.first, &self.later) {
            Ok(())
        } else {
            Err(Fault::NotWhole)
        }
    }

    /// What the parts that arrived say of a board: one can be in that state.
    ///
    /// `NotWhole` if a part is missing, otherwise `Malformed` if the parts fit no board together, otherwise
    /// `OutOfMemory` if there is no memory for it.
    pub fn board_parts(&self, alloc: Global) -> R<BoardParts>
        ensures guest { IfOk result (λ parts. table.machine_in self.now ≡ Some (guest_of_parts parts)) }
        ensures stands { IfOk result (λ parts. stands parts ≡ true) }
        ensures refused { IfErr result (λ fault. fault
            ≡ refused_as (λ parts. is_some (guest_in self.now.drives parts)) (table.gathered self.now.slots)) }
    {
        self.whole()?;
        let Some(first) = first_part_of(self.drives, &self.first) else {
            return Err(Fault::Malformed);
        };
        if !building::fit(&first.devices.disk, &self.later) {
            return Err(Fault::Malformed);
        }
        let Ok(parts) = building::parts_of_board(alloc, first, &self.later) else {
            return Err(Fault::OutOfMemory);
        };
        Ok(parts)
    }
}

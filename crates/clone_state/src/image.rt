//! The image of a machine: a copy of its guest, spelled part by part.
ghost use Rattle.std.specs.Prelude.{◌≡◌, ◌<◌, [], IfOk, IsOkUnless, slice_index_or};
ghost use Rattle.i8080_words.specs.declared.refusal.Fault.TheVariants.{OutOfMemory};
ghost use Rattle.guest_parts.specs.Parts.{guest_of_parts};
ghost use Rattle.clone_state.specs.Checkpoint.{checkpoint_in_parts};
ghost use Rattle.clone_state.specs.Image.{IsCopyOf, Spells, part_at, part_bytes};
ghost use Rattle.clone_state.specs.Parts.{part_count, parts_of};

use crate::spelling;
use guest_memory::PAGES;
use guest_parts::BoardParts;
use i8080_words::{Fault, R};
use std::alloc::Global;

// A table of the last completed writes for each track.
const TABLES: u16 = disk_dcdd::TRACKS as u16;

/// A copy of a board's guest, and the generation that it begins. Its parts are spelled when they are asked for: the
/// first part, a part for each page of memory, and a part for each track of the attached drives.
#[derive(Drop)]
pub struct Image {
    copied: BoardParts,
    generation: u32,
    ghost whole: { IsCopyOf (guest_of_parts copied) copied },
}

impl Image {
    /// The image that has these parts of a board, for the generation that it begins.
    pub fn of_parts(copied: BoardParts, generation: u32) -> Image
        requires generation { 0 < generation }
        requires whole { IsCopyOf (guest_of_parts copied) copied }
        ensures copied { result.copied ≡ copied }
        ensures generation { result.generation ≡ generation }
    {
        Image { copied, generation }
    }

    /// How many parts the image has: 334 for one drive, 565 for four.
    pub fn parts(&self) -> u16
        ensures { result ≡ part_count self.now.copied.devices.disk.attached }
    {
        self.copied.devices.disk.stands();
        1 + PAGES as u16 + TABLES * u16::from(self.copied.devices.disk.attached())
    }

    /// The bytes of a part, in memory of their own. `Unknown` if the image has no part of this index, otherwise
    /// `OutOfMemory` if the allocator refuses.
    pub fn part(&self, alloc: Global, index: u16) -> R<Vec<u8>>
        ensures { Spells (part_at (guest_of_parts self.now.copied) self.now.generation index) result }
    {
        if index >= self.parts() {
            return Err(Fault::Unknown);
        }
        self.known_part(alloc, index)
    }

    // The bytes of a part that the image has.
    fn known_part(&self, alloc: Global, index: u16) -> R<Vec<u8>>
        requires { index < part_count self.now.copied.devices.disk.attached }
        ensures ok { IfOk result (λ bytes. bytes.items ≡ part_bytes self.now.generation index
            (slice_index_or (parts_of (checkpoint_in_parts self.now.copied)) index [])) }
        ensures full { IsOkUnless result OutOfMemory }
    {
        self.copied.devices.disk.stands();
        let mut part = Vec::with_capacity(alloc, spelling::part_length(&self.copied, index))?;
        part.extend_from_slice(&spelling::head(self.generation, index))?;
        spelling::write_payload(&mut part, &self.copied, index)?;
        Ok(part)
    }
}

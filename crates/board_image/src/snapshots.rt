//! An image of a guest as it is now, which leaves the guest as it is, and the draft of its image too.
ghost use Rattle.std.specs.Prelude.{◌≡◌, ◌<◌, IfOk, IsOkUnless};
ghost use Rattle.guest_parts.specs.Parts.{guest_of_parts};
ghost use Rattle.i8080_words.specs.declared.refusal.Fault.TheVariants.{OutOfMemory};

use crate::{DraftedBoard, image_of};
use clone_state::Image;
use event_callbacks::Completes;
use guest_board::Board;
use i8080_words::R;
use std::alloc::Global;

/// A guest of which an image can be made at any time.
pub trait Snapshots {
    ghost use Rattle.guest_parts.specs.Guest.{Guest};

    /// What is copied of a guest.
    ghost pictured: { Self → Guest };

    /// The image of the guest, as it is now, for a generation. `OutOfMemory` if the allocator refuses it.
    fn snapshot(&self, alloc: Global, generation: u32) -> R<Image>
        requires { 0 < generation }
        ensures copied { IfOk result (λ image. guest_of_parts image.copied ≡ pictured self.now) }
        ensures generation { IfOk result (λ image. image.generation ≡ generation) }
        ensures full { IsOkUnless result OutOfMemory };
}

impl<T: Completes, S: Completes, W: Completes> Snapshots for Board<T, S, W> {
    ghost pictured = { λ b. b.guest };

    fn snapshot(&self, alloc: Global, generation: u32) -> R<Image> {
        image_of(alloc, self, generation)
    }
}

impl<T: Completes, S: Completes, W: Completes> Snapshots for DraftedBoard<T, S, W> {
    ghost pictured = { λ d. d.board.guest };

    fn snapshot(&self, alloc: Global, generation: u32) -> R<Image> {
        self.board().snapshot(alloc, generation)
    }
}

//! The image of a board, as it is now.
ghost use Rattle.std.specs.Prelude.{◌≡◌, ◌<◌, IfOk, IfErr, IsOkUnless, map};
ghost use Rattle.i8080_words.specs.declared.refusal.Fault.TheVariants.{OutOfMemory};
ghost use Rattle.disk_dcdd.specs.Sector.{place_of};
ghost use Rattle.guest_parts.specs.Parts.{HaveWrites, guest_of_parts};
ghost use Rattle.board_image.specs.Drafts.{Agrees};

use crate::copying::{Lists, copied_memory, lists_of_board, parts_of_board};
use crate::draft::Draft;
use clone_state::Image;
use event_callbacks::Completes;
use guest_board::Board;
use i8080_words::{Fault, R};
use std::alloc::Global;

/// The image of a board, as it is now, for the generation that it begins. Takes memory for one copy of the guest's.
/// `OutOfMemory` if the allocator refuses it.
pub fn image_of<T: Completes, S: Completes, W: Completes>(
    alloc: Global,
    board: &Board<T, S, W>,
    generation: u32,
) -> R<Image>
    requires { 0 < generation }
    ensures copied { IfOk result (λ image. guest_of_parts image.copied ≡ board.now.guest) }
    ensures generation { IfOk result (λ image. image.generation ≡ generation) }
    ensures full { IsOkUnless result OutOfMemory }
{
    let memory = copied_memory(alloc, board)?;
    let lists = lists_of_board(alloc, board)?;
    Ok(image_with(board, memory, lists, generation))
}

/// The same image, in the memory of a draft of the board: only the stale pages are copied, and memory is taken only for
/// what is not in pages. `OutOfMemory` if the allocator refuses that; the draft is handed back.
pub fn image_of_draft<T: Completes, S: Completes, W: Completes>(
    alloc: Global,
    draft: Draft,
    board: &Board<T, S, W>,
    generation: u32,
) -> Result<Image, (Draft, Fault)>
    requires generation { 0 < generation }
    requires agrees { Agrees draft board.now }
    ensures copied { IfOk result (λ image. guest_of_parts image.copied ≡ board.now.guest) }
    ensures generation { IfOk result (λ image. image.generation ≡ generation) }
    ensures full { IfErr result (λ refused. (refused.0 ≡ draft) × (refused.1 ≡ OutOfMemory)) }
{
    let Ok(lists) = lists_of_board(alloc, board) else {
        return Err((draft, Fault::OutOfMemory));
    };
    let memory = draft.into_memory(board);
    Ok(image_with(board, memory, lists, generation))
}

// The image with this memory and these lists of the board. Allocates no memory.
fn image_with<T: Completes, S: Completes, W: Completes>(
    board: &Board<T, S, W>,
    memory: Vec<u8>,
    lists: Lists,
    generation: u32,
) -> Image
    requires generation { 0 < generation }
    requires memory { memory.items ≡ board.now.guest.memory }
    requires writes { HaveWrites board.now.guest.operations lists.writes.items }
    requires places { map place_of lists.writes.items ≡ board.now.guest.devices.disk.outstanding }
    requires completed { lists.completed.items ≡ board.now.guest.completed }
    ensures copied { guest_of_parts result.copied ≡ board.now.guest }
    ensures generation { result.generation ≡ generation }
{
    let copied = parts_of_board(board, memory, lists);
    board.stands();
    board.can_be_rebuilt(&copied);
    Image::of_parts(copied, generation)
}

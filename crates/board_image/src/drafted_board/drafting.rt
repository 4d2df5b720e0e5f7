//! The draft of a board: how it is begun and freshened, and the image that it gives.
ghost use Rattle.std.specs.Prelude.{◌≡◌, ◌<◌, ◌-◌, IfOk, IsOkUnless, OnErr, OnOk, None};
ghost use Rattle.i8080_words.specs.declared.refusal.Fault.TheVariants.{OutOfMemory};
ghost use Rattle.guest_parts.specs.Parts.{guest_of_parts};
ghost use Rattle.board_image.specs.DraftedBoard.{AgreesWith, KeepsUpWith, stale_with};
ghost use Rattle.guest_lockstep.specs.Pages.{every_page};
ghost use Rattle.clone_state.specs.Stale.{AreCopied, stale_count};
ghost use Rattle.board_image.specs.Drafts.{KeepsUp, stale_in};

use crate::draft::Draft;
use crate::images::{image_of, image_of_draft};
use clone_state::Image;
use event_callbacks::Completes;
use guest_board::Board;
use i8080_words::R;
use std::alloc::Global;
use std::mem;

// Copies the lowest stale pages into the draft, which begins here if there is none. Returns how many are still stale.
pub(super) fn freshen<T: Completes, S: Completes, W: Completes>(
    alloc: Global,
    draft: &mut Option<Draft>,
    board: &Board<T, S, W>,
    pages: u64,
) -> R<u64>
    requires { KeepsUpWith board.now draft.old }
    ensures keeps_up { KeepsUpWith board.now draft.new }
    ensures fewer { IfOk result (λ stale. stale ≡ stale_count (stale_with board.now draft.old) - pages) }
    ensures stale { IfOk result (λ stale. stale ≡ stale_count (stale_with board.now draft.new)) }
    ensures lowest { OnOk result (AreCopied pages (stale_with board.now draft.old) (stale_with board.now draft.new)) }
    ensures begins { OnErr result (draft.old ≡ None) }
    ensures full { IsOkUnless result OutOfMemory }
    ensures unchanged { OnErr result (draft.new ≡ draft.old) }
{
    match draft {
        Some(begun) => Ok(begun.freshen(board, pages)),
        None => {
            let (begun, stale) = begin(alloc, board, pages)?;
            *draft = Some(begun);
            Ok(stale)
        }
    }
}

// A draft of the board, with its lowest pages copied, and how many are still stale.
fn begin<T: Completes, S: Completes, W: Completes>(
    alloc: Global,
    board: &Board<T, S, W>,
    pages: u64,
) -> R<(Draft, u64)>
    ensures keeps_up { IfOk result (λ begun. KeepsUp begun.0 board.now) }
    ensures fewer { IfOk result (λ begun. begun.1 ≡ stale_count every_page - pages) }
    ensures stale { IfOk result (λ begun. begun.1 ≡ stale_count (stale_in begun.0 board.now)) }
    ensures lowest { IfOk result (λ begun. AreCopied pages every_page (stale_in begun.0 board.now)) }
    ensures full { IsOkUnless result OutOfMemory }
{
    let mut draft = Draft::new(alloc)?;
    let stale = draft.freshen(board, pages);
    Ok((draft, stale))
}

// The image of the board, in the memory of its draft if there is one. If it is refused the draft stays.
pub(super) fn image<T: Completes, S: Completes, W: Completes>(
    alloc: Global,
    draft: &mut Option<Draft>,
    board: &Board<T, S, W>,
    generation: u32,
) -> R<Image>
    requires generation { 0 < generation }
    requires agrees { AgreesWith board.now draft.old }
    ensures copied { IfOk result (λ image. guest_of_parts image.copied ≡ board.now.guest) }
    ensures generation { IfOk result (λ image. image.generation ≡ generation) }
    ensures full { IsOkUnless result OutOfMemory }
    ensures used { OnOk result (draft.new ≡ None) }
    ensures unchanged { OnErr result (draft.new ≡ draft.old) }
{
    match mem::replace(draft, None) {
        None => image_of(alloc, board, generation),
        Some(begun) => match image_of_draft(alloc, begun, board, generation) {
            Ok(image) => Ok(image),
            Err((begun, fault)) => {
                *draft = Some(begun);
                Err(fault)
            }
        },
    }
}

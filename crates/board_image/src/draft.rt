//! A draft of an image: pages of a board that are copied before the image is asked for.
ghost use Rattle.std.specs.Prelude.{◌≡◌, ◌-◌, IfOk, IsOkUnless};
ghost use Rattle.i8080_words.specs.declared.refusal.Fault.TheVariants.{OutOfMemory};
ghost use Rattle.board_image.specs.Drafts.{Agrees, HasRoom, IsFreshened, KeepsUp, nothing_copied, none_copied, stale_pages};
ghost use Rattle.guest_memory.specs.Pages.{zeros};

mod freshening;

use event_callbacks::Completes;
use guest_board::Board;
use guest_memory::{BYTES, PAGES};
use i8080_words::R;
use std::alloc::Global;
use std::marker::Model;

/// Pages of a board, copied early, with the version at which each was copied. A page is stale until it is copied, and
/// after each write to it. A draft is of one board: its calls require that each page which was copied at its present
/// version is the board's, and the law `drafts_keep_up` says that steps and inputs of the board leave it so.
#[derive(Drop)]
pub struct Draft {
    bytes: Vec<u8>,
    copied: Vec<Option<u64>>,
}

impl Model for Draft {
    ghost use Rattle.board_image.specs.Drafts.{Drafted, HasRoom};

    ghost Value = { Drafted };

    ghost view = { λ d. record { bytes = d.bytes.items; copied = d.copied.items } };

    ghost invariant = { λ d. HasRoom (record { bytes = d.bytes.items; copied = d.copied.items }) };
}

impl Draft {
    /// A draft of any board, with every page stale. Takes the memory for all pages; `OutOfMemory` if the allocator
    /// refuses it.
    pub fn new(alloc: Global) -> R<Draft>
        ensures ok { IfOk result (λ draft. draft ≡ nothing_copied) }
        ensures full { IsOkUnless result OutOfMemory }
    {
        let bytes = zero_bytes(alloc, BYTES)?;
        let copied = no_versions(alloc, PAGES)?;
        Ok(Draft { bytes, copied })
    }

    /// Copies the `k` lowest stale pages, all of them if there are fewer. Returns how many are still stale. Takes no memory.
    pub fn freshen<T: Completes, S: Completes, W: Completes>(
        &mut self,
        board: &Board<T, S, W>,
        k: u64,
    ) -> u64
        requires { Agrees self.old board.now }
        ensures freshened { IsFreshened k board.now self.old self.new }
        ensures keeps_up { KeepsUp self.old board.now → KeepsUp self.new board.now }
        ensures agrees { Agrees self.new board.now }
        ensures stale { result ≡ stale_pages self.new board.now }
        ensures fewer { result ≡ stale_pages self.old board.now - k }
    {
        freshening::copy_stale_pages(&mut self.bytes, &mut self.copied, board, k)
    }

    /// The memory of the board, in the draft's own: only stale pages are copied.
    pub(crate) fn into_memory<T: Completes, S: Completes, W: Completes>(
        self,
        board: &Board<T, S, W>,
    ) -> Vec<u8>
        requires { Agrees self board.now }
        ensures { result.items ≡ board.now.guest.memory }
    {
        board.stands();
        let mut draft = self;
        draft.freshen(board, PAGES as u64);
        draft.has_room();
        draft.into_bytes()
    }

    // There is always room for every page.
    pub(crate) fn has_room(&self)
        ensures { HasRoom self.now }
    {
        let _ = &self.bytes;
    }

    fn into_bytes(self) -> Vec<u8>
        ensures { result.items ≡ self.bytes }
    {
        self.bytes
    }
}

// This many bytes of 00.
#[tactic(auto, unfolding(guest_memory::specs::Pages::zeros))]
fn zero_bytes(alloc: Global, count: usize) -> R<Vec<u8>>
    ensures ok { IfOk result (λ bytes. bytes.items ≡ zeros count) }
    ensures full { IsOkUnless result OutOfMemory }
{
    let bytes = vec![in alloc; 0; count]?;
    Ok(bytes)
}

// No version for this many pages.
#[tactic(auto, unfolding(crate::specs::Drafts::none_copied))]
fn no_versions(alloc: Global, count: usize) -> R<Vec<Option<u64>>>
    ensures ok { IfOk result (λ copied. copied.items ≡ none_copied count) }
    ensures full { IsOkUnless result OutOfMemory }
{
    let copied = vec![in alloc; None; count]?;
    Ok(copied)
}

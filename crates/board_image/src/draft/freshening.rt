//! Pages are copied from a board into a draft.
ghost use Rattle.std.specs.Prelude.{◌≡◌, ◌≤◌, ◌+◌, ◌-◌, ◌==◌, ℕ, None, Some, length, slice_index, slice_index_or, slice_set, if◌then◌else◌};
ghost use Rattle.guest_memory.specs.Pages.{page_of};
ghost use Rattle.guest_memory.specs.declared.memory.TheConstants.{BYTES, PAGES};
ghost use Rattle.board_image.specs.Drafts as table;

use event_callbacks::Completes;
use guest_board::Board;
use guest_memory::{PAGE_BYTES, PAGES};

/// Copies the lowest stale pages, at most this many. Returns how many are still stale.
pub(super) fn copy_stale_pages<T: Completes, S: Completes, W: Completes>(
    bytes: &mut Vec<u8>,
    copied: &mut Vec<Option<u64>>,
    board: &Board<T, S, W>,
    most: u64,
) -> u64
    requires { table.HasRoom (record { bytes = bytes.old.items; copied = copied.old.items }) }
    ensures room { table.HasRoom (record { bytes = bytes.new.items; copied = copied.new.items }) }
    ensures freshened { table.IsFreshened most board.now
        (record { bytes = bytes.old.items; copied = copied.old.items })
        (record { bytes = bytes.new.items; copied = copied.new.items }) }
    ensures fewer { result
        ≡ table.stale_pages (record { bytes = bytes.old.items; copied = copied.old.items }) board.now - most }
{
    board.stands();
    let mut left = most;
    let mut stale = 0;
    for page in 0..PAGES {
        visit_page(bytes, copied, board, page as u8, &mut left, &mut stale);
    }
    stale
}

// Copies a page if it is stale and more may be copied; otherwise counts it if it is stale.
fn visit_page<T: Completes, S: Completes, W: Completes>(
    bytes: &mut Vec<u8>,
    copied: &mut Vec<Option<u64>>,
    board: &Board<T, S, W>,
    page: u8,
    left: &mut u64,
    stale: &mut u64,
)
    requires room { table.HasRoom (record { bytes = bytes.old.items; copied = copied.old.items }) }
    requires few { stale.old ≤ page }
    ensures { (k : ℕ) (old : table.Drafted)
        → table.HasCopied k board.now old page (record { bytes = bytes.old.items; copied = copied.old.items })
        left.old stale.old
        → table.HasCopied k board.now old (page + 1)
        (record { bytes = bytes.new.items; copied = copied.new.items }) left.new stale.new }
{
    board.stands();
    if !is_stale(copied, board, page) {
        return;
    }
    if *left == 0 {
        *stale += 1;
        return;
    }
    copy_page(bytes, copied, board, page);
    *left -= 1;
}

// Whether the page must be copied: it was not, or was written since.
fn is_stale<T: Completes, S: Completes, W: Completes>(
    copied: &Vec<Option<u64>>,
    board: &Board<T, S, W>,
    page: u8,
) -> bool
    requires { length copied.now.items ≡ PAGES }
    ensures { result ≡ table.is_old (slice_index_or copied.now.items page None) (slice_index board.now.versions page) }
{
    match copied[page as usize] {
        Some(version) => version != board.version(page),
        None => true,
    }
}

// Copies a page, and notes its version.
fn copy_page<T: Completes, S: Completes, W: Completes>(
    bytes: &mut Vec<u8>,
    copied: &mut Vec<Option<u64>>,
    board: &Board<T, S, W>,
    page: u8,
)
    requires room { table.HasRoom (record { bytes = bytes.old.items; copied = copied.old.items }) }
    requires memory { length board.now.guest.memory ≡ BYTES }
    ensures length { length bytes.new.items ≡ BYTES }
    ensures bytes { (address : ℕ) → slice_index bytes.new.items address ≡ (if page_of address == page
        then slice_index board.now.guest.memory address else slice_index bytes.old.items address) }
    ensures copied { copied.new.items ≡ slice_set copied.old.items page (Some (slice_index board.now.versions page)) }
{
    let start = page as usize * PAGE_BYTES;
    bytes[start..start + PAGE_BYTES].copy_from_slice(board.page(page));
    copied[page as usize] = Some(board.version(page));
}

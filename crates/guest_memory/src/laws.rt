//! What follows from the definitions alone.

ghost use Rattle.std.specs.Prelude.{◌≡◌, ℕ, ◌^◌, ◌<◌, List, length, slice_index};
ghost use Rattle.guest_memory.specs.declared.memory.TheConstants.{BYTES};
ghost use Rattle.guest_memory.specs.Laws.{CountsWrites, JoinsItsPages, ReadsBack};
ghost use Rattle.guest_memory.specs.Limits.{Limits};
ghost use Rattle.guest_memory.specs.Pages.{IsWhole, Pages, byte_at, cleared, unwritten, version_at};

/// What is written at an address is read there, and nowhere else.
pub fn writes_read_back()
    ensures { (memory : Pages) → IsWhole memory → ReadsBack memory }
{}

/// A write raises its own page's version by one, and no other version.
pub fn versions_count_writes()
    ensures { (memory : Pages) → IsWhole memory → CountsWrites memory }
{}

/// New memory is whole, with each page at version 0; if made from no bytes, it reads 00 at every address.
#[tactic(auto, using(crate::proofs::NewMemory::only_zeros, crate::proofs::NewMemory::unwritten_is_whole))]
pub fn new_memory_is_unwritten()
    ensures whole { (bytes : List ℕ) → length bytes ≡ BYTES
        → ((address : ℕ) → slice_index bytes address < 2 ^ 8) → IsWhole (unwritten bytes) }
    ensures versions { (page : ℕ) → version_at cleared page ≡ 0 }
    ensures bytes { (address : ℕ) → byte_at cleared address ≡ 0 }
{}

/// The pages, concatenated, are the bytes.
#[tactic(auto, using(crate::proofs::JoinedPages::pages_join))]
pub fn pages_join_to_memory()
    ensures { (memory : Pages) → IsWhole memory → JoinsItsPages memory }
{}

/// Each number that definitions cite by its name in the code is the one stated.
pub fn limits()
    ensures { Limits }
{}

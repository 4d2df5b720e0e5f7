//! What follows from the definitions alone, for the crates above.
ghost use Rattle.std.specs.Prelude.{◌≡◌, ℕ, ◌≤◌, false, List, [], ◌++◌, AllPairs, length, drop};
ghost use Rattle.event_callbacks.specs.declared.operations.OpId.{OpId};
ghost use Rattle.log_buffer.specs.Log.{log};
ghost use Rattle.log_entry.specs.declared.entry.Entry.{Entry};
ghost use Rattle.output_rule.specs.Covering.{Covering, after_acknowledge, nothing_acknowledged};
ghost use Rattle.output_rule.specs.Laws.{AreNotesOf, Comes, Goes, NeverFalls, Tells};
ghost use Rattle.output_rule.specs.Limits.{Limits};
ghost use Rattle.output_rule.specs.Notes.{AreApart};
ghost use Rattle.output_rule.specs.declared.notes.Note.{Note};

/// A note is under its operation's name until it is removed, and no other note is touched.
pub fn notes_come_and_go()
    ensures comes { (notes : List Note) (id : OpId) (index after : ℕ) → Comes notes id index after }
    ensures goes { (notes : List Note) (id : OpId) → Goes notes id }
{}

/// There are no more notes than operations that may have one, so if fewer than `PLACES` may, there is room.
#[tactic(auto, using(crate::proofs::FewNotes::few_notes))]
pub fn notes_are_as_few_as_operations()
    ensures { (notes : List Note) (names : List OpId)
        → AllPairs AreApart notes → AreNotesOf names notes → length notes ≤ length names }
{}

/// What is covered stays covered, and the numbers of keys never fall.
#[tactic(auto, using(crate::proofs::Covered::never_falls))]
pub fn coverage_never_falls()
    ensures { (c : Covering) → NeverFalls c }
{}

/// For a log that begins at index 0, the covered keys are those of the image and those among the acknowledged entries:
/// when a coverage begins, as the log grows, as notes are added and removed, and when an acknowledgement arrives while
/// the log keeps the entries that were not acknowledged before.
#[tactic(auto, using(crate::proofs::Told::tells_at_first, crate::proofs::Told::tells_of_more))]
pub fn told_keys_are_acknowledged()
    ensures at_first { (image : List ℕ) → Tells image [] (nothing_acknowledged image) }
    ensures log { (image : List ℕ) (entries more : List Entry) (c : Covering)
        → Tells image entries c → Tells image (entries ++ more) c }
    ensures notes { (image : List ℕ) (entries : List Entry) (c : Covering) (notes : List Note)
        → Tells image entries c → Tells image entries (record c { notes = notes }) }
    ensures acknowledged { (image : List ℕ) (entries : List Entry) (c : Covering) (first held replayed : ℕ)
        → Tells image entries c → c.all ≡ false → first ≤ c.acknowledged → held ≤ length entries
        → Tells image entries (after_acknowledge c (log first (drop first entries)) held replayed) }
{}

/// The number that definitions cite by its name in the code is the one stated.
pub fn limits()
    ensures { Limits }
{}

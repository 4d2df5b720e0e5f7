//! What follows from the definitions alone.

ghost use Rattle.std.specs.Prelude.{ℕ, List};
ghost use Rattle.guest_lockstep.specs.Machine.{Move};
ghost use Rattle.guest_lockstep.specs.declared.reads.Reads.{Reads};
ghost use Rattle.log_entry.specs.Laws.{KeepsInputs, OneMeaning, OneSpelling, ReadsAgain, StandInOrder};

/// What is written is read back, nothing else is read as that entry, and no two entries are written alike.
pub fn entries_spell_one_way()
    ensures again { ReadsAgain }
    ensures one_spelling { OneSpelling }
    ensures one_meaning { OneMeaning }
{}

/// The inputs of a trace's entries are the inputs of the trace, at the same counts.
pub fn entries_keep_the_inputs()
    ensures { KeepsInputs }
{}

/// The counts of a trace's entries never fall, and none is past the trace's end.
pub fn entries_stand_in_order()
    ensures { (reads : Reads) (count : ℕ) (moves : List Move) → StandInOrder reads count moves }
{}

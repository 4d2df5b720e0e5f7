//! What follows from the definitions alone, for the crates above.
ghost use Rattle.recorder.specs.Laws.{AdvancesRecord, OffersRecord, RecordedCounts, RecordedRuns, RecordsJoin};

/// An advance or an offer pushes exactly the entries of the moves that it makes, in their order: one for each input,
/// and each operation's mark right after its step.
pub fn moves_are_recorded<S>()
    ensures advances { AdvancesRecord S }
    ensures offers { OffersRecord S }
    ensures join { RecordsJoin S }
{}

/// Whatever was recorded is a run of the machine, and the machine's count rises by its steps.
pub fn recorded_runs_are_runs<S>()
    ensures runs { RecordedRuns S }
    ensures count { RecordedCounts S }
{}

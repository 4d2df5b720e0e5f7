//! What follows from the definitions alone, for the crates above.
ghost use Rattle.log_buffer.specs.Log.{Log};
ghost use Rattle.log_buffer.specs.Laws.{KeepsIndexes};
ghost use Rattle.log_buffer.specs.Limits.{Limits};

/// An entry is at the index that its push returned, whatever is pushed after it, until it is dropped.
pub fn entries_keep_their_indexes()
    ensures { (log : Log) → KeepsIndexes log }
{}

/// Each number that definitions cite by its name in the code is the one stated.
pub fn limits()
    ensures { Limits }
{}

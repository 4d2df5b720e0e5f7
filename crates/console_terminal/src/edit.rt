//! What is done to a command line at its cursor.

/// An edit of a command line.
#[derive(Debug, Clone, Copy, PartialEq, Eq)]
pub enum Edit {
    /// This byte comes in at the cursor.
    Adds(u8),
    /// What is before the cursor goes.
    TakesBack,
    /// What is under it goes.
    Deletes,
    GoesLeft,
    GoesRight,
    GoesToBegin,
    GoesToEnd,
    /// All before the cursor goes.
    CutsFront,
    /// All from the cursor on goes.
    CutsRest,
    /// What the commands have in common that begin as the line does comes in, if the cursor is at its end.
    Completes,
    /// The line before this one, of those that were carried out, takes its place.
    RecallsEarlier,
    /// The one after it does.
    RecallsLater,
}

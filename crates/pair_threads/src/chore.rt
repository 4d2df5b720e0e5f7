//! What a primary's worker does, in rotation.
ghost use Rattle.std.specs.Prelude.{◌≡◌};
ghost use Rattle.pair_threads.specs.Choosing.{next_chore};

/// What one turn of a primary's worker does.
#[derive(Clone, Copy, PartialEq, Eq)]
pub(crate) enum Chore {
    /// See how many entries are acknowledged.
    See,
    /// Give the oldest byte of the port whose turn it is to its terminal.
    Emit,
    /// See how many of its bytes are accepted.
    Count,
    /// Take an acceptance.
    Accept,
    /// Take a key of that port.
    Key,
    /// Ask the disk for a write, or for the sector that is due.
    Ask,
    /// See what the disk answers.
    Answer,
    /// Take what it answered.
    Complete,
    /// Post the next entry that is not acknowledged.
    Post,
    /// Let the guest run.
    Run,
}

/// How many turns without a change make a rotation over both ports.
pub(crate) const ROTATION: u8 = 20;

impl Chore {
    /// The chore after this one in the rotation.
    pub(crate) fn next(self) -> Chore
        ensures { result ≡ next_chore self }
    {
        match self {
            Chore::See => Chore::Emit,
            Chore::Emit => Chore::Count,
            Chore::Count => Chore::Accept,
            Chore::Accept => Chore::Key,
            Chore::Key => Chore::Ask,
            Chore::Ask => Chore::Answer,
            Chore::Answer => Chore::Complete,
            Chore::Complete => Chore::Post,
            Chore::Post => Chore::Run,
            Chore::Run => Chore::See,
        }
    }
}

//! What a step of the guest was.
ghost use Rattle.std.specs.Prelude.{◌≡◌};
ghost use Rattle.guest_board.specs.Stepping.{given_by};

use event_callbacks::{OpId, Operation};

/// What a step was.
#[derive(Clone, Copy)]
pub enum Executed {
    /// One instruction, with the operation that it gave.
    Ran(Option<Operation>),
    /// An accepted interrupt.
    Accepted,
}

impl Executed {
    /// The operation that the step gave.
    pub fn given(self) -> Option<Operation>
        ensures { result ≡ given_by self }
    {
        match self {
            Executed::Ran(operation) => operation,
            Executed::Accepted => None,
        }
    }
}

// What a step was, with the name of the operation that it gave: a result that fits in registers.
#[derive(Clone, Copy)]
pub(crate) enum Step {
    Ran(Option<OpId>),
    Accepted,
}

//! The parts of a round of the ordinary day.
ghost use Rattle.std.specs.Prelude.{◌≡◌};
ghost use Rattle.shell_picture.specs.Rounds.{after};

/// The parts of a round, in their order.
#[derive(Clone, Copy)]
pub enum Phase {
    Keys,
    Get,
    Under,
    Step,
    Send,
    Log,
    Acknowledge,
    Acknowledged,
    Replay,
    Fetch,
    Fetched,
    Tell,
    Release,
    Arrive,
    Complete,
}

impl Phase {
    /// The part that comes next; after the last one a new round begins.
    pub fn after(self) -> Phase
        ensures { result ≡ after self }
    {
        match self {
            Phase::Keys => Phase::Get,
            Phase::Get => Phase::Under,
            Phase::Under => Phase::Step,
            Phase::Step => Phase::Send,
            Phase::Send => Phase::Log,
            Phase::Log => Phase::Acknowledge,
            Phase::Acknowledge => Phase::Acknowledged,
            Phase::Acknowledged => Phase::Replay,
            Phase::Replay => Phase::Fetch,
            Phase::Fetch => Phase::Fetched,
            Phase::Fetched => Phase::Tell,
            Phase::Tell => Phase::Release,
            Phase::Release => Phase::Arrive,
            Phase::Arrive => Phase::Complete,
            Phase::Complete => Phase::Keys,
        }
    }
}

//! What a worker with a guest is told before it begins.
ghost use Rattle.std.specs.Prelude.{◌≡◌, ◌↔◌, Some, true, max, IsSome, IsTrue};

/// When a worker asks to go on alone, and how far its guest moves in one turn.
#[derive(Clone, Copy)]
pub(crate) struct Briefing {
    /// The turn at which it asks to go on alone, if it does.
    pub(crate) contests_at: Option<u64>,
    /// Whether it or the other one asks.
    pub(crate) contested: bool,
    /// How many steps its guest may make in one turn.
    pub(crate) steps: u64,
    ghost told: { IsSome contests_at → contested ≡ true },
}

impl Briefing {
    /// A plan; `contested` says whether this worker or the other one asks.
    pub(crate) fn new(contests_at: Option<u64>, contested: bool, steps: u64) -> Briefing
        requires told { IsSome contests_at → contested ≡ true }
        ensures asks { (result.contests_at ≡ contests_at) × (result.contested ≡ contested) }
        ensures steps { result.steps ≡ max steps 1 }
    {
        Briefing {
            contests_at,
            contested,
            steps: steps.max(1),
        }
    }

    /// Whether the worker asks to go on alone in the turn of this number.
    pub(crate) fn asks_at(&self, number: u64) -> bool
        ensures { IsTrue result ↔ (self.now.contests_at ≡ Some number) }
    {
        self.contests_at == Some(number)
    }
}

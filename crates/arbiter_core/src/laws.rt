//! What follows from the definitions alone.
ghost use Rattle.std.specs.Prelude.{List};
ghost use Rattle.arbiter_core.specs.Winners.{FirstAskersWin};
ghost use Rattle.arbiter_core.specs.declared.arbiter.Asking.{Asking};

/// The winner of a generation is the first node that asked for it, whatever is asked later.
#[tactic(auto, using(crate::proofs::FirstAskers::first_askers_win))]
pub fn first_askers_win()
    ensures { (askings : List Asking) → FirstAskersWin askings }
{}

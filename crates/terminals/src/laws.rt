//! What follows from the definitions alone.
ghost use Rattle.std.specs.Prelude.{List};
ghost use Rattle.terminals.specs.Arrivals.{Arrival, AcceptsOneList};

/// Every list of arrivals has one longest list of bytes in order, and no other.
#[tactic(auto, using(crate::proofs::Accepted::accepts_one_list))]
pub fn arrivals_decide_what_is_accepted()
    ensures { (arrivals : List Arrival) → AcceptsOneList arrivals }
{}

//! What follows from the definitions alone, for the crates above.
ghost use Rattle.guest_parts.specs.Guest.{Guest};
ghost use Rattle.guest_board.specs.Inputs.{RefusesAlike, some_altair};
ghost use Rattle.guest_lockstep.specs.Outstanding.{ComesAndGoes};
ghost use Rattle.guest_lockstep.specs.Recorded.{Counts};
ghost use Rattle.guest_lockstep.specs.declared.input.Input.{Input};

/// Every Altair refuses alike, whatever setup it booted from and whatever its sectors held: what `Board::check` and
/// `Board::take` refuse is what the machine of any setup refuses.
pub fn the_machine_refuses_alike()
    ensures { (g : Guest) (input : Input) → RefusesAlike g input }
{}

/// A guest counts its steps: each raises the count by one, an input leaves it unchanged, and a spent guest executes
/// none.
pub fn boards_count()
    ensures { Counts some_altair }
{}

/// An operation that a step gives is outstanding until an input completes it; no other move touches it.
pub fn boards_issue_and_complete()
    ensures { ComesAndGoes some_altair }
{}

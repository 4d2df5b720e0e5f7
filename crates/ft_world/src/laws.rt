//! What the terminals and the disk of a world have, as choices over everything that arrived. Nothing here runs.
ghost use Rattle.ft_world.specs.Choices.{DisksKeepTheGreatest, TerminalsAcceptTheLongest};

/// In every world, a terminal has accepted the longest list of bytes, in the order of their numbers from 1 on, that can
/// be chosen from all that arrived at it, in whatever order and however often.
pub fn terminals_accept_the_longest_list<S>()
    ensures { TerminalsAcceptTheLongest S }
{}

/// In every world, the disk has in each sector the write of the greatest number of all that arrived for it, in whatever
/// order, and the first of several with that number; if none arrived, its bytes at boot.
#[tactic(auto, using(crate::proofs::Choices::disks_keep))]
pub fn disks_keep_the_greatest_write<S>()
    ensures { DisksKeepTheGreatest S }
{}

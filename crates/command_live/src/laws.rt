//! The law of threads, for Altairs. Nothing here runs.
ghost use Rattle.command_live.specs.Altairs.{AltairThreadsAreFaithful, AltairsAreRunnable};

use altair_laws::altairs_are_lawful;
use guest_board::{boards_count, boards_issue_and_complete};

/// The Altair of every setup, with any sectors on its disks, is a machine that the threads may run, and so they keep
/// these promises with it.
pub fn altair_threads_are_faithful()
    ensures runnable { AltairsAreRunnable }
    ensures faithful { AltairThreadsAreFaithful }
{
    boards_count();
    boards_issue_and_complete();
    altairs_are_lawful();
}

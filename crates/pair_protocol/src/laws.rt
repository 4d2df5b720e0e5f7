//! What the rules of a pair promise, for any lawful machine and any copy of it. Nothing here runs.
ghost use Rattle.pair_protocol.specs.Examples.{SharesReads, TakesOver, WritesDisk};
ghost use Rattle.pair_protocol.specs.Joining.{JoiningIsGiven, PartsAreOfMachines};
ghost use Rattle.pair_protocol.specs.Laws.{ReachedIsFaithful, AloneIsHighest, NodesStand, NeedsNoCopies, ReachedGrows, RowIsChanges, ChangesReach, RunReaches, RunIsFaithful, RunGrows, RunReplies};
ghost use Rattle.pair_protocol.specs.Needing.{NoTurnsNeedNone, OtherBytesNeedNone, OtherEntriesNeedNone, OtherMovesNeedNone, OtherPartsNeedNone, StopsAtSteps, WinnersNeedNone};
ghost use Rattle.pair_protocol.specs.Survival.{NothingRefuses, WholeNodesWin};
ghost use Rattle.pair_protocol.specs.Traces.{OneTrace, OneEnd, FirstEntries, QuietMoves, QuietEntries};

/// Whatever the actors of a pair do, one action after another, every world that they reach is faithful.
pub fn actions_are_faithful<S>()
    ensures faithful { ReachedIsFaithful S }
{}

/// In every world that actions reach: a node that serves or replays has a machine that was run from boot; one that
/// serves has taken the keys of its list; a primary has logged everything that is covered; and the entries that a node
/// has still to replay are the next ones of a recorded run. A node that is alone is of the highest generation.
pub fn nodes_stand<S>()
    ensures stand { NodesStand S }
    ensures alone { AloneIsHighest S }
{}

/// In every world that actions reach, a joining node is given the parts of one machine that was run from boot, and all
/// of them together make that machine.
pub fn joining_nodes_are_given<S>()
    ensures given { JoiningIsGiven S }
{}

/// In every world that actions reach, each part of an image that was ever sent is of a machine that was run from boot.
pub fn sent_parts_are_of_machines<S>()
    ensures { PartsAreOfMachines S }
{}

/// A pair may make no copies at all: this meets what is asked of a copy, whatever machine the pair runs.
pub fn pairs_without_copies<S>()
    ensures without { NeedsNoCopies S }
{}

/// Whatever events come, in whatever order, every world of a run is faithful: its terminals and its disk have what one
/// never-failing machine gives from the settled inputs.
pub fn events_are_faithful<S>()
    ensures faithful { RunIsFaithful S }
{}

/// A pair survives a stop: if a whole node of an undecided generation asks the arbiter, nothing refuses it, so it has
/// won, unless there is no memory for the arbiter's list.
pub fn whole_nodes_win<S>()
    ensures refused { NothingRefuses S }
    ensures wins { WholeNodesWin S }
{}

/// Each further event lets what is settled grow and takes nothing back; a winner stays the winner, and its inputs begin
/// with those that were settled before it won.
pub fn events_grow<S>()
    ensures reached { ReachedGrows S }
    ensures grows { RunGrows S }
{}

/// Each event is a sequence of actions of the actors, so every world of a run is one that actions reach.
pub fn events_are_actions<S>()
    ensures actions { RowIsChanges S }
    ensures reach { ChangesReach S }
    ensures runs { RunReaches S }
{}

/// A run gives one reply for each event.
pub fn every_event_is_answered<S>()
    ensures replies { RunReplies S }
{}

/// A step, replay or drain of no turns, a replay or drain whose first move is not a step, a log entry that is a repeat or
/// past a gap, a byte that its terminal drops, a part with which its node still lacks one, and a winner that asks again are
/// never answered with out of memory. If a replay or drain makes fewer moves
/// than it was asked for, nothing is left, the next move is a step, or the bytes of a sector have not arrived.
pub fn some_events_need_no_memory<S>()
    ensures no_turns { NoTurnsNeedNone S }
    ensures other_moves { OtherMovesNeedNone S }
    ensures other_entries { OtherEntriesNeedNone S }
    ensures other_bytes { OtherBytesNeedNone S }
    ensures other_parts { OtherPartsNeedNone S }
    ensures winners { WinnersNeedNone S }
    ensures stops { StopsAtSteps S }
{}

/// A timed list and a count have one trace, which ends in one state; its first entries are those of its first moves;
/// and moves without an entry are quiet steps.
pub fn traces_are_determined<S>()
    ensures one { OneTrace S }
    ensures one_end { OneEnd S }
    ensures first_entries { FirstEntries S }
    ensures quiet { QuietMoves }
    ensures quiet_entries { QuietEntries }
{}

/// The rules can be followed: a backup takes over from a primary that stops, and sends the byte that it held; a sector
/// is read, its write is released once it is acknowledged, and what it wrote is read again; and with shared reads the
/// write is released once the backup has read the sector itself. The scripts are of small machines, and are proved reply
/// by reply.
pub fn scripts_run()
    ensures failover { TakesOver }
    ensures disk_write { WritesDisk }
    ensures shared_read { SharesReads }
{}

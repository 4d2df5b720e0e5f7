//! What can always be done next, for any lawful machine and any copy of it. Nothing here runs.
ghost use Rattle.pair_progress.specs.Always.{Always, AsksNothing, AsksParts, AsksResponse, AsksSectors};
ghost use Rattle.pair_progress.specs.CatchingUp.{CatchesUp};
ghost use Rattle.pair_progress.specs.Completion.{Completes, CompletesSoon};
ghost use Rattle.pair_progress.specs.Following.{HasOneOutcome, IsFollowed};
ghost use Rattle.pair_progress.specs.Going.{CaughtUpGoesOn, LiveGoesOn, ServesOn};
ghost use Rattle.pair_progress.specs.Leads.{CarriedOutRuns};
ghost use Rattle.pair_progress.specs.Reading.{SectorsCome};
ghost use Rattle.pair_progress.specs.Recovery.{Recovers};
ghost use Rattle.pair_progress.specs.Renewal.{HostsJoin, JoinersInRunsLack, Renews};
ghost use Rattle.pair_progress.specs.Settling.{PairsSettle};
ghost use Rattle.pair_progress.specs.Takeover.{TakesOver};

/// Events that are carried out, one after another, are a run, in which no event is answered with a refusal: not by the
/// rules, not as out of memory, and not as a fault of the disk.
pub fn carried_out_runs<S>()
    ensures runs { CarriedOutRuns S }
{}

/// An event has one outcome, unless memory or the disk fails; so a run of the events of such a list, in which nothing fails
/// and no host is added, leads where the list leads.
pub fn lists_are_followed<S>()
    ensures once { Always S AsksNothing HasOneOutcome }
    ensures followed { Always S AsksNothing IsFollowed }
{}

/// Whatever happened before: a node that is up and whole, and whose generation nobody else has won, goes live by a few
/// events of its own, whatever the other node did or does not do.
pub fn whole_nodes_take_over<S>()
    ensures takes_over { Always S AsksNothing TakesOver }
{}

/// Whatever happened before: three events for each operation that is outstanding at a live node, and at most 120, lead to
/// a world in which nothing is outstanding, each terminal has accepted the whole output, and the disk is the machine's
/// own.
pub fn live_nodes_complete<S>()
    ensures completes { Always S AsksResponse Completes }
    ensures soon { Always S AsksResponse CompletesSoon }
{}

/// So whatever happened before, as long as one whole node is left whose generation nobody else has won, no byte and no
/// write is lost for good: after a few events of its own, and at most 120 more, nothing is outstanding.
pub fn whole_nodes_recover<S>()
    ensures { Always S AsksResponse Recovers }
{}

/// Whatever was lost before: while both nodes of an undecided generation are up and the backup is whole, all that is
/// logged can be held and acknowledged.
pub fn pairs_catch_up<S>()
    ensures { Always S AsksNothing CatchesUp }
{}

/// And all that is logged can be held, replayed and acknowledged, and all that is outstanding completed.
pub fn pairs_settle<S>()
    ensures { Always S AsksResponse PairsSettle }
{}

/// Whatever was lost before: a host that joins, and lacks some part of the image, becomes the backup; and in every world of
/// a run each host that joins lacks one.
pub fn hosts_join<S>()
    ensures joins { Always S AsksParts HostsJoin }
    ensures lacks { JoinersInRunsLack S }
{}

/// A live node and a spare host become a whole pair again.
pub fn live_nodes_renew<S>()
    ensures { Always S AsksParts Renews }
{}

/// A live node, and a primary whose log is acknowledged, make a step whenever the guest does, and take the next key that
/// was typed; so a node that may still serve goes on after a few events of its own.
pub fn nodes_go_on<S>()
    ensures live { Always S AsksResponse LiveGoesOn }
    ensures caught_up { Always S AsksResponse CaughtUpGoesOn }
    ensures serves { Always S AsksResponse ServesOn }
{}

/// Where nothing is outstanding, a sector that is due at a live node comes: the disk is asked, and the answer is taken.
pub fn due_sectors_come<S>()
    ensures { Always S AsksSectors SectorsCome }
{}

//! What processes can always do next, for any lawful machine and any copy of it. Nothing here runs.
ghost use Rattle.pair_progress.specs.Always.{AsksNothing, AsksParts, AsksResponse, AsksSectors};
ghost use Rattle.host_progress.specs.Exchanges.{FirstWaitsForNobody, ListsAreRuns};
ghost use Rattle.host_progress.specs.Laws.{HostsCatchUp, HostsComplete, HostsCompleteSoon, HostsGetParts, HostsGoOn, HostsRead, HostsRecover, HostsRenew, HostsSettle, HostsTakeKeys, HostsTakeOver, OfFleets};

/// No such list begins with a step that waits for a frame; so no circle of processes waits for itself.
pub fn first_steps_wait_for_nobody<S>()
    ensures { FirstWaitsForNobody S }
{}

/// And each is a run of the processes: those of the hosts, and one of the outside, by which their loops say what they do.
pub fn lists_of_steps_are_runs<S>()
    ensures { ListsAreRuns S }
{}

/// Whatever was lost before: a host that is up and whole, and whose generation the arbiter has given to no other, goes live by
/// steps of its own, of arbiter and disk.
pub fn whole_hosts_take_over<S>()
    ensures { OfFleets S AsksNothing HostsTakeOver }
{}

/// Whatever was lost before: four steps for each operation that is outstanding at a live host, and at most 160, lead to a
/// world in which nothing is outstanding, each terminal has accepted the whole output, and the disk is the machine's own.
pub fn live_hosts_complete<S>()
    ensures completes { OfFleets S AsksResponse HostsComplete }
    ensures soon { OfFleets S AsksResponse HostsCompleteSoon }
    ensures recovers { OfFleets S AsksResponse HostsRecover }
{}

/// Whatever was lost before: while the hosts of primary and backup are what they were, all that is logged can be held and
/// acknowledged.
pub fn pairs_of_hosts_catch_up<S>()
    ensures { OfFleets S AsksNothing HostsCatchUp }
{}

/// And all that is logged can be held, replayed and acknowledged, and all that is outstanding completed.
pub fn pairs_of_hosts_settle<S>()
    ensures { OfFleets S AsksResponse HostsSettle }
{}

/// Whatever was lost before: a host that has heard that it joins becomes the backup; and a live host and the spare of the next
/// generation's number become a whole pair.
pub fn hosts_renew<S>()
    ensures joins { OfFleets S AsksParts HostsGetParts }
    ensures renews { OfFleets S AsksParts HostsRenew }
{}

/// Whatever was lost before: a live host makes a step whenever its guest does, takes the next key that was typed, and, where
/// nothing is outstanding, a sector that is due.
pub fn live_hosts_go_on<S>()
    ensures steps { OfFleets S AsksResponse HostsGoOn }
    ensures keys { OfFleets S AsksResponse HostsTakeKeys }
    ensures reads { OfFleets S AsksSectors HostsRead }
{}

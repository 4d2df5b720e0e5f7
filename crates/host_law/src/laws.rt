//! What processes that exchange frames promise together. Nothing here runs.
ghost use Rattle.host_law.specs.Examples.{HostTakesOver};
ghost use Rattle.host_law.specs.Laws.{BootIsShown, DevicesAreKept, HostsStand, NoHostStrays, RunsAreFaithful, RunsAreKept, StepsAreFollowed};
ghost use Rattle.host_law.specs.Ran.{RunsGoOn};
ghost use Rattle.host_law.specs.Relying.{RelyingRunsAreFaithful};
ghost use Rattle.host_law.specs.Survival.{LosersHaveAWinner, OneHostWins, WholeHostsWin};

/// Each step of a host, or of the outside, is at most one event of the protocol, in the world that all processes show
/// together.
pub fn hosts_are_followed<S>()
    ensures boot { BootIsShown S }
    ensures steps { StepsAreFollowed S }
{}

/// Any number of hosts and the outside, whose steps are interleaved in any order, show worlds of the protocol: after
/// each step the world is faithful, and what is settled only grows. So the terminals and the disk of the outside have
/// what one never-failing machine gives.
pub fn hosts_are_faithful<S>()
    ensures faithful { RunsAreFaithful S }
    ensures devices { DevicesAreKept S }
    ensures kept { RunsAreKept S }
    ensures stand { HostsStand S }
    ensures keys { NoHostStrays S }
{}

/// A pair of processes survives a stop: a whole host that asks the arbiter first has won its generation, no two hosts
/// are told that they won one, and none is told that it lost unless another one has won.
pub fn hosts_survive<S>()
    ensures wins { WholeHostsWin S }
    ensures loses { LosersHaveAWinner S }
    ensures one { OneHostWins S }
{}

/// The rules can be followed by processes: the host of a backup takes over.
pub fn hosts_take_over<S>()
    ensures takeover { HostTakesOver S }
{}

/// What the loop of a host needs to promise a run of what it read and wrote: it begins with nothing, and each call of its
/// node adds the frames that go with it.
pub fn runs_go_on<S>()
    ensures runs { RunsGoOn S }
{}

/// The same of hosts whose steps are promised only if their nodes stand: in a fleet they do.
pub fn relying_hosts_are_faithful<S>()
    ensures faithful { RelyingRunsAreFaithful S }
{}

//! What the calls are in the law of processes. Nothing here runs.
ghost use Rattle.outside_switch.specs.Runs.{CutsHaveCauses, HostsStay, NumbersCount, NumbersStay, StayApart, SwitchBegins, SwitchRuns};

/// A switch begins with nothing done. If what a host said brings what it means, then a move leads to where a run of the outside of
/// the law leads, which takes in only what that host sent, and sends what the hosts are told.
pub fn switch_runs<S>()
    ensures begins { SwitchBegins S }
    ensures runs { SwitchRuns S }
    ensures hosts { HostsStay }
{}

/// A host is cut off only if its stream has ended, if it has sent what is no frame or means nothing where it comes from, or if it has
/// sent more than the bound of a flood.
pub fn cuts_have_causes()
    ensures causes { CutsHaveCauses }
{}

/// A place keeps its number, one that it is given is that of a host which is counted, and no two places ever have one number, if
/// none have at first.
pub fn numbers_stay_apart()
    ensures apart { StayApart }
    ensures stay { NumbersStay }
    ensures count { NumbersCount }
{}

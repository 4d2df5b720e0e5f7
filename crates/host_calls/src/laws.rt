//! What follows from the promises of a node's calls. Nothing here runs.
ghost use Rattle.host_calls.specs.Calls.{CallsAreSteps, HostsBegin};
ghost use Rattle.host_calls.specs.Follows.{AheadFollows, AloneNodesHaveLists, IsTheLaws, KeysAreTheSame, ListsAreFree, RunsFollow, StepsFollow};

/// Whatever a call of a node that is on a host promises, the host has made a step of its own.
pub fn calls_are_steps<B, H, S>()
    ensures steps { CallsAreSteps B H S }
{}

/// The nodes of generation 1, and one that joins a later generation, begin as their hosts do.
pub fn hosts_begin<S>()
    ensures begin { HostsBegin S }
{}

/// Whatever step the node of a host makes, the law has a run with the same frames, also where a machine was made of parts
/// that no pair sent. In a fleet no machine was, and the node is the law's, or a backup that has run ahead of it: the law's
/// makes those steps when an entry shows them, or once it has drained.
pub fn steps_are_followed<S>()
    ensures steps { StepsFollow S }
    ensures ahead { AheadFollows S }
    ensures runs { RunsFollow S }
    ensures fleets { IsTheLaws S }
{}

/// A node that is alone may have any list, and one of them has the keys that its machine has taken: so a call that begins
/// a generation is a step, too.
pub fn alone_nodes_have_lists<B, H, S>()
    ensures lists { AloneNodesHaveLists S }
    ensures free { ListsAreFree B H S }
    ensures keys { KeysAreTheSame S }
{}

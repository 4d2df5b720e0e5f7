//! How hosts begin. Nothing here runs.
ghost use Rattle.host_node.specs.Boots.{HostsBoot};

/// A host that is made of a node of generation 1 has the law's first node, and a host without a node the law's spare.
pub fn hosts_boot<B, H, S>()
    ensures { HostsBoot B H S }
{}

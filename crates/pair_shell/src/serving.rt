//! Which nodes may serve.
ghost use Rattle.std.specs.Prelude.{◌≡◌, IfSome, IsTrue, None, Some, false};
ghost use Rattle.ft_world.specs.Applies.{Shows};
ghost use Rattle.ft_world.specs.Standing.{Course};
ghost use Rattle.pair_protocol.specs.Settled.{highest};
ghost use Rattle.pair_shell.specs.Serves.{AreAll, HasOtherRole, HaveOtherRoles, IsRoleIn, Serves, node_in, undecided_as, won_as};

use clone_state::Copies;
use ft_world::World;
use pair_events::Role;
use shared_disk::SectorStore;

/// The nodes of the highest generation that may serve.
#[derive(Clone, Copy)]
pub enum ServingNodes {
    /// None: its winner has halted, or nobody has won, and no whole node is up.
    Nobody,
    /// A primary whose backup has halted; nobody has won.
    Primary { node: u64 },
    /// A backup whose primary has halted; nobody has won.
    Backup { node: u64 },
    /// The winner, which still repeats what it holds.
    Draining { node: u64 },
    /// The winner, which is live.
    Alone { node: u64 },
    /// A primary, and a host that joins it; nobody has won.
    Joining { node: u64, host: u64 },
    /// A primary and its backup; nobody has won.
    Pair { node: u64, backup: u64 },
}

impl ServingNodes {
    /// The node that runs the guest, or that will once it has won and repeated what it holds.
    pub fn node(self) -> Option<u64>
        ensures { result ≡ node_in self }
    {
        match self {
            ServingNodes::Nobody => None,
            ServingNodes::Primary { node }
            | ServingNodes::Backup { node }
            | ServingNodes::Draining { node }
            | ServingNodes::Alone { node }
            | ServingNodes::Joining { node, .. }
            | ServingNodes::Pair { node, .. } => Some(node),
        }
    }
}

/// The nodes that may serve, among so many hosts.
pub fn who_serves<B: Copies<H> + Drop, D: SectorStore, H: Drop>(
    world: &World<B, D, H>,
    hosts: u64,
) -> ServingNodes
    ensures serves { (c : Course B.State) → Shows B.state B.copied B.machine D.records world.now c
        → Serves c.world (highest c.world.nodes) result }
    ensures all { (c : Course B.State) → Shows B.state B.copied B.machine D.records world.now c
        → AreAll c.world hosts (highest c.world.nodes) result }
{
    let generation = world.generation();
    match world.winner(generation) {
        Some(node) => won(node, role_of(world, node, generation)),
        None => undecided(
            find(world, hosts, generation, Role::Primary),
            find(world, hosts, generation, Role::Backup),
            find(world, hosts, generation, Role::Joining),
        ),
    }
}

// What a winner is.
fn won(node: u64, role: Option<Role>) -> ServingNodes
    ensures { result ≡ won_as node role }
{
    match role {
        Some(Role::Draining) => ServingNodes::Draining { node },
        Some(Role::Alone) => ServingNodes::Alone { node },
        _ => ServingNodes::Nobody,
    }
}

// What the nodes of a generation are that nobody has won.
fn undecided(primary: Option<u64>, backup: Option<u64>, joining: Option<u64>) -> ServingNodes
    ensures { result ≡ undecided_as primary backup joining }
{
    match (primary, backup, joining) {
        (Some(node), Some(backup), _) => ServingNodes::Pair { node, backup },
        (Some(node), None, Some(host)) => ServingNodes::Joining { node, host },
        (Some(node), None, None) => ServingNodes::Primary { node },
        (None, Some(node), _) => ServingNodes::Backup { node },
        (None, None, _) => ServingNodes::Nobody,
    }
}

// The first of so many hosts that has a role in a generation.
fn find<B: Copies<H> + Drop, D: SectorStore, H: Drop>(
    world: &World<B, D, H>,
    hosts: u64,
    generation: u32,
    role: Role,
) -> Option<u64>
    ensures some { (c : Course B.State) → Shows B.state B.copied B.machine D.records world.now c
        → IfSome result (λ node. IsRoleIn c.world node generation (Some role)) }
    ensures none { result ≡ None → (c : Course B.State) → Shows B.state B.copied B.machine D.records world.now c
        → HaveOtherRoles c.world hosts generation role }
{
    for node in 0..hosts {
        if has_role(world, node, generation, role) {
            return Some(node);
        }
    }
    None
}

// Whether a node has a role in a generation.
fn has_role<B: Copies<H> + Drop, D: SectorStore, H: Drop>(
    world: &World<B, D, H>,
    node: u64,
    generation: u32,
    role: Role,
) -> bool
    ensures has { (c : Course B.State) → Shows B.state B.copied B.machine D.records world.now c
        → IsTrue result → IsRoleIn c.world node generation (Some role) }
    ensures other { (c : Course B.State) → Shows B.state B.copied B.machine D.records world.now c
        → result ≡ false → HasOtherRole c.world node generation role }
{
    match role_of(world, node, generation) {
        Some(its) => its == role,
        None => false,
    }
}

// The role of a node in a generation, if it is a node of that one.
fn role_of<B: Copies<H> + Drop, D: SectorStore, H: Drop>(
    world: &World<B, D, H>,
    node: u64,
    generation: u32,
) -> Option<Role>
    ensures { (c : Course B.State) → Shows B.state B.copied B.machine D.records world.now c
        → IsRoleIn c.world node generation result }
{
    let status = world.node(node)?;
    if status.generation == generation {
        Some(status.role)
    } else {
        None
    }
}

//! The hosts of a pair, by their numbers.
ghost use Rattle.pair_protocol.specs.Copying.{Copying};
ghost use Rattle.std.specs.Prelude.{◌≡◌, ℕ, IfErr, IfOk, List, Some, option_map, slice_get};
ghost use Rattle.std.specs.Borrow.{LendsSoOk, sem};
ghost use Rattle.i8080_words.specs.declared.refusal.Fault.TheVariants.{Unknown};
ghost use Rattle.pair_protocol.specs.Node as protocol;
ghost use Rattle.ft_world.specs.Guests.{machine_at, standing_at};
ghost use Rattle.ft_world.specs.Lending.{HasNoNode, WithStation, hosts_row};
ghost use Rattle.ft_world.specs.Opening.{HasSpare, JoinsHosts, host_refusal};
ghost use Rattle.ft_world.specs.Shows.{AreHosts, IsStatusAt};
ghost use Rattle.disk_dcdd.specs.Completion.{answered};
ghost use Rattle.ft_world.specs.contracts.station.Station as the_station;
ghost use Rattle.ft_world.specs.declared.host.Host.TheVariants as host;

use crate::host::Host;
use crate::opening::Opening;
use crate::station::Station;
use clone_state::Copies;
use ft_node::Standing;
use guest_lockstep::Timed;
use i8080_words::{Fault, R};
use pair_events::Role;

/// What a node shows of itself.
#[derive(Clone, Copy)]
pub struct NodeStatus {
    pub role: Role,
    /// From 1.
    pub generation: u32,
    /// How many steps its machine has made; for a halted node, how many it had made.
    pub count: u64,
}

/// The station of a node, for an event that happens there. `Unknown` if no node has this number.
pub(crate) fn station_mut<B: Copies<H> + Drop, H: Drop>(
    hosts: &mut Vec<Host<B, H>>,
    node: u64,
) -> R<&mut Station<B, H>>
    ensures* lends { sem 𝓛 (LendsSoOk (hosts_row B.row H.row) (the_station.the_row B.row H.row) hosts.entry result
        (λ new station. WithStation hosts.old.items node station new.items) (λ new. new.items ≡ hosts.old.items)) }
    ensures found { IfOk result (λ station. slice_get hosts.old.items node ≡ Some (host.Node station.now)) }
    ensures absent { IfErr result (λ fault. (fault ≡ Unknown) × HasNoNode hosts.old.items node) }
{
    match hosts.get_mut(node as usize) {
        Some(host) => host.station_mut(),
        None => Err(Fault::Unknown),
    }
}

/// The station of a node, to look at. `Unknown` if no node has this number.
pub(crate) fn station<B: Copies<H> + Drop, H: Drop>(
    hosts: &Vec<Host<B, H>>,
    node: u64,
) -> R<&Station<B, H>>
    ensures found { IfOk result (λ station. slice_get hosts.now.items node ≡ Some (host.Node station.now)) }
    ensures absent { IfErr result (λ fault. (fault ≡ Unknown) × HasNoNode hosts.now.items node) }
{
    match hosts.get(node as usize) {
        Some(Host::Node(station)) => Ok(station),
        Some(Host::Spare(_)) => Err(Fault::Unknown),
        None => Err(Fault::Unknown),
    }
}

/// What a node shows of itself; `None` if no node has this number.
pub(crate) fn status<B: Copies<H> + Drop, H: Drop>(
    hosts: &Vec<Host<B, H>>,
    node: u64,
) -> Option<NodeStatus>
    ensures { (C : Copying B.State) (drives : ℕ) (nodes : List (protocol.Node B.State))
        → AreHosts B.state B.machine C drives hosts.now.items nodes
        → IsStatusAt B.machine (slice_get nodes node) result }
{
    let station = station(hosts, node).ok()?;
    Some(NodeStatus {
        role: station.node.role(),
        generation: station.node.generation(),
        count: station.node.count(),
    })
}

/// The guest of a node; none if no node has this number, or if it shows no machine.
pub(crate) fn guest<B: Copies<H> + Drop, H: Drop>(hosts: &Vec<Host<B, H>>, node: u64) -> Option<&B>
    ensures { (C : Copying B.State) (drives : ℕ) (nodes : List (protocol.Node B.State))
        → AreHosts B.state B.machine C drives hosts.now.items nodes
        → option_map (λ guest. B.state guest.now) result ≡ machine_at nodes node }
{
    let station = station(hosts, node).ok()?;
    station.node.guest()
}

/// How far a node is with the log of its generation; none if no node has this number, or if it has no log.
pub(crate) fn standing<B: Copies<H> + Drop, H: Drop>(
    hosts: &Vec<Host<B, H>>,
    node: u64,
) -> Option<Standing>
    ensures { (C : Copying B.State) (drives : ℕ) (nodes : List (protocol.Node B.State))
        → AreHosts B.state B.machine C drives hosts.now.items nodes
        → result ≡ standing_at nodes node }
{
    let station = station(hosts, node).ok()?;
    station.node.standing()
}

/// The inputs of a node, and the count up to which they settle it; no input and 0 if no node has this number.
pub(crate) fn settled<B: Copies<H> + Drop, H: Drop>(
    hosts: &Vec<Host<B, H>>,
    node: u64,
) -> (&[Timed], u64)
    ensures { (station : Station B H) → slice_get hosts.now.items node ≡ Some (host.Node station)
        → (result.0.now ≡ station.inputs) × (result.1 ≡ station.count) }
{
    match station(hosts, node) {
        Ok(station) => (station.inputs.as_slice(), station.count),
        Err(_) => (&[], 0),
    }
}

/// Checks that a generation may begin with these hosts: the first is a node, and the other is spare. `Unknown` if there is
/// no such host or no such node, `WrongRole` if the host has a role.
pub(crate) fn check_pair<B: Copies<H> + Drop, H: Drop>(
    hosts: &Vec<Host<B, H>>,
    node: u64,
    host: u64,
) -> R<()>
    ensures { result ≡ answered (host_refusal (slice_get hosts.now.items host) (slice_get hosts.now.items node)) }
{
    let Some(other) = hosts.get(host as usize) else {
        return Err(Fault::Unknown);
    };
    station(hosts, node)?;
    match other {
        Host::Spare(_) => Ok(()),
        Host::Node(_) => Err(Fault::WrongRole),
    }
}

/// A spare host becomes a node that joins a generation.
pub(crate) fn join<B: Copies<H> + Drop, H: Drop>(
    hosts: &mut Vec<Host<B, H>>,
    host: u64,
    opening: Opening,
)
    requires { HasSpare hosts.old.items host }
    ensures { JoinsHosts B.state B.machine hosts.old.items host opening hosts.new.items }
{
    let joined = hosts.remove(host as usize).joined(opening);
    match hosts.insert(host as usize, joined) {
        Ok(()) => {}
        Err(_) => unreachable!(),
    }
}

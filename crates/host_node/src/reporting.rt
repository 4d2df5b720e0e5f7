//! What a host says of itself.
ghost use Rattle.std.specs.Prelude.{◌≡◌, ◌<◌, IfOk, slice_index};
ghost use Rattle.event_callbacks.specs.declared.devices.TheConstants.{PORTS};
ghost use Rattle.host_node.specs.Goes.{Goes};
ghost use Rattle.host_node.specs.Reports.{HasCovered, IsCovered, Reports, ReportsGeneration, SaysReport};

use crate::host::{HostNode, Hosted};
use clone_state::Copies;
use event_callbacks::PORTS;
use ft_node::Node;
use host_frames::{Frame, Notice, Report};
use i8080_words::R;

/// What a host's loop knows that its node does not show.
#[derive(Clone, Copy)]
pub struct Known {
    /// Whether its guest waits for a key, and nothing of it is on its way to a device.
    pub is_idle: bool,
    /// By how many steps it lags.
    pub lag: u64,
    /// How many writes of its guest are on their way to the disk.
    pub writes: u64,
    /// The number of the last tick.
    pub tick: u64,
}

impl Known {
    /// Nothing is known besides what the node shows.
    pub(crate) fn nothing() -> Known {
        Known {
            is_idle: false,
            lag: 0,
            writes: 0,
            tick: 0,
        }
    }
}

impl<B: Copies<H> + Drop, H: Drop> HostNode<B, H> {
    /// What it says of itself: its generation, its role, how many steps its machine has made, how many keys it has taken, and how many of
    /// those are covered; and what its loop knows besides.
    pub fn report(&self, known: Known) -> Report
        ensures { Reports B.state B.machine known self.now.number self.now.node result }
    {
        Report {
            generation: self.reported_generation(),
            role: self.role(),
            is_idle: known.is_idle,
            count: self.count(),
            lag: known.lag,
            writes: known.writes,
            tick: known.tick,
            taken: self.keys(),
            covered: [self.covered(0), self.covered(1)],
        }
    }

    /// Sends what it says of itself. Returns false if there is no room.
    #[tactic(auto, using(crate::proofs::Reported::reports, crate::proofs::Going::looked))]
    pub fn send_report(&mut self, known: Known) -> R<bool>
        ensures goes { Goes B.state B.machine B.copied self.old self.new }
        ensures says { IfOk result (λ is_sent. SaysReport B.state B.machine known is_sent self.old self.new) }
    {
        if !self.mail.has_room() {
            return Ok(false);
        }
        let report = self.report(known);
        self.mail.say(&Frame::Notice(Notice::Report(report)))?;
        Ok(true)
    }

    // The generation of its node; if that has halted, its own number, which is its first generation but for host 0.
    fn reported_generation(&self) -> u32
        ensures { ReportsGeneration B.state B.machine self.now.number self.now.node result }
    {
        match &self.node {
            Hosted::Halted => self.number.max(1),
            Hosted::Spare(_) | Hosted::Node(_) => self.generation(),
        }
    }

    // How many keys of a port the terminal need not keep any longer.
    fn covered(&self, port: u8) -> u64
        requires { port < PORTS }
        ensures { HasCovered B.state B.machine self.now.node port result }
    {
        match &self.node {
            Hosted::Node(node) => covered_at(node, port),
            Hosted::Spare(_) | Hosted::Halted => 0,
        }
    }
}

// How many keys of a port a node tells to be covered.
fn covered_at<B: Copies<H> + Drop, H: Drop>(node: &Node<B, H>, port: u8) -> u64
    requires { port < PORTS }
    ensures { IsCovered B.state B.machine node.now port result }
{
    match node.told(port) {
        Ok(keys) => keys,
        Err(_) => 0,
    }
}

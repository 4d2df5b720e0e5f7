//! The node of a host, or what the host has in its place, and its mail.
ghost use Rattle.std.specs.Prelude.{◌≡◌, ◌==◌, [], false, if◌then◌else◌, option_map, true};
ghost use Rattle.host_node.specs.Goes.{Goes};
ghost use Rattle.host_node.specs.Looks.{HasCount, HasDue, HasGeneration, HasGuest, HasKeys, HasRole};
ghost use Rattle.host_node.specs.declared.host.Hosted.TheVariants as hosted;

use crate::early::Early;
use crate::mail::Mail;
use clone_state::Copies;
use event_callbacks::PORTS;
use ft_node::Node;
use i8080_words::R;
use pair_events::Role;
use std::alloc::Global;

/// What a host has: the closures of a node to come, a node, or nothing any longer, since its node has halted.
#[derive(Drop)]
pub enum Hosted<B: Copies<H> + Drop, H: Drop> {
    Spare(H),
    Node(Node<B, H>),
    Halted,
}

/// A host: the number of its node among the hosts of the pair, how many drives the pair's machines have, the place of the
/// node's peer at the switch, the node, the mail, and the copy that goes early, if one does. A spare has no number yet: it joins the
/// generation of its number.
#[derive(Drop)]
pub struct HostNode<B: Copies<H> + Drop, H: Drop> {
    pub(crate) alloc: Global,
    pub(crate) number: u32,
    pub(crate) drives: u8,
    pub(crate) peer: u8,
    pub(crate) is_waiting: bool,
    pub(crate) node: Hosted<B, H>,
    pub(crate) mail: Mail,
    pub(crate) early: Option<Early>,
}

impl<B: Copies<H> + Drop, H: Drop> HostNode<B, H> {
    /// The host of a node of generation 1: host 0 has the primary and host 1 the backup, each at the place of its number.
    pub fn of(
        alloc: Global,
        number: u32,
        drives: u8,
        node: Node<B, H>,
        mail: Mail,
    ) -> HostNode<B, H>
        ensures mail { result.mail ≡ mail }
        ensures number { result.number ≡ number }
        ensures drives { result.drives ≡ drives }
        ensures peer { result.peer ≡ (if number == 0 then 1 else 0) }
        ensures waits { result.is_waiting ≡ false }
        ensures node { result.node ≡ hosted.Node node }
    {
        let peer = if number == 0 { 1 } else { 0 };
        HostNode {
            alloc,
            number,
            drives,
            peer,
            is_waiting: false,
            node: Hosted::Node(node),
            mail,
            early: None,
        }
    }

    /// A host without a node, with the closures of one.
    pub fn spare(alloc: Global, drives: u8, callbacks: H, mail: Mail) -> HostNode<B, H>
        ensures mail { result.mail ≡ mail }
        ensures drives { result.drives ≡ drives }
        ensures waits { result.is_waiting ≡ false }
        ensures node { result.node ≡ hosted.Spare callbacks }
    {
        HostNode {
            alloc,
            number: 0,
            drives,
            peer: 0,
            is_waiting: false,
            node: Hosted::Spare(callbacks),
            mail,
            early: None,
        }
    }

    /// The role of its node; none if it has no node. A node that has halted is not kept.
    pub fn role(&self) -> Option<Role>
        ensures { HasRole B.state B.machine self.now.node result }
    {
        match &self.node {
            Hosted::Spare(_) => None,
            Hosted::Node(node) => Some(node.role()),
            Hosted::Halted => Some(Role::Halted),
        }
    }

    /// The generation of its node; 0 if it has none.
    pub fn generation(&self) -> u32
        ensures { HasGeneration B.state B.machine self.now.node result }
    {
        match &self.node {
            Hosted::Node(node) => node.generation(),
            Hosted::Spare(_) | Hosted::Halted => 0,
        }
    }

    /// How many steps the machine of its node has made; 0 if it has none.
    pub fn count(&self) -> u64
        ensures { HasCount B.state B.machine self.now.node result }
    {
        match &self.node {
            Hosted::Node(node) => node.count(),
            Hosted::Spare(_) | Hosted::Halted => 0,
        }
    }

    /// The place of its node's peer at the switch.
    pub fn peer(&self) -> u8
        ensures { result ≡ self.now.peer }
    {
        self.peer
    }

    /// Whether the arbiter was asked and has not answered.
    pub fn is_waiting(&self) -> bool
        ensures { result ≡ self.now.is_waiting }
    {
        self.is_waiting
    }

    /// How many keys of each port its guest has taken.
    #[tactic(auto, using(crate::proofs::Looking::keys_by))]
    pub fn keys(&self) -> [u64; PORTS]
        ensures { HasKeys B.state B.machine self.now.node result }
    {
        match self.guest() {
            Some(guest) => [guest.keys(0), guest.keys(1)],
            None => [0; PORTS],
        }
    }

    /// The oldest byte of a port that no terminal has accepted.
    #[tactic(auto, using(crate::proofs::Looking::due_by))]
    pub fn due_byte(&self, port: u8) -> Option<u64>
        ensures { HasDue B.state B.machine self.now.node port result }
    {
        if usize::from(port) >= PORTS {
            return None;
        }
        self.guest()?.due_byte(port)
    }

    /// The guest of its node, if it has one.
    pub fn guest(&self) -> Option<&B>
        ensures { HasGuest B.state B.machine self.now.node (option_map (λ guest. B.state guest.now) result) }
    {
        match &self.node {
            Hosted::Node(node) => node.guest(),
            Hosted::Spare(_) | Hosted::Halted => None,
        }
    }

    /// Whether no frame can come any more.
    #[tactic(auto, using(crate::proofs::Going::looked))]
    pub fn is_over(&mut self) -> bool
        ensures goes { Goes B.state B.machine B.copied self.old self.new }
        ensures none { result ≡ true → self.new.mail.waits ≡ [] }
    {
        self.mail.is_over()
    }

    /// Its mail; all else that it has is dropped.
    pub fn into_mail(self) -> Mail
        ensures { result ≡ self.mail }
    {
        let HostNode { mail, .. } = self;
        mail
    }
}

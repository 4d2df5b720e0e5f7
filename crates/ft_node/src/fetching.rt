//! A sector that the log does not carry: which one a replaying node waits for, and its bytes.
ghost use Rattle.std.specs.Prelude.{◌≡◌, ℕ, OnErr, OnOk};
ghost use Rattle.pair_protocol.specs.Copying.{Copying};
ghost use Rattle.pair_protocol.specs.Node as protocol;
ghost use Rattle.replayer.specs.Replaying.{place_of};
ghost use Rattle.ft_node.specs.Calls as calls;
ghost use Rattle.ft_node.specs.AnyNode.{IsNode, PagesStay};

use crate::node::Node;
use clone_state::Copies;
use disk_dcdd::SectorAddress;
use i8080_words::{Fault, R};
use shared_disk::SectorRead;

impl<B: Copies<H> + Drop, H: Drop> Node<B, H> {
    /// The sector for whose bytes a backup or a draining node waits, to be read from the shared disk (VMware FT, section
    /// 4.2). `NotDue` if it waits for none.
    pub fn wanted(&self) -> R<SectorAddress>
        ensures { (C : Copying B.State) (drives : ℕ) (x : protocol.Node B.State) → IsNode B.state B.machine C drives self.now x
            → calls.Wanted B.machine x result }
    {
        match self {
            Node::Backup(backup) => backup.wanted(),
            Node::Draining(winner) => winner.wanted(),
            _ => Err(Fault::WrongRole),
        }
    }

    /// Takes the bytes of the sector for which it waits. `NotDue` if it waits for none or for another one, `StaleRead` if
    /// the disk had what another write left there. Allocates no memory.
    pub fn fetched(&mut self, read: &SectorRead) -> R<()>
        ensures answer { (C : Copying B.State) (drives : ℕ) (x : protocol.Node B.State) → IsNode B.state B.machine C drives self.old x
            → calls.Fetches B.machine (place_of read.now) read.now.number read.now.bytes x result
            (IsNode B.state B.machine C drives self.new) }
        ensures pages { OnOk result (PagesStay B.stale self.old self.new) }
        ensures unchanged { OnErr result (self.new ≡ self.old) }
    {
        match self {
            Node::Backup(backup) => backup.fetched(read),
            Node::Draining(winner) => winner.fetched(read),
            _ => Err(Fault::WrongRole),
        }
    }
}

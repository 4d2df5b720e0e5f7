//! A station receives the bytes of a sector that its log does not carry.
ghost use Rattle.std.specs.Prelude.{◌≡◌, ℕ, OnErr, OnOk};
ghost use Rattle.pair_protocol.specs.Copying.{Copying};
ghost use Rattle.pair_protocol.specs.Node as protocol;
ghost use Rattle.ft_node.specs.Calls as calls;
ghost use Rattle.ft_node.specs.AnyNode.{PagesStay};
ghost use Rattle.ft_world.specs.Shows.{IsStation};
ghost use Rattle.shared_disk.specs.Arrivals.{read_address};

use crate::station::Station;
use clone_state::Copies;
use i8080_words::R;
use shared_disk::SectorRead;

impl<B: Copies<H> + Drop, H: Drop> Station<B, H> {
    /// A node that replays takes the bytes of the sector for which it waits.
    pub(crate) fn fetched(&mut self, read: &SectorRead) -> R<()>
        ensures answer { (C : Copying B.State) (drives : ℕ) (x : protocol.Node B.State)
            → IsStation B.state B.machine C drives self.old x
            → calls.Fetches B.machine (read_address read.now) read.now.number read.now.bytes x result
            (IsStation B.state B.machine C drives self.new) }
        ensures pages { OnOk result (PagesStay B.stale self.old.node self.new.node) }
        ensures unchanged { OnErr result (self.new ≡ self.old) }
    {
        self.node.fetched(read)
    }
}

//! What happens at a station when pages of its machine are copied early.
ghost use Rattle.std.specs.Prelude.{◌≡◌, ℕ, IfErr, IfOk, OnErr};
ghost use Rattle.i8080_words.specs.declared.refusal.Fault.TheVariants.{OutOfMemory};
ghost use Rattle.pair_protocol.specs.Copying.{Copying};
ghost use Rattle.pair_protocol.specs.Node as protocol;
ghost use Rattle.ft_node.specs.Calls as calls;
ghost use Rattle.ft_node.specs.AnyNode.{AreFreshened, NoneCopied};
ghost use Rattle.ft_world.specs.Shows.{IsStation};

use crate::station::Station;
use clone_state::Copies;
use i8080_words::R;
use std::alloc::Global;

impl<B: Copies<H> + Drop, H: Drop> Station<B, H> {
    /// An alone node copies the lowest stale pages of its machine, `pages` at most. Returns how many are still stale.
    pub(crate) fn freshen(&mut self, alloc: Global, pages: u64) -> R<u64>
        ensures answer { (C : Copying B.State) (drives : ℕ) (x : protocol.Node B.State)
            → IsStation B.state B.machine C drives self.old x
            → calls.Freshens x result (IsStation B.state B.machine C drives self.new) }
        ensures stale { IfOk result (λ left. AreFreshened B.stale pages left self.old.node self.new.node) }
        ensures begins { IfErr result (λ fault. fault ≡ OutOfMemory → NoneCopied B.stale self.old.node) }
        ensures unchanged { OnErr result (self.new ≡ self.old) }
    {
        self.node.freshen(alloc, pages)
    }
}

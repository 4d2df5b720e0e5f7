//! What follows from the definitions alone, for the crates above.
ghost use Rattle.std.specs.Prelude.{◌≡◌, None};
ghost use Rattle.event_callbacks.specs.Keeping.{Keeps};
ghost use Rattle.event_callbacks.specs.Limits.{Limits};
ghost use Rattle.event_callbacks.specs.Operations.{Operations, Comes, Goes, nothing_outstanding, operation_at, with_operation, without_operation};
ghost use Rattle.event_callbacks.specs.declared.devices.TheConstants.{SENT, SECTOR, WRITTEN};
ghost use Rattle.event_callbacks.specs.declared.operations.OpId.{OpId};
ghost use Rattle.event_callbacks.specs.declared.operations.Operation.{Operation};

use crate::callbacks::{Callbacks, Completes};
use crate::plain_completions;

/// An operation that is added is found under its name, one that is removed leaves its name free, and no other is touched.
pub fn operations_come_and_go()
    ensures none_at_first { (i : OpId) → operation_at nothing_outstanding.operations i ≡ None }
    ensures comes { (m : Operations) (op : Operation) → Comes m (with_operation m op) op }
    ensures goes { (m : Operations) (i : OpId) → Goes m (without_operation m i) i }
{}

/// Each number that definitions cite by its name in the code is the one stated.
pub fn limits()
    ensures { Limits }
{}

// Stores a closure of each kind, as every generic holder does.
fn store<T: Completes + Drop, S: Completes + Drop, W: Completes + Drop>(
    sent: T,
    sector: S,
    written: W,
)
    requires sent { Keeps (T.may sent) (T.gives sent) SENT }
    requires sector { Keeps (S.may sector) (S.gives sector) SECTOR }
    requires written { Keeps (W.may written) (W.gives written) WRITTEN }
{
    let _callbacks = Callbacks::of(sent, sector, written);
}

/// The plain completions keep the completion table, so a holder may store them. It does nothing.
pub fn plain_completions_may_be_stored() {
    store(
        plain_completions::sent,
        plain_completions::sector,
        plain_completions::written,
    );
}

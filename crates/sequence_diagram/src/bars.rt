//! Where output waits without a break: the bars beside the lines of nodes.
ghost use Rattle.std.specs.Prelude.{◌≡◌, ◌+◌, ◌<◌, MatchOption, length};
ghost use Rattle.sequence_diagram.specs.Bars.{HasBar, SomeWaits};
ghost use Rattle.sequence_diagram.specs.Marks.{operations_at, operations_before};

use crate::waits::OutputWait;

/// A bar: the node beside whose line it is, and the place in the run of the event at which it ends; none if some operation waits to the
/// end of the run.
#[derive(Clone, Copy)]
pub struct Bar {
    pub node: u64,
    pub end: Option<usize>,
}

/// The bar that begins at an event, by its place in the run.
pub fn bar_from(waits: &[OutputWait], place: usize) -> Option<Bar>
    ensures { HasBar waits.now place result }
{
    let wait = waits.get(place)?;
    if wait.operations == 0 || operations_before(waits, place) > 0 {
        return None;
    }
    Some(Bar {
        node: wait.node,
        end: end_after(waits, place),
    })
}

// The first event after a place after which none waits.
fn end_after(waits: &[OutputWait], place: usize) -> Option<usize>
    ensures { MatchOption result (SomeWaits waits.now (place + 1) (length waits.now)) (λ end. (place < end)
        × (operations_at waits.now end ≡ 0) × SomeWaits waits.now (place + 1) end) }
{
    'places: for later in place.saturating_add(1)..waits.len() {
        if operations_at(waits, later) == 0 {
            return Some(later);
        }
    }
    None
}

/// How many operations wait before an event.
pub fn operations_before(waits: &[OutputWait], place: usize) -> usize
    ensures { result ≡ operations_before waits.now place }
{
    if place == 0 {
        return 0;
    }
    operations_at(waits, place - 1)
}

// How many operations wait after an event.
fn operations_at(waits: &[OutputWait], place: usize) -> usize
    ensures { result ≡ operations_at waits.now place }
{
    match waits.get(place) {
        Some(wait) => wait.operations,
        None => 0,
    }
}

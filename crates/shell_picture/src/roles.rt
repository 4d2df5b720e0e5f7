//! The roles of nodes after so many events.
ghost use Rattle.std.specs.Prelude.{◌≡◌};
ghost use Rattle.shell_picture.specs.Pictures.{node_role, role_after, told_at};

use pair_events::Role;
use sequence_diagram::{Lifeline, Moment, first_role};

/// The role of a node after so many events; other places have none.
pub fn role_after(moments: &[Moment], count: usize, place: Lifeline) -> Option<Role>
    ensures { result ≡ role_after moments.now count place }
{
    match place {
        Lifeline::Node(node) => node_role(moments, node, count),
        _ => None,
    }
}

// What the last event tells that tells the role of a node; before any does, its first role.
fn node_role(moments: &[Moment], node: u64, count: usize) -> Option<Role>
    ensures { result ≡ node_role moments.now node count }
{
    let mut before = count;
    'events: while before > 0 {
        before -= 1;
        let told = told_at(moments, node, before);
        if told.is_some() {
            return told;
        }
    }
    first_role(node)
}

// The role of a node after an event, if the event tells it.
fn told_at(moments: &[Moment], node: u64, event: usize) -> Option<Role>
    ensures { result ≡ told_at moments.now node event }
{
    match moments.get(event) {
        Some(moment) => moment.role_of(node),
        None => None,
    }
}

//! The protocol of a pair: worlds, events, what a faithful world is, and the law that every event keeps a world
//! faithful. No code.
#![tactic(auto)]

mod laws;

pub use laws::{
    actions_are_faithful, events_are_actions, events_are_faithful, events_grow,
    every_event_is_answered, joining_nodes_are_given, nodes_stand, pairs_without_copies,
    scripts_run, sent_parts_are_of_machines, some_events_need_no_memory, traces_are_determined,
    whole_nodes_win,
};

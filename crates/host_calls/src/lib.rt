//! The calls of a node are steps of the host that it is on. No code.
#![tactic(auto)]

mod laws;

pub use laws::{alone_nodes_have_lists, calls_are_steps, hosts_begin, steps_are_followed};

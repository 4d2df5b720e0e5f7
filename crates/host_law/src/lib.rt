//! Processes that exchange frames: what each does, and the law that those of a pair are faithful together. No code.
#![tactic(auto)]

mod laws;

pub use laws::{
    hosts_are_faithful, hosts_are_followed, hosts_survive, hosts_take_over,
    relying_hosts_are_faithful, runs_go_on,
};

//! Processes that exchange frames are never stuck: from every state of hosts and outside, even if all that was sent is lost, a
//! short list of their steps brings the service back. No code.
#![tactic(auto)]

mod altairs;
mod laws;

pub use altairs::altair_hosts_are_never_stuck;
pub use laws::{
    first_steps_wait_for_nobody, hosts_renew, lists_of_steps_are_runs, live_hosts_complete,
    live_hosts_go_on, pairs_of_hosts_catch_up, pairs_of_hosts_settle, whole_hosts_take_over,
};

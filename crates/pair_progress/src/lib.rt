//! A pair is never stuck: from every world that events reach, a short list of further events brings the service back. No
//! clock, no scheduler and no fairness is needed to say this: the events are given. No code.
#![tactic(auto)]

mod laws;

pub use laws::{
    carried_out_runs, due_sectors_come, hosts_join, lists_are_followed, live_nodes_complete,
    live_nodes_renew, nodes_go_on, pairs_catch_up, pairs_settle, whole_nodes_recover,
    whole_nodes_take_over,
};

//! The world of a pair: nodes, messages, terminals, the shared disk and the arbiter, and what each event does to them.
#![tactic(auto)]

mod copy_events;
mod device_events;
mod devices;
mod fetch_events;
mod fetching;
mod freshening;
mod host;
mod hosts;
mod input_list;
mod joining;
mod laws;
mod message;
mod messages;
mod node_events;
mod offer;
mod opening;
mod pair;
mod room;
mod station;
mod world;

pub use hosts::NodeStatus;
pub use laws::{disks_keep_the_greatest_write, terminals_accept_the_longest_list};
pub use message::Message;
pub use room::Room;
pub use world::World;

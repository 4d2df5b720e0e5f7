//! The devices of the board together, what they complete by stored closures, and the operations waiting for that.
#![tactic(auto)]

mod callbacks;
mod devices;
mod laws;
mod operations;
mod pending;
pub mod plain_completions;

pub use callbacks::{Callbacks, Completes, Kept};
pub use devices::{Devices, Done, PORTS, SECTOR, SENT, WRITTEN};
pub use laws::{limits, operations_come_and_go, plain_completions_may_be_stored};
pub use operations::{OpId, Operation};
pub use pending::Pending;

//! The command line: what its words ask for, or the text that refuses them.
#![tactic(auto)]

mod commands;
mod console_order;
mod host_order;
mod lists;
mod live_order;
mod options;

pub use console_order::ConsoleOrder;
pub use host_order::{HostOrder, HostRole};
pub use live_order::LiveOrder;
pub use options::{Request, request_of};

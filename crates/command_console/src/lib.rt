//! The command `console`: a pair whose hosts are processes, at which one types, sees what appears, and fails hosts while they run; the
//! command `host`, one host of a pair in a process, with the named pipes by which an outside reaches its hosts; and the law that the
//! loops of the hosts and of the outside obey together.
#![tactic(auto)]

mod booting;
mod console;
mod ending;
mod files;
mod frame;
mod hearing;
mod host;
mod laws;
mod line;
mod looking;
mod mirror;
mod opening;
mod places;
mod seats;
mod session;
mod showing;
mod store;
mod story;
mod supervisor;
mod teller;
mod waking;

pub use booting::Booted;
pub use console::{Streams, run_console};
pub use ending::{ending_of_console, ending_of_host};
pub use host::{Served, run_booted, run_host};
pub use laws::{altair_processes_are_kept, processes_are_a_fleet, processes_go, streams_deliver};
pub use opening::read_opening;
pub use places::{Pipes, add_places};

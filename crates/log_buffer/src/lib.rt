//! The log of a generation: the entries that are not acknowledged yet, by index.
#![tactic(auto)]

mod buffer;
mod laws;
mod log;

pub use buffer::{CAPACITY, LogBuffer};
pub use laws::{entries_keep_their_indexes, limits};
pub use log::{EntryLog, NoLog};

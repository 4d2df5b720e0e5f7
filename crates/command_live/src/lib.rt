//! The command `live`: a pair on threads, from its boot to its end, and what is printed of it.
#![tactic(auto)]

mod beginning;
mod command;
mod laws;
mod live;
mod text;

pub use command::run_live;
pub use laws::altair_threads_are_faithful;

//! A guest that repeats the moves of another by the entries of its log.
#![tactic(auto)]

mod following;
mod laws;
mod reads;
mod replay;
mod replayer;

pub use following::{Followed, follow};
pub use laws::{following_is_recording, replays_keep_to_the_trace, runs_do_not_diverge};
pub use replayer::{Replayed, Replayer};

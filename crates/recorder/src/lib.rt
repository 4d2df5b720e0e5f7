//! A guest that runs, with the log of its inputs and of its operations.
#![tactic(auto)]

mod laws;
mod recorder;
mod run;

pub use laws::{moves_are_recorded, recorded_runs_are_runs};
pub use recorder::Recorder;

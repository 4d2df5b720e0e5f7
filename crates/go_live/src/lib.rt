//! The backup that won: it replays what it holds, and is then alone.
#![tactic(auto)]

mod draining;

pub use draining::Draining;

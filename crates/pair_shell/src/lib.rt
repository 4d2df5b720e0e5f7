//! The shell with its pair: what was sent in it and typed at it, an answer to each line, and a plan that brings the pair to rest: the next
//! event, from what the world shows, and how many there will be at most.
#![tactic(auto)]

mod asked;
mod booting;
mod bound;
mod completing;
mod lists;
mod machine;
mod names;
mod notes;
mod plan;
mod play;
mod repeating;
mod resting;
mod running;
mod serving;
mod session;
mod shell;
mod showing;
mod why;

pub use bound::most_events;
pub use completing::{OperationStage, stage_of};
pub use names::outstanding;
pub use plan::RestPlan;
pub use serving::{ServingNodes, who_serves};
pub use shell::run_shell;

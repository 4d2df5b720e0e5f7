//! What a guest is to a pair: its inputs, its moves, what the layers of a pair require of it, and how it runs by itself.
#![tactic(auto)]

mod input;
mod lockstep;
mod reads;
mod replay_end;
mod running;
mod timed;

pub use input::Input;
pub use lockstep::Lockstep;
pub use reads::Reads;
pub use replay_end::ReplayEnd;
pub use running::{StopReason, Stopped, run};
pub use timed::{Bare, Timed};

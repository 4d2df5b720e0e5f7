//! A node of a pair: its role, its machine, and its part of each event.
#![tactic(auto)]

mod ahead;
mod alone;
mod backup;
mod copying;
mod due;
mod fetching;
mod halted;
mod joining;
mod kept_image;
mod node;
mod packets;
mod primary;
mod ran;
mod standing;
mod takeover;
mod taking;
mod winner;

pub use alone::Alone;
pub use backup::Backup;
pub use halted::Halted;
pub use joining::Joining;
pub use node::Node;
pub use primary::Primary;
pub use ran::{Drained, Lead, NextGeneration, PartCame, Ran, Standing};
pub use winner::Winner;

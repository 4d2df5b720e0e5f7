//! What happens in a world of pairs, one event for each line of a script, and the answers.
#![tactic(auto)]

mod answer;
mod event;
mod in_hexadecimal;
mod reply;

pub use answer::Answer;
pub use event::Event;
pub use in_hexadecimal::{Hexadecimal, Spaced};
pub use reply::{Reply, Role};

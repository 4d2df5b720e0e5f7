//! The events that a line of the shell makes: those of an ordinary day, a list of them, or those that have not gone yet; and what the
//! shell shows of a pair: events as a diagram, what a terminal, a sector and a machine have, and how a tape has gone.
#![tactic(auto)]

mod answers;
mod assembly;
mod day;
mod ending;
mod head;
mod held_up;
mod lanes;
mod link;
mod listing;
mod lists;
mod machine;
mod phase;
mod picture;
mod plan;
mod remaining;
mod roles;
mod route;
mod screen;
mod sector;
mod series;
mod words;

pub use answers::{print_help, print_last, print_refusal, print_refusals, print_screen, print_sum};
pub use day::Day;
pub use held_up::print_held_up;
pub use listing::print_listing;
pub use machine::{print_memory, print_registers};
pub use picture::print_picture;
pub use plan::EventQueue;
pub use remaining::{
    bytes_to_arrive, entries_to_deliver, entries_to_send, parts_to_deliver, parts_to_send,
};
pub use sector::print_sector;

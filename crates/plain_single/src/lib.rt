//! The single machine, run by itself from a list of timed inputs: a second executor, with its own fetch, dispatch,
//! memory, serial lines and drives; it shares only the vocabulary of the 8080 and plain data with the board.
#![tactic(auto)]

mod drives;
mod executor;
mod image;
mod machine;
mod memory;
mod serial;
mod single;
mod step;
mod wires;

pub use drives::DiskDrives;
pub use executor::{Outcome, Stores, effect};
pub use memory::Memory;
pub use single::Single;
pub use step::run;
pub use wires::Wires;

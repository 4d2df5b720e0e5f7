//! What an image of a machine says of its guest, and whether a board can be in that state.
#![tactic(auto)]

mod parts;

pub use parts::{BoardParts, are_levels, port_stands};

//! A small guest that sends each key that it reads, for testing what runs a guest.
#![tactic(auto)]

mod guest;

pub use guest::Echo;

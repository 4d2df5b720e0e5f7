//! A terminal: the bytes of a port that it accepted, in order of number, and what was typed at it.
#![tactic(auto)]

mod laws;
mod terminal;

pub use laws::arrivals_decide_what_is_accepted;
pub use terminal::Terminal;

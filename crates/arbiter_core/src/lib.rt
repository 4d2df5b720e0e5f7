//! The arbiter: the first node that asks for a generation has won it, for good.
#![tactic(auto)]

mod arbiter;
mod laws;

pub use arbiter::{Arbiter, Asking, Won};
pub use laws::first_askers_win;

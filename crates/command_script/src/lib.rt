//! The commands `script`, `check`, `picture` and `lint`: what each line of a script answers, how the pair compares at its end, what
//! happens, drawn as a sequence diagram, and each bad line, with its word and what was expected there.
#![tactic(auto)]

mod command;
mod lint;
mod named;
mod order;
mod picture;
mod reason;
mod session;

pub use command::run_script;
pub use lint::run_lint;
pub use order::ScriptTask;
pub use picture::run_picture;

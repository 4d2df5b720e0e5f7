//! One generation on threads: a worker for each seat of the table.
#![tactic(auto)]

mod backup;
mod chore;
mod disk;
mod gate;
mod join;
mod link;
mod pace;
mod plan;
mod port_inputs;
mod primary;
mod recording;
mod repeater;
mod rest;
mod run;
mod signals;
mod terminal;
mod worker;
mod workers;
mod yields;

pub use gate::{Gate, OpenGate, Who};
pub use link::Fate;
pub use run::run_generation;
pub use signals::{Signals, Told};
pub use workers::{GenerationEnd, Workers};

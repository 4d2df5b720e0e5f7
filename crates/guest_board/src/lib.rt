//! The guest: a processor, memory, two serial ports, one to four drives and the outstanding operations, on one board.
#![tactic(auto)]

mod board;
mod executed;
mod laws;
mod ports;
mod setup;
mod wiring;

pub use board::{Board, BoardMemory};
pub use executed::Executed;
pub use laws::{boards_count, boards_issue_and_complete, the_machine_refuses_alike};
pub use setup::Setup;

//! The table that the threads of one generation share, and its rule.
#![tactic(auto)]

mod backup;
mod close;
mod disk;
mod fabric;
mod kinds;
mod laws;
mod link;
mod mailbox;
mod open;
mod payload;
mod primary;
mod seat;
mod seated;
mod terminal;
mod view;

pub use backup::BackupSeat;
pub use close::Closed;
pub use disk::DiskSeat;
pub use fabric::Fabric;
pub use laws::{
    kept_steps_are_threads, silent_steps_are_shown, starts_are_shown, steps_are_events,
    steps_are_faithful, table_steps_are_faithful, table_steps_are_steps, threads_are_faithful,
};
pub use link::LinkSeat;
pub use open::FiveSeats;
pub use payload::{DiskAnswer, DiskRequest, Packet, Payload, PortByte};
pub use primary::PrimarySeat;
pub use seat::MOST_SWAPS;
pub use terminal::TerminalSeat;

//! The controller of one to four MITS 88-DCDD floppy disk drives: its three ports, its interrupt line, and the sectors
//! and writes that its drives complete.
#![tactic(auto)]

mod address;
mod commands;
mod controller;
mod drive;
mod laws;
mod sector;

pub use address::{DRIVE_SECTORS, SectorAddress, sectors_stand_apart};
pub use controller::{Controller, ControllerImage, DRIVES, OUTSTANDING};
pub use drive::{Drive, TRACKS};
pub use laws::limits;
pub use sector::{CurrentSector, Place, SECTOR_BYTES, SECTORS, SectorWrite};

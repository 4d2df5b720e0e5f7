//! The single machine by its parts.
ghost use Rattle.std.specs.Prelude.{ℕ, ◌<◌, slice_index};

mod inputs;
mod runs;
mod steps;

use crate::image::DiskImage;
use crate::wires::Wires;
use i8080_words::Processor;

/// The processor, what it is wired to, the disk, how many steps were executed, and the interrupt level of port 0, port
/// 1 and the drives.
#[derive(Drop)]
pub(crate) struct Machine {
    pub(crate) processor: Processor,
    pub(crate) wires: Wires,
    pub(crate) disk: DiskImage,
    pub(crate) count: u64,
    pub(crate) levels: [u8; 3],
    ghost restarts: { (device : ℕ) → slice_index levels device < 8 },
}

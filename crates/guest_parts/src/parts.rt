//! What a board can be rebuilt from.
ghost use Rattle.std.specs.Prelude.{◌≡◌, vec_len};
ghost use Rattle.guest_memory.specs.declared.memory.TheConstants.{BYTES};

mod standing;

use disk_dcdd::SectorWrite;
use event_callbacks::{Devices, PORTS};
use i8080_words::Processor;
use serial_2sio::WINDOW;
pub use standing::{are_levels, port_stands};

/// What an image of a machine says of its board: all that a board shows, and what is outstanding. `Board::rebuild`
/// decides whether a board can be in that state.
#[derive(Drop)]
pub struct BoardParts {
    pub processor: Processor,
    pub memory: Vec<u8>,
    pub devices: Devices,
    /// The bytes of each port that were sent and not accepted, oldest first. There are as many as `devices` says; those
    /// after them mean nothing.
    pub unaccepted: [[u8; WINDOW as usize]; PORTS],
    /// How many bytes were sent to each port.
    pub issued: [u64; PORTS],
    /// The outstanding writes, in order of number.
    pub writes: Vec<SectorWrite>,
    /// The number of the last completed write of each sector, by `SectorAddress::index`; 0 if there is none.
    pub completed: Vec<u64>,
    /// How many steps were executed.
    pub count: u64,
    /// How many keys of each port were taken.
    pub keys: [u64; PORTS],
    /// The interrupt levels of port 0, port 1 and the disk.
    pub levels: [u8; 3],
    /// The byte of the sense switches.
    pub sense: u8,
    ghost whole: { vec_len memory ≡ BYTES },
}

//! What reaches the guest from outside.

use disk_dcdd::SECTOR_BYTES;

/// What the guest is given, at one instruction count: a byte that was typed, or what a device has done.
#[derive(Clone, Copy, PartialEq, Eq)]
pub enum Input {
    /// A byte arrives from the terminal of this port.
    Rx(u8, u8),
    /// The terminal of this port has accepted the oldest byte that was not yet accepted.
    Sent(u8),
    /// A sector of this drive comes under the head. The bytes are those of the write of this number; if the sector was
    /// never written, the number is 0 and the bytes are those at boot.
    Sector {
        drive: u8,
        sector: u8,
        number: u64,
        bytes: [u8; SECTOR_BYTES],
    },
    /// The write of this number is on the disk.
    Written(u64),
}

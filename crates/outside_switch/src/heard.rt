//! What became of the next body of a host.

use disk_dcdd::SectorAddress;
use pair_events::Role;

/// What became of the next body of a host. It is for whoever shows bytes and tells what the hosts are.
#[derive(Clone, Copy, PartialEq, Eq)]
pub enum BodyOutcome {
    /// No body waits, or only the end of the stream of a host that was cut off before.
    Nothing,
    /// It was met, and there is nothing to show or to tell.
    Met,
    /// The terminal of a port has accepted this byte, to be shown now.
    Shown { port: u8, byte: u8 },
    /// This sector was read.
    Read(SectorAddress),
    /// A write is on the disk.
    Written,
    /// The disk has refused a write.
    Unwritten,
    /// The host reports another role than before; none if it is a spare.
    Became(Option<Role>),
    /// The host has won this generation.
    Won(u32),
    /// Another host has won this generation.
    Lost(u32),
    /// It is empty: the stream from the host has ended.
    Ended,
    /// It is no frame, names no place, or means nothing where it comes from: the host has failed.
    Failed,
}

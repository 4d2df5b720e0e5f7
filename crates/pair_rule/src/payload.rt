//! What lies in a slot.

use disk_dcdd::{SectorAddress, SectorWrite};
use event_callbacks::Operation;
use log_entry::Entry;
use shared_disk::SectorRead;

/// A log packet: the entry of the primary's list at that index.
#[derive(Clone, Copy, PartialEq, Eq)]
pub struct Packet {
    pub generation: u64,
    pub index: u64,
    pub entry: Entry,
}

/// A byte of a port, with its number there.
#[derive(Clone, Copy, PartialEq, Eq)]
pub struct PortByte {
    pub number: u64,
    pub byte: u8,
}

/// What a primary asks of the disk.
#[derive(Clone, Copy)]
pub enum DiskRequest {
    Write(SectorWrite),
    Read(SectorAddress),
}

/// The disk's answer: the write of this number is done, or a sector was read.
#[derive(Clone, Copy, PartialEq, Eq)]
pub enum DiskAnswer {
    Written(u64),
    Read(SectorRead),
}

/// What a box hands over: a log packet, a byte for a terminal, a request to the disk or its answer.
#[derive(Clone, Copy)]
pub enum Payload {
    Log(Packet),
    Out(Operation),
    Request(DiskRequest),
    Answer(DiskAnswer),
}

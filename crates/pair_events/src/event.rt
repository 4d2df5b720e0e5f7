//! What happens in a world: each event is one action of one actor.

use event_callbacks::OpId;

/// One action of one actor. Nodes, messages and indexes count from 0, ports are 0 and 1, sectors 0 to 31. A number need
/// not be one that exists: an event that names what does not exist is refused as unknown.
#[derive(Clone, Copy)]
pub enum Event {
    /// The machine of a node executes at most this many steps, and stops after the first operation that it gives.
    Step { node: u64, turns: u64 },
    /// A user types a byte at the terminal of a port.
    TypeByte { port: u8, byte: u8 },
    /// A node takes the key of this index from the terminal of a port.
    TakeKey { node: u64, port: u8, index: u64 },
    /// A primary sends the log entry of this index.
    Send { node: u64, index: u64 },
    /// A message with a log entry is delivered to a backup.
    DeliverLog { message: u64, node: u64 },
    /// A backup sends the number of entries that it holds.
    Acknowledge { node: u64 },
    /// A message with such a number is delivered to a primary.
    DeliverAcknowledgement { message: u64, node: u64 },
    /// A backup makes at most this many moves from the log that it holds; a move is a step or an entry.
    Replay { node: u64, turns: u64 },
    /// A node sends an outstanding operation to its device.
    Release { node: u64, id: OpId },
    /// A message with a byte arrives at its terminal.
    Arrive { message: u64 },
    /// A node is told that the terminal of a port has accepted the byte of this number.
    TellSent { node: u64, port: u8, number: u64 },
    /// A node tells the terminal of a port how many keys are covered.
    Told { node: u64, port: u8 },
    /// A message with a sector write arrives at the disk.
    Put { message: u64 },
    /// The disk's answer to a write arrives at a node.
    PutReply { message: u64, node: u64 },
    /// The disk reads this sector of the drive and the track that a node has selected.
    Get { node: u64, sector: u8 },
    /// A message with a sector that was read arrives at a node.
    GetReply { message: u64, node: u64 },
    /// A node that waits for the bytes of a sector that its primary read asks the shared disk for them.
    Fetch { node: u64 },
    /// A message with such a sector arrives at a node that waits for it.
    Fetched { message: u64, node: u64 },
    /// A node suspects its peer and asks the arbiter for its generation.
    Suspect { node: u64 },
    /// A backup that has won makes at most this many moves from the log that it still holds.
    Drain { node: u64, turns: u64 },
    /// A node that is alone begins a new pair with a spare host.
    BeginPair { node: u64, host: u64 },
    /// A node that is alone copies at most this many pages of its machine early, for the image of a new pair that it may
    /// begin.
    Freshen { node: u64, pages: u64 },
    /// A primary sends the part of this index of its image.
    SendPart { node: u64, index: u64 },
    /// A message with such a part is delivered to a joining node.
    PartComes { message: u64, node: u64 },
    /// A node halts for good.
    Stop { node: u64 },
}

//! What a host has heard, for whoever decides what it does next.

use ft_node::{Lead, PartCame};

/// What a frame was to a host.
#[derive(Clone, Copy)]
pub enum FrameOutcome {
    /// The frame says nothing that is new to this host, or nothing that its node takes.
    Nothing,
    /// The bytes are no frame, or a packet of the peer is none of its log, or fits nothing.
    Malformed,
    /// A packet of the peer came that says only that it is there.
    Beat,
    /// An entry of the log is held now, or was before.
    Entry,
    /// This many entries are acknowledged.
    Acknowledged(u64),
    /// A part of an image came.
    Part(PartCame),
    /// The peer has so many parts.
    Parts(u64),
    /// The peer says how far it is.
    Progress(Lead),
    /// A key waits.
    Key,
    /// Bytes of a port were accepted.
    Accepted,
    /// A write is done.
    Written(u64),
    /// The device refused a write.
    Failed(u64),
    /// A sector came, and the node took it or not.
    Sector { sector: u8, is_taken: bool },
    /// The node has won its generation.
    Won,
    /// Another host has won it: the node has halted.
    Lost,
    /// The stream of the host at this place has ended.
    Gone(u8),
    /// The node began a generation.
    Begun,
    /// The host joins a generation.
    Joined,
    /// The node is alone, and is told to begin a generation with the host at a place, to which no copy has gone early yet.
    Asked { generation: u32, host: u8 },
    /// A part of an image came early, of this index.
    Early(u16),
    /// Whoever is outside asks by this number what the machine has, with its memory from this page on.
    Inspect { number: u64, page: u8 },
    /// The outside is there, by its tick of this number, and a guest makes at most so many steps a second; 0 if it runs as fast as it can.
    Tick { number: u64, speed: u64 },
}

//! What one frame says.

use disk_dcdd::{SectorAddress, SectorWrite};
use event_callbacks::PORTS;
use pair_events::Role;
use shared_disk::SectorRead;

/// What one frame says. Hosts are named by their places at the switch, which passes frames on.
#[derive(Clone, Copy)]
pub enum Frame<'a> {
    /// A packet of the log, an acknowledgement or a part of an image, to this host; the switch writes the sender in its
    /// place. No bytes say only that the sender is there.
    Packet { host: u8, bytes: &'a [u8] },
    Transfer(Transfer),
    Notice(Notice),
}

/// What passes between a host and a terminal or the disk. Numbers are at most `GREATEST_NUMBER`.
#[derive(Clone, Copy)]
pub enum Transfer {
    /// A released byte of a port.
    Byte {
        port: u8,
        number: u64,
        byte: u8,
    },
    /// The key that was typed at a port as the one of this index.
    Key {
        port: u8,
        index: u64,
        byte: u8,
    },
    /// The terminal of a port has accepted so many bytes.
    Accepted {
        port: u8,
        count: u64,
    },
    /// A released write.
    Write(SectorWrite),
    /// The write of this number is on the disk.
    Written(u64),
    /// The device refused the write of this number.
    Failed(u64),
    /// A host asks for a sector.
    Get(SectorAddress),
    /// What the disk has there.
    Sector(SectorRead),
    /// Whoever is outside asks for the so manieth time what a machine has: its processor, a page of its memory, and the one after it.
    Inspect {
        number: u64,
        page: u8,
    },
    /// What the machine has that was asked for by this number, when it has made so many steps.
    Inspected {
        number: u64,
        count: u64,
        bytes: [u8; SIGHT_BYTES],
    },
}

/// How many bytes show a machine: 14 of its processor, and 256 of each of two pages.
pub const SIGHT_BYTES: usize = 526;

/// What is said between a host and the arbiter or the switch. Generations are at least 1.
#[derive(Clone, Copy)]
pub enum Notice {
    /// A host of this generation asks the arbiter.
    Suspect(u32),
    /// The host has won this generation.
    Won(u32),
    /// Another host has won this generation.
    Lost(u32),
    /// The stream of this host has ended.
    Gone(u8),
    /// A host that is alone may begin this generation with that spare.
    Begin {
        generation: u32,
        host: u8,
    },
    /// A spare is to be the backup of this host, from so many steps on, for a machine of 1 to 4 drives.
    Join {
        generation: u32,
        host: u8,
        drives: u8,
        count: u64,
    },
    Report(Report),
    /// How many entries the log of this host has, and how many steps its machine has made.
    Progress {
        host: u8,
        entries: u64,
        count: u64,
    },
    /// The switch is there, for the so manieth time, and a guest is to make at most so many steps a second; 0 if it runs as fast as it can.
    Tick {
        number: u64,
        speed: u64,
    },
    /// The process is to end.
    Stop,
}

/// What a host says of itself.
#[derive(Clone, Copy)]
pub struct Report {
    /// 0 if it is a spare, and otherwise at least 1.
    pub generation: u32,
    /// None if it is a spare.
    pub role: Option<Role>,
    /// Whether its guest waits for a key, and nothing of it is on its way to a device.
    pub is_idle: bool,
    /// How many steps its machine has made.
    pub count: u64,
    /// How many it has yet to make up to where its primary said last that it is; 0 of all but a backup.
    pub lag: u64,
    /// How many writes of its guest are on their way to the disk.
    pub writes: u64,
    /// The number of the last tick that it has heard; 0 if it has heard none.
    pub tick: u64,
    /// How many keys of each port it has taken.
    pub taken: [u64; PORTS],
    /// How many of those the terminal need not keep any longer.
    pub covered: [u64; PORTS],
}

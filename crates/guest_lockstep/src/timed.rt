//! An input with the count at which it is taken.

/// An input without what only the log carries: a sector's bytes and its write's number are those of the machine's disk.
#[derive(Clone, Copy, PartialEq, Eq)]
pub enum Bare {
    /// A byte arrives from the terminal of this port.
    Rx(u8, u8),
    /// The terminal of this port has accepted the oldest byte that was not yet accepted.
    Sent(u8),
    /// A sector of this drive, of this number, comes under the head.
    Sector(u8, u8),
    /// The write of this number is on the disk.
    Written(u64),
}

/// An input and its count: it is taken after that many steps, and before the next one.
#[derive(Clone, Copy, PartialEq, Eq)]
pub struct Timed {
    pub count: u64,
    pub input: Bare,
}

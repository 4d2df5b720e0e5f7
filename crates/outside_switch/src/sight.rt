//! What a machine has, as it is asked for and as its host shows it.

use host_frames::SIGHT_BYTES;

/// A question what the machine of the host has that serves.
#[derive(Clone, Copy)]
pub struct Inspection {
    /// Its number, which the answer has too; at least 1.
    pub number: u64,
    /// The page of its memory that is shown, with the one after it.
    pub page: u8,
}

/// What the host at a place has shown of its machine.
#[derive(Clone, Copy)]
pub struct Sight {
    pub place: u8,
    /// The number of the question.
    pub number: u64,
    /// How many steps the machine had made.
    pub count: u64,
    /// 14 bytes of its processor, and 256 of each of two pages.
    pub bytes: [u8; SIGHT_BYTES],
}

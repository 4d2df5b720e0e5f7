//! The greatest number that anything reaches.

/// The greatest count of steps, number of an operation or of a key, and index after the last entry of a log. It fits the
/// 62 bits that a packet has for a number.
pub const GREATEST_NUMBER: u64 = 0x3fff_ffff_ffff_ffff;

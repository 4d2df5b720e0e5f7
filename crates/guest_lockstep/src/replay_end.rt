//! Why a guest that repeats a log stopped.

/// Why a guest that repeats a log made no more moves; a move is a step, or an entry of the log.
#[derive(Clone, Copy, PartialEq, Eq)]
pub enum ReplayEnd {
    /// It made all the moves that it was asked to make.
    Turns,
    /// No entry is left.
    End,
    /// The next entry is of a sector that is read from the shared disk, and its bytes have not arrived.
    Wait,
    /// A step ran out of memory.
    Memory,
}

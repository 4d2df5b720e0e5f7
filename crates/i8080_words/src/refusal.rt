//! Why a call is refused, and the number by which a user sees it.
ghost use Rattle.std.specs.Prelude.{◌≡◌};
ghost use Rattle.i8080_words.specs.Refusals.{number_of};
ghost use Rattle.i8080_words.specs.declared.refusal.Fault.TheVariants.{OutOfMemory};

use std::alloc::{AllocError, AllocFailed};
use thiserror::Error;

/// Why a call to any crate of the pair is refused. A refused call leaves every value unchanged, except as `Lost` and
/// `DeviceFault` say.
#[derive(Clone, Copy, Debug, PartialEq, Eq, Error)]
pub enum Fault {
    /// The allocator refused memory that the call needed.
    #[error("out of memory")]
    OutOfMemory,
    /// An instruction count, a log index or an operation number is at its greatest value.
    #[error("the range of numbers is spent")]
    Spent,
    /// The log already holds as many unacknowledged entries as it can.
    #[error("the log is full")]
    LogFull,
    /// No device waits for this input, or no such operation is outstanding.
    #[error("not due")]
    NotDue,
    /// The number is not the next one.
    #[error("wrong number")]
    WrongNumber,
    /// The sector that was read is not what the guest last wrote.
    #[error("stale read")]
    StaleRead,
    /// A write of this sector is outstanding.
    #[error("the sector is busy")]
    SectorBusy,
    /// A node in this role does not take this call.
    #[error("wrong role")]
    WrongRole,
    /// The message belongs to another generation.
    #[error("wrong generation")]
    WrongGeneration,
    /// The bytes, or the fields of an image, do not encode a valid value.
    #[error("malformed")]
    Malformed,
    /// Parts of the copied machine are missing.
    #[error("not whole")]
    NotWhole,
    /// The backup has not acknowledged the log entry of this operation.
    #[error("not covered")]
    NotCovered,
    /// The disk failed to read or write. The disk's records are unchanged; its own counts are not.
    #[error("device fault")]
    DeviceFault,
    /// The other node of the generation won the test-and-set. The node that asked is halted.
    #[error("lost")]
    Lost,
    /// There is no such node, port, sector, entry or message.
    #[error("unknown")]
    Unknown,
    /// The acknowledgement covers more entries than the log has.
    #[error("bad acknowledgement")]
    BadAck,
    /// The generation's threads ended before the guest's work did.
    #[error("stalled")]
    Stalled,
    /// The guest is halted and no device asks for an interrupt.
    #[error("idle")]
    Idle,
    /// The script is not valid; this is its first bad line, counted from 1.
    #[error("bad script at line {0}")]
    BadScript(u64),
}

/// A value or a refusal.
pub type R<T> = Result<T, Fault>;

impl Fault {
    /// The number, from 1 to 19, by which a script's output names the refusal.
    pub fn number(self) -> u8
        ensures { result ≡ number_of self }
    {
        match self {
            Fault::OutOfMemory => 1,
            Fault::Spent => 2,
            Fault::LogFull => 3,
            Fault::NotDue => 4,
            Fault::WrongNumber => 5,
            Fault::StaleRead => 6,
            Fault::SectorBusy => 7,
            Fault::WrongRole => 8,
            Fault::WrongGeneration => 9,
            Fault::Malformed => 10,
            Fault::NotWhole => 11,
            Fault::NotCovered => 12,
            Fault::DeviceFault => 13,
            Fault::Lost => 14,
            Fault::Unknown => 15,
            Fault::BadAck => 16,
            Fault::Stalled => 17,
            Fault::Idle => 18,
            Fault::BadScript(_) => 19,
        }
    }
}

impl From<AllocError> for Fault {
    ghost from_gives = { λ _ e. e ≡ OutOfMemory };

    fn from(_error: AllocError) -> Fault {
        Fault::OutOfMemory
    }
}

impl<T: Drop> From<AllocFailed<T>> for Fault {
    ghost from_gives = { λ _ e. e ≡ OutOfMemory };

    fn from(_error: AllocFailed<T>) -> Fault {
        Fault::OutOfMemory
    }
}

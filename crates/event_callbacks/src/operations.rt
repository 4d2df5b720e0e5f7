//! What the guest asks of a device, and the name of each such operation.
ghost use Rattle.std.specs.Prelude.{◌≡◌};
ghost use Rattle.event_callbacks.specs.Operations.{id_of};

use disk_dcdd::SectorWrite;

/// The name of an operation.
#[derive(Clone, Copy, PartialEq, Eq)]
pub enum OpId {
    /// The byte of this number on this port. Each port numbers its bytes from 1.
    Byte(u8, u64),
    /// The write of this number. Writes are numbered from 1 across all drives.
    Write(u64),
}

/// What the guest asks of a device.
#[derive(Clone, Copy, PartialEq, Eq)]
pub enum Operation {
    /// A byte for the terminal of a port.
    Byte { port: u8, number: u64, byte: u8 },
    /// A sector for the disk.
    Write(SectorWrite),
}

impl Operation {
    /// The name of the operation.
    pub fn id(&self) -> OpId
        ensures { result ≡ id_of self.now }
    {
        match self {
            Operation::Byte { port, number, .. } => OpId::Byte(*port, *number),
            Operation::Write(write) => OpId::Write(write.number),
        }
    }
}

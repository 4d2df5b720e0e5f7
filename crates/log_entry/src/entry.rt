//! An entry of the log.

ghost use Rattle.std.specs.Prelude.{◌≡◌, ◌<◌, ◌^◌};

use disk_dcdd::SECTOR_BYTES;
use guest_lockstep::{Bare, Input, Reads, Timed};

/// What one input or one operation appends to the log, with its count (VMware FT, section 2.1, "log entries").
#[derive(Clone, Copy, PartialEq, Eq)]
pub enum Entry {
    /// The step that ends at this count gave an operation.
    Mark {
        count: u64,
    },
    /// A key was taken at a port.
    Rx {
        count: u64,
        port: u8,
        byte: u8,
    },
    /// The oldest byte of a port that was not yet accepted is accepted.
    Sent {
        count: u64,
        port: u8,
    },
    /// A sector came under the head, with the bytes of the write of this number.
    Sector {
        count: u64,
        drive: u8,
        sector: u8,
        number: u64,
        bytes: [u8; SECTOR_BYTES],
    },
    /// The write of this number is done.
    Written {
        count: u64,
        number: u64,
    },
    /// A sector came under the head, with the bytes of the write of this number, which the shared disk has (section 4.2).
    Read {
        count: u64,
        drive: u8,
        sector: u8,
        number: u64,
    },
}

impl Entry {
    ghost use Rattle.guest_lockstep.specs.Lockstep.{IsInput, IsNumbered};
    ghost use Rattle.log_entry.specs.Entries.{count_of, entry_of, input_of, read_of, timed_of};
    ghost use Rattle.log_entry.specs.Spelling.{IsEntry};

    /// The entry of an input that is taken at this count; `reads` says whether the log carries sector bytes. If the input
    /// may come and the count is in range, all fields are in range.
    pub fn of_input(reads: Reads, count: u64, input: Input) -> Entry
        ensures value { result ≡ entry_of reads count input }
        ensures valid { IsInput input → IsNumbered input → count < 2 ^ 62 → IsEntry result }
    {
        match input {
            Input::Rx(port, byte) => Entry::Rx { count, port, byte },
            Input::Sent(port) => Entry::Sent { count, port },
            Input::Sector {
                drive,
                sector,
                number,
                bytes,
            } => match reads {
                Reads::Logged => Entry::Sector {
                    count,
                    drive,
                    sector,
                    number,
                    bytes,
                },
                Reads::Shared => Entry::Read {
                    count,
                    drive,
                    sector,
                    number,
                },
            },
            Input::Written(number) => Entry::Written { count, number },
        }
    }

    /// How many steps the machine has executed at the entry.
    pub fn count(&self) -> u64
        ensures { result ≡ count_of self.now }
    {
        match self {
            Entry::Mark { count }
            | Entry::Rx { count, .. }
            | Entry::Sent { count, .. }
            | Entry::Sector { count, .. }
            | Entry::Written { count, .. }
            | Entry::Read { count, .. } => *count,
        }
    }

    /// The input that was taken; a mark has none, and a read does not carry its bytes.
    pub fn input(&self) -> Option<Input>
        ensures { result ≡ input_of self.now }
    {
        match *self {
            Entry::Mark { .. } | Entry::Read { .. } => None,
            Entry::Rx { port, byte, .. } => Some(Input::Rx(port, byte)),
            Entry::Sent { port, .. } => Some(Input::Sent(port)),
            Entry::Sector {
                drive,
                sector,
                number,
                bytes,
                ..
            } => Some(Input::Sector {
                drive,
                sector,
                number,
                bytes,
            }),
            Entry::Written { number, .. } => Some(Input::Written(number)),
        }
    }

    /// The drive, the sector and the number of a sector that the backup reads from the shared disk; every other entry has
    /// none.
    pub fn read_of(&self) -> Option<(u8, u8, u64)>
        ensures { result ≡ read_of self.now }
    {
        match *self {
            Entry::Read {
                drive,
                sector,
                number,
                ..
            } => Some((drive, sector, number)),
            _ => None,
        }
    }

    /// The input with its count, without what only the log carries; a mark has none.
    pub fn timed(&self) -> Option<Timed>
        ensures { result ≡ timed_of self.now }
    {
        let input = match *self {
            Entry::Mark { .. } => return None,
            Entry::Rx { port, byte, .. } => Bare::Rx(port, byte),
            Entry::Sent { port, .. } => Bare::Sent(port),
            Entry::Sector { drive, sector, .. } | Entry::Read { drive, sector, .. } => {
                Bare::Sector(drive, sector)
            }
            Entry::Written { number, .. } => Bare::Written(number),
        };
        Some(Timed {
            count: self.count(),
            input,
        })
    }
}

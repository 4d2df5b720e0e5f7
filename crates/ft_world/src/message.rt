//! What nodes and the disk send.
ghost use Rattle.std.specs.Prelude.{◌≡◌, IfErr, IfOk, Some, option_map};
ghost use Rattle.i8080_words.specs.declared.refusal.Fault.TheVariants.{OutOfMemory};
ghost use Rattle.ft_world.specs.Messages as table;

use disk_dcdd::SectorWrite;
use event_callbacks::Operation;
use i8080_words::R;
use shared_disk::SectorRead;
use std::alloc::Global;

/// A message that was sent. A link loses, repeats and reorders messages, and alters none. All messages are kept, and most
/// are short, so the bytes of a sector are kept elsewhere.
#[derive(Drop)]
pub enum Message {
    /// The packet of a log entry.
    Log(Vec<u8>),
    /// The packet of an acknowledgement.
    Ack(Vec<u8>),
    /// A part of an image, in the bytes of its message.
    Part(Vec<u8>),
    /// A byte for the terminal of a port, with its number, from 1.
    Byte { port: u8, number: u64, byte: u8 },
    /// A write for the shared disk.
    Write(Box<SectorWrite>),
    /// The disk has taken the write of this number.
    Written(u64),
    /// What a sector of the disk has.
    Sector(Box<SectorRead>),
}

impl Message {
    // The message that releases an operation to its device.
    pub(crate) fn releasing(alloc: Global, operation: Operation) -> R<Message>
        ensures ok { IfOk result (λ message. table.operation_of message ≡ Some operation) }
        ensures full { IfErr result (λ fault. fault ≡ OutOfMemory) }
    {
        match operation {
            Operation::Byte { port, number, byte } => Ok(Message::Byte { port, number, byte }),
            Operation::Write(write) => Ok(Message::Write(Box::new(alloc, write)?)),
        }
    }

    // The packet of a log entry, if it is one.
    pub(crate) fn log(&self) -> Option<&[u8]>
        ensures { option_map (λ packet. packet.now) result ≡ table.log_of self.now }
    {
        match self {
            Message::Log(packet) => Some(packet),
            _ => None,
        }
    }

    // The packet of an acknowledgement, if it is one.
    pub(crate) fn ack(&self) -> Option<&[u8]>
        ensures { option_map (λ packet. packet.now) result ≡ table.ack_of self.now }
    {
        match self {
            Message::Ack(packet) => Some(packet),
            _ => None,
        }
    }

    // The bytes of a part of an image, if it is one.
    pub(crate) fn part(&self) -> Option<&[u8]>
        ensures { option_map (λ part. part.now) result ≡ table.part_of self.now }
    {
        match self {
            Message::Part(part) => Some(part),
            _ => None,
        }
    }

    // The port, the number and the byte that were released, if it is a byte.
    pub(crate) fn byte(&self) -> Option<(u8, u64, u8)>
        ensures { result ≡ table.byte_of self.now }
    {
        match self {
            Message::Byte { port, number, byte } => Some((*port, *number, *byte)),
            _ => None,
        }
    }

    // The write that was released, if it is one.
    pub(crate) fn write(&self) -> Option<SectorWrite>
        ensures { result ≡ table.write_of self.now }
    {
        match self {
            Message::Write(write) => Some(**write),
            _ => None,
        }
    }

    // The number of the write that the disk has taken, if it is such an answer.
    pub(crate) fn written(&self) -> Option<u64>
        ensures { result ≡ table.written_of self.now }
    {
        match self {
            Message::Written(number) => Some(*number),
            _ => None,
        }
    }

    // The sector that was read, if it is one.
    pub(crate) fn sector(&self) -> Option<SectorRead>
        ensures { result ≡ table.sector_of self.now }
    {
        match self {
            Message::Sector(read) => Some(**read),
            _ => None,
        }
    }
}

//! The messages that were sent: how one more is sent, and what a message brings.
ghost use Rattle.std.specs.Prelude.{◌≡◌, ◌<◌, ◌∷◌, ◌++◌, [], length, option_map, vec_capacity, vec_len};
ghost use Rattle.pair_events.specs.declared.reply.Reply.TheVariants as reply;
ghost use Rattle.ft_world.specs.Messages as table;

use crate::message::Message;
use disk_dcdd::SectorWrite;
use event_callbacks::Operation;
use i8080_words::R;
use pair_events::Reply;
use shared_disk::SectorRead;
use std::alloc::Global;

/// A message is sent; returns its number.
pub(crate) fn say(messages: &mut Vec<Message>, message: Message) -> R<Reply>
    ensures { table.Says messages.old.items message result messages.new.items }
{
    let number = messages.len() as u64;
    messages.push(message)?;
    Ok(Reply::Message { message: number })
}

/// A message is sent, for which there is room; returns its number.
pub(crate) fn say_reserved(messages: &mut Vec<Message>, message: Message) -> Reply
    requires { vec_len messages.old < vec_capacity messages.old }
    ensures number { result ≡ reply.Message (length messages.old.items) }
    ensures sent { messages.new.items ≡ messages.old.items ++ message ∷ [] }
{
    let number = messages.len() as u64;
    messages.push_reserved(message);
    Reply::Message { message: number }
}

/// An operation is released to its device; returns the number of the message.
pub(crate) fn say_released(
    alloc: Global,
    messages: &mut Vec<Message>,
    operation: Operation,
) -> R<Reply>
    ensures { table.Releases messages.old.items operation result messages.new.items }
{
    let message = Message::releasing(alloc, operation)?;
    say(messages, message)
}

/// The packet of a log entry that a message brings to a backup.
pub(crate) fn log_in(messages: &Vec<Message>, message: u64) -> Option<&[u8]>
    ensures { option_map (λ packet. packet.now) result ≡ table.brought table.log_of messages.now.items message }
{
    let message = messages.get(message as usize)?;
    message.log()
}

/// The packet of an acknowledgement that a message brings to a primary.
pub(crate) fn ack_in(messages: &Vec<Message>, message: u64) -> Option<&[u8]>
    ensures { option_map (λ packet. packet.now) result ≡ table.brought table.ack_of messages.now.items message }
{
    let message = messages.get(message as usize)?;
    message.ack()
}

/// The part of an image that a message brings to a joining node.
pub(crate) fn part_in(messages: &Vec<Message>, message: u64) -> Option<&[u8]>
    ensures { option_map (λ part. part.now) result ≡ table.brought table.part_of messages.now.items message }
{
    let message = messages.get(message as usize)?;
    message.part()
}

/// The byte that a message brings to its terminal: its port, its number and the byte.
pub(crate) fn byte_in(messages: &Vec<Message>, message: u64) -> Option<(u8, u64, u8)>
    ensures { result ≡ table.brought table.byte_of messages.now.items message }
{
    let message = messages.get(message as usize)?;
    message.byte()
}

/// The write that a message brings to the disk.
pub(crate) fn write_in(messages: &Vec<Message>, message: u64) -> Option<SectorWrite>
    ensures { result ≡ table.brought table.write_of messages.now.items message }
{
    let message = messages.get(message as usize)?;
    message.write()
}

/// The number of the write that a message reports as taken by the disk.
pub(crate) fn written_in(messages: &Vec<Message>, message: u64) -> Option<u64>
    ensures { result ≡ table.brought table.written_of messages.now.items message }
{
    let message = messages.get(message as usize)?;
    message.written()
}

/// The sector that a message brings to a node.
pub(crate) fn sector_in(messages: &Vec<Message>, message: u64) -> Option<SectorRead>
    ensures { result ≡ table.brought table.sector_of messages.now.items message }
{
    let message = messages.get(message as usize)?;
    message.sector()
}

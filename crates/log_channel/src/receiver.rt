//! The backup's end.

ghost use Rattle.std.specs.Prelude.{◌≡◌, ◌<◌, ◌≤◌, ◌+◌, ◌^◌, ◌↔◌, IsTrue, [], length, drop, slice_get, option_copied, IfOk, IfSome, Some};

use crate::block::Block;
use crate::held::{hold, unhold};
use crate::packet::Packet;
use i8080_words::{Fault, R};
use log_entry::Entry;
use std::alloc::Global;
use std::marker::Model;

/// Holds the entries that arrived in order of index, without gaps, until they are popped: the first of them, and the
/// spellings of those after it.
#[derive(Drop)]
pub struct Receiver {
    generation: u32,
    held: u64,
    popped: u64,
    front: Option<Entry>,
    block: Block,
}

impl Model for Receiver {
    ghost use Rattle.log_channel.specs.Channel.{Receiving};
    ghost use Rattle.log_channel.specs.Receiver.{IsReceiver, receiving_of};

    ghost Value = { Receiving };

    ghost view = { receiving_of };

    ghost invariant = { IsReceiver };
}

impl Receiver {
    ghost use Rattle.std.specs.List.{flat_map};
    ghost use Rattle.log_entry.specs.Spelling.{IsEntry, spelling};
    ghost use Rattle.log_channel.specs.Packet.{packet_at};
    ghost use Rattle.log_channel.specs.Channel.{Answers, Holds, MayHold, Spells, ack_of, heard, next_in};

    /// The end of this generation, which holds nothing yet.
    pub fn new(alloc: Global, generation: u32) -> Receiver
        requires { 0 < generation }
        ensures { result ≡ record { generation = generation; held = 0; entries = [] } }
    {
        Receiver {
            generation,
            held: 0,
            popped: 0,
            front: None,
            block: Block::new(alloc),
        }
    }

    /// The generation, at least 1.
    pub fn generation(&self) -> u32
        ensures value { result ≡ self.now.generation }
        ensures first { 0 < result }
    {
        self.generation
    }

    /// The entry that a packet of the log brings, if it is the next one; `None` if the packet is a repeat or past a gap.
    /// `Malformed` if the bytes are not a packet of the log, `WrongGeneration` if the packet is of another generation.
    pub fn next_entry(&self, bytes: &[u8]) -> R<Option<Entry>>
        ensures answer { result ≡ next_in (heard self.now (packet_at bytes.now)) }
        ensures may { IfOk result (λ next. IfSome next (MayHold self.now)) }
    {
        let Packet::Log {
            generation,
            index,
            entry,
        } = Packet::read(bytes)?
        else {
            return Err(Fault::Malformed);
        };
        if generation != self.generation {
            return Err(Fault::WrongGeneration);
        }
        Ok((index == self.held).then_some(entry))
    }

    /// Holds the next entry. If nothing is held, no memory is needed.
    pub fn hold(&mut self, entry: Entry) -> R<()>
        requires { MayHold self.old entry }
        ensures { Holds entry self.old result self.new }
    {
        hold(&mut self.front, &mut self.block, entry)?;
        self.held += 1;
        Ok(())
    }

    /// Takes a packet of the log: holds the entry that `next_entry` finds, and returns true; a repeat or a packet past a
    /// gap is false, and changes nothing.
    pub fn on_log(&mut self, bytes: &[u8]) -> R<bool>
        ensures { Answers (heard self.old (packet_at bytes.now)) self.old result self.new }
    {
        let Some(entry) = self.next_entry(bytes)? else {
            return Ok(false);
        };
        self.hold(entry)?;
        Ok(true)
    }

    /// The packet that acknowledges all entries held so far, and reports that `replayed` of them are replayed, if that is
    /// given.
    pub fn ack(&self, alloc: Global, replayed: Option<u64>) -> R<Vec<u8>>
        requires { IfSome replayed (λ number. number ≤ self.now.held) }
        ensures { Spells (Some (ack_of self.now replayed)) result }
    {
        let packet = Packet::Ack {
            generation: self.generation,
            held: self.held,
            replayed,
        };
        let mut out = Vec::new(alloc);
        packet.write(&mut out)?;
        Ok(out)
    }

    /// How many entries were ever held, popped ones included.
    pub fn held(&self) -> u64
        ensures held { result ≡ self.now.held }
        ensures within { result < 2 ^ 62 }
    {
        self.held
    }

    /// How many entries were popped, which is the index of the first one held.
    pub fn popped(&self) -> u64
        ensures popped { result + length self.now.entries ≡ self.now.held }
        ensures within { result < 2 ^ 62 }
    {
        self.popped
    }

    /// Whether no entry is held.
    pub fn is_empty(&self) -> bool
        ensures { IsTrue result ↔ (self.now.entries ≡ []) }
    {
        match self.front() {
            Some(_) => false,
            None => true,
        }
    }

    /// The first entry that is held.
    pub fn front(&self) -> Option<&Entry>
        ensures entry { option_copied result ≡ slice_get self.now.entries 0 }
        ensures valid { IfSome (slice_get self.now.entries 0) IsEntry }
    {
        self.front.as_ref()
    }

    /// The spellings of the entries after the first, one after another.
    pub fn block(&self) -> &[u8]
        ensures { result.now ≡ flat_map spelling (drop 1 self.now.entries) }
    {
        self.block.as_slice()
    }

    /// Takes the first entry that is held. Allocates no memory.
    pub fn pop(&mut self) -> Option<Entry>
        ensures entry { result ≡ slice_get self.old.entries 0 }
        ensures valid { IfSome result IsEntry }
        ensures after { self.new ≡ record self.old { entries = drop 1 self.old.entries } }
    {
        let first = unhold(&mut self.front, &mut self.block)?;
        self.popped += 1;
        Some(first)
    }
}

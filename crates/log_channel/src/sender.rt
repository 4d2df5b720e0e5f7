//! The primary's end.

ghost use Rattle.std.specs.Prelude.{◌≡◌, ◌<◌};

use crate::packet::Packet;
use i8080_words::{Fault, R};
use log_buffer::LogBuffer;
use std::alloc::Global;
use std::marker::Model;

/// Sends the entries of a log, and knows how many the backup has acknowledged, and how many it has reported as replayed.
#[derive(Drop)]
pub struct Sender {
    generation: u32,
    held: u64,
    replayed: u64,
}

impl Model for Sender {
    ghost use Rattle.std.specs.Prelude.{◌<◌, ◌^◌};
    ghost use Rattle.log_channel.specs.Channel.{Sending};

    ghost Value = { Sending };

    ghost view = { λ s. record { generation = s.generation; held = s.held; replayed = s.replayed } };

    ghost invariant = { λ s. (0 < s.generation) × (s.generation < 2 ^ 32) };
}

impl Sender {
    ghost use Rattle.log_buffer.specs.Log.{kept_at, next_of};
    ghost use Rattle.log_channel.specs.Packet.{packet_at};
    ghost use Rattle.log_channel.specs.Channel.{Spells, ack_answer, acknowledged, packet_of};

    /// The end of this generation, to which nothing is acknowledged yet.
    pub fn new(generation: u32) -> Sender
        requires { 0 < generation }
        ensures { result ≡ record { generation = generation; held = 0; replayed = 0 } }
    {
        Sender {
            generation,
            held: 0,
            replayed: 0,
        }
    }

    /// The generation, at least 1.
    pub fn generation(&self) -> u32
        ensures value { result ≡ self.now.generation }
        ensures first { 0 < result }
    {
        self.generation
    }

    /// The greatest number of entries that an acknowledgement has reported as replayed.
    pub fn replayed(&self) -> u64
        ensures { result ≡ self.now.replayed }
    {
        self.replayed
    }

    /// The packet of the entry of this index, `Unknown` if the log does not keep it.
    pub fn packet(&self, alloc: Global, log: &LogBuffer, index: u64) -> R<Vec<u8>>
        ensures { Spells (packet_of self.now.generation index (kept_at log.now index)) result }
    {
        let Some(entry) = log.get(index) else {
            return Err(Fault::Unknown);
        };
        let packet = Packet::Log {
            generation: self.generation,
            index,
            entry: *entry,
        };
        let mut out = Vec::new(alloc);
        packet.write(&mut out)?;
        Ok(out)
    }

    /// Takes an acknowledgement, and returns the greatest number of entries acknowledged so far. `Malformed` if the bytes
    /// are not an acknowledgement, `WrongGeneration` if it is of another generation, and `BadAck` if it covers more
    /// entries than the log has. One without a report reports 0 entries as replayed.
    pub fn on_ack(&mut self, log: &LogBuffer, bytes: &[u8]) -> R<u64>
        ensures answer { result ≡ ack_answer self.old (next_of log.now) (packet_at bytes.now) }
        ensures after { self.new ≡ acknowledged self.old (packet_at bytes.now) result }
    {
        let Packet::Ack {
            generation,
            held,
            replayed,
        } = Packet::read(bytes)?
        else {
            return Err(Fault::Malformed);
        };
        if generation != self.generation {
            return Err(Fault::WrongGeneration);
        }
        if held > log.next() {
            return Err(Fault::BadAck);
        }
        self.held = self.held.max(held);
        self.replayed = self.replayed.max(replayed.unwrap_or(0));
        Ok(self.held)
    }
}

//! A packet and its bytes.

ghost use Rattle.std.specs.Prelude.{◌≡◌, ◌+◌, ◌<◌, ◌∷◌, ◌++◌, length, vec_len, vec_capacity, OnOk, OnErr, IfOk, IfErr, Ok, Some, ok_or, option_map};
ghost use Rattle.byteorder.specs.Endian.{big_bytes};
ghost use Rattle.i8080_words.specs.declared.refusal.Fault.TheVariants.{Malformed, OutOfMemory};

use byteorder::{BigEndian, ByteOrder};
use i8080_words::{Fault, GREATEST_NUMBER, R};
use log_entry::{Entry, generation_at, number_at, spelled_number};

/// The byte that a packet of the log begins with, the letter `L`.
const LOG_TAG: u8 = 0x4c;

/// The byte that an acknowledgement begins with, the letter `A`.
const ACK_TAG: u8 = 0x41;

/// The byte that an acknowledgement with the number of replayed entries begins with, the letter `B`.
const REPORT_TAG: u8 = 0x42;

/// What travels between the two ends of a log's channel. Generations count from 1.
#[derive(Clone, Copy, PartialEq, Eq)]
pub enum Packet {
    /// An entry of the log with its index, from the primary.
    Log {
        generation: u32,
        index: u64,
        entry: Entry,
    },
    /// How many entries the backup has held, counted from the first one, and how many of them it has replayed, if it
    /// reports that.
    Ack {
        generation: u32,
        held: u64,
        replayed: Option<u64>,
    },
}

impl Packet {
    ghost use Rattle.log_channel.specs.Packet.{IsPacket, packet_at, packet_bytes};

    /// Appends the packet's spelling. Allocates no memory if the bytes fit, and otherwise only once.
    pub fn write(&self, out: &mut Vec<u8>) -> R<()>
        ensures ok { OnOk result (out.new.items ≡ out.old.items ++ packet_bytes self.now) }
        ensures err { OnErr result (out.new.items ≡ out.old.items) }
        ensures only_memory { IfErr result (λ fault. fault ≡ OutOfMemory) }
        ensures full { OnErr result (vec_capacity out.old < vec_len out.old + length (packet_bytes self.now)) }
    {
        match self {
            Packet::Log {
                generation,
                index,
                entry,
            } => {
                out.try_reserve(13 + entry.spelled_length())?;
                let front = head(LOG_TAG, *generation, *index);
                out.extend_from_slice(&front)?;
                entry.write(out)
            }
            Packet::Ack {
                generation,
                held,
                replayed,
            } => write_ack(out, *generation, *held, *replayed),
        }
    }

    /// The packet that the bytes spell. `Malformed` if they spell none, or if bytes follow one.
    pub fn read(bytes: &[u8]) -> R<Packet>
        ensures found { IfOk result (λ p. IsPacket p × (bytes.now ≡ packet_bytes p)) }
        ensures only { (p : Packet) → IsPacket p → bytes.now ≡ packet_bytes p → result ≡ Ok p }
        ensures malformed { IfErr result (λ fault. fault ≡ Malformed) }
        ensures exact { result ≡ ok_or (packet_at bytes.now) Malformed }
    {
        packet_of(bytes).ok_or(Fault::Malformed)
    }
}

ghost use Rattle.log_channel.specs.Packet.{ack_at, ack_bytes, log_at, packet_at, report_at, whole};

// A tag, a generation and a number.
fn head(tag: u8, generation: u32, number: u64) -> [u8; 13]
    ensures { result ≡ tag ∷ big_bytes 4 generation ++ big_bytes 8 number }
{
    let mut bytes = [0; 13];
    bytes[0] = tag;
    BigEndian::write_u32(&mut bytes[1..5], generation);
    bytes[5..].copy_from_slice(&spelled_number(number));
    bytes
}

// An acknowledgement that reports how many entries are replayed.
fn report(generation: u32, held: u64, replayed: u64) -> [u8; 21]
    ensures { result ≡ ack_bytes generation held (Some replayed) }
{
    let mut bytes = [0; 21];
    bytes[0] = REPORT_TAG;
    BigEndian::write_u32(&mut bytes[1..5], generation);
    bytes[5..13].copy_from_slice(&spelled_number(held));
    bytes[13..].copy_from_slice(&spelled_number(replayed));
    bytes
}

// Appends an acknowledgement.
fn write_ack(out: &mut Vec<u8>, generation: u32, held: u64, replayed: Option<u64>) -> R<()>
    ensures ok { OnOk result (out.new.items ≡ out.old.items ++ ack_bytes generation held replayed) }
    ensures err { OnErr result (out.new.items ≡ out.old.items) }
    ensures only_memory { IfErr result (λ fault. fault ≡ OutOfMemory) }
    ensures full { OnErr result (vec_capacity out.old < vec_len out.old + length (ack_bytes generation held replayed)) }
{
    match replayed {
        None => out.extend_from_slice(&head(ACK_TAG, generation, held))?,
        Some(replayed) => out.extend_from_slice(&report(generation, held, replayed))?,
    }
    Ok(())
}

// The packet that the bytes spell, using all of them.
#[tactic(auto, unfolding(crate::specs::Packet::packet_at))]
fn packet_of(bytes: &[u8]) -> Option<Packet>
    ensures { result ≡ packet_at bytes.now }
{
    let [tag, rest @ ..] = bytes else {
        return None;
    };
    let (generation, rest) = generation_at(rest)?;
    match *tag {
        LOG_TAG => log_of(generation, rest),
        ACK_TAG => ack_of(generation, rest),
        REPORT_TAG => report_of(generation, rest),
        _ => None,
    }
}

#[tactic(auto, unfolding(crate::specs::Packet::log_at))]
fn log_of(generation: u32, bytes: &[u8]) -> Option<Packet>
    ensures { result ≡ log_at generation bytes.now }
{
    let (index, rest) = number_at(bytes)?;
    if index == GREATEST_NUMBER {
        return None;
    }
    let entry = Entry::read(rest).ok()?;
    Some(Packet::Log {
        generation,
        index,
        entry,
    })
}

#[tactic(auto, unfolding(crate::specs::Packet::ack_at))]
fn ack_of(generation: u32, bytes: &[u8]) -> Option<Packet>
    ensures { result ≡ ack_at generation bytes.now }
{
    let (held, rest) = number_at(bytes)?;
    alone(
        Packet::Ack {
            generation,
            held,
            replayed: None,
        },
        rest,
    )
}

#[tactic(auto, unfolding(crate::specs::Packet::report_at))]
fn report_of(generation: u32, bytes: &[u8]) -> Option<Packet>
    ensures { result ≡ report_at generation bytes.now }
{
    let (held, rest) = number_at(bytes)?;
    let (replayed, rest) = number_at(rest)?;
    if replayed > held {
        return None;
    }
    alone(
        Packet::Ack {
            generation,
            held,
            replayed: Some(replayed),
        },
        rest,
    )
}

// A packet, if no bytes follow it.
fn alone(packet: Packet, rest: &[u8]) -> Option<Packet>
    ensures { result ≡ whole packet rest.now }
{
    if !rest.is_empty() {
        return None;
    }
    Some(packet)
}

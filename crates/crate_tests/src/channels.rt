//! Packets in bytes, and a log that goes from one end to the other.

use i8080_words::{Fault, R};
use log_buffer::LogBuffer;
use log_channel::{Packet, Receiver, Sender};
use log_entry::Entry;
use std::alloc::Global;
use std::process::Abort;
use std::test::Fail;

// The mark at count 6, at index 0 of generation 1.
const MARK: [u8; 22] = [
    0x4c, 0, 0, 0, 1, 0, 0, 0, 0, 0, 0, 0, 0, 0, 0, 0, 0, 0, 0, 0, 0, 6,
];

// One entry is held, in generation 1.
const ACK: [u8; 13] = [0x41, 0, 0, 0, 1, 0, 0, 0, 0, 0, 0, 0, 1];

// Three entries are held and two of them are replayed, in generation 1.
const REPORT: [u8; 21] = [
    0x42, 0, 0, 0, 1, 0, 0, 0, 0, 0, 0, 0, 3, 0, 0, 0, 0, 0, 0, 0, 2,
];

// Entries of all kinds in turn.
fn entry_at(index: u64) -> Entry {
    let byte = (index % 251) as u8;
    match index % 6 {
        0 => Entry::Mark { count: index },
        1 => Entry::Rx {
            count: index,
            port: 1,
            byte,
        },
        2 => Entry::Sent {
            count: index,
            port: 0,
        },
        3 => Entry::Sector {
            count: index,
            drive: 2,
            sector: byte % 32,
            number: index,
            bytes: [byte; 137],
        },
        4 => Entry::Written {
            count: index,
            number: index,
        },
        _ => Entry::Read {
            count: index,
            drive: 3,
            sector: byte % 32,
            number: index,
        },
    }
}

// A log and both ends of its channel.
#[derive(Drop)]
struct Channel {
    log: LogBuffer,
    sender: Sender,
    receiver: Receiver,
}

// Both ends in generation 1, with nothing logged.
fn both_ends(alloc: Global) -> R<Channel> {
    Ok(Channel {
        log: LogBuffer::new(alloc, 0)?,
        sender: Sender::new(1),
        receiver: Receiver::new(alloc, 1),
    })
}

// Logs the entries from one index up to another.
fn push(rt: &impl Abort, log: &mut LogBuffer, from: u64, to: u64) {
    for index in from..to {
        assert!(rt; log.push(entry_at(index)) == Ok(index));
    }
}

#[test]
fn an_entry_is_held_and_acknowledged(rt: HostRuntime) -> Result<(), Fail> {
    let mut log = LogBuffer::new(rt.alloc(), 0)?;
    log.push(Entry::Mark { count: 6 })?;
    let packet = Sender::new(1).packet(rt.alloc(), &log, 0)?;
    assert!(rt; packet.as_slice() == MARK.as_slice());
    let mut receiver = Receiver::new(rt.alloc(), 1);
    assert!(rt; receiver.on_log(&packet) == Ok(true));
    let ack = receiver.ack(rt.alloc(), None)?;
    assert!(rt; ack.as_slice() == ACK.as_slice());
    Ok(())
}

// What a sender in generation 1, of a log with three entries, answers; and how many are replayed then.
static REPORTED: [(&[u8], R<u64>, u64); 3] = [
    (&REPORT, Ok(3), 2),
    (&ACK, Ok(3), 2),
    (&MARK, Err(Fault::Malformed), 2),
];

#[test]
fn an_acknowledgement_says_what_is_replayed(rt: HostRuntime) -> Result<(), Fail> {
    let mut channel = both_ends(rt.alloc())?;
    push(&rt, &mut channel.log, 0, 3);
    send(&rt, rt.alloc(), &mut channel, 0, 3)?;
    if channel.receiver.held() >= 2 {
        let report = channel.receiver.ack(rt.alloc(), Some(2))?;
        assert!(rt; report.as_slice() == REPORT.as_slice());
    }
    for (bytes, answer, replayed) in &REPORTED {
        assert!(rt; channel.sender.on_ack(&channel.log, bytes) == *answer);
        assert!(rt; channel.sender.replayed() == *replayed);
    }
    Ok(())
}

fn spelled(alloc: Global, packet: &Packet) -> R<Vec<u8>> {
    let mut bytes = Vec::new(alloc);
    packet.write(&mut bytes)?;
    Ok(bytes)
}

fn flip(bytes: &mut [u8], place: usize, change: u8) {
    if let Some(byte) = bytes.get_mut(place) {
        *byte ^= change;
    }
}

// No proper prefix is a packet, and nothing may follow one.
fn expect_whole(rt: &impl Abort, bytes: &mut Vec<u8>) -> R<()> {
    for length in 0..bytes.len() {
        let front = bytes.get(..length).unwrap_or_default();
        assert!(rt; Packet::read(front) == Err(Fault::Malformed));
    }
    bytes.push(0)?;
    assert!(rt; Packet::read(bytes) == Err(Fault::Malformed));
    bytes.pop();
    Ok(())
}

// These bytes are no packet, or those of a different one.
fn expect_other(rt: &impl Abort, alloc: Global, packet: &Packet, bytes: &[u8]) -> R<()> {
    if let Ok(other) = Packet::read(bytes) {
        assert!(rt; other != *packet);
        assert!(rt; spelled(alloc, &other)?.as_slice() == bytes);
    }
    Ok(())
}

// With one byte changed it is no packet or a different one.
fn expect_no_other(rt: &impl Abort, alloc: Global, packet: &Packet, length: usize) -> R<()> {
    let mut bytes = spelled(alloc, packet)?;
    assert!(rt; bytes.len() == length);
    assert!(rt; Packet::read(&bytes) == Ok(*packet));
    expect_whole(rt, &mut bytes)?;
    for place in 0..bytes.len() {
        for change in 1..=255 {
            flip(&mut bytes, place, change);
            expect_other(rt, alloc, packet, &bytes)?;
            flip(&mut bytes, place, change);
        }
    }
    Ok(())
}

#[test]
fn other_bytes_are_no_packet(rt: HostRuntime) -> Result<(), Fail> {
    for (index, length) in [(6, 22), (7, 24), (8, 23), (9, 169), (10, 30), (11, 32)] {
        let packet = Packet::Log {
            generation: 1,
            index,
            entry: entry_at(index),
        };
        expect_no_other(&rt, rt.alloc(), &packet, length)?;
    }
    for (replayed, length) in [(None, 13), (Some(299), 21)] {
        let ack = Packet::Ack {
            generation: 1,
            held: 300,
            replayed,
        };
        expect_no_other(&rt, rt.alloc(), &ack, length)?;
    }
    Ok(())
}

// Sends the entries from one index up to another, each packet twice.
fn send(rt: &impl Abort, alloc: Global, channel: &mut Channel, from: u64, to: u64) -> R<()> {
    for index in from..to {
        let packet = channel.sender.packet(alloc, &channel.log, index)?;
        for is_new in [true, false] {
            assert!(rt; channel.receiver.on_log(&packet)? == is_new);
        }
    }
    Ok(())
}

// All entries are acknowledged, up to this index, and dropped.
fn drop_all(rt: &impl Abort, alloc: Global, channel: &mut Channel, to: u64) -> R<()> {
    let ack = channel.receiver.ack(alloc, None)?;
    assert!(rt; channel.sender.on_ack(&channel.log, &ack) == Ok(to));
    assert!(rt; to <= channel.log.next());
    channel.log.drop_to(to);
    Ok(())
}

// The block has the entries after this index.
fn expect_block(rt: &impl Abort, alloc: Global, receiver: &Receiver, first: u64) -> R<()> {
    let mut block = Vec::new(alloc);
    for index in first.saturating_add(1)..receiver.held() {
        entry_at(index).write(&mut block)?;
    }
    assert!(rt; receiver.block() == block.as_slice());
    Ok(())
}

// Pops the entries from one index up to another.
fn pop(rt: &impl Abort, receiver: &mut Receiver, from: u64, to: u64) {
    for index in from..to {
        assert!(rt; receiver.front() == Some(&entry_at(index)));
        assert!(rt; receiver.pop() == Some(entry_at(index)));
        assert!(rt; receiver.popped() == index + 1);
    }
}

// Up to which index each batch sends, and up to which it pops.
static BATCHES: [(u64, u64); 9] = [
    (7, 7),
    (47, 38),
    (147, 102),
    (403, 301),
    (602, 341),
    (633, 441),
    (697, 569),
    (825, 825),
    (1000, 1000),
];

#[test]
fn a_thousand_entries_come_out_as_they_went_in(rt: HostRuntime) -> Result<(), Fail> {
    let mut channel = both_ends(rt.alloc())?;
    let (mut sent, mut popped) = (0, 0);
    for (send_to, pop_to) in &BATCHES {
        push(&rt, &mut channel.log, sent, *send_to);
        send(&rt, rt.alloc(), &mut channel, sent, *send_to)?;
        drop_all(&rt, rt.alloc(), &mut channel, *send_to)?;
        expect_block(&rt, rt.alloc(), &channel.receiver, popped)?;
        pop(&rt, &mut channel.receiver, popped, *pop_to);
        (sent, popped) = (*send_to, *pop_to);
    }
    assert!(rt; channel.receiver.held() == 1000);
    assert!(rt; channel.receiver.pop() == None);
    Ok(())
}

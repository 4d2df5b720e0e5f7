//! Parts of an image that no primary sends: the first part in version 01, and bytes that are almost a part; and what no
//! board can be in.

use clone_state::Assembly;
use guest_parts::BoardParts;
use i8080_words::{Fault, R};
use std::alloc::Global;
use std::process::Abort;
use std::test::Fail;

// Where some bytes of a message begin, and what they are.
type Bytes = (usize, &'static [u8]);

// The first part, of generation 2, of a board with one drive: byte 3 of port 0 and writes 4 and 5 are outstanding. All other
// bytes are 00.
static FIRST: [Bytes; 12] = [
    // The head; version, drives, levels and sense switches.
    (0, &[0x50, 0, 0, 0, 2, 0, 0]),
    (7, &[2, 1, 7, 7, 7, 0xff]),
    // The count, and the flags.
    (20, &[9]),
    (22, &[0x02]),
    // Bytes sent; port 0, with 48 unaccepted, and port 1.
    (58, &[3]),
    (67, &[0x15, 0, 0, 1, 0x48]),
    (87, &[0x15]),
    // Writes issued, no drive, and no sector that is being written.
    (114, &[5, 0xff]),
    (129, &[0xff]),
    // Two writes: number 4 of sector 6, and number 5 of sector 7.
    (267, &[2]),
    (275, &[4, 0, 0, 6]),
    (423, &[5, 0, 0, 7]),
];

// The message of the first part.
fn first_part(alloc: Global) -> R<Vec<u8>> {
    let mut message = vec![in alloc; 0u8; 564]?;
    for (place, bytes) in &FIRST {
        for (index, byte) in bytes.iter().enumerate() {
            if let Some(at) = message.get_mut(place.wrapping_add(index)) {
                *at = *byte;
            }
        }
    }
    Ok(message)
}

// The message of the same part with its ports in version 01: port 0 is not ready, since 48 is not accepted, and port 1 is.
fn in_version_01(alloc: Global, first: &[u8]) -> R<Vec<u8>> {
    let mut old = Vec::from_slice(alloc, first.get(..67).unwrap_or_default())?;
    if let Some(version) = old.get_mut(7) {
        *version = 0x01;
    }
    old.extend_from_slice(&[0x15, 0x00, 0x00, 0x00, 0x48, 0x15, 0x00, 0x00, 0x01, 0x00])?;
    old.extend_from_slice(first.get(107..).unwrap_or_default())?;
    Ok(old)
}

// The message of another part, in which all is 00: a page, or from part 257 on the last completed writes of a track.
fn later_part(alloc: Global, index: u16) -> R<Vec<u8>> {
    let [high, low] = index.to_be_bytes();
    let mut message = Vec::from_slice(alloc, &[0x50, 0, 0, 0, 2, high, low])?;
    message.resize(263, 0)?;
    Ok(message)
}

// What the parts say that follow this first one.
fn board_parts(rt: &(impl Abort + AllocGlobal), first: &[u8]) -> R<BoardParts> {
    let mut assembly = Assembly::new(rt.alloc(), 2, 1)?;
    assert!(rt; assembly.part(first) == Ok(true));
    for index in 1..334 {
        let message = later_part(rt.alloc(), index)?;
        assert!(rt; assembly.part(&message) == Ok(true));
    }
    assembly.board_parts(rt.alloc())
}

// The last completed write of sector 6.
fn complete(parts: &mut BoardParts, number: u64) {
    if let Some(last) = parts.completed.get_mut(6) {
        *last = number;
    }
}

// A first part comes once; in version 02 it is a repeat. If it is taken back, it may come again.
fn expect_once(rt: &(impl Abort + AllocGlobal), old: &[u8], first: &[u8]) -> R<()> {
    let mut assembly = Assembly::new(rt.alloc(), 2, 1)?;
    assert!(rt; assembly.part(old) == Ok(true));
    assert!(rt; assembly.part(old) == Ok(false));
    assert!(rt; assembly.part(first) == Ok(false));
    assembly.forget(first);
    assert!(rt; assembly.part(old) == Ok(true));
    Ok(())
}

// What that part says: port 0 waits for 48 to be accepted, and port 1 is ready.
fn expect_said(rt: &impl Abort, parts: &BoardParts) {
    let [ready, waiting] = [parts.devices.ports[1], parts.devices.ports[0]];
    assert!(rt; (ready.unaccepted(), waiting.unaccepted()) == (0, 1));
    assert!(rt; parts.unaccepted[0][0] == 0x48);
    assert!(rt; parts.count == 9 && parts.issued == [3, 0]);
    assert!(rt; parts.devices.disk.issued() == 5);
}

#[test]
fn a_first_part_in_version_01_is_read(rt: HostRuntime) -> Result<(), Fail> {
    let first = first_part(rt.alloc())?;
    let old = in_version_01(rt.alloc(), &first)?;
    expect_once(&rt, &old, &first)?;
    expect_said(&rt, &board_parts(&rt, &old)?);
    Ok(())
}

#[test]
fn no_board_has_completed_an_outstanding_write(rt: HostRuntime) -> Result<(), Fail> {
    let mut parts = board_parts(&rt, &first_part(rt.alloc())?)?;
    for (number, stands) in [(0, true), (3, true), (4, false), (5, false), (6, false)] {
        complete(&mut parts, number);
        assert!(rt; parts.stand() == stands, "write {number}");
    }
    Ok(())
}

// How many changes of a byte give a part of generation 2, one of another generation, and none.
type Answers = (u64, u64, u64);

// The same with one more answer, in an assembly of generation 2.
fn counted(answers: Answers, came: R<bool>) -> Answers {
    let (own, other, malformed) = answers;
    match came {
        Ok(_) => (own.saturating_add(1), other, malformed),
        Err(Fault::WrongGeneration) => (own, other.saturating_add(1), malformed),
        Err(Fault::Malformed) => (own, other, malformed.saturating_add(1)),
        Err(_) => answers,
    }
}

fn flip(bytes: &mut [u8], place: usize, change: u8) {
    if let Some(byte) = bytes.get_mut(place) {
        *byte ^= change;
    }
}

// No proper prefix of a part is one, and nothing may follow it.
fn expect_whole(rt: &impl Abort, assembly: &mut Assembly, bytes: &mut Vec<u8>) -> R<()> {
    for length in 0..bytes.len() {
        let beginning = bytes.get(..length).unwrap_or_default();
        assert!(rt;
            assembly.part(beginning) == Err(Fault::Malformed),
            "{length} bytes"
        );
    }
    bytes.push(0x00)?;
    assert!(rt; assembly.part(bytes) == Err(Fault::Malformed));
    bytes.pop();
    Ok(())
}

// The byte at a place becomes each of the 255 others in turn.
fn changed_at(assembly: &mut Assembly, bytes: &mut [u8], place: usize, before: Answers) -> Answers {
    let mut answers = before;
    for change in 1..=255 {
        flip(bytes, place, change);
        answers = counted(answers, assembly.part(bytes));
        flip(bytes, place, change);
    }
    answers
}

// What the changes of a part give was counted by hand, from the table of the image in docs/FORMATS.md and what this board has.
fn expect_almost(
    rt: &(impl Abort + AllocGlobal),
    bytes: &mut Vec<u8>,
    length: usize,
    wanted: Answers,
) -> R<()> {
    assert!(rt; bytes.len() == length);
    let mut assembly = Assembly::new(rt.alloc(), 2, 1)?;
    expect_whole(rt, &mut assembly, bytes)?;
    let mut answers = (0, 0, 0);
    for place in 0..bytes.len() {
        answers = changed_at(&mut assembly, bytes, place, answers);
    }
    assert!(rt; answers == wanted);
    Ok(())
}

#[test]
fn almost_a_first_part(rt: HostRuntime) -> Result<(), Fail> {
    let mut first = first_part(rt.alloc())?;
    expect_almost(&rt, &mut first, 564, (85_644, 1_019, 57_157))?;
    Ok(())
}

// Two parts fewer than in version 02: a port has no number of bytes that could be 2 or 3, all that port 0 sent.
#[test]
fn almost_a_first_part_in_version_01(rt: HostRuntime) -> Result<(), Fail> {
    let first = first_part(rt.alloc())?;
    let mut old = in_version_01(rt.alloc(), &first)?;
    expect_almost(&rt, &mut old, 534, (85_642, 1_019, 49_509))?;
    Ok(())
}

#[test]
fn almost_a_page(rt: HostRuntime) -> Result<(), Fail> {
    let mut page = later_part(rt.alloc(), 1)?;
    expect_almost(&rt, &mut page, 263, (65_535, 1_019, 511))?;
    Ok(())
}

#[test]
fn almost_a_table(rt: HostRuntime) -> Result<(), Fail> {
    let mut table = later_part(rt.alloc(), 258)?;
    expect_almost(&rt, &mut table, 263, (59_214, 1_019, 6_832))?;
    Ok(())
}

//! The calls of a controller, with what they give.

use super::OLD_BYTES;
use disk_dcdd::*;
use i8080_words::{GREATEST_NUMBER, R};
use std::process::Abort;

/// A call of a controller, with what it gives.
pub(super) enum Call {
    Select(u8),
    Command(u8),
    Status(u8),
    Position(u8),
    Read(u8),
    /// The track of drive 0.
    Track(u8),
    Selected(Option<u8>),
    Line(bool),
    /// The disk's side of it.
    Disk(DiskCall),
}

/// A call that takes or brings a sector.
pub(super) enum DiskCall {
    /// A sector comes under the head.
    Sector(u8, R<()>),
    /// All bytes of a sector are read.
    ReadAll,
    /// A sector is written, as write 1 of sector 5 of track 0 of drive 0, and is busy.
    Write,
    Written(u64, R<()>),
    /// No sector is under the head.
    NothingUnder,
}

// The bytes FF, FE and so on down to 78, and 77.
fn counting_down() -> [u8; SECTOR_BYTES] {
    let mut bytes = [0x77; SECTOR_BYTES];
    let mut next = 0xffu8;
    for byte in bytes.iter_mut() {
        *byte = next;
        next = next.wrapping_sub(1);
    }
    bytes
}

// Writes the sector under the head. The last byte issues write 1, and no other issues anything.
fn write(rt: &impl Abort, disk: &mut Controller) {
    let bytes = counting_down();
    let mut issued = None;
    for byte in &bytes {
        assert!(rt; issued.is_none() && disk.issued() < GREATEST_NUMBER);
        issued = disk.data_out(*byte);
    }
    let wanted = SectorWrite {
        number: 1,
        drive: 0,
        track: 0,
        sector: 5,
        bytes,
    };
    assert!(rt; issued == Some(wanted));
    assert!(rt; disk.is_sector_due(5) && disk.is_sector_busy(5) && disk.is_outstanding(1));
}

fn use_disk(rt: &impl Abort, disk: &mut Controller, call: &DiskCall) {
    match call {
        DiskCall::Sector(sector, answer) => {
            assert!(rt; disk.sector(*sector, OLD_BYTES) == *answer);
        }
        DiskCall::ReadAll => {
            for _ in 0..SECTOR_BYTES {
                assert!(rt; disk.data_in() == 0xe5);
            }
        }
        DiskCall::Write => write(rt, disk),
        DiskCall::Written(number, answer) => assert!(rt; disk.written(*number) == *answer),
        DiskCall::NothingUnder => assert!(rt; disk.current().is_none()),
    }
}

/// Makes a call.
pub(super) fn make(rt: &impl Abort, disk: &mut Controller, call: &Call) {
    match call {
        Call::Select(byte) => disk.select(*byte),
        Call::Command(byte) => disk.command(*byte),
        Call::Status(byte) => assert!(rt; disk.status() == *byte),
        Call::Position(byte) => assert!(rt; disk.position() == *byte),
        Call::Read(byte) => assert!(rt; disk.data_in() == *byte),
        Call::Track(track) => assert!(rt; disk.track(0) == *track),
        Call::Selected(drive) => {
            let is_first = *drive == Some(0);
            assert!(rt; disk.selected() == *drive && disk.is_selected(0) == is_first);
        }
        Call::Line(active) => assert!(rt; disk.line() == *active),
        Call::Disk(call) => use_disk(rt, disk, call),
    }
}

//! The tables of the MITS 88-DCDD manual, row by row: the bits of the three ports, the ends of the disk, and what happens
//! to a sector that comes under the head, is read and is written.

use super::calls::{Call, DiskCall, make};
use disk_dcdd::Controller;
use i8080_words::Fault;

// Drive 0 is selected, and its head is loaded at track 1.
const AT_TRACK_ONE: &[Call] = &[Call::Select(0x00), Call::Command(0x01), Call::Command(0x04)];

// The same, over the last sector.
const OVER_THE_LAST: &[Call] = &[
    Call::Select(0x00),
    Call::Command(0x01),
    Call::Command(0x04),
    Call::Disk(DiskCall::Sector(31, Ok(()))),
];

// Drive 0 is selected, and its loaded head is over sector 5 of track 0.
const OVER_FIVE: &[Call] = &[
    Call::Status(0xff),
    Call::Select(0x00),
    Call::Status(0xa5),
    Call::Command(0x04),
    Call::Status(0xa1),
    Call::Position(0xff),
    Call::Disk(DiskCall::Sector(5, Ok(()))),
];

// Whether four drives are attached, and not one alone; calls before, and those that the row is about.
#[rattlefmt::skip]
static ROWS: [(bool, &[Call], &[Call]); 39] = [
    // A sector is written.
    (false, OVER_FIVE, &[Call::Status(0x21), Call::Position(0xca), Call::Command(0x80), Call::Status(0xa0),
        Call::Disk(DiskCall::Write), Call::Status(0xa1)]),
    // A sector is busy until its write is done.
    (false, OVER_FIVE, &[Call::Command(0x80), Call::Disk(DiskCall::Write),
        Call::Disk(DiskCall::Sector(5, Err(Fault::SectorBusy))), Call::Disk(DiskCall::Written(1, Ok(()))),
        Call::Disk(DiskCall::Written(1, Err(Fault::NotDue))), Call::Selected(Some(0)), Call::Track(0), Call::Select(0x01),
        Call::Status(0xff)]),
    // A position is shown once.
    (false, OVER_FIVE, &[Call::Command(0x10), Call::Line(true), Call::Position(0xca), Call::Position(0xff),
        Call::Line(false), Call::Disk(DiskCall::NothingUnder)]),
    // A sector is read once.
    (false, OVER_FIVE, &[Call::Disk(DiskCall::ReadAll), Call::Read(0xff)]),
    // The interrupt enable outlives a selection.
    (false, AT_TRACK_ONE, &[Call::Command(0x10), Call::Command(0x40), Call::Status(0xc1), Call::Select(0x80),
        Call::Status(0xff), Call::Selected(None), Call::Command(0x21), Call::Select(0x00), Call::Status(0xc1), Call::Track(1),
        Call::Command(0x20), Call::Status(0xe1)]),
    // The bits of a command, one by one and some together: the status and the track after it. In the status E1 bits 1 and 2 are
    // 0: the head may move, and it is loaded. The rows are nothing, step in, step out, step in and out, head load, head unload,
    // load and unload, interrupt enable, interrupt disable, enable and disable, head current, and write enable with no sector.
    (false, AT_TRACK_ONE, &[Call::Command(0x00), Call::Status(0xe1), Call::Track(1)]),
    (false, AT_TRACK_ONE, &[Call::Command(0x01), Call::Status(0xe1), Call::Track(2)]),
    (false, AT_TRACK_ONE, &[Call::Command(0x02), Call::Status(0xa1), Call::Track(0)]),
    (false, AT_TRACK_ONE, &[Call::Command(0x03), Call::Status(0xe1), Call::Track(1)]),
    (false, AT_TRACK_ONE, &[Call::Command(0x04), Call::Status(0xe1), Call::Track(1)]),
    (false, AT_TRACK_ONE, &[Call::Command(0x08), Call::Status(0xe5), Call::Track(1)]),
    (false, AT_TRACK_ONE, &[Call::Command(0x0c), Call::Status(0xe5), Call::Track(1)]),
    (false, AT_TRACK_ONE, &[Call::Command(0x10), Call::Status(0xc1), Call::Track(1)]),
    (false, AT_TRACK_ONE, &[Call::Command(0x20), Call::Status(0xe1), Call::Track(1)]),
    (false, AT_TRACK_ONE, &[Call::Command(0x30), Call::Status(0xe1), Call::Track(1)]),
    (false, AT_TRACK_ONE, &[Call::Command(0x40), Call::Status(0xe1), Call::Track(1)]),
    (false, AT_TRACK_ONE, &[Call::Command(0x80), Call::Status(0xe1), Call::Track(1)]),
    // The same over a sector: bit 7 is 0 if bytes wait, bit 0 if bytes may be entered. The rows are step in, step out, head load,
    // head unload, interrupt enable, interrupt disable, head current, write enable, and write enable and step in.
    (false, OVER_THE_LAST, &[Call::Command(0x01), Call::Status(0xe1)]),
    (false, OVER_THE_LAST, &[Call::Command(0x02), Call::Status(0xa1)]),
    (false, OVER_THE_LAST, &[Call::Command(0x04), Call::Status(0x61)]),
    (false, OVER_THE_LAST, &[Call::Command(0x08), Call::Status(0xe5)]),
    (false, OVER_THE_LAST, &[Call::Command(0x10), Call::Status(0x41)]),
    (false, OVER_THE_LAST, &[Call::Command(0x20), Call::Status(0x61)]),
    (false, OVER_THE_LAST, &[Call::Command(0x40), Call::Status(0x61)]),
    (false, OVER_THE_LAST, &[Call::Command(0x80), Call::Status(0xe0)]),
    (false, OVER_THE_LAST, &[Call::Command(0x81), Call::Status(0xe1)]),
    // The low bits and bit 7 select.
    (true, AT_TRACK_ONE, &[Call::Select(0x00), Call::Selected(Some(0))]),
    (true, AT_TRACK_ONE, &[Call::Select(0x03), Call::Selected(Some(3))]),
    (true, AT_TRACK_ONE, &[Call::Select(0x71), Call::Selected(Some(1))]),
    (true, AT_TRACK_ONE, &[Call::Select(0x04), Call::Selected(None)]),
    (true, AT_TRACK_ONE, &[Call::Select(0x0f), Call::Selected(None)]),
    (true, AT_TRACK_ONE, &[Call::Select(0x80), Call::Selected(None)]),
    (true, AT_TRACK_ONE, &[Call::Select(0x83), Call::Selected(None)]),
    // A position has the sector in bits 5 to 1.
    (false, AT_TRACK_ONE, &[Call::Position(0xff), Call::Read(0xff), Call::Disk(DiskCall::Sector(0, Ok(()))),
        Call::Position(0xc0)]),
    (false, AT_TRACK_ONE, &[Call::Position(0xff), Call::Read(0xff), Call::Disk(DiskCall::Sector(1, Ok(()))),
        Call::Position(0xc2)]),
    (false, AT_TRACK_ONE, &[Call::Position(0xff), Call::Read(0xff), Call::Disk(DiskCall::Sector(5, Ok(()))),
        Call::Position(0xca)]),
    (false, AT_TRACK_ONE, &[Call::Position(0xff), Call::Read(0xff), Call::Disk(DiskCall::Sector(16, Ok(()))),
        Call::Position(0xe0)]),
    (false, AT_TRACK_ONE, &[Call::Position(0xff), Call::Read(0xff), Call::Disk(DiskCall::Sector(31, Ok(()))),
        Call::Position(0xfe)]),
    (false, AT_TRACK_ONE, &[Call::Disk(DiskCall::Sector(32, Err(Fault::NotDue)))]),
];

#[test]
fn each_call_does_as_the_manual_says(rt: HostRuntime) {
    for (four, before, calls) in &ROWS {
        let mut disk = if *four {
            Controller::new(4)
        } else {
            Controller::new(1)
        };
        for call in *before {
            make(&rt, &mut disk, call);
        }
        for call in *calls {
            make(&rt, &mut disk, call);
        }
    }
}

// From track 1 it steps in 76 times, and then out 77 times.
#[test]
fn the_head_stays_between_track_0_and_track_76(rt: HostRuntime) {
    let mut disk = Controller::new(1);
    for call in AT_TRACK_ONE {
        make(&rt, &mut disk, call);
    }
    for step in 0..153u8 {
        let (command, track) = if step < 76 {
            (0x01, (step + 2).min(76))
        } else {
            (0x02, 151u8.saturating_sub(step))
        };
        disk.command(command);
        let status = if track == 0 { 0xa1 } else { 0xe1 };
        assert!(rt; disk.track(0) == track && disk.status() == status);
    }
}

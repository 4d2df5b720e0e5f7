//! Pairs of Altairs on threads through gates, and over a disk that fails. What they are told by options of the command `live`, as
//! losses, contests and keys, is in tests/transcripts/live.txt.

use super::gates::{ClosedGate, Together, Turnstile};
use super::pairs::{PairOutcome, alone, run_case};
use i8080_words::{Fault, R};
use pair_threads::Who;
use std::process::Abort;
use std::time::Instant;

// MVI A,03; OUT 10; MVI A,15; OUT 10: port 0 is reset, and set; then MVI A,48; OUT 11; HLT.
static FIRST_BYTE: [u8; 13] = [
    0x3e, 0x03, 0xd3, 0x10, 0x3e, 0x15, 0xd3, 0x10, 0x3e, 0x48, 0xd3, 0x11, 0x76,
];

// B is 137; drive 0 is selected and its head loaded (OUT 08, OUT 09); at 0009 it waits for a sector, then begins to
// write it (80 to OUT 09); at 0013 it waits until the sector takes a byte, and gives E5 to OUT 0A, B times; HLT.
static DISK_WRITE: [u8; 34] = [
    0x06, 0x89, 0xaf, 0xd3, 0x08, 0x3e, 0x04, 0xd3, 0x09, 0xdb, 0x09, 0x0f, 0xda, 0x09, 0x00, 0x3e,
    0x80, 0xd3, 0x09, 0xdb, 0x08, 0x0f, 0xda, 0x13, 0x00, 0x3e, 0xe5, 0xd3, 0x0a, 0x05, 0xc2, 0x13,
    0x00, 0x76,
];

// It halts.
static HALT: [u8; 1] = [0x76];

// The sector that is read, the mark of the write, its completion, and the sector that comes under the head next.
fn expect_sector(rt: &impl Abort, end: &PairOutcome) {
    assert!(rt; end.winner.is_none() && end.entries == 4);
    assert!(rt; end.sector.number == 1 && end.sector.bytes == [0xe5; 137]);
}

#[test]
fn each_turn_leaves_the_gate(rt: HostRuntime) -> R<()> {
    let turnstile = Turnstile::new();
    let end = run_case(&rt, rt.alloc(), &alone(&FIRST_BYTE), &turnstile)?;
    assert!(rt; end.winner.is_none() && end.entries == 2);
    assert!(rt; turnstile.entered() > 0);
    assert!(rt; turnstile.left() == turnstile.entered());
    Ok(())
}

// A backup that finds nothing waits after each third turn, and sleeps once it has found nothing for 600 microseconds.
// Without sleeps a machine with processors to spare takes some milliseconds for this many turns.
#[test]
fn a_pair_that_waits_sleeps(rt: HostRuntime) -> R<()> {
    let mut waits = alone(&HALT);
    waits.backup_contests = Some(15_000);
    let Ok(start) = Instant::now(&rt) else {
        return Err(Fault::Stalled);
    };
    let end = run_case(&rt, rt.alloc(), &waits, &Together::new())?;
    assert!(rt; end.winner == Some(Who::Backup));
    let Ok(passed) = start.elapsed(&rt) else {
        return Err(Fault::Stalled);
    };
    assert!(rt; passed.as_millis() >= 175);
    Ok(())
}

// On threads that wait for each other. The disk fails at none of its accesses, and then at each of the first ones in turn, and is asked
// again.
#[test]
fn a_disk_that_fails_is_asked_again(rt: HostRuntime) -> R<()> {
    for fails in 0..5 {
        let mut failing = alone(&DISK_WRITE);
        failing.fails = fails;
        let end = run_case(&rt, rt.alloc(), &failing, &Together::new())?;
        expect_sector(&rt, &end);
    }
    Ok(())
}

#[test]
fn a_closed_gate_stalls(rt: HostRuntime) {
    let end = run_case(&rt, rt.alloc(), &alone(&FIRST_BYTE), &ClosedGate);
    assert!(rt; matches!(end, Err(Fault::Stalled)));
}

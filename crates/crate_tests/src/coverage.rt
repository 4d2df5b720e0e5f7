//! Operations wait for their acknowledgement, and keys are told when they are acknowledged.
use event_callbacks::{OpId, Operation};
use i8080_words::{Fault, R};
use log_buffer::LogBuffer;
use log_entry::Entry;
use output_rule::Coverage;
use std::process::Abort;

// The byte of this number at port 0.
fn byte(number: u64) -> Operation {
    Operation::Byte {
        port: 0,
        number,
        byte: 0x48,
    }
}

// A key of a port.
fn key(port: u8) -> Entry {
    Entry::Rx {
        count: 7,
        port,
        byte: 0x41,
    }
}

// Two bytes whose marks are at the indexes 1 and 3 of a log, each after a key.
fn two_marks(rt: &impl Abort, log: &mut LogBuffer) {
    assert!(rt; log.push(key(0)) == Ok(0));
    assert!(rt; log.push(Entry::Mark { count: 8 }) == Ok(1));
    assert!(rt; log.push(key(1)) == Ok(2));
    assert!(rt; log.push(Entry::Mark { count: 9 }) == Ok(3));
}

// The answers to the release of each of these bytes.
fn releases(rt: &impl Abort, coverage: &Coverage, answers: &[(u64, R<()>)]) {
    for (number, answer) in answers {
        assert!(rt; coverage.release(&byte(*number)) == *answer);
    }
}

// How many keys of each port were told.
fn told(rt: &impl Abort, coverage: &Coverage, keys: [u64; 2]) {
    let [first, second] = keys;
    assert!(rt; coverage.told(0) == first);
    assert!(rt; coverage.told(1) == second);
}

// Whether what waits for each of these marks is covered.
fn covers(rt: &impl Abort, coverage: &Coverage, marks: &[(Option<u64>, bool)]) {
    for (mark, is_covered) in marks {
        assert!(rt; coverage.covered(*mark) == *is_covered);
    }
}

// This many entries are acknowledged, and this many reported as replayed.
fn acknowledge(coverage: &mut Coverage, log: &LogBuffer, held: u64, replayed: u64) {
    if log.first() == 0 && held <= log.next() {
        coverage.acknowledge(log, held, replayed);
    }
}

const WAITS: R<()> = Err(Fault::NotCovered);

#[test]
fn operations_wait_for_their_acknowledgement(rt: HostRuntime) -> R<()> {
    let mut log = LogBuffer::new(rt.alloc(), 0)?;
    two_marks(&rt, &mut log);
    let mut coverage = Coverage::new([3, 5]);
    coverage.note(OpId::Byte(0, 1), 1);
    coverage.note(OpId::Byte(0, 2), 3);
    releases(&rt, &coverage, &[(1, WAITS), (3, Ok(()))]);
    told(&rt, &coverage, [3, 5]);
    acknowledge(&mut coverage, &log, 2, 0);
    releases(&rt, &coverage, &[(1, Ok(())), (2, WAITS)]);
    told(&rt, &coverage, [4, 5]);
    covers(
        &rt,
        &coverage,
        &[(Some(1), true), (Some(2), false), (None, true)],
    );
    coverage.stands();
    Ok(())
}

#[test]
fn forgotten_and_lone_operations_do_not_wait(rt: HostRuntime) {
    let mut coverage = Coverage::new([0, 0]);
    coverage.note(OpId::Byte(0, 1), 1);
    releases(&rt, &coverage, &[(1, WAITS)]);
    coverage.forget(OpId::Byte(0, 1));
    releases(&rt, &coverage, &[(1, Ok(()))]);
    coverage.note(OpId::Byte(0, 1), 4);
    releases(&rt, &coverage, &[(1, WAITS)]);
    coverage.all([2, 1]);
    releases(&rt, &coverage, &[(1, Ok(()))]);
    told(&rt, &coverage, [2, 1]);
}

#[test]
fn writes_wait_for_the_reads_before_them(rt: HostRuntime) -> R<()> {
    let mut log = LogBuffer::new(rt.alloc(), 0)?;
    two_marks(&rt, &mut log);
    let mut coverage = Coverage::new([0, 0]);
    coverage.read(0);
    coverage.note(OpId::Byte(0, 1), 1);
    coverage.note(OpId::Write(1), 3);
    acknowledge(&mut coverage, &log, 4, 0);
    releases(&rt, &coverage, &[(1, Ok(()))]);
    covers(&rt, &coverage, &[(Some(1), true), (Some(3), false)]);
    acknowledge(&mut coverage, &log, 4, 1);
    covers(&rt, &coverage, &[(Some(3), true)]);
    Ok(())
}

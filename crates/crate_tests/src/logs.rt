//! The log at its limits, and each call on its happy path.
use i8080_words::{Fault, GREATEST_NUMBER, R};
use log_buffer::{CAPACITY, LogBuffer};
use log_entry::Entry;
use std::process::Abort;

// The entry that these tests push at an index.
fn mark(index: u64) -> Entry {
    Entry::Mark { count: index }
}

// Pushes the entries from one index up to another.
fn push(rt: &impl Abort, log: &mut LogBuffer, from: u64, to: u64) {
    for index in from..to {
        assert!(rt; log.push(mark(index)) == Ok(index));
    }
}

// It has these entries, and none at these indexes.
fn expect(rt: &impl Abort, log: &LogBuffer, kept: [u64; 2], gone: [u64; 2]) {
    for (index, other) in kept.iter().zip(&gone) {
        assert!(rt; log.get(*index) == Some(&mark(*index)) && log.get(*other) == None);
    }
}

#[test]
fn entries_are_kept_until_they_are_dropped(rt: HostRuntime) -> R<()> {
    let mut log = LogBuffer::new(rt.alloc(), 5)?;
    push(&rt, &mut log, 5, 261);
    assert!(rt; log.len() == CAPACITY && log.push(mark(261)) == Err(Fault::LogFull));
    expect(&rt, &log, [5, 260], [4, 261]);
    if log.next() >= 205 {
        log.drop_to(205);
    }
    assert!(rt; (log.first(), log.next(), log.len()) == (205, 261, 56));
    push(&rt, &mut log, 261, 300);
    expect(&rt, &log, [205, 299], [204, 300]);
    Ok(())
}

#[test]
fn one_entry_comes_before_the_greatest_index(rt: HostRuntime) -> R<()> {
    let mut log = LogBuffer::new(rt.alloc(), GREATEST_NUMBER - 1)?;
    assert!(rt; log.room() == Ok(()));
    assert!(rt; log.push(mark(0)) == Ok(0x3fff_ffff_ffff_fffe));
    assert!(rt; log.push(mark(1)) == Err(Fault::Spent));
    log.stands();
    Ok(())
}

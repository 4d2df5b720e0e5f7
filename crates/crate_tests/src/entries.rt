//! What entries look like in bytes, and which inputs they log. That other bytes are no entries, `channels` tries in their packets.

use guest_lockstep::{Input, Reads};
use i8080_words::R;
use log_entry::{Entry, size};
use std::alloc::Global;
use std::process::Abort;
use std::test::Fail;

const MARK: Entry = Entry::Mark { count: 6 };

const RX: Entry = Entry::Rx {
    count: 0x0102,
    port: 1,
    byte: 0x48,
};

const SENT: Entry = Entry::Sent { count: 9, port: 0 };

const SECTOR: Entry = Entry::Sector {
    count: 10,
    drive: 3,
    sector: 31,
    number: 7,
    bytes: [0xe5; 137],
};

const READ: Entry = Entry::Read {
    count: 10,
    drive: 3,
    sector: 31,
    number: 7,
};

const WRITTEN: Entry = Entry::Written {
    count: 0x3fff_ffff_ffff_ffff,
    number: 1,
};

// Each entry, and its bytes but for those of a sector's content.
#[rattlefmt::skip]
static FRONTS: [(Entry, &[u8]); 6] = [
    (MARK, &[0, 0, 0, 0, 0, 0, 0, 0, 6]),
    (RX, &[1, 0, 0, 0, 0, 0, 0, 1, 2, 1, 0x48]),
    (SENT, &[2, 0, 0, 0, 0, 0, 0, 0, 9, 0]),
    (SECTOR, &[3, 0, 0, 0, 0, 0, 0, 0, 10, 3, 31, 0, 0, 0, 0, 0, 0, 0, 7, 0xe5]),
    (WRITTEN, &[4, 0x3f, 255, 255, 255, 255, 255, 255, 255, 0, 0, 0, 0, 0, 0, 0, 1]),
    (READ, &[5, 0, 0, 0, 0, 0, 0, 0, 10, 3, 31, 0, 0, 0, 0, 0, 0, 0, 7]),
];

fn spelled(alloc: Global, entry: &Entry) -> R<Vec<u8>> {
    let mut bytes = Vec::new(alloc);
    entry.write(&mut bytes)?;
    Ok(bytes)
}

fn expect_front(rt: &impl Abort, alloc: Global, entry: &Entry, front: &[u8]) -> R<()> {
    let bytes = spelled(alloc, entry)?;
    assert!(rt; bytes.starts_with(front));
    assert!(rt; front.first().and_then(|tag| size(*tag)) == Some(bytes.len()));
    assert!(rt; bytes.len() == entry.spelled_length());
    assert!(rt; Entry::read(&bytes) == Ok(*entry));
    Ok(())
}

#[test]
fn entries_stand_in_bytes(rt: HostRuntime) -> Result<(), Fail> {
    for (entry, front) in &FRONTS {
        expect_front(&rt, rt.alloc(), entry, front)?;
    }
    assert!(rt; size(6) == None);
    Ok(())
}

// The entry of an entry's input, if it has one; `reads` says whether the log carries sector bytes.
fn again(reads: Reads, entry: &Entry) -> Option<Entry> {
    let input = entry.input()?;
    Some(Entry::of_input(reads, entry.count(), input))
}

// A sector of a shared disk is logged without its bytes.
#[test]
fn inputs_have_their_entries(rt: HostRuntime) {
    for (entry, shared) in [(RX, RX), (SENT, SENT), (SECTOR, READ), (WRITTEN, WRITTEN)] {
        assert!(rt; again(Reads::Logged, &entry) == Some(entry));
        assert!(rt; again(Reads::Shared, &entry) == Some(shared));
        assert!(rt; entry.timed() == shared.timed());
    }
    for entry in [MARK, READ] {
        assert!(rt; entry.input() == None);
    }
    assert!(rt; RX.input() == Some(Input::Rx(1, 0x48)) && MARK.timed() == None);
}

//! What follows an entry's tag and count, kind by kind.

ghost use Rattle.std.specs.Prelude.{◌≡◌};
ghost use Rattle.log_entry.specs.Spelling.{entry_at, fields_at, mark_at, read_at, rx_at, sector_at, sent_at, written_at};

use crate::entry::Entry;
use crate::numbers::number_at;
use disk_dcdd::{DRIVES, SECTOR_BYTES, SECTORS};

const LAST_PORT: u8 = 1;

const LAST_DRIVE: u8 = DRIVES as u8 - 1;

const LAST_SECTOR: u8 = SECTORS - 1;

// The entry that the bytes spell, using all of them.
#[tactic(auto, unfolding(crate::specs::Spelling::entry_at))]
pub(crate) fn entry_of(bytes: &[u8]) -> Option<Entry>
    ensures { result ≡ entry_at bytes.now }
{
    let [tag, rest @ ..] = bytes else {
        return None;
    };
    let (count, rest) = number_at(rest)?;
    fields_of(*tag, count, rest)
}

#[tactic(auto, unfolding(crate::specs::Spelling::fields_at))]
fn fields_of(tag: u8, count: u64, bytes: &[u8]) -> Option<Entry>
    ensures { result ≡ fields_at tag count bytes.now }
{
    match tag {
        0 => mark_of(count, bytes),
        1 => rx_of(count, bytes),
        2 => sent_of(count, bytes),
        3 => sector_of(count, bytes),
        4 => written_of(count, bytes),
        5 => read_of(count, bytes),
        _ => None,
    }
}

#[tactic(auto, unfolding(crate::specs::Spelling::mark_at))]
fn mark_of(count: u64, bytes: &[u8]) -> Option<Entry>
    ensures { result ≡ mark_at count bytes.now }
{
    bytes.is_empty().then_some(Entry::Mark { count })
}

#[tactic(auto, unfolding(crate::specs::Spelling::rx_at))]
fn rx_of(count: u64, bytes: &[u8]) -> Option<Entry>
    ensures { result ≡ rx_at count bytes.now }
{
    let [port, byte] = bytes else {
        return None;
    };
    if *port > LAST_PORT {
        return None;
    }
    Some(Entry::Rx {
        count,
        port: *port,
        byte: *byte,
    })
}

#[tactic(auto, unfolding(crate::specs::Spelling::sent_at))]
fn sent_of(count: u64, bytes: &[u8]) -> Option<Entry>
    ensures { result ≡ sent_at count bytes.now }
{
    let [port] = bytes else {
        return None;
    };
    if *port > LAST_PORT {
        return None;
    }
    Some(Entry::Sent { count, port: *port })
}

#[tactic(auto, unfolding(crate::specs::Spelling::sector_at))]
fn sector_of(count: u64, bytes: &[u8]) -> Option<Entry>
    ensures { result ≡ sector_at count bytes.now }
{
    let [drive, sector, rest @ ..] = bytes else {
        return None;
    };
    if *drive > LAST_DRIVE {
        return None;
    }
    if *sector > LAST_SECTOR {
        return None;
    }
    let (number, rest) = number_at(rest)?;
    let bytes = <[u8; SECTOR_BYTES]>::try_from(rest).ok()?;
    Some(Entry::Sector {
        count,
        drive: *drive,
        sector: *sector,
        number,
        bytes,
    })
}

#[tactic(auto, unfolding(crate::specs::Spelling::written_at))]
fn written_of(count: u64, bytes: &[u8]) -> Option<Entry>
    ensures { result ≡ written_at count bytes.now }
{
    let (number, rest) = number_at(bytes)?;
    if number == 0 {
        return None;
    }
    if !rest.is_empty() {
        return None;
    }
    Some(Entry::Written { count, number })
}

#[tactic(auto, unfolding(crate::specs::Spelling::read_at))]
fn read_of(count: u64, bytes: &[u8]) -> Option<Entry>
    ensures { result ≡ read_at count bytes.now }
{
    let [drive, sector, rest @ ..] = bytes else {
        return None;
    };
    if *drive > LAST_DRIVE {
        return None;
    }
    if *sector > LAST_SECTOR {
        return None;
    }
    let (number, rest) = number_at(rest)?;
    if !rest.is_empty() {
        return None;
    }
    Some(Entry::Read {
        count,
        drive: *drive,
        sector: *sector,
        number,
    })
}

//! Whether a journal is as sessions and their crashes leave it.
ghost use Rattle.std.specs.Prelude.{◌≡◌};
ghost use Rattle.disk_file.specs.Sectors.{begins_closed, behind_blocks, is_spoiled};

use crate::recovery::first_entry;

/// Whether a journal was cut or spoiled: behind its open blocks there is no closed gate, and it is not empty.
pub fn is_spoiled(sectors: usize, journal: &[u8]) -> bool
    ensures { result ≡ is_spoiled sectors journal.now }
{
    match journal {
        [] => false,
        _ => !begins_closed(behind_blocks(sectors, journal)),
    }
}

// What is behind the open blocks of a journal.
fn behind_blocks(sectors: usize, journal: &[u8]) -> &[u8]
    ensures { result.now ≡ behind_blocks sectors journal.now }
{
    let mut rest = journal;
    while let Some((_, _, after)) = first_entry(sectors, rest) {
        rest = after;
    }
    rest
}

// Whether a gate comes first, and is closed.
fn begins_closed(journal: &[u8]) -> bool
    ensures { result ≡ begins_closed journal.now }
{
    match journal {
        [gate, ..] => *gate == 0,
        [] => false,
    }
}

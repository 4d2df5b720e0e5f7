//! What terminals and sectors may have, by the run of one never-failing machine.
ghost use Rattle.std.specs.Prelude.{◌↔◌, Any, IsTrue};
ghost use Rattle.pair_protocol.specs.Faithful.{IsAllBut};
ghost use Rattle.altair_pair.specs.Comparing.{Brings, IsUndone, MayHave};
ghost use Rattle.plain_single.specs.Image.{sector_at};
ghost use Rattle.plain_single.specs.Reaching.{NeverFall};

use disk_dcdd::{SECTOR_BYTES, SectorAddress, SectorWrite};
use guest_lockstep::{Bare, Timed};
use plain_single::Single;

/// How many bytes of a port its terminal may not have accepted yet: as many as the port's transmitter holds.
pub const WINDOW: usize = serial_2sio::WINDOW as usize;

/// Whether the counts of the inputs never fall.
pub fn never_fall(inputs: &[Timed]) -> bool
    ensures { IsTrue result ↔ NeverFall 0 inputs.now }
{
    let mut last = 0u64;
    for input in inputs {
        if input.count < last {
            return false;
        }
        last = input.count;
    }
    true
}

/// Whether a terminal has accepted the output of a port, or all of it but at most its last `window` bytes.
pub fn is_all_but(window: usize, accepted: &[u8], output: &[u8]) -> bool
    ensures { IsTrue result ↔ IsAllBut window accepted.now output.now }
{
    match output.strip_prefix(accepted) {
        Some(missing) => missing.len() <= window,
        None => false,
    }
}

/// Whether a sector may have these bytes after the machine has run from these inputs: those of the machine's own disk, or
/// those of a write that no input says is done.
pub fn may_have(
    single: &Single,
    inputs: &[Timed],
    address: SectorAddress,
    bytes: &[u8; SECTOR_BYTES],
) -> bool
    ensures { IsTrue result ↔ MayHave
        (sector_at single.now.disk address) single.now.behind.writes inputs.now address bytes.now }
{
    *bytes == single.image(address) || is_brought(single.writes(), inputs, address, bytes)
}

// Whether one of the writes brings these bytes to a sector, and is outstanding.
fn is_brought(
    writes: &[SectorWrite],
    inputs: &[Timed],
    address: SectorAddress,
    bytes: &[u8; SECTOR_BYTES],
) -> bool
    ensures { IsTrue result ↔ Any (Brings inputs.now address bytes.now) writes.now }
{
    for write in writes {
        if brings(write, inputs, address, bytes) {
            return true;
        }
    }
    false
}

// Whether a write brings these bytes to a sector, and is outstanding.
fn brings(
    write: &SectorWrite,
    inputs: &[Timed],
    address: SectorAddress,
    bytes: &[u8; SECTOR_BYTES],
) -> bool
    ensures { IsTrue result ↔ Brings inputs.now address bytes.now write.now }
{
    write.address() == address && write.bytes == *bytes && is_undone(inputs, write.number)
}

// Whether no input says that the write of this number is done.
fn is_undone(inputs: &[Timed], number: u64) -> bool
    ensures { IsTrue result ↔ IsUndone inputs.now number }
{
    for timed in inputs {
        match timed.input {
            Bare::Written(done) if done == number => return false,
            _ => {}
        }
    }
    true
}

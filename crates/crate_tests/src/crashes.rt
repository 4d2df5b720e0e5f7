//! What a crash leaves: sessions on a device that crashes at each byte, and a journal by hand.
ghost use Rattle.std.specs.Prelude.{◌≡◌, ◌<◌, ◌≤◌, length};
ghost use Rattle.disk_file.specs.Device.{Only};
ghost use Rattle.disk_file.specs.Kept.{IsKept};

use disk_dcdd::SECTOR_BYTES;
use disk_file::{
    CrashableFile, CrashingMemory, FileRecords, MemoryFile, close_kept, finish, open_kept,
};
use shared_disk::Record;
use std::alloc::Global;
use std::test::Fail;

// The bytes of the two sectors of a disk before a session, and after each of its writes.
const DISKS: [[u8; 2]; 4] = [[1, 2], [5, 2], [5, 6], [7, 6]];

// How many bytes a session writes; each sync and each cut counts as one.
const SESSION: usize = 854;

// A file of two sectors of these bytes.
fn two(alloc: Global, first: u8, second: u8) -> Result<Vec<u8>, Fail> {
    let mut file = Vec::new(alloc);
    file.extend_from_slice(&[first; SECTOR_BYTES])?;
    file.extend_from_slice(&[second; SECTOR_BYTES])?;
    Ok(file)
}

// Writes a sector of one byte. 1 if that is answered.
fn write<D: CrashableFile>(kept: &mut FileRecords<D>, place: usize, byte: u8) -> usize
    requires kept { IsKept D.seen D.may_leave kept.old }
    requires two { length kept.old.records.items ≡ 2 }
    requires there { place < 2 }
    ensures kept { IsKept D.seen D.may_leave kept.new }
    ensures two { length kept.new.records.items ≡ 2 }
    ensures one { result ≤ 1 }
{
    let bytes = [byte; SECTOR_BYTES];
    match kept.put(place, Record { number: 1, bytes }) {
        Ok(()) => 1,
        Err(_) => 0,
    }
}

// Writes three times. How many writes were answered.
fn write_all<D: CrashableFile>(kept: &mut FileRecords<D>) -> usize
    requires kept { IsKept D.seen D.may_leave kept.old }
    requires two { length kept.old.records.items ≡ 2 }
    ensures kept { IsKept D.seen D.may_leave kept.new }
    ensures three { result ≤ 3 }
{
    let first = write(kept, 0, 5);
    let second = write(kept, 1, 6);
    first + second + write(kept, 0, 7)
}

// A session: how many writes were answered, and the file that is left.
fn session<D: CrashableFile>(alloc: Global, device: D) -> (usize, D)
    requires { Only (D.seen device) (D.may_leave device) }
    ensures { result.0 ≤ 3 }
{
    match open_kept(alloc, 2, device) {
        Ok(kept) => {
            let mut kept = kept;
            let answered = write_all(&mut kept);
            let (device, _) = close_kept(alloc, kept);
            (answered, device)
        }
        Err((_, device)) => (0, device),
    }
}

// The bytes of the two sectors of the disk that a file stands for.
fn disk_in(alloc: Global, file: &[u8]) -> Result<[u8; 2], Fail> {
    match open_kept(alloc, 2, MemoryFile::new(alloc, file.to_vec(alloc)?)) {
        Ok(kept) => Ok([kept.records[0].bytes[0], kept.records[1].bytes[136]]),
        Err(_) => Err(Fail::new("it is not opened")),
    }
}

// Whether a session that crashes after so many bytes leaves the disk after the writes that were answered, or after one more.
fn is_kept(alloc: Global, left: usize, fill: Option<u8>) -> Result<bool, Fail> {
    let device = CrashingMemory::new(alloc, two(alloc, 1, 2)?, left, fill);
    let (answered, device) = session(alloc, device);
    let disk = Some(disk_in(alloc, device.bytes())?);
    let is_after = DISKS.get(answered).copied() == disk;
    let is_one_more = DISKS.get(answered + 1).copied() == disk;
    Ok(is_after || is_one_more)
}

#[test]
fn each_crash_leaves_what_was_answered(rt: HostRuntime) -> Result<(), Fail> {
    for fill in [None, Some(0), Some(1), Some(255)] {
        for left in 0..SESSION {
            let is_kept = is_kept(rt.alloc(), left, fill)?;
            assert!(rt; is_kept);
        }
    }
    Ok(())
}

#[test]
fn a_session_without_a_crash_leaves_an_image(rt: HostRuntime) -> Result<(), Fail> {
    let alloc = rt.alloc();
    let device = CrashingMemory::new(alloc, two(alloc, 1, 2)?, SESSION, None);
    let (answered, device) = session(alloc, device);
    let image = two(alloc, 7, 6)?;
    assert_eq!(rt; answered, 3);
    assert_eq!(rt; device.bytes(), image.as_slice());
    Ok(())
}

// Adds a block of sector 1 with this gate to a journal.
fn add_block(file: &mut Vec<u8>, gate: u8, byte: u8) -> Result<(), Fail> {
    file.extend_from_slice(&[gate, 1, 0])?;
    file.extend_from_slice(&[byte; SECTOR_BYTES])?;
    Ok(())
}

#[test]
fn the_newest_of_two_blocks_is_taken_up_and_a_closed_one_is_not(
    rt: HostRuntime,
) -> Result<(), Fail> {
    let alloc = rt.alloc();
    let mut file = two(alloc, 1, 2)?;
    for (gate, byte) in [(1, 7), (1, 8), (0, 9)] {
        add_block(&mut file, gate, byte)?;
    }
    let mut device = MemoryFile::new(alloc, file);
    finish(alloc, &mut device, 2)?;
    let image = two(alloc, 1, 8)?;
    assert_eq!(rt; device.bytes(), image.as_slice());
    Ok(())
}

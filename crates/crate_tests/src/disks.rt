//! The shared disk over a store that fails.
use disk_dcdd::{SECTOR_BYTES, SectorAddress, SectorWrite};
use i8080_words::{Fault, R};
use shared_disk::{FailOnce, MemoryStore, SectorRead, SharedDisk};

const FIVE: SectorAddress = SectorAddress {
    drive: 0,
    track: 0,
    sector: 5,
};

const FAR: SectorAddress = SectorAddress { drive: 1, ..FIVE };

// The write of this number to 0/0/5, with this byte 137 times.
fn write(number: u64, byte: u8) -> SectorWrite {
    SectorWrite {
        number,
        drive: 0,
        track: 0,
        sector: 5,
        bytes: [byte; SECTOR_BYTES],
    }
}

// What is read at 0/0/5 after that write.
fn read(number: u64, byte: u8) -> R<Option<SectorRead>> {
    Ok(Some(SectorRead {
        number,
        drive: 0,
        track: 0,
        sector: 5,
        bytes: [byte; SECTOR_BYTES],
    }))
}

// A disk of one drive, whose access of this number fails.
fn failing(rt: &impl AllocGlobal, access: u64) -> R<SharedDisk<FailOnce<MemoryStore>>> {
    let mut store = MemoryStore::new(rt.alloc(), 1)?;
    store.set_boot(FIVE, [0xe5; SECTOR_BYTES])?;
    Ok(SharedDisk::new(FailOnce::new(store, access)))
}

// A call of a disk.
#[derive(Clone, Copy)]
enum Call {
    Get(SectorAddress),
    Put(SectorWrite),
}

// Makes a call; says what it returned, and what is read if it is a get.
fn made(disk: &mut SharedDisk<FailOnce<MemoryStore>>, call: Call) -> R<Option<SectorRead>> {
    match call {
        Call::Get(address) => disk.get(address).map(Some),
        Call::Put(write) => disk.put(&write).map(|()| None),
    }
}

// A get is one access; so is a put that comes too late, and any other put is two. A get that is refused is none.
#[test]
fn each_access_fails_in_turn_and_only_once(rt: HostRuntime) -> R<()> {
    let calls = [
        (Call::Get(FIVE), read(0, 0xe5)),
        (Call::Get(FAR), Err(Fault::Unknown)),
        (Call::Put(write(2, 0x02)), Ok(None)),
        (Call::Put(write(1, 0x01)), Ok(None)),
        (Call::Get(FIVE), read(2, 0x02)),
        (Call::Put(write(3, 0x03)), Ok(None)),
        (Call::Get(FIVE), read(3, 0x03)),
    ];
    let failing_calls = [9, 0, 2, 2, 3, 4, 5, 5, 6, 9];
    for (access, failing_call) in failing_calls.iter().enumerate() {
        let mut disk = failing(&rt, access as u64)?;
        for (place, (call, answer)) in calls.iter().enumerate() {
            if place == *failing_call {
                let failed = made(&mut disk, *call);
                assert!(rt; failed == Err(Fault::DeviceFault), "{access}");
            }
            assert!(rt; made(&mut disk, *call) == *answer, "{access}");
        }
    }
    Ok(())
}

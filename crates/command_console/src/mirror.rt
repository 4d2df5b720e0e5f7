//! The pair's disk, and a copy of it that another thread saves.
ghost use Rattle.std.specs.Prelude.{◌≡◌, ◌∷◌, [], ◌++◌, ◌<◌, None, IfErr, IfOk, IsTrue, OnErr, OnOk, false};
ghost use Rattle.command_console.specs.Mirrors.{Follows, IsMirrored, IsOfCopy, IsOfMoment, write_of};
ghost use Rattle.rtrb.specs.Ring.{SameProducer, known_free, known_items, sent};
ghost use Rattle.disk_file.specs.Drives.{IsOnDisk, all_records};
ghost use Rattle.shared_disk.specs.Arrivals.{after_put};
ghost use Rattle.shared_disk.specs.Failing.{before_failures};
ghost use Rattle.shared_disk.specs.Records as table;

use command_io::images_of;
use disk_dcdd::{SectorAddress, SectorWrite};
use disk_file::{DriveFiles, FileDevice};
use i8080_words::{Fault, R};
use rtrb::{Consumer, Producer};
use shared_disk::{MemoryStore, Record, SectorStore, SharedDisk};
use std::alloc::Global;
use std::sync::atomic::{AtomicBool, Ordering};
use std::sync::{Arc, Mutex};

/// A copy of a disk, on which all is put that comes through a ring.
#[derive(Drop)]
pub(crate) struct Mirror {
    pub(crate) disk: SharedDisk<MemoryStore>,
    pub(crate) writes: Consumer<SectorWrite>,
}

impl Mirror {
    /// The image of a drive, with all that has come by now.
    pub(crate) fn image(&mut self, alloc: Global, drive: u8) -> R<Vec<u8>>
        ensures { IfOk result (λ image. IsOfCopy drive image.items) }
    {
        self.image_now(alloc, drive)
    }

    // The same, and which writes it has.
    fn image_now(&mut self, alloc: Global, drive: u8) -> R<Vec<u8>>
        ensures { IfOk result (λ image. IsOfMoment self.old self.new.writes drive image.items) }
    {
        if !self.catch_up() {
            return Err(Fault::Stalled);
        }
        images_of(alloc, &mut self.disk, &[drive])
    }

    // Puts all on the copy that has come, and says whether nothing is left.
    #[tactic(auto, using(crate::proofs::Mirrors::nothing_yet, crate::proofs::Mirrors::and_then))]
    fn catch_up(&mut self) -> bool
        ensures follows { Follows self.old self.new }
        ensures all { IsTrue result → known_items self.new.writes ≡ [] }
    {
        for _ in 0..u64::MAX {
            if !self.take() {
                return true;
            }
        }
        false
    }

    // Puts on the copy what comes next, if something has come.
    #[tactic(auto, using(crate::proofs::Mirrors::of_nothing, crate::proofs::Mirrors::of_one))]
    fn take(&mut self) -> bool
        ensures follows { Follows self.old self.new }
        ensures none { (IsTrue result → ⊥) → known_items self.new.writes ≡ [] }
    {
        let Ok(write) = self.writes.pop() else {
            return false;
        };
        put(&mut self.disk, &write);
        true
    }
}

// Puts a write on a disk that never fails.
#[tactic(auto, using(crate::proofs::Mirrors::is_put))]
fn put(disk: &mut SharedDisk<MemoryStore>, write: &SectorWrite)
    ensures { disk.new ≡ after_put disk.old write.now }
{
    let _ = disk.put(write);
}

/// A copy of a disk that threads share.
#[derive(Drop)]
pub(crate) struct Shelf {
    mirror: Mutex<Mirror>,
    // Whether something was put on the disk that did not reach the copy.
    is_behind: AtomicBool,
}

impl Shelf {
    pub(crate) fn new(mirror: Mirror) -> Shelf {
        Shelf {
            mirror: Mutex::new(mirror),
            is_behind: AtomicBool::new(false),
        }
    }

    /// The image of a drive at a moment, with all that was put on the disk before. `Unknown` if there is no such drive, `OutOfMemory` if
    /// there is no memory for the image, and `Stalled` if the copy is behind.
    pub fn image(&self, alloc: Global, drive: u8) -> R<Vec<u8>>
        ensures { IfOk result (λ image. IsOfCopy drive image.items) }
    {
        for _ in 0..u64::MAX {
            if self.is_behind.load(Ordering::SeqCst) {
                break;
            }
            if let Some(mut mirror) = self.mirror.try_lock() {
                return mirror.image(alloc, drive);
            }
        }
        Err(Fault::Stalled)
    }

    // Makes room in the ring, unless another thread does.
    fn catch_up(&self) {
        if let Some(mut mirror) = self.mirror.try_lock() {
            let _ = mirror.catch_up();
        }
    }
}

/// The records of drives, some of them in files. Each that is written goes through a ring too.
#[derive(Drop)]
pub struct Mirrored {
    store: DriveFiles<FileDevice>,
    writes: Producer<SectorWrite>,
    shelf: Arc<Shelf>,
    // Whether there was no room for a write, however long it waited.
    is_behind: bool,
}

impl Mirrored {
    /// These records, whose copy is at the other end of the ring.
    pub(crate) fn new(
        store: DriveFiles<FileDevice>,
        writes: Producer<SectorWrite>,
        shelf: Arc<Shelf>,
    ) -> Mirrored
        ensures given { (result.store ≡ store) × (result.writes ≡ writes) }
        ensures whole { result.is_behind ≡ false }
    {
        Mirrored {
            store,
            writes,
            shelf,
            is_behind: false,
        }
    }

    // Waits until there is room for one more write. If the ring is full, the copy catches up. Says whether there is room in the end.
    fn has_room(&mut self) -> bool
        ensures room { IsTrue result → 0 < known_free self.new.writes }
        ensures full { result ≡ false → known_free self.new.writes ≡ 0 }
        ensures same { (self.new.store ≡ self.old.store) × (self.new.is_behind ≡ self.old.is_behind) }
        ensures ring { (sent self.new.writes ≡ sent self.old.writes) × SameProducer self.old.writes self.new.writes }
    {
        for _ in 0..u64::MAX {
            if self.writes.slots() > 0 {
                return true;
            }
            self.shelf.catch_up();
        }
        self.writes.slots() > 0
    }

    // From now on the copy is behind, and no image of it is given any more.
    fn lose(&mut self)
        ensures same { (self.new.store ≡ self.old.store) × (self.new.writes ≡ self.old.writes) }
        ensures behind { IsTrue self.new.is_behind }
    {
        self.is_behind = true;
        self.shelf.is_behind.store(true, Ordering::SeqCst);
    }
}

// The write that brings a record to a sector.
fn write_of(address: SectorAddress, content: Record) -> SectorWrite
    ensures { result ≡ write_of address content }
{
    let bytes = content.bytes;
    SectorWrite {
        number: content.number,
        drive: address.drive,
        track: address.track,
        sector: address.sector,
        bytes,
    }
}

impl SectorStore for Mirrored {
    ghost records = { λ m. all_records m.store };

    ghost may_fail = { λ _. None };

    fn has_whole_sectors(&self) {
        self.store.has_whole_sectors()
    }

    fn read(&mut self, address: SectorAddress) -> R<Record> {
        self.store.read(address)
    }

    fn write(&mut self, address: SectorAddress, content: Record) -> R<()>
        ensures there { OnOk result (table.IsThere (all_records self.old.store) address) }
        ensures ok { OnOk result (all_records self.new.store ≡ table.with_record (all_records self.old.store) address content) }
        ensures refused { IfErr result (λ fault. fault ≡ table.refusal_at (all_records self.old.store) address) }
        ensures unchanged { OnErr result (all_records self.new.store ≡ all_records self.old.store) }
        ensures counted { None ≡ before_failures (table.faults_in result) None }
        // A drive that is in a file has it there.
        ensures durable { OnOk result (IsOnDisk address self.new.store) }
        ensures mirrored { OnOk result (IsMirrored self.old self.new (write_of address content)) }
    {
        let has_room = self.has_room();
        self.store.write(address, content)?;
        if has_room {
            self.writes.push_reserved(write_of(address, content));
        } else {
            self.lose();
        }
        Ok(())
    }
}

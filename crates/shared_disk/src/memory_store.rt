//! Records in memory.
ghost use Rattle.std.specs.Prelude.{◌≡◌, ◌⊎◌, Some, IfErr, IfOk, IsOkUnless, length};
ghost use Rattle.disk_dcdd.specs.declared.sector.TheConstants.{SECTOR_BYTES};
ghost use Rattle.i8080_words.specs.declared.refusal.Fault.TheVariants.{OutOfMemory, Unknown};
ghost use Rattle.shared_disk.specs.Records as table;

use crate::store::{Record, SectorStore};
use disk_dcdd::{DRIVE_SECTORS, SECTOR_BYTES, SectorAddress, SectorWrite};
use i8080_words::{Fault, R};
use std::alloc::Global;
use std::marker::Model;

/// A store in memory, whose device never fails.
#[derive(Drop)]
pub struct MemoryStore {
    records: Vec<Record>,
}

impl Model for MemoryStore {
    ghost use Rattle.std.specs.Prelude.{List};
    ghost use Rattle.shared_disk.specs.Records.{HasWholeSectors};
    ghost use Rattle.shared_disk.specs.declared.store.Record.{Record};

    ghost Value = { List Record };

    ghost view = { λ s. s.records.items };

    ghost invariant = { λ s. HasWholeSectors s.records.items };
}

impl MemoryStore {
    /// A store of this many drives, in which nothing is written yet: zeros under number 0 in each sector.
    #[tactic(auto, unfolding(crate::specs::Records::unwritten), using(crate::proofs::Booting::new_is_whole))]
    pub fn new(alloc: Global, drives: u8) -> R<MemoryStore>
        ensures ok { IfOk result (λ store. store ≡ table.unwritten drives) }
        ensures only_memory { IsOkUnless result OutOfMemory }
    {
        let blank = Record {
            number: 0,
            bytes: [0; SECTOR_BYTES],
        };
        let records = vec![in alloc; blank; drives as usize * DRIVE_SECTORS]?;
        Ok(MemoryStore { records })
    }

    /// A store of this many drives that have these sectors at boot, the later one of two for one place; all others are
    /// zeros. No write has arrived at any sector: the numbers of these are ignored. `Unknown` if no drive has one.
    pub fn at_boot(alloc: Global, drives: u8, sectors: &[SectorWrite]) -> R<MemoryStore>
        ensures drives { IfOk result (λ store. table.HasDrives store drives) }
        ensures unwritten { IfOk result (λ store. table.IsUnwritten store) }
        ensures sectors { IfOk result (λ store. table.IsAtBoot store drives sectors.now) }
        ensures on_drives { IfOk result (λ store. table.AreOnDrives drives sectors.now) }
        ensures refused { IfErr result (λ fault. (fault ≡ OutOfMemory)
            ⊎ ((fault ≡ Unknown) × (table.AreOnDrives drives sectors.now → ⊥))) }
    {
        let mut store = MemoryStore::new(alloc, drives)?;
        for sector in sectors {
            let bytes = sector.bytes;
            store.set_boot(sector.address(), bytes)?;
        }
        Ok(store)
    }

    /// Puts bytes into a sector before any node writes to it: their number is 0, so that the first write replaces them.
    /// `Unknown` if no drive has the sector.
    pub fn set_boot(&mut self, address: SectorAddress, bytes: [u8; SECTOR_BYTES]) -> R<()>
        ensures answer { result ≡ table.put_answer self.old address }
        ensures after { self.new ≡ table.with_record self.old address (table.boot_record bytes) }
    {
        self.put(address, Record { number: 0, bytes })
    }

    // Puts a record into a sector.
    fn put(&mut self, address: SectorAddress, content: Record) -> R<()>
        ensures answer { result ≡ table.put_answer self.old address }
        ensures after { self.new ≡ table.with_record self.old address content }
    {
        has_all(&content.bytes);
        put_among(&mut self.records, address, content)
    }
}

// Puts a record into a sector's place among these.
#[tactic(auto, using(crate::proofs::RecordsBySector::takes_none))]
fn put_among(records: &mut Vec<Record>, address: SectorAddress, content: Record) -> R<()>
    ensures answer { result ≡ table.put_answer records.old.items address }
    ensures after { records.new.items ≡ table.with_record records.old.items address content }
{
    let place = address.index().ok_or(Fault::Unknown)?;
    if place >= records.len() {
        return Err(Fault::Unknown);
    }
    records[place] = content;
    Ok(())
}

// The bytes of a sector are as many as their type says.
fn has_all(bytes: &[u8; SECTOR_BYTES])
    ensures { length bytes.now ≡ SECTOR_BYTES }
{}

impl SectorStore for MemoryStore {
    ghost records = { λ s. s };

    ghost may_fail = { λ s. Some 0 };

    fn has_whole_sectors(&self) {
        let _ = &self.records;
    }

    fn read(&mut self, address: SectorAddress) -> R<Record> {
        let place = address.index().ok_or(Fault::Unknown)?;
        self.records.get(place).copied().ok_or(Fault::Unknown)
    }

    #[tactic(auto, using(crate::proofs::RecordsBySector::takes_none))]
    fn write(&mut self, address: SectorAddress, content: Record) -> R<()> {
        self.put(address, content)
    }
}

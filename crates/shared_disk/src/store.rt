//! Where a disk's records are kept.
ghost use Rattle.std.specs.Prelude.{◌≡◌, ℕ, List, Option, OnOk, OnErr, IfOk, IfErr};
ghost use Rattle.shared_disk.specs.Failing.{before_failures};
ghost use Rattle.shared_disk.specs.Records as table;
ghost use Rattle.shared_disk.specs.declared.store.Record.{Record};

use disk_dcdd::{SECTOR_BYTES, SectorAddress};
use i8080_words::R;

/// What is in a sector, with the number of the write that brought it: 0 if none did.
#[derive(Clone, Copy, PartialEq, Eq)]
pub struct Record {
    pub number: u64,
    pub bytes: [u8; SECTOR_BYTES],
}

/// Keeps a record for each sector, on a device that may fail. `Unknown` if no drive has the sector; `DeviceFault` if
/// the device failed, which leaves every record unchanged.
pub trait SectorStore: Drop {
    /// The record of each sector, by its index in a table of them all.
    ghost records: { Self → List Record };

    /// How often the device may still fail; `None` if nothing bounds that.
    ghost may_fail: { Self → Option ℕ };

    /// A law: each record has as many bytes as a sector has.
    fn has_whole_sectors(&self)
        ensures { table.HasWholeSectors (records self.now) };

    /// The record of a sector.
    fn read(&mut self, address: SectorAddress) -> R<Record>
        ensures ok { IfOk result (λ found. table.IsAt (records self.old) address found) }
        ensures refused { IfErr result (λ fault. fault ≡ table.refusal_at (records self.old) address) }
        ensures unchanged { records self.new ≡ records self.old }
        ensures counted { may_fail self.old ≡ before_failures (table.faults_in result) (may_fail self.new) };

    /// Puts a record into a sector.
    fn write(&mut self, address: SectorAddress, content: Record) -> R<()>
        ensures there { OnOk result (table.IsThere (records self.old) address) }
        ensures ok { OnOk result (records self.new ≡ table.with_record (records self.old) address content) }
        ensures refused { IfErr result (λ fault. fault ≡ table.refusal_at (records self.old) address) }
        ensures unchanged { OnErr result (records self.new ≡ records self.old) }
        ensures counted { may_fail self.old ≡ before_failures (table.faults_in result) (may_fail self.new) };
}

//! Records on a device that fails once.
ghost use Rattle.std.specs.Prelude.{◌≡◌, ◌⊎◌, IfErr, IfOk, OnErr, OnOk};
ghost use Rattle.i8080_words.specs.declared.refusal.Fault.TheVariants.{DeviceFault};
ghost use Rattle.shared_disk.specs.Failing.{Counts, Fails, FailsOnce, Refuses, before_failures, may_fail_in};
ghost use Rattle.shared_disk.specs.Records as table;

use crate::memory_store::MemoryStore;
use crate::store::{Record, SectorStore};
use disk_dcdd::SectorAddress;
use i8080_words::{Fault, R};
use std::marker::Model;

/// A store whose device fails at one read or write, and at no other. An access that the store underneath refuses is not
/// counted: it has no such sector, or has failed by itself.
#[derive(Drop)]
pub struct FailOnce<D: SectorStore> {
    store: D,
    // How many accesses are left up to the one that fails, itself included; 0 if none will fail.
    left: u64,
}

/// Records in memory, of which one read or write fails if the script says so: the disk of the program.
pub type Disk = FailOnce<MemoryStore>;

impl<D: SectorStore> Model for FailOnce<D> {
    ghost Value = { FailsOnce D };

    ghost view = { λ s. record { store = s.store; left = s.left } };
}

impl<D: SectorStore> FailOnce<D> {
    /// A store whose access of this number fails, counted from 1; with 0 none does.
    pub fn new(store: D, access: u64) -> FailOnce<D>
        ensures { result ≡ record { store = store; left = access } }
    {
        FailOnce {
            store,
            left: access,
        }
    }

    // The device fails: there is no further access to count.
    fn fail(&mut self) -> Fault
        ensures fault { result ≡ DeviceFault }
        ensures failed { self.new ≡ record self.old { left = 0 } }
    {
        self.left = 0;
        Fault::DeviceFault
    }
}

impl<D: SectorStore> SectorStore for FailOnce<D> {
    ghost records = { λ s. D.records s.store };

    ghost may_fail = { may_fail_in D.may_fail };

    fn has_whole_sectors(&self) {
        self.store.has_whole_sectors()
    }

    fn read(&mut self, address: SectorAddress) -> R<Record>
        ensures ok { IfOk result (λ found. table.IsAt (D.records self.old.store) address found) }
        ensures refused { IfErr result (λ fault. fault ≡ table.refusal_at (D.records self.old.store) address) }
        ensures unchanged { D.records self.new.store ≡ D.records self.old.store }
        ensures counted { may_fail_in D.may_fail self.old
            ≡ before_failures (table.faults_in result) (may_fail_in D.may_fail self.new) }
        ensures counts { OnOk result (Counts self.old self.new) }
        ensures fails { OnErr result (Fails self.old self.new ⊎ Refuses self.old self.new) }
    {
        let found = self.store.read(address)?;
        if self.left == 1 {
            return Err(self.fail());
        }
        self.left = self.left.saturating_sub(1);
        Ok(found)
    }

    fn write(&mut self, address: SectorAddress, content: Record) -> R<()>
        ensures there { OnOk result (table.IsThere (D.records self.old.store) address) }
        ensures ok { OnOk result (D.records self.new.store
            ≡ table.with_record (D.records self.old.store) address content) }
        ensures refused { IfErr result (λ fault. fault ≡ table.refusal_at (D.records self.old.store) address) }
        ensures unchanged { OnErr result (D.records self.new.store ≡ D.records self.old.store) }
        ensures counted { may_fail_in D.may_fail self.old
            ≡ before_failures (table.faults_in result) (may_fail_in D.may_fail self.new) }
        ensures counts { OnOk result (Counts self.old self.new) }
        ensures fails { OnErr result (Fails self.old self.new ⊎ Refuses self.old self.new) }
    {
        if self.left == 1 {
            self.store.read(address)?;
            return Err(self.fail());
        }
        self.store.write(address, content)?;
        self.left = self.left.saturating_sub(1);
        Ok(())
    }
}

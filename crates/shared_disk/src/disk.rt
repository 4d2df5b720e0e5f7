//! The disk that both nodes share.
ghost use Rattle.std.specs.Prelude.{◌≡◌, Some, OnOk, OnErr, IfOk, IfErr};
ghost use Rattle.disk_dcdd.specs.Address.{address_of};
ghost use Rattle.shared_disk.specs.Arrivals.{GoesOn, after_put, read_at};
ghost use Rattle.shared_disk.specs.Failing.{before_failures};
ghost use Rattle.shared_disk.specs.Records as table;

use crate::store::{Record, SectorStore};
use disk_dcdd::{SECTOR_BYTES, SectorAddress, SectorWrite};
use i8080_words::R;
use std::marker::Model;

/// What is in a sector of the shared disk: the write that brought it, or number 0 if none did.
#[derive(Clone, Copy, PartialEq, Eq)]
pub struct SectorRead {
    pub number: u64,
    pub drive: u8,
    pub track: u8,
    pub sector: u8,
    pub bytes: [u8; SECTOR_BYTES],
}

/// The disk that both nodes share (VMware FT, OSR 44(4), 2010, section 4.1), over a store of records.
#[derive(Drop)]
pub struct SharedDisk<D: SectorStore> {
    store: D,
}

impl<D: SectorStore> Model for SharedDisk<D> {
    ghost Value = { D };

    ghost view = { λ disk. disk.store };
}

impl<D: SectorStore> SharedDisk<D> {
    /// A disk over a store, whose records stay until writes arrive.
    pub fn new(store: D) -> SharedDisk<D>
        ensures { result ≡ store }
    {
        SharedDisk { store }
    }

    /// A write arrives. It replaces the sector's record if its number is greater, and otherwise changes nothing.
    /// `Unknown` if no drive has the sector; `DeviceFault` if the store failed: then the write has not arrived.
    #[tactic(auto, using(crate::proofs::Arriving::put_goes_on))]
    pub fn put(&mut self, write: &SectorWrite) -> R<()>
        ensures there { OnOk result (table.IsThere (D.records self.old) (address_of write.now)) }
        ensures ok { OnOk result (D.records self.new ≡ after_put (D.records self.old) write.now) }
        ensures refused { IfErr result
            (λ fault. fault ≡ table.refusal_at (D.records self.old) (address_of write.now)) }
        ensures unchanged { OnErr result (D.records self.new ≡ D.records self.old) }
        ensures counted { D.may_fail self.old ≡ before_failures (table.faults_in result) (D.may_fail self.new) }
        ensures shared { OnOk result (GoesOn (D.records self.old) write.now (D.records self.new)) }
    {
        let address = write.address();
        let found = self.store.read(address)?;
        if write.number <= found.number {
            return Ok(());
        }
        let bytes = write.bytes;
        let content = Record {
            number: write.number,
            bytes,
        };
        self.store.write(address, content)
    }

    /// What is in a sector. `Unknown` if no drive has it; `DeviceFault` if the store failed.
    pub fn get(&mut self, address: SectorAddress) -> R<SectorRead>
        ensures ok { IfOk result (λ read. read_at (D.records self.old) address ≡ Some read) }
        ensures refused { IfErr result (λ fault. fault ≡ table.refusal_at (D.records self.old) address) }
        ensures unchanged { D.records self.new ≡ D.records self.old }
        ensures counted { D.may_fail self.old ≡ before_failures (table.faults_in result) (D.may_fail self.new) }
    {
        let found = self.store.read(address)?;
        let bytes = found.bytes;
        Ok(SectorRead {
            number: found.number,
            drive: address.drive,
            track: address.track,
            sector: address.sector,
            bytes,
        })
    }
}

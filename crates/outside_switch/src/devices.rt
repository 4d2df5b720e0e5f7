//! The devices outside of the hosts' processes.
ghost use Rattle.std.specs.Prelude.{◌≡◌, Some, None, IfOk, IsOkUnless, if◌then◌else◌, nat_lt, ok_or};
ghost use Rattle.i8080_words.specs.declared.refusal.Fault.TheVariants.{OutOfMemory, Unknown};
ghost use Rattle.shared_disk.specs.Failing.{before_failures};
ghost use Rattle.shared_disk.specs.Records.{faults_in};
ghost use Rattle.outside_switch.specs.DeviceCalls as calls;
ghost use Rattle.outside_switch.specs.Held.{at_boot};
ghost use Rattle.outside_switch.specs.Terminal.{key_of};

use crate::at_terminals;
use crate::terminal::BoundedTerminal;
use arbiter_core::{Arbiter, Won};
use disk_dcdd::{SectorAddress, SectorWrite};
use event_callbacks::PORTS;
use i8080_words::{Fault, R};
use shared_disk::{SectorRead, SectorStore, SharedDisk};
use std::alloc::Global;
use std::marker::Model;

/// The devices that hosts talk to, each host being a process of its own: a terminal at each port, the arbiter, the
/// shared disk, and how many hosts there are. Hosts are numbered from 0, and the host of a number joins the generation
/// of that number.
#[derive(Drop)]
pub struct OutsideDevices<D: SectorStore> {
    terminals: [BoundedTerminal; PORTS],
    arbiter: Arbiter,
    disk: SharedDisk<D>,
    hosts: u64,
}

impl<D: SectorStore> Model for OutsideDevices<D> {
    ghost use Rattle.outside_switch.specs.Held.{Held};

    ghost Value = { Held };

    ghost view = { λ o. record {
      terminals = o.terminals;
      askings = o.arbiter;
      records = D.records o.disk;
      may_fail = D.may_fail o.disk;
      hosts = o.hosts;
    } };
}

impl<D: SectorStore> OutsideDevices<D> {
    /// Devices over a disk's store, at which nothing has happened yet, and no host. Allocates all the memory that the
    /// terminals will ever need.
    pub fn new(alloc: Global, store: D) -> R<OutsideDevices<D>>
        ensures ok { IfOk result (λ devices. devices ≡ at_boot (D.records store) (D.may_fail store)) }
        ensures only_memory { IsOkUnless result OutOfMemory }
    {
        let first = BoundedTerminal::new(alloc)?;
        let second = BoundedTerminal::new(alloc)?;
        Ok(OutsideDevices {
            terminals: [first, second],
            arbiter: Arbiter::new(alloc),
            disk: SharedDisk::new(store),
            hosts: 0,
        })
    }

    /// A key is typed at the terminal of a port. Returns its index, from 0. `Unknown` if there is no such port;
    /// otherwise `NotCovered` if `KEYS` of its keys are kept that no host has covered, or `Spent` if the index would be
    /// `GREATEST_NUMBER`.
    pub fn type_key(&mut self, port: u8, byte: u8) -> R<u64>
        ensures answer { result ≡ calls.typed_answer self.old.terminals port }
        ensures after { self.new ≡ record self.old { terminals = calls.typed_after self.old.terminals port byte } }
    {
        at_terminals::type_key(&mut self.terminals, port, byte)
    }

    /// The key that was typed at an index at the terminal of a port, to be sent to a host. `Unknown` if there is no such
    /// port, if no key was typed at the index, or if it is forgotten, since a host told that it is covered.
    pub fn key(&self, port: u8, index: u64) -> R<u8>
        ensures { result ≡ calls.key_answer self.now.terminals port index }
    {
        at_terminals::key_at(&self.terminals, port, index)
    }

    /// A host tells how many keys of the terminal of a port are covered, counted from the first typed: they are
    /// forgotten. Without such a port nothing changes.
    pub fn tell(&mut self, port: u8, keys: u64)
        ensures { self.new ≡ record self.old { terminals = calls.told_after self.old.terminals port keys } }
    {
        at_terminals::tell(&mut self.terminals, port, keys);
    }

    /// A released byte arrives at the terminal of its port, whose screen may have room. Returns the byte if it is
    /// accepted, to be shown now: it is the next byte of that port. Any other byte is dropped, and changes nothing.
    pub fn arrive(&mut self, port: u8, number: u64, byte: u8, room: bool) -> Option<u8>
        ensures shown { result ≡ (if calls.is_accepted self.old.terminals port number room then Some byte else None) }
        ensures after { self.new ≡ record self.old {
          terminals = calls.arrived_after self.old.terminals port number room;
        } }
    {
        let is_accepted = at_terminals::arrive(&mut self.terminals, port, number, room);
        is_accepted.then_some(byte)
    }

    /// How many bytes the terminal of a port has accepted, to be sent to a host; 0 if there is no such port.
    pub fn accepted(&self, port: u8) -> u64
        ensures { result ≡ (calls.terminal_at self.now.terminals port).accepted }
    {
        at_terminals::accepted(&self.terminals, port)
    }

    /// A host asks the arbiter for a generation: the first to ask has won it, and gets the same answer again. `Lost` for
    /// every other host. `OutOfMemory` is returned only to the first that asks, and then it has not asked.
    pub fn test_and_set(&mut self, generation: u32, host: u32) -> R<Won>
        ensures asked { calls.Asks self.old.askings generation host result self.new.askings }
        ensures others { self.new ≡ record self.old { askings = self.new.askings } }
    {
        self.arbiter.test_and_set(generation, u64::from(host))
    }

    /// A released write arrives at the disk, where it replaces the sector's record if its number is greater. At Ok it is
    /// done. `Unknown` if no drive has the sector; `DeviceFault` if the store failed: then the write has not arrived.
    pub fn put(&mut self, write: &SectorWrite) -> R<()>
        ensures put { calls.Puts self.old.records write.now result self.new.records }
        ensures counted { self.old.may_fail ≡ before_failures (faults_in result) self.new.may_fail }
        ensures others { self.new ≡ record self.old { records = self.new.records; may_fail = self.new.may_fail } }
    {
        self.disk.put(write)
    }

    /// What a sector of the disk has, to be sent to the host that asked for it. `Unknown` if no drive has it;
    /// `DeviceFault` if the store failed.
    pub fn read(&mut self, address: SectorAddress) -> R<SectorRead>
        ensures read { calls.Reads self.old.records address result self.new.records }
        ensures counted { self.old.may_fail ≡ before_failures (faults_in result) self.new.may_fail }
        ensures others { self.new ≡ record self.old { records = self.new.records; may_fail = self.new.may_fail } }
    {
        self.disk.get(address)
    }

    /// The host of a number is there now: the next one, since no two have one number. `WrongNumber` for any other.
    pub fn admit(&mut self, host: u32) -> R<()>
        ensures answer { result ≡ calls.admitted_answer self.old.hosts host }
        ensures after { self.new ≡ record self.old { hosts = calls.admitted_after self.old.hosts host } }
    {
        let host = u64::from(host);
        if host != self.hosts {
            return Err(Fault::WrongNumber);
        }
        self.hosts = host + 1;
        Ok(())
    }

    /// Whether a generation may begin: the host of its number is there, to join it.
    pub fn may_begin(&self, generation: u32) -> bool
        ensures { result ≡ nat_lt generation self.now.hosts }
    {
        u64::from(generation) < self.hosts
    }

    /// The disk, as it is now.
    pub fn into_disk(self) -> SharedDisk<D>
        ensures records { D.records result ≡ self.records }
        ensures failures { D.may_fail result ≡ self.may_fail }
    {
        let OutsideDevices { disk, .. } = self;
        disk
    }
}

//! What an event does at the terminals, and at the disk with the answer that it sends.
ghost use Rattle.std.specs.Prelude.{◌≡◌, ◌<◌, IfErr, OnOk, ok_or, slice_get, slice_set};
ghost use Rattle.disk_dcdd.specs.Completion.{answered};
ghost use Rattle.event_callbacks.specs.declared.devices.TheConstants.{PORTS};
ghost use Rattle.i8080_words.specs.declared.refusal.Fault.TheVariants.{OutOfMemory, Unknown};
ghost use Rattle.shared_disk.specs.Failing.{before_failures};
ghost use Rattle.shared_disk.specs.Records.{faults_in};
ghost use Rattle.terminals.specs.Screen.{after_telling};
ghost use Rattle.ft_world.specs.Devices as table;

use crate::message::Message;
use crate::messages::say_reserved;
use disk_dcdd::{SECTOR_BYTES, SectorAddress, SectorWrite};
use event_callbacks::{OpId, PORTS};
use i8080_words::{Fault, R};
use pair_events::Reply;
use shared_disk::{SectorRead, SectorStore, SharedDisk};
use std::alloc::Global;
use terminals::Terminal;

/// A byte is typed at the terminal of a port. `Unknown` if there is no such port.
pub(crate) fn type_byte(terminals: &mut [Terminal; PORTS], port: u8, byte: u8) -> R<Reply>
    ensures { table.Types terminals.old port byte result terminals.new }
{
    if port as usize >= PORTS {
        return Err(Fault::Unknown);
    }
    let index = terminals[port as usize].typed(byte)?;
    Ok(Reply::Typed { index })
}

/// A byte arrives at the terminal of its port, if there is one.
pub(crate) fn arrive(terminals: &mut [Terminal; PORTS], port: u8, number: u64, byte: u8) -> R<Reply>
    ensures { table.Arrives terminals.old port number byte result terminals.new }
{
    if port as usize >= PORTS {
        return Ok(Reply::Dropped);
    }
    if terminals[port as usize].arrive(number, byte)? {
        Ok(Reply::Accepted)
    } else {
        Ok(Reply::Dropped)
    }
}

/// A write arrives at the disk, whose answer is sent. Room for the answer is reserved before the disk is touched.
pub(crate) fn put<D: SectorStore>(
    messages: &mut Vec<Message>,
    disk: &mut SharedDisk<D>,
    write: &SectorWrite,
) -> R<Reply>
    ensures row { table.PutsWrite messages.old.items (D.records disk.old) write.now result messages.new.items
        (D.records disk.new) }
    ensures untouched { IfErr result (λ fault. fault ≡ OutOfMemory → disk.new ≡ disk.old) }
    ensures counted { D.may_fail disk.old ≡ before_failures (faults_in result) (D.may_fail disk.new) }
{
    messages.reserve(1)?;
    disk.put(write)?;
    Ok(say_reserved(messages, Message::Written(write.number)))
}

/// The key that was typed at an index, from 0, at the terminal of a port. `Unknown` if there is none.
pub(crate) fn key_at(terminals: &[Terminal; PORTS], port: u8, index: u64) -> R<u8>
    ensures answer { result ≡ ok_or (slice_get (table.screen_in terminals.now port).typed index) Unknown }
    ensures port { OnOk result (port < PORTS) }
{
    if port as usize >= PORTS {
        return Err(Fault::Unknown);
    }
    terminals[port as usize].key(index)
}

/// Checks that the terminal of a port has accepted the byte with a number, from 1. `Unknown` if it has not.
pub(crate) fn check_accepted(terminals: &[Terminal; PORTS], port: u8, number: u64) -> R<()>
    ensures answer { result ≡ answered (table.not_accepted terminals.now port number) }
    ensures port { OnOk result (port < PORTS) }
{
    if port as usize >= PORTS || number == 0 {
        return Err(Fault::Unknown);
    }
    if (terminals[port as usize].accepted().len() as u64) < number {
        return Err(Fault::Unknown);
    }
    Ok(())
}

/// Checks that the device of an operation exists. `Unknown` if the operation is a byte for a port that does not.
pub(crate) fn check_device(id: OpId) -> R<()>
    ensures { result ≡ answered (table.no_device id) }
{
    match id {
        OpId::Byte(port, _) if port as usize >= PORTS => Err(Fault::Unknown),
        _ => Ok(()),
    }
}

/// The terminal of a port is told that this many of its keys are covered.
pub(crate) fn tell(terminals: &mut [Terminal; PORTS], port: u8, keys: u64)
    requires { port < PORTS }
    ensures { terminals.new ≡ slice_set terminals.old port (after_telling (table.screen_in terminals.old port) keys) }
{
    terminals[port as usize].tell(keys);
}

/// The bytes that the terminal of a port has accepted; empty if there is no such port.
pub(crate) fn accepted(terminals: &[Terminal; PORTS], port: u8) -> &[u8]
    ensures { result.now ≡ (table.screen_in terminals.now port).accepted }
{
    if port as usize >= PORTS {
        return &[];
    }
    terminals[port as usize].accepted()
}

/// How many of its keys the terminal of a port was told are covered; 0 if there is no such port.
pub(crate) fn told(terminals: &[Terminal; PORTS], port: u8) -> u64
    ensures { result ≡ (table.screen_in terminals.now port).told }
{
    if port as usize >= PORTS {
        return 0;
    }
    terminals[port as usize].told()
}

// Room for what a sector has.
fn nothing_read() -> SectorRead {
    SectorRead {
        number: 0,
        drive: 0,
        track: 0,
        sector: 0,
        bytes: [0; SECTOR_BYTES],
    }
}

/// A sector is read, and the disk's answer is sent. Room for the answer is reserved before the disk is touched.
pub(crate) fn get<D: SectorStore>(
    alloc: Global,
    messages: &mut Vec<Message>,
    disk: &mut SharedDisk<D>,
    address: SectorAddress,
) -> R<Reply>
    ensures row { table.GetsSector messages.old.items (D.records disk.old) address result messages.new.items
        (D.records disk.new) }
    ensures untouched { IfErr result (λ fault. fault ≡ OutOfMemory → disk.new ≡ disk.old) }
    ensures counted { D.may_fail disk.old ≡ before_failures (faults_in result) (D.may_fail disk.new) }
{
    messages.reserve(1)?;
    let mut read = Box::new(alloc, nothing_read())?;
    *read = disk.get(address)?;
    Ok(say_reserved(messages, Message::Sector(read)))
}

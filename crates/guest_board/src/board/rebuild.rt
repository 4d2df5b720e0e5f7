//! A board in the state that an image describes.
ghost use Rattle.std.specs.Prelude.{◌≡◌, ℕ, ◌+◌, ◌≤◌, ◌<◌, ◌^◌, true, length, IfOk, IfErr, OnOk, None, IsOkUnless};
ghost use Rattle.i8080_words.specs.declared.refusal.Fault.TheVariants.{OutOfMemory};
ghost use Rattle.event_callbacks.specs.Operations.{operation_at};
ghost use Rattle.event_callbacks.specs.declared.operations.OpId.TheVariants as id;
ghost use Rattle.event_callbacks.specs.declared.devices.TheConstants.{PORTS};
ghost use Rattle.guest_memory.specs.Pages.{zeros};
ghost use Rattle.guest_memory.specs.declared.memory.TheConstants.{PAGES};
ghost use Rattle.guest_parts.specs.Parts as table;

use super::Board;
use crate::wiring::Wiring;
use disk_dcdd::SectorWrite;
use event_callbacks::{Callbacks, Completes, Operation, Pending};
use guest_memory::Memory;
use guest_parts::BoardParts;
use i8080_core::Cpu;
use i8080_words::{Fault, R};
use std::alloc::Global;

impl<T: Completes, S: Completes, W: Completes> Board<T, S, W> {
    /// The board that the parts describe, with these closures; no page of its memory was written yet.
    ///
    /// `Malformed` if no board can be in that state, otherwise `OutOfMemory` if there is no memory for it. Both hand
    /// everything back.
    pub fn rebuild(
        alloc: Global,
        parts: BoardParts,
        callbacks: Callbacks<T, S, W>,
    ) -> Result<Self, (BoardParts, Callbacks<T, S, W>, Fault)>
        ensures ok { IfOk result (λ board. board
            ≡ record { guest = table.guest_of_parts parts; versions = zeros PAGES }) }
        ensures stands { IfOk result (λ board. table.stands parts ≡ true) }
        ensures back { IfErr result (λ refused. (refused.0 ≡ parts) × (refused.1 ≡ callbacks)) }
        ensures refused { IfErr result (λ refused. refused.2 ≡ table.refused_as parts) }
    {
        if !parts.stand() {
            return Err((parts, callbacks, Fault::Malformed));
        }
        parts.stand_as_boards_do();
        let Ok(memory) = Memory::of_bytes(alloc, &parts.memory) else {
            return Err((parts, callbacks, Fault::OutOfMemory));
        };
        let Ok(pending) = outstanding(alloc, &parts) else {
            return Err((parts, callbacks, Fault::OutOfMemory));
        };
        Ok(Board {
            callbacks,
            cpu: Cpu::resume(parts.processor),
            wiring: Wiring {
                memory,
                devices: parts.devices,
                issued: parts.issued,
                sense: parts.sense,
                given: None,
            },
            pending,
            completed: parts.completed,
            count: parts.count,
            ready_until: 0,
            keys: parts.keys,
            levels: parts.levels,
        })
    }

    /// What any board shows can be rebuilt, and gives the same guest.
    pub fn can_be_rebuilt(&self, parts: &BoardParts)
        requires { table.Shows self.now.guest parts.now }
        ensures stands { table.stands parts.now ≡ true }
        ensures guest { table.guest_of_parts parts.now ≡ self.now.guest }
    {
        let _ = &self.count;
        parts.has_window(0);
        parts.has_window(1);
        parts.stand_as_boards_do();
    }
}

// The outstanding operations: the bytes of both ports, and the writes.
fn outstanding(alloc: Global, parts: &BoardParts) -> R<Pending>
    requires { table.stands parts.now ≡ true }
    ensures ok { IfOk result (λ pending. pending.operations ≡ table.operations_of parts.now) }
    ensures full { IsOkUnless result OutOfMemory }
{
    parts.devices.disk.stands();
    let mut pending = Pending::new(alloc);
    issue_port(&mut pending, parts, 0)?;
    issue_port(&mut pending, parts, 1)?;
    issue_writes(&mut pending, &parts.writes)?;
    Ok(pending)
}

// Adds the unaccepted bytes of a port to the outstanding operations.
fn issue_port(pending: &mut Pending, parts: &BoardParts, port: u8) -> R<()>
    requires port { port < PORTS }
    requires stands { table.stands parts.now ≡ true }
    requires new { (number : ℕ) → operation_at pending.old.operations (id.Byte port number) ≡ None }
    ensures ok { OnOk result (pending.new.operations ≡ table.with_each pending.old.operations
        (table.bytes_of parts.now.devices parts.now.issued parts.now.unaccepted port)) }
    ensures full { IsOkUnless result OutOfMemory }
{
    let place = port as usize;
    let acia = &parts.devices.ports[place];
    let unaccepted = acia.unaccepted();
    let oldest = parts.issued[place] + 1 - u64::from(unaccepted);
    let bytes = &parts.unaccepted[place];
    issue_bytes(pending, port, oldest, &bytes[..unaccepted as usize])
}

// Adds bytes of a port to the outstanding operations, numbered from `oldest` on.
fn issue_bytes(pending: &mut Pending, port: u8, oldest: u64, bytes: &[u8]) -> R<()>
    requires range { oldest + length bytes.now < 2 ^ 64 }
    requires new { (number : ℕ) → operation_at pending.old.operations (id.Byte port number) ≡ None }
    ensures ok { OnOk result (pending.new.operations
        ≡ table.with_each pending.old.operations (table.bytes_from port oldest bytes.now)) }
    ensures full { IsOkUnless result OutOfMemory }
{
    let mut number = oldest;
    for byte in bytes {
        pending.issue(Operation::Byte {
            port,
            number,
            byte: *byte,
        })?;
        number += 1;
    }
    Ok(())
}

// Adds writes to the outstanding operations.
fn issue_writes(pending: &mut Pending, writes: &[SectorWrite]) -> R<()>
    requires rise { table.Rise writes.now }
    requires new { (number : ℕ) → operation_at pending.old.operations (id.Write number) ≡ None }
    ensures ok { OnOk result (pending.new.operations
        ≡ table.with_each pending.old.operations (table.writes_of writes.now)) }
    ensures full { IsOkUnless result OutOfMemory }
{
    for write in writes {
        pending.issue(Operation::Write(*write))?;
    }
    Ok(())
}

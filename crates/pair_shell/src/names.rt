//! The names of what is outstanding.
ghost use Rattle.std.specs.Prelude.{◌≡◌, ◌<◌, ◌++◌, IfOk, OnOk};
ghost use Rattle.event_callbacks.specs.declared.devices.TheConstants.{PORTS};
ghost use Rattle.pair_shell.specs.First.{IsFirst, IsFirstWrite};
ghost use Rattle.pair_shell.specs.Outstanding.{byte_out, bytes_out, names_out};

use board_image::OutstandingWrites;
use event_callbacks::OpId;
use guest_lockstep::Lockstep;
use std::alloc::{AllocError, Global};

// How many bytes of a port may be outstanding.
const WINDOW: u64 = 16;

/// The names of the operations of a guest that are outstanding: the bytes of port 0 and of port 1 from the one that is due
/// on, and the writes, in order of number.
pub fn outstanding<B: Lockstep + OutstandingWrites>(
    alloc: Global,
    guest: &B,
) -> Result<Vec<OpId>, AllocError>
    ensures { IfOk result (λ names. names.items ≡ names_out B.machine (B.state guest.now) (B.OutstandingWrites.writes guest.now)) }
{
    let mut names = Vec::new(alloc);
    add_bytes(guest, 0, &mut names)?;
    add_bytes(guest, 1, &mut names)?;
    let places = guest.outstanding_writes();
    for place in places {
        names.push(OpId::Write(place.number))?;
    }
    Ok(names)
}

/// The operation of a guest that is completed first: the byte of port 0 that is due, or that of port 1, or the first write.
pub(crate) fn first_outstanding<B: Lockstep + OutstandingWrites>(guest: &B) -> Option<OpId>
    ensures { IsFirst B.machine (B.state guest.now) result }
{
    if let Some(number) = guest.due_byte(0) {
        return Some(OpId::Byte(0, number));
    }
    if let Some(number) = guest.due_byte(1) {
        return Some(OpId::Byte(1, number));
    }
    first_write(guest)
}

// The first write of a guest, if it is outstanding.
fn first_write<B: Lockstep + OutstandingWrites>(guest: &B) -> Option<OpId>
    ensures { IsFirstWrite B.machine (B.state guest.now) result }
{
    let place = guest.outstanding_writes().first()?;
    let id = OpId::Write(place.number);
    if guest.outstanding(id).is_some() {
        Some(id)
    } else {
        None
    }
}

// The bytes of a port from the one that is due on.
fn add_bytes<B: Lockstep>(guest: &B, port: u8, names: &mut Vec<OpId>) -> Result<(), AllocError>
    requires { port < PORTS }
    ensures { OnOk result (names.new.items ≡ names.old.items ++ bytes_out B.machine (B.state guest.now) port) }
{
    let Some(due) = guest.due_byte(port) else {
        return Ok(());
    };
    for place in 0..WINDOW {
        add_byte(guest, port, due.saturating_add(place), names)?;
    }
    Ok(())
}

// A byte of a port, if it is outstanding.
fn add_byte<B: Lockstep>(
    guest: &B,
    port: u8,
    number: u64,
    names: &mut Vec<OpId>,
) -> Result<(), AllocError>
    ensures { OnOk result (names.new.items ≡ names.old.items ++ byte_out B.machine (B.state guest.now) port number) }
{
    let id = OpId::Byte(port, number);
    if guest.outstanding(id).is_none() {
        return Ok(());
    }
    names.push(id)?;
    Ok(())
}

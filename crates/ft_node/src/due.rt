//! Whether the guest of a node that takes input awaits what an event brings, and the node's log has room for it.
ghost use Rattle.std.specs.Prelude.{◌≡◌, ◌<◌, ℕ, Ok, OnOk};
ghost use Rattle.disk_dcdd.specs.Completion.{answered};
ghost use Rattle.disk_dcdd.specs.declared.controller.TheConstants.{DRIVES};
ghost use Rattle.disk_dcdd.specs.declared.sector.TheConstants.{SECTORS};
ghost use Rattle.event_callbacks.specs.declared.devices.TheConstants.{PORTS};
ghost use Rattle.guest_lockstep.specs.declared.input.Input.TheVariants as input;
ghost use Rattle.recorder.specs.Recording.{IsDue};
ghost use Rattle.ft_node.specs.Due as due;

use disk_dcdd::{SECTOR_BYTES, SectorAddress};
use guest_lockstep::{Input, Lockstep};
use i8080_words::{Fault, GREATEST_NUMBER, R};

/// The key with an index is the next one of its port, and a number is left for it.
pub(crate) fn check_key<B: Lockstep>(board: &B, room: R<()>, port: u8, index: u64) -> R<()>
    requires { port < PORTS }
    ensures answer { result ≡ answered (due.key_refusal B.machine (B.state board.now) room port index) }
    ensures due { OnOk result ((byte : ℕ) → IsDue B.machine (B.state board.now) (input.Rx port byte)) }
    ensures room { OnOk result (room ≡ Ok tt) }
{
    if index != board.keys(port) {
        return Err(Fault::WrongNumber);
    }
    room?;
    if index >= GREATEST_NUMBER {
        return Err(Fault::Spent);
    }
    Ok(())
}

/// The byte with a number is the oldest of its port that is not accepted.
pub(crate) fn check_sent<B: Lockstep>(board: &B, room: R<()>, port: u8, number: u64) -> R<()>
    requires { port < PORTS }
    ensures answer { result ≡ answered (due.sent_refusal B.machine (B.state board.now) room port number) }
    ensures due { OnOk result (IsDue B.machine (B.state board.now) (input.Sent port)) }
    ensures room { OnOk result (room ≡ Ok tt) }
{
    let oldest = board.due_byte(port).ok_or(Fault::NotDue)?;
    if oldest != number {
        return Err(Fault::WrongNumber);
    }
    room
}

/// The write with a number is outstanding.
pub(crate) fn check_done<B: Lockstep>(board: &B, room: R<()>, number: u64) -> R<()>
    ensures answer { result ≡ answered (due.done_refusal B.machine (B.state board.now) room number) }
    ensures due { OnOk result (IsDue B.machine (B.state board.now) (input.Written number)) }
    ensures room { OnOk result (room ≡ Ok tt) }
{
    board.check(&Input::Written(number))?;
    room
}

/// The head is at the sector with an address, and the guest takes the bytes of the write with a number there.
pub(crate) fn check_under<B: Lockstep>(
    board: &B,
    room: R<()>,
    address: SectorAddress,
    number: u64,
    bytes: [u8; SECTOR_BYTES],
) -> R<()>
    requires drive { address.drive < DRIVES }
    requires sector { address.sector < SECTORS }
    ensures answer { result
        ≡ answered (due.under_refusal B.machine (B.state board.now) room address number bytes) }
    ensures due { OnOk result
        (IsDue B.machine (B.state board.now) (input.Sector address.drive address.sector number bytes)) }
    ensures room { OnOk result (room ≡ Ok tt) }
{
    if board.sector_under(address.drive, address.sector) != address {
        return Err(Fault::NotDue);
    }
    board.check(&Input::Sector {
        drive: address.drive,
        sector: address.sector,
        number,
        bytes,
    })?;
    room
}

//! What a board shows, copied into memory of its own.
ghost use Rattle.std.specs.Prelude.{◌≡◌, ◌+◌, ◌<◌, ◌∷◌, [], ℕ, true, Some, IfOk, IsOkUnless, length, slice_index, map};
ghost use Rattle.i8080_words.specs.declared.refusal.Fault.TheVariants.{OutOfMemory};
ghost use Rattle.disk_dcdd.specs.Sector.{place_of};
ghost use Rattle.event_callbacks.specs.Completions.{port_of};
ghost use Rattle.event_callbacks.specs.Operations.{operation_at};
ghost use Rattle.event_callbacks.specs.declared.devices.TheConstants.{PORTS};
ghost use Rattle.event_callbacks.specs.declared.operations.OpId.TheVariants as id;
ghost use Rattle.event_callbacks.specs.declared.operations.Operation.TheVariants as operation;
ghost use Rattle.guest_parts.specs.Board.{IsHeld, is_on_its_way};
ghost use Rattle.guest_parts.specs.Parts.{HaveWrites, Shows, oldest_of};
ghost use Rattle.clone_state.specs.Checkpoint.{padded, window_of};

use disk_dcdd::{Place, SectorWrite};
use event_callbacks::{Completes, Devices, OpId, Operation};
use guest_board::Board;
use guest_memory::{BYTES, PAGES};
use guest_parts::BoardParts;
use i8080_words::R;
use serial_2sio::WINDOW;
use std::alloc::Global;

/// What a board has in lists besides its memory.
#[derive(Drop)]
pub(super) struct Lists {
    // The outstanding writes, in order of number.
    writes: Vec<SectorWrite>,
    // The number of the last completed write of each sector.
    completed: Vec<u64>,
}

// The lists of a board, copied.
pub(super) fn lists_of_board<T: Completes, S: Completes, W: Completes>(
    alloc: Global,
    board: &Board<T, S, W>,
) -> R<Lists>
    ensures writes { IfOk result (λ lists. HaveWrites board.now.guest.operations lists.writes.items) }
    ensures places { IfOk result (λ lists. map place_of lists.writes.items
        ≡ board.now.guest.devices.disk.outstanding) }
    ensures completed { IfOk result (λ lists. lists.completed.items ≡ board.now.guest.completed) }
    ensures full { IsOkUnless result OutOfMemory }
{
    let writes = outstanding_writes(alloc, board)?;
    let completed = Vec::from_slice(alloc, board.completed())?;
    Ok(Lists { writes, completed })
}

// The parts that a board shows, given its memory and its lists. Allocates no memory.
pub(super) fn parts_of_board<T: Completes, S: Completes, W: Completes>(
    board: &Board<T, S, W>,
    memory: Vec<u8>,
    lists: Lists,
) -> BoardParts
    requires memory { memory.items ≡ board.now.guest.memory }
    requires writes { HaveWrites board.now.guest.operations lists.writes.items }
    requires places { map place_of lists.writes.items ≡ board.now.guest.devices.disk.outstanding }
    requires completed { lists.completed.items ≡ board.now.guest.completed }
    ensures shown { Shows board.now.guest result }
    ensures windows { result.unaccepted
        ≡ padded (window_of board.now.guest 0) ∷ padded (window_of board.now.guest 1) ∷ [] }
{
    board.stands();
    BoardParts {
        processor: *board.processor(),
        memory,
        devices: copied_devices(board),
        unaccepted: [unaccepted_bytes(board, 0), unaccepted_bytes(board, 1)],
        issued: [board.issued(0), board.issued(1)],
        writes: lists.writes,
        completed: lists.completed,
        count: board.count(),
        keys: [board.keys(0), board.keys(1)],
        levels: board.levels(),
        sense: board.sense(),
    }
}

// The guest's memory, page after page.
pub(super) fn copied_memory<T: Completes, S: Completes, W: Completes>(
    alloc: Global,
    board: &Board<T, S, W>,
) -> R<Vec<u8>>
    ensures ok { IfOk result (λ memory. memory.items ≡ board.now.guest.memory) }
    ensures full { IsOkUnless result OutOfMemory }
{
    board.stands();
    let mut memory = Vec::with_capacity(alloc, BYTES)?;
    for page in 0..PAGES {
        memory.extend_from_slice(board.page(page as u8))?;
    }
    Ok(memory)
}

// The devices of the board. Allocates no memory.
fn copied_devices<T: Completes, S: Completes, W: Completes>(board: &Board<T, S, W>) -> Devices
    ensures { result ≡ board.now.guest.devices }
{
    board.stands();
    Devices {
        ports: [board.port(0), board.port(1)],
        disk: board.disk().copy(),
    }
}

// The unaccepted bytes of a port, oldest first, and 00 after them.
fn unaccepted_bytes<T: Completes, S: Completes, W: Completes>(
    board: &Board<T, S, W>,
    port: u8,
) -> [u8; WINDOW as usize]
    requires { port < PORTS }
    ensures bytes { let g = board.now.guest in (k : ℕ) → k < (port_of g.devices port).unaccepted
        → operation_at g.operations (id.Byte port (oldest_of g.devices g.issued port + k))
        ≡ Some (operation.Byte port (oldest_of g.devices g.issued port + k) (slice_index result k)) }
    ensures window { result ≡ padded (window_of board.now.guest port) }
{
    board.stands();
    let unaccepted = board.port(port).unaccepted();
    let oldest = board.issued(port) + 1 - u64::from(unaccepted);
    let mut bytes = [0; WINDOW as usize];
    for place in 0..unaccepted {
        bytes[place as usize] = outstanding_byte(board, port, oldest + u64::from(place));
    }
    bytes
}

// The unaccepted byte of this number of a port.
fn outstanding_byte<T: Completes, S: Completes, W: Completes>(
    board: &Board<T, S, W>,
    port: u8,
    number: u64,
) -> u8
    requires port { port < PORTS }
    requires sent { is_on_its_way (slice_index board.now.guest.issued port)
        (port_of board.now.guest.devices port).unaccepted number ≡ true }
    ensures { operation_at board.now.guest.operations (id.Byte port number)
        ≡ Some (operation.Byte port number result) }
{
    board.stands();
    match board.outstanding(OpId::Byte(port, number)) {
        Some(Operation::Byte { byte, .. }) => *byte,
        Some(Operation::Write(_)) | None => unreachable!(),
    }
}

// The writes that are outstanding, in order of number.
fn outstanding_writes<T: Completes, S: Completes, W: Completes>(
    alloc: Global,
    board: &Board<T, S, W>,
) -> R<Vec<SectorWrite>>
    ensures writes { IfOk result (λ writes. HaveWrites board.now.guest.operations writes.items) }
    ensures places { IfOk result (λ writes. map place_of writes.items ≡ board.now.guest.devices.disk.outstanding) }
    ensures full { IsOkUnless result OutOfMemory }
{
    board.stands();
    let places = board.disk().outstanding();
    let mut writes = Vec::with_capacity(alloc, places.len())?;
    for place in places {
        writes.push(outstanding_write(board, place))?;
    }
    Ok(writes)
}

// The write that goes to this place.
fn outstanding_write<T: Completes, S: Completes, W: Completes>(
    board: &Board<T, S, W>,
    place: &Place,
) -> SectorWrite
    requires { IsHeld board.now.guest.operations place.now }
    ensures held { operation_at board.now.guest.operations (id.Write place.now.number)
        ≡ Some (operation.Write result) }
    ensures there { place_of result ≡ place.now }
{
    match board.outstanding(OpId::Write(place.number)) {
        Some(Operation::Write(write)) => *write,
        Some(Operation::Byte { .. }) | None => unreachable!(),
    }
}

//! The parts of an image in bytes: a head, and what the part says.
ghost use Rattle.std.specs.Prelude.{◌≡◌, ◌+◌, ◌*◌, ◌<◌, ◌≤◌, ◌==◌, ◌++◌, ◌∷◌, [], length, take, drop, if◌then◌else◌, OnOk, IsOkUnless, slice_index_or};
ghost use Rattle.std.specs.List.{zip};
ghost use Rattle.i8080_words.specs.declared.refusal.Fault.TheVariants.{OutOfMemory};
ghost use Rattle.disk_dcdd.specs.declared.address.TheConstants.{DRIVE_SECTORS};
ghost use Rattle.disk_dcdd.specs.declared.controller.TheConstants.{OUTSTANDING};
ghost use Rattle.byteorder.specs.Endian.{big_bytes};
ghost use Rattle.clone_state.specs.Checkpoint.{checkpoint_in_parts};
ghost use Rattle.clone_state.specs.Codec.{number, spell_each};
ghost use Rattle.clone_state.specs.FirstPart.{first, port, word, write};
ghost use Rattle.clone_state.specs.Parts.{parts_of, table};

mod first_part;

use byteorder::{BigEndian, ByteOrder};
use disk_dcdd::{SECTORS, SectorWrite};
use event_callbacks::PORTS;
use guest_memory::{PAGE_BYTES, PAGES};
use guest_parts::BoardParts;
use i8080_words::R;
use log_entry::spelled_number;
use serial_2sio::{Acia, WINDOW};

/// The byte that a part begins with, the letter `P`.
pub(crate) const PART_TAG: u8 = 0x50;

// How many bytes a part's head has, and the first part if no write is outstanding.
const HEAD: usize = 7;

const FIRST: usize = 261;

/// The head of a part.
#[tactic(auto, unfolding(crate::specs::Codec::both, crate::specs::Codec::by, crate::specs::Codec::one, crate::specs::FirstPart::word))]
pub(crate) fn head(generation: u32, index: u16) -> [u8; HEAD]
    ensures { result ≡ 0x50 ∷ big_bytes 4 generation ++ word.spell index }
{
    let mut bytes = [0; HEAD];
    bytes[0] = PART_TAG;
    BigEndian::write_u32(&mut bytes[1..5], generation);
    bytes[5] = (index / 256) as u8;
    bytes[6] = (index % 256) as u8;
    bytes
}

/// How many bytes a part has with its head.
pub(crate) fn part_length(parts: &BoardParts, index: u16) -> usize
    requires { length parts.now.writes.items ≤ OUTSTANDING }
    ensures { result ≡ (if index == 0 then 268 + 148 * length parts.now.writes.items else 263) }
{
    if index == 0 {
        let writes: &[SectorWrite] = &parts.writes;
        HEAD + FIRST + first_part::WRITE * writes.len()
    } else {
        HEAD + PAGE_BYTES
    }
}

/// Appends what a part says.
pub(crate) fn write_payload(out: &mut Vec<u8>, parts: &BoardParts, index: u16) -> R<()>
    requires few { length parts.now.writes.items ≤ OUTSTANDING }
    requires sectors { length parts.now.completed.items ≡ parts.now.devices.disk.attached * DRIVE_SECTORS }
    requires known { index < length (parts_of (checkpoint_in_parts parts.now)) }
    ensures ok { OnOk result (out.new.items
        ≡ out.old.items ++ slice_index_or (parts_of (checkpoint_in_parts parts.now)) index []) }
    ensures full { IsOkUnless result OutOfMemory }
{
    let place = index as usize;
    if place == 0 {
        write_first(out, parts)
    } else if place <= PAGES {
        write_page(out, &parts.memory, place - 1)
    } else {
        write_table(out, &parts.completed, place - PAGES - 1)
    }
}

// Appends a page of memory.
fn write_page(out: &mut Vec<u8>, memory: &[u8], page: usize) -> R<()>
    requires { page * 256 + 256 ≤ length memory.now }
    ensures ok { OnOk result (out.new.items ≡ out.old.items ++ take 256 (drop (page * 256) memory.now)) }
    ensures full { IsOkUnless result OutOfMemory }
{
    let start = page * PAGE_BYTES;
    out.extend_from_slice(&memory[start..start + PAGE_BYTES])?;
    Ok(())
}

// Appends the numbers of the last completed writes of a track.
fn write_table(out: &mut Vec<u8>, completed: &[u64], track: usize) -> R<()>
    requires { track * 32 + 32 ≤ length completed.now }
    ensures ok { OnOk result (out.new.items
        ≡ out.old.items ++ spell_each number (take 32 (drop (track * 32) completed.now))) }
    ensures full { IsOkUnless result OutOfMemory }
{
    let start = track * SECTORS as usize;
    write_numbers(out, &completed[start..start + SECTORS as usize])
}

// Appends numbers of eight bytes.
fn write_numbers(out: &mut Vec<u8>, numbers: &[u64]) -> R<()>
    ensures ok { OnOk result (out.new.items ≡ out.old.items ++ spell_each number numbers.now) }
    ensures full { IsOkUnless result OutOfMemory }
{
    for number in numbers {
        out.extend_from_slice(&spelled_number(*number))?;
    }
    Ok(())
}

// Appends what the first part says.
fn write_first(out: &mut Vec<u8>, parts: &BoardParts) -> R<()>
    requires { length parts.now.writes.items ≤ OUTSTANDING }
    ensures ok { OnOk result (out.new.items ≡ out.old.items ++ first.spell (checkpoint_in_parts parts.now).first) }
    ensures full { IsOkUnless result OutOfMemory }
{
    let disk = &parts.devices.disk;
    let writes: &[SectorWrite] = &parts.writes;
    out.extend_from_slice(&first_part::setting(
        disk.attached(),
        parts.levels,
        parts.sense,
        parts.count,
    ))?;
    out.extend_from_slice(&first_part::processor_bytes(&parts.processor))?;
    out.extend_from_slice(&first_part::port_numbers(parts.keys))?;
    out.extend_from_slice(&first_part::port_numbers(parts.issued))?;
    write_ports(out, &parts.devices.ports, &parts.unaccepted)?;
    out.extend_from_slice(&first_part::controller_bytes(disk))?;
    out.extend_from_slice(&first_part::drives_bytes(disk))?;
    out.extend_from_slice(&first_part::current_bytes(disk.current()))?;
    out.extend_from_slice(&[writes.len() as u8])?;
    write_writes(out, writes)
}

// Appends both ports, each with the places of its window.
fn write_ports(
    out: &mut Vec<u8>,
    ports: &[Acia; PORTS],
    windows: &[[u8; WINDOW as usize]; PORTS],
) -> R<()>
    ensures ok { OnOk result (out.new.items ≡ out.old.items ++ spell_each port (zip ports.now windows.now)) }
    ensures full { IsOkUnless result OutOfMemory }
{
    has_all(ports);
    has_all(windows);
    out.extend_from_slice(&first_part::port_bytes(&ports[0], &windows[0]))?;
    out.extend_from_slice(&first_part::port_bytes(&ports[1], &windows[1]))?;
    Ok(())
}

/// An array has as many elements as its type says.
pub(crate) fn has_all<X, const N: usize>(array: &[X; N])
    ensures { length array.now ≡ N }
{}

// Appends outstanding writes.
fn write_writes(out: &mut Vec<u8>, writes: &[SectorWrite]) -> R<()>
    ensures ok { OnOk result (out.new.items ≡ out.old.items ++ spell_each write writes.now) }
    ensures full { IsOkUnless result OutOfMemory }
{
    for write in writes {
        out.extend_from_slice(&first_part::write_bytes(write))?;
    }
    Ok(())
}

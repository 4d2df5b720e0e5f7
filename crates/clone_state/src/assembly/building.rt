//! The parts of a board, from the payloads of an image.
ghost use Rattle.std.specs.Prelude.{◌≡◌, ◌≤◌, ◌++◌, ◌&&◌, IfOk, IsOkUnless, OnOk, length, take, drop, is_some};
ghost use Rattle.std.specs.List.{list_all};
ghost use Rattle.i8080_words.specs.declared.refusal.Fault.TheVariants.{OutOfMemory};
ghost use Rattle.guest_parts.specs.Parts.{may_be_completed};
ghost use Rattle.guest_memory.specs.declared.memory.TheConstants.{PAGES};
ghost use Rattle.clone_state.specs.Checkpoint.{checkpoint_in_parts};
ghost use Rattle.clone_state.specs.Reading.{first_of, writes_in};
ghost use Rattle.clone_state.specs.Slots.{HasPages, bytes_at, bytes_in, fit_slots, numbers_at, numbers_in};

use crate::reading::{FirstPart, Outstanding, table_of};
use disk_dcdd::{Controller, SectorWrite};
use guest_memory::{BYTES, PAGE_BYTES, PAGES};
use guest_parts::BoardParts;
use i8080_words::R;
use std::alloc::Global;

/// Whether the tables of last completed writes are those of a board with this controller.
pub(super) fn fit(disk: &Controller, later: &[Option<[u8; PAGE_BYTES]>]) -> bool
    requires { PAGES ≤ length later.now }
    ensures { result ≡ list_all (fit_slots disk.now) (drop PAGES later.now) }
{
    all_fit(disk, &later[PAGES..])
}

fn all_fit(disk: &Controller, tables: &[Option<[u8; PAGE_BYTES]>]) -> bool
    ensures { result ≡ list_all (fit_slots disk.now) tables.now }
{
    tables.iter().all(|slot| fits_slot(disk, slot))
}

fn fits_slot(disk: &Controller, slot: &Option<[u8; PAGE_BYTES]>) -> bool
    ensures { result ≡ fit_slots disk.now slot.now }
{
    let Some(payload) = slot else {
        return false;
    };
    let Some(numbers) = table_of(payload) else {
        return false;
    };
    are_completed(disk, &numbers)
}

// Whether each of these may be the last completed write of a sector.
fn are_completed(disk: &Controller, numbers: &[u64]) -> bool
    ensures { result ≡ list_all (may_be_completed disk.now) numbers.now }
{
    numbers.iter().all(|number| *number <= disk.issued() && !disk.is_outstanding(*number))
}

/// What the payloads say of a board.
pub(super) fn parts_of_board(
    alloc: Global,
    first: FirstPart,
    later: &[Option<[u8; PAGE_BYTES]>],
) -> R<BoardParts>
    requires { HasPages later.now }
    ensures ok { IfOk result (λ parts. checkpoint_in_parts parts ≡ record {
      first = first_of first;
      memory = bytes_in (take PAGES later.now);
      completed = numbers_in (drop PAGES later.now);
    }) }
    ensures full { IsOkUnless result OutOfMemory }
{
    let memory = memory_of(alloc, &later[..PAGES])?;
    let completed = completed_of(alloc, &later[PAGES..])?;
    let writes = writes_of(alloc, &first.writes)?;
    Ok(BoardParts {
        processor: first.processor,
        memory,
        devices: first.devices,
        unaccepted: first.unaccepted,
        issued: first.issued,
        writes,
        completed,
        count: first.count,
        keys: first.keys,
        levels: first.levels,
        sense: first.sense,
    })
}

// The bytes of the pages, one after another.
fn memory_of(alloc: Global, pages: &[Option<[u8; PAGE_BYTES]>]) -> R<Vec<u8>>
    ensures ok { IfOk result (λ memory. memory.items ≡ bytes_in pages.now) }
    ensures full { IsOkUnless result OutOfMemory }
{
    let mut memory = Vec::with_capacity(alloc, BYTES)?;
    for slot in pages {
        append_page(&mut memory, slot)?;
    }
    Ok(memory)
}

fn append_page(memory: &mut Vec<u8>, slot: &Option<[u8; PAGE_BYTES]>) -> R<()>
    ensures ok { OnOk result (memory.new.items ≡ memory.old.items ++ bytes_at slot.now) }
    ensures full { IsOkUnless result OutOfMemory }
{
    if let Some(page) = slot {
        memory.extend_from_slice(page)?;
    }
    Ok(())
}

// The numbers of the tables, one after another.
fn completed_of(alloc: Global, tables: &[Option<[u8; PAGE_BYTES]>]) -> R<Vec<u64>>
    ensures ok { IfOk result (λ completed. completed.items ≡ numbers_in tables.now) }
    ensures full { IsOkUnless result OutOfMemory }
{
    let mut completed = Vec::new(alloc);
    for slot in tables {
        append_numbers(&mut completed, slot)?;
    }
    Ok(completed)
}

fn append_numbers(completed: &mut Vec<u64>, slot: &Option<[u8; PAGE_BYTES]>) -> R<()>
    ensures ok { OnOk result (completed.new.items ≡ completed.old.items ++ numbers_at slot.now) }
    ensures full { IsOkUnless result OutOfMemory }
{
    if let Some(payload) = slot {
        if let Some(numbers) = table_of(payload) {
            completed.extend_from_slice(&numbers)?;
        }
    }
    Ok(())
}

fn writes_of(alloc: Global, outstanding: &[Outstanding]) -> R<Vec<SectorWrite>>
    ensures ok { IfOk result (λ writes. writes.items ≡ writes_in outstanding.now) }
    ensures full { IsOkUnless result OutOfMemory }
{
    let mut writes = Vec::with_capacity(alloc, outstanding.len())?;
    for one in outstanding {
        writes.push(one.write)?;
    }
    Ok(writes)
}

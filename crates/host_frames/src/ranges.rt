//! The values that a frame may have.
ghost use Rattle.std.specs.Prelude.{◌≡◌, ◌==◌, ◌&&◌, length};
ghost use Rattle.host_frames.specs.Frames as table;

use crate::frame::{Notice, Report, SIGHT_BYTES, Transfer};
use disk_dcdd::SECTOR_BYTES;
use event_callbacks::PORTS;
use i8080_words::GREATEST_NUMBER;
use pair_events::Role;

/// The most drives that a machine has.
const MOST_DRIVES: u8 = 4;

pub(crate) fn is_port(port: u8) -> bool
    ensures { result ≡ table.is_port port }
{
    usize::from(port) < PORTS
}

pub(crate) fn is_drives(drives: u8) -> bool
    ensures { result ≡ table.is_drives drives }
{
    0 < drives && drives <= MOST_DRIVES
}

/// Whether a node in this role may be of this generation: a spare is of none.
pub(crate) fn is_standing(generation: u32, role: Option<Role>) -> bool
    ensures { result ≡ table.is_standing generation role }
{
    match role {
        None => generation == 0,
        Some(_) => is_generation(generation),
    }
}

fn is_number(number: u64) -> bool
    ensures { result ≡ table.is_number number }
{
    number <= GREATEST_NUMBER
}

fn is_generation(generation: u32) -> bool
    ensures { result ≡ table.is_generation generation }
{
    generation > 0
}

// A number of each port.
fn are_numbers(numbers: [u64; PORTS]) -> bool
    ensures { result ≡ table.are_numbers numbers }
{
    let [first, second] = numbers;
    is_number(first) && is_number(second)
}

// A number, and the bytes of a sector.
fn is_content(number: u64, bytes: &[u8; SECTOR_BYTES]) -> bool
    ensures { result ≡ (length bytes.now == 137 && table.is_number number) }
{
    let bytes: &[u8] = bytes;
    bytes.len() == SECTOR_BYTES && is_number(number)
}

// Two numbers, and what a machine has.
fn is_sight(number: u64, count: u64, bytes: &[u8; SIGHT_BYTES]) -> bool
    ensures { result ≡ (length bytes.now == 526 && (table.is_number number && table.is_number count)) }
{
    let bytes: &[u8] = bytes;
    bytes.len() == SIGHT_BYTES && (is_number(number) && is_number(count))
}

// How far its machine is, and what waits.
fn are_measures(report: &Report) -> bool
    ensures { result ≡ table.are_measures report.now }
{
    is_number(report.count)
        && is_number(report.lag)
        && is_number(report.writes)
        && is_number(report.tick)
}

fn is_report(report: &Report) -> bool
    ensures { result ≡ (table.is_standing report.now.generation report.now.role
        && (table.are_measures report.now && (table.are_numbers report.now.taken && table.are_numbers report.now.covered))) }
{
    is_standing(report.generation, report.role)
        && are_measures(report)
        && are_numbers(report.taken)
        && are_numbers(report.covered)
}

/// Whether the transfer has a spelling.
pub(crate) fn is_transfer(transfer: &Transfer) -> bool
    ensures { result ≡ table.is_transfer transfer.now }
{
    match transfer {
        Transfer::Byte { port, number, .. } => is_port(*port) && is_number(*number),
        Transfer::Key { port, index, .. } => is_port(*port) && is_number(*index),
        Transfer::Accepted { port, count } => is_port(*port) && is_number(*count),
        Transfer::Write(write) => is_content(write.number, &write.bytes),
        Transfer::Written(number) | Transfer::Failed(number) => is_number(*number),
        Transfer::Get(_) => true,
        Transfer::Sector(read) => is_content(read.number, &read.bytes),
        Transfer::Inspect { number, .. } => is_number(*number),
        Transfer::Inspected {
            number,
            count,
            bytes,
        } => is_sight(*number, *count, bytes),
    }
}

/// Whether the notice has a spelling.
pub(crate) fn is_notice(notice: &Notice) -> bool
    ensures { result ≡ table.is_notice notice.now }
{
    match notice {
        Notice::Suspect(generation) | Notice::Won(generation) | Notice::Lost(generation) => {
            is_generation(*generation)
        }
        Notice::Begin { generation, .. } => is_generation(*generation),
        Notice::Join {
            generation,
            drives,
            count,
            ..
        } => is_generation(*generation) && is_drives(*drives) && is_number(*count),
        Notice::Report(report) => is_report(report),
        Notice::Progress { entries, count, .. } => is_number(*entries) && is_number(*count),
        Notice::Tick { number, speed } => is_number(*number) && is_number(*speed),
        Notice::Gone(_) | Notice::Stop => true,
    }
}

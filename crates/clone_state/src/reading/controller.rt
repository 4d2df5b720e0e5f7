//! The controller and the outstanding writes, as bytes are read for them.
ghost use Rattle.std.specs.Prelude.{◌≡◌, ◌≤◌, ◌++◌, ◌==◌, ◌&&◌, not, is_none, option_map, length, map};
ghost use Rattle.disk_dcdd.specs.Sector.{place_of};
ghost use Rattle.disk_dcdd.specs.declared.controller.TheConstants.{OUTSTANDING};
ghost use Rattle.clone_state.specs.Codec.{read_each};
ghost use Rattle.clone_state.specs.FirstPart as grammar;
ghost use Rattle.clone_state.specs.Possible as possible;
ghost use Rattle.clone_state.specs.Reading.{controller_of, current_in, writes_in};

use super::values::{are_zeros, byte_at, is_truth, maybe_of};
use arrayvec::ArrayVec;
use disk_dcdd::{CurrentSector, DRIVES, Drive, OUTSTANDING, Place, SECTOR_BYTES, SectorWrite};
use log_entry::number_at;

/// A write that is outstanding. In a list without writes each place has one of number 0.
#[derive(Clone, Copy)]
pub(crate) struct Outstanding {
    pub(crate) write: SectorWrite,
}

impl Default for Outstanding {
    fn default() -> Outstanding {
        Outstanding {
            write: SectorWrite {
                number: 0,
                drive: 0,
                track: 0,
                sector: 0,
                bytes: [0; SECTOR_BYTES],
            },
        }
    }
}

/// What bytes say of the controller and its outstanding writes.
#[derive(Drop)]
pub(super) struct ControllerFields {
    pub(super) issued: u64,
    pub(super) selected: Option<u8>,
    pub(super) interrupts: bool,
    pub(super) drives: [Drive; DRIVES],
    pub(super) current: Option<CurrentSector>,
    pub(super) writes: ArrayVec<Outstanding, OUTSTANDING>,
}

#[tactic(auto, unfolding(crate::specs::FirstPart::controller, crate::specs::FirstPart::maybe, crate::specs::FirstPart::truth, crate::specs::Codec::both, crate::specs::Codec::by, crate::specs::Codec::only, crate::specs::Codec::one, crate::specs::Codec::number))]
pub(super) fn controller_at(bytes: &[u8]) -> Option<(ControllerFields, &[u8])>
    ensures { option_map (λ found. (controller_of found.0, found.1.now)) result ≡ grammar.controller.read bytes.now }
{
    let (issued, rest) = number_at(bytes)?;
    let [selected, interrupts, rest @ ..] = rest else {
        return None;
    };
    if !is_truth(*interrupts) {
        return None;
    }
    let (drives, rest) = drives_at(rest)?;
    let Some((current, rest)) = current_at(rest) else {
        return None;
    };
    let Some((writes, rest)) = writes_at(rest) else {
        return None;
    };
    let fields = ControllerFields {
        issued,
        selected: maybe_of(*selected),
        interrupts: *interrupts == 1,
        drives,
        current,
        writes,
    };
    Some((fields, rest))
}

// The four tracks, and then whether the four heads are loaded.
#[tactic(auto, unfolding(crate::specs::FirstPart::drives, crate::specs::FirstPart::truth, crate::specs::Codec::both, crate::specs::Codec::by, crate::specs::Codec::only, crate::specs::Codec::one, crate::specs::Codec::times))]
fn drives_at(bytes: &[u8]) -> Option<([Drive; DRIVES], &[u8])>
    ensures { option_map (λ found. (found.0, found.1.now)) result ≡ grammar.drives.read bytes.now }
{
    let [
        first,
        second,
        third,
        fourth,
        first_head,
        second_head,
        third_head,
        fourth_head,
        rest @ ..,
    ] = bytes
    else {
        return None;
    };
    if !are_truths(*first_head, *second_head, *third_head, *fourth_head) {
        return None;
    }
    let drives = [
        drive(*first, *first_head),
        drive(*second, *second_head),
        drive(*third, *third_head),
        drive(*fourth, *fourth_head),
    ];
    Some((drives, rest))
}

fn are_truths(first: u8, second: u8, third: u8, fourth: u8) -> bool
    ensures { result ≡ (grammar.is_bit first && grammar.is_bit second && grammar.is_bit third && grammar.is_bit fourth) }
{
    is_truth(first) && is_truth(second) && is_truth(third) && is_truth(fourth)
}

fn drive(track: u8, head: u8) -> Drive
    ensures { result ≡ record { track = track; loaded = head == 1 } }
{
    Drive {
        track,
        loaded: head == 1,
    }
}

// The sector under the head, if there is one.
#[tactic(auto, unfolding(crate::specs::FirstPart::current, crate::specs::FirstPart::maybe, crate::specs::FirstPart::truth, crate::specs::Codec::both, crate::specs::Codec::by, crate::specs::Codec::only, crate::specs::Codec::one, crate::specs::Codec::bytes))]
fn current_at(bytes: &[u8]) -> Option<(Option<CurrentSector>, &[u8])>
    ensures { option_map (λ found. (found.0, found.1.now)) result ≡ grammar.current.read bytes.now }
{
    let [present, sector, shown, read, filled, rest @ ..] = bytes else {
        return None;
    };
    let (bytes, rest) = rest.split_first_chunk::<SECTOR_BYTES>()?;
    let Some(current) = current_with(*present, *sector, *shown, *read, *filled, bytes) else {
        return None;
    };
    Some((current, rest))
}

// The sector that these fields say, if they say one, or that there is none.
fn current_with(
    present: u8,
    sector: u8,
    shown: u8,
    read: u8,
    filled: u8,
    bytes: &[u8; SECTOR_BYTES],
) -> Option<Option<CurrentSector>>
    ensures { result ≡ current_in present sector shown read filled bytes.now }
{
    if !is_truth(present) || !is_truth(shown) {
        return None;
    }
    let current = CurrentSector {
        sector,
        bytes: *bytes,
        read,
        shown: shown == 1,
        filled: maybe_of(filled),
    };
    if present == 1 {
        return Some(Some(current));
    }
    is_blank(&current).then_some(None)
}

// Whether this stands for no sector.
fn is_blank(current: &CurrentSector) -> bool
    ensures { result ≡ (current.now.sector == 0 && not current.now.shown && current.now.read == 0
        && is_none current.now.filled && possible.are_zeros current.now.bytes) }
{
    current.sector == 0
        && !current.shown
        && current.read == 0
        && current.filled.is_none()
        && are_zeros(&current.bytes)
}

// How many writes are outstanding, and each of them.
fn writes_at(bytes: &[u8]) -> Option<(ArrayVec<Outstanding, OUTSTANDING>, &[u8])>
    ensures { option_map (λ found. (writes_in found.0.items, found.1.now)) result ≡ grammar.writes.read bytes.now }
{
    let Some((count, rest)) = byte_at(bytes) else {
        return None;
    };
    if count as usize > OUTSTANDING {
        return None;
    }
    each_write_at(count, rest)
}

fn each_write_at(count: u8, bytes: &[u8]) -> Option<(ArrayVec<Outstanding, OUTSTANDING>, &[u8])>
    requires { count ≤ OUTSTANDING }
    ensures { option_map (λ found. (writes_in found.0.items, found.1.now)) result
        ≡ read_each grammar.write count bytes.now }
{
    let mut writes = ArrayVec::new();
    let mut rest = bytes;
    for _place in 0..count {
        let Some((write, after)) = write_at(rest) else {
            return None;
        };
        writes.push(Outstanding { write });
        rest = after;
    }
    Some((writes, rest))
}

#[tactic(auto, unfolding(crate::specs::FirstPart::write, crate::specs::Codec::both, crate::specs::Codec::by, crate::specs::Codec::one, crate::specs::Codec::bytes, crate::specs::Codec::number))]
fn write_at(bytes: &[u8]) -> Option<(SectorWrite, &[u8])>
    ensures { option_map (λ found. (found.0, found.1.now)) result ≡ grammar.write.read bytes.now }
{
    let (number, rest) = number_at(bytes)?;
    let [drive, track, sector, rest @ ..] = rest else {
        return None;
    };
    let (bytes, rest) = rest.split_first_chunk::<SECTOR_BYTES>()?;
    let write = SectorWrite {
        number,
        drive: *drive,
        track: *track,
        sector: *sector,
        bytes: *bytes,
    };
    Some((write, rest))
}

/// Where the writes go.
pub(super) fn places_of(writes: &[Outstanding]) -> ArrayVec<Place, OUTSTANDING>
    requires { length writes.now ≤ OUTSTANDING }
    ensures { result.items ≡ map place_of (writes_in writes.now) }
{
    let mut places = ArrayVec::new();
    for outstanding in writes {
        let write = &outstanding.write;
        places.push(Place {
            number: write.number,
            drive: write.drive,
            track: write.track,
            sector: write.sector,
        });
    }
    places
}

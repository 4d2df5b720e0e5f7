//! The first part, as bytes are read for it: all its fields, and whether a board can have them.
ghost use Rattle.std.specs.Prelude.{◌≡◌, ◌<◌, ◌∷◌, [], IfSome, true, length, option_map};
ghost use Rattle.event_callbacks.specs.declared.devices.TheConstants.{PORTS};
ghost use Rattle.clone_state.specs.Codec.{read_all};
ghost use Rattle.disk_dcdd.specs.declared.sector.TheConstants.{SECTOR_BYTES};
ghost use Rattle.clone_state.specs.FirstPart as grammar;
ghost use Rattle.clone_state.specs.FirstPart.{first_of_image};
ghost use Rattle.clone_state.specs.Reading as table;
ghost use Rattle.clone_state.specs.Parts.{first_in};
ghost use Rattle.clone_state.specs.Possible as possible;
ghost use Rattle.clone_state.specs.Reading.{controller_in, controller_of, devices_of, fields_of, IsOfBoard, first_of, possible_in, port_in};

use super::controller::{ControllerFields, Outstanding, controller_at, places_of};
use super::ports::{Ports, Version, ports_at};
use super::processor::processor_at;
use super::values::two_numbers_at;
use crate::spelling::has_all;
use arrayvec::ArrayVec;
use disk_dcdd::{Controller, ControllerImage, CurrentSector, OUTSTANDING};
use event_callbacks::{Devices, PORTS};
use guest_parts::{are_levels, port_stands};
use i8080_words::{Interrupts, Processor};
use log_entry::number_at;
use serial_2sio::WINDOW;

/// What the first part says: all but memory and the last completed writes.
#[derive(Drop)]
pub(crate) struct FirstPart {
    pub(crate) processor: Processor,
    pub(crate) devices: Devices,
    pub(crate) unaccepted: [[u8; WINDOW as usize]; PORTS],
    pub(crate) issued: [u64; PORTS],
    pub(crate) writes: ArrayVec<Outstanding, OUTSTANDING>,
    pub(crate) count: u64,
    pub(crate) keys: [u64; PORTS],
    pub(crate) levels: [u8; 3],
    pub(crate) sense: u8,
}

// What bytes say of the devices, and of the keys and the bytes that the ports count.
#[derive(Drop)]
struct DeviceFields {
    keys: [u64; PORTS],
    issued: [u64; PORTS],
    ports: Ports,
    controller: ControllerFields,
}

// What bytes say of a machine, except its version.
#[derive(Drop)]
struct Fields {
    attached: u8,
    levels: [u8; 3],
    sense: u8,
    count: u64,
    processor: Processor,
    devices: DeviceFields,
}

/// What the payload of a first part says, if it is one of a machine of this many drives.
#[tactic(auto, unfolding(crate::specs::Parts::first_in))]
pub(crate) fn first_part_of(drives: u8, payload: &[u8]) -> Option<FirstPart>
    ensures read { option_map first_of result ≡ first_in drives payload.now }
    ensures board { IfSome result (λ part. IsOfBoard drives (first_of part)) }
{
    let Some(part) = whole_part_of(payload) else {
        return None;
    };
    if part.devices.disk.attached() != drives {
        return None;
    }
    Some(part)
}

// What bytes say, if all of them are used.
fn whole_part_of(payload: &[u8]) -> Option<FirstPart>
    ensures { option_map first_of result ≡ read_all grammar.first payload.now }
{
    let Some((part, rest)) = part_at(payload) else {
        return None;
    };
    if !rest.is_empty() {
        return None;
    }
    Some(part)
}

// The version, and all after it.
#[tactic(auto, unfolding(crate::specs::FirstPart::first))]
fn part_at(bytes: &[u8]) -> Option<(FirstPart, &[u8])>
    ensures { option_map (λ found. (first_of found.0, found.1.now)) result ≡ grammar.first.read bytes.now }
{
    let [version, rest @ ..] = bytes else {
        return None;
    };
    match *version {
        1 => versioned_at(Version::One, rest),
        2 => versioned_at(Version::Two, rest),
        _ => None,
    }
}

#[tactic(auto, unfolding(crate::specs::FirstPart::versioned, crate::specs::Codec::by, crate::specs::Codec::only))]
fn versioned_at(version: Version, bytes: &[u8]) -> Option<(FirstPart, &[u8])>
    ensures { option_map (λ found. (first_of found.0, found.1.now)) result
        ≡ (grammar.versioned (port_in version)).read bytes.now }
{
    let Some((fields, rest)) = fields_at(version, bytes) else {
        return None;
    };
    let Some(part) = possible_part(fields) else {
        return None;
    };
    Some((part, rest))
}

#[tactic(auto, unfolding(crate::specs::FirstPart::fields, crate::specs::Codec::both, crate::specs::Codec::bytes, crate::specs::Codec::number, crate::specs::Codec::one))]
fn fields_at(version: Version, bytes: &[u8]) -> Option<(Fields, &[u8])>
    ensures { option_map (λ found. (fields_of found.0, found.1.now)) result
        ≡ (grammar.fields (port_in version)).read bytes.now }
{
    let [attached, first, second, third, sense, rest @ ..] = bytes else {
        return None;
    };
    let (count, rest) = number_at(rest)?;
    let Some((processor, rest)) = processor_at(rest) else {
        return None;
    };
    let Some((devices, rest)) = devices_at(version, rest) else {
        return None;
    };
    let fields = Fields {
        attached: *attached,
        levels: [*first, *second, *third],
        sense: *sense,
        count,
        processor,
        devices,
    };
    Some((fields, rest))
}

#[tactic(auto, unfolding(crate::specs::FirstPart::devices, crate::specs::Codec::both))]
fn devices_at(version: Version, bytes: &[u8]) -> Option<(DeviceFields, &[u8])>
    ensures { option_map (λ found. (devices_of found.0, found.1.now)) result
        ≡ (grammar.devices (port_in version)).read bytes.now }
{
    let (key_first, key_second, rest) = two_numbers_at(bytes)?;
    let (first, second, rest) = two_numbers_at(rest)?;
    let Some((ports, rest)) = ports_at(version, rest) else {
        return None;
    };
    let Some((controller, rest)) = controller_at(rest) else {
        return None;
    };
    let fields = DeviceFields {
        keys: [key_first, key_second],
        issued: [first, second],
        ports,
        controller,
    };
    Some((fields, rest))
}

// The part with these fields, if a board can have them.
fn possible_part(fields: Fields) -> Option<FirstPart>
    ensures { option_map first_of result ≡ possible_in (fields_of fields) }
{
    let Some(disk) = controller_with(fields.attached, &fields.devices.controller) else {
        return None;
    };
    let part = part_with(fields, disk);
    if !is_possible(&part) {
        return None;
    }
    Some(part)
}

// The part with these fields and this controller.
fn part_with(fields: Fields, disk: Controller) -> FirstPart
    requires { disk ≡ table.controller_with fields.attached (controller_of fields.devices.controller) }
    ensures { first_of result ≡ first_of_image (fields_of fields) }
{
    let Fields {
        attached: _,
        levels,
        sense,
        count,
        processor,
        devices,
    } = fields;
    let DeviceFields {
        keys,
        issued,
        ports,
        controller,
    } = devices;
    let Ports { ports, windows } = ports;
    has_all(&ports);
    has_all(&windows);
    FirstPart {
        processor,
        devices: Devices { ports, disk },
        unaccepted: windows,
        issued,
        writes: controller.writes,
        count,
        keys,
        levels,
        sense,
    }
}

// Whether a board can have what the part says.
#[tactic(auto, unfolding(crate::specs::Possible::is_possible))]
fn is_possible(part: &FirstPart) -> bool
    requires { possible.is_controller part.now.devices.disk ≡ true }
    ensures { result ≡ possible.is_possible (first_of part.now) }
{
    may_halt(&part.processor)
        && are_levels(&part.levels)
        && port_stands(&part.devices, &part.issued, &part.keys, 0)
        && port_stands(&part.devices, &part.issued, &part.keys, 1)
}

// The controller of this many drives with these fields, if one can have them.
fn controller_with(attached: u8, fields: &ControllerFields) -> Option<Controller>
    ensures { result ≡ controller_in attached (controller_of fields.now) }
{
    let outstanding = places_of(&fields.writes);
    has_all(&fields.drives);
    is_whole(&fields.current);
    Controller::rebuild(&ControllerImage {
        attached,
        selected: fields.selected,
        drives: fields.drives,
        interrupts: fields.interrupts,
        current: fields.current,
        outstanding: &outstanding,
        issued: fields.issued,
    })
    .ok()
}

// A sector under the head has all its bytes.
fn is_whole(current: &Option<CurrentSector>)
    ensures { IfSome current.now (λ sector. length sector.bytes ≡ SECTOR_BYTES) }
{
    if let Some(sector) = current {
        has_all(&sector.bytes);
    }
}

// HLT is itself the instruction after EI, so a halted processor does not wait for another one.
fn may_halt(processor: &Processor) -> bool
    ensures { result ≡ possible.may_halt processor.now }
{
    !(processor.halted && processor.interrupts == Interrupts::Soon)
}

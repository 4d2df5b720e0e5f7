//! The serial ports, as bytes are read for them in either version.
ghost use Rattle.std.specs.Prelude.{◌≡◌, ◌∷◌, [], Some, None, if◌then◌else◌, option_map};
ghost use Rattle.clone_state.specs.Codec.{times};
ghost use Rattle.clone_state.specs.FirstPart as grammar;
ghost use Rattle.clone_state.specs.Possible as possible;
ghost use Rattle.clone_state.specs.Reading as table;
ghost use Rattle.serial_2sio.specs.Port as serial;

use super::values::{are_zeros, receiver_of};
use event_callbacks::PORTS;
use serial_2sio::{Acia, Receiver, WINDOW};

/// The version of a first part.
#[derive(Clone, Copy)]
pub(crate) enum Version {
    /// A port sent one byte at a time. It is read and never written.
    One,
    /// A port has a window of sixteen bytes.
    Two,
}

/// The ports, each with the places of its window.
#[derive(Clone, Copy)]
pub(super) struct Ports {
    pub(super) ports: [Acia; PORTS],
    pub(super) windows: [[u8; WINDOW as usize]; PORTS],
}

// A port, and the places of its window.
#[derive(Clone, Copy)]
struct PortImage {
    port: Acia,
    window: [u8; WINDOW as usize],
}

// Both ports.
#[tactic(auto, unfolding(crate::specs::Codec::times))]
pub(super) fn ports_at(version: Version, bytes: &[u8]) -> Option<(Ports, &[u8])>
    ensures { option_map (λ found. (table.ports_of found.0, found.1.now)) result
        ≡ (times PORTS (table.port_in version)).read bytes.now }
{
    let Some((first, rest)) = port_at(version, bytes) else {
        return None;
    };
    let Some((second, rest)) = port_at(version, rest) else {
        return None;
    };
    Some((ports_of(first, second), rest))
}

fn ports_of(first: PortImage, second: PortImage) -> Ports
    ensures { table.ports_of result ≡ table.port_of first ∷ table.port_of second ∷ [] }
{
    let (one, other) = (first.port, second.port);
    let (window, other_window) = (first.window, second.window);
    Ports {
        ports: [one, other],
        windows: [window, other_window],
    }
}

fn port_at(version: Version, bytes: &[u8]) -> Option<(PortImage, &[u8])>
    ensures { option_map (λ found. (table.port_of found.0, found.1.now)) result ≡ (table.port_in version).read bytes.now }
{
    match version {
        Version::One => port_01_at(bytes),
        Version::Two => port_02_at(bytes),
    }
}

#[tactic(auto, unfolding(crate::specs::FirstPart::port, crate::specs::FirstPart::receiver, crate::specs::Codec::both, crate::specs::Codec::by, crate::specs::Codec::only, crate::specs::Codec::one, crate::specs::Codec::bytes))]
fn port_02_at(bytes: &[u8]) -> Option<(PortImage, &[u8])>
    ensures { option_map (λ found. (table.port_of found.0, found.1.now)) result ≡ grammar.port.read bytes.now }
{
    let [control, data, receiver, unaccepted, rest @ ..] = bytes else {
        return None;
    };
    let (window, rest) = rest.split_first_chunk::<16>()?;
    let Some(receiver) = receiver_of(*receiver) else {
        return None;
    };
    let Some(port) = port_with(*control, *data, receiver, *unaccepted, window) else {
        return None;
    };
    Some((port, rest))
}

// The port, and the places of its window, if only the first places have bytes.
fn port_with(
    control: u8,
    received: u8,
    receiver: Receiver,
    unaccepted: u8,
    window: &[u8; WINDOW as usize],
) -> Option<PortImage>
    ensures { option_map table.port_of result ≡ (if possible.is_window unaccepted window.now
        then Some (serial.port_with control received receiver unaccepted, window.now) else None) }
{
    let Ok(port) = Acia::rebuild(control, received, receiver, unaccepted) else {
        return None;
    };
    if !are_zeros(&window[unaccepted as usize..]) {
        return None;
    }
    let window = *window;
    Some(PortImage { port, window })
}

// A port with TDRE 0 has one unaccepted byte, any other none.
#[tactic(auto, unfolding(crate::specs::FirstPart::port_01, crate::specs::FirstPart::receiver, crate::specs::FirstPart::truth, crate::specs::Codec::both, crate::specs::Codec::by, crate::specs::Codec::only, crate::specs::Codec::one))]
fn port_01_at(bytes: &[u8]) -> Option<(PortImage, &[u8])>
    ensures { option_map (λ found. (table.port_of found.0, found.1.now)) result ≡ grammar.port_01.read bytes.now }
{
    let [control, data, receiver, ready, byte, rest @ ..] = bytes else {
        return None;
    };
    let Some(receiver) = receiver_of(*receiver) else {
        return None;
    };
    if *ready > 1 {
        return None;
    }
    if *ready == 1 && *byte != 0 {
        return None;
    }
    let Ok(port) = Acia::rebuild(*control, *data, receiver, 1 - *ready) else {
        return None;
    };
    let window = window_of_one(*byte);
    Some((PortImage { port, window }, rest))
}

// A window whose oldest place has this byte.
fn window_of_one(byte: u8) -> [u8; WINDOW as usize]
    ensures { result ≡ grammar.one_byte byte }
{
    let mut window = [0; WINDOW as usize];
    window[0] = byte;
    window
}

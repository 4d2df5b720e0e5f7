//! What follows a tag, as bytes are read for it. A value that is read in front comes with the bytes after it.
ghost use Rattle.std.specs.Prelude.{◌≡◌, option_map};
ghost use Rattle.clone_state.specs.Codec.{number, one, read_all};
ghost use Rattle.host_frames.specs.Reading as grammar;

use crate::frame::SIGHT_BYTES;
use crate::ranges::{is_drives, is_port};
use disk_dcdd::{SECTOR_BYTES, SectorAddress};
use log_entry::{generation_at, number_at};

/// A number that nothing follows.
#[tactic(auto, unfolding(clone_state::specs::Codec::number))]
pub(crate) fn number_of(bytes: &[u8]) -> Option<u64>
    ensures { result ≡ read_all number bytes.now }
{
    let (number, rest) = number_at(bytes)?;
    rest.is_empty().then_some(number)
}

/// A byte that nothing follows.
#[tactic(auto, unfolding(clone_state::specs::Codec::one))]
pub(crate) fn byte_of(bytes: &[u8]) -> Option<u8>
    ensures { result ≡ read_all one bytes.now }
{
    let [byte] = bytes else {
        return None;
    };
    Some(*byte)
}

/// A generation that nothing follows.
#[tactic(auto, unfolding(crate::specs::Reading::generation))]
pub(crate) fn generation_of(bytes: &[u8]) -> Option<u32>
    ensures { result ≡ read_all grammar.generation bytes.now }
{
    let (generation, rest) = generation_at(bytes)?;
    rest.is_empty().then_some(generation)
}

#[tactic(auto, unfolding(crate::specs::Reading::port, clone_state::specs::Codec::only, clone_state::specs::Codec::one))]
fn port_at(bytes: &[u8]) -> Option<(u8, &[u8])>
    ensures { option_map (λ found. (found.0, found.1.now)) result ≡ grammar.port.read bytes.now }
{
    let [port, rest @ ..] = bytes else {
        return None;
    };
    if !is_port(*port) {
        return None;
    }
    Some((*port, rest))
}

/// A port, a byte and a number.
#[tactic(auto, unfolding(crate::specs::Reading::key, clone_state::specs::Codec::both, clone_state::specs::Codec::one, clone_state::specs::Codec::number))]
pub(crate) fn key_of(bytes: &[u8]) -> Option<(u8, u8, u64)>
    ensures { option_map (λ found. (found.0, (found.1, found.2))) result ≡ read_all grammar.key bytes.now }
{
    let (port, rest) = port_at(bytes)?;
    let [byte, rest @ ..] = rest else {
        return None;
    };
    let (number, rest) = number_at(rest)?;
    rest.is_empty().then_some((port, *byte, number))
}

/// A port and a number.
#[tactic(auto, unfolding(crate::specs::Reading::port_count, clone_state::specs::Codec::both, clone_state::specs::Codec::number))]
pub(crate) fn port_count_of(bytes: &[u8]) -> Option<(u8, u64)>
    ensures { result ≡ read_all grammar.port_count bytes.now }
{
    let (port, rest) = port_at(bytes)?;
    let (number, rest) = number_at(rest)?;
    rest.is_empty().then_some((port, number))
}

#[tactic(auto, unfolding(crate::specs::Reading::address, clone_state::specs::Codec::by, clone_state::specs::Codec::both, clone_state::specs::Codec::one))]
fn address_at(bytes: &[u8]) -> Option<(SectorAddress, &[u8])>
    ensures { option_map (λ found. (found.0, found.1.now)) result ≡ grammar.address.read bytes.now }
{
    let [drive, track, sector, rest @ ..] = bytes else {
        return None;
    };
    let address = SectorAddress {
        drive: *drive,
        track: *track,
        sector: *sector,
    };
    Some((address, rest))
}

/// A sector that nothing follows.
pub(crate) fn address_of(bytes: &[u8]) -> Option<SectorAddress>
    ensures { result ≡ read_all grammar.address bytes.now }
{
    let (address, rest) = address_at(bytes)?;
    rest.is_empty().then_some(address)
}

/// A sector, a number and the sector's bytes.
#[tactic(auto, unfolding(crate::specs::Reading::content, clone_state::specs::Codec::both, clone_state::specs::Codec::number, clone_state::specs::Codec::bytes))]
pub(crate) fn content_of(bytes: &[u8]) -> Option<(SectorAddress, u64, [u8; SECTOR_BYTES])>
    ensures { option_map (λ found. (found.0, (found.1, found.2))) result ≡ read_all grammar.content bytes.now }
{
    let (address, rest) = address_at(bytes)?;
    let (number, rest) = number_at(rest)?;
    let (content, rest) = rest.split_first_chunk::<SECTOR_BYTES>()?;
    rest.is_empty().then_some((address, number, *content))
}

/// A page and a number.
#[tactic(auto, unfolding(crate::specs::Reading::inspect, clone_state::specs::Codec::both, clone_state::specs::Codec::one, clone_state::specs::Codec::number))]
pub(crate) fn inspect_of(bytes: &[u8]) -> Option<(u8, u64)>
    ensures { result ≡ read_all grammar.inspect bytes.now }
{
    let [page, rest @ ..] = bytes else {
        return None;
    };
    let (number, rest) = number_at(rest)?;
    rest.is_empty().then_some((*page, number))
}

/// Two numbers, and what a machine has.
#[tactic(auto, unfolding(crate::specs::Reading::sight, clone_state::specs::Codec::both, clone_state::specs::Codec::number, clone_state::specs::Codec::bytes))]
pub(crate) fn sight_of(bytes: &[u8]) -> Option<(u64, u64, [u8; SIGHT_BYTES])>
    ensures { option_map (λ found. (found.0, (found.1, found.2))) result ≡ read_all grammar.sight bytes.now }
{
    let (number, rest) = number_at(bytes)?;
    let (count, rest) = number_at(rest)?;
    let (sight, rest) = rest.split_first_chunk::<SIGHT_BYTES>()?;
    rest.is_empty().then_some((number, count, *sight))
}

/// A generation and a host.
#[tactic(auto, unfolding(crate::specs::Reading::begin, crate::specs::Reading::generation, clone_state::specs::Codec::both, clone_state::specs::Codec::one))]
pub(crate) fn begin_of(bytes: &[u8]) -> Option<(u32, u8)>
    ensures { result ≡ read_all grammar.begin bytes.now }
{
    let (generation, rest) = generation_at(bytes)?;
    let [host] = rest else {
        return None;
    };
    Some((generation, *host))
}

/// A generation, a host, drives and a count.
#[tactic(auto, unfolding(crate::specs::Reading::join, crate::specs::Reading::generation, crate::specs::Reading::drives, clone_state::specs::Codec::both, clone_state::specs::Codec::only, clone_state::specs::Codec::one, clone_state::specs::Codec::number))]
pub(crate) fn join_of(bytes: &[u8]) -> Option<(u32, u8, u8, u64)>
    ensures { option_map (λ found. (found.0, (found.1, (found.2, found.3)))) result ≡ read_all grammar.join bytes.now }
{
    let (generation, rest) = generation_at(bytes)?;
    let [host, drives, rest @ ..] = rest else {
        return None;
    };
    if !is_drives(*drives) {
        return None;
    }
    let (count, rest) = number_at(rest)?;
    rest.is_empty()
        .then_some((generation, *host, *drives, count))
}

/// A host and two numbers.
#[tactic(auto, unfolding(crate::specs::Reading::progress, clone_state::specs::Codec::both, clone_state::specs::Codec::one, clone_state::specs::Codec::number))]
pub(crate) fn progress_of(bytes: &[u8]) -> Option<(u8, u64, u64)>
    ensures { option_map (λ found. (found.0, (found.1, found.2))) result ≡ read_all grammar.progress bytes.now }
{
    let [host, rest @ ..] = bytes else {
        return None;
    };
    let (entries, rest) = number_at(rest)?;
    let (count, rest) = number_at(rest)?;
    rest.is_empty().then_some((*host, entries, count))
}

/// Two numbers.
#[tactic(auto, unfolding(crate::specs::Reading::tick, clone_state::specs::Codec::both, clone_state::specs::Codec::number))]
pub(crate) fn tick_of(bytes: &[u8]) -> Option<(u64, u64)>
    ensures { result ≡ read_all grammar.tick bytes.now }
{
    let (number, rest) = number_at(bytes)?;
    let (speed, rest) = number_at(rest)?;
    rest.is_empty().then_some((number, speed))
}

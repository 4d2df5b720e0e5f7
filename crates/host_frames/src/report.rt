//! What a host says of itself, as bytes are read for it and as they are written.
ghost use Rattle.std.specs.Prelude.{◌≡◌, ◌∷◌, ◌++◌, Some, None, if◌then◌else◌, option_map};
ghost use Rattle.byteorder.specs.Endian.{big_bytes};
ghost use Rattle.clone_state.specs.Codec.{read_all};
ghost use Rattle.host_frames.specs.Frames as table;
ghost use Rattle.host_frames.specs.Frames.{notice_body};
ghost use Rattle.host_frames.specs.Reading as grammar;
ghost use Rattle.host_frames.specs.declared.frame.Notice.TheVariants as notice;

use crate::frame::Report;
use crate::ranges::is_standing;
use byteorder::{BigEndian, ByteOrder};
use event_callbacks::PORTS;
use log_entry::{number_at, spelled_number};
use pair_events::Role;

// How many bytes the body of a report has.
pub(crate) const REPORT_BYTES: usize = 71;

// The byte of a role, 0 of a spare.
fn role_code(role: Option<Role>) -> u8
    ensures { result ≡ table.role_code role }
{
    match role {
        None => 0,
        Some(Role::Primary) => 1,
        Some(Role::Backup) => 2,
        Some(Role::Joining) => 3,
        Some(Role::Draining) => 4,
        Some(Role::Alone) => 5,
        Some(Role::Halted) => 6,
    }
}

// The role that a byte says.
fn role_of(code: u8) -> Option<Role>
    ensures { result ≡ grammar.role_of code }
{
    match code {
        1 => Some(Role::Primary),
        2 => Some(Role::Backup),
        3 => Some(Role::Joining),
        4 => Some(Role::Draining),
        5 => Some(Role::Alone),
        6 => Some(Role::Halted),
        _ => None,
    }
}

#[tactic(auto, unfolding(crate::specs::Reading::word))]
fn word_at(bytes: &[u8]) -> Option<(u32, &[u8])>
    ensures { option_map (λ found. (found.0, found.1.now)) result ≡ grammar.word.read bytes.now }
{
    let (word, rest) = bytes.split_first_chunk::<4>()?;
    Some((u32::from_be_bytes(*word), rest))
}

#[tactic(auto, unfolding(crate::specs::Reading::standing, crate::specs::Reading::role, clone_state::specs::Codec::both, clone_state::specs::Codec::by, clone_state::specs::Codec::only, clone_state::specs::Codec::one))]
fn standing_at(bytes: &[u8]) -> Option<(u32, Option<Role>, &[u8])>
    ensures { option_map (λ found. ((found.0, found.1), found.2.now)) result ≡ grammar.standing.read bytes.now }
{
    let (generation, rest) = word_at(bytes)?;
    let [code, rest @ ..] = rest else {
        return None;
    };
    if *code > 6 {
        return None;
    }
    let role = role_of(*code);
    if !is_standing(generation, role) {
        return None;
    }
    Some((generation, role, rest))
}

// The byte of a yes or no.
fn flag_code(flag: bool) -> u8
    ensures { result ≡ table.flag_code flag }
{
    if flag { 1 } else { 0 }
}

#[tactic(auto, unfolding(crate::specs::Reading::flag, clone_state::specs::Codec::by, clone_state::specs::Codec::only, clone_state::specs::Codec::one))]
fn flag_at(bytes: &[u8]) -> Option<(bool, &[u8])>
    ensures { option_map (λ found. (found.0, found.1.now)) result ≡ grammar.flag.read bytes.now }
{
    let [code, rest @ ..] = bytes else {
        return None;
    };
    if *code > 1 {
        return None;
    }
    Some((*code == 1, rest))
}

#[tactic(auto, unfolding(crate::specs::Reading::two_numbers, clone_state::specs::Codec::both, clone_state::specs::Codec::by, clone_state::specs::Codec::number))]
fn two_numbers_at(bytes: &[u8]) -> Option<([u64; PORTS], &[u8])>
    ensures { option_map (λ found. (found.0, found.1.now)) result ≡ grammar.two_numbers.read bytes.now }
{
    let (first, rest) = number_at(bytes)?;
    let (second, rest) = number_at(rest)?;
    Some(([first, second], rest))
}

#[tactic(auto, unfolding(crate::specs::Reading::measures, clone_state::specs::Codec::both, clone_state::specs::Codec::number))]
fn measures_at(bytes: &[u8]) -> Option<(u64, u64, u64, u64, &[u8])>
    ensures { option_map (λ found. ((found.0, (found.1, (found.2, found.3))), found.4.now)) result
        ≡ grammar.measures.read bytes.now }
{
    let (count, rest) = number_at(bytes)?;
    let (lag, rest) = number_at(rest)?;
    let (writes, rest) = number_at(rest)?;
    let (tick, rest) = number_at(rest)?;
    Some((count, lag, writes, tick, rest))
}

/// What a host says of itself.
#[tactic(auto, unfolding(crate::specs::Reading::report, clone_state::specs::Codec::both))]
pub(crate) fn report_of(bytes: &[u8]) -> Option<Report>
    ensures { option_map (λ r. ((r.generation, r.role), (r.is_idle, ((r.count, (r.lag, (r.writes, r.tick))), (r.taken, r.covered))))) result
        ≡ read_all grammar.report bytes.now }
{
    let (generation, role, rest) = standing_at(bytes)?;
    let (is_idle, rest) = flag_at(rest)?;
    let (count, lag, writes, tick, rest) = measures_at(rest)?;
    let (taken, rest) = two_numbers_at(rest)?;
    let (covered, rest) = two_numbers_at(rest)?;
    if !rest.is_empty() {
        return None;
    }
    Some(Report {
        generation,
        role,
        is_idle,
        count,
        lag,
        writes,
        tick,
        taken,
        covered,
    })
}

// A number of each port.
fn port_numbers(numbers: [u64; PORTS]) -> [u8; 16]
    ensures { result ≡ table.of_ports numbers }
{
    let [first, second] = numbers;
    let mut bytes = [0; 16];
    bytes[..8].copy_from_slice(&spelled_number(first));
    bytes[8..].copy_from_slice(&spelled_number(second));
    bytes
}

/// The body of a report.
pub(crate) fn report_body(report: &Report) -> [u8; REPORT_BYTES]
    ensures { result ≡ notice_body (notice.Report report.now) }
{
    let mut bytes = [0; REPORT_BYTES];
    bytes[0] = 0x45;
    BigEndian::write_u32(&mut bytes[1..5], report.generation);
    bytes[5] = role_code(report.role);
    bytes[6] = flag_code(report.is_idle);
    bytes[7..15].copy_from_slice(&spelled_number(report.count));
    bytes[15..23].copy_from_slice(&spelled_number(report.lag));
    bytes[23..31].copy_from_slice(&spelled_number(report.writes));
    bytes[31..39].copy_from_slice(&spelled_number(report.tick));
    bytes[39..55].copy_from_slice(&port_numbers(report.taken));
    bytes[55..].copy_from_slice(&port_numbers(report.covered));
    bytes
}

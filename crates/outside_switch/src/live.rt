//! Which host is live, and which spare is next.
ghost use Rattle.std.specs.Prelude.{◌≡◌, ◌⊎◌, IfSome};
ghost use Rattle.outside_switch.specs.LoopRuns.{IsLive};

use crate::HostLine;
use host_frames::Report;
use pair_events::Role;

/// The host that runs the guest for the user, and what it reported last.
#[derive(Clone, Copy)]
pub(crate) struct Live {
    pub(crate) place: u8,
    pub(crate) report: Report,
}

/// The host of the greatest generation that reports that it is primary or alone. One that is alone has won its generation, so
/// it comes before a primary of that generation, which has yet to hear that it has lost.
pub(crate) fn live_of(lines: &[HostLine]) -> Option<Live>
    ensures { IfSome result (IsLive lines.now) }
{
    let mut found = None;
    for place in 0..=u8::MAX {
        if usize::from(place) >= lines.len() {
            break;
        }
        found = later_of(found, live_at(lines, place));
    }
    found
}

/// Which place is to be given to a generation: the one that was already, or the first that has a spare.
pub(crate) fn spare_for(lines: &[HostLine], generation: u32) -> Option<u8> {
    let mut found = None;
    for place in 0..=u8::MAX {
        let Some(line) = lines.get(usize::from(place)) else {
            return found;
        };
        if line.number() == Some(generation) {
            return Some(place);
        }
        if found.is_none() && line.is_spare() {
            found = Some(place);
        }
    }
    found
}

fn live_at(lines: &[HostLine], place: u8) -> Option<Live>
    ensures { IfSome result (IsLive lines.now) }
{
    let line = lines.get(usize::from(place))?;
    if line.is_cut() {
        return None;
    }
    let report = line.report()?;
    match report.role {
        Some(Role::Primary) | Some(Role::Alone) => Some(Live { place, report }),
        _ => None,
    }
}

// The one of the later generation, or the one that has won it, or the first.
fn later_of(found: Option<Live>, other: Option<Live>) -> Option<Live>
    ensures { (result ≡ found) ⊎ (result ≡ other) }
{
    let Some(live) = found else {
        return other;
    };
    match other {
        Some(other) if is_later(&other.report, &live.report) => Some(other),
        _ => Some(live),
    }
}

// Whether a live host is of a later generation than another one, or has won the generation of both.
fn is_later(report: &Report, other: &Report) -> bool {
    let has_won = report.role == Some(Role::Alone) && other.role != Some(Role::Alone);
    report.generation > other.generation || report.generation == other.generation && has_won
}

//! The lines to all hosts, by their places.
ghost use Rattle.std.specs.Prelude.{◌≡◌, true, Some, None, [], slice_get};
ghost use Rattle.host_frames.specs.Frames.{said_by};
ghost use Rattle.outside_switch.specs.Heeds.{open_in};
ghost use Rattle.std.specs.List.{list_all};
ghost use Rattle.outside_switch.specs.Lines as table;
ghost use Rattle.outside_switch.specs.Lines.{is_other};

use crate::line::HostLine;
use host_frames::{Frame, Report};
use std::alloc::Global;

/// Sends a frame to the host at a place. Returns false if there is none, or if the frame is lost.
pub(crate) fn post(lines: &mut [HostLine], alloc: Global, place: u8, frame: &Frame<'_>) -> bool
    ensures { table.Posts place (said_by frame.now) result lines.old lines.new }
{
    let place = usize::from(place);
    if place >= lines.len() {
        return false;
    }
    lines[place].send(alloc, frame)
}

/// To whom a frame goes that is for no single host.
#[derive(Clone, Copy)]
pub(crate) enum Audience {
    All,
    /// Those that have reported. Nobody empties the ring of a place at which no host has come yet.
    Reported,
}

/// Sends a frame to the hosts at all places that it is for.
#[tactic(auto, using(crate::proofs::Lines::posted_none, crate::proofs::Lines::posted_more))]
pub(crate) fn post_all(lines: &mut [HostLine], alloc: Global, frame: &Frame<'_>, to: Audience)
    ensures { table.PostsAll (said_by frame.now) lines.old lines.new }
{
    for place in 0..=u8::MAX {
        if usize::from(place) >= lines.len() {
            break;
        }
        let _ = post_if(lines, alloc, place, frame, to);
    }
}

// Sends a frame to the host at a place, if it is for that one. Returns false if it is not, or if the frame is lost.
#[tactic(auto, using(crate::proofs::Lines::lines_same))]
fn post_if(
    lines: &mut [HostLine],
    alloc: Global,
    place: u8,
    frame: &Frame<'_>,
    to: Audience,
) -> bool
    ensures { table.Posts place (said_by frame.now) result lines.old lines.new }
{
    if let Audience::Reported = to {
        if !has_reported(lines, place) {
            return false;
        }
    }
    post(lines, alloc, place, frame)
}

// Whether the host at a place has reported.
fn has_reported(lines: &[HostLine], place: u8) -> bool {
    match lines.get(usize::from(place)) {
        Some(line) => line.report().is_some(),
        None => false,
    }
}

/// Keeps what the host at a place reports. Returns whether its role is another one.
pub(crate) fn keep(lines: &mut [HostLine], place: u8, report: &Report) -> bool
    ensures kept { table.AtPlace place (table.IsReported report.now) lines.old lines.new }
    ensures goes { table.LinesGo [] lines.old lines.new }
{
    let place = usize::from(place);
    if place >= lines.len() {
        return false;
    }
    lines[place].keep(report)
}

/// The next body from the host at a place.
pub(crate) fn next(lines: &mut [HostLine], place: u8) -> Option<Vec<u8>>
    ensures { table.HearsAt place result lines.old lines.new }
{
    let place = usize::from(place);
    if place >= lines.len() {
        return None;
    }
    lines[place].next()
}

/// Cuts off the host at a place.
pub(crate) fn close(lines: &mut [HostLine], place: u8)
    ensures { table.AtPlace place table.IsClosed lines.old lines.new }
{
    let place = usize::from(place);
    if place < lines.len() {
        lines[place].close();
    }
}

/// The host at a place is this one of the law from now on.
pub(crate) fn name(lines: &mut [HostLine], place: u8, number: u32)
    ensures { table.AtPlace place (table.IsNamed number) lines.old lines.new }
{
    let place = usize::from(place);
    if place < lines.len() {
        lines[place].name(number);
    }
}

/// Which host of the law is at a place.
pub(crate) fn number_at(lines: &[HostLine], place: u8) -> Option<u32>
    ensures { result ≡ table.number_at lines.now place }
{
    let place = usize::from(place);
    if place >= lines.len() {
        return None;
    }
    lines[place].number()
}

/// Whether this host of the law is at a place.
pub(crate) fn is_number(lines: &[HostLine], place: u8, number: u32) -> bool
    ensures { result ≡ true → table.number_at lines.now place ≡ Some number }
{
    match number_at(lines, place) {
        Some(other) => other == number,
        None => false,
    }
}

/// Whether a host is at a place that is not cut off.
pub(crate) fn is_open(lines: &[HostLine], place: u8) -> bool
    ensures { result ≡ open_in (slice_get lines.now place) }
{
    let place = usize::from(place);
    if place >= lines.len() {
        return false;
    }
    !lines[place].is_cut()
}

/// Whether the host at a place can be given to a generation, as the host of its number: it was already, or it is a spare
/// without a number, and the number was given to no other place.
pub(crate) fn may_be_given(lines: &[HostLine], generation: u32, place: u8) -> bool
    ensures { result ≡ true → table.MayBeGiven generation place lines.now }
{
    if is_number(lines, place, generation) {
        return true;
    }
    if !is_spare(lines, place) {
        return false;
    }
    is_free(lines, generation)
}

// Whether a spare without a number is at a place.
fn is_spare(lines: &[HostLine], place: u8) -> bool
    ensures { result ≡ true → table.number_at lines.now place ≡ None }
{
    let place = usize::from(place);
    if place >= lines.len() {
        return false;
    }
    lines[place].is_spare()
}

// Whether this number was given to no place.
fn is_free(lines: &[HostLine], number: u32) -> bool
    ensures { result ≡ list_all (λ line. is_other line.number number) lines.now }
{
    lines.iter().all(|line| is_other(line.number(), number))
}

// Whether this is another number, or none.
fn is_other(number: Option<u32>, other: u32) -> bool
    ensures { result ≡ is_other number other }
{
    match number {
        Some(number) => number != other,
        None => true,
    }
}

//! The ways of messages across a picture, and where on its own way a lost one may end without touching them.
ghost use Rattle.std.specs.Prelude.{◌≡◌};
ghost use Rattle.std.specs.List.{list_any};
ghost use Rattle.sequence_diagram.specs.Losses.{end_of_loss, is_free, is_near, touches, x_after, x_at};

use crate::flights::flight_to;
use crate::geometry::{Point, TURN, beside};
use crate::moment::Moment;
use crate::plan::Layout;
use std::alloc::{AllocError, Global};

// How far from a cross a way has to be, and a column.
const CLEAR: u64 = 8;

const ASIDE: u64 = 18;

// How much of its way a lost message makes, in hundredths: the first of these at which its cross touches nothing.
static REACHES: [u64; 7] = [90, 80, 70, 60, 50, 40, 30];

/// The last part of the way of a message that arrived, from where it turns down to where it came. Before that it is level, on the line
/// of the event that sent it.
#[derive(Clone, Copy)]
pub struct Way {
    pub from: Point,
    pub to: Point,
}

/// The last parts of the ways of all messages that arrived.
pub fn ways_of(alloc: Global, plan: &Layout, moments: &[Moment]) -> Result<Vec<Way>, AllocError> {
    let mut ways = Vec::new(alloc);
    for place in 0..moments.len() {
        if let Some(way) = way_to(plan, moments, place) {
            ways.push(way)?;
        }
    }
    Ok(ways)
}

// The last part of the way of the message that an event has brought.
fn way_to(plan: &Layout, moments: &[Moment], place: usize) -> Option<Way> {
    let flight = flight_to(moments, place)?;
    let to = Point {
        x: plan.x(flight.to),
        y: plan.y(place),
    };
    let from = Point {
        x: beside(to.x, plan.x(flight.from), TURN),
        y: plan.y(flight.sent),
    };
    Some(Way { from, to })
}

impl Way {
    // Whether it passes so near to a point that it would touch a cross there.
    fn touches(&self, at: Point) -> bool
        ensures { result ≡ touches at self.now }
    {
        let above = at.y.saturating_sub(CLEAR);
        let below = at.y.saturating_add(CLEAR);
        if below < self.from.y || self.to.y < above {
            return false;
        }
        let one = self.x_at(above);
        let other = self.x_at(below);
        let left = at.x.saturating_sub(CLEAR);
        let right = at.x.saturating_add(CLEAR);
        one.min(other) <= right && left <= one.max(other)
    }

    // How far right it is at a height, or at its end that is nearer to that height.
    fn x_at(&self, y: u64) -> u64
        ensures { result ≡ x_at self.now y }
    {
        let height = self.to.y.saturating_sub(self.from.y).max(1);
        let down = y.saturating_sub(self.from.y).min(height);
        let aside = self.from.x.abs_diff(self.to.x).saturating_mul(down) / height;
        if self.from.x < self.to.x {
            self.from.x.saturating_add(aside)
        } else {
            self.from.x.saturating_sub(aside)
        }
    }
}

/// How far right a lost message ends that leaves at a point for a column.
pub fn end_of_loss(plan: &Layout, ways: &[Way], from: Point, aim: u64) -> u64
    ensures { result ≡ end_of_loss plan.now.columns.places.items ways.now from aim }
{
    let mut rest: &[u64] = &REACHES;
    'reaches: while let [reach, after @ ..] = rest {
        let x = x_after(from.x, aim, *reach);
        if is_free(plan, ways, Point { x, y: from.y }) {
            return x;
        }
        rest = after;
    }
    x_after(from.x, aim, 80)
}

// How far right one is after so many hundredths of a way.
fn x_after(from: u64, aim: u64, hundredths: u64) -> u64
    ensures { result ≡ x_after from aim hundredths }
{
    let reach = from.abs_diff(aim).saturating_mul(hundredths) / 100;
    if from < aim {
        from.saturating_add(reach)
    } else {
        from.saturating_sub(reach)
    }
}

// Whether a cross touches no way and no column.
fn is_free(plan: &Layout, ways: &[Way], at: Point) -> bool
    ensures { result ≡ is_free plan.now.columns.places.items ways.now at }
{
    !touches_any(ways, at) && !is_at_column(plan, at.x)
}

// Whether one of some ways would touch a cross.
fn touches_any(ways: &[Way], at: Point) -> bool
    ensures { result ≡ list_any (touches at) ways.now }
{
    let mut rest = ways;
    'ways: while let [way, after @ ..] = rest {
        if way.touches(at) {
            return true;
        }
        rest = after;
    }
    false
}

// Whether a column is too near to a cross.
fn is_at_column(plan: &Layout, x: u64) -> bool
    ensures { result ≡ list_any (is_near plan.now.columns.places.items x) plan.now.columns.places.items }
{
    let mut rest = plan.columns.places.as_slice();
    'places: while let [place, after @ ..] = rest {
        if plan.x(*place).abs_diff(x) < ASIDE {
            return true;
        }
        rest = after;
    }
    false
}

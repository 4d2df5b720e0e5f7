//! The arrows of a picture, and what marks that output waits.

use crate::aims::aim_of;
use crate::arrows::departure_from;
use crate::bars::{Bar, bar_from};
use crate::drawing::Drawing;
use crate::exchanges::{Exchange, exchange_of};
use crate::flights::{Flight, flight_to};
use crate::folds::{keys_from, parts_from};
use crate::geometry::{Point, TURN, beside};
use crate::moment::Moment;
use crate::place::{Lifeline, sender_of};
use crate::plan::Layout;
use crate::runs::is_part;
use crate::ways::{Way, end_of_loss};
use std::alloc::AllocError;

// How far from the middle of its column an arrow begins and ends, and how far from it the mark of what waits is.
const EDGE: u64 = 7;

const WAITS: u64 = 11;

/// Draws the arrow of an exchange, or that of the message which an event has brought. Parts of a copy that are on one line have one
/// arrow, and so have keys.
pub fn draw_stroke(
    drawing: &mut Drawing,
    plan: &Layout,
    moments: &[Moment],
    place: usize,
) -> Result<(), AllocError> {
    let y = plan.y(place);
    if let Some(exchange) = exchange_at(plan, moments, place) {
        let from = (plan.x(exchange.from), y);
        return draw_arrow(drawing, "exchange", from, (plan.x(exchange.to), y));
    }
    if let Some(flight) = flight_at(plan, moments, place) {
        let class = if flight.is_again { "again" } else { "arrow" };
        let from = (plan.x(flight.from), plan.y(flight.sent));
        return draw_arrow(drawing, class, from, (plan.x(flight.to), y));
    }
    Ok(())
}

// The exchange that is drawn at an event.
fn exchange_at(plan: &Layout, moments: &[Moment], place: usize) -> Option<Exchange> {
    if !plan.lines.is_among_keys(moments, place) {
        return exchange_of(moments.get(place)?);
    }
    if plan.lines.begins(place) {
        return keys_from(moments, &plan.lines, place).exchange;
    }
    None
}

// The message whose arrow is drawn at an event.
fn flight_at(plan: &Layout, moments: &[Moment], place: usize) -> Option<Flight> {
    if !is_part(moments.get(place)?) {
        return flight_to(moments, place);
    }
    if plan.lines.begins(place) {
        return parts_from(moments, &plan.lines, place).flight;
    }
    None
}

/// Draws the beginning of the way of the message that an event has sent, if it is lost. Parts of a copy that are on one line have one
/// such, if none of them arrived.
pub fn draw_loss(
    drawing: &mut Drawing,
    plan: &Layout,
    moments: &[Moment],
    ways: &[Way],
    place: usize,
) -> Result<(), AllocError> {
    if !is_lost(plan, moments, place) {
        return Ok(());
    }
    let Some(moment) = moments.get(place) else {
        return Ok(());
    };
    let aim = aim_of(moments, place).unwrap_or(Lifeline::Arbiter);
    let from = Point {
        x: plan.x(sender_of(moment.event)),
        y: plan.y(place),
    };
    let end = Point {
        x: end_of_loss(plan, ways, from, plan.x(aim)),
        y: from.y,
    };
    let begin = Point {
        x: beside(from.x, end.x, EDGE),
        y: from.y,
    };
    drawing.line("lost", begin, end)?;
    drawing.cross(end)
}

// Whether an event has sent a message that never came, and that is drawn.
fn is_lost(plan: &Layout, moments: &[Moment], place: usize) -> bool {
    let (Some(moment), Some(departure)) = (moments.get(place), departure_from(moments, place))
    else {
        return false;
    };
    if departure.came.is_some() {
        return false;
    }
    if !is_part(moment) {
        return true;
    }
    plan.lines.begins(place) && parts_from(moments, &plan.lines, place).flight.is_none()
}

// An arrow between two columns, each with its height: level until it is near the second, so that it passes no words of other lines.
fn draw_arrow(
    drawing: &mut Drawing,
    class: &str,
    from: (u64, u64),
    to: (u64, u64),
) -> Result<(), AllocError> {
    let begin = Point {
        x: beside(from.0, to.0, EDGE),
        y: from.1,
    };
    let end = Point {
        x: beside(to.0, from.0, EDGE),
        y: to.1,
    };
    if begin.y == end.y {
        return drawing.line(class, begin, end);
    }
    let turn = Point {
        x: beside(to.0, from.0, TURN),
        y: from.1,
    };
    drawing.bent(class, begin, turn, end)
}

/// Marks where output waits, beside the line of its node.
pub fn draw_waits(drawing: &mut Drawing, plan: &Layout) -> Result<(), AllocError> {
    let waits = plan.waits.as_slice();
    for place in 0..waits.len() {
        if let Some(bar) = bar_from(waits, place) {
            draw_bar(drawing, plan, place, bar)?;
        }
    }
    Ok(())
}

// Marks that output waits, from an event on.
fn draw_bar(
    drawing: &mut Drawing,
    plan: &Layout,
    place: usize,
    bar: Bar,
) -> Result<(), AllocError> {
    let x = plan.x(Lifeline::Node(bar.node)).saturating_sub(WAITS);
    let bottom = match bar.end {
        Some(end) => plan.y(end),
        None => plan.bottom,
    };
    let from = Point {
        x,
        y: plan.y(place),
    };
    drawing.line("waits", from, Point { x, y: bottom })
}

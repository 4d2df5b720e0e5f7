//! What is said beside the arrows and lines of a picture.

use crate::aims::aim_of;
use crate::arrows::departure_from;
use crate::cargo::Carried;
use crate::drawing::{Drawing, TextSide};
use crate::exchanges::{Exchange, exchange_of};
use crate::flights::flight_to;
use crate::folds::{keys_from, parts_from};
use crate::geometry::{MIDDLE, Point, beside};
use crate::kept::KeptText;
use crate::marks::{count_width, draw_count, draw_waiting};
use crate::moment::Moment;
use crate::outcomes::OutcomeText;
use crate::place::{Lifeline, place_of, sender_of};
use crate::plan::Layout;
use crate::runs::is_part;
use crate::told::{Refused, ToldText, WhyText};
use pair_events::Event;
use std::alloc::AllocError;
use std::fmt;

// How far words are from the middle of a column, and how far from one beside which output may wait.
const NEAR: u64 = 12;

const FAR: u64 = 18;

// How far from the middle of the column that it leaves a message is named, so that arrows to there pass.
const LABEL: u64 = 40;

// How many letters of a refusal there is room for between two columns.
const ROOM: usize = 33;

/// Says what an event does, what it carries and what it results in. Events that share one arrow share the words.
pub fn draw_texts(
    drawing: &mut Drawing,
    plan: &Layout,
    moments: &[Moment],
    place: usize,
) -> Result<(), AllocError> {
    let Some(moment) = moments.get(place) else {
        return Ok(());
    };
    let is_copied = is_part(moment);
    if is_copied || plan.lines.is_among_keys(moments, place) {
        if !plan.lines.begins(place) {
            return Ok(());
        }
        return if is_copied {
            draw_parts(drawing, plan, moments, place)
        } else {
            draw_keys(drawing, plan, moments, place)
        };
    }
    draw_waiting(drawing, plan, moments, place)?;
    match exchange_of(moment) {
        Some(exchange) => draw_exchange(drawing, plan, moments, place, exchange),
        None => draw_message(drawing, plan, moments, place),
    }
}

// What passes at once, and the result.
fn draw_exchange(
    drawing: &mut Drawing,
    plan: &Layout,
    moments: &[Moment],
    place: usize,
    exchange: Exchange,
) -> Result<(), AllocError> {
    let way = (plan.x(exchange.from), plan.x(exchange.to));
    draw_label(drawing, way, plan.y(place), &ToldText { moments, place })?;
    draw_outcome(drawing, way, plan.y(place), moments, place)
}

// What the message that an event has brought results in, and what the one carries that it has sent; of another event what happens.
fn draw_message(
    drawing: &mut Drawing,
    plan: &Layout,
    moments: &[Moment],
    place: usize,
) -> Result<(), AllocError> {
    let flight = flight_to(moments, place);
    if let Some(flight) = flight {
        let way = (plan.x(flight.from), plan.x(flight.to));
        draw_outcome(drawing, way, plan.y(place), moments, place)?;
    }
    if departure_from(moments, place).is_some() {
        return draw_cargo(drawing, plan, moments, place);
    }
    if flight.is_some() {
        return Ok(());
    }
    draw_note(drawing, plan, moments, place)
}

// What the message carries that an event has sent.
fn draw_cargo(
    drawing: &mut Drawing,
    plan: &Layout,
    moments: &[Moment],
    place: usize,
) -> Result<(), AllocError> {
    let Some(moment) = moments.get(place) else {
        return Ok(());
    };
    let aim = aim_of(moments, place).unwrap_or(Lifeline::Arbiter);
    let way = (plan.x(sender_of(moment.event)), plan.x(aim));
    draw_label(drawing, way, plan.y(place), &Carried(*moment))
}

// What passes from one column to another, on the beginning of its arrow.
fn draw_label<D: fmt::Display>(
    drawing: &mut Drawing,
    way: (u64, u64),
    y: u64,
    words: &D,
) -> Result<(), AllocError> {
    let at = Point {
        x: beside(way.0, way.1, LABEL),
        y: y.saturating_add(MIDDLE),
    };
    drawing.label("label", at, side_of(way), words)
}

// On which side of a point words are that follow a way.
fn side_of(way: (u64, u64)) -> TextSide {
    if way.0 < way.1 {
        TextSide::Right
    } else {
        TextSide::Left
    }
}

// The result, beyond the end of its arrow.
fn draw_outcome(
    drawing: &mut Drawing,
    way: (u64, u64),
    y: u64,
    moments: &[Moment],
    place: usize,
) -> Result<(), AllocError> {
    let Some(moment) = moments.get(place) else {
        return Ok(());
    };
    let at = Point {
        x: beyond(way),
        y: y.saturating_add(MIDDLE),
    };
    let side = side_of(way);
    let class = if moment.answer.is_ok() {
        "outcome"
    } else {
        "refused"
    };
    match (moment.event, moment.answer) {
        (Event::Put { .. }, Ok(_)) => drawing.label(class, at, side, &KeptText { moments, place }),
        _ => drawing.label(class, at, side, &OutcomeText(*moment)),
    }
}

// Beyond the end of a way from one column to another.
fn beyond(way: (u64, u64)) -> u64 {
    let (from, to) = way;
    if from < to {
        to.saturating_add(NEAR)
    } else {
        to.saturating_sub(FAR)
    }
}

// What happens at one place, or is refused there.
fn draw_note(
    drawing: &mut Drawing,
    plan: &Layout,
    moments: &[Moment],
    place: usize,
) -> Result<(), AllocError> {
    let Some(moment) = moments.get(place) else {
        return Ok(());
    };
    let here = place_of(moment.event);
    let (x, y) = (plan.x(here), plan.y(place));
    if moment.answer.is_err() {
        let at = Point {
            x,
            y: y.saturating_add(MIDDLE),
        };
        return draw_refused(drawing, plan.is_last(here), at, Refused { moments, place });
    }
    let told = ToldText { moments, place };
    match here {
        Lifeline::Terminal(_) => draw_typed(drawing, Point { x, y }, told),
        _ => draw_done(drawing, moment, Point { x, y }, told),
    }
}

// What has happened at a terminal: left of it, where no arrow comes.
fn draw_typed(drawing: &mut Drawing, at: Point, told: ToldText<'_>) -> Result<(), AllocError> {
    let beside = Point {
        x: at.x.saturating_sub(FAR),
        y: at.y.saturating_add(MIDDLE),
    };
    drawing.label("note", beside, TextSide::Left, &told)
}

// What has happened, with the count of the machine, if it has run.
fn draw_done(
    drawing: &mut Drawing,
    moment: &Moment,
    at: Point,
    told: ToldText<'_>,
) -> Result<(), AllocError> {
    draw_count(drawing, moment, at)?;
    let aside = count_width(moment).unwrap_or(NEAR);
    let beside = Point {
        x: at.x.saturating_add(aside),
        y: at.y.saturating_add(MIDDLE),
    };
    drawing.label("note", beside, TextSide::Right, &told)
}

// What is refused, and why. It is left of the last column, since there is more room than right of it; and on both sides of a column,
// if it is too long for one.
fn draw_refused(
    drawing: &mut Drawing,
    is_last: bool,
    at: Point,
    refused: Refused<'_>,
) -> Result<(), AllocError> {
    let Refused { moments, place } = refused;
    let left = Point {
        x: at.x.saturating_sub(FAR),
        y: at.y,
    };
    let right = Point {
        x: at.x.saturating_add(NEAR),
        y: at.y,
    };
    if drawing.length(&refused)? > ROOM {
        drawing.label(
            "refused",
            left,
            TextSide::Left,
            &ToldText { moments, place },
        )?;
        return drawing.label(
            "refused",
            right,
            TextSide::Right,
            &WhyText { moments, place },
        );
    }
    if is_last {
        return drawing.label("refused", left, TextSide::Left, &refused);
    }
    drawing.label("refused", right, TextSide::Right, &refused)
}

// Keys that share a line.
fn draw_keys(
    drawing: &mut Drawing,
    plan: &Layout,
    moments: &[Moment],
    place: usize,
) -> Result<(), AllocError> {
    let keys = keys_from(moments, &plan.lines, place);
    let way = match keys.exchange {
        Some(exchange) => (plan.x(exchange.from), plan.x(exchange.to)),
        None => way_from(plan, moments, place),
    };
    draw_label(drawing, way, plan.y(place), &keys)
}

// Parts of a copy that share a line.
fn draw_parts(
    drawing: &mut Drawing,
    plan: &Layout,
    moments: &[Moment],
    place: usize,
) -> Result<(), AllocError> {
    let parts = parts_from(moments, &plan.lines, place);
    let way = match parts.flight {
        Some(flight) => (plan.x(flight.from), plan.x(flight.to)),
        None => way_from(plan, moments, place),
    };
    let y = plan.y(place);
    draw_label(drawing, way, y, &parts)?;
    if !parts.is_whole {
        return Ok(());
    }
    let at = Point {
        x: beyond(way),
        y: y.saturating_add(MIDDLE),
    };
    drawing.label("outcome", at, side_of(way), &"whole: the backup")
}

// From where an event happens to where what it sends should arrive.
fn way_from(plan: &Layout, moments: &[Moment], place: usize) -> (u64, u64) {
    let Some(moment) = moments.get(place) else {
        return (0, 0);
    };
    let aim = aim_of(moments, place).unwrap_or(Lifeline::Arbiter);
    (plan.x(place_of(moment.event)), plan.x(aim))
}

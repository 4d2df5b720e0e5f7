//! The count of a machine on the line of its node, and how much of its output waits beside it.
ghost use Rattle.std.specs.Prelude.{◌≡◌};
ghost use Rattle.sequence_diagram.specs.Marks.{is_news, look_after, told_wait};

use crate::bars::operations_before;
use crate::drawing::{Drawing, TextSide};
use crate::geometry::{MIDDLE, Point};
use crate::moment::{Moment, NodeLook};
use crate::place::Lifeline;
use crate::plan::Layout;
use crate::waits::OutputWait;
use pair_events::Reply;
use std::alloc::AllocError;

// How far from the middle of its column the number is that waits, if there is no count.
const BESIDE: u64 = 18;

// How wide a digit is in a count, and how far words are from its frame.
const DIGIT: u64 = 10;

const APART: u64 = 6;

/// How far words are from the middle of the column of a node, because of the count of its machine; none if it has not run.
pub fn count_width(moment: &Moment) -> Option<u64> {
    let look = look_after(moment)?;
    Some(half_of(look.count).saturating_add(APART))
}

// What a node shows whose machine has run.
fn look_after(moment: &Moment) -> Option<NodeLook>
    ensures { result ≡ look_after moment.now }
{
    match moment.answer {
        Ok(Reply::Ran { .. } | Reply::Moved { .. } | Reply::MovedAlone { .. }) => moment.look,
        _ => None,
    }
}

// How far the frame of a count goes to each side.
fn half_of(count: u64) -> u64 {
    let mut digits = 1u64;
    let mut rest = count / 10;
    for _ in 0..20 {
        if rest > 0 {
            rest /= 10;
            digits = digits.saturating_add(1);
        }
    }
    digits.saturating_mul(DIGIT) / 2 + 5
}

/// Draws the count of a machine that has run, in a frame on the line of its node.
pub fn draw_count(drawing: &mut Drawing, moment: &Moment, at: Point) -> Result<(), AllocError> {
    let Some(look) = look_after(moment) else {
        return Ok(());
    };
    let half = half_of(look.count);
    let from = Point {
        x: at.x.saturating_sub(half),
        y: at.y.saturating_sub(9),
    };
    let to = Point {
        x: at.x.saturating_add(half),
        y: at.y.saturating_add(9),
    };
    drawing.rect("number", from, to)?;
    let below = Point {
        x: at.x,
        y: at.y.saturating_add(MIDDLE),
    };
    drawing.words("count", below, TextSide::Middle, &look.count)
}

/// Says how many operations of a primary wait, if it has given one more, or an acknowledgement has covered some.
pub fn draw_waiting(
    drawing: &mut Drawing,
    plan: &Layout,
    moments: &[Moment],
    place: usize,
) -> Result<(), AllocError> {
    let Some(moment) = moments.get(place) else {
        return Ok(());
    };
    let Some(wait) = told_wait(plan.waits.as_slice(), moment, place) else {
        return Ok(());
    };
    let aside = count_width(moment).unwrap_or(BESIDE);
    let at = Point {
        x: plan.x(Lifeline::Node(wait.node)).saturating_sub(aside),
        y: plan.y(place).saturating_add(MIDDLE),
    };
    let operations = wait.operations;
    drawing.label(
        "waiting",
        at,
        TextSide::Left,
        &format_args!("waits: {operations}"),
    )
}

// What waits after an event, if that is told.
fn told_wait(waits: &[OutputWait], moment: &Moment, place: usize) -> Option<OutputWait>
    ensures { result ≡ told_wait waits.now moment.now place }
{
    let wait = waits.get(place)?;
    if is_news(moment) && operations_before(waits, place) != wait.operations {
        Some(*wait)
    } else {
        None
    }
}

// Whether an event may give an operation, or may cover some. At the others all is given up that waits.
fn is_news(moment: &Moment) -> bool
    ensures { result ≡ is_news moment.now.answer }
{
    matches!(moment.answer, Ok(Reply::Ran { .. } | Reply::Held { .. }))
}

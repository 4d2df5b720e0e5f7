//! A run as a picture: columns, arrows, what is said of them, and below it what the terminals have accepted.
ghost use Rattle.std.specs.Prelude.{IfOk, string_bytes};
ghost use Rattle.sequence_diagram.specs.Geometry.{width_of};
ghost use Rattle.sequence_diagram.specs.Plans.{height_over, width_in};
ghost use Rattle.sequence_diagram.specs.Svg.{HasSize, IsPicture};

use crate::drawing::{Drawing, TextSide};
use crate::geometry::{Point, WIDTH, picture_width};
use crate::legend::{LEGEND, STYLE, draw_legend};
use crate::lifelines::draw_columns;
use crate::moment::Moment;
use crate::place::Lifeline;
use crate::plan::Layout;
use crate::screens::{Accepted, accepted_in};
use crate::strokes::{draw_loss, draw_stroke, draw_waits};
use crate::texts::draw_texts;
use crate::ways::{Way, ways_of};
use std::alloc::{AllocError, Global};

// How high a line below the columns is.
const FOOT: u64 = 22;

/// The run as the text of an SVG file.
#[tactic(auto, using(crate::proofs::Sizing::is_picture))]
pub fn draw(alloc: Global, moments: &[Moment]) -> Result<String, AllocError>
    ensures { IfOk result (λ picture. IsPicture moments.now (string_bytes picture)) }
{
    let plan = Layout::of(alloc, moments)?;
    draw_plan(alloc, &plan, moments, STYLE)
}

// The run in a style.
fn draw_plan(
    alloc: Global,
    plan: &Layout,
    moments: &[Moment],
    style: &str,
) -> Result<String, AllocError>
    ensures { IfOk result (λ picture. HasSize (width_of (width_in plan.now.columns.places.items)) (height_over plan.now.bottom)
        (string_bytes picture)) }
{
    let width = picture_width(plan.width());
    let height = plan.bottom.saturating_add(FOOT * 2 + LEGEND);
    let mut drawing = Drawing::new(alloc);
    draw_page(&mut drawing, width, height)?;
    draw_run(alloc, &mut drawing, plan, moments)?;
    drawing.finish(alloc, width, height, style)
}

// Draws what is below everything.
fn draw_page(drawing: &mut Drawing, width: u64, height: u64) -> Result<(), AllocError> {
    let end = Point {
        x: width,
        y: height,
    };
    drawing.rect("page", Point { x: 0, y: 0 }, end)
}

// Draws all of it.
fn draw_run(
    alloc: Global,
    drawing: &mut Drawing,
    plan: &Layout,
    moments: &[Moment],
) -> Result<(), AllocError> {
    draw_columns(drawing, plan, moments)?;
    draw_waits(drawing, plan)?;
    draw_strokes(drawing, plan, moments)?;
    draw_losses(alloc, drawing, plan, moments)?;
    draw_words(drawing, plan, moments)?;
    draw_foot(alloc, drawing, plan, moments)
}

// Draws what has arrived.
fn draw_strokes(
    drawing: &mut Drawing,
    plan: &Layout,
    moments: &[Moment],
) -> Result<(), AllocError> {
    for place in 0..moments.len() {
        draw_stroke(drawing, plan, moments, place)?;
    }
    Ok(())
}

// Draws what is lost, beside what has arrived.
fn draw_losses(
    alloc: Global,
    drawing: &mut Drawing,
    plan: &Layout,
    moments: &[Moment],
) -> Result<(), AllocError> {
    let ways = ways_of(alloc, plan, moments)?;
    draw_lost(drawing, plan, moments, &ways)
}

fn draw_lost(
    drawing: &mut Drawing,
    plan: &Layout,
    moments: &[Moment],
    ways: &[Way],
) -> Result<(), AllocError> {
    for place in 0..moments.len() {
        draw_loss(drawing, plan, moments, ways, place)?;
    }
    Ok(())
}

fn draw_words(drawing: &mut Drawing, plan: &Layout, moments: &[Moment]) -> Result<(), AllocError> {
    for place in 0..moments.len() {
        draw_texts(drawing, plan, moments, place)?;
    }
    Ok(())
}

// Draws what is below the columns.
fn draw_foot(
    alloc: Global,
    drawing: &mut Drawing,
    plan: &Layout,
    moments: &[Moment],
) -> Result<(), AllocError> {
    let y = plan.bottom.saturating_add(FOOT);
    draw_screens(alloc, drawing, plan, moments, y)?;
    draw_legend(drawing, y.saturating_add(FOOT))
}

// Says what the terminals have accepted.
fn draw_screens(
    alloc: Global,
    drawing: &mut Drawing,
    plan: &Layout,
    moments: &[Moment],
    y: u64,
) -> Result<(), AllocError> {
    let mut x = 40u64;
    for place in plan.columns.places.as_slice() {
        if let Lifeline::Terminal(port) = *place {
            draw_screen(alloc, drawing, moments, port, Point { x, y })?;
            x = x.saturating_add(WIDTH / 2);
        }
    }
    Ok(())
}

// Says what a terminal has accepted.
fn draw_screen(
    alloc: Global,
    drawing: &mut Drawing,
    moments: &[Moment],
    port: u8,
    at: Point,
) -> Result<(), AllocError> {
    let bytes = accepted_in(alloc, moments, port)?;
    let bytes = &bytes;
    drawing.words("screen", at, TextSide::Right, &Accepted { port, bytes })
}

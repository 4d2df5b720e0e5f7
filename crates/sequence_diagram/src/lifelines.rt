//! The columns as they are drawn: their heads, and each node's line in the style of its role.
ghost use Rattle.std.specs.Prelude.{◌≡◌};
ghost use Rattle.sequence_diagram.specs.Marks.{class_of};
ghost use Rattle.sequence_diagram.specs.Places.{first_role};

use crate::drawing::{Drawing, TextSide};
use crate::geometry::Point;
use crate::moment::Moment;
use crate::place::Lifeline;
use crate::plan::Layout;
use pair_events::Role;
use std::alloc::AllocError;

// Where the heads end and the lines begin.
const HEAD: u64 = 50;

/// The role of a node before anything happens: nodes 0 and 1 are the first pair, and the others are spare hosts.
pub fn first_role(node: u64) -> Option<Role>
    ensures { result ≡ first_role node }
{
    match node {
        0 => Some(Role::Primary),
        1 => Some(Role::Backup),
        _ => None,
    }
}

/// Draws the heads and the lines of all columns.
pub fn draw_columns(
    drawing: &mut Drawing,
    plan: &Layout,
    moments: &[Moment],
) -> Result<(), AllocError> {
    for place in plan.columns.places.as_slice() {
        draw_column(drawing, plan, *place)?;
        if let Lifeline::Node(node) = *place {
            draw_roles(drawing, plan, node, moments)?;
        }
    }
    Ok(())
}

// Draws the head and the line of a column.
fn draw_column(drawing: &mut Drawing, plan: &Layout, place: Lifeline) -> Result<(), AllocError> {
    let x = plan.x(place);
    drawing.words("head", Point { x, y: 22 }, TextSide::Middle, &place)?;
    let end = Point { x, y: plan.bottom };
    drawing.line("rest", Point { x, y: HEAD }, end)
}

// Draws the line of a node, role by role.
fn draw_roles(
    drawing: &mut Drawing,
    plan: &Layout,
    node: u64,
    moments: &[Moment],
) -> Result<(), AllocError> {
    let x = plan.x(Lifeline::Node(node));
    let mut role = first_role(node);
    let mut begun = HEAD;
    draw_first_role(drawing, role, x)?;
    for (place, moment) in moments.iter().enumerate() {
        let next = moment.role_of(node);
        if next.is_some() && next != role {
            let y = plan.y(place);
            draw_band(drawing, role, Point { x, y: begun }, y)?;
            role = next;
            begun = y;
        }
    }
    draw_band(drawing, role, Point { x, y: begun }, plan.bottom)
}

// Says what a node is at first.
fn draw_first_role(drawing: &mut Drawing, role: Option<Role>, x: u64) -> Result<(), AllocError> {
    let at = Point { x, y: 42 };
    match &role {
        Some(role) => drawing.words("role", at, TextSide::Middle, role),
        None => drawing.words("role", at, TextSide::Middle, &"spare host"),
    }
}

/// Draws the line of a node in one role, down from a point.
pub fn draw_band(
    drawing: &mut Drawing,
    role: Option<Role>,
    from: Point,
    bottom: u64,
) -> Result<(), AllocError> {
    match role {
        None => Ok(()),
        Some(Role::Halted) => drawing.cross(from),
        Some(Role::Alone) => draw_alone(drawing, from, bottom),
        Some(role) => draw_bar(drawing, class_of(role), from, bottom),
    }
}

// The class of a bar, by the role of its node.
fn class_of(role: Role) -> &'static str
    ensures { result.now ≡ class_of role }
{
    match role {
        Role::Primary => "primary",
        Role::Backup => "backup",
        Role::Joining => "joining",
        Role::Draining => "draining",
        _ => "alone",
    }
}

fn draw_bar(
    drawing: &mut Drawing,
    class: &str,
    from: Point,
    bottom: u64,
) -> Result<(), AllocError> {
    let corner = Point {
        x: from.x.saturating_sub(5),
        y: from.y,
    };
    let end = Point {
        x: from.x.saturating_add(5),
        y: bottom,
    };
    drawing.rect(class, corner, end)
}

// The bar of a node that is alone has a stripe.
fn draw_alone(drawing: &mut Drawing, from: Point, bottom: u64) -> Result<(), AllocError> {
    draw_bar(drawing, "alone", from, bottom)?;
    let below = Point {
        x: from.x,
        y: bottom,
    };
    drawing.line("inside", from, below)
}

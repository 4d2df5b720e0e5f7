//! The style of a picture, and the legend below it.

use crate::drawing::{Drawing, TextSide};
use crate::geometry::Point;
use crate::lifelines::draw_band;
use pair_events::Role;
use std::alloc::AllocError;

/// How high the legend is.
pub const LEGEND: u64 = 48;

/// The classes of all elements. Each differs from the others without its colour too.
pub const STYLE: &str = "\
<defs>
<marker id=\"head\" viewBox=\"0 0 10 10\" refX=\"10\" refY=\"5\" markerWidth=\"8\" markerHeight=\"8\" orient=\"auto\">\
<path d=\"M0 1L10 5L0 9z\"/></marker>
<pattern id=\"hatch\" width=\"6\" height=\"6\" patternUnits=\"userSpaceOnUse\" patternTransform=\"rotate(45)\">\
<rect width=\"6\" height=\"6\" fill=\"#fff\"/><rect width=\"3\" height=\"6\" fill=\"#b45f06\"/></pattern>
</defs>
<style>
text{font:17px sans-serif;fill:#111;stroke:#fff;stroke-width:4px;stroke-linejoin:round;paint-order:stroke}
.head{font-size:18px;font-weight:bold}
.role,.count,.screen{font-size:15px}
.outcome{font-style:italic}
.refused{fill:#a61c00;font-weight:bold;font-size:15px}
.waiting{fill:#a61c00;font-size:15px}
.page{fill:#fff}
.rest{stroke:#999;stroke-dasharray:2 4}
.primary{fill:#1c4587;stroke:#1c4587}
.backup{fill:#fff;stroke:#1c4587;stroke-width:1.5}
.joining{fill:#fff;stroke:#1c4587;stroke-width:1.5;stroke-dasharray:3 3}
.draining{fill:url(#hatch);stroke:#b45f06}
.alone{fill:#38761d;stroke:#38761d}
.inside{stroke:#fff;stroke-width:3}
.arrow,.exchange,.again{fill:none}
.arrow,.exchange{stroke:#111;stroke-width:1.5;marker-end:url(#head)}
.exchange{stroke-dasharray:1 3;stroke-linecap:round}
.again{stroke:#111;stroke-width:1.5;stroke-dasharray:7 4;marker-end:url(#head)}
.lost{stroke:#111;stroke-width:1.5}
.cross{stroke:#a61c00;stroke-width:2.5;fill:none}
.waits{fill:none;stroke:#a61c00;stroke-width:3;stroke-dasharray:3 2}
.number{fill:#fff;stroke:#111}
</style>
";

// The roles of the legend.
static ROLES: [Role; 6] = [
    Role::Primary,
    Role::Backup,
    Role::Joining,
    Role::Draining,
    Role::Alone,
    Role::Halted,
];

// What its lines mean, by their class.
static MEANINGS: [(&str, &str); 5] = [
    ("arrow", "message"),
    ("again", "brought again"),
    ("lost", "lost"),
    ("exchange", "passes at once"),
    ("waits", "output waits"),
];

/// Draws the legend, from this height on.
pub fn draw_legend(drawing: &mut Drawing, top: u64) -> Result<(), AllocError> {
    draw_role_row(drawing, top)?;
    draw_line_row(drawing, top.saturating_add(36))
}

// Draws what the bars mean.
fn draw_role_row(drawing: &mut Drawing, y: u64) -> Result<(), AllocError> {
    let mut x = 40u64;
    for role in &ROLES {
        draw_role(drawing, *role, Point { x, y })?;
        x = x.saturating_add(110);
    }
    Ok(())
}

fn draw_role(drawing: &mut Drawing, role: Role, at: Point) -> Result<(), AllocError> {
    let begin = match role {
        Role::Halted => at.y.saturating_add(9),
        _ => at.y,
    };
    let from = Point { x: at.x, y: begin };
    draw_band(drawing, Some(role), from, at.y.saturating_add(18))?;
    let beside = Point {
        x: at.x.saturating_add(12),
        y: at.y.saturating_add(14),
    };
    drawing.words("role", beside, TextSide::Right, &role)
}

// Draws what the lines mean.
fn draw_line_row(drawing: &mut Drawing, y: u64) -> Result<(), AllocError> {
    let mut x = 40u64;
    for (class, meaning) in &MEANINGS {
        draw_line(drawing, class, meaning, Point { x, y })?;
        x = x
            .saturating_add((meaning.len() as u64).saturating_mul(8))
            .saturating_add(80);
    }
    Ok(())
}

fn draw_line(
    drawing: &mut Drawing,
    class: &str,
    meaning: &str,
    at: Point,
) -> Result<(), AllocError> {
    let end = Point {
        x: at.x.saturating_add(40),
        y: at.y,
    };
    drawing.line(class, at, end)?;
    if class == "lost" {
        drawing.cross(end)?;
    }
    let beside = Point {
        x: at.x.saturating_add(48),
        y: at.y.saturating_add(5),
    };
    drawing.words("role", beside, TextSide::Right, &meaning)
}

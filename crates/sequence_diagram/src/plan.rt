//! Where everything of a run is in its picture.
ghost use Rattle.std.specs.Prelude.{◌≡◌, ◌≤◌, IfOk};
ghost use Rattle.sequence_diagram.specs.Columns.{columns_of};
ghost use Rattle.sequence_diagram.specs.Lines.{AreLines};
ghost use Rattle.sequence_diagram.specs.Plans.{bottom_of, width_in, x_in, y_in};
ghost use Rattle.sequence_diagram.specs.Waits.{AreWaits};

use crate::columns::Columns;
use crate::geometry::{BOTTOM, MOST, column_x, line_y};
use crate::lines::{EventLines, lines_of};
use crate::moment::Moment;
use crate::place::Lifeline;
use crate::waits::{OutputWait, waits_of};
use std::alloc::{AllocError, Global};

/// Where everything is.
#[derive(Drop)]
pub struct Layout {
    pub columns: Columns,
    /// The line of each event.
    pub lines: EventLines,
    pub waits: Vec<OutputWait>,
    /// Where the columns end.
    pub bottom: u64,
}

impl Layout {
    /// Where everything of a run is.
    pub fn of(alloc: Global, moments: &[Moment]) -> Result<Layout, AllocError>
        ensures columns { IfOk result (λ plan. plan.columns.places.items ≡ columns_of moments.now) }
        ensures lines { IfOk result (λ plan. AreLines 0 moments.now plan.lines.of.items plan.lines.count) }
        ensures waits { IfOk result (λ plan. AreWaits moments.now plan.waits.items) }
        ensures bottom { IfOk result (λ plan. plan.bottom ≡ bottom_of plan.lines.count) }
    {
        let lines = lines_of(alloc, moments)?;
        Ok(Layout {
            columns: Columns::of(alloc, moments)?,
            waits: waits_of(alloc, moments)?,
            bottom: bottom_of(lines.count),
            lines,
        })
    }

    /// How many columns there are.
    pub fn width(&self) -> u64
        ensures exact { result ≡ width_in self.now.columns.places.items }
        ensures within { result ≤ MOST }
    {
        (self.columns.places.len() as u64).min(MOST)
    }

    /// Where the column of a place is.
    pub fn x(&self, place: Lifeline) -> u64
        ensures { result ≡ x_in self.now.columns.places.items place }
    {
        let column = self.columns.column(place) as u64;
        column_x(self.width(), column.min(MOST))
    }

    /// Whether the column of a place is the last one.
    pub fn is_last(&self, place: Lifeline) -> bool {
        self.columns.column(place).saturating_add(1) == self.columns.places.len()
    }

    /// Where the line of an event is, by its place in the run.
    pub fn y(&self, place: usize) -> u64
        ensures { result ≡ y_in self.now.lines.of.items place }
    {
        line_y((self.lines.line(place) as u64).min(MOST))
    }
}

// Where the columns end, below so many lines.
fn bottom_of(lines: usize) -> u64
    ensures { result ≡ bottom_of lines }
{
    let last = (lines as u64).saturating_sub(1);
    line_y(last.min(MOST)).saturating_add(BOTTOM)
}

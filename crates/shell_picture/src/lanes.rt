//! The columns of a picture in text.
ghost use Rattle.std.specs.Prelude.{◌≡◌, Some};
ghost use Rattle.std.specs.Fmt.{WritesOnOk};
ghost use Rattle.shell_picture.specs.Pictures.{IsDrawn, arrow_between, arrow_mark, column_rest, column_role, column_text, comes_from_left, goes_right, is_waiting, lanes_text, left_text, mark_text, rest_mark, right_text};

use crate::roles::role_after;
use pair_events::Role;
use sequence_diagram::{
    Columns, Lifeline, Moment, OutputWait, departure_from, exchange_of, flight_to, place_of,
    sender_of,
};
use std::fmt;

/// What is drawn in the columns: an arrow from one to another; or a mark in one, where a message leaves, or where
/// something happens that neither sends nor brings one.
#[derive(Clone, Copy)]
pub enum LaneMark {
    Arrow { from: usize, to: usize },
    Leaves { at: usize },
    Happens { at: usize },
}

/// What is drawn of an event.
#[tactic(auto, using(crate::proofs::Drawing::draws_nothing, crate::proofs::Drawing::draws_exchange, crate::proofs::Drawing::draws_flight, crate::proofs::Drawing::draws_mark))]
pub fn stroke_of(moments: &[Moment], columns: &Columns, event: usize) -> Option<LaneMark>
    ensures { IsDrawn moments.now columns.now.places.items event result }
{
    let moment = moments.get(event)?;
    if let Some(exchange) = exchange_of(moment) {
        return Some(arrow(columns, exchange.from, exchange.to));
    }
    if let Some(flight) = flight_to(moments, event) {
        return Some(arrow(columns, flight.from, flight.to));
    }
    if departure_from(moments, event).is_some() {
        let at = columns.column(sender_of(moment.event));
        return Some(LaneMark::Leaves { at });
    }
    let at = columns.column(place_of(moment.event));
    Some(LaneMark::Happens { at })
}

fn arrow(columns: &Columns, from: Lifeline, to: Lifeline) -> LaneMark
    ensures { result ≡ arrow_between columns.now.places.items from to }
{
    LaneMark::Arrow {
        from: columns.column(from),
        to: columns.column(to),
    }
}

/// The columns beside an event, of all that have happened.
#[derive(Clone, Copy)]
pub struct Lanes<'a> {
    pub stroke: Option<LaneMark>,
    pub columns: &'a Columns,
    pub moments: &'a [Moment],
    pub wait: Option<OutputWait>,
    pub event: usize,
}

impl fmt::Display for Lanes<'_> {
    ghost output = { λ lanes. Some (lanes_text lanes.moments.now lanes.columns.now.places.items lanes.event lanes.stroke lanes.wait) };

    fn fmt<W: fmt::Write>(&self, f: &mut fmt::Formatter<W>) -> fmt::Result {
        for column in 0..self.columns.places.len() {
            write_column(f, self.stroke, column, self.rest(column))?;
        }
        Ok(())
    }
}

impl Lanes<'_> {
    // The mark of a column at which nothing is drawn.
    fn rest(&self, column: usize) -> &'static str
        ensures { result.now ≡ column_rest self.now.moments.now self.now.columns.now.places.items self.now.event self.now.wait column }
    {
        rest_mark(
            self.role(column),
            is_waiting(self.columns, self.wait, column),
        )
    }

    // The role of a column after the event.
    fn role(&self, column: usize) -> Option<Role>
        ensures { result ≡ column_role self.now.moments.now self.now.columns.now.places.items self.now.event column }
    {
        match self.columns.places.get(column) {
            Some(place) => role_after(self.moments, self.event.saturating_add(1), *place),
            None => None,
        }
    }
}

// A column: what comes from its left, its mark, and what goes on to its right.
fn write_column<W: fmt::Write>(
    f: &mut fmt::Formatter<W>,
    stroke: Option<LaneMark>,
    column: usize,
    rest: &'static str,
) -> fmt::Result
    ensures { WritesOnOk W.write_str_gives f.old result (column_text stroke column rest.now) f.new }
{
    f.write_str(left_text(comes_from_left(stroke, column)))?;
    f.write_str(mark_text(stroke, column, rest))?;
    f.write_str(right_text(goes_right(stroke, column)))
}

fn left_text(is_drawn: bool) -> &'static str
    ensures { result.now ≡ left_text is_drawn }
{
    if is_drawn { "---" } else { "   " }
}

fn right_text(is_drawn: bool) -> &'static str
    ensures { result.now ≡ right_text is_drawn }
{
    if is_drawn { "--------" } else { "        " }
}

// The line of a column where nothing is drawn: of a node by its role, and of a primary by whether its output waits.
fn rest_mark(role: Option<Role>, waits: bool) -> &'static str
    ensures { result.now ≡ rest_mark role waits }
{
    match role {
        None | Some(Role::Halted) => " ",
        Some(Role::Backup) => ":",
        Some(Role::Joining) => ".",
        Some(Role::Primary) if waits => "#",
        Some(_) => "|",
    }
}

// Whether output of the node of a column waits.
fn is_waiting(columns: &Columns, wait: Option<OutputWait>, column: usize) -> bool
    ensures { result ≡ is_waiting columns.now.places.items wait column }
{
    match wait {
        Some(wait) => wait.operations > 0 && columns.column(Lifeline::Node(wait.node)) == column,
        None => false,
    }
}

// What is in the middle of a column.
fn mark_text(stroke: Option<LaneMark>, column: usize, rest: &'static str) -> &'static str
    ensures { result.now ≡ mark_text stroke column rest.now }
{
    match stroke {
        Some(LaneMark::Arrow { from, to }) => arrow_mark(from, to, column, rest),
        Some(LaneMark::Leaves { at }) if at == column => "o",
        Some(LaneMark::Happens { at }) if at == column => "*",
        _ => rest,
    }
}

// The same of an arrow: its head, where it begins, what it crosses, or the column's own line.
fn arrow_mark(from: usize, to: usize, column: usize, rest: &'static str) -> &'static str
    ensures { result.now ≡ arrow_mark from to column rest.now }
{
    if column == to && from < to {
        ">"
    } else if column == to && to < from {
        "<"
    } else if column == from {
        "o"
    } else if from.min(to) < column && column < from.max(to) {
        "-"
    } else {
        rest
    }
}

// Whether an arrow comes to a column from its left.
fn comes_from_left(stroke: Option<LaneMark>, column: usize) -> bool
    ensures { result ≡ comes_from_left stroke column }
{
    match stroke {
        Some(LaneMark::Arrow { from, to }) => from.min(to) < column && column <= from.max(to),
        _ => false,
    }
}

// Whether an arrow goes on to the right of a column.
fn goes_right(stroke: Option<LaneMark>, column: usize) -> bool
    ensures { result ≡ goes_right stroke column }
{
    match stroke {
        Some(LaneMark::Arrow { from, to }) => from.min(to) <= column && column < from.max(to),
        _ => false,
    }
}

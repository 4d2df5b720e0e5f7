//! Events as a diagram in text: a column for each place that takes part, a line for each event, and its words after that.
ghost use Rattle.std.specs.Prelude.{◌≡◌, ◌-◌, IfOk, Some, slice_get};
ghost use Rattle.std.specs.Fmt.{WritesOnOk};
ghost use Rattle.shell_picture.specs.Pictures.{DrawsPicture, PrintsEvent, PrintsEvents, end_shown, event_text, first_shown, number_text};

use crate::head::PictureHead;
use crate::lanes::{Lanes, stroke_of};
use crate::words::{Said, said_of};
use sequence_diagram::{Columns, Moment, OutputWait, waits_of};
use shell_language::{Printed, Stretch};
use std::alloc::{AllocError, Global};
use std::fmt;

// How many events are shown if a line does not say which.
const EVENTS: usize = 24;

/// Prints the events of a stretch, or the last ones, of all that have happened so far.
pub fn print_picture(
    alloc: Global,
    past: &[Moment],
    stretch: Option<Stretch>,
    printed: &mut Printed,
) -> Result<(), AllocError>
    ensures { IfOk result (λ _. DrawsPicture past.now stretch printed.old printed.new) }
{
    let columns = Columns::of(alloc, past)?;
    let waits = waits_of(alloc, past)?;
    let first = first_shown(stretch, past.len());
    let end = end_shown(stretch, past.len());
    printed.line(&PictureHead { columns: &columns })?;
    print_events(past, &columns, &waits, first, end, printed)
}

// The first event that is shown.
fn first_shown(stretch: Option<Stretch>, count: usize) -> usize
    ensures { result ≡ first_shown stretch count }
{
    match stretch {
        Some(stretch) => stretch.first as usize,
        None => count.saturating_sub(EVENTS),
    }
}

// The event after the last that is shown.
fn end_shown(stretch: Option<Stretch>, count: usize) -> usize
    ensures { result ≡ end_shown stretch count }
{
    match stretch {
        Some(stretch) => (stretch.last as usize).saturating_add(1).min(count),
        None => count,
    }
}

// Prints events, of all that have happened.
#[tactic(auto, using(crate::proofs::Rows::no_events))]
fn print_events(
    moments: &[Moment],
    columns: &Columns,
    waits: &[OutputWait],
    first: usize,
    end: usize,
    printed: &mut Printed,
) -> Result<(), AllocError>
    ensures { IfOk result (λ _. PrintsEvents moments.now columns.now.places.items waits.now first (end - first) printed.old printed.new) }
{
    for event in first..end {
        print_event(moments, columns, waits, event, printed)?;
    }
    Ok(())
}

// Prints one.
fn print_event(
    moments: &[Moment],
    columns: &Columns,
    waits: &[OutputWait],
    event: usize,
    printed: &mut Printed,
) -> Result<(), AllocError>
    ensures { IfOk result (λ _. PrintsEvent moments.now columns.now.places.items waits.now event printed.old printed.new) }
{
    let said = said_of(moments, waits, event);
    let lanes = Lanes {
        stroke: stroke_of(moments, columns, event),
        columns,
        moments,
        wait: wait_at(waits, event),
        event,
    };
    printed.line(&EventRow { lanes, said })?;
    Ok(())
}

// What waits after an event.
fn wait_at(waits: &[OutputWait], event: usize) -> Option<OutputWait>
    ensures { result ≡ slice_get waits.now event }
{
    waits.get(event).copied()
}

// The line of an event: its number, the columns beside it, and what is said of it.
#[derive(Clone, Copy)]
struct EventRow<'a> {
    lanes: Lanes<'a>,
    said: Said,
}

impl fmt::Display for EventRow<'_> {
    ghost output = { λ line. Some (event_text line.lanes.moments.now line.lanes.columns.now.places.items line.lanes.event
        line.lanes.stroke line.lanes.wait line.said) };

    fn fmt<W: fmt::Write>(&self, f: &mut fmt::Formatter<W>) -> fmt::Result {
        write_number(f, self.lanes.event)?;
        write!(f, " {}{}", self.lanes, self.said)
    }
}

// The number of an event, in six characters at least.
fn write_number<W: fmt::Write>(f: &mut fmt::Formatter<W>, event: usize) -> fmt::Result
    ensures { WritesOnOk W.write_str_gives f.old result (number_text event) f.new }
{
    write!(f, "{event:>6}")
}

//! The names of the columns of a picture in text.
ghost use Rattle.std.specs.Prelude.{◌≡◌, Some, slice_get};
ghost use Rattle.std.specs.Fmt.{WritesOnOk};
ghost use Rattle.shell_picture.specs.Pictures.{gap_at, gap_before, gap_text, head_text, name_at, name_of, names_text};

use sequence_diagram::{Columns, Lifeline};
use std::fmt::{self, Display};

/// The names of the columns.
#[derive(Clone, Copy)]
pub struct PictureHead<'a> {
    pub columns: &'a Columns,
}

impl Display for PictureHead<'_> {
    ghost output = { λ head. Some (head_text head.columns.now.places.items) };

    fn fmt<W: fmt::Write>(&self, f: &mut fmt::Formatter<W>) -> fmt::Result {
        f.write_str(" event ")?;
        write_names(f, self.columns.places.as_slice())
    }
}

// The names of places, each at its column.
fn write_names<W: fmt::Write>(f: &mut fmt::Formatter<W>, places: &[Lifeline]) -> fmt::Result
    ensures { WritesOnOk W.write_str_gives f.old result (names_text places.now) f.new }
{
    for column in 0..places.len() {
        write_name(f, places, column)?;
    }
    Ok(())
}

// The name of the place of a column, after the spaces that the name before it leaves.
fn write_name<W: fmt::Write>(
    f: &mut fmt::Formatter<W>,
    places: &[Lifeline],
    column: usize,
) -> fmt::Result
    ensures { WritesOnOk W.write_str_gives f.old result (name_at places.now column) f.new }
{
    f.write_str(gap_before(places, column))?;
    write_place(f, place_at(places, column))
}

// The name of a place, if there is one.
fn write_place<W: fmt::Write>(f: &mut fmt::Formatter<W>, place: Option<Lifeline>) -> fmt::Result
    ensures { WritesOnOk W.write_str_gives f.old result (name_of place) f.new }
{
    match place {
        Some(place) => place.fmt(f),
        None => Ok(()),
    }
}

// The place of a column.
fn place_at(places: &[Lifeline], column: usize) -> Option<Lifeline>
    ensures { result ≡ slice_get places.now column }
{
    places.get(column).copied()
}

// The spaces before the name of a column.
fn gap_before(places: &[Lifeline], column: usize) -> &'static str
    ensures { result.now ≡ gap_before places.now column }
{
    match column {
        0 => "",
        column => gap_at(places, column - 1),
    }
}

fn gap_at(places: &[Lifeline], column: usize) -> &'static str
    ensures { result.now ≡ gap_at places.now column }
{
    match place_at(places, column) {
        Some(place) => gap_text(place),
        None => "",
    }
}

// The spaces between a name and the next column, which begins twelve characters after it.
fn gap_text(place: Lifeline) -> &'static str
    ensures { result.now ≡ gap_text place }
{
    match place {
        Lifeline::Terminal(_) => "  ",
        Lifeline::Node(0..=9) => "      ",
        Lifeline::Node(_) | Lifeline::Arbiter => "     ",
        Lifeline::Disk => "        ",
    }
}

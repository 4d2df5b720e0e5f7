//! Where columns and lines are, in pixels.
ghost use Rattle.std.specs.Prelude.{◌≡◌, ◌+◌, ◌*◌, ◌<◌, ◌≤◌};
ghost use Rattle.sequence_diagram.specs.Geometry.{beside, gap_of, width_of, x_of, y_of};

/// The width of a picture of at most four columns, and the margins left of the first column and right of the last.
pub const WIDTH: u64 = 1600;

pub const LEFT: u64 = 264;

pub const RIGHT: u64 = 264;

/// How far two columns are apart, at least and at most.
pub const LEAST_GAP: u64 = 340;

pub const MOST_GAP: u64 = 360;

/// The first line, and how far two lines are apart.
pub const TOP: u64 = 66;

pub const LINE: u64 = 20;

/// The height below the last line.
pub const BOTTOM: u64 = 16;

/// How far below the middle of a line its letters stand.
pub const MIDDLE: u64 = 6;

/// How far from a column the arrows to it turn down that left on an earlier line.
pub const TURN: u64 = 44;

/// How many columns and lines there may be at most.
pub const MOST: u64 = 1_000_000_000;

/// A point of the picture, in pixels from its upper left corner.
#[derive(Clone, Copy)]
pub struct Point {
    pub x: u64,
    pub y: u64,
}

/// How far two of this many columns are apart.
pub fn column_gap(columns: u64) -> u64
    ensures exact { result ≡ gap_of columns }
    ensures within { result ≤ MOST_GAP }
{
    let gaps = columns.saturating_sub(1).max(1);
    let room = (WIDTH - (LEFT + RIGHT)) / gaps;
    room.min(MOST_GAP).max(LEAST_GAP)
}

/// How far a column, counted from 0, is from the left edge, in a picture of this many.
pub fn column_x(columns: u64, column: u64) -> u64
    requires { column ≤ MOST }
    ensures { result ≡ x_of columns column }
{
    LEFT + column_gap(columns) * column
}

/// How wide a picture of this many columns is.
pub fn picture_width(columns: u64) -> u64
    requires { columns ≤ MOST }
    ensures { result ≡ width_of columns }
{
    LEFT + column_gap(columns) * columns.saturating_sub(1) + RIGHT
}

/// How far a line, counted from 0, is from the top.
pub fn line_y(line: u64) -> u64
    requires { line ≤ MOST }
    ensures { result ≡ y_of line }
{
    TOP + LINE * line
}

/// A place beside a column, on the side of another column.
pub fn beside(x: u64, other: u64, distance: u64) -> u64
    ensures { result ≡ beside x other distance }
{
    if x < other {
        x.saturating_add(distance)
    } else {
        x.saturating_sub(distance)
    }
}

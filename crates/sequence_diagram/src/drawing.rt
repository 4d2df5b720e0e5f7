//! The elements of an SVG picture, one after another.
ghost use Rattle.std.specs.Prelude.{◌≡◌, ◌++◌, IfOk, OnOk, string_bytes};
ghost use Rattle.sequence_diagram.specs.Escapes.{escaped, escaped_all};
ghost use Rattle.sequence_diagram.specs.Svg.{head_text, svg_text};

use crate::geometry::Point;
use std::alloc::{AllocError, Global};
use std::fmt;

// How wide two letters are, and how far they go up and down from their line.
const LETTERS: u64 = 17;

const ABOVE: u64 = 14;

const BELOW: u64 = 4;

/// A picture as it is drawn.
#[derive(Drop)]
pub struct Drawing {
    text: String,
    // The last words alone, to be escaped.
    words: String,
}

/// On which side of its point a text is.
#[derive(Clone, Copy)]
pub enum TextSide {
    Left,
    Middle,
    Right,
}

impl TextSide {
    fn anchor(self) -> &'static str {
        match self {
            TextSide::Left => "end",
            TextSide::Middle => "middle",
            TextSide::Right => "start",
        }
    }
}

impl Drawing {
    /// A picture without elements.
    pub fn new(alloc: Global) -> Drawing {
        Drawing {
            text: String::new(alloc),
            words: String::new(alloc),
        }
    }

    /// The whole picture, as the text of an SVG file of this size in pixels, with this style.
    pub fn finish(
        &self,
        alloc: Global,
        width: u64,
        height: u64,
        style: &str,
    ) -> Result<String, AllocError>
        ensures { IfOk result (λ picture. string_bytes picture ≡ svg_text width height style.now (string_bytes self.now.text)) }
    {
        let mut picture = String::new(alloc);
        begin(&mut picture, width, height)?;
        picture.push_str(style)?;
        picture.push_str(&self.text)?;
        picture.push_str("</svg>\n")?;
        Ok(picture)
    }

    /// A line from one point to another.
    pub fn line(&mut self, class: &str, from: Point, to: Point) -> Result<(), AllocError> {
        writeln!(
            self.text,
            "<line class=\"{class}\" x1=\"{}\" y1=\"{}\" x2=\"{}\" y2=\"{}\"/>",
            from.x, from.y, to.x, to.y
        )
    }

    /// A line from one point to another that turns on its way.
    pub fn bent(
        &mut self,
        class: &str,
        from: Point,
        turn: Point,
        to: Point,
    ) -> Result<(), AllocError> {
        write!(self.text, "<path class=\"{class}\" d=\"")?;
        self.stroke(from, turn)?;
        writeln!(self.text, "L{} {}\"/>", to.x, to.y)
    }

    /// A rectangle from its upper left corner to its lower right one.
    pub fn rect(&mut self, class: &str, from: Point, to: Point) -> Result<(), AllocError> {
        let width = to.x.saturating_sub(from.x);
        let height = to.y.saturating_sub(from.y);
        writeln!(
            self.text,
            "<rect class=\"{class}\" x=\"{}\" y=\"{}\" width=\"{width}\" height=\"{height}\"/>",
            from.x, from.y
        )
    }

    /// A cross.
    pub fn cross(&mut self, at: Point) -> Result<(), AllocError> {
        let left = at.x.saturating_sub(5);
        let right = at.x.saturating_add(5);
        let above = at.y.saturating_sub(5);
        let below = at.y.saturating_add(5);
        self.text.push_str("<path class=\"cross\" d=\"")?;
        self.stroke(Point { x: left, y: above }, Point { x: right, y: below })?;
        self.stroke(Point { x: left, y: below }, Point { x: right, y: above })?;
        self.text.push_str("\"/>\n")
    }

    // A stroke of a path, from one point to another.
    fn stroke(&mut self, from: Point, to: Point) -> Result<(), AllocError> {
        write!(self.text, "M{} {}L{} {}", from.x, from.y, to.x, to.y)
    }

    /// How many letters words have.
    pub fn length<D: fmt::Display>(&mut self, words: &D) -> Result<usize, AllocError> {
        self.words.clear();
        write!(self.words, "{words}")?;
        Ok(self.words.len())
    }

    /// Words beside a point, or none.
    pub fn words<D: fmt::Display>(
        &mut self,
        class: &str,
        at: Point,
        side: TextSide,
        words: &D,
    ) -> Result<(), AllocError> {
        self.words.clear();
        write!(self.words, "{words}")?;
        if self.words.is_empty() {
            return Ok(());
        }
        self.tag(class, at, side)?;
        escape_all(&mut self.text, self.words.as_str())?;
        self.text.push_str("</text>\n")
    }

    /// Words beside a point, or none, on a ground that is theirs alone: no line that was drawn before runs through them.
    pub fn label<D: fmt::Display>(
        &mut self,
        class: &str,
        at: Point,
        side: TextSide,
        words: &D,
    ) -> Result<(), AllocError> {
        let letters = self.length(words)? as u64;
        if letters == 0 {
            return Ok(());
        }
        let width = letters.saturating_mul(LETTERS) / 2;
        let (left, right) = match side {
            TextSide::Left => (width, 0),
            TextSide::Middle => (width / 2, width / 2),
            TextSide::Right => (0, width),
        };
        let from = Point {
            x: at.x.saturating_sub(left),
            y: at.y.saturating_sub(ABOVE),
        };
        let to = Point {
            x: at.x.saturating_add(right),
            y: at.y.saturating_add(BELOW),
        };
        self.rect("page", from, to)?;
        self.words(class, at, side, words)
    }

    // The tag before words.
    fn tag(&mut self, class: &str, at: Point, side: TextSide) -> Result<(), AllocError> {
        write!(
            self.text,
            "<text class=\"{class}\" x=\"{}\" y=\"{}\" text-anchor=\"{}\">",
            at.x,
            at.y,
            side.anchor()
        )
    }
}

// Begins the text of a picture.
fn begin(text: &mut String, width: u64, height: u64) -> Result<(), AllocError>
    ensures { OnOk result (string_bytes text.new ≡ string_bytes text.old ++ head_text width height) }
{
    writeln!(
        text,
        "<svg xmlns=\"http://www.w3.org/2000/svg\" viewBox=\"0 0 {width} {height}\" width=\"{width}\" height=\"{height}\">"
    )
}

// Appends letters as they are written between two tags.
#[tactic(auto, using(std::proofs::lemmas::List::flat_map_more))]
fn escape_all(text: &mut String, words: &str) -> Result<(), AllocError>
    ensures { OnOk result (string_bytes text.new ≡ string_bytes text.old ++ escaped_all words.now) }
{
    for letter in words.chars() {
        escape(text, letter)?;
    }
    Ok(())
}

// Appends a letter as it is written between two tags.
fn escape(text: &mut String, letter: char) -> Result<(), AllocError>
    ensures { OnOk result (string_bytes text.new ≡ string_bytes text.old ++ escaped letter) }
{
    match letter {
        '&' => text.push_str("&amp;"),
        '<' => text.push_str("&lt;"),
        '>' => text.push_str("&gt;"),
        other => text.push(other),
    }
}

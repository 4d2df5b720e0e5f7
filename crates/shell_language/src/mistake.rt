//! What is wrong with a line, in the words that the shell prints after `? `.

ghost use Rattle.std.specs.Prelude.{◌≡◌, ◌++◌, Some};
ghost use Rattle.std.specs.Fmt.{WritesOnOk};
ghost use Rattle.shell_language.specs.Forms.{shape_of, word_of};
ghost use Rattle.shell_language.specs.Mistakes.{Detached, Late, Misfit, Missing, OneTooMany, Surplus, TooLong, Unknown, Unprintable, flaw_of, flaw_text, gives_way, is_one_too_many, is_out_of_range, more_text, usage_text};

use crate::form::Form;
use crate::kind::Kind;
use crate::loading::RecordMistake;
use crate::shown::ShownWord;
use pair_events::Hexadecimal;
use std::fmt::{self, Display};

/// How many bytes a line may have, without its end.
pub const LINE_BYTES: usize = 65_536;

// A text that does not end, or has a backslash before another character.
const TEXT: &str =
    "the text ends with a quote, and a backslash is followed by r, n, a quote or a backslash";

// Bytes past the end of memory, or too many for a sector.
const RANGE: &str = "memory ends at FFFF, and a sector has 137 bytes";

/// What is wrong with a line. Words are counted from 1.
#[derive(Clone, Copy)]
pub enum Mistake<'a> {
    /// The line is longer than a line may be.
    TooLong,
    /// A byte that is not printable, at this place, from 1.
    Unprintable {
        place: usize,
        byte: u8,
    },
    /// The line has spaces alone.
    Blank,
    /// No line begins with this word.
    Unknown {
        word: &'a [u8],
    },
    /// The line ends before this word.
    Missing {
        place: usize,
        form: &'static Form,
        kind: Kind,
    },
    /// The word at this place is of another kind.
    Wrong {
        place: usize,
        word: &'a [u8],
        form: &'static Form,
        kind: Kind,
    },
    /// There is a word after the last.
    OneTooMany {
        place: usize,
        word: &'a [u8],
        form: &'static Form,
    },
    /// There is a byte after so many.
    Surplus {
        place: usize,
        word: &'a [u8],
        form: &'static Form,
        most: u32,
    },
    /// The text does not end with a quote, or has a backslash before another character.
    Text {
        form: &'static Form,
    },
    /// Each word fits, and not all of them together: bytes past address FFFF, or more bytes than a sector has.
    Range {
        form: &'static Form,
    },
    /// A record of Intel HEX is wrong.
    Record(RecordMistake),
    /// A setup line, and the pair has booted.
    Late {
        line: &'a [u8],
    },
    /// A sector of the setup is on a drive that is not attached.
    Detached {
        drive: u8,
        track: u8,
        sector: u8,
    },
}

impl Mistake<'_> {
    // Whether this is that there is a word too many, and the other that it is out of a number's range.
    pub(crate) fn gives_way(self, other: Mistake<'_>) -> bool
        ensures { result ≡ gives_way (flaw_of self.entry) (flaw_of other.entry) }
    {
        self.is_one_too_many() && other.is_out_of_range()
    }

    fn is_one_too_many(self) -> bool
        ensures { result ≡ is_one_too_many (flaw_of self.entry) }
    {
        matches!(self, Mistake::OneTooMany { .. })
    }

    fn is_out_of_range(self) -> bool
        ensures { result ≡ is_out_of_range (flaw_of self.entry) }
    {
        match self {
            Mistake::Wrong { kind, .. } => kind.is_range(),
            _ => false,
        }
    }
}

impl fmt::Display for Mistake<'_> {
    ghost output = { λ mistake. Some (flaw_text (flaw_of mistake)) };

    fn fmt<W: fmt::Write>(&self, f: &mut fmt::Formatter<W>) -> fmt::Result {
        match *self {
            Mistake::TooLong => write_too_long(f),
            Mistake::Unprintable { place, byte } => write_unprintable(f, place, byte),
            Mistake::Blank => f.write_str("the line has spaces alone; `help` lists the lines"),
            Mistake::Unknown { word } => write_unknown(f, word),
            Mistake::Missing { place, form, kind } => write_missing(f, place, form, kind),
            Mistake::Wrong {
                place,
                word,
                form,
                kind,
            } => write_wrong(f, place, word, form, kind),
            other => write_more(f, other),
        }
    }
}

// A line in which there is too much, or that is not what its words say.
fn write_more<W: fmt::Write>(f: &mut fmt::Formatter<W>, mistake: Mistake<'_>) -> fmt::Result
    ensures { WritesOnOk W.write_str_gives f.old result (more_text (flaw_of mistake.entry)) f.new }
{
    match mistake {
        Mistake::OneTooMany { place, word, form } => write_too_many(f, place, word, form),
        Mistake::Surplus {
            place,
            word,
            form,
            most,
        } => write_surplus(f, place, word, form, most),
        Mistake::Text { form } => write_words(f, TEXT, form),
        Mistake::Range { form } => write_words(f, RANGE, form),
        Mistake::Record(mistake) => mistake.fmt(f),
        Mistake::Late { line } => write_late(f, line),
        Mistake::Detached {
            drive,
            track,
            sector,
        } => write_detached(f, drive, track, sector),
        _ => Ok(()),
    }
}

fn write_too_long<W: fmt::Write>(f: &mut fmt::Formatter<W>) -> fmt::Result
    ensures { WritesOnOk W.write_str_gives f.old result (flaw_text TooLong) f.new }
{
    write!(f, "the line has more than {LINE_BYTES} bytes")
}

fn write_unknown<W: fmt::Write>(f: &mut fmt::Formatter<W>, word: &[u8]) -> fmt::Result
    ensures { WritesOnOk W.write_str_gives f.old result (flaw_text (Unknown word.now)) f.new }
{
    ShownWord(word).fmt(f)?;
    f.write_str(" begins no line; `help` lists the lines")
}

fn write_unprintable<W: fmt::Write>(
    f: &mut fmt::Formatter<W>,
    place: usize,
    byte: u8,
) -> fmt::Result
    ensures { WritesOnOk W.write_str_gives f.old result (flaw_text (Unprintable place byte)) f.new }
{
    let byte = Hexadecimal(byte);
    write!(
        f,
        "byte {place} of the line is {byte}: a line is printable ASCII"
    )
}

fn write_missing<W: fmt::Write>(
    f: &mut fmt::Formatter<W>,
    place: usize,
    form: &Form,
    kind: Kind,
) -> fmt::Result
    ensures { WritesOnOk W.write_str_gives f.old result
        (flaw_text (Missing place (shape_of form.now) (word_of kind))) f.new }
{
    let usage = form.usage;
    write!(f, "word {place} is missing: {kind}; the line is `{usage}`")
}

fn write_wrong<W: fmt::Write>(
    f: &mut fmt::Formatter<W>,
    place: usize,
    word: &[u8],
    form: &Form,
    kind: Kind,
) -> fmt::Result
    ensures { WritesOnOk W.write_str_gives f.old result
        (flaw_text (Misfit place word.now (shape_of form.now) (word_of kind))) f.new }
{
    let word = ShownWord(word);
    write!(f, "word {place} is {word}: {kind} is expected")?;
    write_usage(f, form)
}

fn write_too_many<W: fmt::Write>(
    f: &mut fmt::Formatter<W>,
    place: usize,
    word: &[u8],
    form: &Form,
) -> fmt::Result
    ensures { WritesOnOk W.write_str_gives f.old result
        (flaw_text (OneTooMany place word.now (shape_of form.now))) f.new }
{
    let word = ShownWord(word);
    write!(f, "word {place}, {word}, is one too many")?;
    write_usage(f, form)
}

fn write_surplus<W: fmt::Write>(
    f: &mut fmt::Formatter<W>,
    place: usize,
    word: &[u8],
    form: &Form,
    most: u32,
) -> fmt::Result
    ensures { WritesOnOk W.write_str_gives f.old result
        (flaw_text (Surplus place word.now (shape_of form.now) most)) f.new }
{
    let word = ShownWord(word);
    write!(
        f,
        "word {place}, {word}, is one too many: at most {most} bytes are expected"
    )?;
    write_usage(f, form)
}

// Words, and how lines of this form are written.
fn write_words<W: fmt::Write>(f: &mut fmt::Formatter<W>, words: &str, form: &Form) -> fmt::Result
    ensures { WritesOnOk W.write_str_gives f.old result (words.now ++ usage_text (shape_of form.now)) f.new }
{
    f.write_str(words)?;
    write_usage(f, form)
}

// How lines of this form are written.
fn write_usage<W: fmt::Write>(f: &mut fmt::Formatter<W>, form: &Form) -> fmt::Result
    ensures { WritesOnOk W.write_str_gives f.old result (usage_text (shape_of form.now)) f.new }
{
    let usage = form.usage;
    write!(f, "; the line is `{usage}`")
}

// A line of the setup that comes too late.
fn write_late<W: fmt::Write>(f: &mut fmt::Formatter<W>, line: &[u8]) -> fmt::Result
    ensures { WritesOnOk W.write_str_gives f.old result (flaw_text (Late line.now)) f.new }
{
    write!(
        f,
        "{} is a line of the setup, and the pair has booted: it boots at the first event or query",
        ShownWord(line)
    )
}

// A sector that comes too early.
fn write_detached<W: fmt::Write>(
    f: &mut fmt::Formatter<W>,
    drive: u8,
    track: u8,
    sector: u8,
) -> fmt::Result
    ensures { WritesOnOk W.write_str_gives f.old result (flaw_text (Detached drive track sector)) f.new }
{
    write!(
        f,
        "sector {drive} {track} {sector} is on a drive that is not attached; `drives N` comes first"
    )
}

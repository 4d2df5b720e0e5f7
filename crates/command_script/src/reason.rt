//! Why a line of a script is bad, in words: those of the shell for a line that is wrong there too.
ghost use Rattle.std.specs.Prelude.{◌≡◌, Some, map};
ghost use Rattle.std.specs.Fmt.{WritesOnOk};
ghost use Rattle.std.specs.Option.{option_map};
ghost use Rattle.command_script.specs.Reasons.{detached_text, form_in, is_own, is_sector, misfit_text, reason_text, record_word, sector_more, sector_text, unknown_text, usage_in, why_bad, why_misfit};
ghost use Rattle.shell_language.specs.Forms.{shape_of, shapes, word_of};
ghost use Rattle.shell_language.specs.Mistakes.{flaw_of};

use script_language::{Keyword, SCRIPT_BYTES, Words};
use shell_language::{Form, Kind, Mistake, ShownWord, forms, mistake_in};
use std::fmt;

/// Why a line is bad.
#[derive(Clone, Copy)]
pub(crate) enum Reason<'a> {
    /// The line has the byte after the last that a script may have.
    Size,
    /// The line has spaces alone.
    Spaces,
    /// No line begins with this word.
    Unknown { word: &'a [u8] },
    /// Lines of this form are lines of the shell alone.
    OfShell { usage: &'static str },
    /// A sector on this drive, of which so many are attached.
    Detached { drive: &'a [u8], drives: u8 },
    /// What the shell says.
    Words(Mistake<'a>),
}

// A sector in a script has one byte alone, where the shell takes several.
static SECTOR: Form = Form {
    word: "sector",
    kinds: &[
        Kind::Within(0, 3),
        Kind::Within(0, 76),
        Kind::Within(0, 31),
        Kind::Byte,
    ],
    usage: "sector D T S HH",
    meaning: "setup: 137 times this byte",
};

// How many words a sector's line has.
const SECTOR_WORDS: usize = 5;

/// Why a line is bad that has this text, if so many drives are attached in the end, and an event or a query came before
/// it or not.
pub(crate) fn reason_of(text: &[u8], has_begun: bool, drives: u8) -> Reason<'_>
    ensures { reason_text result ≡ why_bad text.now has_begun drives }
{
    let mut words = Words::of(text);
    let Some(word) = words.next() else {
        return Reason::Spaces;
    };
    let Some(keyword) = Keyword::of(word) else {
        return unknown(word);
    };
    if has_begun {
        if keyword.is_setup() {
            return Reason::Words(Mistake::Late { line: text });
        }
    }
    misfit(keyword, text, &mut words, drives)
}

// A word that begins no line of a script.
fn unknown(word: &[u8]) -> Reason<'_>
    ensures { reason_text result ≡ unknown_text word.now }
{
    match usage_of(record_word(word)) {
        Some(usage) => Reason::OfShell { usage },
        None => Reason::Unknown { word },
    }
}

// Lines that begin with a colon are records, which the shell takes.
fn record_word(word: &[u8]) -> &[u8]
    ensures { result.now ≡ record_word word.now }
{
    match word {
        [b':', ..] => b"load",
        _ => word,
    }
}

// How the first form of the shell with this word is written.
#[tactic(auto, using(crate::proofs::Reasons::usage_of_all))]
fn usage_of(word: &[u8]) -> Option<&'static str>
    ensures { option_map (λ usage. usage.now) result ≡ usage_in shapes word.now }
{
    usage_among(forms(), word)
}

// The same of these forms.
fn usage_among(forms: &'static [Form], word: &[u8]) -> Option<&'static str>
    ensures { option_map (λ usage. usage.now) result ≡ usage_in (map shape_of forms.now) word.now }
{
    let mut rest = forms;
    'forms: while let [form, after @ ..] = rest {
        if form.word.as_bytes() == word {
            return Some(form.usage);
        }
        rest = after;
    }
    None
}

// A line that does not fit its form; these are the words after its keyword.
fn misfit<'a>(keyword: Keyword, text: &'a [u8], words: &mut Words<'a>, drives: u8) -> Reason<'a>
    ensures { reason_text result ≡ why_misfit keyword text.now words.old drives }
{
    if is_sector(keyword) {
        return in_sector(mistake_in(text), words, drives);
    }
    in_script(mistake_in(text))
}

fn is_sector(keyword: Keyword) -> bool
    ensures { result ≡ is_sector keyword }
{
    matches!(keyword, Keyword::Sector)
}

// What the shell says of a line, unless the line follows a form that scripts do not have.
fn in_script(mistake: Mistake<'_>) -> Reason<'_>
    ensures { reason_text result ≡ misfit_text (flaw_of mistake.entry) }
{
    let Some(form) = form_in(mistake) else {
        return Reason::Words(mistake);
    };
    if is_own(form.last_kind()) {
        return Reason::OfShell { usage: form.usage };
    }
    Reason::Words(mistake)
}

// The form that a line does not fit, if it does not fit one word by word.
fn form_in(mistake: Mistake<'_>) -> Option<&'static Form>
    ensures { option_map (λ form. shape_of form.now) result ≡ form_in (flaw_of mistake.entry) }
{
    match mistake {
        Mistake::Missing { form, .. } => Some(form),
        Mistake::Wrong { form, .. } => Some(form),
        Mistake::OneTooMany { form, .. } => Some(form),
        Mistake::Text { form } => Some(form),
        _ => None,
    }
}

// Whether scripts have no lines with this last word.
fn is_own(last: Option<Kind>) -> bool
    ensures { result ≡ is_own (option_map word_of last) }
{
    match last {
        Some(Kind::Text) => true,
        Some(Kind::Exactly(word)) => word == "all",
        _ => false,
    }
}

// What is wrong with a sector; these are the words after the first.
fn in_sector<'a>(mistake: Mistake<'a>, words: &mut Words<'a>, drives: u8) -> Reason<'a>
    ensures { reason_text result ≡ sector_text (flaw_of mistake.entry) words.old drives }
{
    let form = &SECTOR;
    match mistake {
        Mistake::Missing { place, kind, .. } => {
            Reason::Words(Mistake::Missing { place, form, kind })
        }
        Mistake::Wrong {
            place,
            word,
            kind,
            ..
        } => {
            if place > SECTOR_WORDS {
                return more_words(words, drives);
            }
            Reason::Words(Mistake::Wrong {
                place,
                word,
                form,
                kind,
            })
        }
        _ => more_words(words, drives),
    }
}

// A sector whose first words fit: there is one word more, or its drive is not attached.
fn more_words<'a>(words: &mut Words<'a>, drives: u8) -> Reason<'a>
    ensures { reason_text result ≡ sector_more words.old drives }
{
    let Some(drive) = words.next() else {
        return Reason::Detached { drive: &[], drives };
    };
    let detached = Reason::Detached { drive, drives };
    let Some(_track) = words.next() else {
        return detached;
    };
    let Some(_sector) = words.next() else {
        return detached;
    };
    let Some(_byte) = words.next() else {
        return detached;
    };
    match words.next() {
        Some(word) => Reason::Words(Mistake::OneTooMany {
            place: SECTOR_WORDS + 1,
            word,
            form: &SECTOR,
        }),
        None => detached,
    }
}

impl fmt::Display for Reason<'_> {
    ghost output = { λ reason. Some (reason_text reason) };

    fn fmt<W: fmt::Write>(&self, f: &mut fmt::Formatter<W>) -> fmt::Result {
        match *self {
            Reason::Size => write!(
                f,
                "the script has more than {SCRIPT_BYTES} bytes, and the first that is too many is in this line"
            ),
            Reason::Spaces => f.write_str("the line has spaces alone"),
            Reason::Unknown { word } => write!(f, "{} begins no line of a script", ShownWord(word)),
            Reason::OfShell { usage } => {
                write!(f, "`{usage}` is a line of the shell, and of no script")
            }
            Reason::Detached { drive, drives } => write_detached(f, drive, drives),
            Reason::Words(mistake) => write!(f, "{mistake}"),
        }
    }
}

fn write_detached<W: fmt::Write>(f: &mut fmt::Formatter<W>, drive: &[u8], drives: u8) -> fmt::Result
    ensures { WritesOnOk W.write_str_gives f.old result (detached_text drive.now drives) f.new }
{
    let drive = ShownWord(drive);
    write!(
        f,
        "word 2 is {drive}: a drive below {drives} is expected; `drives N` attaches more"
    )
}

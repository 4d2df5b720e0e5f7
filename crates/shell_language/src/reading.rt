//! How a line is read.
ghost use Rattle.std.specs.Prelude.{◌≡◌, ◌<◌, Err, length};
ghost use Rattle.std.specs.Result.{result_ok};
ghost use Rattle.script_language.specs.Words.{bytes_of, words_of};
ghost use Rattle.shell_language.specs.Lines.{load_by, load_of, own_by, own_line};
ghost use Rattle.shell_language.specs.Saying.{are_printable, fill_sector, other_line, said, script_by, script_line, setup_line, text_said};
ghost use Rattle.script_language.specs.declared.keyword.Keyword.TheVariants as keyword;
ghost use Rattle.shell_language.specs.declared.mistake.Mistake.TheVariants as mistake;

use crate::form::mistake_in;
use crate::line::ShellLine;
use crate::loading::read_record;
use crate::mistake::{LINE_BYTES, Mistake};
use crate::own::OwnWord;
use crate::own_lines::{own_line, sector_address, type_text};
use disk_dcdd::SECTOR_BYTES;
use script_language::{Keyword, Line, Words, byte_of};

/// What a line says, without its LF and a CR before that. A line that says nothing is told what is wrong with it.
pub fn read_line(text: &[u8]) -> Result<ShellLine<'_>, Mistake<'_>>
    ensures said { result_ok result ≡ said text.now }
    ensures long { 65536 < length text.now → result ≡ Err mistake.TooLong }
{
    if text.len() > LINE_BYTES {
        return Err(Mistake::TooLong);
    }
    match text {
        [] | [b'#', ..] => Ok(ShellLine::Empty),
        _ => read_text(text),
    }
}

// What a line says that is neither empty nor a comment.
fn read_text(text: &[u8]) -> Result<ShellLine<'_>, Mistake<'_>>
    ensures { result_ok result ≡ text_said text.now }
{
    if !are_printable(text) {
        return Err(unprintable(text));
    }
    match script_line(text) {
        Some(line) => Ok(line),
        None => other_line(text),
    }
}

// Whether all bytes are printable.
fn are_printable(text: &[u8]) -> bool
    ensures { result ≡ are_printable text.now }
{
    text.iter().all(|byte| 0x20 <= *byte && *byte <= 0x7e)
}

// The first byte that is not printable.
fn unprintable(text: &[u8]) -> Mistake<'_> {
    for (place, byte) in text.iter().enumerate() {
        if *byte < 0x20 || *byte > 0x7e {
            let place = place.saturating_add(1);
            return Mistake::Unprintable { place, byte: *byte };
        }
    }
    Mistake::Blank
}

// A line of the script language.
fn script_line(text: &[u8]) -> Option<ShellLine<'_>>
    ensures { result ≡ script_line (words_of text.now) }
{
    let mut words = Words::of(text);
    let word = words.next()?;
    let keyword = Keyword::of(word)?;
    if keyword.is_setup() {
        return setup_line(keyword, &mut words);
    }
    match Line::read(keyword, &mut words)? {
        Line::Event(event) => Some(ShellLine::Event(event)),
        Line::Query(query) => Some(ShellLine::Query(query)),
    }
}

// A line of the setup.
fn setup_line<'a>(keyword: Keyword, words: &mut Words<'a>) -> Option<ShellLine<'a>>
    ensures { result ≡ setup_line keyword words.old }
{
    match keyword {
        Keyword::Sector => set_sector(words),
        _ => {
            let words = words.again();
            Some(ShellLine::Setup { keyword, words })
        }
    }
}

// A sector at boot.
fn set_sector<'a>(words: &mut Words<'a>) -> Option<ShellLine<'a>>
    ensures { result ≡ setup_line keyword.Sector words.old }
{
    let sector = sector_address(words)?;
    let bytes = words.again();
    if fill_sector(words) {
        return Some(ShellLine::SetSector { sector, bytes });
    }
    None
}

// Whether some words are from 1 to 137 bytes.
#[tactic(auto, using(crate::proofs::Filling::fitting))]
fn fill_sector(words: &mut Words<'_>) -> bool
    ensures { result ≡ fill_sector (bytes_of words.old) }
{
    let mut count = 0usize;
    'bytes: while let Some(word) = words.next() {
        if count == SECTOR_BYTES || byte_of(word).is_none() {
            return false;
        }
        count += 1;
    }
    0 < count
}

// A line that scripts do not have.
fn other_line(text: &[u8]) -> Result<ShellLine<'_>, Mistake<'_>>
    ensures { result_ok result ≡ other_line text.now }
{
    match text {
        [b':', ..] => load(text),
        _ => line_of_words(text),
    }
}

// A record of Intel HEX.
fn load(text: &[u8]) -> Result<ShellLine<'_>, Mistake<'_>>
    ensures { result_ok result ≡ load_of text.now }
{
    match read_record(text) {
        Ok(record) => Ok(ShellLine::Load(record)),
        Err(mistake) => Err(Mistake::Record(mistake)),
    }
}

// A line that begins with a word of the shell.
fn line_of_words(text: &[u8]) -> Result<ShellLine<'_>, Mistake<'_>>
    ensures { result_ok result ≡ own_line (words_of text.now) text.now }
{
    let mut words = Words::of(text);
    let Some(word) = words.next() else {
        return Err(Mistake::Blank);
    };
    let Some(own) = OwnWord::of(word) else {
        return Err(mistake_in(text));
    };
    let line = match own {
        OwnWord::Load => return load_word(text, &mut words),
        OwnWord::Type => type_text(text),
        _ => own_line(own, &mut words),
    };
    match line {
        Some(line) => Ok(line),
        None => Err(mistake_in(text)),
    }
}

// A record of Intel HEX after the word `load`.
fn load_word<'a>(text: &'a [u8], words: &mut Words<'a>) -> Result<ShellLine<'a>, Mistake<'a>>
    ensures { result_ok result ≡ load_by words.old }
{
    let Some(record) = words.next() else {
        return Err(mistake_in(text));
    };
    if words.end().is_none() {
        return Err(mistake_in(text));
    }
    match record {
        [b':', ..] => load(record),
        _ => Err(mistake_in(text)),
    }
}

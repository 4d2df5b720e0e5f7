//! The lines that scripts do not have.
ghost use Rattle.std.specs.Prelude.{◌≡◌, ◌≤◌, length};
ghost use Rattle.std.specs.List.{position_or_len};
ghost use Rattle.script_language.specs.Words.{found, whole, words_of};
ghost use Rattle.shell_language.specs.Lines.{all, address, helped, is_quote, own_of, pictured, port_in, quoted_in, run_by, screen_by, shown_of, switch, typed_in};

use crate::line::{Loss, ShellLine, Stretch, Turns};
use crate::look::look_line;
use crate::own::OwnWord;
use crate::quoted::Quoted;
use disk_dcdd::SectorAddress;
use script_language::Words;

/// The line that the words after its first one make; none if they make none, or if it is not made of words alone.
pub fn own_line<'a>(own: OwnWord, words: &mut Words<'a>) -> Option<ShellLine<'a>>
    ensures { result ≡ whole (own_of own) words.old }
{
    let line = line_of(own, words)?;
    words.end()?;
    Some(line)
}

// The line that some words begin with.
fn line_of<'a>(own: OwnWord, words: &mut Words<'a>) -> Option<ShellLine<'a>>
    ensures { own_of own words.old ≡ found result words.new }
{
    match own {
        OwnWord::Send => {
            let node = words.number()?;
            all(words, ShellLine::SendAll { node })
        }
        OwnWord::Log => {
            let node = words.number()?;
            all(words, ShellLine::LogAll { node })
        }
        OwnWord::SendPart => {
            let node = words.number()?;
            all(words, ShellLine::SendPartAll { node })
        }
        OwnWord::Part => {
            let node = words.number()?;
            all(words, ShellLine::PartAll { node })
        }
        OwnWord::Arrive => all(words, ShellLine::ArriveAll),
        OwnWord::Run => {
            let node = words.number()?;
            let turns = words.number()?;
            run(node, turns, words)
        }
        other => line_shown(other, words),
    }
}

// One that shows something of the pair, or is about the session.
fn line_shown<'a>(own: OwnWord, words: &mut Words<'a>) -> Option<ShellLine<'a>>
    ensures { shown_of own words.old ≡ found result words.new }
{
    match own {
        OwnWord::Screen => {
            let port = words.small_number()?;
            screen(port, words)
        }
        OwnWord::Sector => {
            let sector = sector_address(words)?;
            Some(ShellLine::Sector(sector))
        }
        OwnWord::Rest => Some(ShellLine::Rest),
        OwnWord::Why => Some(ShellLine::Why),
        OwnWord::Last => Some(ShellLine::Last),
        OwnWord::Check => Some(ShellLine::Check),
        OwnWord::Picture => picture(words),
        OwnWord::Trace => trace(words),
        OwnWord::Help => help(words),
        OwnWord::Quit => Some(ShellLine::Quit),
        other => look_line(other, words),
    }
}

// The line, if the next word is `all`.
fn all<'a>(words: &mut Words<'a>, line: ShellLine<'a>) -> Option<ShellLine<'a>>
    ensures { all line.entry words.old ≡ found result words.new }
{
    let word = words.next()?;
    if word == b"all".as_slice() {
        return Some(line);
    }
    None
}

// Turns of a node, on a link that may lose messages.
fn run<'a>(node: u64, turns: u64, words: &mut Words<'a>) -> Option<ShellLine<'a>>
    ensures { run_by node turns words.old ≡ found result words.new }
{
    let Some(word) = words.next() else {
        let loss = None;
        return Some(ShellLine::Run(Turns { node, turns, loss }));
    };
    if word == b"loss".as_slice() {
        let percent = words.number_within(0, 100)?;
        let seed = words.number()?;
        let loss = Some(Loss { percent, seed });
        return Some(ShellLine::Run(Turns { node, turns, loss }));
    }
    None
}

// What a terminal has accepted, all of it or what is new.
fn screen<'a>(port: u8, words: &mut Words<'a>) -> Option<ShellLine<'a>>
    ensures { screen_by port words.old ≡ found result words.new }
{
    let Some(word) = words.next() else {
        let is_new = false;
        return Some(ShellLine::Screen { port, is_new });
    };
    if word == b"new".as_slice() {
        let is_new = true;
        return Some(ShellLine::Screen { port, is_new });
    }
    None
}

// The list of all lines, or that of all refusals.
fn help<'a>(words: &mut Words<'a>) -> Option<ShellLine<'a>>
    ensures { helped words.old ≡ found result words.new }
{
    let Some(word) = words.next() else {
        return Some(ShellLine::Help);
    };
    if word == b"refusals".as_slice() {
        return Some(ShellLine::Refusals);
    }
    None
}

fn trace<'a>(words: &mut Words<'a>) -> Option<ShellLine<'a>>
    ensures { switch words.old ≡ found result words.new }
{
    let word = words.next()?;
    if word == b"on".as_slice() {
        return Some(ShellLine::Trace(true));
    }
    if word == b"off".as_slice() {
        return Some(ShellLine::Trace(false));
    }
    None
}

// Events as a diagram: a stretch of them, if numbers follow.
fn picture<'a>(words: &mut Words<'a>) -> Option<ShellLine<'a>>
    ensures { pictured words.old ≡ found result words.new }
{
    if words.again().next().is_none() {
        return Some(ShellLine::Picture(None));
    }
    let first = words.number()?;
    let last = words.number()?;
    Some(ShellLine::Picture(Some(Stretch { first, last })))
}

/// Takes a drive, a track and a sector.
pub fn sector_address(words: &mut Words<'_>) -> Option<SectorAddress>
    ensures { address words.old ≡ found result words.new }
{
    let drive = words.number_within(0, 3)?;
    let track = words.number_within(0, 76)?;
    let sector = words.number_within(0, 31)?;
    Some(SectorAddress {
        drive,
        track,
        sector,
    })
}

/// Text in quotes at a port.
pub fn type_text(line: &[u8]) -> Option<ShellLine<'_>>
    ensures { result ≡ typed_in line.now }
{
    let (before, quoted) = line.split_at(before_quote(line));
    let port = port(before)?;
    let text = text(quoted)?;
    Some(ShellLine::TypeText { port, text })
}

// The port, after the first of some words.
fn port(line: &[u8]) -> Option<u8>
    ensures { result ≡ port_in (words_of line.now) }
{
    let mut words = Words::of(line);
    let _word = words.next()?;
    let port = words.small_number()?;
    words.end()?;
    Some(port)
}

// The text after a quote.
fn text(line: &[u8]) -> Option<Quoted<'_>>
    ensures { result ≡ quoted_in line.now }
{
    match line {
        [_, text @ ..] => Quoted::of(text),
        [] => None,
    }
}

// How many bytes are before the first quote.
fn before_quote(text: &[u8]) -> usize
    ensures within { result ≤ length text.now }
    ensures exact { result ≡ position_or_len is_quote text.now }
{
    text.iter().take_while(|byte| **byte != b'"').count()
}

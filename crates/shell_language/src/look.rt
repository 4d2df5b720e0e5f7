//! What a line looks at in the machine of a node.
ghost use Rattle.std.specs.Prelude.{◌≡◌, ◌≤◌, IfSome};
ghost use Rattle.script_language.specs.Grammar.{says};
ghost use Rattle.script_language.specs.Words.{found};
ghost use Rattle.shell_language.specs.Looks.{look_of, many, span_of};

use crate::line::ShellLine;
use crate::own::OwnWord;
use script_language::Words;

/// So many bytes or instructions, from an address on.
#[derive(Clone, Copy)]
pub struct Span {
    pub from: u16,
    pub count: u16,
}

/// What is seen of a machine.
#[derive(Clone, Copy)]
pub enum View {
    /// Its registers.
    Registers,
    /// Bytes of its memory.
    Memory(Span),
    /// Bytes of its memory, as instructions.
    Listing(Span),
}

/// A look at the machine of a node, as it is now.
#[derive(Clone, Copy)]
pub struct Look {
    pub node: u64,
    pub view: View,
}

/// The line of a word that looks at a machine, and of the words after it; none if the word is another.
pub fn look_line<'a>(own: OwnWord, words: &mut Words<'a>) -> Option<ShellLine<'a>>
    ensures { look_of own words.old ≡ found result words.new }
{
    match own {
        OwnWord::Registers => {
            let node = words.number()?;
            let view = View::Registers;
            Some(ShellLine::Look(Look { node, view }))
        }
        OwnWord::Memory => {
            let node = words.number()?;
            let view = View::Memory(span_in(words, 16, 256)?);
            Some(ShellLine::Look(Look { node, view }))
        }
        OwnWord::Listing => {
            let node = words.number()?;
            let view = View::Listing(span_in(words, 8, 64)?);
            Some(ShellLine::Look(Look { node, view }))
        }
        _ => None,
    }
}

// An address, and how many from there on.
fn span_in(words: &mut Words<'_>, usual: u16, greatest: u16) -> Option<Span>
    ensures { span_of usual greatest words.old ≡ found result words.new }
{
    let from = words.address()?;
    let count = count(words, usual, greatest)?;
    Some(Span { from, count })
}

// A number from 1 to the greatest; the usual one if there is no word more.
fn count(words: &mut Words<'_>, usual: u16, greatest: u16) -> Option<u16>
    ensures { many usual greatest says words.old ≡ found result words.new }
{
    if words.again().next().is_none() {
        return Some(usual);
    }
    let number = words.number()?;
    if 1 <= number && number <= u64::from(greatest) {
        Some(number as u16)
    } else {
        None
    }
}

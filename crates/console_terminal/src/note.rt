//! What is said at a console beside what the guest writes.
ghost use Rattle.std.specs.Prelude.{◌++◌, OnOk, codes};
ghost use Rattle.std.specs.Io.KnownBytes.{Appends};
ghost use Rattle.console_terminal.specs.Editing.{redrawn_text};
ghost use Rattle.console_terminal.specs.Screen.{on_a_line, text_of};
ghost use Rattle.console_terminal.specs.declared.note.DisplayNote as DisplayNote;

use crate::command::Mistake;
use crate::completing::write_words;
use crate::port::Port;
use crate::redraw::{Redraw, write_redraw};
use std::io::{self, Write};

/// What becomes of the command line, and what is said to it.
#[derive(Drop)]
pub enum DisplayNote {
    /// It is opened: from then on the screen holds still.
    Opened,
    /// It is edited: this is written, so that it is shown as it is now.
    Redraws(Redraw),
    /// The commands that begin as the line does are listed, and it is shown again, as this writes it.
    Lists(Redraw),
    Mistaken(Mistake),
    /// What a command answers; lines in it have CR LF between them, and none after the last.
    Answered(String),
    /// It is closed, and one looks at the terminal of this port.
    Closed(Port),
}

// Writes what is said.
pub(crate) fn write_note<W: Write>(writer: &mut W, note: &DisplayNote) -> io::Result<()>
    ensures { OnOk result (Appends (W.contents writer.old) (W.contents writer.new) (text_of note.now)) }
{
    match note {
        DisplayNote::Opened => writer.write_all(b"\r\npair> "),
        DisplayNote::Redraws(redraw) => write_redraw(writer, redraw),
        DisplayNote::Lists(redraw) => write_list(writer, redraw),
        DisplayNote::Mistaken(mistake) => write_line(writer, mistake.text()),
        DisplayNote::Answered(text) => write_line(writer, text.as_str()),
        DisplayNote::Closed(_) => writer.write_all(b"\r\n"),
    }
}

// Writes the commands that begin as a line does, and then the line.
#[tactic(auto, using(crate::proofs::Bytes::appends_both))]
fn write_list<W: Write>(writer: &mut W, redraw: &Redraw) -> io::Result<()>
    ensures { OnOk result (Appends (W.contents writer.old) (W.contents writer.new) (text_of (DisplayNote.Lists redraw.now))) }
{
    writer.write_all(b"\r\n")?;
    write_words(writer, redraw.text.as_slice())?;
    write_again(writer, redraw)
}

#[tactic(auto, using(crate::proofs::Bytes::appends_both))]
fn write_again<W: Write>(writer: &mut W, redraw: &Redraw) -> io::Result<()>
    ensures { OnOk result (Appends (W.contents writer.old) (W.contents writer.new) (on_a_line (codes "pair> ") ++ redrawn_text redraw.now)) }
{
    writer.write_all(b"\r\npair> ")?;
    write_redraw(writer, redraw)
}

// Writes a text at the begin of a line.
#[tactic(auto, using(crate::proofs::Bytes::appends_both))]
fn write_line<W: Write>(writer: &mut W, text: &str) -> io::Result<()>
    ensures { OnOk result (Appends (W.contents writer.old) (W.contents writer.new) (on_a_line text.now)) }
{
    writer.write_all(b"\r\n")?;
    writer.write_all(text.as_bytes())
}

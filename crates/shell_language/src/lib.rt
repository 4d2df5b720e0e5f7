//! The lines of the shell: those of the script language, and those that a person needs besides; and what the shell keeps of a pair: the
//! setup before it boots, the messages that were sent, how far each port has come, the tape of a line, and what is printed of it.
#![tactic(auto)]

mod book;
mod faults;
mod form;
mod held_up;
mod kind;
mod line;
mod loading;
mod look;
mod mistake;
mod noting;
mod opening;
mod outcome;
mod own;
mod own_lines;
mod printing;
mod quoted;
mod reading;
mod shown;
mod spelled;
mod tape;

pub use book::{Book, Brings, Letter, OutstandingOutput, PortNotes};
pub use faults::{Worded, refusals};
pub use form::{Form, forms, mistake_in};
pub use held_up::{Meeting, holds_up, meeting_of};
pub use kind::Kind;
pub use line::{Loss, ShellLine, Stretch, Turns};
pub use loading::{HexRecord, RecordMistake, read_record};
pub use look::{Look, Span, View};
pub use mistake::{LINE_BYTES, Mistake};
pub use opening::SessionSetup;
pub use outcome::{LineOutcome, refuse};
pub use printing::Printed;
pub use quoted::Quoted;
pub use reading::read_line;
pub use shown::{Address, Printable, ShownWord};
pub use spelled::Spelled;
pub use tape::Played;

//! The indexes in the log of the marks of outstanding operations, and what else each waits for.
ghost use Rattle.std.specs.Prelude.{◌≡◌};
ghost use Rattle.output_rule.specs.Notes as table;

use arrayvec::ArrayVec;
use event_callbacks::OpId;

/// The most operations that have notes: sixteen bytes of each port, eight writes, and the one that the next step may give.
pub const PLACES: usize = 41;

/// The name of an operation, the index of its mark in the log, and how many entries the backup must have replayed.
#[derive(Clone, Copy)]
pub struct Note {
    pub id: OpId,
    pub index: u64,
    pub after: u64,
}

// What is in the places that hold no note.
impl Default for Note {
    ghost is_default = { λ note. note ≡ table.blank };

    fn default() -> Note {
        Note {
            id: OpId::Write(0),
            index: 0,
            after: 0,
        }
    }
}

// The note of this operation, if it has one.
pub(crate) fn note_of(notes: &[Note], id: OpId) -> Option<Note>
    ensures { result ≡ table.note_in notes.now id }
{
    for note in notes {
        if is_same_name(note.id, id) {
            return Some(*note);
        }
    }
    None
}

// How many entries must be replayed for what is noted at an index.
pub(crate) fn after_at(notes: &[Note], index: u64) -> u64
    ensures { result ≡ table.after_at notes.now index }
{
    for note in notes {
        if note.index == index {
            return note.after;
        }
    }
    0
}

// Removes the note of this operation.
pub(crate) fn remove_note(notes: &mut ArrayVec<Note, PLACES>, id: OpId)
    ensures { notes.new.items ≡ table.without_note notes.old.items id }
{
    notes.retain(|note| !is_same_name(note.id, id));
}

// Whether two names are equal.
fn is_same_name(one: OpId, other: OpId) -> bool
    ensures { result ≡ table.same_name one other }
{
    match (one, other) {
        (OpId::Byte(port, number), OpId::Byte(other_port, other_number)) => {
            port == other_port && number == other_number
        }
        (OpId::Write(number), OpId::Write(other_number)) => number == other_number,
        _ => false,
    }
}

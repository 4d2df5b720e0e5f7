//! The guest of a primary, with the entry that its last move gave and the operations that are outstanding.

mod moves;

use event_callbacks::OpId;
use log_entry::Entry;

/// A guest that moves by itself and by inputs.
#[derive(Drop)]
pub(crate) struct Recording<B> {
    pub(crate) board: B,
    /// The entry of its last move, if it is not in the list yet.
    pub(crate) waiting: Option<Entry>,
    /// The names of the operations that are outstanding, oldest first.
    pub(crate) given: Vec<OpId>,
    /// Whether it waits for an input.
    pub(crate) idle: bool,
}

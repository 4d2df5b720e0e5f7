//! The guest of a backup, with the list whose entries it repeats.
ghost use Rattle.std.specs.Prelude.{◌≤◌, length};

mod moves;

use log_entry::Entry;

/// A guest that repeats the entries of a list, one after another.
#[derive(Drop)]
pub(crate) struct Repeater<B> {
    pub(crate) list: Vec<Entry>,
    pub(crate) board: B,
    // How many entries it has repeated.
    pub(crate) replayed: usize,
    ghost within: { replayed ≤ length list.items },
}

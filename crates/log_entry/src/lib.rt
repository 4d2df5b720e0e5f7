//! One entry of the log: its input and its count, and its one spelling in bytes.
#![tactic(auto)]

mod entry;
mod fields;
mod laws;
mod numbers;
mod spelling;

pub use entry::Entry;
pub use laws::{entries_keep_the_inputs, entries_spell_one_way, entries_stand_in_order};
pub use numbers::{generation_at, number_at, spelled_number};
pub use spelling::size;

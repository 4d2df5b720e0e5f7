//! The output rule: an operation is released only when the backup has acknowledged the log up to its mark.
#![tactic(auto)]

mod coverage;
mod keys;
mod laws;
mod notes;

pub use coverage::Coverage;
pub use laws::{
    coverage_never_falls, limits, notes_are_as_few_as_operations, notes_come_and_go,
    told_keys_are_acknowledged,
};
pub use notes::{Note, PLACES};

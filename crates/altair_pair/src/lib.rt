//! A pair of Altairs as a setup says: how it boots, what queries find in it, what a picture is told of it after an event, and whether
//! it has done what one never-failing machine does, by a run of the single machine.
#![tactic(auto)]

mod beginning;
mod checking;
mod disk;
mod judging;
mod laws;
mod pairs;
mod queries;
mod telling;
mod verdict;

pub use checking::compare;
pub use disk::sector_of;
pub use judging::{WINDOW, is_all_but, may_have, never_fall};
pub use laws::faithful_pairs_are_alike;
pub use pairs::{Altairs, boot, writes_of};
pub use queries::find;
pub use telling::moment_of;
pub use verdict::Verdict;

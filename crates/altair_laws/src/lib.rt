//! The Altair of every setup: it is a machine that a pair may run, its image is a copy that a pair may use, and what holds of pairs
//! and of processes whose guests are Altairs. No code.
#![tactic(auto)]

mod copies;
mod hosts;
mod laws;
mod progress;

pub use copies::{
    altairs_may_be_copied, copied_pairs_are_faithful, joining_altairs_are_given, the_image_copies,
};
pub use hosts::altair_hosts_are_faithful;
pub use laws::{
    altair_pairs_are_faithful, altairs_are_lawful, altairs_stay_on_their_disks, altairs_stay_within,
};
pub use progress::{altair_pairs_are_never_stuck, altairs_respond};

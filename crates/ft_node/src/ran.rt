//! How many moves a node made and why no more, how far it is, what it may begin, and what a part was to it.

use guest_lockstep::{Reads, ReplayEnd, StopReason};

/// How many steps were made, how many the guest has made in all, and why no more were made.
#[derive(Clone, Copy)]
pub struct Ran {
    pub steps: u64,
    pub count: u64,
    pub why: StopReason,
}

/// How many moves were made, and why no more were: if nothing is left, the node is alone now.
#[derive(Clone, Copy)]
pub struct Drained {
    pub moves: u64,
    pub why: ReplayEnd,
}

/// How far a primary is: how many entries it has logged, and how many steps its machine has made.
#[derive(Clone, Copy)]
pub struct Lead {
    pub entries: u64,
    pub count: u64,
}

/// How many entries a primary has logged, and how many of them are acknowledged; or how many a node that repeats holds,
/// and how many of them it has replayed.
#[derive(Clone, Copy)]
pub struct Standing {
    pub entries: u64,
    pub done: u64,
}

/// The generation that an alone node may begin, how many drives its machine has, and how its log will carry sectors.
#[derive(Clone, Copy)]
pub struct NextGeneration {
    pub generation: u32,
    pub drives: u8,
    pub reads: Reads,
}

/// What a part of an image was to a joining node: a new one, one that had arrived before, or the last one that was missing.
#[derive(Clone, Copy)]
pub enum PartCame {
    New,
    Old,
    Whole,
}

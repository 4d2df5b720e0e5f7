//! Whoever is told what becomes of the hosts, and says what becomes of packets between them, and how fast the guest runs.

use crate::{HostLine, Inspection, LinkState, Sight};
use pair_events::Role;

/// What becomes of the host at a place.
#[derive(Clone, Copy, PartialEq, Eq)]
pub enum HostEvent {
    /// It reports another role than before, in this generation; none if it is a spare.
    Became(u32, Option<Role>),
    /// It has won this generation, and is alone.
    Won(u32),
    /// Another host has won this generation.
    Lost(u32),
    /// It is alone, and no spare is there that can be its backup. It is told so again and again.
    Alone,
    /// A host that is alone is told to give it a copy of its machine, for this generation. It is told so again and again.
    Joins(u32),
    /// The disk has refused a write of it.
    Unwritten,
    /// It has sent what is no frame, or means nothing where it comes from, and is cut off.
    Failed,
    /// It has sent more frames than any host does, and is cut off.
    Flooded,
    /// Its stream has ended.
    Gone,
}

/// A caller's hold on the hosts of a session. It is used on the thread of the session's loop alone.
pub trait Steward {
    /// Something becomes of the host at a place.
    fn hears(&mut self, place: u8, event: HostEvent);

    /// The hosts are so now, what each reported last, and how many of its frames were refused, by their places. It is told so now
    /// and then.
    fn looks(&mut self, _lines: &[HostLine], _refused: &[u64]) {}

    /// What it asks of the machine of the host that serves, if anything. It is asked so in each turn, and asks until it is answered.
    fn asks(&mut self) -> Option<Inspection> {
        None
    }

    /// The host that serves has shown its machine.
    fn sees(&mut self, _sight: &Sight) {}

    /// Whether all is to end, for a reason of the caller's own.
    fn is_over(&mut self) -> bool {
        false
    }

    /// How many steps a second the guest makes at most from now on; 0 if it runs as fast as it can.
    fn speed(&mut self) -> u64 {
        0
    }

    /// What becomes of packets between hosts from now on.
    fn fate(&mut self) -> LinkState {
        LinkState::Passes
    }
}

//! A caller's hold on the turns of the workers.

/// A worker of a generation.
#[derive(Clone, Copy, PartialEq, Eq)]
pub enum Who {
    Primary,
    Link,
    Backup,
    Terminal,
    Disk,
}

/// A caller's hold on the turns. Each worker counts its turns from 0. A gate may wait; the run ends as stalled if `enter`
/// returns false.
pub trait Gate {
    fn enter(&self, who: Who, turn: u64) -> bool;

    fn leave(&self, who: Who, turn: u64);
}

/// A gate that holds nobody.
#[derive(Clone, Copy, PartialEq, Eq)]
pub struct OpenGate;

impl Gate for OpenGate {
    fn enter(&self, _who: Who, _turn: u64) -> bool {
        true
    }

    fn leave(&self, _who: Who, _turn: u64) {}
}

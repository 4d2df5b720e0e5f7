//! The bytes that the terminals have accepted, as they go out.
ghost use Rattle.std.specs.Prelude.{◌≡◌, ◌++◌, ◌==◌, ◌∷◌, [], if◌then◌else◌, List, None, Some, false, true, ℕ};
ghost use Rattle.console_terminal.specs.Lines.{HasRoom, HasShown, IsFull, IsSameStart, with_byte};

use crate::ring::{has_room, push};
use rtrb::Producer;

/// A byte that the terminal of a port has accepted.
#[derive(Clone, Copy, PartialEq, Eq)]
pub struct Shown {
    pub port: u8,
    pub byte: u8,
}

/// Where the bytes of both terminals go as they are accepted: into a ring, whose other end a thread has that writes them. Without a
/// ring they go nowhere.
#[derive(Drop)]
pub struct Screen {
    ring: Option<Producer<Shown>>,
}

impl Screen {
    /// A screen on which nothing is shown.
    pub fn dark() -> Screen
        ensures { result.ring ≡ None }
    {
        Screen { ring: None }
    }

    /// The screen whose bytes go into this ring.
    pub fn of(ring: Producer<Shown>) -> Screen
        ensures { result.ring ≡ Some ring }
    {
        Screen { ring: Some(ring) }
    }

    /// Whether one more byte can be shown now. A dark screen takes any.
    pub fn has_room(&mut self) -> bool
        ensures same { IsSameStart self.old.ring self.new.ring }
        ensures shown { (port : ℕ) (bytes : List ℕ) → HasShown self.old port bytes → HasShown self.new port bytes }
        ensures room { result ≡ true → HasRoom self.new.ring }
        ensures full { result ≡ false → IsFull self.new.ring }
    {
        has_room(&mut self.ring)
    }

    /// Shows a byte of a port.
    pub fn show(&mut self, port: u8, byte: u8)
        requires room { HasRoom self.old.ring }
        ensures same { IsSameStart self.old.ring self.new.ring }
        ensures shown { (at : ℕ) (bytes : List ℕ) → HasShown self.old at bytes
            → HasShown self.new at (with_byte at port byte bytes) }
    {
        push(&mut self.ring, Shown { port, byte });
    }

    /// The end of the ring that it was made of.
    pub fn into_ring(self) -> Option<Producer<Shown>>
        ensures { result ≡ self.ring }
    {
        let Screen { ring } = self;
        ring
    }
}

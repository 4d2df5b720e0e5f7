//! The keys of a port that come while a pair runs.
ghost use Rattle.std.specs.Prelude.{◌≡◌, false, true, None, Some};
ghost use Rattle.console_terminal.specs.Lines.{Hears, heard, is_end, key_in, keys_in};
ghost use Rattle.rtrb.specs.Ring.{received};

use crate::ring::pop;
use rtrb::Consumer;

/// What a keyboard sends.
#[derive(Clone, Copy, PartialEq, Eq)]
pub enum Stroke {
    Key(u8),
    /// No key comes after this.
    End,
}

/// The keys of a port, in the order in which they were typed. They come through a ring, whose other end a thread has that hears
/// them; without a ring no key comes.
#[derive(Drop)]
pub struct Keyboard {
    // Whether more keys may come.
    open: bool,
    ring: Option<Consumer<Stroke>>,
}

impl Keyboard {
    /// A keyboard from which no key comes.
    pub fn closed() -> Keyboard
        ensures { (result.ring ≡ None) × (result.open ≡ false) }
    {
        Keyboard {
            open: false,
            ring: None,
        }
    }

    /// The keyboard whose keys come through this ring. More may come.
    pub fn of(ring: Consumer<Stroke>) -> Keyboard
        ensures heard { heard result ≡ keys_in (received ring) }
        ensures begins { (result.ring ≡ Some ring) × (result.open ≡ true) }
    {
        Keyboard {
            open: true,
            ring: Some(ring),
        }
    }

    /// The next key, if one has come. After the end none comes.
    #[tactic(auto, using(crate::proofs::Joined::keys_on_top))]
    pub fn next(&mut self) -> Option<u8>
        ensures { Hears self.old self.new result }
    {
        if !self.open {
            return None;
        }
        let stroke = pop(&mut self.ring);
        self.open = !is_end(stroke);
        key_in(stroke)
    }

    /// Whether more keys may come.
    pub fn is_open(&self) -> bool
        ensures { result ≡ self.now.open }
    {
        self.open
    }

    /// The end of the ring that it was made of.
    pub fn into_ring(self) -> Option<Consumer<Stroke>>
        ensures { result ≡ self.ring }
    {
        let Keyboard { ring, .. } = self;
        ring
    }
}

// Whether a keyboard has said that no key comes after this.
fn is_end(stroke: Option<Stroke>) -> bool
    ensures { result ≡ is_end stroke }
{
    match stroke {
        Some(Stroke::End) => true,
        Some(Stroke::Key(_)) | None => false,
    }
}

// The key that came, if one did.
fn key_in(stroke: Option<Stroke>) -> Option<u8>
    ensures { result ≡ key_in stroke }
{
    match stroke {
        Some(Stroke::Key(byte)) => Some(byte),
        Some(Stroke::End) | None => None,
    }
}

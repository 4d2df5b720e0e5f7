//! All lines of a pair.
ghost use Rattle.std.specs.Prelude.{◌≡◌, None, false};

use crate::keyboard::Keyboard;
use crate::screen::Screen;

/// What a pair is told and what it tells while it runs: the keys of both ports, and the bytes that both terminals accept.
#[derive(Drop)]
pub struct Lines {
    pub keyboard0: Keyboard,
    pub keyboard1: Keyboard,
    pub screen: Screen,
}

impl Lines {
    /// No key comes, and nothing is shown.
    pub fn none() -> Lines
        ensures keyboards { (result.keyboard0.ring ≡ None) × (result.keyboard1.ring ≡ None)
            × (result.keyboard0.open ≡ false) × (result.keyboard1.open ≡ false) }
        ensures screen { result.screen.ring ≡ None }
    {
        Lines {
            keyboard0: Keyboard::closed(),
            keyboard1: Keyboard::closed(),
            screen: Screen::dark(),
        }
    }
}

//! What a guest shows of its ports before a key is offered to it.
ghost use Rattle.std.specs.Prelude.{◌≡◌, ◌<◌, ℕ, Bool, IsTrue, false};
ghost use Rattle.event_callbacks.specs.declared.devices.TheConstants.{PORTS};

use crate::DraftedBoard;
use crate::polling::is_polling;
use event_callbacks::Completes;
use guest_board::Board;
use serial_2sio::Receiver;

/// A guest of which one can see whether a key would be kept, and whether it only waits for one.
pub trait KeyRoom {
    /// Whether a key would be kept.
    ghost keeps_key: { Self → ℕ → Bool };

    /// Whether it polls: it does nothing but look, again and again, whether a key has come.
    ghost polls: { Self → Type 0 };

    /// Whether a key that came to this port now would be kept: the guest has read the one before it. One that comes to a full
    /// receiver is lost (MC6850 data sheet, "Receiver Overrun").
    fn keeps_key(&self, port: u8) -> bool
        requires { port < PORTS }
        ensures { result ≡ keeps_key self.now port };

    /// Whether it polls. This changes nothing.
    fn is_polling(&self) -> bool
        ensures yes { IsTrue result → polls self.now }
        ensures no { result ≡ false → polls self.now → ⊥ };
}

impl<T: Completes, S: Completes, W: Completes> KeyRoom for Board<T, S, W> {
    ghost use Rattle.board_image.specs.Polling.{Polls};
    ghost use Rattle.board_image.specs.Room.{has_room};

    ghost keeps_key = { λ b. has_room b.guest };

    ghost polls = { λ b. Polls b.guest };

    fn keeps_key(&self, port: u8) -> bool {
        matches!(self.port(port).receiver(), Receiver::Empty)
    }

    fn is_polling(&self) -> bool {
        is_polling(self)
    }
}

impl<T: Completes, S: Completes, W: Completes> KeyRoom for DraftedBoard<T, S, W> {
    ghost use Rattle.board_image.specs.Polling.{Polls};
    ghost use Rattle.board_image.specs.Room.{has_room};

    ghost keeps_key = { λ d. has_room d.board.guest };

    ghost polls = { λ d. Polls d.board.guest };

    fn keeps_key(&self, port: u8) -> bool {
        self.board().keeps_key(port)
    }

    fn is_polling(&self) -> bool {
        self.board().is_polling()
    }
}

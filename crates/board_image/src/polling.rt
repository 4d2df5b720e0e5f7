//! Whether a guest polls: it only looks, again and again, whether a key has come.
ghost use Rattle.std.specs.Prelude.{◌≡◌, false, true, IsTrue};
ghost use Rattle.board_image.specs.Polling.{Polls, is_only_looking, seen_by, status_at};

use event_callbacks::Completes;
use guest_board::Board;
use i8080_core::{Bus, Cpu};
use i8080_words::{Interrupts, Processor};

// How many steps a loop may take that only looks.
const LOOP_STEPS: u32 = 64;

/// What a processor would read that went on while nothing else happens to its guest, whether it has looked at the status of a serial
/// port, and whether it would have done anything but look.
#[derive(Drop)]
struct Sight<'a, T: Completes, S: Completes, W: Completes> {
    board: &'a Board<T, S, W>,
    looks: bool,
    acts: bool,
}

impl<T: Completes, S: Completes, W: Completes> Sight<'_, T, S, W> {
    // The status of the serial port whose control register is at this port number.
    fn status(&self, number: u8) -> Option<u8>
        ensures { result ≡ status_at self.now.board.now.guest number }
    {
        match number {
            0x10 => Some(self.board.port(0).status()),
            0x12 => Some(self.board.port(1).status()),
            _ => None,
        }
    }

    // Whether the processor has only looked so far, and hears no interrupt.
    fn is_only_looking(&self, processor: &Processor) -> bool
        ensures { result ≡ is_only_looking processor.now (seen_by self.now.board.now.guest self.now.looks self.now.acts) }
    {
        !self.acts && processor.interrupts == Interrupts::Off
    }

    // Whether the processor has looked at a status, and is as it was first.
    fn is_back(&self, processor: &Processor, first: &Processor) -> bool
        ensures yes { IsTrue result → (self.now.looks ≡ true) × (processor.now ≡ first.now) }
        ensures no { result ≡ false → self.now.looks ≡ true → processor.now ≡ first.now → ⊥ }
    {
        self.looks && processor == first
    }
}

impl<T: Completes, S: Completes, W: Completes> Bus for Sight<'_, T, S, W> {
    ghost use Rattle.board_image.specs.Polling.{Seen, byte_seen, input_seen, seen_after, seen_by};

    ghost State = { Seen };

    ghost state = { λ s. seen_by s.board.now.guest s.looks s.acts };

    ghost byte_at = { byte_seen };

    ghost input_byte = { input_seen };

    ghost after = { seen_after };

    fn read(&self, address: u16) -> u8 {
        self.board.byte(address)
    }

    fn write(&mut self, address: u16, byte: u8) {
        if self.board.byte(address) != byte {
            self.acts = true;
        }
    }

    fn input(&mut self, port: u8) -> u8 {
        match self.status(port) {
            Some(status) => {
                self.looks = true;
                status
            }
            None => {
                self.acts = true;
                0
            }
        }
    }

    fn look(&self, _port: u8) -> Option<u8> {
        None
    }

    fn output(&mut self, _port: u8, _byte: u8) {
        self.acts = true;
    }
}

/// Whether a guest polls.
pub(crate) fn is_polling<T: Completes, S: Completes, W: Completes>(board: &Board<T, S, W>) -> bool
    ensures yes { IsTrue result → Polls board.now.guest }
    ensures no { result ≡ false → Polls board.now.guest → ⊥ }
{
    let first = *board.processor();
    let mut cpu = Cpu::resume(first);
    let mut sight = Sight {
        board,
        looks: false,
        acts: false,
    };
    for step in 0..LOOP_STEPS {
        cpu.step(&mut sight, None);
        if !sight.is_only_looking(cpu.processor()) {
            return false;
        }
        if sight.is_back(cpu.processor(), &first) {
            return true;
        }
    }
    false
}

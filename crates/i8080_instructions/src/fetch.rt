//! The data after an instruction's code.
ghost use Rattle.std.specs.Prelude.{◌≡◌, ◌+◌, ◌*◌, ◌%◌};
ghost use Rattle.i8080_words.specs.Arithmetic.{wrapped, word_of};

use crate::bus::Bus;
use crate::operands::offset;

/// The byte after the code at an address; the next code is after that byte.
pub fn fetch_byte<B: Bus>(bus: &B, start: u16, next: &mut u16) -> u8
    ensures byte { result ≡ B.byte_at (B.state bus.now) (wrapped (start + 1)) }
    ensures next { next.new ≡ wrapped (start + 2) }
{
    *next = offset(start, 2);
    bus.read_byte_after(start)
}

/// The word after the code at an address; the next code is after that word.
pub fn fetch_word<B: Bus>(bus: &B, start: u16, next: &mut u16) -> u16
    ensures word { result ≡ word_of
        (B.byte_at (B.state bus.now) (wrapped (start + 1)))
        (B.byte_at (B.state bus.now) (wrapped (start + 2))) }
    ensures next { next.new ≡ wrapped (start + 3) }
{
    *next = offset(start, 3);
    bus.read_word_after(start)
}

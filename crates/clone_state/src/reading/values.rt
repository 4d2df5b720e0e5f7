//! Small values as bytes are read for them. One that is found by itself comes with the bytes after it.
ghost use Rattle.std.specs.Prelude.{◌≡◌, ◌∷◌, [], Some, None, if◌then◌else◌, option_map};
ghost use Rattle.std.specs.List.{list_all};
ghost use Rattle.clone_state.specs.Codec.{one, number};
ghost use Rattle.clone_state.specs.FirstPart as grammar;
ghost use Rattle.clone_state.specs.Possible as possible;

use i8080_words::Interrupts;
use log_entry::number_at;
use serial_2sio::Receiver;

// What a byte says if there is no number.
const NONE: u8 = 0xff;

#[tactic(auto, unfolding(crate::specs::Codec::one))]
pub(super) fn byte_at(bytes: &[u8]) -> Option<(u8, &[u8])>
    ensures { option_map (λ found. (found.0, found.1.now)) result ≡ one.read bytes.now }
{
    let [byte, rest @ ..] = bytes else {
        return None;
    };
    Some((*byte, rest))
}

#[tactic(auto, unfolding(crate::specs::FirstPart::word, crate::specs::Codec::both, crate::specs::Codec::by, crate::specs::Codec::one))]
pub(super) fn word_at(bytes: &[u8]) -> Option<(u16, &[u8])>
    ensures { option_map (λ found. (found.0, found.1.now)) result ≡ grammar.word.read bytes.now }
{
    let (high, rest) = byte_at(bytes)?;
    let (low, rest) = byte_at(rest)?;
    Some((u16::from(high) * 256 + u16::from(low), rest))
}

// Whether a byte says that something holds, or that it does not.
pub(super) fn is_truth(byte: u8) -> bool
    ensures { result ≡ grammar.is_bit byte }
{
    byte < 2
}

// The number that a byte says, if it says one.
pub(super) fn maybe_of(byte: u8) -> Option<u8>
    ensures { result ≡ grammar.some_below byte }
{
    if byte == NONE { None } else { Some(byte) }
}

#[tactic(auto, unfolding(crate::specs::FirstPart::two_numbers, crate::specs::Codec::times, crate::specs::Codec::number))]
pub(super) fn two_numbers_at(bytes: &[u8]) -> Option<(u64, u64, &[u8])>
    ensures { option_map (λ found. (found.0 ∷ found.1 ∷ [], found.2.now)) result ≡ grammar.two_numbers.read bytes.now }
{
    let (first, rest) = number_at(bytes)?;
    let (second, rest) = number_at(rest)?;
    Some((first, second, rest))
}

// Whether each byte is 00.
pub(super) fn are_zeros(bytes: &[u8]) -> bool
    ensures { result ≡ possible.are_zeros bytes.now }
{
    bytes.iter().all(|byte| *byte == 0)
}

// Bits 5 and 3 of a flag byte are 0, and bit 1 is 1.
pub(super) fn is_flag_byte(byte: u8) -> bool
    ensures { result ≡ grammar.is_flag_byte byte }
{
    byte / 32 % 2 != 1 && byte / 8 % 2 != 1 && byte / 2 % 2 == 1
}

pub(super) fn interrupts_of(byte: u8) -> Option<Interrupts>
    ensures { result ≡ (if grammar.is_interrupts byte then Some (grammar.interrupts_of byte) else None) }
{
    match byte {
        0 => Some(Interrupts::Off),
        1 => Some(Interrupts::Soon),
        2 => Some(Interrupts::On),
        _ => None,
    }
}

pub(super) fn receiver_of(byte: u8) -> Option<Receiver>
    ensures { result ≡ (if grammar.is_receiver byte then Some (grammar.receiver_of byte) else None) }
{
    match byte {
        0 => Some(Receiver::Empty),
        1 => Some(Receiver::Full),
        2 => Some(Receiver::FullLost),
        3 => Some(Receiver::Over),
        _ => None,
    }
}

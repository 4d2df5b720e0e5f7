//! The numbers of a message.

ghost use Rattle.std.specs.Prelude.{◌≡◌, option_map};
ghost use Rattle.byteorder.specs.Endian.{big_bytes};
ghost use Rattle.log_entry.specs.Numbers.{generation_from, number_from};

use byteorder::{BigEndian, ByteOrder};
use i8080_words::GREATEST_NUMBER;

/// The eight bytes of a number, highest first.
pub fn spelled_number(number: u64) -> [u8; 8]
    ensures { result ≡ big_bytes 8 number }
{
    let mut bytes = [0; 8];
    BigEndian::write_u64(&mut bytes, number);
    bytes
}

/// The number that the first eight bytes spell, if it is not past the greatest one, and the bytes after it.
#[tactic(auto, unfolding(crate::specs::Numbers::number_from))]
pub fn number_at(bytes: &[u8]) -> Option<(u64, &[u8])>
    ensures { option_map (λ found. (found.0, found.1.now)) result ≡ number_from bytes.now }
{
    let (word, rest) = bytes.split_first_chunk::<8>()?;
    let number = u64::from_be_bytes(*word);
    if number > GREATEST_NUMBER {
        return None;
    }
    Some((number, rest))
}

/// The generation that the first four bytes spell, highest first, and the bytes after it. No generation is 0.
#[tactic(auto, unfolding(crate::specs::Numbers::generation_from))]
pub fn generation_at(bytes: &[u8]) -> Option<(u32, &[u8])>
    ensures { option_map (λ found. (found.0, found.1.now)) result ≡ generation_from bytes.now }
{
    let (word, rest) = bytes.split_first_chunk::<4>()?;
    let generation = u32::from_be_bytes(*word);
    if generation == 0 {
        return None;
    }
    Some((generation, rest))
}

//! Bytes of memory, as instructions.
ghost use Rattle.std.specs.Prelude.{◌≡◌, ◌∷◌, [], IfOk, Some};
ghost use Rattle.shell_language.specs.Texts.{Prints};
ghost use Rattle.shell_picture.specs.Listings.{byte_in, gap_text, listing_rows, listing_text, instruction_bytes};

use crate::answers::after;
use crate::assembly::InstructionText;
use i8080_words::{decode, length};
use pair_events::Spaced;
use shell_language::{Address, Printed};
use std::alloc::AllocError;
use std::fmt;

/// So many instructions, the first of them at an address: where these bytes are. Bytes that are missing are taken as 00.
pub fn print_listing(
    from: u16,
    count: u16,
    bytes: &[u8],
    printed: &mut Printed,
) -> Result<(), AllocError>
    ensures { IfOk result (λ _. Prints (listing_rows count from bytes.now) printed.old printed.new) }
{
    let mut rest = bytes;
    let mut address = from;
    'instructions: for _number in 0..count {
        let code = byte_in(rest, 0);
        printed.line(&ListingLine {
            address,
            bytes: [code, byte_in(rest, 1), byte_in(rest, 2)],
        })?;
        let size = length(code);
        address = address.wrapping_add(u16::from(size));
        rest = after(rest, usize::from(size));
    }
    Ok(())
}

// The byte at a place, and 00 past the end.
fn byte_in(bytes: &[u8], place: usize) -> u8
    ensures { result ≡ byte_in bytes.now place }
{
    bytes.get(place).copied().unwrap_or(0)
}

// An instruction at an address: its bytes, of which it may have fewer than three.
#[derive(Clone, Copy)]
struct ListingLine {
    address: u16,
    bytes: [u8; 3],
}

impl fmt::Display for ListingLine {
    ghost output = { λ line. Some (listing_text line.address line.bytes) };

    fn fmt<W: fmt::Write>(&self, f: &mut fmt::Formatter<W>) -> fmt::Result {
        let size = length(self.bytes[0]);
        write!(
            f,
            "{} {}{}  {}",
            Address(self.address),
            Spaced(shown(&self.bytes, size)),
            gap(size),
            InstructionText(decode(self.bytes))
        )
    }
}

// The bytes of an instruction of this size.
fn shown(bytes: &[u8; 3], size: u8) -> &[u8]
    ensures { result.now ≡ instruction_bytes size bytes.now }
{
    match size {
        1 => &bytes[..1],
        2 => &bytes[..2],
        _ => bytes,
    }
}

// Spaces in place of the bytes that it does not have.
fn gap(size: u8) -> &'static str
    ensures { result.now ≡ gap_text size }
{
    match size {
        1 => "      ",
        2 => "   ",
        _ => "",
    }
}

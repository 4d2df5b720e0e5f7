//! Records of Intel HEX, a line each.
ghost use Rattle.std.specs.Prelude.{◌≡◌, ◌+◌, ◌++◌, ◌/◌, ◌%◌, ◌≤◌, Some, None, if◌then◌else◌, length, sum, take};
ghost use Rattle.std.specs.Result.{result_ok};
ghost use Rattle.hex.specs.Hex.{decode_of};
ghost use Rattle.std.specs.Fmt.{WritesOnOk};
ghost use Rattle.pair_events.specs.Printed.{byte_text};
ghost use Rattle.shell_language.specs.Mistakes.{record_text};
ghost use Rattle.shell_language.specs.declared.loading.RecordMistake.TheVariants as mistake;
ghost use Rattle.shell_language.specs.Records.{Loaded, by_type, extended, start, record_by, record_in, record_of};

use crate::shown::Address;
use pair_events::Hexadecimal;
use std::fmt;
use std::marker::Model;

// How many bytes of data a record may have.
const RECORD_BYTES: usize = 255;

// How many bytes a record has besides: its length, its address, its type and its sum.
const OTHER_BYTES: usize = 5;

const LONGEST: usize = RECORD_BYTES + OTHER_BYTES;

// How many bytes a memory has.
const MEMORY_BYTES: usize = 65_536;

/// Bytes that are put into memory from an address on; none of them is past FFFF. A record that says something else has none.
#[derive(Drop)]
pub struct HexRecord {
    address: u16,
    count: u8,
    // The first `count` of these.
    bytes: [u8; RECORD_BYTES],
}

impl Model for HexRecord {
    ghost Value = { Loaded };

    ghost view = { λ r. record { address = r.address; bytes = take r.count r.bytes } };

    ghost invariant = { λ r. r.address + r.count ≤ 65536 };
}

/// Why a line is not a record.
#[derive(Clone, Copy)]
pub enum RecordMistake {
    /// There is no colon before, or what follows it is not pairs of hexadecimal digits.
    Digits,
    /// It has more or fewer bytes than its first byte says.
    Length { said: u8, there: usize },
    /// Its last byte does not bring the sum of all to a multiple of 256; this one would.
    Sum { wanted: u8, there: u8 },
    /// Its type is none of 00 to 05.
    Type(u8),
    /// A record of its type has this many bytes of data.
    Size { kind: u8, wanted: u8 },
    /// It says that what follows is not in the first 64K.
    Extended { kind: u8 },
    /// Its bytes go past address FFFF.
    Past(u16),
}

impl fmt::Display for RecordMistake {
    ghost output = { λ mistake. Some (record_text mistake) };

    fn fmt<W: fmt::Write>(&self, f: &mut fmt::Formatter<W>) -> fmt::Result {
        match *self {
            RecordMistake::Digits => f.write_str(
                "a record of Intel HEX is a colon and then pairs of hexadecimal digits: `:LLAAAATTDD..CC`",
            ),
            RecordMistake::Length { said, there } => write_length(f, said, there),
            RecordMistake::Sum { wanted, there } => write_sum(f, wanted, there),
            RecordMistake::Type(kind) => write_between(
                f,
                "the record is of type ",
                kind,
                ": a type from 00, data, to 05 is expected",
            ),
            RecordMistake::Size { kind, wanted } => write_size(f, kind, wanted),
            RecordMistake::Extended { kind } => write_between(
                f,
                "the record of type ",
                kind,
                " puts what follows past FFFF: 0000 is expected, as memory has 64K",
            ),
            RecordMistake::Past(address) => write_past(f, address),
        }
    }
}

fn write_past<W: fmt::Write>(f: &mut fmt::Formatter<W>, address: u16) -> fmt::Result
    ensures { WritesOnOk W.write_str_gives f.old result (record_text (mistake.Past address)) f.new }
{
    let address = Address(address);
    write!(f, "the record's bytes from {address} on go past FFFF")
}

fn write_length<W: fmt::Write>(f: &mut fmt::Formatter<W>, said: u8, there: usize) -> fmt::Result
    ensures { WritesOnOk W.write_str_gives f.old result (record_text (mistake.Length said there)) f.new }
{
    write!(
        f,
        "the record says that it has {said} bytes of data, and has {there}: `:LLAAAATTDD..CC`"
    )
}

fn write_sum<W: fmt::Write>(f: &mut fmt::Formatter<W>, wanted: u8, there: u8) -> fmt::Result
    ensures { WritesOnOk W.write_str_gives f.old result (record_text (mistake.Sum wanted there)) f.new }
{
    let wanted = Hexadecimal(wanted);
    let there = Hexadecimal(there);
    write!(
        f,
        "the record's sum is wrong: it ends with {there}, and {wanted} is expected"
    )
}

fn write_size<W: fmt::Write>(f: &mut fmt::Formatter<W>, kind: u8, wanted: u8) -> fmt::Result
    ensures { WritesOnOk W.write_str_gives f.old result (record_text (mistake.Size kind wanted)) f.new }
{
    let kind = Hexadecimal(kind);
    write!(f, "a record of type {kind} has {wanted} bytes of data")
}

// A byte between two texts.
fn write_between<W: fmt::Write>(
    f: &mut fmt::Formatter<W>,
    front: &str,
    byte: u8,
    back: &str,
) -> fmt::Result
    ensures { WritesOnOk W.write_str_gives f.old result (front.now ++ (byte_text byte ++ back.now)) f.new }
{
    let byte = Hexadecimal(byte);
    write!(f, "{front}{byte}{back}")
}

impl HexRecord {
    // These bytes from this address on.
    fn of(address: u16, given: &[u8]) -> HexRecord
        requires few { length given.now ≤ 255 }
        requires within { address + length given.now ≤ 65536 }
        ensures address { result.address ≡ address }
        ensures bytes { result.bytes ≡ given.now }
    {
        let mut bytes = [0u8; RECORD_BYTES];
        bytes[..given.len()].copy_from_slice(given);
        HexRecord {
            address,
            count: given.len() as u8,
            bytes,
        }
    }

    /// Where the first byte is put.
    pub fn address(&self) -> u16
        ensures { result ≡ self.now.address }
    {
        self.address
    }

    /// The bytes.
    pub fn bytes(&self) -> &[u8]
        ensures exact { result.now ≡ self.now.bytes }
        ensures within { self.now.address + length result.now ≤ 65536 }
    {
        &self.bytes[..usize::from(self.count)]
    }
}

/// What a line says as a record, from its colon to its sum.
pub fn read_record(line: &[u8]) -> Result<HexRecord, RecordMistake>
    ensures { result ≡ record_of line.now }
{
    match line {
        [b':', digits @ ..] => read_digits(digits),
        _ => Err(RecordMistake::Digits),
    }
}

// What the digits of a record say.
fn read_digits(digits: &[u8]) -> Result<HexRecord, RecordMistake>
    ensures { result ≡ record_by digits.now }
{
    let count = digits.len() / 2;
    if count > LONGEST {
        return Err(RecordMistake::Digits);
    }
    let mut bytes = [0u8; LONGEST];
    if !decode(digits, &mut bytes[..count]) {
        return Err(RecordMistake::Digits);
    }
    read_bytes(&bytes[..count])
}

// Puts the bytes of pairs of digits into a place for as many. `false` if they are none.
#[tactic(auto, using(crate::proofs::Decoding::decoded))]
fn decode(digits: &[u8], out: &mut [u8]) -> bool
    requires { length out.old ≡ length digits.now / 2 }
    ensures { result_ok (decode_of digits.now) ≡ (if result then Some out.new else None) }
{
    match hex::decode_to_slice(digits, out) {
        Ok(()) => true,
        Err(_) => false,
    }
}

// What the bytes of a record say.
fn read_bytes(bytes: &[u8]) -> Result<HexRecord, RecordMistake>
    requires { length bytes.now ≤ 260 }
    ensures { result ≡ record_in bytes.now }
{
    if bytes.len() < OTHER_BYTES {
        return Err(RecordMistake::Digits);
    }
    let there = bytes.len() - OTHER_BYTES;
    let said = bytes[0];
    if usize::from(said) != there {
        return Err(RecordMistake::Length { said, there });
    }
    let excess = excess(bytes);
    if excess != 0 {
        let there = bytes[bytes.len() - 1];
        let wanted = ((u16::from(there) + 256 - u16::from(excess)) % 256) as u8;
        return Err(RecordMistake::Sum { wanted, there });
    }
    let address = u16::from(bytes[1]) * 256 + u16::from(bytes[2]);
    by_type(bytes[3], address, &bytes[4..4 + there])
}

// How far the sum of bytes is above a multiple of 256.
fn excess(bytes: &[u8]) -> u8
    requires { length bytes.now ≤ 260 }
    ensures { result ≡ sum bytes.now % 256 }
{
    let sum: u32 = bytes.iter().map(|byte| u32::from(*byte)).sum();
    (sum % 256) as u8
}

// A record of this type.
#[tactic(auto, unfolding(crate::specs::Records::by_type))]
fn by_type(kind: u8, address: u16, given: &[u8]) -> Result<HexRecord, RecordMistake>
    requires { length given.now ≤ 255 }
    ensures { result ≡ by_type kind address given.now }
{
    match kind {
        0 if usize::from(address) + given.len() > MEMORY_BYTES => {
            Err(RecordMistake::Past(address))
        }
        0 => Ok(HexRecord::of(address, given)),
        1 => Ok(HexRecord::of(address, &[])),
        2 | 4 => extended(kind, address, given),
        3 | 5 => start(kind, address, given),
        _ => Err(RecordMistake::Type(kind)),
    }
}

// An extended address: what follows is in the first 64K.
fn extended(kind: u8, address: u16, given: &[u8]) -> Result<HexRecord, RecordMistake>
    ensures { result ≡ extended kind address given.now }
{
    match given {
        [0, 0] => Ok(HexRecord::of(address, &[])),
        [_, _] => Err(RecordMistake::Extended { kind }),
        _ => Err(RecordMistake::Size { kind, wanted: 2 }),
    }
}

// A start address, which is skipped.
fn start(kind: u8, address: u16, given: &[u8]) -> Result<HexRecord, RecordMistake>
    ensures { result ≡ start kind address given.now }
{
    match given {
        [_, _, _, _] => Ok(HexRecord::of(address, &[])),
        _ => Err(RecordMistake::Size { kind, wanted: 4 }),
    }
}

//! The condition flags, and the arithmetic of bytes and words by masks of bits.
ghost use Rattle.std.specs.Prelude.{◌≡◌, ◌*◌};
ghost use Rattle.i8080_words.specs.Arithmetic.{bit, flags_of, sum_of, difference_of, and_of, or_of, xor_of, incremented, decremented, adjusted, pair_sum, flag_byte, rotated_left, rotated_right, flags_from};

/// The condition flags (8080 User's Manual, chapter 4, "Condition flags").
#[derive(Clone, Copy, PartialEq, Eq, Default)]
pub struct Flags {
    /// Sign: bit 7 of the result.
    pub s: bool,
    /// Zero: the result is 0.
    pub z: bool,
    /// Auxiliary carry: the carry out of bit 3.
    pub ac: bool,
    /// Parity: the result has an even number of ones.
    pub p: bool,
    /// Carry: the carry out of bit 7, or the borrow of a subtraction.
    pub cy: bool,
}

// The bits of the flag byte.
const SIGN: u8 = 0x80;

const ZERO: u8 = 0x40;

const AUXILIARY_CARRY: u8 = 0x10;

const PARITY: u8 = 0x04;

const ALWAYS_ONE: u8 = 0x02;

const CARRY: u8 = 0x01;

fn flags_of_result(value: u8, ac: bool, cy: bool) -> Flags
    ensures { result ≡ flags_of value ac cy }
{
    Flags {
        s: value & 0x80 != 0,
        z: value == 0,
        ac,
        p: value.count_ones() & 1 == 0,
        cy,
    }
}

/// The sum of two bytes and a carry, modulo 256 (ADD, ADC).
pub fn add8(a: u8, b: u8, carry: bool) -> (u8, Flags)
    ensures { result ≡ sum_of a b carry }
{
    let carry_in = carry as u8;
    let sum = a as u16 + b as u16 + carry_in as u16;
    let low = (a & 0x0f) + (b & 0x0f) + carry_in;
    let value = (sum & 0xff) as u8;
    (
        value,
        flags_of_result(value, low & 0x10 != 0, sum & 0x100 != 0),
    )
}

/// The difference of two bytes and a borrow, modulo 256 (SUB, SBB, CMP).
pub fn sub8(a: u8, b: u8, borrow: bool) -> (u8, Flags)
    ensures { result ≡ difference_of a b borrow }
{
    let (value, flags) = add8(a, !b, !borrow);
    (
        value,
        Flags {
            cy: !flags.cy,
            ..flags
        },
    )
}

/// The AND of two bytes (ANA).
pub fn and8(a: u8, b: u8) -> (u8, Flags)
    ensures { result ≡ and_of a b }
{
    (a & b, flags_of_result(a & b, (a | b) & 0x08 != 0, false))
}

/// The OR of two bytes (ORA).
pub fn or8(a: u8, b: u8) -> (u8, Flags)
    ensures { result ≡ or_of a b }
{
    (a | b, flags_of_result(a | b, false, false))
}

/// The exclusive OR of two bytes (XRA).
pub fn xor8(a: u8, b: u8) -> (u8, Flags)
    ensures { result ≡ xor_of a b }
{
    (a ^ b, flags_of_result(a ^ b, false, false))
}

/// A byte plus 1, modulo 256; the carry is unchanged (INR).
pub fn inr(value: u8, carry: bool) -> (u8, Flags)
    ensures { result ≡ incremented value carry }
{
    let sum = value.wrapping_add(1);
    (sum, flags_of_result(sum, sum & 0x0f == 0, carry))
}

/// A byte minus 1, modulo 256; the carry is unchanged (DCR).
pub fn dcr(value: u8, carry: bool) -> (u8, Flags)
    ensures { result ≡ decremented value carry }
{
    let sum = value.wrapping_sub(1);
    (sum, flags_of_result(sum, value & 0x0f != 0, carry))
}

/// The accumulator adjusted to two decimal digits, given its auxiliary carry and its carry (DAA).
pub fn daa(value: u8, ac: bool, carry: bool) -> (u8, Flags)
    ensures { result ≡ adjusted value ac carry }
{
    let low = if value & 0x0f > 9 || ac { 0x06 } else { 0x00 };
    let sum = value as u16 + low as u16;
    let high = sum >= 0xa0 || carry;
    let total = if high { sum + 0x60 } else { sum };
    let adjusted = (total & 0xff) as u8;
    (
        adjusted,
        flags_of_result(adjusted, (value & 0x0f) + low > 0x0f, high),
    )
}

/// The sum of two register pairs, modulo 65,536, and the carry out of bit 15 (DAD).
pub fn dad(a: u16, b: u16) -> (u16, bool)
    ensures { result ≡ pair_sum a b }
{
    let sum = a as u32 + b as u32;
    ((sum & 0xffff) as u16, sum & 0x1_0000 != 0)
}

// The mask if the flag is set, otherwise 0.
fn flag_mask(flag: bool, mask: u8) -> u8
    ensures { result ≡ mask * bit flag }
{
    if flag { mask } else { 0 }
}

/// The flag byte that PUSH PSW stores, from bit 7 down: S Z 0 AC 0 P 1 CY.
pub fn psw(flags: Flags) -> u8
    ensures byte { result ≡ flag_byte flags }
    ensures back { flags_from result ≡ flags }
{
    flag_mask(flags.s, SIGN)
        | flag_mask(flags.z, ZERO)
        | flag_mask(flags.ac, AUXILIARY_CARRY)
        | flag_mask(flags.p, PARITY)
        | ALWAYS_ONE
        | flag_mask(flags.cy, CARRY)
}

/// The flags that POP PSW takes from a byte; its other three bits are ignored.
pub fn of_psw(byte: u8) -> Flags
    ensures { result ≡ flags_from byte }
{
    Flags {
        s: byte & SIGN != 0,
        z: byte & ZERO != 0,
        ac: byte & AUXILIARY_CARRY != 0,
        p: byte & PARITY != 0,
        cy: byte & CARRY != 0,
    }
}

/// A byte rotated left by one bit, with `low` shifted in as bit 0, and the bit shifted out (RLC, RAL).
pub fn rotate_left(byte: u8, low: bool) -> (u8, bool)
    ensures { result ≡ rotated_left byte low }
{
    let shifted = ((byte as u16) << 1) & 0xff;
    (shifted as u8 + low as u8, byte & 0x80 != 0)
}

/// A byte rotated right by one bit, with `high` shifted in as bit 7, and the bit shifted out (RRC, RAR).
pub fn rotate_right(byte: u8, high: bool) -> (u8, bool)
    ensures { result ≡ rotated_right byte high }
{
    ((byte >> 1) + flag_mask(high, 0x80), byte & 0x01 != 0)
}

//! Every decimal adjustment, checked against a formula over digits.
use i8080_words::{daa, psw};

fn is_even(byte: u8) -> bool {
    let half = byte ^ (byte >> 4);
    let quarter = half ^ (half >> 2);
    (quarter ^ (quarter >> 1)) & 1 == 0
}

// The adjustment, digit by digit: a digit above 9, or with a carry out of it, is corrected by 6, and a carry stays set.
// Returns the value and the flag byte.
fn by_digits(value: u8, ac: bool, carry: bool) -> (u8, u8) {
    let low = value & 0x0f;
    let high = value >> 4;
    let low_correction = if ac || low > 9 { 6 } else { 0 };
    let carries = carry || high > 9 || high == 9 && low > 9;
    let high_correction = if carries { 0x60 } else { 0 };
    let adjusted = value.wrapping_add(low_correction + high_correction);
    let mut flags = (adjusted & 0x80) | 0x02;
    if adjusted == 0 {
        flags |= 0x40;
    }
    if low + low_correction > 15 {
        flags |= 0x10;
    }
    if is_even(adjusted) {
        flags |= 0x04;
    }
    if carries {
        flags |= 0x01;
    }
    (adjusted, flags)
}

#[test]
fn every_adjustment_is_the_one_by_digits(rt: HostRuntime) {
    for case in 0..1024u16 {
        let value = (case >> 2) as u8;
        let ac = case & 1 != 0;
        let carry = case & 2 != 0;
        let (adjusted, flags) = daa(value, ac, carry);
        assert!(rt;
            (adjusted, psw(flags)) == by_digits(value, ac, carry),
            "at {case}"
        );
    }
}

//! Examples of the arithmetic, of the codes and of the refusals, one for each call. What each code and each refusal is called:
//! tests/transcripts/listings.txt and sessions.txt.
use i8080_words::{
    AddressRegister, Fault, Op, RegisterPair, add8, and8, daa, dad, dcr, decode, inr, length,
    of_psw, opcode, or8, psw, rotate_left, rotate_right, sub8, xor8,
};

#[test]
fn bytes_are_computed_with_their_flags(rt: HostRuntime) {
    let computed = [
        (add8(0x6c, 0x2e, false), (0x9a, 0x96)),
        (sub8(0x3e, 0x3e, false), (0x00, 0x56)),
        (daa(0x9b, false, false), (0x01, 0x13)),
        (daa(0xfa, false, false), (0x60, 0x17)),
        (and8(0xfc, 0x0f), (0x0c, 0x16)),
        (or8(0x33, 0x0f), (0x3f, 0x06)),
        (xor8(0x5c, 0x78), (0x24, 0x06)),
        (inr(0xff, true), (0x00, 0x57)),
        (dcr(0x00, false), (0xff, 0x86)),
    ];
    for ((value, flags), wanted) in computed {
        assert!(rt; (value, psw(flags)) == wanted);
    }
    assert!(rt; psw(of_psw(0xff)) == 0xd7 && psw(of_psw(0x00)) == 0x02);
}

#[test]
fn words_are_added_and_bytes_rotated(rt: HostRuntime) {
    assert!(rt; dad(0xa17b, 0x339f) == (0xd51a, false));
    assert!(rt; dad(0xffff, 0x0001) == (0x0000, true));
    assert!(rt; rotate_left(0xf2, true) == (0xe5, true));
    assert!(rt; rotate_right(0xf2, false) == (0x79, false));
    assert!(rt; AddressRegister::new(0xffff).get() == 0xffff);
}

#[test]
fn a_code_has_its_data(rt: HostRuntime) {
    assert!(rt; decode([0x21, 0xcd, 0xab]) == Op::Lxi(RegisterPair::HL, 0xabcd));
    assert!(rt; opcode(0x21) == Op::Lxi(RegisterPair::HL, 0));
    assert!(rt; length(0x21) == 3);
}

#[test]
fn refusals_have_numbers(rt: HostRuntime) {
    assert!(rt; Fault::OutOfMemory.number() == 1);
    assert!(rt; Fault::BadScript(7).number() == 19);
}

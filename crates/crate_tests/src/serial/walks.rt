//! Long walks of a port by calls drawn at random. The expected folds were made by an independent program.
//!
//! Walk r draws from x = r, begins with a port at boot, and makes 2,000 rounds. A round draws which call it makes, modulo 8, and a byte for
//! it; it folds what the call returns, and at its end the line.
use crate::folds::{Draw, Fold};
use serial_2sio::Acia;

#[rattlefmt::skip]
static FOLDED: [u32; 64] = [
    0x5562_c6e4, 0x513a_9900, 0x9af4_40ef, 0x5c59_84a6, 0xb990_8812, 0x0d30_f877, 0x12cd_1bc0, 0x8d1a_400f,
    0x6773_636a, 0x7f85_78d9, 0x0273_6dcc, 0x64f7_b671, 0x7b9f_9c07, 0x250a_c1df, 0xfdab_94c7, 0x12ad_770a,
    0x1321_9ebd, 0x1c9e_9c16, 0xd126_ce4d, 0xffa4_b128, 0xb109_7d55, 0x92cb_433a, 0x6e37_cbbf, 0x7cc0_3b98,
    0xba4d_1ea5, 0xe83a_9af0, 0xf280_cb0b, 0xef4d_23ed, 0x206c_7636, 0xdaa0_269b, 0x139a_0afe, 0x1074_3cc2,
    0x323a_5e97, 0xb094_77b5, 0xbf3f_e016, 0x32ef_4ae1, 0xa70b_c67e, 0x642d_f4c6, 0xc541_c838, 0x02a1_64da,
    0xa096_8cea, 0x366f_0045, 0xfab9_e31b, 0xf718_392a, 0x8e79_ac1b, 0xf727_448d, 0xe740_8e60, 0xe781_4bb5,
    0xd554_8f99, 0xcc8d_190e, 0x18bc_fde3, 0x1048_8019, 0x3bab_6452, 0xae3f_d55a, 0x566c_1a2b, 0xc3a6_9715,
    0x2a70_7c48, 0x8d4f_d1d0, 0x43b7_b80f, 0xcbf2_d165, 0x15f7_77b6, 0xb22d_60dd, 0xdb77_7f4a, 0x4c20_a91c,
];

// Folds what a call returns: for a byte that is sent 0 if none goes out, otherwise 1 and the byte; for an acceptance 0, or
// the number of the refusal.
fn call(fold: &mut Fold, port: &mut Acia, kind: u8, drawn: u8) {
    match kind {
        0 => port.control(drawn),
        1 | 2 => fold.byte(port.status()),
        3 => fold.byte(port.data_in()),
        4 | 5 => match port.data_out(drawn) {
            None => fold.byte(0),
            Some(sent) => fold.bytes(&[1, sent]),
        },
        6 => port.receive(drawn),
        _ => match port.sent() {
            Ok(()) => fold.byte(0),
            Err(fault) => fold.byte(fault.number()),
        },
    }
}

// The fold at the end of a walk.
fn folded_by(number: u32) -> u32 {
    let mut draw = Draw::new(number);
    let mut fold = Fold::new();
    let mut port = Acia::new();
    for _ in 0..2000 {
        let kind = draw.byte() % 8;
        call(&mut fold, &mut port, kind, draw.byte());
        fold.byte(u8::from(port.line()));
    }
    fold.folded
}

#[test]
fn walks_fold_to_the_numbers_of_another_program(rt: HostRuntime) {
    for (number, folded) in (0..64).zip(&FOLDED) {
        assert!(rt; folded_by(number) == *folded, "walk {number}");
    }
}

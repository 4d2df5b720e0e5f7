//! Long walks of the controller by calls drawn at random. The expected folds were made by an independent program. The second executor's
//! drives are proved to do what the same table says.
//!
//! Walk r draws from x = r, has r mod 4 + 1 drives, and makes 2,000 rounds. A round draws which call it makes, modulo 16, and a byte for
//! it; it folds what the call returns, and at its end the status and the line. An answer is folded as 0, or as the number of its refusal.
use crate::folds::{Draw, Fold};
use disk_dcdd::*;
use i8080_words::{GREATEST_NUMBER, R};
use std::process::Abort;

#[rattlefmt::skip]
static FOLDED: [u32; 64] = [
    0x0309_40a9, 0xb4de_e9fb, 0x4a4d_c1b7, 0x5aeb_a147, 0x5f1d_578f, 0x2f2c_83bc, 0xfd50_442c, 0xef3e_911a,
    0x93a6_2eab, 0xc6ee_60a2, 0x929f_ea5f, 0x6bfa_782f, 0xc59c_9ad8, 0x0614_152b, 0x5aa9_d95f, 0xe2ab_15b4,
    0xfd67_98f8, 0xefcd_063c, 0xe2c7_371b, 0x5aac_a4e1, 0xa205_34eb, 0x37ec_7e22, 0x7cc6_4b4a, 0x3da3_29b8,
    0xd133_c353, 0xa720_6dfe, 0xa4b9_64d9, 0x4c25_3069, 0x1291_637a, 0x7a58_258c, 0xd21b_e6ce, 0x31d5_d3bb,
    0x962c_ebed, 0xd8b4_0e0b, 0x05b1_b865, 0x44eb_0b4a, 0x8251_4743, 0x675f_f1bf, 0x772d_3a5c, 0x60ce_497c,
    0x757b_2dc8, 0xdeac_64c7, 0xbcdf_1af9, 0x179f_891d, 0x467e_0343, 0xb0b4_6d7d, 0x9c8a_8b62, 0x87a2_dff1,
    0x361f_6bbd, 0xfb4d_33c7, 0x38e5_d7dd, 0xb65b_2ba5, 0xe67e_9373, 0xb93d_0474, 0xffc5_ffec, 0xfe44_f98a,
    0xedb6_1754, 0x757e_2493, 0x793f_f29f, 0x38e7_911d, 0x9f9a_975e, 0xd4cd_41fc, 0x477f_5554, 0xa4d7_8b16,
];

fn number_of(answer: R<()>) -> u8 {
    match answer {
        Ok(()) => 0,
        Err(fault) => fault.number(),
    }
}

// The bytes that count up from this one.
fn counting_from(first: u8) -> [u8; SECTOR_BYTES] {
    let mut bytes = [0; SECTOR_BYTES];
    let mut next = first;
    for byte in bytes.iter_mut() {
        *byte = next;
        next = next.wrapping_add(1);
    }
    bytes
}

fn fold_write(fold: &mut Fold, write: &SectorWrite) {
    let [.., number] = write.number.to_be_bytes();
    fold.bytes(&[number, write.drive, write.track, write.sector]);
    fold.bytes(&write.bytes);
}

// Brings a sector under the head.
fn bring(disk: &mut Controller, fold: &mut Fold, sector: u8, bytes: [u8; SECTOR_BYTES]) {
    fold.byte(number_of(disk.sector(sector, bytes)));
}

// Sends a byte, and folds the write that it completes, or 0.
fn send(rt: &impl Abort, disk: &mut Controller, fold: &mut Fold, byte: u8) {
    assert!(rt; disk.issued() < GREATEST_NUMBER);
    match disk.data_out(byte) {
        None => fold.byte(0),
        Some(write) => fold_write(fold, &write),
    }
}

// Sends this many bytes, that count up from the first one, each exclusive-ored with another.
fn send_all(
    rt: &impl Abort,
    disk: &mut Controller,
    fold: &mut Fold,
    first: u8,
    crossed: u8,
    count: u8,
) {
    for place in 0..count {
        send(rt, disk, fold, first.wrapping_add(place) ^ crossed);
    }
}

fn finish(rt: &impl Abort, disk: &mut Controller, fold: &mut Fold, drawn: u8) {
    let issued = disk.issued();
    assert!(rt; issued < GREATEST_NUMBER);
    let number = 1 + u64::from(drawn) % (issued + 2);
    fold.byte(number_of(disk.written(number)));
}

// The calls that select, step, look and bring sectors.
fn call(disk: &mut Controller, fold: &mut Fold, kind: u8, drawn: u8) {
    match kind {
        0 => disk.select(drawn),
        1 => disk.select(drawn & 3),
        2 => disk.command(drawn),
        3 => disk.command(0x04),
        4 => disk.command(drawn & 0x17),
        5 => disk.command(0x01),
        6 => fold.byte(disk.position()),
        7 => bring(disk, fold, drawn & 31, counting_from(drawn)),
        _ => bring(disk, fold, drawn & 63, counting_from(drawn)),
    }
}

// Reads this many bytes.
fn read_all(disk: &mut Controller, fold: &mut Fold, count: u8) {
    for _ in 0..count {
        fold.byte(disk.data_in());
    }
}

// Writes all of a sector of zeros.
fn write_whole(rt: &impl Abort, disk: &mut Controller, fold: &mut Fold, drawn: u8) {
    disk.command(0x04);
    bring(disk, fold, drawn & 31, [0; SECTOR_BYTES]);
    disk.command(0x80);
    send_all(rt, disk, fold, drawn, 0, 137);
}

// The calls that read and write the bytes of sectors, and complete writes.
fn transfer(rt: &impl Abort, disk: &mut Controller, fold: &mut Fold, kind: u8, drawn: u8) {
    match kind {
        9 => read_all(disk, fold, drawn),
        10 => send_all(rt, disk, fold, drawn, 0, drawn % 160),
        11 => disk.command(0x80),
        12 => write_whole(rt, disk, fold, drawn),
        13 => send_all(rt, disk, fold, 0, drawn, 137),
        14 => finish(rt, disk, fold, drawn),
        _ => {}
    }
}

fn round(rt: &impl Abort, disk: &mut Controller, fold: &mut Fold, kind: u8, drawn: u8) {
    if kind < 9 {
        call(disk, fold, kind, drawn);
    } else {
        transfer(rt, disk, fold, kind, drawn);
    }
    fold.byte(disk.status());
    fold.byte(u8::from(disk.line()));
}

// The fold at the end of a walk.
fn folded_by(rt: &impl Abort, number: u8) -> u32 {
    let mut draw = Draw::new(u32::from(number));
    let mut fold = Fold::new();
    let mut disk = Controller::new(number % 4 + 1);
    for _ in 0..2000 {
        let kind = draw.byte() % 16;
        round(rt, &mut disk, &mut fold, kind, draw.byte());
    }
    fold.folded
}

#[test]
fn walks_fold_to_the_numbers_of_another_program(rt: HostRuntime) {
    for (number, folded) in (0..64).zip(&FOLDED) {
        assert!(rt; folded_by(&rt, number) == *folded, "walk {number}");
    }
}

//! Each code from 256 states. The expected folds were made by an independent program, whose arithmetic produces
//! the published checksums of an 8080 exerciser.
//!
//! Memory holds the 65,536 bytes drawn from x = 8080. For each code, numbers are drawn from x = code; a round draws A, F, B, C, D, E,
//! H, L, SP, PC and two bytes of data, which go after the code at PC, and executes one step with interrupts off. IN p reads p XOR 5A.
//! A round folds the registers, the interrupts (0 off, 1 soon, 2 on), whether the processor is halted, each port access (49 and the
//! port; 4F, the port and the byte), and the sum over the bytes written of (address * 256 + byte) * 2654435761 modulo 2^32, highest
//! byte first. The second executor is proved to do what the same definitions say.

use super::machine::{PortAccess, TestBus};
use crate::folds::{Draw, Fold};
use i8080_core::Cpu;
use i8080_words::{AddressRegister, Interrupts, Processor, R, Regs, of_psw, psw};
use std::alloc::Global;
use std::process::Abort;

#[rattlefmt::skip]
static FOLDED: [u32; 256] = [
    0xd8b8_7522, 0x4435_bfd9, 0xa4d0_8c0f, 0x6bca_1426, 0xe626_8db5, 0x64ea_086c, 0x9991_7cf3, 0x97fb_4650,
    0xa4cd_dd4b, 0x107d_df61, 0xab1f_d160, 0x7f4f_2d0c, 0x27f0_9a9b, 0x5d53_f0c9, 0x9422_c374, 0xe167_3ddc,
    0x1dac_e048, 0x4f48_34b7, 0x88be_351e, 0xa694_1aab, 0x73b7_6fec, 0x267a_8701, 0x4f2e_764c, 0xfd24_57fe,
    0x4405_16de, 0xaad7_9180, 0x0b37_15e5, 0x202c_0499, 0xdad7_f7ad, 0x9f81_6569, 0x2a5b_42df, 0x5e35_ac83,
    0xc79b_4c1f, 0x3501_d273, 0x7aa5_81f9, 0xd6b6_5f7f, 0x149a_4676, 0x998f_538e, 0x394a_6067, 0xea56_331b,
    0x9d8a_44fc, 0x5c5f_a50e, 0x8a12_e778, 0xb936_180d, 0x79ca_c66e, 0x1277_a326, 0xa674_fc00, 0xb6b6_1812,
    0x356a_d390, 0x467d_4255, 0x8d39_ace7, 0xb21a_18c0, 0x25f9_4903, 0x389c_13f3, 0xe4e6_d5df, 0x430e_1fb3,
    0x819b_70e8, 0x2c0d_007c, 0xa0c2_a6c3, 0x8794_e146, 0x855b_428e, 0xd35b_41fd, 0xdca3_0676, 0x87c4_6b52,
    0x40cc_141e, 0x6a72_41cf, 0xc63b_4cd4, 0xa6ee_ca39, 0x3114_428b, 0x8155_134b, 0x2656_8551, 0x6ec7_4d1a,
    0x36d6_9b5a, 0xbb86_f4e7, 0x74fd_056e, 0xc8ce_f909, 0x4196_02b9, 0x8cf9_cc38, 0xa87c_6d01, 0x9ae2_7b33,
    0x1a8f_4e23, 0x91c5_b07b, 0xadcb_de31, 0x8682_c9f4, 0xc14a_9857, 0x0b6f_06ed, 0xfc6e_35da, 0x0716_7843,
    0x8f73_c4e9, 0x914d_fccc, 0xef62_e292, 0x96de_6ed8, 0x5e6e_dce5, 0xd90a_c3e9, 0xd2b8_13ec, 0x3132_744b,
    0xa63c_f576, 0xe2d9_4b4a, 0xa560_69ed, 0xa115_8096, 0x7fa9_7869, 0xaf3f_0256, 0xa390_02e0, 0xe9cb_b08b,
    0x4e50_3cca, 0xcaa5_0924, 0x5182_2340, 0x93a2_67ab, 0xdb06_5514, 0x72b5_a693, 0x9895_a939, 0xff72_3a87,
    0xe8e6_449d, 0x4b60_ae09, 0x272f_723e, 0x28a1_3be3, 0xde67_9121, 0x000b_39ec, 0xe984_9011, 0x4290_dc4c,
    0xb707_5262, 0x23e2_1d10, 0x7b4b_19cc, 0xf8b5_365f, 0xcc78_c972, 0x6eac_505d, 0x096c_3c32, 0x8c26_a53b,
    0xdb3b_6e5f, 0xfde7_6052, 0x3f70_b796, 0x155c_7cd6, 0x8f85_917a, 0x659e_ed78, 0x1a84_2f8a, 0x9631_897e,
    0xf405_f8c6, 0x96bb_865e, 0x3617_efa1, 0x0d89_b477, 0x726a_1dfc, 0x2f53_480c, 0x4a2d_aa1c, 0x82bf_430a,
    0xa35b_0081, 0x4345_1e6c, 0x4595_6506, 0x3dbd_1d47, 0x4b3d_91e7, 0x36ae_d7f1, 0x39bb_f081, 0xd606_f9fa,
    0x8ea9_a054, 0xeeea_999d, 0x3f91_c8ed, 0xd1de_bcfa, 0xdbb3_6d19, 0xc8f7_9e58, 0xe9aa_63b1, 0x3605_dbbb,
    0x7e57_723e, 0xe228_27d9, 0xaee8_cc4c, 0xa1c1_373d, 0xc15f_a4c4, 0x0d9d_e2e8, 0x537e_9383, 0x946b_83c1,
    0x7f85_a2f0, 0x74d2_c986, 0xd465_f8ad, 0x2642_911c, 0xd346_585b, 0x0e61_b432, 0xb208_1d50, 0x45d6_b1ad,
    0x96d6_8f8d, 0x41e6_bfa9, 0xb1f2_885a, 0x8dcb_cf31, 0xcc63_a7a5, 0xad37_3083, 0xf552_7d4d, 0x4805_caba,
    0xc5b1_0aab, 0xba19_dac1, 0xb8fb_beea, 0x9822_408a, 0x0466_81d1, 0x3132_1581, 0xeb3f_078d, 0x5bd0_1790,
    0xa23d_a5f7, 0x1df5_1950, 0xfc38_9242, 0xc2ab_356a, 0xeac7_5538, 0x8934_81c0, 0x4b9f_abc5, 0xee50_56aa,
    0x00c9_0336, 0x0a98_1544, 0xce63_6b8e, 0x4637_082d, 0xf9f3_cf71, 0x8295_973f, 0xd025_62a4, 0xc755_d02d,
    0x6481_ee77, 0x3ff8_743c, 0xa44e_d7f1, 0x7c93_2943, 0x8f07_4107, 0x9b57_ce11, 0xf69e_ef80, 0x110f_34af,
    0xd8d6_8f78, 0x9e1a_068a, 0x52a8_0a2d, 0xbf80_1944, 0xebce_5742, 0xc493_bfea, 0x542b_0fc3, 0x2156_f8bb,
    0x0fe8_32f5, 0xf37d_683d, 0xcaac_cf2d, 0x16b8_75d1, 0xb99b_7302, 0xc728_bf54, 0x7bab_c6a8, 0xdc26_cc6d,
    0xafcb_a54e, 0x3872_2e0d, 0xf07a_77c1, 0x2c0f_9a4d, 0xe266_cf6e, 0x282d_de04, 0x40fd_7943, 0xfe4a_c67b,
    0x2d71_731e, 0xa1cb_98bd, 0xa3ea_b7d4, 0x0301_bee8, 0x3221_0cd7, 0xda08_0bbc, 0x3ef1_a3d4, 0x63be_eba8,
    0xa2fa_72d5, 0x2d94_cea4, 0xfb0c_0cf2, 0x561c_c9cc, 0x6fc8_2e74, 0x9138_8a10, 0x2f08_37a6, 0x3b6e_736c,
];

// What a round draws: registers, flags, and the data after the code.
fn drawn_bytes(draw: &mut Draw) -> [u8; 14] {
    let mut bytes = [0; 14];
    for byte in bytes.iter_mut() {
        *byte = draw.byte();
    }
    bytes
}

// A processor with drawn registers, whose interrupts are off.
fn processor_of(drawn: [u8; 14]) -> Processor {
    let [
        a,
        f,
        b,
        c,
        d,
        e,
        h,
        l,
        sp_high,
        sp_low,
        pc_high,
        pc_low,
        _,
        _,
    ] = drawn;
    let regs = Regs {
        a,
        flags: of_psw(f),
        b,
        c,
        d,
        e,
        h,
        l,
        sp: AddressRegister::new(u16::from_be_bytes([sp_high, sp_low])),
        pc: AddressRegister::new(u16::from_be_bytes([pc_high, pc_low])),
    };
    Processor {
        regs,
        interrupts: Interrupts::Off,
        halted: false,
    }
}

fn fold_processor(fold: &mut Fold, processor: &Processor) {
    let regs = processor.regs;
    fold.bytes(&[
        regs.a,
        psw(regs.flags),
        regs.b,
        regs.c,
        regs.d,
        regs.e,
        regs.h,
        regs.l,
    ]);
    fold.bytes(&regs.sp.get().to_be_bytes());
    fold.bytes(&regs.pc.get().to_be_bytes());
    fold.byte(match processor.interrupts {
        Interrupts::Off => 0,
        Interrupts::Soon => 1,
        Interrupts::On => 2,
    });
    fold.byte(u8::from(processor.halted));
}

fn fold_port(fold: &mut Fold, access: &Option<PortAccess>) {
    match access {
        None => {}
        Some(PortAccess::In(port)) => fold.bytes(&[0x49, *port]),
        Some(PortAccess::Out(port, byte)) => fold.bytes(&[0x4f, *port, *byte]),
    }
}

// Puts the byte that memory had before the first round.
fn restore(machine: &mut TestBus, before: &[u8], address: u16) {
    let byte = before.get(address as usize).copied().unwrap_or(0);
    machine.put(address, byte);
}

// Puts a code and its data at an address.
fn load(machine: &mut TestBus, address: u16, bytes: &[u8; 3]) {
    let mut at = address;
    for byte in bytes {
        machine.put(at, *byte);
        at = at.wrapping_add(1);
    }
}

// Restores what a step and its code overwrote, and forgets the step.
fn take_back(machine: &mut TestBus, before: &[u8], address: u16) {
    let written = machine.written;
    for at in written.iter().flatten() {
        restore(machine, before, *at);
    }
    for offset in 0..3 {
        restore(machine, before, address.wrapping_add(offset));
    }
    machine.written = [None; 2];
    machine.port = None;
}

// The processor after a step.
fn stepped(machine: &mut TestBus, processor: &Processor) -> Processor {
    let mut cpu = Cpu::resume(*processor);
    let _ran = cpu.step(machine, None);
    *cpu.processor()
}

// One round of a code.
fn round(code: u8, draw: &mut Draw, fold: &mut Fold, machine: &mut TestBus, before: &[u8]) {
    let drawn = drawn_bytes(draw);
    let [.., first, second] = drawn;
    let processor = processor_of(drawn);
    let regs = processor.regs;
    let address = regs.pc.get();
    load(machine, address, &[code, first, second]);
    let after = stepped(machine, &processor);
    fold_processor(fold, &after);
    fold_port(fold, &machine.port);
    fold.bytes(&machine.written_sum().to_be_bytes());
    take_back(machine, before, address);
}

// The fold of a code after 256 rounds.
fn folded_by(code: u8, machine: &mut TestBus, before: &[u8]) -> u32 {
    let mut draw = Draw::new(u32::from(code));
    let mut fold = Fold::new();
    for _ in 0..256 {
        round(code, &mut draw, &mut fold, machine, before);
    }
    fold.folded
}

// The first 65,536 bytes drawn from 8080.
fn drawn_memory(alloc: Global) -> R<Vec<u8>> {
    let mut bytes = vec![in alloc; 0u8; 65536]?;
    let mut draw = Draw::new(8080);
    for byte in bytes.iter_mut() {
        *byte = draw.byte();
    }
    Ok(bytes)
}

// Each code has its fold, and no step has written anywhere else.
fn expect_folds(rt: &impl Abort, machine: &mut TestBus, before: &[u8]) {
    for (code, folded) in (0..=255).zip(&FOLDED) {
        assert!(rt; folded_by(code, machine, before) == *folded, "code {code}");
    }
    assert!(rt; machine.bytes.as_slice() == before);
}

#[test]
fn codes_fold_to_the_numbers_of_another_program(rt: HostRuntime) -> R<()> {
    let before = drawn_memory(rt.alloc())?;
    assert!(rt; before.starts_with(&[0x5e, 0x2a, 0x43, 0xc2, 0x6e, 0x20, 0x1f, 0x27]));
    let mut machine = TestBus::of(before.clone()?);
    expect_folds(&rt, &mut machine, &before);
    Ok(())
}

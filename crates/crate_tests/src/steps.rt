//! Worked examples of interrupts, HLT and steps made in place, over all of memory.
mod codes;
mod machine;

use i8080_core::{Bus, Cpu};
use i8080_words::{AddressRegister, Interrupts, Processor, R, Regs, Stepped};
use machine::TestBus;
use std::alloc::Global;
use std::process::Abort;

// A processor at 0000 with SP 0100.
fn at_start(interrupts: Interrupts) -> Cpu {
    let reset = *Cpu::reset().processor();
    let regs = Regs {
        sp: AddressRegister::new(0x0100),
        ..reset.regs
    };
    Cpu::resume(Processor {
        regs,
        interrupts,
        ..reset
    })
}

// A memory with a program followed by zeros.
fn load(alloc: Global, program: &[u8]) -> R<TestBus> {
    let mut bytes = Vec::from_slice(alloc, program)?;
    bytes.resize(65536, 0x00)?;
    Ok(TestBus::of(bytes))
}

// A program; whether a request of level 7 is there at each step, and the kind of the step; and the low byte of the address that
// the last step pushes, whose high byte is 00.
type WaitingRequest = (&'static [u8], &'static [(bool, Stepped)], u8);

static WAITS: [WaitingRequest; 3] = [
    // It waits for one instruction after EI, and for one more after a second one.
    (
        &[0xfb, 0x00, 0x00],
        &[
            (true, Stepped::Ran),
            (true, Stepped::Ran),
            (true, Stepped::Accepted),
        ],
        0x02,
    ),
    (
        &[0xfb, 0xfb, 0x00],
        &[
            (true, Stepped::Ran),
            (true, Stepped::Ran),
            (true, Stepped::Ran),
            (true, Stepped::Accepted),
        ],
        0x03,
    ),
    // A halted processor waits for it.
    (
        &[0xfb, 0x76],
        &[
            (false, Stepped::Ran),
            (false, Stepped::Ran),
            (false, Stepped::Idle),
            (false, Stepped::Idle),
            (true, Stepped::Accepted),
        ],
        0x02,
    ),
];

#[test]
fn an_interrupt_waits_and_wakes(rt: HostRuntime) -> R<()> {
    for (program, steps, pushed) in &WAITS {
        let mut machine = load(rt.alloc(), program)?;
        let mut cpu = at_start(Interrupts::Off);
        for (active, kind) in *steps {
            let line = if *active { Some(7) } else { None };
            assert!(rt; cpu.idles(line) == (*kind == Stepped::Idle));
            assert!(rt; cpu.step(&mut machine, line) == *kind);
        }
        assert!(rt; (machine.read(0x00ff), machine.read(0x00fe)) == (0x00, *pushed));
        let regs = cpu.processor().regs;
        assert!(rt; (regs.sp.get(), regs.pc.get()) == (0x00fe, 0x0038));
    }
    Ok(())
}

// Each kind of instruction but HLT, DI, EI and IN, up to OUT 10 at 004C; subroutines at 0038 and 0040.
static EACH_KIND: [u8; 80] = [
    0x31, 0x00, 0x01, // LXI SP,0100
    0x21, 0x80, 0x00, // LXI H,0080
    0x36, 0x7f, // MVI M,7F
    0x34, // INR M
    0x7e, // MOV A,M
    0x87, // ADD A
    0xce, 0x05, // ACI 05
    0x1f, // RAR
    0x27, // DAA
    0x47, // MOV B,A
    0x11, 0x90, 0x00, // LXI D,0090
    0x12, // STAX D
    0x1a, // LDAX D
    0x19, // DAD D
    0x23, // INX H
    0x1b, // DCX D
    0xeb, // XCHG
    0x22, 0xa0, 0x00, // SHLD 00A0
    0x2a, 0xa0, 0x00, // LHLD 00A0
    0x32, 0xa2, 0x00, // STA 00A2
    0x3a, 0xa2, 0x00, // LDA 00A2
    0x05, // DCR B
    0xc5, // PUSH B
    0xe3, // XTHL
    0xe1, // POP H
    0xcd, 0x40, 0x00, // CALL 0040
    0xcc, 0x40, 0x00, // CZ 0040, which does not call
    0xc2, 0x33, 0x00, // JNZ 0033
    0x00, // passed over
    0xff, // RST 7
    0xc3, 0x3a, 0x00, // JMP 003A
    0x00, // passed over
    0xc9, // 0038: RET
    0x00, // passed over
    0x21, 0x48, 0x00, // LXI H,0048
    0xe9, // PCHL
    0x00, 0x00, // passed over
    0x3c, // 0040: INR A
    0xfa, 0x44, 0x00, // JM 0044
    0xd8, // RC
    0xb7, // ORA A
    0xc9, // RET
    0x00, // passed over
    0x21, 0x00, 0x01, // LXI H,0100
    0xf9, // SPHL
    0xd3, 0x10, // OUT 10
    0x76, // HLT
    0x00,
];

// Two processors do the same, one in place and one step by step, and have interrupts on at the end.
fn expect_alike(rt: &impl Abort, in_place: &mut TestBus, one_by_one: &mut TestBus) {
    let mut first = at_start(Interrupts::On);
    let mut second = at_start(Interrupts::On);
    assert!(rt; first.run_quietly(in_place, 13) == 13);
    assert!(rt; first.run_quietly(in_place, 1000) == 27);
    for _ in 0..40 {
        assert!(rt; second.step(one_by_one, None) == Stepped::Ran);
    }
    assert!(rt; first.processor() == second.processor());
    let regs = first.processor().regs;
    assert!(rt;
        (regs.a, regs.b, regs.d, regs.e, regs.pc.get()) == (0x04, 0x02, 0x01, 0x11, 0x004c)
    );
    assert!(rt; first.step(in_place, Some(7)) == Stepped::Accepted);
    assert!(rt; second.step(one_by_one, Some(7)) == Stepped::Accepted);
}

#[test]
fn steps_made_in_place_are_as_many_steps(rt: HostRuntime) -> R<()> {
    let mut in_place = load(rt.alloc(), &EACH_KIND)?;
    let mut one_by_one = load(rt.alloc(), &EACH_KIND)?;
    expect_alike(&rt, &mut in_place, &mut one_by_one);
    assert!(rt; in_place.bytes == one_by_one.bytes);
    Ok(())
}

// IN 10, which reads 4A; RRC; HLT.
#[test]
fn a_read_that_changes_nothing_is_made_in_place(rt: HostRuntime) -> R<()> {
    let mut machine = load(rt.alloc(), &[0xdb, 0x10, 0x0f, 0x76])?;
    let mut cpu = at_start(Interrupts::Off);
    assert!(rt; cpu.run_quietly(&mut machine, 1000) == 2);
    let regs = cpu.processor().regs;
    assert!(rt; (regs.a, regs.pc.get()) == (0x25, 0x0003));
    Ok(())
}

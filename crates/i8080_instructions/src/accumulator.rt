//! The arithmetic and logical instructions.
ghost use Rattle.std.specs.Prelude.{◌≡◌, ◌+◌, ◌*◌, ◌/◌, ◌%◌};
ghost use Rattle.i8080_words.specs.Arithmetic.{incremented, decremented, bit, has_bit, wrapped, word_of, low_byte as low_byte_of, high_byte as high_byte_of};
ghost use Rattle.i8080_words.specs.Effects.{after_accesses, operated, counted_up, counted_down, with_pair, pair_value as pair_value_of, turned as turned_of, accumulated, with_carry, with_pc, pair_added, decimal_adjusted};

use crate::bus::Bus;
use crate::operands::{offset, pair_value, set_pair};
use i8080_words::{
    AccumulatorOperation, AddressRegister, AluOperation, Flags, Register, RegisterPair, Regs, add8,
    and8, daa, dad, dcr, inr, or8, rotate_left, rotate_right, sub8, xor8,
};

/// An operation on the accumulator and a byte (ADD to CMP, ADI to CPI).
pub fn operate(operation: AluOperation, byte: u8, pc: u16, regs: &mut Regs)
    ensures { with_pc pc regs.new ≡ operated operation byte (with_pc pc regs.old) }
{
    let (value, flags) = match operation {
        AluOperation::Add => add8(regs.a, byte, false),
        AluOperation::Adc => add8(regs.a, byte, regs.flags.cy),
        AluOperation::Sub | AluOperation::Cmp => sub8(regs.a, byte, false),
        AluOperation::Sbb => sub8(regs.a, byte, regs.flags.cy),
        AluOperation::Ana => and8(regs.a, byte),
        AluOperation::Xra => xor8(regs.a, byte),
        AluOperation::Ora => or8(regs.a, byte),
    };
    regs.flags = flags;
    if operation != AluOperation::Cmp {
        regs.a = value;
    }
}

// Increments a byte.
fn count_up(byte: &mut u8, flags: &mut Flags)
    ensures byte { byte.new ≡ (incremented byte.old flags.old.cy).0 }
    ensures flags { flags.new ≡ (incremented byte.old flags.old.cy).1 }
{
    (*byte, *flags) = inr(*byte, flags.cy);
}

/// INR. Each register has its own line, so that an instruction is dispatched on its register only once.
pub fn increment<B: Bus>(bus: &mut B, register: Register, pc: u16, regs: &mut Regs)
    ensures regs { with_pc pc regs.new ≡ (counted_up register (B.byte_at (B.state bus.old)) (with_pc pc regs.old)).regs }
    ensures bus { B.state bus.new ≡ after_accesses B.after
        (counted_up register (B.byte_at (B.state bus.old)) (with_pc pc regs.old)).accesses
        (B.state bus.old) }
{
    let flags = &mut regs.flags;
    match register {
        Register::B => count_up(&mut regs.b, flags),
        Register::C => count_up(&mut regs.c, flags),
        Register::D => count_up(&mut regs.d, flags),
        Register::E => count_up(&mut regs.e, flags),
        Register::H => count_up(&mut regs.h, flags),
        Register::L => count_up(&mut regs.l, flags),
        Register::A => count_up(&mut regs.a, flags),
        Register::M => {
            let address = pair_value(RegisterPair::HL, pc, regs);
            let mut byte = bus.read(address);
            count_up(&mut byte, &mut regs.flags);
            bus.write(address, byte);
        }
    }
}

// Decrements a byte.
fn count_down(byte: &mut u8, flags: &mut Flags)
    ensures byte { byte.new ≡ (decremented byte.old flags.old.cy).0 }
    ensures flags { flags.new ≡ (decremented byte.old flags.old.cy).1 }
{
    (*byte, *flags) = dcr(*byte, flags.cy);
}

/// DCR.
pub fn decrement<B: Bus>(bus: &mut B, register: Register, pc: u16, regs: &mut Regs)
    ensures regs { with_pc pc regs.new ≡ (counted_down register (B.byte_at (B.state bus.old)) (with_pc pc regs.old)).regs }
    ensures bus { B.state bus.new ≡ after_accesses B.after
        (counted_down register (B.byte_at (B.state bus.old)) (with_pc pc regs.old)).accesses
        (B.state bus.old) }
{
    let flags = &mut regs.flags;
    match register {
        Register::B => count_down(&mut regs.b, flags),
        Register::C => count_down(&mut regs.c, flags),
        Register::D => count_down(&mut regs.d, flags),
        Register::E => count_down(&mut regs.e, flags),
        Register::H => count_down(&mut regs.h, flags),
        Register::L => count_down(&mut regs.l, flags),
        Register::A => count_down(&mut regs.a, flags),
        Register::M => {
            let address = pair_value(RegisterPair::HL, pc, regs);
            let mut byte = bus.read(address);
            count_down(&mut byte, &mut regs.flags);
            bus.write(address, byte);
        }
    }
}

fn add_to_halves(high: &mut u8, low: &mut u8, by: u16)
    ensures high { high.new ≡ high_byte_of (wrapped (word_of low.old high.old + by)) }
    ensures low { low.new ≡ low_byte_of (wrapped (word_of low.old high.old + by)) }
{
    let sum = offset(u16::from_le_bytes([*low, *high]), by);
    [*low, *high] = sum.to_le_bytes();
}

/// INX (by 1) and DCX (by FFFF).
pub fn add_to_pair(pair: RegisterPair, by: u16, pc: u16, regs: &mut Regs)
    ensures { with_pc pc regs.new
        ≡ with_pair pair (wrapped (pair_value_of pair (with_pc pc regs.old) + by)) (with_pc pc regs.old) }
{
    match pair {
        RegisterPair::BC => add_to_halves(&mut regs.b, &mut regs.c, by),
        RegisterPair::DE => add_to_halves(&mut regs.d, &mut regs.e, by),
        RegisterPair::HL => add_to_halves(&mut regs.h, &mut regs.l, by),
        RegisterPair::SP => regs.sp = AddressRegister::new(offset(regs.sp.get(), by)),
    }
}

/// DAD.
pub fn add_pair(pair: RegisterPair, pc: u16, regs: &mut Regs)
    ensures { with_pc pc regs.new ≡ pair_added pair (with_pc pc regs.old) }
{
    let (sum, carry) = dad(
        pair_value(RegisterPair::HL, pc, regs),
        pair_value(pair, pc, regs),
    );
    regs.flags.cy = carry;
    set_pair(RegisterPair::HL, sum, pc, regs);
}

fn set_turned(turned: (u8, bool), regs: &mut Regs)
    ensures { regs.new ≡ turned_of turned regs.old }
{
    let (value, carry) = turned;
    regs.a = value;
    regs.flags.cy = carry;
}

// DAA.
fn adjust(regs: &mut Regs)
    ensures { regs.new ≡ decimal_adjusted regs.old }
{
    let (value, flags) = daa(regs.a, regs.flags.ac, regs.flags.cy);
    regs.a = value;
    regs.flags = flags;
}

/// The rotations, DAA, CMA, STC and CMC.
pub fn accumulate(operation: AccumulatorOperation, pc: u16, regs: &mut Regs)
    ensures { with_pc pc regs.new ≡ accumulated operation (with_pc pc regs.old) }
{
    let a = regs.a;
    let carry = regs.flags.cy;
    match operation {
        AccumulatorOperation::Rlc => set_turned(rotate_left(a, a & 0x80 != 0), regs),
        AccumulatorOperation::Rrc => set_turned(rotate_right(a, a & 0x01 != 0), regs),
        AccumulatorOperation::Ral => set_turned(rotate_left(a, carry), regs),
        AccumulatorOperation::Rar => set_turned(rotate_right(a, carry), regs),
        AccumulatorOperation::Daa => adjust(regs),
        AccumulatorOperation::Cma => regs.a = !a,
        AccumulatorOperation::Stc => regs.flags.cy = true,
        AccumulatorOperation::Cmc => regs.flags.cy = !carry,
    }
}

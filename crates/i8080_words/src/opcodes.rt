//! The opcode table: the instruction of each of the 256 codes (8080 User's Manual, chapter 4, "Instruction set").
ghost use Rattle.std.specs.Prelude.{◌≡◌};
ghost use Rattle.i8080_words.specs.Opcodes.{opcode as opcode_of};

use crate::instruction::{
    AccumulatorOperation, AluOperation, Condition, Op, Register, RegisterPair, StackPair,
};

// Placeholders for an instruction's data.
const BYTE: u8 = 0;

const WORD: u16 = 0;

// In order of code. Codes 08, 10, 18, 20, 28, 30 and 38 are NOP too, CB is JMP, D9 is RET, and DD, ED and FD are CALL.
#[rattlefmt::skip]
static OPCODES: [Op; 256] = [
    // 00 to 07
    Op::Nop, Op::Lxi(RegisterPair::BC, WORD), Op::Stax(RegisterPair::BC), Op::Inx(RegisterPair::BC),
    Op::Inr(Register::B), Op::Dcr(Register::B), Op::Mvi(Register::B, BYTE), Op::Accumulator(AccumulatorOperation::Rlc),
    // 08 to 0F
    Op::Nop, Op::Dad(RegisterPair::BC), Op::Ldax(RegisterPair::BC), Op::Dcx(RegisterPair::BC),
    Op::Inr(Register::C), Op::Dcr(Register::C), Op::Mvi(Register::C, BYTE), Op::Accumulator(AccumulatorOperation::Rrc),
    // 10 to 17
    Op::Nop, Op::Lxi(RegisterPair::DE, WORD), Op::Stax(RegisterPair::DE), Op::Inx(RegisterPair::DE),
    Op::Inr(Register::D), Op::Dcr(Register::D), Op::Mvi(Register::D, BYTE), Op::Accumulator(AccumulatorOperation::Ral),
    // 18 to 1F
    Op::Nop, Op::Dad(RegisterPair::DE), Op::Ldax(RegisterPair::DE), Op::Dcx(RegisterPair::DE),
    Op::Inr(Register::E), Op::Dcr(Register::E), Op::Mvi(Register::E, BYTE), Op::Accumulator(AccumulatorOperation::Rar),
    // 20 to 27
    Op::Nop, Op::Lxi(RegisterPair::HL, WORD), Op::Shld(WORD), Op::Inx(RegisterPair::HL),
    Op::Inr(Register::H), Op::Dcr(Register::H), Op::Mvi(Register::H, BYTE), Op::Accumulator(AccumulatorOperation::Daa),
    // 28 to 2F
    Op::Nop, Op::Dad(RegisterPair::HL), Op::Lhld(WORD), Op::Dcx(RegisterPair::HL), Op::Inr(Register::L),
    Op::Dcr(Register::L), Op::Mvi(Register::L, BYTE), Op::Accumulator(AccumulatorOperation::Cma),
    // 30 to 37
    Op::Nop, Op::Lxi(RegisterPair::SP, WORD), Op::Sta(WORD), Op::Inx(RegisterPair::SP),
    Op::Inr(Register::M), Op::Dcr(Register::M), Op::Mvi(Register::M, BYTE), Op::Accumulator(AccumulatorOperation::Stc),
    // 38 to 3F
    Op::Nop, Op::Dad(RegisterPair::SP), Op::Lda(WORD), Op::Dcx(RegisterPair::SP), Op::Inr(Register::A),
    Op::Dcr(Register::A), Op::Mvi(Register::A, BYTE), Op::Accumulator(AccumulatorOperation::Cmc),
    // 40 to 47
    Op::Mov(Register::B, Register::B), Op::Mov(Register::B, Register::C),
    Op::Mov(Register::B, Register::D), Op::Mov(Register::B, Register::E),
    Op::Mov(Register::B, Register::H), Op::Mov(Register::B, Register::L),
    Op::Mov(Register::B, Register::M), Op::Mov(Register::B, Register::A),
    // 48 to 4F
    Op::Mov(Register::C, Register::B), Op::Mov(Register::C, Register::C),
    Op::Mov(Register::C, Register::D), Op::Mov(Register::C, Register::E),
    Op::Mov(Register::C, Register::H), Op::Mov(Register::C, Register::L),
    Op::Mov(Register::C, Register::M), Op::Mov(Register::C, Register::A),
    // 50 to 57
    Op::Mov(Register::D, Register::B), Op::Mov(Register::D, Register::C),
    Op::Mov(Register::D, Register::D), Op::Mov(Register::D, Register::E),
    Op::Mov(Register::D, Register::H), Op::Mov(Register::D, Register::L),
    Op::Mov(Register::D, Register::M), Op::Mov(Register::D, Register::A),
    // 58 to 5F
    Op::Mov(Register::E, Register::B), Op::Mov(Register::E, Register::C),
    Op::Mov(Register::E, Register::D), Op::Mov(Register::E, Register::E),
    Op::Mov(Register::E, Register::H), Op::Mov(Register::E, Register::L),
    Op::Mov(Register::E, Register::M), Op::Mov(Register::E, Register::A),
    // 60 to 67
    Op::Mov(Register::H, Register::B), Op::Mov(Register::H, Register::C),
    Op::Mov(Register::H, Register::D), Op::Mov(Register::H, Register::E),
    Op::Mov(Register::H, Register::H), Op::Mov(Register::H, Register::L),
    Op::Mov(Register::H, Register::M), Op::Mov(Register::H, Register::A),
    // 68 to 6F
    Op::Mov(Register::L, Register::B), Op::Mov(Register::L, Register::C),
    Op::Mov(Register::L, Register::D), Op::Mov(Register::L, Register::E),
    Op::Mov(Register::L, Register::H), Op::Mov(Register::L, Register::L),
    Op::Mov(Register::L, Register::M), Op::Mov(Register::L, Register::A),
    // 70 to 77
    Op::Mov(Register::M, Register::B), Op::Mov(Register::M, Register::C),
    Op::Mov(Register::M, Register::D), Op::Mov(Register::M, Register::E),
    Op::Mov(Register::M, Register::H), Op::Mov(Register::M, Register::L), Op::Hlt,
    Op::Mov(Register::M, Register::A),
    // 78 to 7F
    Op::Mov(Register::A, Register::B), Op::Mov(Register::A, Register::C),
    Op::Mov(Register::A, Register::D), Op::Mov(Register::A, Register::E),
    Op::Mov(Register::A, Register::H), Op::Mov(Register::A, Register::L),
    Op::Mov(Register::A, Register::M), Op::Mov(Register::A, Register::A),
    // 80 to 87
    Op::Arithmetic(AluOperation::Add, Register::B), Op::Arithmetic(AluOperation::Add, Register::C),
    Op::Arithmetic(AluOperation::Add, Register::D), Op::Arithmetic(AluOperation::Add, Register::E),
    Op::Arithmetic(AluOperation::Add, Register::H), Op::Arithmetic(AluOperation::Add, Register::L),
    Op::Arithmetic(AluOperation::Add, Register::M), Op::Arithmetic(AluOperation::Add, Register::A),
    // 88 to 8F
    Op::Arithmetic(AluOperation::Adc, Register::B), Op::Arithmetic(AluOperation::Adc, Register::C),
    Op::Arithmetic(AluOperation::Adc, Register::D), Op::Arithmetic(AluOperation::Adc, Register::E),
    Op::Arithmetic(AluOperation::Adc, Register::H), Op::Arithmetic(AluOperation::Adc, Register::L),
    Op::Arithmetic(AluOperation::Adc, Register::M), Op::Arithmetic(AluOperation::Adc, Register::A),
    // 90 to 97
    Op::Arithmetic(AluOperation::Sub, Register::B), Op::Arithmetic(AluOperation::Sub, Register::C),
    Op::Arithmetic(AluOperation::Sub, Register::D), Op::Arithmetic(AluOperation::Sub, Register::E),
    Op::Arithmetic(AluOperation::Sub, Register::H), Op::Arithmetic(AluOperation::Sub, Register::L),
    Op::Arithmetic(AluOperation::Sub, Register::M), Op::Arithmetic(AluOperation::Sub, Register::A),
    // 98 to 9F
    Op::Arithmetic(AluOperation::Sbb, Register::B), Op::Arithmetic(AluOperation::Sbb, Register::C),
    Op::Arithmetic(AluOperation::Sbb, Register::D), Op::Arithmetic(AluOperation::Sbb, Register::E),
    Op::Arithmetic(AluOperation::Sbb, Register::H), Op::Arithmetic(AluOperation::Sbb, Register::L),
    Op::Arithmetic(AluOperation::Sbb, Register::M), Op::Arithmetic(AluOperation::Sbb, Register::A),
    // A0 to A7
    Op::Arithmetic(AluOperation::Ana, Register::B), Op::Arithmetic(AluOperation::Ana, Register::C),
    Op::Arithmetic(AluOperation::Ana, Register::D), Op::Arithmetic(AluOperation::Ana, Register::E),
    Op::Arithmetic(AluOperation::Ana, Register::H), Op::Arithmetic(AluOperation::Ana, Register::L),
    Op::Arithmetic(AluOperation::Ana, Register::M), Op::Arithmetic(AluOperation::Ana, Register::A),
    // A8 to AF
    Op::Arithmetic(AluOperation::Xra, Register::B), Op::Arithmetic(AluOperation::Xra, Register::C),
    Op::Arithmetic(AluOperation::Xra, Register::D), Op::Arithmetic(AluOperation::Xra, Register::E),
    Op::Arithmetic(AluOperation::Xra, Register::H), Op::Arithmetic(AluOperation::Xra, Register::L),
    Op::Arithmetic(AluOperation::Xra, Register::M), Op::Arithmetic(AluOperation::Xra, Register::A),
    // B0 to B7
    Op::Arithmetic(AluOperation::Ora, Register::B), Op::Arithmetic(AluOperation::Ora, Register::C),
    Op::Arithmetic(AluOperation::Ora, Register::D), Op::Arithmetic(AluOperation::Ora, Register::E),
    Op::Arithmetic(AluOperation::Ora, Register::H), Op::Arithmetic(AluOperation::Ora, Register::L),
    Op::Arithmetic(AluOperation::Ora, Register::M), Op::Arithmetic(AluOperation::Ora, Register::A),
    // B8 to BF
    Op::Arithmetic(AluOperation::Cmp, Register::B), Op::Arithmetic(AluOperation::Cmp, Register::C),
    Op::Arithmetic(AluOperation::Cmp, Register::D), Op::Arithmetic(AluOperation::Cmp, Register::E),
    Op::Arithmetic(AluOperation::Cmp, Register::H), Op::Arithmetic(AluOperation::Cmp, Register::L),
    Op::Arithmetic(AluOperation::Cmp, Register::M), Op::Arithmetic(AluOperation::Cmp, Register::A),
    // C0 to C7
    Op::ReturnIf(Condition::NZ), Op::Pop(StackPair::BC), Op::JumpIf(Condition::NZ, WORD), Op::Jmp(WORD),
    Op::CallIf(Condition::NZ, WORD), Op::Push(StackPair::BC), Op::Immediate(AluOperation::Add, BYTE),
    Op::Rst(0),
    // C8 to CF
    Op::ReturnIf(Condition::Z), Op::Ret, Op::JumpIf(Condition::Z, WORD), Op::Jmp(WORD),
    Op::CallIf(Condition::Z, WORD), Op::Call(WORD), Op::Immediate(AluOperation::Adc, BYTE), Op::Rst(1),
    // D0 to D7
    Op::ReturnIf(Condition::NC), Op::Pop(StackPair::DE), Op::JumpIf(Condition::NC, WORD), Op::Out(BYTE),
    Op::CallIf(Condition::NC, WORD), Op::Push(StackPair::DE), Op::Immediate(AluOperation::Sub, BYTE),
    Op::Rst(2),
    // D8 to DF
    Op::ReturnIf(Condition::C), Op::Ret, Op::JumpIf(Condition::C, WORD), Op::In(BYTE),
    Op::CallIf(Condition::C, WORD), Op::Call(WORD), Op::Immediate(AluOperation::Sbb, BYTE), Op::Rst(3),
    // E0 to E7
    Op::ReturnIf(Condition::PO), Op::Pop(StackPair::HL), Op::JumpIf(Condition::PO, WORD), Op::Xthl,
    Op::CallIf(Condition::PO, WORD), Op::Push(StackPair::HL), Op::Immediate(AluOperation::Ana, BYTE),
    Op::Rst(4),
    // E8 to EF
    Op::ReturnIf(Condition::PE), Op::Pchl, Op::JumpIf(Condition::PE, WORD), Op::Xchg,
    Op::CallIf(Condition::PE, WORD), Op::Call(WORD), Op::Immediate(AluOperation::Xra, BYTE), Op::Rst(5),
    // F0 to F7
    Op::ReturnIf(Condition::P), Op::Pop(StackPair::PSW), Op::JumpIf(Condition::P, WORD), Op::Di,
    Op::CallIf(Condition::P, WORD), Op::Push(StackPair::PSW), Op::Immediate(AluOperation::Ora, BYTE),
    Op::Rst(6),
    // F8 to FF
    Op::ReturnIf(Condition::M), Op::Sphl, Op::JumpIf(Condition::M, WORD), Op::Ei,
    Op::CallIf(Condition::M, WORD), Op::Call(WORD), Op::Immediate(AluOperation::Cmp, BYTE), Op::Rst(7),
];

/// The instruction of a code, with 0 in place of its data, the one or two bytes after the code.
pub fn opcode(code: u8) -> Op
    ensures { result ≡ opcode_of code }
{
    OPCODES[code as usize]
}

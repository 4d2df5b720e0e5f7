//! From bytes to instructions.
ghost use Rattle.std.specs.Prelude.{◌≡◌, slice_index};
ghost use Rattle.i8080_words.specs.Opcodes.{size_of, with_data as with_data_of, instruction, instruction_length};

use crate::instruction::Op;
use crate::opcodes::opcode;

// The length of an instruction in bytes.
fn size(op: Op) -> u8
    ensures { result ≡ size_of op }
{
    match op {
        Op::Lxi(..)
        | Op::Shld(_)
        | Op::Lhld(_)
        | Op::Sta(_)
        | Op::Lda(_)
        | Op::Jmp(_)
        | Op::JumpIf(..)
        | Op::Call(_)
        | Op::CallIf(..) => 3,
        Op::Mvi(..) | Op::Immediate(..) | Op::In(_) | Op::Out(_) => 2,
        _ => 1,
    }
}

// An instruction of the table with its data filled in.
fn with_data(op: Op, low: u8, high: u8) -> Op
    ensures { result ≡ with_data_of op low high }
{
    let word = u16::from_le_bytes([low, high]);
    match op {
        Op::Lxi(pair, _) => Op::Lxi(pair, word),
        Op::Shld(_) => Op::Shld(word),
        Op::Lhld(_) => Op::Lhld(word),
        Op::Sta(_) => Op::Sta(word),
        Op::Lda(_) => Op::Lda(word),
        Op::Jmp(_) => Op::Jmp(word),
        Op::JumpIf(condition, _) => Op::JumpIf(condition, word),
        Op::Call(_) => Op::Call(word),
        Op::CallIf(condition, _) => Op::CallIf(condition, word),
        Op::Mvi(to, _) => Op::Mvi(to, low),
        Op::Immediate(operation, _) => Op::Immediate(operation, low),
        Op::In(_) => Op::In(low),
        Op::Out(_) => Op::Out(low),
        op => op,
    }
}

/// The instruction at the start of three bytes.
pub fn decode(bytes: [u8; 3]) -> Op
    ensures { result ≡ instruction (slice_index bytes 0) (slice_index bytes 1) (slice_index bytes 2) }
{
    let [code, low, high] = bytes;
    with_data(opcode(code), low, high)
}

/// The length in bytes, from 1 to 3, of the instruction that begins with this code.
pub fn length(code: u8) -> u8
    ensures { result ≡ instruction_length code }
{
    size(opcode(code))
}

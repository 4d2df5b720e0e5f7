//! The vocabulary of the Intel 8080: its registers, its arithmetic, its instructions, and the refusals of every crate.
#![tactic(auto)]

mod arithmetic;
mod decoder;
mod instruction;
mod laws;
mod limits;
mod opcodes;
mod refusal;
mod registers;

pub use arithmetic::{
    Flags, add8, and8, daa, dad, dcr, inr, of_psw, or8, psw, rotate_left, rotate_right, sub8, xor8,
};
pub use decoder::{decode, length};
pub use instruction::{
    AccumulatorOperation, AluOperation, Condition, Op, Register, RegisterPair, StackPair,
};
pub use laws::{few_accesses, greatest_number, idles_where_halted};
pub use limits::GREATEST_NUMBER;
pub use opcodes::opcode;
pub use refusal::{Fault, R};
pub use registers::{AddressRegister, Interrupts, Processor, Regs, Stepped};

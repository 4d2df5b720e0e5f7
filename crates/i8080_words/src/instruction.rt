//! The instructions of the processor, with their operands (8080 User's Manual, chapter 4).

/// A register of an operand; `M` is the byte in memory at the address in H and L.
#[derive(Clone, Copy, PartialEq, Eq)]
pub enum Register {
    B,
    C,
    D,
    E,
    H,
    L,
    M,
    A,
}

/// A register pair, or the stack pointer.
#[derive(Clone, Copy, PartialEq, Eq)]
pub enum RegisterPair {
    BC,
    DE,
    HL,
    SP,
}

/// A register pair for PUSH and POP; `PSW` is A as the high byte and the flag byte as the low byte.
#[derive(Clone, Copy, PartialEq, Eq)]
pub enum StackPair {
    BC,
    DE,
    HL,
    PSW,
}

/// The condition of a jump, call or return, on flag Z, CY, P (`PO` odd, `PE` even) or S (`P` plus, `M` minus).
#[derive(Clone, Copy, PartialEq, Eq)]
pub enum Condition {
    NZ,
    Z,
    NC,
    C,
    PO,
    PE,
    P,
    M,
}

/// An operation on the accumulator and a byte; `Cmp` changes only the flags.
#[derive(Clone, Copy, PartialEq, Eq)]
pub enum AluOperation {
    Add,
    Adc,
    Sub,
    Sbb,
    Ana,
    Xra,
    Ora,
    Cmp,
}

/// An operation on the accumulator and the carry alone: a rotation, through the carry or not, the decimal adjustment,
/// the complement of the accumulator, and setting or complementing the carry.
#[derive(Clone, Copy, PartialEq, Eq)]
pub enum AccumulatorOperation {
    Rlc,
    Rrc,
    Ral,
    Rar,
    Daa,
    Cma,
    Stc,
    Cmc,
}

/// An instruction, by its mnemonic. A `u16` is an address or two bytes of data, a `u8` is a byte of data or a port; the
/// number of `Rst` is from 0 to 7.
#[derive(Clone, Copy, PartialEq, Eq)]
pub enum Op {
    Nop,
    Hlt,
    Di,
    Ei,
    Mov(Register, Register),
    Mvi(Register, u8),
    Lxi(RegisterPair, u16),
    Stax(RegisterPair),
    Ldax(RegisterPair),
    Sta(u16),
    Lda(u16),
    Shld(u16),
    Lhld(u16),
    Xchg,
    /// ADD to CMP with a register.
    Arithmetic(AluOperation, Register),
    /// ADI to CPI with a byte of data.
    Immediate(AluOperation, u8),
    Inr(Register),
    Dcr(Register),
    Inx(RegisterPair),
    Dcx(RegisterPair),
    Dad(RegisterPair),
    Accumulator(AccumulatorOperation),
    Jmp(u16),
    JumpIf(Condition, u16),
    Call(u16),
    CallIf(Condition, u16),
    Ret,
    ReturnIf(Condition),
    Rst(u8),
    Push(StackPair),
    Pop(StackPair),
    Xthl,
    Pchl,
    Sphl,
    In(u8),
    Out(u8),
}

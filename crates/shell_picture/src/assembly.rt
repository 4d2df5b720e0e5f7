//! Instructions in Intel's assembly language (8080 User's Manual, chapter 4).
ghost use Rattle.std.specs.Prelude.{◌≡◌, ◌++◌, Some, codes};
ghost use Rattle.std.specs.Fmt.{WritesOnOk, decimal};
ghost use Rattle.pair_events.specs.Printed.{◌␣◌};
ghost use Rattle.shell_picture.specs.Assembly.{accumulator_word, arithmetic_text, arithmetic_word, branch_text, byte_data, condition_text, immediate_word, instruction_text, lead, machine_text, machine_word, pair_text, register_text, stack_text, word_data};

use i8080_words::{
    AccumulatorOperation, AluOperation, Condition, Op, Register, RegisterPair, StackPair,
};
use pair_events::Hexadecimal;
use shell_language::Address;
use std::fmt;

/// An instruction that prints as an assembler takes it.
#[derive(Clone, Copy)]
pub(crate) struct InstructionText(pub(crate) Op);

impl fmt::Display for InstructionText {
    ghost output = { λ assembly. Some (instruction_text assembly.0) };

    fn fmt<W: fmt::Write>(&self, f: &mut fmt::Formatter<W>) -> fmt::Result {
        write_instruction(f, self.0)
    }
}

// Moves between registers and memory.
fn write_instruction<W: fmt::Write>(f: &mut fmt::Formatter<W>, op: Op) -> fmt::Result
    ensures { WritesOnOk W.write_str_gives f.old result (instruction_text op) f.new }
{
    match op {
        Op::Mov(to, from) => write_two(f, "MOV", register(to), register(from)),
        Op::Mvi(to, byte) => write_mvi(f, register(to), byte),
        Op::Lxi(to, word) => write_lxi(f, pair(to), word),
        Op::Lda(address) => write_word(f, "LDA", address),
        Op::Sta(address) => write_word(f, "STA", address),
        Op::Lhld(address) => write_word(f, "LHLD", address),
        Op::Shld(address) => write_word(f, "SHLD", address),
        Op::Ldax(at) => write_name(f, "LDAX", pair(at)),
        Op::Stax(at) => write_name(f, "STAX", pair(at)),
        other => write_arithmetic(f, other),
    }
}

// Arithmetic and logic.
fn write_arithmetic<W: fmt::Write>(f: &mut fmt::Formatter<W>, op: Op) -> fmt::Result
    ensures { WritesOnOk W.write_str_gives f.old result (arithmetic_text op) f.new }
{
    match op {
        Op::Arithmetic(operation, from) => {
            write_name(f, arithmetic_word(operation), register(from))
        }
        Op::Immediate(operation, byte) => write_byte(f, immediate_word(operation), byte),
        Op::Inr(at) => write_name(f, "INR", register(at)),
        Op::Dcr(at) => write_name(f, "DCR", register(at)),
        Op::Inx(at) => write_name(f, "INX", pair(at)),
        Op::Dcx(at) => write_name(f, "DCX", pair(at)),
        Op::Dad(from) => write_name(f, "DAD", pair(from)),
        Op::Accumulator(operation) => f.write_str(accumulator_word(operation)),
        other => write_branch(f, other),
    }
}

// Jumps, calls and returns.
fn write_branch<W: fmt::Write>(f: &mut fmt::Formatter<W>, op: Op) -> fmt::Result
    ensures { WritesOnOk W.write_str_gives f.old result (branch_text op) f.new }
{
    match op {
        Op::Jmp(address) => write_word(f, "JMP", address),
        Op::JumpIf(when, address) => write_if(f, "J", when, address),
        Op::Call(address) => write_word(f, "CALL", address),
        Op::CallIf(when, address) => write_if(f, "C", when, address),
        Op::Ret => f.write_str("RET"),
        Op::ReturnIf(when) => write_return_if(f, when),
        Op::Rst(number) => write_rst(f, number),
        Op::Pchl => f.write_str("PCHL"),
        other => write_machine(f, other),
    }
}

// The stack, input and output, and the machine itself.
fn write_machine<W: fmt::Write>(f: &mut fmt::Formatter<W>, op: Op) -> fmt::Result
    ensures { WritesOnOk W.write_str_gives f.old result (machine_text op) f.new }
{
    match op {
        Op::Push(from) => write_name(f, "PUSH", stack_pair(from)),
        Op::Pop(to) => write_name(f, "POP", stack_pair(to)),
        Op::In(port) => write_byte(f, "IN", port),
        Op::Out(port) => write_byte(f, "OUT", port),
        other => f.write_str(machine_word(other)),
    }
}

// The others, which have no operand.
fn machine_word(op: Op) -> &'static str
    ensures { result.now ≡ machine_word op }
{
    match op {
        Op::Xchg => "XCHG",
        Op::Xthl => "XTHL",
        Op::Sphl => "SPHL",
        Op::Ei => "EI",
        Op::Di => "DI",
        Op::Hlt => "HLT",
        _ => "NOP",
    }
}

// A word and one operand, or two.
fn write_name<W: fmt::Write>(f: &mut fmt::Formatter<W>, word: &str, name: &str) -> fmt::Result
    ensures { WritesOnOk W.write_str_gives f.old result (word.now ␣ name.now) f.new }
{
    write!(f, "{word} {name}")
}

fn write_two<W: fmt::Write>(
    f: &mut fmt::Formatter<W>,
    word: &str,
    first: &str,
    second: &str,
) -> fmt::Result
    ensures { WritesOnOk W.write_str_gives f.old result (word.now ␣ (first.now ++ (codes "," ++ second.now))) f.new }
{
    write!(f, "{word} {first},{second}")
}

// A register or a pair, and the data that it is given.
fn write_mvi<W: fmt::Write>(f: &mut fmt::Formatter<W>, to: &str, byte: u8) -> fmt::Result
    ensures { WritesOnOk W.write_str_gives f.old result (codes "MVI" ␣ (to.now ++ (codes "," ++ byte_data byte))) f.new }
{
    write!(f, "MVI {to},{}", ByteData(byte))
}

fn write_lxi<W: fmt::Write>(f: &mut fmt::Formatter<W>, to: &str, word: u16) -> fmt::Result
    ensures { WritesOnOk W.write_str_gives f.old result (codes "LXI" ␣ (to.now ++ (codes "," ++ word_data word))) f.new }
{
    write!(f, "LXI {to},{}", WordData(word))
}

fn write_byte<W: fmt::Write>(f: &mut fmt::Formatter<W>, word: &str, byte: u8) -> fmt::Result
    ensures { WritesOnOk W.write_str_gives f.old result (word.now ␣ byte_data byte) f.new }
{
    write!(f, "{word} {}", ByteData(byte))
}

fn write_word<W: fmt::Write>(f: &mut fmt::Formatter<W>, word: &str, number: u16) -> fmt::Result
    ensures { WritesOnOk W.write_str_gives f.old result (word.now ␣ word_data number) f.new }
{
    write!(f, "{word} {}", WordData(number))
}

// A jump or a call, by its first letter, on a condition.
fn write_if<W: fmt::Write>(
    f: &mut fmt::Formatter<W>,
    letter: &str,
    when: Condition,
    address: u16,
) -> fmt::Result
    ensures { WritesOnOk W.write_str_gives f.old result (letter.now ++ (condition_text when ␣ word_data address)) f.new }
{
    write!(f, "{letter}{} {}", condition(when), WordData(address))
}

// A return on a condition.
fn write_return_if<W: fmt::Write>(f: &mut fmt::Formatter<W>, when: Condition) -> fmt::Result
    ensures { WritesOnOk W.write_str_gives f.old result (codes "R" ++ condition_text when) f.new }
{
    f.write_str("R")?;
    f.write_str(condition(when))
}

// A restart, by its number.
fn write_rst<W: fmt::Write>(f: &mut fmt::Formatter<W>, number: u8) -> fmt::Result
    ensures { WritesOnOk W.write_str_gives f.old result (codes "RST" ␣ decimal number) f.new }
{
    write!(f, "RST {number}")
}

// A byte of data, which begins with a digit from 0 to 9.
#[derive(Clone, Copy)]
struct ByteData(u8);

impl fmt::Display for ByteData {
    ghost output = { λ number. Some (byte_data number.0) };

    fn fmt<W: fmt::Write>(&self, f: &mut fmt::Formatter<W>) -> fmt::Result {
        write!(f, "{}{}H", lead(self.0 / 16), Hexadecimal(self.0))
    }
}

// Two bytes of data, or an address.
#[derive(Clone, Copy)]
struct WordData(u16);

impl fmt::Display for WordData {
    ghost output = { λ number. Some (word_data number.0) };

    fn fmt<W: fmt::Write>(&self, f: &mut fmt::Formatter<W>) -> fmt::Result {
        let first = (self.0 / 4096) as u8;
        write!(f, "{}{}H", lead(first), Address(self.0))
    }
}

// What is put before a number whose first digit is this one.
fn lead(first: u8) -> &'static str
    ensures { result.now ≡ lead first }
{
    if first < 10 { "" } else { "0" }
}

fn register(register: Register) -> &'static str
    ensures { result.now ≡ register_text register }
{
    match register {
        Register::B => "B",
        Register::C => "C",
        Register::D => "D",
        Register::E => "E",
        Register::H => "H",
        Register::L => "L",
        Register::M => "M",
        Register::A => "A",
    }
}

fn pair(pair: RegisterPair) -> &'static str
    ensures { result.now ≡ pair_text pair }
{
    match pair {
        RegisterPair::BC => "B",
        RegisterPair::DE => "D",
        RegisterPair::HL => "H",
        RegisterPair::SP => "SP",
    }
}

fn stack_pair(pair: StackPair) -> &'static str
    ensures { result.now ≡ stack_text pair }
{
    match pair {
        StackPair::BC => "B",
        StackPair::DE => "D",
        StackPair::HL => "H",
        StackPair::PSW => "PSW",
    }
}

fn condition(condition: Condition) -> &'static str
    ensures { result.now ≡ condition_text condition }
{
    match condition {
        Condition::NZ => "NZ",
        Condition::Z => "Z",
        Condition::NC => "NC",
        Condition::C => "C",
        Condition::PO => "PO",
        Condition::PE => "PE",
        Condition::P => "P",
        Condition::M => "M",
    }
}

fn arithmetic_word(operation: AluOperation) -> &'static str
    ensures { result.now ≡ arithmetic_word operation }
{
    match operation {
        AluOperation::Add => "ADD",
        AluOperation::Adc => "ADC",
        AluOperation::Sub => "SUB",
        AluOperation::Sbb => "SBB",
        AluOperation::Ana => "ANA",
        AluOperation::Xra => "XRA",
        AluOperation::Ora => "ORA",
        AluOperation::Cmp => "CMP",
    }
}

fn immediate_word(operation: AluOperation) -> &'static str
    ensures { result.now ≡ immediate_word operation }
{
    match operation {
        AluOperation::Add => "ADI",
        AluOperation::Adc => "ACI",
        AluOperation::Sub => "SUI",
        AluOperation::Sbb => "SBI",
        AluOperation::Ana => "ANI",
        AluOperation::Xra => "XRI",
        AluOperation::Ora => "ORI",
        AluOperation::Cmp => "CPI",
    }
}

fn accumulator_word(operation: AccumulatorOperation) -> &'static str
    ensures { result.now ≡ accumulator_word operation }
{
    match operation {
        AccumulatorOperation::Rlc => "RLC",
        AccumulatorOperation::Rrc => "RRC",
        AccumulatorOperation::Ral => "RAL",
        AccumulatorOperation::Rar => "RAR",
        AccumulatorOperation::Daa => "DAA",
        AccumulatorOperation::Cma => "CMA",
        AccumulatorOperation::Stc => "STC",
        AccumulatorOperation::Cmc => "CMC",
    }
}

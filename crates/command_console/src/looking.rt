//! What is printed of a machine that a host has shown.

use console_terminal::Command;
use i8080_words::{AddressRegister, Interrupts, Processor, Regs, of_psw};
use outside_switch::Sight;
use shell_language::Printed;
use shell_picture::{print_listing, print_memory, print_registers};
use std::alloc::{AllocError, Global};

// Where the bytes of the two pages begin.
const MEMORY: usize = 14;

/// The page of the memory that a command looks at; the first, if it looks at none.
pub(crate) fn page_of(command: Command) -> u8 {
    match command {
        Command::Memory { from, .. } | Command::Listing { from, .. } => (from / 256) as u8,
        _ => 0,
    }
}

/// What a command prints that looks at a machine, as the shell does; lines have CR LF between them.
pub(crate) fn text_of(
    alloc: Global,
    command: Command,
    sight: &Sight,
) -> Result<String, AllocError> {
    let mut printed = Printed::new(alloc, false);
    print(command, sight, &mut printed)?;
    let text = printed.into_text();
    text.as_str().trim_end().replace(alloc, "\n", "\r\n")
}

// Prints what a command looks at.
fn print(command: Command, sight: &Sight, printed: &mut Printed) -> Result<(), AllocError> {
    match command {
        Command::Memory { from, count } => {
            print_memory(
                from,
                window(&sight.bytes, from, usize::from(count)),
                printed,
            )
        }
        Command::Listing { from, count } => {
            print_listing(
                from,
                count,
                window(&sight.bytes, from, 3 * usize::from(count)),
                printed,
            )
        }
        _ => print_registers(&processor_of(&sight.bytes), sight.count, printed),
    }
}

// So many bytes of memory from an address on, of the two pages that are shown.
fn window(bytes: &[u8], from: u16, count: usize) -> &[u8] {
    let (_, memory) = bytes.split_at(MEMORY.min(bytes.len()));
    let (_, rest) = memory.split_at(usize::from(from % 256).min(memory.len()));
    let (window, _) = rest.split_at(count.min(rest.len()));
    window
}

// The processor that these bytes show.
fn processor_of(bytes: &[u8]) -> Processor {
    Processor {
        regs: Regs {
            pc: AddressRegister::new(u16::from_be_bytes([byte_in(bytes, 10), byte_in(bytes, 11)])),
            sp: AddressRegister::new(u16::from_be_bytes([byte_in(bytes, 8), byte_in(bytes, 9)])),
            c: byte_in(bytes, 3),
            b: byte_in(bytes, 2),
            e: byte_in(bytes, 5),
            d: byte_in(bytes, 4),
            l: byte_in(bytes, 7),
            h: byte_in(bytes, 6),
            a: byte_in(bytes, 0),
            flags: of_psw(byte_in(bytes, 1)),
        },
        interrupts: interrupts_of(byte_in(bytes, 12)),
        halted: byte_in(bytes, 13) == 1,
    }
}

// The byte at a place, and 0 past the end.
fn byte_in(bytes: &[u8], place: usize) -> u8 {
    bytes.get(place).copied().unwrap_or(0)
}

// The interrupt enable of a number.
fn interrupts_of(number: u8) -> Interrupts {
    match number {
        0 => Interrupts::Off,
        1 => Interrupts::Soon,
        _ => Interrupts::On,
    }
}

//! What a message carries, in words.
ghost use Rattle.std.specs.Prelude.{◌<◌, ◌++◌, Some, codes};
ghost use Rattle.std.specs.Fmt.{WritesOnOk, decimal};
ghost use Rattle.pair_events.specs.Printed.{◌␣◌};
ghost use Rattle.sequence_diagram.specs.Words.{cargo_text, carried_text, counted_text, entry_text, held_text, input_text, key_text, letter_text, named_byte, part_text, sector_text};

use crate::moment::{Cargo, Moment};
use guest_lockstep::Bare;
use pair_events::{Event, Hexadecimal};
use std::fmt::{self, Display};

/// What the message that an event sent carries.
#[derive(Clone, Copy)]
pub struct Carried(pub Moment);

/// A byte in hexadecimal, and the letter or digit that it is, if it is one.
#[derive(Clone, Copy)]
pub struct Byte(pub u8);

// The input of an entry of the log; none if it is a mark.
#[derive(Clone, Copy)]
struct InputText(Option<Bare>);

impl fmt::Display for Carried {
    ghost output = { λ carried. Some (carried_text carried.0) };

    fn fmt<W: fmt::Write>(&self, f: &mut fmt::Formatter<W>) -> fmt::Result {
        match self.0.cargo {
            None => Ok(()),
            Some(Cargo::Part) => write_part(f, self.0.event),
            Some(cargo) => write_cargo(f, cargo),
        }
    }
}

// A part of a copy, by the event that sends it.
fn write_part<W: fmt::Write>(f: &mut fmt::Formatter<W>, event: Event) -> fmt::Result
    ensures { WritesOnOk W.write_str_gives f.old result (part_text event) f.new }
{
    match event {
        Event::SendPart { index, .. } => write_number(f, "part", index),
        _ => Ok(()),
    }
}

// What a message between two nodes carries, or one of a device.
fn write_cargo<W: fmt::Write>(f: &mut fmt::Formatter<W>, cargo: Cargo) -> fmt::Result
    ensures { WritesOnOk W.write_str_gives f.old result (cargo_text cargo) f.new }
{
    match cargo {
        Cargo::Entry {
            index,
            count,
            input,
        } => write_entry(f, index, count, input),
        Cargo::Acknowledgement { held, replayed } => write_held(f, held, replayed),
        Cargo::Part => Ok(()),
        Cargo::Byte { number, byte, .. } => write_named_byte(f, number, byte),
        Cargo::Write { number, address } => write_write(f, number, address.sector),
        Cargo::Written { number } => write_number_and(f, "write", number, " is done"),
        Cargo::Sector { number, address } => write_sector(f, number, address.sector),
    }
}

// An entry of the log.
fn write_entry<W: fmt::Write>(
    f: &mut fmt::Formatter<W>,
    index: u64,
    count: u64,
    input: Option<Bare>,
) -> fmt::Result
    ensures { WritesOnOk W.write_str_gives f.old result (entry_text index count input) f.new }
{
    write!(f, "entry {index}: {} at count {count}", InputText(input))
}

// How many entries a backup holds, and how many it has replayed, if it reports that.
fn write_held<W: fmt::Write>(
    f: &mut fmt::Formatter<W>,
    held: u64,
    replayed: Option<u64>,
) -> fmt::Result
    ensures { WritesOnOk W.write_str_gives f.old result (held_text held replayed) f.new }
{
    write_count(f, "holds", held, "entry", "entries")?;
    match replayed {
        Some(replayed) => write_number(f, ", replayed", replayed),
        None => Ok(()),
    }
}

// A byte for a terminal, by its number.
fn write_named_byte<W: fmt::Write>(f: &mut fmt::Formatter<W>, number: u64, byte: u8) -> fmt::Result
    ensures { WritesOnOk W.write_str_gives f.old result (codes "byte " ++ (decimal number ++ (codes ": " ++ named_byte byte))) f.new }
{
    write!(f, "byte {number}: {}", Byte(byte))
}

// A write, by its number and that of its sector on its track.
fn write_write<W: fmt::Write>(f: &mut fmt::Formatter<W>, number: u64, sector: u8) -> fmt::Result
    ensures { WritesOnOk W.write_str_gives f.old result
        (codes "write " ++ (decimal number ++ (codes " of sector " ++ decimal sector))) f.new }
{
    write!(f, "write {number} of sector {sector}")
}

// What was read of a sector: the bytes of the write of this number.
fn write_sector<W: fmt::Write>(f: &mut fmt::Formatter<W>, number: u64, sector: u8) -> fmt::Result
    ensures { WritesOnOk W.write_str_gives f.old result (sector_text number sector) f.new }
{
    match number {
        0 => write_number_and(f, "sector", u64::from(sector), ", as at boot"),
        number => write!(f, "sector {sector}, as write {number} left it"),
    }
}

impl fmt::Display for InputText {
    ghost output = { λ input. Some (input_text input.0) };

    fn fmt<W: fmt::Write>(&self, f: &mut fmt::Formatter<W>) -> fmt::Result {
        match self.0 {
            None => f.write_str("output"),
            Some(Bare::Rx(_, byte)) => write_key(f, byte),
            Some(Bare::Sent(_)) => f.write_str("byte accepted"),
            Some(Bare::Sector(_, sector)) => write_number(f, "sector", u64::from(sector)),
            Some(Bare::Written(number)) => write_number_and(f, "write", number, " done"),
        }
    }
}

/// A key, by its byte.
pub fn write_key<W: fmt::Write>(f: &mut fmt::Formatter<W>, byte: u8) -> fmt::Result
    ensures { WritesOnOk W.write_str_gives f.old result (key_text byte) f.new }
{
    write!(f, "key {}", Byte(byte))
}

impl fmt::Display for Byte {
    ghost output = { λ byte. Some (named_byte byte.0) };

    fn fmt<W: fmt::Write>(&self, f: &mut fmt::Formatter<W>) -> fmt::Result {
        if self.0.is_ascii_alphanumeric() {
            return write_letter(f, self.0);
        }
        Hexadecimal(self.0).fmt(f)
    }
}

// A byte that is a letter or a digit.
fn write_letter<W: fmt::Write>(f: &mut fmt::Formatter<W>, byte: u8) -> fmt::Result
    requires { byte < 128 }
    ensures { WritesOnOk W.write_str_gives f.old result (letter_text byte) f.new }
{
    write!(f, "{} ({})", Hexadecimal(byte), char::from(byte))
}

/// Words, a space and a number.
pub fn write_number<W: fmt::Write>(
    f: &mut fmt::Formatter<W>,
    words: &str,
    number: u64,
) -> fmt::Result
    ensures { WritesOnOk W.write_str_gives f.old result (words.now ␣ decimal number) f.new }
{
    write!(f, "{words} {number}")
}

/// The same, and words after it.
pub fn write_number_and<W: fmt::Write>(
    f: &mut fmt::Formatter<W>,
    words: &str,
    number: u64,
    after: &str,
) -> fmt::Result
    ensures { WritesOnOk W.write_str_gives f.old result (words.now ␣ (decimal number ++ after.now)) f.new }
{
    write!(f, "{words} {number}{after}")
}

/// Words, a number, and what it counts, by the word for one and that for more.
pub fn write_count<W: fmt::Write>(
    f: &mut fmt::Formatter<W>,
    words: &str,
    count: u64,
    one: &str,
    more: &str,
) -> fmt::Result
    ensures { WritesOnOk W.write_str_gives f.old result (counted_text words.now count one.now more.now) f.new }
{
    let things = if count == 1 { one } else { more };
    write!(f, "{words} {count} {things}")
}

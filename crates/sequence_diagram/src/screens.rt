//! What a terminal has accepted in the end.
ghost use Rattle.std.specs.Prelude.{◌≡◌, ◌++◌, ◌∷◌, IfOk, Some, length};
ghost use Rattle.std.specs.Fmt.{WritesOnOk};
ghost use Rattle.sequence_diagram.specs.Screens.{HasAccepted, IsAcceptedAt, accepted_text, begun_text, byte_for, bytes_of, spaced_bytes};
ghost use Rattle.sequence_diagram.specs.Words.{named_byte};

use crate::cargo::{Byte, write_number_and};
use crate::flights::cargo_to;
use crate::moment::{Cargo, Moment};
use pair_events::Reply;
use std::alloc::{AllocError, Global};
use std::fmt;

// How many bytes are shown; dots stand for those before them.
const SHOWN: usize = 16;

/// The bytes that the terminal of a port has accepted, the last of them if they are many.
#[derive(Clone, Copy)]
pub struct Accepted<'a> {
    pub port: u8,
    pub bytes: &'a [u8],
}

/// The bytes that the terminal of a port has accepted in a run.
#[tactic(auto, using(crate::proofs::Accepting::accepted_more))]
pub fn accepted_in(alloc: Global, moments: &[Moment], port: u8) -> Result<Vec<u8>, AllocError>
    ensures { IfOk result (λ bytes. HasAccepted moments.now port (length moments.now) bytes.items) }
{
    let mut bytes = Vec::new(alloc);
    for place in 0..moments.len() {
        add_byte(&mut bytes, accepted_at(moments, port, place))?;
    }
    Ok(bytes)
}

fn add_byte(bytes: &mut Vec<u8>, found: Option<u8>) -> Result<(), AllocError>
    ensures { IfOk result (λ _. bytes.new.items ≡ bytes.old.items ++ bytes_of found) }
{
    if let Some(byte) = found {
        bytes.push(byte)?;
    }
    Ok(())
}

// The byte that the terminal of a port accepted at a place of the run.
fn accepted_at(moments: &[Moment], port: u8, place: usize) -> Option<u8>
    ensures { IsAcceptedAt moments.now port place result }
{
    match moments.get(place)?.answer {
        Ok(Reply::Accepted) => byte_for(port, cargo_to(moments, place)),
        _ => None,
    }
}

// The byte for the terminal of a port that a message carries.
fn byte_for(port: u8, cargo: Option<Cargo>) -> Option<u8>
    ensures { result ≡ byte_for port cargo }
{
    match cargo {
        Some(
            Cargo::Byte {
                port: other,
                byte,
                ..
            },
        ) => { if other == port { Some(byte) } else { None } }
        _ => None,
    }
}

impl fmt::Display for Accepted<'_> {
    ghost output = { λ accepted. Some (accepted_text accepted.port accepted.bytes.now) };

    fn fmt<W: fmt::Write>(&self, f: &mut fmt::Formatter<W>) -> fmt::Result {
        if self.bytes.is_empty() {
            return write_number_and(f, "terminal", u64::from(self.port), " has accepted nothing");
        }
        let (before, last) = self.bytes.split_at(self.bytes.len().saturating_sub(SHOWN));
        write_begun(f, self.port, !before.is_empty())?;
        write_bytes(f, last)
    }
}

// That a terminal has accepted something, and more than is shown.
fn write_begun<W: fmt::Write>(f: &mut fmt::Formatter<W>, port: u8, is_more: bool) -> fmt::Result
    ensures { WritesOnOk W.write_str_gives f.old result (begun_text port is_more) f.new }
{
    let words = if is_more {
        " has accepted .."
    } else {
        " has accepted"
    };
    write_number_and(f, "terminal", u64::from(port), words)
}

// Bytes, each after a space.
fn write_bytes<W: fmt::Write>(f: &mut fmt::Formatter<W>, bytes: &[u8]) -> fmt::Result
    ensures { WritesOnOk W.write_str_gives f.old result (spaced_bytes bytes.now) f.new }
{
    for byte in bytes {
        write_spaced(f, *byte)?;
    }
    Ok(())
}

fn write_spaced<W: fmt::Write>(f: &mut fmt::Formatter<W>, byte: u8) -> fmt::Result
    ensures { WritesOnOk W.write_str_gives f.old result (32 ∷ named_byte byte) f.new }
{
    write!(f, " {}", Byte(byte))
}

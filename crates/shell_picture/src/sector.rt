//! What a sector of the disk has.
ghost use Rattle.std.specs.Prelude.{◌≡◌, IfOk, Some};
ghost use Rattle.std.specs.List.{flat_map};
ghost use Rattle.shell_language.specs.Texts.{Prints};
ghost use Rattle.shell_picture.specs.Sectors.{dump_row, dump_text, sector_text, read_rows, sector_places, sector_rows};

use crate::answers::{after, print_refusal};
use crate::machine::{LINE, before};
use disk_dcdd::SectorAddress;
use i8080_words::R;
use pair_events::{Hexadecimal, Spaced};
use shared_disk::SectorRead;
use shell_language::{Printable, Printed};
use std::alloc::AllocError;
use std::fmt;

// The places at which the lines of a sector begin.
static PLACES: [u8; 9] = [0, 16, 32, 48, 64, 80, 96, 112, 128];

/// What was read of a sector, or why nothing was.
pub fn print_sector(
    address: SectorAddress,
    read: R<SectorRead>,
    printed: &mut Printed,
) -> Result<(), AllocError>
    ensures { IfOk result (λ _. Prints (sector_rows address read) printed.old printed.new) }
{
    match read {
        Ok(read) => print_read(address, &read, printed),
        Err(fault) => print_refusal(fault, printed),
    }
}

fn print_read(
    address: SectorAddress,
    read: &SectorRead,
    printed: &mut Printed,
) -> Result<(), AllocError>
    ensures { IfOk result (λ _. Prints (read_rows address read.now) printed.old printed.new) }
{
    let number = read.number;
    printed.line(&SectorHead { address, number })?;
    print_bytes(&read.bytes, printed)?;
    Ok(())
}

// The bytes of a sector, line by line.
#[tactic(auto, using(shell_language::proofs::Adding::prints_none))]
fn print_bytes(bytes: &[u8], printed: &mut Printed) -> Result<(), AllocError>
    ensures { IfOk result (λ _. Prints (flat_map (dump_row bytes.now) sector_places) printed.old printed.new) }
{
    for place in places() {
        let bytes = before(after(bytes, *place as usize), LINE);
        printed.line(&Dump {
            place: *place,
            bytes,
        })?;
    }
    Ok(())
}

fn places() -> &'static [u8]
    ensures { result.now ≡ sector_places }
{
    &PLACES
}

// A sector, and the number of the write that it has.
#[derive(Clone, Copy)]
struct SectorHead {
    address: SectorAddress,
    number: u64,
}

impl fmt::Display for SectorHead {
    ghost output = { λ head. Some (sector_text head.address head.number) };

    fn fmt<W: fmt::Write>(&self, f: &mut fmt::Formatter<W>) -> fmt::Result {
        let SectorAddress {
            drive,
            track,
            sector,
        } = self.address;
        write!(f, "sector {drive} {track} {sector}: write {}", self.number)
    }
}

// Bytes of a sector from a place on.
#[derive(Clone, Copy)]
struct Dump<'a> {
    place: u8,
    bytes: &'a [u8],
}

impl fmt::Display for Dump<'_> {
    ghost output = { λ dump. Some (dump_text dump.place dump.bytes.now) };

    fn fmt<W: fmt::Write>(&self, f: &mut fmt::Formatter<W>) -> fmt::Result {
        write!(
            f,
            "{} {}  |{}|",
            Hexadecimal(self.place),
            Spaced(self.bytes),
            Printable(self.bytes)
        )
    }
}

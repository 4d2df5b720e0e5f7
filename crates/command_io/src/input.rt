//! A script, and the disks that its pair boots with.
ghost use Rattle.std.specs.Prelude.{◌≡◌, ◌++◌, ◌≤◌, IfOk, map};
ghost use Rattle.command_io.specs.Scripts.{Reads};
ghost use Rattle.command_io.specs.Inputs.{ReadsInput, drives_with, meaning_of, with_drive, with_drives};
ghost use Rattle.script_language.specs.Booting.{boot_of};
ghost use Rattle.script_language.specs.Meaning.{Answers};
ghost use Rattle.script_language.specs.Scripts.{boot_write};

use crate::failure::Failure;
use crate::images::read_images;
use disk_dcdd::{DRIVES, SectorWrite};
use script_language::{BootSector, Script, ScriptError, parse, parse_live, read_script};
use std::alloc::{AllocError, Global};
use std::io::Read;

/// A script, and the sectors of its disks at boot. Of two for one place the later counts.
#[derive(Drop)]
pub struct ScriptInput {
    pub script: Script,
    pub sectors: Vec<SectorWrite>,
}

/// Which lines a script may have.
#[derive(Clone, Copy)]
pub enum Language {
    /// Those of any script.
    Any,
    /// Those of a pair on threads.
    Threads,
}

/// Reads the images of these drives, one after another, and then a script. Each of these drives is attached, and what a
/// line of the script says of a sector comes after what its image says.
#[tactic(auto, using(crate::proofs::Inputs::fails, crate::proofs::Inputs::refuses, crate::proofs::Inputs::reads))]
pub fn read_input<R: Read + Drop>(
    alloc: Global,
    language: Language,
    drives: &[u8],
    reader: &mut R,
) -> Result<ScriptInput, Failure>
    ensures { ReadsInput (meaning_of language) drives.now (R.remaining reader.old) result }
{
    let sectors = read_images(alloc, drives, reader)?;
    let script = script_of(alloc, language, reader)?;
    let input = booting(alloc, drives, sectors, script)?;
    Ok(input)
}

// The whole script of the reader.
#[tactic(auto, using(crate::proofs::Scripts::reads_script, crate::proofs::Scripts::reads_no_script, crate::proofs::Scripts::reads_nothing))]
fn script_of<R: Read + Drop>(
    alloc: Global,
    language: Language,
    reader: &mut R,
) -> Result<Script, Failure>
    ensures { Reads (meaning_of language) (R.remaining reader.old) result }
{
    let bytes = read_script(alloc, reader)?;
    let script = parse_as(alloc, language, &bytes)?;
    Ok(script)
}

fn parse_as(alloc: Global, language: Language, bytes: &[u8]) -> Result<Script, ScriptError>
    ensures { Answers result (meaning_of language bytes.now) }
{
    match language {
        Language::Any => parse(alloc, bytes),
        Language::Threads => parse_live(alloc, bytes),
    }
}

// A script whose drives have these sectors before its own.
fn booting(
    alloc: Global,
    drives: &[u8],
    images: Vec<SectorWrite>,
    script: Script,
) -> Result<ScriptInput, AllocError>
    ensures lines { IfOk result (λ input. input.script.lines.items ≡ script.lines.items) }
    ensures boot { IfOk result (λ input.
        boot_of input.script.setup ≡ with_drives drives.now (boot_of script.setup)) }
    ensures sectors { IfOk result (λ input. input.sectors.items
        ≡ images.items ++ map boot_write input.script.setup.sectors.items) }
{
    let mut script = script;
    let mut sectors = images;
    put_each(&mut sectors, &script.setup.sectors)?;
    script.setup.guest.drives = drives_with(drives, script.setup.guest.drives);
    Ok(ScriptInput { script, sectors })
}

// Adds the sectors that lines of a script say.
fn put_each(sectors: &mut Vec<SectorWrite>, lines: &[BootSector]) -> Result<(), AllocError>
    ensures { IfOk result (λ _. sectors.new.items ≡ sectors.old.items ++ map boot_write lines.now) }
{
    for line in lines {
        sectors.push(line.write())?;
    }
    Ok(())
}

// How many drives there are, if so many are attached, and these too.
fn drives_with(drives: &[u8], attached: u8) -> u8
    requires some { 1 ≤ attached }
    requires few { attached ≤ 4 }
    ensures exact { result ≡ drives_with drives.now attached }
    ensures some { 1 ≤ result }
    ensures few { result ≤ 4 }
{
    let mut count = attached;
    for drive in drives {
        count = with_drive(*drive, count);
    }
    count
}

// The same for one drive; there are four at most.
fn with_drive(drive: u8, attached: u8) -> u8
    requires some { 1 ≤ attached }
    requires few { attached ≤ 4 }
    ensures exact { result ≡ with_drive attached drive }
    ensures some { 1 ≤ result }
    ensures few { result ≤ 4 }
{
    attached.max(drive.min(DRIVES as u8 - 1) + 1)
}

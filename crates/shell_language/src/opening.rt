//! The lines before the pair boots: its machines and their disk.
ghost use Rattle.std.specs.Prelude.{◌≡◌, ◌+◌, ◌≤◌, IfOk, length, nat_le};
ghost use Rattle.std.specs.List.{find};
ghost use Rattle.std.specs.Option.{option_copied};
ghost use Rattle.disk_dcdd.specs.declared.sector.SectorWrite.{SectorWrite};
ghost use Rattle.shell_language.specs.Openings.{padded, sector_bytes, sector_of};
ghost use Rattle.shell_language.specs.declared.outcome.LineOutcome.TheVariants as outcome;
ghost use Rattle.shell_language.specs.declared.line.ShellLine.TheVariants as shell;

use crate::{HexRecord, LineOutcome, Mistake, Printed, ShellLine, mistake_in, refuse};
use disk_dcdd::{SECTOR_BYTES, SectorAddress, SectorWrite};
use guest_memory::BYTES;
use script_language::{Keyword, ScriptSetup, Words};
use std::alloc::{AllocError, Global};
use std::fmt;

/// How the pair of a session will boot, and the sectors that are set.
#[derive(Drop)]
pub struct SessionSetup {
    pub setup: ScriptSetup,
    pub sectors: Vec<SectorWrite>,
}

impl SessionSetup {
    ghost use Rattle.script_language.specs.Booting.{boot_of, memory_from};
    ghost use Rattle.std.specs.Prelude.{false};
    ghost use Rattle.shell_language.specs.Outcomes.{is_ended};
    ghost use Rattle.shell_language.specs.Mistakes.{flaw_of};
    ghost use Rattle.shell_language.specs.Openings.{CannotSet, IsDefault, IsSame, SetsUp, detached_in};

    /// The setup if no line says otherwise.
    pub fn new(alloc: Global) -> Result<SessionSetup, AllocError>
        ensures { IfOk result IsDefault }
    {
        Ok(SessionSetup {
            setup: ScriptSetup::new(alloc)?,
            sectors: Vec::new(alloc),
        })
    }

    /// Takes a line of the setup.
    pub fn take<'a>(
        &mut self,
        alloc: Global,
        text: &'a [u8],
        line: ShellLine<'a>,
        printed: &mut Printed,
    ) -> Result<LineOutcome, AllocError>
        ensures refused { IfOk result (λ told. told ≡ outcome.Refused → IsSame self.old self.new) }
        ensures cannot { IfOk result (λ told. told ≡ outcome.Refused → CannotSet line.entry self.old) }
        ensures done { IfOk result (λ told. told ≡ outcome.Done → SetsUp line.entry self.old self.new) }
        ensures goes_on { IfOk result (λ told. is_ended told ≡ false) }
    {
        match line {
            ShellLine::Setup { keyword, mut words } => {
                self.take_setup(alloc, text, keyword, &mut words, printed)
            }
            ShellLine::SetSector { sector, mut bytes } => {
                self.take_sector(alloc, text, sector, &mut bytes, printed)
            }
            ShellLine::Load(record) => self.load(&record, printed),
            _ => Ok(LineOutcome::Done),
        }
    }

    fn take_setup<'a>(
        &mut self,
        alloc: Global,
        text: &'a [u8],
        keyword: Keyword,
        words: &mut Words<'a>,
        printed: &mut Printed,
    ) -> Result<LineOutcome, AllocError>
        ensures refused { IfOk result (λ told. told ≡ outcome.Refused → IsSame self.old self.new) }
        ensures cannot { IfOk result (λ told. told ≡ outcome.Refused → CannotSet (shell.Setup keyword words.old) self.old) }
        ensures done { IfOk result (λ told. told ≡ outcome.Done
            → SetsUp (shell.Setup keyword words.old) self.old self.new) }
        ensures goes_on { IfOk result (λ told. is_ended told ≡ false) }
    {
        if !self.setup.take(alloc, 1, keyword, words)? {
            return refuse(mistake_in(text), printed);
        }
        printed.script_line(&Plain(text))?;
        Ok(LineOutcome::Done)
    }

    fn take_sector<'a>(
        &mut self,
        alloc: Global,
        text: &'a [u8],
        address: SectorAddress,
        words: &mut Words<'a>,
        printed: &mut Printed,
    ) -> Result<LineOutcome, AllocError>
        ensures refused { IfOk result (λ told. told ≡ outcome.Refused → IsSame self.old self.new) }
        ensures cannot { IfOk result (λ told. told ≡ outcome.Refused
            → CannotSet (shell.SetSector address words.old) self.old) }
        ensures done { IfOk result (λ told. told ≡ outcome.Done
            → SetsUp (shell.SetSector address words.old) self.old self.new) }
        ensures goes_on { IfOk result (λ told. is_ended told ≡ false) }
    {
        let Some(bytes) = words.bytes(alloc)? else {
            return refuse(mistake_in(text), printed);
        };
        let sector = filled(address, &bytes);
        self.sectors.push(sector)?;
        printed.script_line(&SectorLine(sector))?;
        Ok(LineOutcome::Done)
    }

    // Puts a record's bytes into memory.
    fn load(&mut self, loaded: &HexRecord, printed: &mut Printed) -> Result<LineOutcome, AllocError>
        ensures refused { IfOk result (λ told. told ≡ outcome.Refused → IsSame self.old self.new) }
        ensures cannot { IfOk result (λ told. told ≡ outcome.Refused → ⊥) }
        ensures done { IfOk result (λ told. told ≡ outcome.Done
            → SetsUp (shell.Load loaded.now) self.old self.new) }
        ensures goes_on { IfOk result (λ told. is_ended told ≡ false) }
    {
        let address = loaded.address();
        let bytes = loaded.bytes();
        self.put(address, bytes);
        printed.script_line(&MemoryLine { address, bytes })?;
        Ok(LineOutcome::Done)
    }

    // Puts bytes into memory from an address on.
    fn put(&mut self, address: u16, bytes: &[u8])
        requires { address + length bytes.now ≤ 65536 }
        ensures boot { boot_of self.new.setup ≡ memory_from address bytes.now 1 (boot_of self.old.setup) }
        ensures sectors { self.new.sectors ≡ self.old.sectors }
    {
        let start = usize::from(address);
        let end = start + bytes.len();
        self.setup.guest.memory[start..end].copy_from_slice(bytes);
    }

    /// The first sector on a drive that is not attached.
    pub fn detached(&self) -> Mistake<'static>
        ensures { flaw_of result ≡ detached_in self.now.setup.guest.drives self.now.sectors.items }
    {
        match first_detached(&self.sectors, self.setup.guest.drives) {
            Some(sector) => Mistake::Detached {
                drive: sector.drive,
                track: sector.track,
                sector: sector.sector,
            },
            None => Mistake::Blank,
        }
    }
}

fn first_detached(sectors: &[SectorWrite], drives: u8) -> Option<&SectorWrite>
    ensures { option_copied result ≡ find (λ (sector : SectorWrite). nat_le drives sector.drive) sectors.now }
{
    sectors.iter().find(|sector| drives <= sector.drive)
}

// A sector of these bytes, before every write of a guest.
fn filled(address: SectorAddress, given: &[u8]) -> SectorWrite
    ensures { result ≡ sector_of address given.now }
{
    let bytes = sector_bytes(given);
    SectorWrite {
        number: 0,
        drive: address.drive,
        track: address.track,
        sector: address.sector,
        bytes,
    }
}

// The bytes of a sector: one byte alone is each of them.
fn sector_bytes(given: &[u8]) -> [u8; SECTOR_BYTES]
    ensures { result ≡ sector_bytes given.now }
{
    match given {
        [only] => [*only; SECTOR_BYTES],
        _ => padded(given),
    }
}

// The first 137 of these bytes, and zeros after them.
fn padded(given: &[u8]) -> [u8; SECTOR_BYTES]
    ensures { result ≡ padded given.now }
{
    let mut bytes = [0u8; SECTOR_BYTES];
    let count = given.len().min(SECTOR_BYTES);
    bytes[..count].copy_from_slice(&given[..count]);
    bytes
}

// A line as it was typed, of printable characters.
#[derive(Clone, Copy)]
struct Plain<'a>(&'a [u8]);

impl fmt::Display for Plain<'_> {
    fn fmt<W: fmt::Write>(&self, f: &mut fmt::Formatter<W>) -> fmt::Result {
        for byte in self.0 {
            write!(f, "{}", char::from(*byte))?;
        }
        Ok(())
    }
}

// The line of a script that puts bytes into memory; nothing for no bytes.
#[derive(Clone, Copy)]
struct MemoryLine<'a> {
    address: u16,
    bytes: &'a [u8],
}

impl fmt::Display for MemoryLine<'_> {
    fn fmt<W: fmt::Write>(&self, f: &mut fmt::Formatter<W>) -> fmt::Result {
        if self.bytes.is_empty() {
            return Ok(());
        }
        write!(f, "mem {:04X}", self.address)?;
        for byte in self.bytes {
            write!(f, " {byte:02X}")?;
        }
        Ok(())
    }
}

// The line of a script that sets a sector, if its bytes are equal; a comment otherwise, as no line of a script says it.
#[derive(Clone, Copy)]
struct SectorLine(SectorWrite);

impl fmt::Display for SectorLine {
    fn fmt<W: fmt::Write>(&self, f: &mut fmt::Formatter<W>) -> fmt::Result {
        let SectorWrite {
            drive,
            track,
            sector,
            ..
        } = self.0;
        if let Some(byte) = only_value(&self.0.bytes) {
            return write!(f, "sector {drive} {track} {sector} {byte:02X}");
        }
        write!(
            f,
            "# sector {drive} {track} {sector} has several values, which no line of a script sets"
        )
    }
}

// The value of all bytes, if they are equal.
fn only_value(bytes: &[u8]) -> Option<u8> {
    let first = *bytes.first()?;
    for byte in bytes {
        if *byte != first {
            return None;
        }
    }
    Some(first)
}

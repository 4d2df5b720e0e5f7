//! The floppy disk drives of the single machine, at a controller of the MITS 88-DCDD: the heads of one to four drives,
//! the sector that passes under one of them, and all writes that the drives issued.
ghost use Rattle.std.specs.Prelude.{◌≡◌, ◌<◌, ◌≤◌, ◌^◌, ℕ, [], ◌∷◌, ◌++◌, Some, if◌then◌else◌, IfOk, IfErr, OnOk, vec_len};
ghost use Rattle.disk_dcdd.specs.Command as commands;
ghost use Rattle.disk_dcdd.specs.Drive as table;
ghost use Rattle.i8080_words.specs.declared.refusal.Fault.TheVariants.{OutOfMemory};
ghost use Rattle.plain_single.specs.Passing.{selected_of};

mod completions;
mod head;
mod passing;

use disk_dcdd::SectorWrite;
use head::{Head, bits};
use i8080_words::{GREATEST_NUMBER, R};
use passing::{LAST_BYTE, NOTHING, SECTOR_BYTES, Selection, Stage};
use std::alloc::Global;

// The most drives that a controller can have.
const DRIVES: usize = 4;

// The most writes that may be outstanding.
const AWAITED: usize = 8;

// The places of the status bits. Bit 1 (the head may move) is always 0, and so are bits 3 and 4, which are not used.
const ENTER_NEW_WRITE_DATA: u8 = 0;

const HEAD_STATUS: u8 = 2;

const INTERRUPTS_ENABLED: u8 = 5;

const TRACK_ZERO: u8 = 6;

const NEW_READ_DATA: u8 = 7;

/// A write that is not done yet: its number, and the sector that it goes to.
#[derive(Clone, Copy)]
pub(crate) struct Awaited {
    pub(crate) number: u64,
    pub(crate) drive: u8,
    pub(crate) track: u8,
    pub(crate) sector: u8,
}

/// How many drives there are, which one is selected, their heads, whether interrupts are enabled, the writes that are
/// not done, and all writes, in order of number.
#[derive(Drop)]
pub struct DiskDrives {
    pub(crate) attached: u8,
    pub(crate) selection: Selection,
    pub(crate) heads: [Head; DRIVES],
    pub(crate) interrupts: bool,
    pub(crate) awaited: Vec<Awaited>,
    pub writes: Vec<SectorWrite>,
    ghost few: { attached ≤ 4 },
    ghost within: { (drive : ℕ) → selected_of selection ≡ Some drive → drive < attached },
}

impl DiskDrives {
    ghost use Rattle.plain_single.specs.Drives.{drives_of, next_write, with_issued};

    /// This many drives, at most 4, when they are switched on.
    pub fn new(alloc: Global, attached: u8) -> Self
        requires { attached ≤ 4 }
        ensures drives { drives_of result ≡ table.at_boot attached }
        ensures writes { result.writes.items ≡ [] }
    {
        DiskDrives {
            attached,
            selection: Selection::Nothing,
            heads: [Head::at_boot(); DRIVES],
            interrupts: false,
            awaited: Vec::new(alloc),
            writes: Vec::new(alloc),
        }
    }

    /// A copy of the drives.
    pub(crate) fn copy(&self, alloc: Global) -> R<Self>
        ensures ok { IfOk result (λ drives. drives_of drives ≡ drives_of self.now) }
        ensures writes { IfOk result (λ drives. drives.writes.items ≡ self.now.writes.items) }
        ensures only_memory { IfErr result (λ fault. fault ≡ OutOfMemory) }
    {
        let awaited = Vec::from_slice(alloc, &self.awaited)?;
        let writes = Vec::from_slice(alloc, &self.writes)?;
        Ok(DiskDrives {
            attached: self.attached,
            selection: self.selection,
            heads: self.heads,
            interrupts: self.interrupts,
            awaited,
            writes,
        })
    }

    // Whether there is room for one more outstanding write.
    fn has_room(&self) -> bool
        ensures { result ≡ table.has_room (drives_of self.now) }
    {
        self.awaited.len() < AWAITED
    }

    /// OUT 08h: selects a drive, or none, and the sector leaves.
    pub fn select(&mut self, byte: u8)
        ensures drives { drives_of self.new ≡ table.after_select (drives_of self.old) byte }
        ensures writes { self.new.writes ≡ self.old.writes }
    {
        // Bit 7 selects none, and bits 3 to 0 name a drive.
        let drive = byte % 16;
        self.selection = if byte < 0x80 && drive < self.attached {
            Selection::Waiting(drive)
        } else {
            Selection::Nothing
        };
    }

    /// IN 08h: the status of the selected drive, each bit 0 while its condition holds.
    pub fn status(&self) -> u8
        ensures { result ≡ table.status_of (drives_of self.now) }
    {
        let Some(drive) = self.selection.drive() else {
            return NOTHING;
        };
        let head = self.heads[drive as usize];
        let may_fill = self.selection.enters_new_data(self.has_room());
        let may_read = self.selection.has_new_data();
        low(may_fill, ENTER_NEW_WRITE_DATA)
            + low(head.loaded, HEAD_STATUS)
            + low(self.interrupts, INTERRUPTS_ENABLED)
            + low(head.track == 0, TRACK_ZERO)
            + low(may_read, NEW_READ_DATA)
    }

    /// OUT 09h: commands the selected drive.
    pub fn command(&mut self, byte: u8)
        ensures drives { drives_of self.new ≡ table.after_command (drives_of self.old) byte }
        ensures writes { self.new.writes ≡ self.old.writes }
    {
        let Some(drive) = self.selection.drive() else {
            return;
        };
        self.heads[drive as usize] = self.heads[drive as usize].commanded(byte);
        self.interrupts = enabled(self.interrupts, byte);
        self.selection.command(byte);
    }

    /// IN 09h: the position of the sector.
    pub fn position(&mut self) -> u8
        ensures byte { result ≡ table.position_of (drives_of self.old) }
        ensures drives { drives_of self.new ≡ table.after_position (drives_of self.old) }
        ensures writes { self.new.writes ≡ self.old.writes }
    {
        self.selection.look()
    }

    /// IN 0Ah: the next byte of the sector.
    pub fn read(&mut self) -> u8
        ensures byte { result ≡ table.byte_of (drives_of self.old) }
        ensures drives { drives_of self.new ≡ table.after_read (drives_of self.old) }
        ensures writes { self.new.writes ≡ self.old.writes }
    {
        self.selection.read()
    }

    /// OUT 0Ah: the next byte of a sector that is being written; the last one issues the write.
    pub fn fill(&mut self, byte: u8) -> R<()>
        requires { vec_len self.old.writes < GREATEST_NUMBER }
        ensures drives { IfOk result (λ _. drives_of self.new ≡ table.after_data (drives_of self.old) byte) }
        ensures writes { IfOk result (λ _. self.new.writes.items
            ≡ with_issued self.old.writes.items (table.issued_by (drives_of self.old) byte)) }
        ensures only_memory { IfErr result (λ fault. fault ≡ OutOfMemory) }
    {
        let has_room = self.has_room();
        let Selection::Over(drive, passing) = &mut self.selection else {
            return Ok(());
        };
        let Stage::Filling(filled) = passing.stage else {
            return Ok(());
        };
        if filled < LAST_BYTE {
            passing.bytes[filled as usize] = byte;
            passing.stage = Stage::Filling(filled + 1);
        } else if filled == LAST_BYTE && has_room {
            passing.bytes[filled as usize] = byte;
            let (drive, number, bytes) = (*drive, passing.number, passing.bytes);
            self.issue(drive, number, bytes)?;
        }
        Ok(())
    }

    // Issues a write of a sector of the selected drive, and the sector leaves.
    fn issue(&mut self, drive: u8, sector: u8, bytes: [u8; SECTOR_BYTES]) -> R<()>
        requires selected { selected_of self.old.selection ≡ Some drive }
        requires numbers { vec_len self.old.writes < GREATEST_NUMBER }
        ensures drives { IfOk result (λ _. drives_of self.new ≡ table.after_issue (drives_of self.old)
            (next_write (drives_of self.old) drive sector bytes)) }
        ensures writes { IfOk result (λ _. self.new.writes.items
            ≡ self.old.writes.items ++ next_write (drives_of self.old) drive sector bytes ∷ []) }
        ensures only_memory { IfErr result (λ fault. fault ≡ OutOfMemory) }
    {
        let number = self.writes.len() as u64 + 1;
        let track = self.heads[drive as usize].track;
        self.awaited.push(Awaited {
            number,
            drive,
            track,
            sector,
        })?;
        self.writes.push(SectorWrite {
            number,
            drive,
            track,
            sector,
            bytes,
        })?;
        self.selection = Selection::Waiting(drive);
        Ok(())
    }

    /// Whether the drives ask for an interrupt.
    pub fn asks(&self) -> bool
        ensures { result ≡ table.line_of (drives_of self.now) }
    {
        self.interrupts && self.selection.has_sector()
    }
}

// The interrupt enable after OUT 09h.
fn enabled(before: bool, byte: u8) -> bool
    ensures { result ≡ commands.commanded_interrupts byte before }
{
    let [_, _, _, _, enable, disable, ..] = bits(byte);
    !disable && (enable || before)
}

// A status bit, which is 0 while its condition holds.
fn low(holds: bool, place: u8) -> u8
    requires { place < 8 }
    ensures value { result ≡ (if holds then 0 else 2 ^ place) }
    ensures within { result ≤ 2 ^ place }
{
    if holds { 0 } else { 1 << place }
}

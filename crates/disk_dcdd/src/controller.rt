//! The controller: its state, its ports and its interrupt line.
ghost use Rattle.std.specs.Prelude.{◌≡◌, ◌<◌, ◌≤◌, if◌then◌else◌};
ghost use Rattle.disk_dcdd.specs.Drive as table;
ghost use Rattle.i8080_words.specs.declared.limits.TheConstants.{GREATEST_NUMBER};

mod completions;
mod image;

use crate::commands;
use crate::drive::Drive;
use crate::sector::{self, CurrentSector, LAST_BYTE, NOTHING, Place, SectorWrite};
use arrayvec::ArrayVec;
pub use image::ControllerImage;
use std::marker::Model;

/// The most drives that a controller can have; they are numbered from 0.
pub const DRIVES: usize = 4;

/// The most writes that can be outstanding.
pub const OUTSTANDING: usize = 8;

// The status bits, each 0 while its condition holds. Bit 1 (the head may move) is always 0, and so are bits 3 and 4,
// which are not used.
const ENTER_NEW_WRITE_DATA: u8 = 0x01;

const HEAD_STATUS: u8 = 0x04;

const INTERRUPTS_ENABLED: u8 = 0x20;

const TRACK_ZERO: u8 = 0x40;

const NEW_READ_DATA_AVAILABLE: u8 = 0x80;

/// The controller of one to four drives. At most one of them is selected, and at most one sector is under its head.
///
/// Its ports are those of the MITS 88-DCDD manual: 08h select and status, 09h control and sector position, 0Ah data.
#[derive(Drop)]
pub struct Controller {
    attached: u8,
    selected: Option<u8>,
    drives: [Drive; DRIVES],
    interrupts: bool,
    current: Option<CurrentSector>,
    outstanding: ArrayVec<Place, OUTSTANDING>,
    issued: u64,
}

impl Model for Controller {
    ghost use Rattle.disk_dcdd.specs.Drive.{Drives};

    ghost Value = { Drives };

    ghost use Rattle.disk_dcdd.specs.Controller.{drives_of, IsController};

    ghost view = { drives_of };

    ghost invariant = { IsController };
}

impl Controller {
    /// A controller of one to four drives when it is switched on: no drive is selected, each head is at track 0 and
    /// unloaded, and interrupts are disabled.
    pub fn new(drives: u8) -> Self
        requires some { 1 ≤ drives }
        requires few { drives ≤ DRIVES }
        ensures { result ≡ table.at_boot drives }
    {
        Controller {
            attached: drives,
            selected: None,
            drives: [Drive::at_boot(); DRIVES],
            interrupts: false,
            current: None,
            outstanding: ArrayVec::new(),
            issued: 0,
        }
    }

    /// OUT 08h selects a drive, or none. The sector under the head leaves.
    pub fn select(&mut self, byte: u8)
        ensures { self.new ≡ table.after_select self.old byte }
    {
        self.current = None;
        self.selected = commands::selected_by(byte, self.attached);
    }

    /// IN 08h returns the status of the selected drive; FFh if none is selected.
    pub fn status(&self) -> u8
        ensures { result ≡ table.status_of self.now }
    {
        let Some(selected) = self.selected else {
            return NOTHING;
        };
        let drive = self.drives[selected as usize];
        let may_fill = sector::enters_new_data(&self.current, !self.outstanding.is_full());
        let may_read = sector::has_new_data(&self.current);
        low(may_fill, ENTER_NEW_WRITE_DATA)
            + low(drive.loaded, HEAD_STATUS)
            + low(self.interrupts, INTERRUPTS_ENABLED)
            + low(drive.track == 0, TRACK_ZERO)
            + low(may_read, NEW_READ_DATA_AVAILABLE)
    }

    /// OUT 09h moves, loads and unloads the head of the selected drive, enables and disables interrupts, and starts a
    /// write of the sector under the head. The sector leaves if the head moves off it or if it is being written.
    pub fn command(&mut self, byte: u8)
        ensures { self.new ≡ table.after_command self.old byte }
    {
        let Some(selected) = self.selected else {
            return;
        };
        commands::command_drive(&mut self.drives[selected as usize], byte);
        self.interrupts = commands::commanded_interrupts(byte, self.interrupts);
        commands::command_sector(&mut self.current, byte);
    }

    /// IN 09h returns the position of the sector under the head, C0h plus twice its number; FFh if there is none. A
    /// sector that was shown, and is not being written, leaves at the next IN 09h.
    pub fn position(&mut self) -> u8
        ensures value { result ≡ table.position_of self.old }
        ensures after { self.new ≡ table.after_position self.old }
    {
        sector::show_position(&mut self.current)
    }

    /// IN 0Ah returns the next byte of the sector under the head, which leaves after its last; FFh if no byte waits.
    pub fn data_in(&mut self) -> u8
        ensures value { result ≡ table.byte_of self.old }
        ensures after { self.new ≡ table.after_read self.old }
    {
        sector::read_byte(&mut self.current)
    }

    /// OUT 0Ah gives the next byte of the sector that is being written. Its last byte issues the write, and the sector
    /// leaves; while `OUTSTANDING` writes are outstanding, that byte is lost.
    pub fn data_out(&mut self, byte: u8) -> Option<SectorWrite>
        requires { self.old.issued < GREATEST_NUMBER }
        ensures value { result ≡ table.issued_by self.old byte }
        ensures after { self.new ≡ table.after_data self.old byte }
    {
        let drive = self.selected?;
        let current = self.current.as_mut()?;
        let filled = current.filled?;
        if filled == LAST_BYTE && self.outstanding.is_full() {
            return None;
        }
        current.bytes[filled as usize] = byte;
        if filled < LAST_BYTE {
            current.filled = Some(filled + 1);
            return None;
        }
        let write = SectorWrite {
            number: self.issued + 1,
            drive,
            track: self.drives[drive as usize].track,
            sector: current.sector,
            bytes: current.bytes,
        };
        self.outstanding.push(write.place());
        self.issued = write.number;
        self.current = None;
        Some(write)
    }

    /// Whether the controller asks for an interrupt: interrupts are enabled, and a sector is under the head.
    pub fn line(&self) -> bool
        ensures { result ≡ table.line_of self.now }
    {
        self.interrupts && self.current.is_some()
    }
}

// A status bit, which is 0 while its condition holds.
fn low(holds: bool, bit: u8) -> u8
    ensures value { result ≡ (if holds then 0 else bit) }
    ensures within { result ≤ bit }
{
    if holds { 0 } else { bit }
}

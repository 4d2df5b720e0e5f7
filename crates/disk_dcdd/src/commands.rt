//! The bits that select a drive and command it, and what they do to the drive, the sector under its head and the
//! interrupt enable.
ghost use Rattle.std.specs.Prelude.{◌≡◌, ◌<◌, IfSome};
ghost use Rattle.disk_dcdd.specs.declared.drive.TheConstants.{TRACKS};
ghost use Rattle.disk_dcdd.specs.Command as table;

use crate::drive::Drive;
use crate::sector::CurrentSector;

// The bit of OUT 08h that leaves no drive selected.
const DESELECT: u8 = 7;

// The bits of OUT 09h. Bit 6 switches the head's current, which changes nothing that a program sees.
const STEP_IN: u8 = 0;

const STEP_OUT: u8 = 1;

const HEAD_LOAD: u8 = 2;

const HEAD_UNLOAD: u8 = 3;

const INTERRUPT_ENABLE: u8 = 4;

const INTERRUPT_DISABLE: u8 = 5;

const WRITE_ENABLE: u8 = 7;

// The drive that OUT 08h selects, with this many attached.
pub(crate) fn selected_by(byte: u8, attached: u8) -> Option<u8>
    ensures value { result ≡ table.selected_by byte attached }
    ensures range { IfSome result (λ drive. drive < attached) }
{
    let drive = byte & 0x0f;
    if !has_bit(byte, DESELECT) && drive < attached {
        Some(drive)
    } else {
        None
    }
}

// What OUT 09h does to the selected drive.
pub(crate) fn command_drive(drive: &mut Drive, command: u8)
    requires { drive.old.track < TRACKS }
    ensures { drive.new ≡ table.commanded_drive command drive.old }
{
    if has_bit(command, STEP_IN) {
        drive.step_in();
    }
    if has_bit(command, STEP_OUT) {
        drive.step_out();
    }
    if has_bit(command, HEAD_LOAD) {
        drive.loaded = true;
    }
    if has_bit(command, HEAD_UNLOAD) {
        drive.loaded = false;
    }
}

// The interrupt enable after OUT 09h.
pub(crate) fn commanded_interrupts(command: u8, enabled: bool) -> bool
    ensures { result ≡ table.commanded_interrupts command enabled }
{
    (enabled || has_bit(command, INTERRUPT_ENABLE)) && !has_bit(command, INTERRUPT_DISABLE)
}

// What OUT 09h does to the sector under the head.
pub(crate) fn command_sector(current: &mut Option<CurrentSector>, command: u8)
    ensures { current.new ≡ table.commanded_sector command current.old }
{
    let Some(sector) = current else {
        return;
    };
    if sector.filled.is_some() || moves_head(command) {
        *current = None;
    } else if has_bit(command, WRITE_ENABLE) {
        sector.filled = Some(0);
    }
}

// Whether OUT 09h takes the head off the sector.
fn moves_head(command: u8) -> bool
    ensures { result ≡ table.moves_head command }
{
    has_bit(command, STEP_IN) || has_bit(command, STEP_OUT) || has_bit(command, HEAD_UNLOAD)
}

// A bit of a byte.
fn has_bit(byte: u8, bit: u8) -> bool
    requires { bit < 8 }
    ensures { result ≡ table.has_bit byte bit }
{
    byte >> bit & 1 == 1
}

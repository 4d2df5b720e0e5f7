//! The sector that passes under the head of the selected drive.
ghost use Rattle.std.specs.Prelude.{◌≡◌, ◌<◌, not, is_some, Some, None};
ghost use Rattle.disk_dcdd.specs.Command as commands;
ghost use Rattle.disk_dcdd.specs.Sector as table;

use super::head::bits;

/// How many bytes a sector has.
pub(crate) const SECTOR_BYTES: usize = 137;

/// The index of its last byte.
pub(crate) const LAST_BYTE: u8 = 136;

/// What a port reads when it has nothing to show.
pub(crate) const NOTHING: u8 = 0xff;

// The position of sector 0: bits 7 and 6 are 1, bits 5 to 1 have the sector's number, and bit 0 is 0.
const SECTOR_ZERO: u8 = 0xc0;

/// What happens to a sector: its bytes are read, or it is written, and this many bytes are filled in.
#[derive(Clone, Copy)]
pub(crate) enum Stage {
    Reading,
    Filling(u8),
}

/// A sector as it passes: its number on the track, its bytes, how many were read, and whether its position was shown.
#[derive(Clone, Copy)]
pub(crate) struct Passing {
    pub(crate) number: u8,
    pub(crate) bytes: [u8; SECTOR_BYTES],
    pub(crate) read: u8,
    pub(crate) shown: bool,
    pub(crate) stage: Stage,
    ghost on_track: { number < 32 },
}

/// No drive, a drive that waits for a sector, or a drive with a sector under its head.
#[derive(Clone, Copy)]
pub(crate) enum Selection {
    Nothing,
    Waiting(u8),
    Over(u8, Passing),
}

impl Selection {
    ghost use Rattle.plain_single.specs.Passing.{selected_of, current_of};

    /// The selected drive.
    pub(crate) fn drive(&self) -> Option<u8>
        ensures { result ≡ selected_of self.now }
    {
        match self {
            Selection::Nothing => None,
            Selection::Waiting(drive) | Selection::Over(drive, _) => Some(*drive),
        }
    }

    /// Whether a sector is under its head.
    pub(crate) fn has_sector(&self) -> bool
        ensures { result ≡ is_some (current_of self.now) }
    {
        matches!(self, Selection::Over(..))
    }

    /// The sector leaves.
    pub(crate) fn leave(&mut self)
        ensures drive { selected_of self.new ≡ selected_of self.old }
        ensures sector { current_of self.new ≡ None }
    {
        if let Selection::Over(drive, _) = self {
            *self = Selection::Waiting(*drive);
        }
    }

    /// OUT 09h: the sector leaves if it is being written or the head moves off it; otherwise a write of it may start.
    pub(crate) fn command(&mut self, byte: u8)
        ensures after { current_of self.new ≡ commands.commanded_sector byte (current_of self.old) }
        ensures drive { selected_of self.new ≡ selected_of self.old }
    {
        let [step_in, step_out, _, unload, _, _, _, write] = bits(byte);
        let Selection::Over(drive, passing) = self else {
            return;
        };
        if step_in || step_out || unload || passing.is_written() {
            *self = Selection::Waiting(*drive);
        } else if write {
            passing.stage = Stage::Filling(0);
        }
    }

    /// Whether the next byte of the sector may be read.
    pub(crate) fn has_new_data(&self) -> bool
        ensures { result ≡ table.has_new_data (current_of self.now) }
    {
        match self {
            Selection::Over(_, passing) => passing.is_readable(),
            Selection::Nothing | Selection::Waiting(_) => false,
        }
    }

    /// Whether the next byte of the sector may be filled in.
    pub(crate) fn enters_new_data(&self, has_room: bool) -> bool
        ensures { result ≡ table.enters_new_data has_room (current_of self.now) }
    {
        match self {
            Selection::Over(_, passing) => passing.is_fillable(has_room),
            Selection::Nothing | Selection::Waiting(_) => false,
        }
    }

    /// IN 09h: the position of the sector, which leaves if it was shown already.
    pub(crate) fn look(&mut self) -> u8
        ensures value { result ≡ table.shown_position (current_of self.old) }
        ensures after { current_of self.new ≡ table.after_showing (current_of self.old) }
        ensures drive { selected_of self.new ≡ selected_of self.old }
    {
        let Selection::Over(_, passing) = self else {
            return NOTHING;
        };
        if passing.is_seen() {
            self.leave();
            return NOTHING;
        }
        passing.shown = true;
        SECTOR_ZERO + 2 * passing.number
    }

    /// IN 0Ah: the next byte of the sector, which leaves after its last one.
    pub(crate) fn read(&mut self) -> u8
        ensures value { result ≡ table.next_byte (current_of self.old) }
        ensures after { current_of self.new ≡ table.after_reading (current_of self.old) }
        ensures drive { selected_of self.new ≡ selected_of self.old }
    {
        let Selection::Over(_, passing) = self else {
            return NOTHING;
        };
        if !passing.is_readable() {
            return NOTHING;
        }
        let byte = passing.bytes[passing.read as usize];
        passing.read += 1;
        if passing.read > LAST_BYTE {
            self.leave();
        }
        byte
    }
}

impl Passing {
    ghost use Rattle.plain_single.specs.Passing.{sector_of};

    // Whether the sector is being written.
    fn is_written(&self) -> bool
        ensures { result ≡ table.is_written (sector_of self.now) }
    {
        matches!(self.stage, Stage::Filling(_))
    }

    // Whether the position was shown, and is not shown again.
    fn is_seen(&self) -> bool
        ensures { result ≡ not (table.is_shown_now (sector_of self.now)) }
    {
        match self.stage {
            Stage::Reading => self.shown,
            Stage::Filling(_) => false,
        }
    }

    // Whether the next byte may be read.
    fn is_readable(&self) -> bool
        ensures { result ≡ table.may_read (sector_of self.now) }
    {
        match self.stage {
            Stage::Reading => self.read <= LAST_BYTE,
            Stage::Filling(_) => false,
        }
    }

    // Whether the next byte may be filled in; the last one needs room for one more write.
    fn is_fillable(&self, has_room: bool) -> bool
        ensures { result ≡ table.enters_new_data has_room (Some (sector_of self.now)) }
    {
        match self.stage {
            Stage::Reading => false,
            Stage::Filling(LAST_BYTE) => has_room,
            Stage::Filling(filled) => filled < LAST_BYTE,
        }
    }
}

//! One drive: the track its head is at, and whether the head is loaded.
ghost use Rattle.std.specs.Prelude.{◌≡◌, ◌<◌, ◌↔◌, IsTrue};
ghost use Rattle.disk_dcdd.specs.Command as table;

/// How many tracks a disk has; they are numbered from 0.
pub const TRACKS: u8 = 77;

/// One drive: the track of its head, below `TRACKS`, and whether the head is loaded.
#[derive(Clone, Copy, PartialEq, Eq)]
pub struct Drive {
    pub track: u8,
    pub loaded: bool,
}

impl Drive {
    // A drive when it is switched on.
    pub(crate) fn at_boot() -> Self
        ensures { result ≡ table.drive_at_boot }
    {
        Drive {
            track: 0,
            loaded: false,
        }
    }

    // Whether the drive is as it is when switched on.
    pub(crate) fn is_at_boot(&self) -> bool
        ensures { IsTrue result ↔ (self.now ≡ table.drive_at_boot) }
    {
        self.track == 0 && !self.loaded
    }

    // Moves the head one track inwards, no further than the last track.
    pub(crate) fn step_in(&mut self)
        requires { self.old.track < TRACKS }
        ensures { self.new ≡ table.stepped_in self.old }
    {
        if self.track < TRACKS - 1 {
            self.track += 1;
        }
    }

    // Moves the head one track outwards, no further than track 0.
    pub(crate) fn step_out(&mut self)
        ensures { self.new ≡ table.stepped_out self.old }
    {
        if self.track > 0 {
            self.track -= 1;
        }
    }
}

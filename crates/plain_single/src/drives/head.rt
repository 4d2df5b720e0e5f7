//! The head of one drive, and what OUT 09h asks of a drive.
ghost use Rattle.std.specs.Prelude.{◌≡◌, ◌<◌, [], ◌∷◌};
ghost use Rattle.disk_dcdd.specs.Command as table;
ghost use Rattle.plain_single.specs.Tracks.{track_after};

// A disk has 77 tracks, from 0 to this one.
const LAST_TRACK: u8 = 76;

/// The track that a head is at, and whether the head is on the disk.
#[derive(Clone, Copy)]
pub(crate) struct Head {
    pub(crate) track: u8,
    pub(crate) loaded: bool,
    ghost on_disk: { track < 77 },
}

impl Head {
    ghost use Rattle.plain_single.specs.Passing.{drive_with};

    /// The head of a drive that is switched on.
    pub(crate) fn at_boot() -> Self
        ensures { drive_with result ≡ table.drive_at_boot }
    {
        Head {
            track: 0,
            loaded: false,
        }
    }

    /// The head after OUT 09h: it is stepped in, stepped out, put on the disk and taken off it, in this order.
    #[tactic(auto, using(crate::proofs::Heads::commanded))]
    pub(crate) fn commanded(self, byte: u8) -> Self
        ensures { drive_with result ≡ table.commanded_drive byte (drive_with self) }
    {
        let [step_in, step_out, load, unload, ..] = bits(byte);
        Head {
            track: stepped(self.track, step_in, step_out),
            loaded: !unload && (load || self.loaded),
        }
    }
}

// The track after a step in, a step out, or both.
fn stepped(track: u8, step_in: bool, step_out: bool) -> u8
    requires { track < 77 }
    ensures value { result ≡ track_after step_in step_out track }
    ensures range { result < 77 }
{
    let inner = if step_in {
        (track + 1).min(LAST_TRACK)
    } else {
        track
    };
    if step_out {
        inner.saturating_sub(1)
    } else {
        inner
    }
}

/// The bits of a byte, bit 0 first.
pub(crate) fn bits(byte: u8) -> [bool; 8]
    ensures { result ≡ table.has_bit byte 0 ∷ table.has_bit byte 1 ∷ table.has_bit byte 2 ∷ table.has_bit byte 3
        ∷ table.has_bit byte 4 ∷ table.has_bit byte 5 ∷ table.has_bit byte 6 ∷ table.has_bit byte 7 ∷ [] }
{
    [
        byte % 2 == 1,
        byte / 2 % 2 == 1,
        byte / 4 % 2 == 1,
        byte / 8 % 2 == 1,
        byte / 16 % 2 == 1,
        byte / 32 % 2 == 1,
        byte / 64 % 2 == 1,
        byte / 128 == 1,
    ]
}

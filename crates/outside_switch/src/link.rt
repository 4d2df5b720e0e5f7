//! What becomes of packets on their way from host to host, at a user's command.
ghost use Rattle.std.specs.Prelude.{◌≡◌};
ghost use Rattle.outside_switch.specs.Links.{after_draw, is_lost, loses};

/// What the switch does with packets between two hosts.
#[derive(Debug, Clone, Copy, PartialEq, Eq)]
pub enum LinkState {
    /// It passes each on.
    Passes,
    /// Of 100 packets it loses so many. Beats are packets too, and it passes them on: no host is suspected for it.
    Loses(u8),
    /// It loses each, beats among them: the hosts see the switch, and not each other.
    Parts,
}

/// The switch's link from host to host.
#[derive(Drop)]
pub(crate) struct Link {
    pub(crate) fate: LinkState,
    // How many packets were drawn for.
    draws: u64,
}

impl Link {
    /// It passes each packet on.
    pub(crate) fn new() -> Link {
        Link {
            fate: LinkState::Passes,
            draws: 0,
        }
    }

    /// Whether it loses a packet, which may be a beat.
    pub(crate) fn loses(&mut self, is_beat: bool) -> bool
        ensures loses { result ≡ loses self.old.fate self.old.draws is_beat }
        ensures fate { self.new.fate ≡ self.old.fate }
        ensures draws { self.new.draws ≡ after_draw self.old.draws is_beat }
    {
        let draw = self.draws;
        if !is_beat {
            self.draws = draw.wrapping_add(1);
        }
        match self.fate {
            LinkState::Passes => false,
            LinkState::Loses(percent) => !is_beat && is_lost(percent, draw),
            LinkState::Parts => true,
        }
    }
}

// Whether so many lost packets of 100 are lost in the draw of this number: of any 100 draws in a row just so many are, spread out.
fn is_lost(percent: u8, draw: u64) -> bool
    ensures { result ≡ is_lost percent draw }
{
    draw % 100 * 37 % 100 < u64::from(percent)
}

//! Inputs that events offer to a node.
ghost use Rattle.std.specs.Prelude.{◌≡◌};
ghost use Rattle.ft_world.specs.Offers.{input_of};

use guest_lockstep::Input;
use shared_disk::SectorRead;

/// An input that an event offers to a node, with the number by which the node knows whether it is due.
#[derive(Drop)]
pub(crate) enum Offer {
    /// The key that was typed at an index, from 0.
    Key { port: u8, index: u64, byte: u8 },
    /// The acceptance of the byte with a number, from 1.
    Sent { port: u8, number: u64 },
    /// The completion of the write with a number.
    Written { number: u64 },
    /// What the disk has for a sector.
    Sector { read: SectorRead },
}

impl Offer {
    // The input.
    pub(crate) fn input(&self) -> Input
        ensures { result ≡ input_of self.now }
    {
        match *self {
            Offer::Key { port, byte, .. } => Input::Rx(port, byte),
            Offer::Sent { port, .. } => Input::Sent(port),
            Offer::Written { number } => Input::Written(number),
            Offer::Sector { read } => {
                let bytes = read.bytes;
                Input::Sector {
                    drive: read.drive,
                    sector: read.sector,
                    number: read.number,
                    bytes,
                }
            }
        }
    }
}

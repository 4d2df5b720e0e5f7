//! What a host does with what its terminals and the disk send: its node takes it as an input.
ghost use Rattle.std.specs.Prelude.{◌≡◌, ◌<◌};
ghost use Rattle.disk_dcdd.specs.declared.controller.TheConstants.{DRIVES};
ghost use Rattle.disk_dcdd.specs.declared.sector.TheConstants.{SECTORS};
ghost use Rattle.host_frames.specs.Frames.{Transfers};
ghost use Rattle.host_frames.specs.declared.frame.Transfer.TheVariants as transfer;
ghost use Rattle.host_node.specs.Goes.{Goes};
ghost use Rattle.host_node.specs.Mail.{IsFrom};

use crate::heard::FrameOutcome;
use crate::host::{HostNode, Hosted};
use crate::mail::KeptKey;
use clone_state::Copies;
use disk_dcdd::{DRIVES, SECTORS, SectorAddress};
use event_callbacks::PORTS;
use host_frames::Transfer;
use i8080_words::R;
use pair_events::Role;
use shared_disk::SectorRead;

// How many acceptances are taken at once: as many as bytes may be outstanding.
const ACCEPTANCES: u64 = 16;

impl<B: Copies<H> + Drop, H: Drop> HostNode<B, H> {
    // Takes what a terminal or the disk sends.
    #[tactic(auto, using(crate::proofs::Going::stays))]
    pub(crate) fn take_transfer(&mut self, transfer: &Transfer) -> R<FrameOutcome>
        requires { IsFrom self.old.mail.came (Transfers transfer.now) }
        ensures { Goes B.state B.machine B.copied self.old self.new }
    {
        match transfer {
            Transfer::Key { port, index, byte } => {
                self.keep(KeptKey {
                    port: *port,
                    index: *index,
                    byte: *byte,
                });
                Ok(FrameOutcome::Key)
            }
            Transfer::Accepted { port, count } => self.take_accepted(*port, *count),
            Transfer::Written(number) => self.take_written(*number),
            Transfer::Failed(number) => Ok(FrameOutcome::Failed(*number)),
            Transfer::Sector(read) => self.take_sector(read),
            Transfer::Inspect { number, page } => Ok(FrameOutcome::Inspect {
                number: *number,
                page: *page,
            }),
            Transfer::Byte { .. }
            | Transfer::Write(_)
            | Transfer::Get(_)
            | Transfer::Inspected { .. } => Ok(FrameOutcome::Nothing),
        }
    }

    // Keeps a key, if it is the next one.
    #[tactic(auto, using(crate::proofs::Going::looked, crate::proofs::Going::stays))]
    fn keep(&mut self, key: KeptKey)
        requires { IsFrom self.old.mail.came (Transfers (transfer.Key key.port key.index key.byte)) }
        ensures { Goes B.state B.machine B.copied self.old self.new }
    {
        let taken = self.keys();
        let Some(taken) = taken.get(usize::from(key.port)) else {
            return;
        };
        let next = taken.saturating_add(self.mail.waiting(key.port) as u64);
        if key.index == next {
            self.mail.keep_key(key);
        }
    }

    // Takes the acceptance of bytes of a port, up to this count.
    #[tactic(auto, using(crate::proofs::Going::stays, crate::proofs::Going::and_then))]
    fn take_accepted(&mut self, port: u8, count: u64) -> R<FrameOutcome>
        requires { IsFrom self.old.mail.came (Transfers (transfer.Accepted port count)) }
        ensures { Goes B.state B.machine B.copied self.old self.new }
    {
        for _ in 0..ACCEPTANCES {
            if !self.take_acceptance(port, count) {
                break;
            }
        }
        Ok(FrameOutcome::Accepted)
    }

    // Takes the acceptance of the oldest byte of a port, if it is within this count.
    #[tactic(auto, using(crate::proofs::Taking::acceptance, crate::proofs::Going::stays))]
    fn take_acceptance(&mut self, port: u8, count: u64) -> bool
        requires { IsFrom self.old.mail.came (Transfers (transfer.Accepted port count)) }
        ensures goes { Goes B.state B.machine B.copied self.old self.new }
        ensures mail { self.new.mail ≡ self.old.mail }
    {
        let Some(number) = self.due_byte(port) else {
            return false;
        };
        let Hosted::Node(node) = &mut self.node else {
            return false;
        };
        if number == 0 || number > count || usize::from(port) >= PORTS {
            return false;
        }
        match node.sent(port, number) {
            Ok(()) => true,
            Err(_) => false,
        }
    }

    // Takes the completion of a write.
    #[tactic(auto, using(crate::proofs::Taking::done, crate::proofs::Going::stays))]
    fn take_written(&mut self, number: u64) -> R<FrameOutcome>
        requires { IsFrom self.old.mail.came (Transfers (transfer.Written number)) }
        ensures { Goes B.state B.machine B.copied self.old self.new }
    {
        let Hosted::Node(node) = &mut self.node else {
            return Ok(FrameOutcome::Nothing);
        };
        match node.done(number) {
            Ok(()) => Ok(FrameOutcome::Written(number)),
            Err(_) => Ok(FrameOutcome::Nothing),
        }
    }

    // Takes a sector of the disk: as what a replaying node waits for, or as a live node's input.
    #[tactic(auto, using(crate::proofs::Going::stays))]
    fn take_sector(&mut self, read: &SectorRead) -> R<FrameOutcome>
        requires { IsFrom self.old.mail.came (Transfers (transfer.Sector read.now)) }
        ensures { Goes B.state B.machine B.copied self.old self.new }
    {
        let sector = read.sector;
        if usize::from(read.drive) >= DRIVES || sector >= SECTORS {
            return Ok(FrameOutcome::Malformed);
        }
        let is_taken = match self.role() {
            Some(Role::Backup) | Some(Role::Draining) => self.take_wanted(read),
            _ => self.take_under(read),
        };
        Ok(FrameOutcome::Sector { sector, is_taken })
    }

    // Takes the sector for whose bytes a replaying node waits.
    #[tactic(auto, using(crate::proofs::Taking::fetched, crate::proofs::Going::stays))]
    fn take_wanted(&mut self, read: &SectorRead) -> bool
        requires { IsFrom self.old.mail.came (Transfers (transfer.Sector read.now)) }
        ensures { Goes B.state B.machine B.copied self.old self.new }
    {
        let Hosted::Node(node) = &mut self.node else {
            return false;
        };
        match node.fetched(read) {
            Ok(()) => true,
            Err(_) => false,
        }
    }

    // Takes a sector as an input.
    #[tactic(auto, using(crate::proofs::Taking::under, crate::proofs::Going::stays))]
    fn take_under(&mut self, read: &SectorRead) -> bool
        requires drive { read.now.drive < DRIVES }
        requires sector { read.now.sector < SECTORS }
        requires from { IsFrom self.old.mail.came (Transfers (transfer.Sector read.now)) }
        ensures { Goes B.state B.machine B.copied self.old self.new }
    {
        let Hosted::Node(node) = &mut self.node else {
            return false;
        };
        let address = SectorAddress {
            drive: read.drive,
            track: read.track,
            sector: read.sector,
        };
        let bytes = read.bytes;
        match node.under(address, read.number, bytes) {
            Ok(()) => true,
            Err(_) => false,
        }
    }
}

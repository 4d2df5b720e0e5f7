//! What a host does with a frame that came: at most one call of its node, or one for each acceptance.
ghost use Rattle.std.specs.Prelude.{IfErr};
ghost use Rattle.host_node.specs.Ends.{IsEnd};
ghost use Rattle.host_node.specs.Goes.{Goes};
ghost use Rattle.host_node.specs.Mail.{IsFrom};
ghost use Rattle.host_frames.specs.Frames.{Packet, Tells, Transfers, said_by};

use crate::early::EARLY;
use crate::heard::FrameOutcome;
use crate::host::{HostNode, Hosted};
use crate::pace::End;
use crate::sending::PARTS;
use clone_state::Copies;
use ft_node::Lead;
use host_frames::{Frame, Notice, frame_of};
use i8080_words::{Fault, R};

// The first bytes of packets of the log, of acknowledgements with and without a report, and of parts.
const LOG: u8 = 0x4c;

const ACKNOWLEDGED: u8 = 0x41;

const REPORTED: u8 = 0x42;

const PART: u8 = 0x50;

impl<B: Copies<H> + Drop, H: Drop> HostNode<B, H> {
    /// Takes the next frame that has come, if there is one, and says what it was; or says why the host ends: it was told to
    /// stop, or there was no memory for what the frame asks.
    #[tactic(auto, using(crate::proofs::Going::heard_none, crate::proofs::Going::heard_one, crate::proofs::Going::from_last, crate::proofs::Going::and_then))]
    pub fn hear(&mut self) -> Result<Option<FrameOutcome>, End>
        ensures goes { Goes B.state B.machine B.copied self.old self.new }
        ensures why { IfErr result (λ end. IsEnd B.state B.machine B.copied end self.old self.new) }
    {
        let Some(body) = self.mail.next() else {
            return Ok(None);
        };
        match frame_of(&body) {
            Ok(frame) => self.hear_frame(&frame),
            Err(_) => Ok(Some(FrameOutcome::Malformed)),
        }
    }

    // Takes a frame that came.
    #[tactic(auto, using(crate::proofs::Going::stays))]
    fn hear_frame(&mut self, frame: &Frame<'_>) -> Result<Option<FrameOutcome>, End>
        requires { IsFrom self.old.mail.came (said_by frame.now) }
        ensures goes { Goes B.state B.machine B.copied self.old self.new }
        ensures why { IfErr result (λ end. IsEnd B.state B.machine B.copied end self.old self.new) }
    {
        if let Frame::Notice(Notice::Stop) = frame {
            return Err(End::Stopped);
        }
        match self.take(frame) {
            Ok(heard) => Ok(Some(heard)),
            Err(_) => Err(End::OutOfMemory),
        }
    }

    // Takes a frame.
    #[tactic(auto, using(crate::proofs::Going::stays))]
    fn take(&mut self, frame: &Frame<'_>) -> R<FrameOutcome>
        requires { IsFrom self.old.mail.came (said_by frame.now) }
        ensures { Goes B.state B.machine B.copied self.old self.new }
    {
        match frame {
            Frame::Packet { host, bytes } => self.take_packet(*host, bytes),
            Frame::Transfer(transfer) => self.take_transfer(transfer),
            Frame::Notice(notice) => self.take_notice(notice),
        }
    }

    // Takes a packet of the peer, or one that comes early. A host that waits for the arbiter's answer takes none of its peer.
    #[tactic(auto, using(crate::proofs::Going::stays))]
    fn take_packet(&mut self, host: u8, bytes: &[u8]) -> R<FrameOutcome>
        requires { IsFrom self.old.mail.came (Packet host bytes.now) }
        ensures { Goes B.state B.machine B.copied self.old self.new }
    {
        if let [EARLY, ..] = *bytes {
            return Ok(self.take_early(host, bytes));
        }
        if host != self.peer || self.is_waiting {
            return Ok(FrameOutcome::Nothing);
        }
        match *bytes {
            [] => Ok(FrameOutcome::Beat),
            [PARTS, high, low] => Ok(FrameOutcome::Parts(u64::from(high) * 256 + u64::from(low))),
            [LOG, ..] => self.take_entry(host, bytes),
            [ACKNOWLEDGED, ..] | [REPORTED, ..] => self.take_acknowledgement(host, bytes),
            [PART, ..] => self.take_part(host, bytes),
            _ => Ok(FrameOutcome::Malformed),
        }
    }

    // Takes a packet of the log.
    #[tactic(auto, using(crate::proofs::Packets::on_log, crate::proofs::Going::stays))]
    fn take_entry(&mut self, host: u8, bytes: &[u8]) -> R<FrameOutcome>
        requires { IsFrom self.old.mail.came (Packet host bytes.now) }
        ensures { Goes B.state B.machine B.copied self.old self.new }
    {
        let Hosted::Node(node) = &mut self.node else {
            return Ok(FrameOutcome::Nothing);
        };
        match node.on_log(bytes) {
            Ok(_) => Ok(FrameOutcome::Entry),
            Err(Fault::OutOfMemory) => Err(Fault::OutOfMemory),
            Err(Fault::Malformed) => Ok(FrameOutcome::Malformed),
            Err(_) => Ok(FrameOutcome::Nothing),
        }
    }

    // Takes an acknowledgement.
    #[tactic(auto, using(crate::proofs::Packets::on_ack, crate::proofs::Going::stays))]
    fn take_acknowledgement(&mut self, host: u8, bytes: &[u8]) -> R<FrameOutcome>
        requires { IsFrom self.old.mail.came (Packet host bytes.now) }
        ensures { Goes B.state B.machine B.copied self.old self.new }
    {
        let Hosted::Node(node) = &mut self.node else {
            return Ok(FrameOutcome::Nothing);
        };
        match node.on_ack(bytes) {
            Ok(covered) => Ok(FrameOutcome::Acknowledged(covered)),
            Err(Fault::Malformed) | Err(Fault::BadAck) => Ok(FrameOutcome::Malformed),
            Err(_) => Ok(FrameOutcome::Nothing),
        }
    }

    // Takes a part of an image.
    #[tactic(auto, using(crate::proofs::Packets::on_part, crate::proofs::Going::stays))]
    fn take_part(&mut self, host: u8, bytes: &[u8]) -> R<FrameOutcome>
        requires { IsFrom self.old.mail.came (Packet host bytes.now) }
        ensures { Goes B.state B.machine B.copied self.old self.new }
    {
        let Hosted::Node(node) = &mut self.node else {
            return Ok(FrameOutcome::Nothing);
        };
        match node.part(self.alloc, bytes) {
            Ok(came) => Ok(FrameOutcome::Part(came)),
            Err(Fault::OutOfMemory) => Err(Fault::OutOfMemory),
            Err(Fault::Malformed) => Ok(FrameOutcome::Malformed),
            Err(_) => Ok(FrameOutcome::Nothing),
        }
    }

    // Takes what the arbiter or the switch says.
    #[tactic(auto, using(crate::proofs::Going::stays))]
    fn take_notice(&mut self, notice: &Notice) -> R<FrameOutcome>
        requires { IsFrom self.old.mail.came (Tells notice.now) }
        ensures { Goes B.state B.machine B.copied self.old self.new }
    {
        match *notice {
            Notice::Won(generation) => self.win(generation),
            Notice::Lost(generation) => self.lose(generation),
            Notice::Begin { generation, host } => self.begin(generation, host),
            Notice::Join {
                generation,
                host,
                drives,
                count,
            } => self.join(generation, host, drives, count),
            Notice::Gone(host) => Ok(FrameOutcome::Gone(host)),
            Notice::Progress {
                host,
                entries,
                count,
            } if host == self.peer => Ok(FrameOutcome::Progress(Lead { entries, count })),
            Notice::Tick { number, speed } => Ok(FrameOutcome::Tick { number, speed }),
            Notice::Progress { .. } | Notice::Suspect(_) | Notice::Report(_) | Notice::Stop => {
                Ok(FrameOutcome::Nothing)
            }
        }
    }
}

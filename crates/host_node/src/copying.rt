//! What a host that is alone does when it is told to begin a generation: a copy of its machine goes early, while it runs on.
ghost use Rattle.host_node.specs.Goes.{Goes};

use crate::heard::FrameOutcome;
use crate::pace::AGAIN;
use crate::serving::Serving;
use board_image::{KeyRoom, OutstandingWrites, Snapshots};
use clone_state::Copies;
use i8080_words::R;

// How many parts are sent early in one turn at most.
const FEW_PARTS: u64 = 32;

impl<B: Copies<H> + KeyRoom + OutstandingWrites + Snapshots + Drop, H: Drop> Serving<B, H> {
    // A copy goes early once the host is told to begin a generation, and no longer once the host is gone to which it goes. Without memory
    // none goes, and the generation begins without that.
    #[tactic(auto, using(crate::proofs::Going::stays, crate::proofs::Going::and_then))]
    pub(crate) fn prepare(&mut self, heard: FrameOutcome)
        ensures { Goes B.state B.machine B.copied self.old.host self.new.host }
    {
        match heard {
            FrameOutcome::Asked { generation, host } => self.begin_early(generation, host),
            FrameOutcome::Gone(_) if self.pace.is_gone => self.host.end_early(),
            _ => {}
        }
    }

    // A copy begins to go early, unless it does already.
    #[tactic(auto, using(crate::proofs::Going::stays, crate::proofs::Going::and_then))]
    fn begin_early(&mut self, generation: u32, place: u8)
        ensures { Goes B.state B.machine B.copied self.old.host self.new.host }
    {
        if self.host.is_copying(generation, place) {
            return;
        }
        let _ = self.host.copy_early(generation, place).is_ok();
        self.pace.begin_early(generation, place);
    }

    // Sends parts of a copy that goes early, until all of them have come, or none has for long.
    #[tactic(auto, using(crate::proofs::Going::stays, crate::proofs::Going::and_then))]
    pub(crate) fn send_image_early(&mut self) -> R<bool>
        ensures { Goes B.state B.machine B.copied self.old.host self.new.host }
    {
        let parts = self.host.early_parts();
        if parts == 0 {
            return Ok(false);
        }
        if self.pace.is_past(self.pace.parts_at, AGAIN * 5) {
            self.host.end_early();
            return Ok(false);
        }
        if self.pace.parts >= parts {
            self.end_round();
            return Ok(true);
        }
        self.send_few()
    }

    // All parts have come: those of an image of the guest as it is now go too, once.
    #[tactic(auto, using(crate::proofs::Going::stays, crate::proofs::Going::and_then))]
    fn end_round(&mut self)
        ensures { Goes B.state B.machine B.copied self.old.host self.new.host }
    {
        if self.pace.is_second {
            self.pace.has_crossed = true;
            self.host.end_early();
            return;
        }
        let (generation, place) = self.pace.early;
        let _ = self.host.copy_early(generation, place).is_ok();
        self.pace.begin_second();
    }

    // Sends few parts early, at most so many past those that have come.
    #[tactic(auto, using(crate::proofs::Going::stays, crate::proofs::Going::and_then))]
    fn send_few(&mut self) -> R<bool>
        ensures { Goes B.state B.machine B.copied self.old.host self.new.host }
    {
        let mut has_sent = false;
        for _ in 0..FEW_PARTS {
            if self.pace.next_part >= self.pace.most_parts() {
                break;
            }
            if !self.host.send_early(self.pace.next_part)? {
                break;
            }
            self.pace.next_part = self.pace.next_part.saturating_add(1);
            has_sent = true;
        }
        Ok(has_sent)
    }
}

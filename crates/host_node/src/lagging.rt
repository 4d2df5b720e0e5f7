//! How the hosts of a pair keep together: a backup follows its primary where that logs nothing, and a primary waits for a
//! backup that is far behind.
ghost use Rattle.host_node.specs.Goes.{Goes};
ghost use Rattle.host_node.specs.Lagging.{HoldsBack};

use crate::lag::{lag_of, waits_for};
use crate::serving::Serving;
use board_image::{KeyRoom, OutstandingWrites, Snapshots};
use clone_state::Copies;
use guest_lockstep::StopReason;
use i8080_words::{Fault, R};

impl<B: Copies<H> + KeyRoom + OutstandingWrites + Snapshots + Drop, H: Drop> Serving<B, H> {
    // Whether a primary's guest waits for the backup.
    #[tactic(auto, using(crate::proofs::Waiting::holds_back))]
    pub(crate) fn is_held_back(&self) -> bool
        ensures { HoldsBack B.state B.machine self.now.host.node self.now.pace.is_copying self.now.pace.lag.heard result }
    {
        let is_behind = self.pace.lag.is_far_behind(self.host.count());
        waits_for(self.host.role(), self.pace.is_copying, is_behind)
    }

    // By how many steps the host lags.
    pub(crate) fn behind(&self) -> u64 {
        lag_of(self.host.role(), self.pace.lag.behind(self.host.count()))
    }

    // Says how far the host is, if that is due.
    #[tactic(auto, using(crate::proofs::Going::stays, crate::proofs::Going::and_then))]
    pub(crate) fn say_progress(&mut self) -> R<bool>
        ensures { Goes B.state B.machine B.copied self.old.host self.new.host }
    {
        let count = self.host.count();
        if !self.pace.lag.is_due(count) {
            return Ok(false);
        }
        let has_said = self.host.say_progress()?;
        if has_said {
            self.pace.lag.say(count);
        }
        Ok(has_said)
    }

    // A backup makes steps up to where its primary said that it is.
    #[tactic(auto, using(crate::proofs::Going::stays, crate::proofs::Going::and_then))]
    pub(crate) fn run_ahead(&mut self) -> R<bool>
        ensures { Goes B.state B.machine B.copied self.old.host self.new.host }
    {
        let Some(lead) = self.pace.lag.heard() else {
            return Ok(false);
        };
        let most = self.most_steps();
        let stopped = self.host.run_ahead(lead, most)?;
        match stopped.reason {
            StopReason::Refused(Fault::OutOfMemory) if stopped.steps == 0 => {
                Err(Fault::OutOfMemory)
            }
            _ => Ok(stopped.steps > 0),
        }
    }
}

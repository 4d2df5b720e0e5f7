//! The loop of a host: turns that take what came, let the node go on, and send what is due. No turn waits for a stream.
ghost use Rattle.std.specs.Prelude.{◌≡◌, ◌⊎◌, IfErr, IsTrue};
ghost use Rattle.host_node.specs.Ends.{HasNoMachine, IsEnd, IsRefusal};
ghost use Rattle.host_node.specs.Goes.{Goes};
ghost use Rattle.host_node.specs.declared.pace.End.TheVariants as of_end;

use crate::heard::FrameOutcome;
use crate::host::HostNode;
use crate::inspecting::Inspect;
use crate::pace::{End, Schedule, Settings, TICK};
use crate::reporting::Known;
use board_image::{KeyRoom, OutstandingWrites, Snapshots};
use clone_state::Copies;
use host_frames::{Rests, micros};
use i8080_words::{Fault, R};
use pair_events::Role;
use std::sync::Wait;
use std::thread::Parker;
use std::time::{Clock, Duration};

// How many frames are taken in one turn at most.
const FRAMES: u32 = 512;

// How many microseconds the loop rests if nobody wakes it.
const REST: u64 = TICK / 10;

// For how many microseconds after a report none goes only because keys were taken or covered: a report for each key would take
// the outside longer than the key.
const REPORTED: u64 = 200;

/// A host and its loop's times.
#[derive(Drop)]
pub struct Serving<B: Copies<H> + Drop, H: Drop> {
    pub host: HostNode<B, H>,
    pub settings: Settings,
    pub pace: Schedule,
}

/// Serves until there is a reason to end, which is returned with the host. The reader of frames wakes the loop through the
/// parker.
#[tactic(auto, using(crate::proofs::Going::stays, crate::proofs::Going::and_then))]
pub fn serve<
    B: Copies<H> + KeyRoom + OutstandingWrites + Snapshots + Inspect + Drop,
    H: Drop,
    C: Wait + Clock,
>(rt: &C, host: HostNode<B, H>, settings: Settings, wake: &Parker) -> (HostNode<B, H>, End)
    ensures goes { Goes B.state B.machine B.copied host result.0 }
    ensures why { IsEnd B.state B.machine B.copied result.1 host result.0 }
{
    let pace = Schedule::new(micros(rt, 0));
    let mut serving = Serving {
        host,
        settings,
        pace,
    };
    let end = serving.serve_all(rt, wake);
    (serving.host, end)
}

impl<B: Copies<H> + KeyRoom + OutstandingWrites + Snapshots + Inspect + Drop, H: Drop> Serving<
    B,
    H,
> {
    // Takes turns until there is a reason to end.
    #[tactic(auto, using(crate::proofs::Going::stays, crate::proofs::Going::and_then, crate::proofs::Ending::ends_since))]
    fn serve_all<C: Wait + Clock>(&mut self, rt: &C, wake: &Parker) -> End
        ensures goes { Goes B.state B.machine B.copied self.old.host self.new.host }
        ensures why { IsEnd B.state B.machine B.copied result self.old.host self.new.host }
    {
        let mut rests = Rests::new(self.pace.now);
        for _ in rt.forever() {
            self.pace.now = micros(rt, self.pace.now);
            let is_busy = match self.turn() {
                Ok(is_busy) => is_busy,
                Err(end) => return end,
            };
            if is_busy {
                rests.find(self.pace.now);
            } else if self.is_held_back() {
                // Only a frame of its backup lets the guest go on.
                wake.park_timeout(rt, Duration::from_micros(REST));
            } else {
                rests.rest(rt, self.pace.now, wake, REST);
            }
        }
        unreachable!()
    }

    // One turn. Returns whether anything came or was done, or why the loop ends.
    #[tactic(auto, using(crate::proofs::Going::stays, crate::proofs::Going::and_then, crate::proofs::Ending::ends_since))]
    fn turn(&mut self) -> Result<bool, End>
        ensures goes { Goes B.state B.machine B.copied self.old.host self.new.host }
        ensures why { IfErr result (λ end. IsEnd B.state B.machine B.copied end self.old.host self.new.host) }
    {
        let has_heard = self.hear_all()?;
        let has_acted = self.attend(has_heard)?;
        Ok(has_heard | has_acted)
    }

    // Takes the frames that have come. Returns whether there was any.
    #[tactic(auto, using(crate::proofs::Going::stays, crate::proofs::Going::and_then, crate::proofs::Ending::ends_since))]
    fn hear_all(&mut self) -> Result<bool, End>
        ensures goes { Goes B.state B.machine B.copied self.old.host self.new.host }
        ensures why { IfErr result (λ end. IsEnd B.state B.machine B.copied end self.old.host self.new.host) }
    {
        let mut has_heard = false;
        for _ in 0..FRAMES {
            if !self.hear_next()? {
                break;
            }
            has_heard = true;
        }
        Ok(has_heard)
    }

    // Takes the next frame, if one has come.
    #[tactic(auto, using(crate::proofs::Going::stays, crate::proofs::Going::and_then))]
    fn hear_next(&mut self) -> Result<bool, End>
        ensures goes { Goes B.state B.machine B.copied self.old.host self.new.host }
        ensures why { IfErr result (λ end. IsEnd B.state B.machine B.copied end self.old.host self.new.host) }
    {
        let Some(heard) = self.host.hear()? else {
            return Ok(false);
        };
        let peer = self.host.peer();
        self.pace.note(heard, peer);
        self.prepare(heard);
        self.answer(heard);
        Ok(true)
    }

    // Shows what the machine has if that was asked, as it is now. Without room or memory for the answer it is asked again.
    #[tactic(auto, using(crate::proofs::Going::stays))]
    fn answer(&mut self, heard: FrameOutcome)
        ensures { Goes B.state B.machine B.copied self.old.host self.new.host }
    {
        if let FrameOutcome::Inspect { number, page } = heard {
            let _ = self.host.show(number, page).is_ok();
        }
    }

    // Goes on, unless no frame can come any more.
    #[tactic(auto, using(crate::proofs::Going::stays, crate::proofs::Going::and_then, crate::proofs::Ending::ends_since))]
    fn attend(&mut self, has_heard: bool) -> Result<bool, End>
        ensures goes { Goes B.state B.machine B.copied self.old.host self.new.host }
        ensures why { IfErr result (λ end. IsEnd B.state B.machine B.copied end self.old.host self.new.host) }
    {
        let is_over = self.host.is_over();
        if is_over && !has_heard {
            return Err(End::Closed);
        }
        self.beat_and_act()
    }

    // Says that the host is there, and lets its node go on, unless it waits for the arbiter.
    #[tactic(auto, using(crate::proofs::Going::stays, crate::proofs::Going::and_then, crate::proofs::Ending::ends_since))]
    fn beat_and_act(&mut self) -> Result<bool, End>
        ensures goes { Goes B.state B.machine B.copied self.old.host self.new.host }
        ensures why { IfErr result (λ end. IsEnd B.state B.machine B.copied end self.old.host self.new.host) }
    {
        match self.beat_and_ask() {
            Ok(true) => Ok(false),
            Ok(false) => self.act(),
            Err(_) => Err(End::OutOfMemory),
        }
    }

    // Says that the host is there, and asks the arbiter if that is due. Returns whether the host waits for the answer.
    #[tactic(auto, using(crate::proofs::Going::stays, crate::proofs::Going::and_then))]
    fn beat_and_ask(&mut self) -> R<bool>
        ensures { Goes B.state B.machine B.copied self.old.host self.new.host }
    {
        self.beat()?;
        self.asks()
    }

    // Lets the node go on, unless it has halted, or can never be whole.
    #[tactic(auto, using(crate::proofs::Going::stays, crate::proofs::Going::and_then, crate::proofs::Ending::orphaned, crate::proofs::Ending::refused))]
    fn act(&mut self) -> Result<bool, End>
        ensures goes { Goes B.state B.machine B.copied self.old.host self.new.host }
        ensures why { IfErr result (λ end. IsEnd B.state B.machine B.copied end self.old.host self.new.host) }
    {
        let role = self.host.role();
        if let Some(Role::Halted) = role {
            return Err(End::Lost);
        }
        if self.is_orphaned(role) {
            return Err(End::Orphaned);
        }
        match self.act_as(role) {
            Ok(is_busy) => Ok(is_busy),
            Err(fault) => Err(end_of(role, fault)),
        }
    }

    // Whether the host is to have a machine that it does not have, and whoever was to send it is suspected; or is gone, if only parts have
    // come early.
    fn is_orphaned(&self, role: Option<Role>) -> bool
        ensures { IsTrue result → HasNoMachine role }
    {
        match role {
            Some(Role::Joining) => self.pace.is_suspected(self.settings.patience),
            None => self.pace.is_given && self.pace.is_gone,
            _ => false,
        }
    }

    // What the node does in its role. Returns whether anything was done.
    #[tactic(auto, using(crate::proofs::Going::stays, crate::proofs::Going::and_then))]
    fn act_as(&mut self, role: Option<Role>) -> R<bool>
        ensures { Goes B.state B.machine B.copied self.old.host self.new.host }
    {
        match role {
            Some(Role::Primary) => self.serve_as_primary(),
            Some(Role::Alone) => self.run_alone(),
            Some(Role::Backup) => self.follow(),
            Some(Role::Draining) => self.drain(),
            Some(Role::Joining) | None => self.tell_parts(),
            Some(Role::Halted) => Ok(false),
        }
    }

    // Asks the arbiter if the peer is suspected. Returns whether the host waits for the answer: then its node does nothing.
    #[tactic(auto, using(crate::proofs::Going::stays, crate::proofs::Going::and_then))]
    fn asks(&mut self) -> R<bool>
        ensures { Goes B.state B.machine B.copied self.old.host self.new.host }
    {
        let may_ask = matches!(self.host.role(), Some(Role::Primary) | Some(Role::Backup));
        let is_waiting = self.host.is_waiting();
        if !may_ask || (!is_waiting && !self.pace.is_suspected(self.settings.patience)) {
            return Ok(false);
        }
        if !is_waiting || self.pace.is_past(self.pace.asked_at, TICK * 2) {
            self.host.suspect()?;
            self.pace.asked_at = self.pace.now;
        }
        Ok(true)
    }

    // Says that the host is there, to the outside and to its peer, at each beat; to the outside also when what it says of
    // itself has changed.
    #[tactic(auto, using(crate::proofs::Going::stays, crate::proofs::Going::and_then))]
    fn beat(&mut self) -> R<()>
        ensures { Goes B.state B.machine B.copied self.old.host self.new.host }
    {
        let is_time = self.pace.is_past(self.pace.beat_at, self.settings.beat);
        self.report(is_time)?;
        self.beat_to_peer(is_time)
    }

    // Says what the host is, at each beat and when it has changed.
    #[tactic(auto, using(crate::proofs::Going::stays, crate::proofs::Going::and_then))]
    fn report(&mut self, is_time: bool) -> R<()>
        ensures { Goes B.state B.machine B.copied self.old.host self.new.host }
    {
        if !is_time && !self.is_news() {
            return Ok(());
        }
        let known = self.known();
        let report = self.host.report(known);
        if self.host.send_report(known)? {
            self.pace.told = Some(report);
            self.pace.told_at = self.pace.now;
        }
        Ok(())
    }

    // Says to the peer at each beat that the host is there. A backup acknowledges too: a link that loses packets, whose
    // bytes are acknowledgements, passes a beat.
    #[tactic(auto, using(crate::proofs::Going::stays, crate::proofs::Going::and_then))]
    fn beat_to_peer(&mut self, is_time: bool) -> R<()>
        ensures { Goes B.state B.machine B.copied self.old.host self.new.host }
    {
        if !is_time {
            return Ok(());
        }
        self.pace.beat_at = self.pace.now;
        self.pace.lag.say_again();
        match self.host.role() {
            Some(Role::Primary) | Some(Role::Joining) => {
                self.host.beat()?;
                Ok(())
            }
            Some(Role::Backup) => {
                self.pace.owes_acknowledgement = true;
                self.host.beat()?;
                Ok(())
            }
            _ => Ok(()),
        }
    }

    // What the outside is told besides what the node shows.
    fn known(&self) -> Known {
        Known {
            is_idle: self.is_at_rest(),
            lag: self.behind(),
            writes: self.host.writes(),
            tick: self.pace.tick,
        }
    }

    // Whether the guest waits for a key, halted or by polling, and nothing of it is on its way to a device.
    fn is_at_rest(&self) -> bool {
        if self.has_outstanding() {
            return false;
        }
        self.pace.is_idle || self.host.is_polling()
    }

    // Whether the outside was not told yet what the host is, or for a moment how many keys it has taken and covered.
    fn is_news(&self) -> bool {
        let report = self.host.report(Known::nothing());
        let Some(told) = &self.pace.told else {
            return true;
        };
        if told.role != report.role || told.generation != report.generation {
            return true;
        }
        let has_keys = told.taken != report.taken || told.covered != report.covered;
        has_keys && self.pace.is_past(self.pace.told_at, REPORTED)
    }
}

// Why a loop ends whose node refuses so in this role: only one that repeats what its peer sent can find that it does not fit.
fn end_of(role: Option<Role>, fault: Fault) -> End
    ensures { IsRefusal role result }
{
    match role {
        Some(Role::Backup) | Some(Role::Draining) => end_of_repeating(fault),
        _ => End::OutOfMemory,
    }
}

// The same of a node that repeats what its peer sent.
fn end_of_repeating(fault: Fault) -> End
    ensures { (result ≡ of_end.Diverged) ⊎ (result ≡ of_end.OutOfMemory) }
{
    match fault {
        Fault::Malformed => End::Diverged,
        _ => End::OutOfMemory,
    }
}

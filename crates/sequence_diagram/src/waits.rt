//! What the output rule holds back: what a primary has given and its backup has not acknowledged.
ghost use Rattle.std.specs.Prelude.{◌≡◌, ◌<◌, [], IfOk, length};
ghost use Rattle.sequence_diagram.specs.Waits.{AreWaits, StandsThen, acknowledged, after_reads, arrived_by, begun, given, logged_by, noted, noted_by, standing_of, taken};

use crate::flights::cargo_to;
use crate::moment::{Cargo, Moment, NodeLook};
use event_callbacks::OpId;
use guest_lockstep::StopReason;
use pair_events::{Event, Reply, Role};
use std::alloc::{AllocError, Global};

/// How many operations of a primary wait for an acknowledgement.
#[derive(Clone, Copy)]
pub struct OutputWait {
    pub node: u64,
    pub operations: usize,
}

// An operation that waits: the index of its entry, and how many entries must be replayed for it.
#[derive(Clone, Copy)]
struct WaitingOperation {
    index: u64,
    after: u64,
}

// How far the log of a generation is held and replayed.
#[derive(Drop)]
struct Tally {
    node: u64,
    logged: u64,
    last_read: u64,
    held: u64,
    replayed: u64,
    waiting: Vec<WaitingOperation>,
}

/// What waits after each event of a run.
pub fn waits_of(alloc: Global, moments: &[Moment]) -> Result<Vec<OutputWait>, AllocError>
    ensures { IfOk result (λ waits. AreWaits moments.now waits.items) }
{
    let mut tally = Tally::new(alloc);
    let mut waits = Vec::new(alloc);
    tally.note_all(moments, &mut waits)?;
    Ok(waits)
}

impl Tally {
    fn new(alloc: Global) -> Tally
        ensures { standing_of result ≡ begun 0 }
    {
        Tally {
            node: 0,
            logged: 0,
            last_read: 0,
            held: 0,
            replayed: 0,
            waiting: Vec::new(alloc),
        }
    }

    // Notes each event of a run, and appends what waits after it.
    #[tactic(auto, using(crate::proofs::Waiting::waits_all))]
    fn note_all(
        &mut self,
        moments: &[Moment],
        waits: &mut Vec<OutputWait>,
    ) -> Result<(), AllocError>
        requires begins { standing_of self.old ≡ begun 0 }
        requires none { waits.old.items ≡ [] }
        ensures { IfOk result (λ _. AreWaits moments.now waits.new.items) }
    {
        for place in 0..moments.len() {
            self.note_at(moments, place)?;
            waits.push(OutputWait {
                node: self.node,
                operations: self.waiting.len(),
            })?;
        }
        Ok(())
    }

    // Notes the event at a place.
    #[tactic(auto, using(crate::proofs::Waiting::stands_then))]
    fn note_at(&mut self, moments: &[Moment], place: usize) -> Result<(), AllocError>
        requires { place < length moments.now }
        ensures { IfOk result (λ _. StandsThen moments.now place (standing_of self.old) (standing_of self.new)) }
    {
        let moment = &moments[place];
        self.note(moment)?;
        self.note_arrival(moment, cargo_to(moments, place));
        Ok(())
    }

    // Notes what an event has put into the log.
    fn note(&mut self, moment: &Moment) -> Result<(), AllocError>
        ensures { IfOk result (λ _. standing_of self.new ≡ noted moment.now (standing_of self.old)) }
    {
        match (moment.look, moment.answer) {
            (Some(look), Ok(reply)) => self.note_reply(moment.event, reply, look),
            _ => Ok(()),
        }
    }

    // The same, of an event at a node that was not refused.
    fn note_reply(&mut self, event: Event, reply: Reply, look: NodeLook) -> Result<(), AllocError>
        ensures { IfOk result (λ _. standing_of self.new
            ≡ noted_by event reply look.node look.role (standing_of self.old)) }
    {
        match reply {
            Reply::Generation { .. } | Reply::Won => self.begin(look.node),
            Reply::Stopped if look.node == self.node => self.begin(look.node),
            other => return self.note_log(event, other, look),
        }
        Ok(())
    }

    // What a primary has put into its log.
    fn note_log(&mut self, event: Event, reply: Reply, look: NodeLook) -> Result<(), AllocError>
        ensures { IfOk result (λ _. standing_of self.new
            ≡ logged_by look.role event reply look.node (standing_of self.old)) }
    {
        match (look.role, reply) {
            (
                Role::Primary,
                Reply::Ran {
                    why: StopReason::Operation(id),
                    ..
                },
            ) => {
                self.node = look.node;
                self.give(id)
            }
            (Role::Primary, Reply::Taken) => {
                self.take(event);
                Ok(())
            }
            _ => Ok(()),
        }
    }

    // A generation begins or ends: nothing waits.
    fn begin(&mut self, node: u64)
        ensures { standing_of self.new ≡ begun node }
    {
        self.node = node;
        self.logged = 0;
        self.last_read = 0;
        self.held = 0;
        self.replayed = 0;
        self.waiting.clear();
    }

    // An operation is given, and logged. A write waits for the reads before it too.
    fn give(&mut self, id: OpId) -> Result<(), AllocError>
        ensures { IfOk result (λ _. standing_of self.new ≡ given id (standing_of self.old)) }
    {
        self.waiting.push(WaitingOperation {
            index: self.logged,
            after: after_reads(id, self.last_read),
        })?;
        self.logged = self.logged.saturating_add(1);
        Ok(())
    }

    // An input is taken, and logged.
    fn take(&mut self, event: Event)
        ensures { standing_of self.new ≡ taken event (standing_of self.old) }
    {
        self.logged = self.logged.saturating_add(1);
        if let Event::GetReply { .. } = event {
            self.last_read = self.logged;
        }
    }

    // An acknowledgement has arrived. One without a report is of a log with all bytes.
    fn note_arrival(&mut self, moment: &Moment, cargo: Option<Cargo>)
        ensures { standing_of self.new ≡ arrived_by moment.now.answer cargo (standing_of self.old) }
    {
        if let (Ok(Reply::Held { .. }), Some(Cargo::Acknowledgement { held, replayed })) = (
            moment.answer,
            cargo,
        ) {
            let held = self.held.max(held);
            let replayed = self.replayed.max(replayed.unwrap_or(u64::MAX));
            self.cover(held, replayed);
        }
    }

    // What is acknowledged waits no longer.
    fn cover(&mut self, held: u64, replayed: u64)
        ensures { standing_of self.new ≡ acknowledged held replayed (standing_of self.old) }
    {
        self.held = held;
        self.replayed = replayed;
        self.waiting.retain(|operation| operation.index >= held || operation.after > replayed);
    }
}

// How many entries must be replayed before an operation is released.
fn after_reads(id: OpId, reads: u64) -> u64
    ensures { result ≡ after_reads id reads }
{
    match id {
        OpId::Byte(..) => 0,
        OpId::Write(_) => reads,
    }
}

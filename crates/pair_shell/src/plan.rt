//! The next event.
ghost use Rattle.std.specs.Prelude.{◌≡◌, ℕ, ◌-◌, ◌<◌, ◌≤◌, IfOk, IfSome, IsTrue, None, Some, false, length};
ghost use Rattle.std.specs.Option.{IsSome};
ghost use Rattle.ft_world.specs.Applies.{Shows};
ghost use Rattle.ft_world.specs.Guests.{machine_at};
ghost use Rattle.ft_world.specs.Standing.{Course, machine_of};
ghost use Rattle.pair_protocol.specs.Settled.{highest};
ghost use Rattle.pair_protocol.specs.Refusals.{log_size};
ghost use Rattle.pair_progress.specs.CatchingUp.{IsPair};
ghost use Rattle.pair_progress.specs.Completion.{IsCompletion, Responds};
ghost use Rattle.pair_progress.specs.Renewal.{IsOfParts};
ghost use Rattle.pair_progress.specs.Settling.{IsPairing};
ghost use Rattle.pair_progress.specs.Takeover.{IsItsOwn, IsLive};
ghost use Rattle.pair_shell.specs.Allowed.{Asks, HasIndexes, IsAllowed, IsPartOf};
ghost use Rattle.pair_shell.specs.Arriving.{ArrivesAs, ComesNext, ComesToNode, HasJustSent, IsTakenBy, MayReceive, SentComesNext};
ghost use Rattle.pair_shell.specs.Ending.{IsStill, IsThrough, MayRest, Rests};
ghost use Rattle.pair_shell.specs.Outstanding.{AreNames};
ghost use Rattle.pair_shell.specs.PlanHearing.{arrived_after, has_come, sent_by};
ghost use Rattle.pair_shell.specs.declared.serving.ServingNodes.TheVariants as who;
ghost use Rattle.pair_shell.specs.Serves.{IsOfALaw, MayCome, NobodyServes, Serves, SomebodyServes};

use crate::completing::{OperationStage, going_on, is_any_held, stage_of};
use crate::names::{first_outstanding, outstanding};
use crate::repeating::{count_of, draining, replaying, standing_of};
use crate::serving::{ServingNodes, who_serves};
use board_image::OutstandingWrites;
use clone_state::Copies;
use event_callbacks::OpId;
use ft_world::{Message, World};
use i8080_words::R;
use pair_events::{Event, Reply};
use shared_disk::SectorStore;
use std::alloc::{AllocError, Global};

// How many entries a primary logs at most that are not acknowledged.
const LOG_ENTRIES: u64 = 256;

/// A pair among so many hosts, whose image has so many parts; the message that the last event of the plan sent, if it sent one; and
/// how many parts of an image have arrived.
#[derive(Clone, Copy)]
pub struct RestPlan {
    hosts: u64,
    parts: u64,
    sent: Option<u64>,
    arrived: u64,
}

impl RestPlan {
    /// A plan for a pair among so many hosts, whose image has so many parts. No event was made so far.
    pub fn new(hosts: u64, parts: u64) -> RestPlan
        ensures { result ≡ record { hosts = hosts; parts = parts; sent = None; arrived = 0 } }
    {
        RestPlan {
            hosts,
            parts,
            sent: None,
            arrived: 0,
        }
    }

    /// Hears what was answered to the event that came next.
    pub fn hear(&mut self, answer: R<Reply>)
        ensures { self.new ≡ record self.old { sent = sent_by answer; arrived = arrived_after self.old.arrived answer } }
    {
        self.sent = sent_by(answer);
        if has_come(answer) {
            self.arrived = self.arrived.saturating_add(1);
        }
    }

    /// The event that comes next: what was sent last arrives, or the nodes that may serve go on. None if they are at rest,
    /// or if there are none.
    pub fn next<B: Copies<H> + OutstandingWrites + Drop, D: SectorStore, H: Drop>(
        &self,
        alloc: Global,
        world: &World<B, D, H>,
    ) -> Result<Option<Event>, AllocError>
        ensures law { IfOk result (λ next. IfSome next (λ event. (c : Course B.State)
            → Shows B.state B.copied B.machine D.records world.now c
            → IsOfALaw c.world (highest c.world.nodes) event)) }
        ensures allowed { self.now.sent ≡ None → IfOk result (λ next. IfSome next (λ event. (c : Course B.State)
            → Shows B.state B.copied B.machine D.records world.now c
            → Asks B.machine c self.now.parts → IsAllowed B.machine c event)) }
        ensures outward { IfOk result (λ next. IfSome next (λ event. (c : Course B.State)
            → Shows B.state B.copied B.machine D.records world.now c
            → Asks B.machine c self.now.parts → (ComesToNode event → ⊥) → IsAllowed B.machine c event)) }
        ensures delivered { (m : ℕ) → self.now.sent ≡ Some m → IfOk result (λ next. IfSome next (λ event. (c : Course B.State)
            → Shows B.state B.copied B.machine D.records world.now c → Asks B.machine c self.now.parts
            → HasJustSent (machine_of B.machine c) c.copying c.world m → IsAllowed B.machine c event)) }
        ensures comes { (m : ℕ) → self.now.sent ≡ Some m → IfOk result (λ next. (c : Course B.State)
            → Shows B.state B.copied B.machine D.records world.now c
            → SentComesNext c.world self.now.hosts (highest c.world.nodes) m next) }
        ensures rests { IfOk result (λ next. next ≡ None → (c : Course B.State)
            → Shows B.state B.copied B.machine D.records world.now c
            → Rests B.machine c.world self.now.hosts self.now.parts self.now.arrived (highest c.world.nodes)) }
    {
        let serving = who_serves(world, self.hosts);
        if let Some(event) = self.arriving(world, serving) {
            return Ok(Some(event));
        }
        self.going_on(alloc, world, serving)
    }

    /// Whether one of the hosts may serve.
    pub fn has_server<B: Copies<H> + Drop, D: SectorStore, H: Drop>(
        &self,
        world: &World<B, D, H>,
    ) -> bool
        ensures some { (c : Course B.State) → Shows B.state B.copied B.machine D.records world.now c
            → IsTrue result → SomebodyServes c.world (highest c.world.nodes) }
        ensures nobody { (c : Course B.State) → Shows B.state B.copied B.machine D.records world.now c
            → result ≡ false → NobodyServes c.world self.now.hosts (highest c.world.nodes) }
    {
        who_serves(world, self.hosts).node().is_some()
    }

    // The nodes that may serve go on.
    fn going_on<B: Copies<H> + OutstandingWrites + Drop, D: SectorStore, H: Drop>(
        &self,
        alloc: Global,
        world: &World<B, D, H>,
        serving: ServingNodes,
    ) -> Result<Option<Event>, AllocError>
        ensures kind { IfOk result (λ next. IfSome next (MayCome serving)) }
        ensures allowed { IfOk result (λ next. IfSome next (λ event. (c : Course B.State)
            → Shows B.state B.copied B.machine D.records world.now c → (generation : ℕ) → Serves c.world generation serving
            → Asks B.machine c self.now.parts → IsAllowed B.machine c event)) }
        ensures rests { IfOk result (λ next. next ≡ None → (c : Course B.State)
            → Shows B.state B.copied B.machine D.records world.now c → (generation : ℕ) → Serves c.world generation serving
            → MayRest B.machine c.world self.now.parts self.now.arrived generation serving) }
    {
        match serving {
            ServingNodes::Nobody => Ok(None),
            ServingNodes::Primary { node } => Ok(Some(Event::Suspect { node })),
            ServingNodes::Backup { node } => Ok(Some(Event::Suspect { node })),
            ServingNodes::Draining { node } => Ok(Some(draining(world, node))),
            ServingNodes::Alone { node } => Ok(completing(world, node)),
            ServingNodes::Joining { node, .. } => Ok(self.sending_part(node)),
            ServingNodes::Pair { node, backup } => paired(alloc, world, node, backup),
        }
    }

    // The arrival of the message that was sent last.
    fn arriving<B: Copies<H> + Drop, D: SectorStore, H: Drop>(
        &self,
        world: &World<B, D, H>,
        serving: ServingNodes,
    ) -> Option<Event>
        ensures kind { IfSome result (MayCome serving) }
        ensures none { self.now.sent ≡ None → result ≡ None }
        ensures outward { IfSome result (λ event. (c : Course B.State)
            → Shows B.state B.copied B.machine D.records world.now c
            → (ComesToNode event → ⊥) → IsAllowed B.machine c event) }
        ensures delivered { (m : ℕ) → self.now.sent ≡ Some m → IfSome result (λ event. (c : Course B.State)
            → Shows B.state B.copied B.machine D.records world.now c → Serves c.world (highest c.world.nodes) serving
            → HasJustSent (machine_of B.machine c) c.copying c.world m → IsAllowed B.machine c event) }
        ensures comes { (m : ℕ) → self.now.sent ≡ Some m → (c : Course B.State)
            → Shows B.state B.copied B.machine D.records world.now c → ComesNext c.world serving m result }
    {
        let message = self.sent?;
        let sent = world.message(message)?;
        arrival(sent, message, serving)
    }

    // The next part of the image is sent.
    fn sending_part(&self, node: u64) -> Option<Event>
        ensures kind { (host : ℕ) → IfSome result (IsOfParts node host) }
        ensures part { IfSome result (IsPartOf node self.now.parts) }
        ensures rests { result ≡ None → self.now.parts ≤ self.now.arrived }
    {
        if self.arrived < self.parts {
            Some(Event::SendPart {
                node,
                index: self.arrived,
            })
        } else {
            None
        }
    }
}

// The message that an event has sent, if it has sent one.
fn sent_by(answer: R<Reply>) -> Option<u64>
    ensures { result ≡ sent_by answer }
{
    match answer {
        Ok(Reply::Message { message }) => Some(message),
        _ => None,
    }
}

// Whether a part, or an entry, has come.
fn has_come(answer: R<Reply>) -> bool
    ensures { result ≡ has_come answer }
{
    matches!(answer, Ok(Reply::New | Reply::Old))
}

// The arrival of a message at a device, or at the node that it is for.
fn arrival(sent: &Message, message: u64, serving: ServingNodes) -> Option<Event>
    ensures kind { IfSome result (MayCome serving) }
    ensures received { IfSome result (λ event. MayReceive serving) }
    ensures arrives { IfSome result (ArrivesAs sent.now message) }
    ensures taken { IsTakenBy serving sent.now → IsSome result }
{
    match serving {
        ServingNodes::Alone { node } => arrival_alone(sent, message, node),
        ServingNodes::Pair { node, backup } => arrival_in_pair(sent, message, node, backup),
        ServingNodes::Joining { host, .. } => arrival_of_part(sent, message, host),
        ServingNodes::Draining { node } => arrival_of_sector(sent, message, node),
        _ => None,
    }
}

// The arrival of a part of an image.
fn arrival_of_part(sent: &Message, message: u64, host: u64) -> Option<Event>
    ensures kind { (primary : ℕ) → IfSome result (IsOfParts primary host) }
    ensures arrives { IfSome result (ArrivesAs sent.now message) }
    ensures taken { (primary : ℕ) → IsTakenBy (who.Joining primary host) sent.now → IsSome result }
{
    match sent {
        Message::Part(_) => Some(Event::PartComes {
            message,
            node: host,
        }),
        _ => None,
    }
}

// The arrival of a sector at a node that drains.
fn arrival_of_sector(sent: &Message, message: u64, node: u64) -> Option<Event>
    ensures kind { IfSome result (IsItsOwn node) }
    ensures arrives { IfSome result (ArrivesAs sent.now message) }
    ensures taken { IsTakenBy (who.Draining node) sent.now → IsSome result }
{
    match sent {
        Message::Sector(_) => Some(Event::Fetched { message, node }),
        _ => None,
    }
}

// The arrival of what a live node has released, or of the disk's answer.
fn arrival_alone(sent: &Message, message: u64, node: u64) -> Option<Event>
    ensures kind { IfSome result (IsCompletion node) }
    ensures arrives { IfSome result (ArrivesAs sent.now message) }
    ensures taken { IsTakenBy (who.Alone node) sent.now → IsSome result }
{
    match sent {
        Message::Byte { .. } => Some(Event::Arrive { message }),
        Message::Write(_) => Some(Event::Put { message }),
        Message::Written(_) => Some(Event::PutReply { message, node }),
        _ => None,
    }
}

// The same in a pair, or the arrival of what its nodes send each other.
#[tactic(auto, using(crate::proofs::Completions::pairing_some))]
fn arrival_in_pair(sent: &Message, message: u64, node: u64, backup: u64) -> Option<Event>
    ensures kind { IfSome result (IsPairing node backup) }
    ensures arrives { IfSome result (ArrivesAs sent.now message) }
    ensures taken { IsTakenBy (who.Pair node backup) sent.now → IsSome result }
{
    match sent {
        Message::Log(_) => Some(Event::DeliverLog {
            message,
            node: backup,
        }),
        Message::Ack(_) => Some(Event::DeliverAcknowledgement { message, node }),
        Message::Sector(_) => Some(Event::Fetched {
            message,
            node: backup,
        }),
        other => arrival_alone(other, message, node),
    }
}

// The next event of a live node: its first outstanding operation goes on.
fn completing<B: Copies<H> + OutstandingWrites + Drop, D: SectorStore, H: Drop>(
    world: &World<B, D, H>,
    node: u64,
) -> Option<Event>
    ensures kind { IfSome result (IsCompletion node) }
    ensures allowed { IfSome result (λ event. (c : Course B.State)
        → Shows B.state B.copied B.machine D.records world.now c → (generation : ℕ) → IsLive c.world node generation
        → Responds (machine_of B.machine c) → IsAllowed B.machine c event) }
    ensures rests { result ≡ None → (c : Course B.State) → Shows B.state B.copied B.machine D.records world.now c
        → IsStill B.machine c.world node }
{
    let guest = world.guest(node)?;
    let id = first_outstanding(guest)?;
    Some(going_on(node, id, stage_of(world, node, id)))
}

// The next event of the primary of a pair: its first outstanding operation goes on, if all may be completed.
fn completing_in_pair<B: Copies<H> + OutstandingWrites + Drop, D: SectorStore, H: Drop>(
    world: &World<B, D, H>,
    node: u64,
    names: &[OpId],
    is_held: bool,
) -> Option<Event>
    ensures kind { IfSome result (IsCompletion node) }
    ensures allowed { IfSome result (λ event. (c : Course B.State)
        → Shows B.state B.copied B.machine D.records world.now c
        → (backup generation : ℕ) → IsPair c.world node backup generation
        → Responds (machine_of B.machine c) → HasIndexes c.world → IsAllowed B.machine c event) }
{
    if !may_complete(world, node, names, is_held) {
        return None;
    }
    let guest = world.guest(node)?;
    let id = first_outstanding(guest)?;
    match stage_of(world, node, id) {
        OperationStage::Held => None,
        stage => Some(going_on(node, id, stage)),
    }
}

// The names of what is outstanding at a node.
pub(crate) fn names_of<B: Copies<H> + OutstandingWrites + Drop, D: SectorStore, H: Drop>(
    alloc: Global,
    world: &World<B, D, H>,
    node: u64,
) -> Result<Vec<OpId>, AllocError>
    ensures { IfOk result (λ names. (c : Course B.State) → Shows B.state B.copied B.machine D.records world.now c
        → AreNames B.state B.OutstandingWrites.writes B.machine (machine_at c.world.nodes node) names.items) }
{
    match world.guest(node) {
        Some(guest) => outstanding(alloc, guest),
        None => Ok(Vec::new(alloc)),
    }
}

// The next event of a pair. All that is outstanding is completed if nothing of it is held and the log has room for it; the log is
// caught up with before that if it must be, and at the end.
#[tactic(auto, using(crate::proofs::Completions::pairing_some))]
fn paired<B: Copies<H> + OutstandingWrites + Drop, D: SectorStore, H: Drop>(
    alloc: Global,
    world: &World<B, D, H>,
    node: u64,
    backup: u64,
) -> Result<Option<Event>, AllocError>
    ensures kind { IfOk result (λ next. IfSome next (IsPairing node backup)) }
    ensures allowed { IfOk result (λ next. IfSome next (λ event. (c : Course B.State)
        → Shows B.state B.copied B.machine D.records world.now c → (generation : ℕ) → IsPair c.world node backup generation
        → Responds (machine_of B.machine c) → HasIndexes c.world → IsAllowed B.machine c event)) }
    ensures rests { IfOk result (λ next. next ≡ None → (c : Course B.State)
        → Shows B.state B.copied B.machine D.records world.now c
        → (generation : ℕ) (pair : IsPair c.world node backup generation) → IsThrough pair.x pair.y) }
{
    let names = names_of(alloc, world, node)?;
    let is_held = is_any_held(world, node, &names);
    if let Some(event) = completing_in_pair(world, node, &names, is_held) {
        return Ok(Some(event));
    }
    Ok(catching_up(world, node, backup, is_held))
}

// Whether something is outstanding, nothing of it is held, and the log has room for the completions.
fn may_complete<B: Copies<H> + Drop, D: SectorStore, H: Drop>(
    world: &World<B, D, H>,
    node: u64,
    names: &[OpId],
    is_held: bool,
) -> bool
    ensures { (c : Course B.State) → Shows B.state B.copied B.machine D.records world.now c
        → (backup generation : ℕ) (pair : IsPair c.world node backup generation)
        → IsTrue result → length pair.x.log - pair.x.covered < log_size }
{
    if is_held || names.is_empty() {
        return false;
    }
    let log = standing_of(world, node);
    let entries = log.entries.saturating_sub(log.done);
    entries.saturating_add(names.len() as u64) <= LOG_ENTRIES
}

// The backup gets the next entry that it lacks, or acknowledges; before that it repeats what it holds, if an operation is held.
fn catching_up<B: Copies<H> + Drop, D: SectorStore, H: Drop>(
    world: &World<B, D, H>,
    node: u64,
    backup: u64,
    is_held: bool,
) -> Option<Event>
    ensures kind { IfSome result (IsPairing node backup) }
    ensures allowed { IfSome result (λ event. (c : Course B.State)
        → Shows B.state B.copied B.machine D.records world.now c → (generation : ℕ) → IsPair c.world node backup generation
        → IsAllowed B.machine c event) }
    ensures rests { result ≡ None → (c : Course B.State) → Shows B.state B.copied B.machine D.records world.now c
        → (generation : ℕ) (pair : IsPair c.world node backup generation) → IsThrough pair.x pair.y }
{
    let log = standing_of(world, node);
    let held = standing_of(world, backup);
    if held.entries < log.entries {
        return Some(Event::Send {
            node,
            index: held.entries,
        });
    }
    if is_held && held.done < held.entries {
        return Some(replaying(world, backup, count_of(world, node)));
    }
    if is_held || log.done < log.entries {
        return Some(Event::Acknowledge { node: backup });
    }
    None
}

//! What is outstanding in a pair, what it waits for, and what would bring it on.
ghost use Rattle.std.specs.Prelude.{◌≡◌, ◌∷◌, ◌++◌, [], IfOk, Some};
ghost use Rattle.std.specs.Fmt.{WritesOnOk};
ghost use Rattle.pair_shell.specs.Waits.{held_for, name_text, next_rows, serving_text, standing_rows, waiting_text, words_of};
ghost use Rattle.shell_language.specs.Texts.{AddsSome, Prints, Text};

use crate::asked::parts_of;
use crate::{OperationStage, RestPlan, ServingNodes, outstanding, stage_of, who_serves};
use board_image::OutstandingWrites;
use clone_state::Copies;
use event_callbacks::OpId;
use ft_node::Standing;
use ft_world::{Message, World};
use pair_events::Event;
use shared_disk::Disk;
use shell_language::{Book, Brings, Printed, SessionSetup, Spelled};
use std::alloc::{AllocError, Global};
use std::fmt;

/// What an operation waits for.
#[derive(Clone, Copy)]
pub enum Wait {
    /// The acknowledgement of its mark.
    Acknowledgement,
    /// A report that the reads before it are replayed.
    Report,
    /// That its node has won, and has repeated what it holds.
    Live,
    /// Its release.
    Release,
    /// The arrival of a message that releases it.
    Arrival,
    /// The arrival of the disk's answer.
    Answer,
    /// That its node hears that it was accepted.
    Hearing,
}

/// An operation, what it waits for, and the event that brings it on, if that is an event of its own.
#[derive(Clone, Copy)]
pub struct Waiting {
    pub id: OpId,
    pub wait: Wait,
    pub event: Option<Event>,
}

impl fmt::Display for Waiting {
    ghost output = { λ waiting. Some (waiting_text waiting) };

    fn fmt<W: fmt::Write>(&self, f: &mut fmt::Formatter<W>) -> fmt::Result {
        write_name(f, self.id)?;
        write!(f, "{}", words_of(self.wait))?;
        match self.event {
            Some(event) => write!(f, ": `{}`", Spelled(event)),
            None => Ok(()),
        }
    }
}

fn write_name<W: fmt::Write>(f: &mut fmt::Formatter<W>, id: OpId) -> fmt::Result
    ensures { WritesOnOk W.write_str_gives f.old result (name_text id) f.new }
{
    match id {
        OpId::Byte(port, number) => write!(f, "  byte {port} {number} "),
        OpId::Write(number) => write!(f, "  write {number} "),
    }
}

fn words_of(wait: Wait) -> &'static str
    ensures { result.now ≡ words_of wait }
{
    match wait {
        Wait::Acknowledgement => "waits for an acknowledgement of its mark",
        Wait::Report => "waits until a read before it is replayed",
        Wait::Live => "waits until its node is live",
        Wait::Release => "waits for its release",
        Wait::Arrival => "is on its way",
        Wait::Answer => "waits for the disk's answer",
        Wait::Hearing => "was accepted",
    }
}

/// What is outstanding in a pair, what it waits for, and what would bring it on; nothing happens.
pub(crate) fn print_why<B: Copies<H> + OutstandingWrites + Drop, H: Drop>(
    alloc: Global,
    opening: &SessionSetup,
    world: &World<B, Disk, H>,
    book: &Book,
    printed: &mut Printed,
) -> Result<(), AllocError> {
    let hosts = u64::from(opening.setup.hosts);
    let plan = RestPlan::new(hosts, parts_of(opening.setup.guest.drives));
    let serving = who_serves(world, hosts);
    print_serving(serving, printed)?;
    let Some(node) = serving.node() else {
        return Ok(());
    };
    print_standing(world.standing(node), printed)?;
    print_operations(alloc, world, book, serving, node, printed)?;
    print_next(plan.next(alloc, world)?, printed)
}

// Which nodes may serve.
#[tactic(auto, using(shell_language::proofs::Adding::prints_text))]
fn print_serving(serving: ServingNodes, printed: &mut Printed) -> Result<(), AllocError>
    ensures { IfOk result (λ _. Prints (Text (serving_text serving) ∷ []) printed.old printed.new) }
{
    match serving {
        ServingNodes::Nobody => printed.line(&"no node may serve")?,
        ServingNodes::Primary { node } => {
            printed.line(&format_args!("node {node} is a primary without a backup"))?
        }
        ServingNodes::Backup { node } => {
            printed.line(&format_args!("node {node} is a backup without a primary"))?
        }
        ServingNodes::Draining { node } => {
            printed.line(&format_args!("node {node} has won, and repeats what it holds"))?
        }
        ServingNodes::Alone { node } => printed.line(&format_args!("node {node} is alone"))?,
        ServingNodes::Joining { node, host } => {
            printed.line(&format_args!("node {node} is a primary, and host {host} joins it"))?
        }
        ServingNodes::Pair { node, backup } => {
            printed.line(&format_args!("node {node} is a primary, and node {backup} its backup"))?
        }
    }
    Ok(())
}

// How far a node is with its log, if it has one.
#[tactic(auto, using(shell_language::proofs::Adding::prints_none, shell_language::proofs::Adding::prints_text))]
fn print_standing(standing: Option<Standing>, printed: &mut Printed) -> Result<(), AllocError>
    ensures { IfOk result (λ _. Prints (standing_rows standing) printed.old printed.new) }
{
    if let Some(Standing { entries, done }) = standing {
        printed.line(&format_args!("  {done} of {entries} entries are through"))?;
    }
    Ok(())
}

// The event that comes next, if there is one.
#[tactic(auto, using(shell_language::proofs::Adding::prints_text))]
fn print_next(event: Option<Event>, printed: &mut Printed) -> Result<(), AllocError>
    ensures { IfOk result (λ _. Prints (next_rows event) printed.old printed.new) }
{
    match event {
        Some(event) => printed.line(&format_args!("  next: `{}`", Spelled(event)))?,
        None => printed.line(&"  nothing is outstanding")?,
    }
    Ok(())
}

// Each operation that is outstanding at a node.
fn print_operations<B: Copies<H> + OutstandingWrites + Drop, H: Drop>(
    alloc: Global,
    world: &World<B, Disk, H>,
    book: &Book,
    serving: ServingNodes,
    node: u64,
    printed: &mut Printed,
) -> Result<(), AllocError> {
    let Some(guest) = world.guest(node) else {
        return Ok(());
    };
    for id in &outstanding(alloc, guest)? {
        printed.line(&waiting_of(world, book, serving, node, *id))?;
    }
    Ok(())
}

// What an operation of a node waits for.
fn waiting_of<B: Copies<H> + OutstandingWrites + Drop, H: Drop>(
    world: &World<B, Disk, H>,
    book: &Book,
    serving: ServingNodes,
    node: u64,
    id: OpId,
) -> Waiting {
    match (stage_of(world, node, id), id) {
        (OperationStage::Held, _) => Waiting {
            id,
            wait: held(serving, world.standing(node)),
            event: None,
        },
        (OperationStage::Accepted, OpId::Byte(port, number)) => Waiting {
            id,
            wait: Wait::Hearing,
            event: Some(Event::TellSent { node, port, number }),
        },
        _ => released(world, book, node, id),
    }
}

// What an operation waits for that is held. The primary of a pair that has an acknowledgement of all that it logged waits for a report;
// a node without a peer releases nothing until it is live.
fn held(serving: ServingNodes, standing: Option<Standing>) -> Wait
    ensures { result ≡ held_for serving standing }
{
    match serving {
        ServingNodes::Pair { .. } | ServingNodes::Joining { .. } => match standing {
            Some(Standing { entries, done }) if entries <= done => Wait::Report,
            _ => Wait::Acknowledgement,
        },
        _ => Wait::Live,
    }
}

// An operation that may be released: the last message that brings it on, and that has not arrived, or its release.
fn released<B: Copies<H> + OutstandingWrites + Drop, H: Drop>(
    world: &World<B, Disk, H>,
    book: &Book,
    node: u64,
    id: OpId,
) -> Waiting {
    let mut waiting = Waiting {
        id,
        wait: Wait::Release,
        event: Some(Event::Release { node, id }),
    };
    for message in 0..book.messages() {
        if let Some(arriving) = arriving(world, book, node, id, message) {
            waiting = arriving;
        }
    }
    waiting
}

// A message that brings an operation on, and that has not arrived.
fn arriving<B: Copies<H> + OutstandingWrites + Drop, H: Drop>(
    world: &World<B, Disk, H>,
    book: &Book,
    node: u64,
    id: OpId,
    message: u64,
) -> Option<Waiting> {
    if book.letter(message)?.has_arrived {
        return None;
    }
    let (wait, event) = match (world.message(message)?, id) {
        (Message::Byte { port, number, .. }, OpId::Byte(its, due))
            if *port == its && *number == due => { (Wait::Arrival, Event::Arrive { message }) }
        (Message::Write(write), OpId::Write(due)) if write.number == due => {
            (Wait::Arrival, Event::Put { message })
        }
        (Message::Written(number), OpId::Write(due)) if *number == due => {
            (Wait::Answer, Event::PutReply { message, node })
        }
        _ => return None,
    };
    Some(Waiting {
        id,
        wait,
        event: Some(event),
    })
}

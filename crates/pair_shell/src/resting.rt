//! How a pair is brought to rest.
ghost use Rattle.std.specs.Prelude.{◌≡◌, ◌≤◌, ◌∷◌, [], true, IfOk, length, string_bytes};
ghost use Rattle.pair_shell.specs.Playing.{Plays};
ghost use Rattle.pair_shell.specs.Resting.{HasLed, SaysWhere, rest_row};
ghost use Rattle.clone_state.specs.Parts.{part_count};
ghost use Rattle.pair_shell.specs.Ending.{Rests};
ghost use Rattle.pair_protocol.specs.Settled.{highest};
ghost use Rattle.ft_world.specs.Applies.{Shows};
ghost use Rattle.ft_world.specs.Standing.{Course};
ghost use Rattle.shared_disk.specs.Failing.{records_in};
ghost use Rattle.shell_language.specs.Tapes.{Begins, trace_text};
ghost use Rattle.shell_language.specs.Texts.{AddsSome, Prints};

use crate::asked::parts_of;
use crate::notes::Notes;
use crate::play::play_next;
use crate::{RestPlan, most_events};
use board_image::OutstandingWrites;
use clone_state::Copies;
use ft_world::World;
use guest_lockstep::ReplayEnd;
use i8080_words::{Fault, R};
use pair_events::Reply;
use sequence_diagram::Moment;
use shared_disk::Disk;
use shell_language::{Book, Played, Printed, SessionSetup};
use std::alloc::{AllocError, Global};

/// Where the events of a plan have led.
#[derive(Clone, Copy)]
pub enum Rested {
    /// To rest.
    AtRest,
    /// Nowhere: no node may serve.
    Nobody,
    /// To an event that was refused for this reason, or that ran out of memory.
    Refused(Fault),
    /// Not to rest, though there were as many events as there may be.
    Unrested,
}

impl Notes {
    /// Brings the pair to rest, and says in how many events.
    #[tactic(auto, using(crate::proofs::Playing::plays_nothing, crate::proofs::Tracing::begins_nothing, crate::proofs::Tracing::begins_trace, crate::proofs::Tracing::begins_more))]
    pub(crate) fn rest<B: Copies<H> + OutstandingWrites + Drop, H: Drop>(
        &mut self,
        alloc: Global,
        opening: &SessionSetup,
        world: &mut World<B, Disk, H>,
        printed: &mut Printed,
    ) -> Result<(), AllocError>
        requires { self.old.tape.items ≡ [] }
        ensures played { Plays B.state B.copied B.machine world.old self.new.tape.items world.new }
        ensures traced { IfOk result (λ _. printed.old.is_traced ≡ true → string_bytes printed.old.text ≡ []
            → Begins (trace_text self.new.tape.items) (string_bytes printed.new.text)) }
        ensures led { IfOk result (λ _. SaysWhere (λ arrived rested. (c : Course B.State)
            → Shows B.state B.copied B.machine records_in world.new c
            → HasLed B.machine c.world opening.now.setup.hosts (part_count opening.now.setup.guest.drives) arrived
            (highest c.world.nodes) rested) printed.new) }
    {
        let hosts = u64::from(opening.setup.hosts);
        let parts = parts_of(opening.setup.guest.drives);
        let most = most_events(alloc, world, hosts, parts)?;
        let mut plan = RestPlan::new(hosts, parts);
        let rested = lead(
            alloc,
            world,
            &mut self.book,
            &mut plan,
            most,
            &mut self.tape,
            &mut self.past,
        )?;
        printed.trace(&self.tape)?;
        print_rest(rested, self.tape.len() as u64, most, printed)
    }
}

// Makes the events of a plan happen, at most so many, one after another, each chosen when the one before it was answered.
// The tape has exactly these afterwards.
#[tactic(auto, using(crate::proofs::Playing::plays_nothing))]
fn lead<B: Copies<H> + OutstandingWrites + Drop, H: Drop>(
    alloc: Global,
    world: &mut World<B, Disk, H>,
    book: &mut Book,
    plan: &mut RestPlan,
    most: u64,
    tape: &mut Vec<Played>,
    past: &mut Vec<Moment>,
) -> Result<Rested, AllocError>
    ensures played { Plays B.state B.copied B.machine world.old tape.new.items world.new }
    ensures few { IfOk result (λ _. length tape.new.items ≤ most) }
    ensures same { (plan.new.hosts ≡ plan.old.hosts) × (plan.new.parts ≡ plan.old.parts) }
    ensures led { IfOk result (λ rested. (c : Course B.State) → Shows B.state B.copied B.machine records_in world.new c
        → HasLed B.machine c.world plan.new.hosts plan.new.parts plan.new.arrived (highest c.world.nodes) rested) }
{
    tape.clear();
    'events: for _made in 0..most {
        let Some(event) = plan.next(alloc, world)? else {
            return Ok(ended(plan, world));
        };
        let answer = play_next(alloc, world, book, event, tape, past)?;
        plan.hear(answer);
        if let Some(fault) = failure(answer) {
            return Ok(Rested::Refused(fault));
        }
    }
    match plan.next(alloc, world)? {
        Some(_) => Ok(Rested::Unrested),
        None => Ok(ended(plan, world)),
    }
}

// Where a plan has led that has no event left.
fn ended<B: Copies<H> + Drop, H: Drop>(plan: &RestPlan, world: &World<B, Disk, H>) -> Rested
    ensures { (c : Course B.State) → Shows B.state B.copied B.machine records_in world.now c
        → Rests B.machine c.world plan.now.hosts plan.now.parts plan.now.arrived (highest c.world.nodes)
        → HasLed B.machine c.world plan.now.hosts plan.now.parts plan.now.arrived (highest c.world.nodes) result }
{
    if plan.has_server(world) {
        Rested::AtRest
    } else {
        Rested::Nobody
    }
}

// Why an event was refused, or that it ran out of memory.
fn failure(answer: R<Reply>) -> Option<Fault> {
    match answer {
        Err(fault) => Some(fault),
        Ok(
            Reply::Moved {
                why: ReplayEnd::Memory,
                ..
            },
        ) => Some(Fault::OutOfMemory),
        Ok(_) => None,
    }
}

// Says how many events there were, and how many there may be, and where they have led.
#[tactic(auto, using(shell_language::proofs::Adding::prints_one, shell_language::proofs::Adding::prints_text))]
fn print_rest(rested: Rested, made: u64, most: u64, printed: &mut Printed) -> Result<(), AllocError>
    ensures some { IfOk result (λ _. AddsSome printed.old printed.new) }
    ensures told { IfOk result (λ _. Prints (rest_row rested made most ∷ []) printed.old printed.new) }
{
    match rested {
        Rested::AtRest => {
            printed.line(&format_args!("{made} of at most {most} events: at rest"))?;
            Ok(())
        }
        Rested::Nobody => {
            printed.line(&"no node may serve")?;
            Ok(())
        }
        Rested::Refused(fault) => {
            let number = fault.number();
            let front = format_args!("{made} of at most {most} events: refused {number}, ");
            printed.around(&front, fault, &"")?;
            Ok(())
        }
        Rested::Unrested => {
            printed.line(&format_args!("{made} of at most {most} events: not at rest"))?;
            Ok(())
        }
    }
}

//! What the threads of a generation are: a pair, one event after another. Nothing here runs.
ghost use Rattle.pair_rule.specs.Law.{SilentStepsShow, StartsShown, StepsAreEvents, StepsAreFaithful};
ghost use Rattle.pair_rule.specs.Steps.{TableStepsAreFaithful, TableStepsAreSteps};
ghost use Rattle.pair_rule.specs.Threads.{KeptStepsAreThreads, ThreadsAreFaithful};

use pair_protocol::{actions_are_faithful, events_are_actions, events_grow};

/// Each kind of step of the table keeps what holds of all that the seats know, and is a step of the laws below: the events
/// of a pair that the table of kinds has for it, or none.
pub fn table_steps_are_steps<S>()
    ensures steps { TableStepsAreSteps S }
{}

/// A generation begins in a world that its first core shows: a new pair, at whose terminals the bytes are typed.
pub fn starts_are_shown<S>()
    ensures shown { StartsShown S }
{
    events_are_actions::<S>();
}

/// A step of the threads that changes what is shown is events of a pair: they lead from a world that shows what was known
/// before it to one that shows what is known after it.
pub fn steps_are_events<S>()
    ensures events { StepsAreEvents S }
{}

/// The other steps of the threads are not events: the same world shows what is known after them.
pub fn silent_steps_are_shown<S>()
    ensures shown { SilentStepsShow S }
{}

/// So between any two steps of the threads the world that they show is faithful, and what is settled only grows.
pub fn steps_are_faithful<S>()
    ensures faithful { StepsAreFaithful S }
{
    events_are_actions::<S>();
    actions_are_faithful::<S>();
    events_grow::<S>();
}

/// So each kind of step of the table leads by the events of its kind from a shown world to a shown world. The new one is
/// faithful, and what is settled only grows.
pub fn table_steps_are_faithful<S>()
    ensures faithful { TableStepsAreFaithful S }
{
    events_are_actions::<S>();
    actions_are_faithful::<S>();
    events_grow::<S>();
}

/// The steps of the table that led to what is known are steps of the threads, if each call of the primary and each answer
/// of the disk kept its promise: so the law below is about them.
pub fn kept_steps_are_threads<S>()
    ensures threads { KeptStepsAreThreads S }
{}

/// Whatever steps the threads of a generation make, in whatever order: the terminals have accepted the output of one
/// machine that never fails, or all of it but the last bytes of a window; the disk holds what that machine wrote, or
/// outstanding writes of it; and its keys are the first of those typed.
pub fn threads_are_faithful<S>()
    ensures faithful { ThreadsAreFaithful S }
{
    events_are_actions::<S>();
    actions_are_faithful::<S>();
    events_grow::<S>();
}

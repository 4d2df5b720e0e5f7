//! What the calls are in the law of processes. Nothing here runs.
ghost use Rattle.outside_switch.specs.Ran.{RunsGoOn};
ghost use Rattle.outside_switch.specs.Steps.{CallsAreSteps};

/// Each call is a step of the outside, with the frames that it takes and those that it sends, of whatever outside the
/// devices show.
pub fn calls_are_steps<S>()
    ensures steps { CallsAreSteps S }
{}

/// What a loop over the calls needs to promise a run of what it read and wrote: it begins with nothing, and each call
/// adds the frames that go with it.
pub fn runs_go_on<S>()
    ensures runs { RunsGoOn S }
{}

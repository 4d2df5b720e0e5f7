//! What follows from the definitions alone, for the crates above.
ghost use Rattle.replayer.specs.Checking.{RunsDoNotDiverge};
ghost use Rattle.replayer.specs.Following.{FollowingIsRecording};
ghost use Rattle.replayer.specs.Standing.{ReplaysKeepTo};

/// Moves by the entries of a recorded run are moves of that run, made after exactly the entries that were popped, and
/// they never pass the count of the last entry that was held.
pub fn replays_keep_to_the_trace<S>()
    ensures { ReplaysKeepTo S }
{}

/// Whoever follows the entries of a list one after another has made a recorded run that logs exactly that list.
pub fn following_is_recording<S>()
    ensures { FollowingIsRecording S }
{}

/// The entries of a recorded run never diverge, so a replay of them is never refused with `Malformed`.
pub fn runs_do_not_diverge<S>()
    ensures { RunsDoNotDiverge S }
{}

//! What follows from the definitions alone.
ghost use Rattle.host_frames.specs.Laws.{ComesOut, IsNeverMalformed, IsShort, LosesNothing, OneFront, StandApart, StaysMalformed};

/// A spelling is that of one frame, and none begins another one.
pub fn frames_spell_one_way()
    ensures { OneFront }
{}

/// Frames that are spelled one after another come out as they were, however the stream is cut: none is lost, none comes
/// twice and none is made up.
pub fn streams_come_out()
    ensures lost { LosesNothing }
    ensures out { ComesOut }
    ensures never { IsNeverMalformed }
{}

/// What is pending begins with a whole frame, or is less than one, or begins none, and never two of these. The last stays
/// so; the second is short.
pub fn streams_stand_apart()
    ensures apart { StandApart }
    ensures stays { StaysMalformed }
    ensures short { IsShort }
{}

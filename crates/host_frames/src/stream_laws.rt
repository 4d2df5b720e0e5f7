//! What holds of the blocks at the two ends of a stream, for the layers above. Nothing here runs.
ghost use Rattle.host_frames.specs.StreamLaws.{AllComeBack, ComesBack};

/// A block that one end of a stream leaves out is there again at the other, and each body comes out as it was.
pub fn blocks_come_back()
    ensures one { ComesBack }
    ensures all { AllComeBack }
{}

//! What follows from the definitions alone.
ghost use Rattle.disk_dcdd.specs.Limits.{Limits};

/// Each number that definitions cite by its name in the code is the manual's, or this machine's own.
pub fn limits()
    ensures { Limits }
{}

//! How a log carries the sectors that were read.

/// How the log of a pair carries a sector that came under the head of its primary (VMware FT, section 4.2,
/// "Executing Disk Reads on the Backup VM").
#[derive(Clone, Copy, PartialEq, Eq)]
pub enum Reads {
    /// With its bytes, so the backup needs no disk.
    Logged,
    /// Without them: the backup reads the sector from the shared disk itself.
    Shared,
}

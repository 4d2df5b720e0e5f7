//! What is asked of a pair on threads.

use pair_threads::Fate;

/// How a pair is run on threads.
#[derive(Drop)]
pub struct LiveOrder {
    /// In how many turns the primary, and the backup, may make progress. One that finds nothing to do is none of them.
    pub turns: u64,
    /// The turn at which the primary, or the backup, asks to go on alone.
    pub primary_asks: Option<u64>,
    pub backup_asks: Option<u64>,
    /// What becomes of the packets of the link, in order; the last fate is that of all further ones.
    pub link: Vec<Fate>,
    /// Whether what the terminals have accepted is printed as text.
    pub text: bool,
    /// The drives whose images come before the script.
    pub images: Vec<u8>,
    /// The drives whose images are written after what is printed.
    pub saved: Vec<u8>,
}

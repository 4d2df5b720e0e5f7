//! What a generation begins with, and what it ends with.

use crate::gate::Who;
use crate::link::Fate;
use log_entry::Entry;
use shared_disk::{SectorStore, SharedDisk};

/// What a generation on threads begins with.
#[derive(Drop)]
pub struct Workers<B: Drop, D: SectorStore> {
    /// Two guests in one state, that of a boot.
    pub primary: B,
    pub backup: B,
    /// The disk that both share.
    pub disk: SharedDisk<D>,
    /// What is typed at each port.
    pub typed0: Vec<u8>,
    pub typed1: Vec<u8>,
    /// The fates of the link's packets, in order. The last applies to all further ones; without any each is delivered.
    pub fates: Vec<Fate>,
    /// The turn at which the primary, or the backup, asks to go on alone.
    pub primary_contests: Option<u64>,
    pub backup_contests: Option<u64>,
    /// How many steps a guest may make in one turn; 0 counts as 1.
    pub steps: u64,
}

/// What a generation on threads ended with.
#[derive(Drop)]
pub struct GenerationEnd<B: Drop, D: SectorStore> {
    /// The lists of entries.
    pub primary: Vec<Entry>,
    pub backup: Vec<Entry>,
    pub primary_board: B,
    pub backup_board: B,
    /// The entry of the last move of the primary's guest, if it is not in the list yet.
    pub waiting: Option<Entry>,
    /// What was typed at each port.
    pub typed0: Vec<u8>,
    pub typed1: Vec<u8>,
    /// How many entries are acknowledged.
    pub held: u64,
    /// Who goes on alone, if anybody asked to.
    pub winner: Option<Who>,
    /// What the terminal of each port has accepted.
    pub accepted: [Vec<u8>; 2],
    pub disk: SharedDisk<D>,
}

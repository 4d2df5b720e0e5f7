//! The primary's worker: it runs its guest, logs, and gives away what the backup has acknowledged.
ghost use Rattle.std.specs.Prelude.{◌≡◌, ◌+◌, ◌-◌, ◌<◌, ◌≤◌, cond, Some, length, slice_get};
ghost use Rattle.disk_dcdd.specs.declared.sector.TheConstants.{SECTORS};
ghost use Rattle.pair_rule.specs.declared.payload.DiskAnswer.{DiskAnswer};

mod chores;
mod requests;
mod turns;

use crate::chore::Chore;
use crate::plan::Briefing;
use crate::port_inputs::PortInputs;
use crate::recording::Recording;
use log_entry::Entry;
use pair_rule::{DiskAnswer, PrimarySeat};

/// How many steps a guest makes between two keys, unless it idles: about those of an 8080 between two bytes of a line at
/// 9,600 baud.
pub(crate) const KEY_STEPS: u64 = 300;

/// The primary's seat, its list, its guest, and what arrived for it.
#[derive(Drop)]
pub(crate) struct PrimaryWorker<B> {
    pub(crate) seat: PrimarySeat,
    pub(crate) list: Vec<Entry>,
    pub(crate) guest: Recording<B>,
    pub(crate) port0: PortInputs,
    pub(crate) port1: PortInputs,
    // How many entries are acknowledged, and how many bytes of each port are accepted, as last seen.
    seen: u64,
    counted0: u64,
    counted1: u64,
    // The index of the next entry to post, and whether the log was full.
    next: u64,
    full: bool,
    // How many entries were posted once, and which byte of each port was given last.
    posted: u64,
    emitted0: u64,
    emitted1: u64,
    // Whether the disk was asked and its answer has not come, and what it answered and the guest has not taken.
    asked: bool,
    answer: Option<DiskAnswer>,
    // The next sector to read.
    sector: u8,
    // How many steps the guest was at when it took its last key.
    key_count: u64,
    chore: Chore,
    // Whether it is port 1's turn, and how many turns changed nothing in a row.
    second: bool,
    fruitless: u8,
    // Whether its guest was held up after its last run.
    held_up: bool,
    plan: Briefing,
    ghost same: { list.items ≡ seat.core.known.primary.list },
    ghost few: { length list.items ≤ seen + 256 },
    ghost saw: { seen ≡ seat.core.known.primary.seen },
    ghost saw_counted: { (counted0 ≡ seat.core.known.primary.counted0) × (counted1 ≡ seat.core.known.primary.counted1) },
    ghost accepted: { (port0.accepted ≤ counted0) × (port1.accepted ≤ counted1) },
    ghost there: { sector < SECTORS },
    ghost answered: { (a : DiskAnswer) → answer ≡ Some a
        → slice_get seat.core.known.primary.answers (length seat.core.known.primary.answers - 1) ≡ Some a },
    ghost requests: { seat.core.known.primary.asked
        ≤ length seat.core.known.primary.answers + cond asked 1 0 },
}

//! What the threads of a console know of its hosts, their link and their guest's speed.
ghost use Rattle.std.specs.Prelude.{◌≡◌};
ghost use Rattle.command_console.specs.Seats.{seat_at};

use host_frames::Report;
use outside_switch::{HostLine, Inspection, LinkState, Sight};
use std::alloc::Global;
use std::sync::Mutex;
use std::sync::atomic::{AtomicBool, AtomicU64, Ordering};
use std::thread;

// For how many ticks an answer of the host that serves is awaited: a second.
const TICKS: u64 = 20;

// How often whoever waits looks for it at most.
const LOOKS: u64 = 100_000_000;

// How many pages a memory has.
const PAGES: u64 = 256;

/// The host at a place, as its line showed it.
#[derive(Clone, Copy)]
pub(crate) struct Seat {
    pub(crate) place: u8,
    /// What it reported last.
    pub(crate) report: Option<Report>,
    pub(crate) is_cut: bool,
    /// How many of its frames were refused.
    pub(crate) refused: u64,
}

/// The hosts as they were at a tick, what becomes of packets between them, and how fast their guest runs. The thread of the session's loop
/// notes the first, and asks for the others.
#[derive(Drop)]
pub(crate) struct Seats {
    table: Mutex<Vec<Seat>>,
    percent: AtomicU64,
    is_parted: AtomicBool,
    // In steps a second; 0 if the guest runs as fast as it can.
    speed: AtomicU64,
    // How often the hosts were noted.
    ticks: AtomicU64,
    // What is asked of the machine of the host that serves: the number of the question, and a page in its low byte; 0 if nothing is.
    asked: AtomicU64,
    // What such a host has shown last.
    sight: Mutex<Option<Sight>>,
}

impl Seats {
    /// No host was seen yet, each packet passes, and the guest runs as fast as it can.
    pub(crate) fn new(alloc: Global) -> Seats {
        Seats {
            table: Mutex::new(Vec::new(alloc)),
            percent: AtomicU64::new(0),
            is_parted: AtomicBool::new(false),
            speed: AtomicU64::new(0),
            ticks: AtomicU64::new(0),
            asked: AtomicU64::new(0),
            sight: Mutex::new(None),
        }
    }

    /// The hosts are so now, and so many frames of each were refused. What another thread just reads stays as it is.
    pub(crate) fn note(&self, lines: &[HostLine], refused: &[u64]) {
        let ticks = self.ticks.load(Ordering::SeqCst);
        self.ticks.store(ticks.wrapping_add(1), Ordering::SeqCst);
        if let Some(mut table) = self.table.try_lock() {
            table.clear();
            for place in 0..=u8::MAX {
                let Some(line) = lines.get(usize::from(place)) else {
                    break;
                };
                let refused = refused.get(usize::from(place)).copied().unwrap_or(0);
                if table.push(seat_at(place, line, refused)).is_err() {
                    break;
                }
            }
        }
    }

    /// The host at a place, if it was seen.
    pub(crate) fn seat(&self, place: u8) -> Option<Seat> {
        for _ in 0..u64::MAX {
            if let Some(table) = self.table.try_lock() {
                return table.get(usize::from(place)).copied();
            }
        }
        None
    }

    /// What is asked of the machine of the host that serves, if anything.
    pub(crate) fn asked(&self) -> Option<Inspection> {
        match self.asked.load(Ordering::SeqCst) {
            0 => None,
            asked => Some(Inspection {
                number: asked / PAGES,
                page: (asked % PAGES) as u8,
            }),
        }
    }

    /// The host that serves has shown its machine.
    pub(crate) fn see(&self, sight: &Sight) {
        if let Some(mut last) = self.sight.try_lock() {
            *last = Some(*sight);
        }
    }

    /// Asks by this number, at least 1, what the machine of the host has that serves, and waits for the answer; none if no such host answers
    /// within a second.
    pub(crate) fn inspect(&self, number: u32, page: u8) -> Option<Sight> {
        let asked = u64::from(number) * PAGES + u64::from(page);
        self.asked.store(asked, Ordering::SeqCst);
        let sight = self.await_sight(u64::from(number));
        self.asked.store(0, Ordering::SeqCst);
        sight
    }

    // The answer to the question of this number, if it comes within a second.
    fn await_sight(&self, number: u64) -> Option<Sight> {
        let since = self.ticks.load(Ordering::SeqCst);
        for _ in 0..LOOKS {
            let sight = self.sight_of(number);
            if sight.is_some() {
                return sight;
            }
            if self.ticks.load(Ordering::SeqCst).wrapping_sub(since) > TICKS {
                return None;
            }
            thread::yield_now();
        }
        None
    }

    // The answer to the question of this number, if it has come.
    fn sight_of(&self, number: u64) -> Option<Sight> {
        let last = self.sight.try_lock()?;
        match *last {
            Some(sight) if sight.number == number => Some(sight),
            _ => None,
        }
    }

    /// From now on this becomes of packets.
    pub(crate) fn set_fate(&self, fate: LinkState) {
        let percent = match fate {
            LinkState::Loses(percent) => u64::from(percent),
            LinkState::Passes | LinkState::Parts => 0,
        };
        self.percent.store(percent, Ordering::SeqCst);
        self.is_parted
            .store(fate == LinkState::Parts, Ordering::SeqCst);
    }

    /// From now on the guest makes at most so many steps a second; with 0 as many as it can.
    pub(crate) fn set_speed(&self, speed: u64) {
        self.speed.store(speed, Ordering::SeqCst);
    }

    /// How many steps a second the guest makes at most; 0 if it runs as fast as it can.
    pub(crate) fn speed(&self) -> u64 {
        self.speed.load(Ordering::SeqCst)
    }

    /// What becomes of packets.
    pub(crate) fn fate(&self) -> LinkState {
        if self.is_parted.load(Ordering::SeqCst) {
            return LinkState::Parts;
        }
        match u8::try_from(self.percent.load(Ordering::SeqCst)) {
            Ok(0) | Err(_) => LinkState::Passes,
            Ok(percent) => LinkState::Loses(percent),
        }
    }
}

// The host at a place, by its line, of which so many frames were refused.
fn seat_at(place: u8, line: &HostLine, refused: u64) -> Seat
    ensures { result ≡ seat_at place line.now refused }
{
    Seat {
        place,
        report: line.report(),
        is_cut: line.is_cut(),
        refused,
    }
}

//! What a host's loop knows of times and of what was sent, so that it knows what is due. None of it is in what is promised.

use crate::heard::FrameOutcome;
use crate::lag::Lag;
use crate::speed::Speed;
use event_callbacks::PORTS;
use ft_node::PartCame;
use guest_lockstep::ReplayEnd;
use host_frames::Report;
use replayer::Replayed;

/// How long a frame of the outside's clock is, in microseconds: it sends a tick so often.
pub const TICK: u64 = 50_000;

// A peer that was not heard for fewer ticks is not suspected: the first may come before its beats do.
const FEWEST_TICKS: u64 = 2;

/// After how many microseconds what was sent is sent again.
pub const AGAIN: u64 = 100_000;

/// How many parts of an image are sent past those that have come, unless all have come early: streams name what they have carried in few
/// bytes.
pub const PARTS: u64 = 64;

/// How a host's loop goes. Times are in microseconds.
#[derive(Clone, Copy)]
pub struct Settings {
    /// How many moves a node makes in one turn at most.
    pub steps: u64,
    /// For how long a peer may be silent.
    pub patience: u64,
    /// How often a host says that it is there.
    pub beat: u64,
}

/// Why a host's loop ends.
#[derive(Clone, Copy, Debug, PartialEq, Eq)]
pub enum End {
    /// The outside said so.
    Stopped,
    /// The stream from the outside has ended.
    Closed,
    /// The node has halted: another host has won its generation.
    Lost,
    /// What the peer sent is not of this machine's run.
    Diverged,
    /// The host that was to send the machine is gone, or has begun anew without this one.
    Orphaned,
    OutOfMemory,
}

/// Times, and what is due.
#[derive(Clone, Copy)]
pub struct Schedule {
    pub now: u64,
    // When the peer was last heard, how many ticks came since then, and whether its stream has ended.
    pub heard_at: u64,
    pub silent: u64,
    pub is_gone: bool,
    // When the arbiter was last asked.
    pub asked_at: u64,
    // The index of the next entry to be sent, how many are acknowledged, and since when.
    pub next_entry: u64,
    pub acknowledged: u64,
    pub acknowledged_at: u64,
    // Whether the image is sent; the next part, how many the joining host has, and since when.
    pub is_copying: bool,
    pub next_part: u64,
    pub parts: u64,
    pub parts_at: u64,
    // The generation and the place for which an image goes early, whether it does for the second time, and whether all of it has come then;
    // whether parts of one have come here early.
    pub early: (u32, u8),
    pub is_second: bool,
    pub has_crossed: bool,
    pub is_given: bool,
    // How many parts have come, and whether the peer was not told so yet; whether an acknowledgement is due.
    pub parts_here: u16,
    pub owes_parts: bool,
    pub owes_acknowledgement: bool,
    // The count at which a key was last taken, and when a key was taken or an entry came; whether the guest waits for an input.
    pub key_at: u64,
    pub given_at: u64,
    pub is_idle: bool,
    // The numbers from which on bytes of each port and writes are to be released, and since when.
    pub next_byte: [u64; PORTS],
    pub next_write: u64,
    pub released_at: u64,
    // The next sector to be read, and since when it is asked for.
    pub next_sector: u8,
    pub asked_disk_at: Option<u64>,
    // When pages were last copied early.
    pub freshened_at: u64,
    pub beat_at: u64,
    // What the outside was told last, and when.
    pub told: Option<Report>,
    pub told_at: u64,
    // How far the peer is; how fast the guest runs; and the last tick.
    pub lag: Lag,
    pub speed: Speed,
    pub tick: u64,
}

impl Schedule {
    /// At the start.
    pub fn new(now: u64) -> Schedule {
        Schedule {
            now,
            heard_at: now,
            silent: 0,
            is_gone: false,
            asked_at: 0,
            next_entry: 0,
            acknowledged: 0,
            acknowledged_at: now,
            is_copying: false,
            next_part: 0,
            parts: 0,
            parts_at: now,
            early: (0, 0),
            is_second: false,
            has_crossed: false,
            is_given: false,
            parts_here: 0,
            owes_parts: false,
            owes_acknowledgement: false,
            key_at: 0,
            given_at: now,
            is_idle: false,
            next_byte: [0; PORTS],
            next_write: 0,
            released_at: now,
            next_sector: 0,
            asked_disk_at: None,
            freshened_at: 0,
            beat_at: 0,
            told: None,
            told_at: 0,
            lag: Lag::new(),
            speed: Speed::new(),
            tick: 0,
        }
    }

    /// Whether so much time has gone by since then.
    pub fn is_past(&self, since: u64, time: u64) -> bool {
        self.now.saturating_sub(since) >= time
    }

    /// Whether a peer that may be silent for so long has been so, or is gone. It was silent for that long by the host's own
    /// clock, and for three quarters of it by the outside's ticks, which do not come while the outside is stopped: then beats
    /// do not come either, and nobody is suspected for that.
    pub fn is_suspected(&self, patience: u64) -> bool {
        let ticks = (patience / TICK * 3 / 4).max(FEWEST_TICKS);
        self.is_gone || self.is_past(self.heard_at, patience) && self.silent >= ticks
    }

    /// After a while everything that is outstanding is released again, from the first.
    pub fn release_again(&mut self) {
        if !self.is_past(self.released_at, AGAIN) {
            return;
        }
        self.released_at = self.now;
        self.next_byte = [0; PORTS];
        self.next_write = 0;
    }

    /// The next byte of a port to be released.
    pub fn set_next_byte(&mut self, port: u8, number: u64) {
        if let Some(next) = self.next_byte.get_mut(usize::from(port)) {
            *next = number;
        }
    }

    /// Takes in what was heard of the host's peer, at this place of the switch.
    pub fn note(&mut self, heard: FrameOutcome, peer: u8) {
        match heard {
            FrameOutcome::Beat => self.hear_peer(),
            FrameOutcome::Entry => {
                self.hear_peer();
                self.given_at = self.now;
                self.owes_acknowledgement = true;
            }
            FrameOutcome::Acknowledged(covered) => self.note_acknowledged(covered),
            FrameOutcome::Part(came) => self.note_part(came),
            FrameOutcome::Parts(parts) => self.note_parts(parts),
            FrameOutcome::Failed(number) => self.next_write = self.next_write.min(number),
            FrameOutcome::Sector { sector, is_taken } => self.note_sector(sector, is_taken),
            FrameOutcome::Accepted | FrameOutcome::Written(_) | FrameOutcome::Key => self.is_idle =
                false,
            FrameOutcome::Won => self.forget_peer(),
            FrameOutcome::Gone(host) => self.is_gone = self.is_gone || host == peer,
            FrameOutcome::Begun => self.begin(),
            FrameOutcome::Joined => self.join(),
            FrameOutcome::Early(index) => self.note_early(index),
            FrameOutcome::Tick { number, speed } => {
                self.silent = self.silent.saturating_add(1);
                self.tick = number;
                self.speed.set(speed, self.now);
            }
            FrameOutcome::Progress(lead) => self.lag.hear(lead),
            FrameOutcome::Nothing
            | FrameOutcome::Malformed
            | FrameOutcome::Lost
            | FrameOutcome::Inspect { .. }
            | FrameOutcome::Asked { .. } => {}
        }
    }

    /// Takes in the moves of a backup. How many entries are replayed is acknowledged too, since a write of the primary may wait
    /// for the reads before it.
    pub fn note_replayed(&mut self, replayed: &Replayed) {
        if replayed.moves > 0 && matches!(replayed.why, ReplayEnd::End) {
            self.owes_acknowledgement = true;
        }
    }

    // The peer is there.
    fn hear_peer(&mut self) {
        self.silent = 0;
        self.heard_at = self.now;
    }

    // The peer is another one now, or none.
    fn change_peer(&mut self) {
        self.hear_peer();
        self.is_gone = false;
    }

    fn note_acknowledged(&mut self, covered: u64) {
        self.hear_peer();
        self.is_copying = false;
        if covered > self.acknowledged {
            self.acknowledged_at = self.now;
        }
        self.acknowledged = covered;
        self.next_entry = self.next_entry.max(covered);
    }

    fn note_part(&mut self, came: PartCame) {
        self.hear_peer();
        self.owes_parts = true;
        match came {
            PartCame::Old => {}
            PartCame::New => self.parts_here = self.parts_here.saturating_add(1),
            PartCame::Whole => {
                self.parts_here = self.parts_here.saturating_add(1);
                self.owes_acknowledgement = true;
            }
        }
    }

    // A part came early, and whoever sends them is there. So is what it sent before, but for what was lost on the way.
    fn note_early(&mut self, index: u16) {
        self.change_peer();
        self.is_given = true;
        self.parts_here = index.saturating_add(1);
        self.owes_parts = true;
    }

    /// An image goes early, for this generation, to the host at a place, which is there.
    pub fn begin_early(&mut self, generation: u32, place: u8) {
        self.change_peer();
        self.early = (generation, place);
        self.is_second = false;
        self.has_crossed = false;
        self.begin_parts();
    }

    /// An image goes early for the second time.
    pub fn begin_second(&mut self) {
        self.is_second = true;
        self.begin_parts();
    }

    /// Up to which part an image may be sent now.
    pub fn most_parts(&self) -> u64 {
        if self.has_crossed {
            return u64::MAX;
        }
        self.parts.saturating_add(PARTS)
    }

    // No part of an image was sent yet.
    fn begin_parts(&mut self) {
        self.next_part = 0;
        self.parts = 0;
        self.parts_at = self.now;
    }

    fn note_parts(&mut self, parts: u64) {
        self.hear_peer();
        if parts > self.parts {
            self.parts = parts;
            self.parts_at = self.now;
        }
    }

    fn note_sector(&mut self, sector: u8, is_taken: bool) {
        self.asked_disk_at = None;
        if is_taken {
            self.is_idle = false;
            self.next_sector = sector.saturating_add(1);
        }
    }

    // The node has won: it has no peer, and what is outstanding is released anew.
    fn forget_peer(&mut self) {
        self.change_peer();
        self.next_byte = [0; PORTS];
        self.next_write = 0;
        self.asked_disk_at = None;
    }

    // The node is the primary of a new generation, whose backup is given the image. It is the host to which a copy has gone early, and may
    // be gone since.
    fn begin(&mut self) {
        self.hear_peer();
        self.next_entry = 0;
        self.acknowledged = 0;
        self.acknowledged_at = self.now;
        self.is_copying = true;
        self.begin_parts();
        self.lag = Lag::new();
    }

    // The host is given an image.
    fn join(&mut self) {
        self.change_peer();
        self.is_given = false;
        self.parts_here = 0;
        self.owes_parts = false;
        self.lag = Lag::new();
    }
}

//! What a host's node does in a turn, by its role.
ghost use Rattle.host_node.specs.Goes.{Goes};
ghost use Rattle.host_node.specs.Guests.{KeepsNoKey, OffersKey};
ghost use Rattle.host_node.specs.Lagging.{IsHeldBack};
ghost use Rattle.std.specs.Prelude.{◌≡◌, false};

use crate::pace::{AGAIN, PARTS};
use crate::serving::Serving;
use board_image::{KeyRoom, OutstandingWrites, Snapshots};
use clone_state::Copies;
use disk_dcdd::{OUTSTANDING, SECTORS};
use event_callbacks::OpId;
use guest_lockstep::{ReplayEnd, StopReason};
use i8080_words::{Fault, R};
use pair_events::Role;

// How many steps a guest makes before it is offered its next key, unless it idles.
const BETWEEN_KEYS: u64 = 300;

// How many keys of a port are taken in a turn at most.
const KEYS: u64 = 8;

// How many entries are on their way to the backup at most when a key is taken: what a guest prints waits for those before it.
const ON_THEIR_WAY: u64 = 48;

// How many steps are made in a turn at most while somebody waits for the guest, so that its loop soon looks for what comes.
const FEW_STEPS: u64 = 500;

// For how many microseconds somebody waits for a guest that was given something.
const MOMENT: u64 = 1_000;

// How many entries are sent in one turn at most.
const ENTRIES: u64 = 256;

// How many bytes of a port are released in one turn at most.
const BYTES: u64 = 16;

// How often pages are copied early, in microseconds, and how many at once.
const FRESHEN: u64 = 2_000;

const PAGES: u64 = 8;

impl<B: Copies<H> + KeyRoom + OutstandingWrites + Snapshots + Drop, H: Drop> Serving<B, H> {
    // A primary runs its guest, and sends its log; before its backup is whole, the image.
    #[tactic(auto, using(crate::proofs::Going::stays, crate::proofs::Going::and_then))]
    pub(crate) fn serve_as_primary(&mut self) -> R<bool>
        ensures { Goes B.state B.machine B.copied self.old.host self.new.host }
    {
        let is_busy = self.run()?;
        let has_sent = self.send()?;
        Ok(is_busy | has_sent)
    }

    // Sends the image while a backup is given it, and then the log.
    #[tactic(auto, using(crate::proofs::Going::stays, crate::proofs::Going::and_then))]
    fn send(&mut self) -> R<bool>
        ensures { Goes B.state B.machine B.copied self.old.host self.new.host }
    {
        if self.pace.is_copying {
            return self.send_parts();
        }
        let has_sent = self.send_log()?;
        let has_said = self.say_progress()?;
        Ok(has_sent | has_said)
    }

    // A node that is alone runs its guest, and copies pages for the next backup, which is sent a copy early once it is known.
    #[tactic(auto, using(crate::proofs::Going::stays, crate::proofs::Going::and_then))]
    pub(crate) fn run_alone(&mut self) -> R<bool>
        ensures { Goes B.state B.machine B.copied self.old.host self.new.host }
    {
        self.freshen();
        let has_sent = self.send_image_early()?;
        let is_busy = self.run()?;
        Ok(has_sent | is_busy)
    }

    // Copies some pages early, if it is time. Without memory for them they are copied when the generation begins.
    #[tactic(auto, using(crate::proofs::Going::stays, crate::proofs::Going::and_then))]
    fn freshen(&mut self)
        ensures { Goes B.state B.machine B.copied self.old.host self.new.host }
    {
        if !self.pace.is_past(self.pace.freshened_at, FRESHEN) {
            return;
        }
        self.pace.freshened_at = self.pace.now;
        let _ = self.host.freshen(PAGES).is_ok();
    }

    // A live node takes keys, runs its guest, and releases what it may.
    #[tactic(auto, using(crate::proofs::Going::stays, crate::proofs::Going::and_then))]
    fn run(&mut self) -> R<bool>
        ensures { Goes B.state B.machine B.copied self.old.host self.new.host }
    {
        let has_read = self.read_keys()?;
        let has_taken = self.take_keys()?;
        let is_busy = self.step_and_ask()?;
        Ok(has_read | has_taken | is_busy)
    }

    // Takes keys as long as the guest reads them, all but the last of a turn.
    #[tactic(auto, using(crate::proofs::Going::stays, crate::proofs::Going::and_then))]
    fn read_keys(&mut self) -> R<bool>
        ensures { Goes B.state B.machine B.copied self.old.host self.new.host }
    {
        let mut has_read = false;
        for _ in 1..KEYS {
            if !self.read_key()? {
                break;
            }
            has_read = true;
        }
        Ok(has_read)
    }

    // Takes a key of each port, and makes the steps in which the guest may read it. Returns false if there is none to be taken.
    #[tactic(auto, using(crate::proofs::Going::stays, crate::proofs::Going::and_then))]
    fn read_key(&mut self) -> R<bool>
        ensures { Goes B.state B.machine B.copied self.old.host self.new.host }
    {
        if !self.take_keys()? {
            return Ok(false);
        }
        self.step()
    }

    // Makes steps, and asks of terminals and disk what they ask for.
    #[tactic(auto, using(crate::proofs::Going::stays, crate::proofs::Going::and_then))]
    fn step_and_ask(&mut self) -> R<bool>
        ensures { Goes B.state B.machine B.copied self.old.host self.new.host }
    {
        let is_busy = self.step()?;
        self.ask_devices()?;
        Ok(is_busy)
    }

    // Releases what is covered, and asks for a sector.
    #[tactic(auto, using(crate::proofs::Going::stays, crate::proofs::Going::and_then))]
    fn ask_devices(&mut self) -> R<()>
        ensures { Goes B.state B.machine B.copied self.old.host self.new.host }
    {
        self.release()?;
        self.read()
    }

    // Takes a key of each port, if the guest had time for the one before, and the backup for the log.
    #[tactic(auto, using(crate::proofs::Going::stays, crate::proofs::Going::and_then))]
    fn take_keys(&mut self) -> R<bool>
        ensures { Goes B.state B.machine B.copied self.old.host self.new.host }
    {
        let count = self.host.count();
        let has_time = self.pace.is_idle || count.saturating_sub(self.pace.key_at) >= BETWEEN_KEYS;
        if !has_time || self.is_log_busy() {
            return Ok(false);
        }
        let first = self.take_key(0)?;
        let second = self.take_key(1)?;
        let has_taken = first | second;
        if has_taken {
            self.pace.key_at = count;
            self.pace.given_at = self.pace.now;
            self.pace.is_idle = false;
        }
        Ok(has_taken)
    }

    // Whether so many entries are on their way to the backup that keys wait.
    fn is_log_busy(&self) -> bool {
        let on_their_way = self.pace.next_entry.saturating_sub(self.pace.acknowledged);
        self.host.role() == Some(Role::Primary) && on_their_way > ON_THEIR_WAY
    }

    // Takes a key of a port, if the guest may be offered one.
    #[tactic(auto, using(crate::proofs::Going::stays, crate::proofs::Going::and_then, crate::proofs::Looking::offers_none))]
    fn take_key(&mut self, port: u8) -> R<bool>
        ensures goes { Goes B.state B.machine B.copied self.old.host self.new.host }
        ensures room { self.old.pace.is_idle ≡ false → KeepsNoKey B.state B.machine B.keeps_key self.old.host.node port
            → self.new.host ≡ self.old.host }
    {
        if !self.may_offer_key(port) {
            return Ok(false);
        }
        self.host.take_key(port)
    }

    // Whether the guest has read the key before the next one of a port, or idles.
    fn may_offer_key(&self, port: u8) -> bool
        ensures { OffersKey B.state B.machine B.keeps_key self.now.host.node port self.now.pace.is_idle result }
    {
        let has_room = self.host.keeps_key(port);
        self.pace.is_idle || has_room
    }

    // Makes steps, unless the backup is far behind.
    #[tactic(auto, using(crate::proofs::Going::stays, crate::proofs::Going::and_then, crate::proofs::Waiting::is_free))]
    fn step(&mut self) -> R<bool>
        ensures goes { Goes B.state B.machine B.copied self.old.host self.new.host }
        ensures held { IsHeldBack B.state B.machine self.old.host.node self.old.pace.is_copying self.old.pace.lag.heard
            → self.new.host ≡ self.old.host }
    {
        if self.is_held_back() {
            return Ok(false);
        }
        self.make_steps()
    }

    // How many steps its guest makes at most now.
    fn turns(&mut self) -> u64
        ensures { self.new.host ≡ self.old.host }
    {
        let now = self.pace.now;
        self.pace.speed.see(now);
        self.pace.speed.turns(now, self.most_steps())
    }

    // How many steps are made in a turn at most: few while somebody waits for the guest.
    pub(crate) fn most_steps(&self) -> u64 {
        let is_awaited = self.has_outstanding() || !self.pace.is_past(self.pace.given_at, MOMENT);
        if is_awaited {
            return FEW_STEPS.min(self.settings.steps);
        }
        self.settings.steps
    }

    // How many moves a backup makes in a turn at most: many if it is late, or it would stay so.
    fn most_moves(&self) -> u64 {
        if self.pace.lag.is_late(self.host.count()) {
            return self.settings.steps;
        }
        self.most_steps()
    }

    // Whether something of the guest is on its way to or from a device.
    pub(crate) fn has_outstanding(&self) -> bool {
        self.pace.asked_disk_at.is_some()
            || self.host.due_byte(0).is_some()
            || self.host.due_byte(1).is_some()
            || self.host.writes() > 0
    }

    // Makes steps, unless they were too many for the guest's speed.
    #[tactic(auto, using(crate::proofs::Going::stays, crate::proofs::Going::and_then))]
    fn make_steps(&mut self) -> R<bool>
        ensures { Goes B.state B.machine B.copied self.old.host self.new.host }
    {
        let turns = self.turns();
        if turns == 0 {
            return Ok(false);
        }
        match self.host.step(turns) {
            Ok(ran) => {
                self.pace.speed.make(ran.steps);
                self.pace.is_idle = matches!(ran.why, StopReason::Refused(Fault::Idle));
                Ok(ran.steps > 0 && !self.pace.is_idle)
            }
            Err(Fault::Idle) => {
                self.pace.is_idle = true;
                Ok(false)
            }
            Err(Fault::OutOfMemory) => Err(Fault::OutOfMemory),
            Err(_) => {
                self.pace.is_idle = false;
                Ok(false)
            }
        }
    }

    // Releases what is covered; after a while from the first that is outstanding again.
    #[tactic(auto, using(crate::proofs::Going::stays, crate::proofs::Going::and_then))]
    fn release(&mut self) -> R<()>
        ensures { Goes B.state B.machine B.copied self.old.host self.new.host }
    {
        self.pace.release_again();
        self.release_both()?;
        self.release_writes()
    }

    // Releases bytes of both ports.
    #[tactic(auto, using(crate::proofs::Going::stays, crate::proofs::Going::and_then))]
    fn release_both(&mut self) -> R<()>
        ensures { Goes B.state B.machine B.copied self.old.host self.new.host }
    {
        self.release_bytes(0)?;
        self.release_bytes(1)
    }

    // Releases bytes of a port.
    #[tactic(auto, using(crate::proofs::Going::stays, crate::proofs::Going::and_then))]
    fn release_bytes(&mut self, port: u8) -> R<()>
        ensures { Goes B.state B.machine B.copied self.old.host self.new.host }
    {
        let Some(due) = self.host.due_byte(port) else {
            return Ok(());
        };
        for _ in 0..BYTES {
            if !self.release_byte(port, due)? {
                break;
            }
        }
        Ok(())
    }

    // Releases the next byte of a port whose oldest outstanding one is this.
    #[tactic(auto, using(crate::proofs::Going::stays, crate::proofs::Going::and_then))]
    fn release_byte(&mut self, port: u8, due: u64) -> R<bool>
        ensures { Goes B.state B.machine B.copied self.old.host self.new.host }
    {
        let Some(next) = self.pace.next_byte.get(usize::from(port)).copied() else {
            return Ok(false);
        };
        let number = next.max(due);
        match self.host.release(OpId::Byte(port, number)) {
            Ok(true) => {
                self.pace.set_next_byte(port, number.saturating_add(1));
                Ok(true)
            }
            Err(Fault::OutOfMemory) => Err(Fault::OutOfMemory),
            Ok(false) | Err(_) => Ok(false),
        }
    }

    // Releases outstanding writes.
    #[tactic(auto, using(crate::proofs::Going::stays, crate::proofs::Going::and_then))]
    fn release_writes(&mut self) -> R<()>
        ensures { Goes B.state B.machine B.copied self.old.host self.new.host }
    {
        for _ in 0..OUTSTANDING {
            if !self.release_write()? {
                break;
            }
        }
        Ok(())
    }

    // Releases the next outstanding write. Returns false if no later one can be released.
    #[tactic(auto, using(crate::proofs::Going::stays, crate::proofs::Going::and_then))]
    fn release_write(&mut self) -> R<bool>
        ensures { Goes B.state B.machine B.copied self.old.host self.new.host }
    {
        let Some(number) = self.host.write_from(self.pace.next_write) else {
            return Ok(false);
        };
        match self.host.release(OpId::Write(number)) {
            Ok(true) => {
                self.pace.next_write = number.saturating_add(1);
                Ok(true)
            }
            Err(Fault::OutOfMemory) => Err(Fault::OutOfMemory),
            Ok(false) | Err(_) => Ok(false),
        }
    }

    // Asks the disk for the next sector, if the guest looks for one.
    #[tactic(auto, using(crate::proofs::Going::stays, crate::proofs::Going::and_then))]
    fn read(&mut self) -> R<()>
        ensures { Goes B.state B.machine B.copied self.old.host self.new.host }
    {
        if let Some(since) = self.pace.asked_disk_at {
            if !self.pace.is_past(since, AGAIN) {
                return Ok(());
            }
        }
        let sector = self.pace.next_sector % SECTORS;
        match self.host.looks_for(sector) {
            Ok(true) => {
                if self.host.ask_under(sector)? {
                    self.pace.asked_disk_at = Some(self.pace.now);
                }
            }
            Err(Fault::SectorBusy) => self.pace.next_sector = (sector + 1) % SECTORS,
            Ok(false) | Err(_) => {}
        }
        Ok(())
    }

    // Sends entries that were not sent yet; from the first that is not acknowledged again, if none was for a while.
    #[tactic(auto, using(crate::proofs::Going::stays, crate::proofs::Going::and_then))]
    fn send_log(&mut self) -> R<bool>
        ensures { Goes B.state B.machine B.copied self.old.host self.new.host }
    {
        if self.pace.next_entry == self.pace.acknowledged {
            self.pace.acknowledged_at = self.pace.now;
        }
        if self.pace.is_past(self.pace.acknowledged_at, AGAIN) {
            self.pace.next_entry = self.pace.acknowledged;
            self.pace.acknowledged_at = self.pace.now;
        }
        let mut has_sent = false;
        for _ in 0..ENTRIES {
            if !self.host.send_entry(self.pace.next_entry)? {
                break;
            }
            self.pace.next_entry = self.pace.next_entry.saturating_add(1);
            has_sent = true;
        }
        Ok(has_sent)
    }

    // Sends parts of the image, few past those that have come unless all have early; once all of these are sent, from the first again if
    // none came for a while.
    #[tactic(auto, using(crate::proofs::Going::stays, crate::proofs::Going::and_then))]
    fn send_parts(&mut self) -> R<bool>
        ensures { Goes B.state B.machine B.copied self.old.host self.new.host }
    {
        let mut has_sent = false;
        for _ in 0..PARTS {
            if self.pace.next_part >= self.pace.most_parts() {
                break;
            }
            if !self.host.send_part(self.pace.next_part)? {
                break;
            }
            self.pace.next_part = self.pace.next_part.saturating_add(1);
            has_sent = true;
        }
        if !has_sent && self.pace.is_past(self.pace.parts_at, AGAIN * 5) {
            self.pace.next_part = 0;
            self.pace.parts_at = self.pace.now;
        }
        Ok(has_sent)
    }

    // A backup acknowledges what it holds, and repeats it; then it follows its primary.
    #[tactic(auto, using(crate::proofs::Going::stays, crate::proofs::Going::and_then))]
    pub(crate) fn follow(&mut self) -> R<bool>
        ensures { Goes B.state B.machine B.copied self.old.host self.new.host }
    {
        self.answer_peer()?;
        let has_moved = self.replay()?;
        let has_run = self.run_ahead()?;
        Ok(has_moved | has_run)
    }

    // Says what has come of the image and of the log, and how far the guest is.
    #[tactic(auto, using(crate::proofs::Going::stays, crate::proofs::Going::and_then))]
    fn answer_peer(&mut self) -> R<bool>
        ensures { Goes B.state B.machine B.copied self.old.host self.new.host }
    {
        self.acknowledge()?;
        self.tell_parts()?;
        self.say_progress()
    }

    // Makes moves from the entries that are held.
    #[tactic(auto, using(crate::proofs::Going::stays, crate::proofs::Going::and_then))]
    fn replay(&mut self) -> R<bool>
        ensures { Goes B.state B.machine B.copied self.old.host self.new.host }
    {
        let most = self.most_moves();
        let replayed = self.host.replay(most)?;
        self.pace.note_replayed(&replayed);
        self.fetch(replayed.why)?;
        Ok(replayed.moves > 0)
    }

    // Acknowledges what is held, if that is due.
    #[tactic(auto, using(crate::proofs::Going::stays, crate::proofs::Going::and_then))]
    fn acknowledge(&mut self) -> R<()>
        ensures { Goes B.state B.machine B.copied self.old.host self.new.host }
    {
        if !self.pace.owes_acknowledgement {
            return Ok(());
        }
        if self.host.acknowledge()? {
            self.pace.owes_acknowledgement = false;
        }
        Ok(())
    }

    // A node that won repeats what it holds.
    #[tactic(auto, using(crate::proofs::Going::stays, crate::proofs::Going::and_then))]
    pub(crate) fn drain(&mut self) -> R<bool>
        ensures { Goes B.state B.machine B.copied self.old.host self.new.host }
    {
        let drained = self.host.drain(self.settings.steps)?;
        self.fetch(drained.why)?;
        Ok(drained.moves > 0 || matches!(drained.why, ReplayEnd::End))
    }

    // Asks the disk for the sector for which a replaying node waits, if it waits for one.
    #[tactic(auto, using(crate::proofs::Going::stays, crate::proofs::Going::and_then))]
    fn fetch(&mut self, why: ReplayEnd) -> R<()>
        ensures { Goes B.state B.machine B.copied self.old.host self.new.host }
    {
        if !matches!(why, ReplayEnd::Wait) {
            return Ok(());
        }
        if let Some(since) = self.pace.asked_disk_at {
            if !self.pace.is_past(since, AGAIN) {
                return Ok(());
            }
        }
        match self.host.ask_wanted() {
            Ok(true) => self.pace.asked_disk_at = Some(self.pace.now),
            Err(Fault::OutOfMemory) => return Err(Fault::OutOfMemory),
            Ok(false) | Err(_) => {}
        }
        Ok(())
    }

    // Says how many parts have come, if that was not said.
    #[tactic(auto, using(crate::proofs::Going::stays, crate::proofs::Going::and_then))]
    pub(crate) fn tell_parts(&mut self) -> R<bool>
        ensures { Goes B.state B.machine B.copied self.old.host self.new.host }
    {
        if self.pace.owes_parts && self.host.say_parts(self.pace.parts_here)? {
            self.pace.owes_parts = false;
            return Ok(true);
        }
        Ok(false)
    }
}

//! One turn of the outside.
ghost use Rattle.std.specs.Prelude.{◌≡◌, ◌∷◌, []};
ghost use Rattle.outside_switch.specs.Causes.{MayCut};
ghost use Rattle.outside_switch.specs.Goes.{GoesWith};
ghost use Rattle.outside_switch.specs.Meets.{seen};
ghost use Rattle.outside_switch.specs.Passing.{Shown, passed_of};
ghost use Rattle.outside_switch.specs.declared.heard.BodyOutcome.{BodyOutcome};
ghost use Rattle.outside_switch.specs.declared.heard.BodyOutcome.TheVariants as of_heard;
ghost use Rattle.outside_switch.specs.Heeds.{HasRoomFor};
ghost use Rattle.outside_switch.specs.declared.flood.Came.TheVariants as of_came;
ghost use Rattle.outside_switch.specs.Floods.{has_flooded, refused_one, sent_one, ticked};
ghost use Rattle.outside_switch.specs.Judging.{HearsAndCounts, HearsOne, IsCutOff, Judges, TakesOne, is_due, is_open, AreCounted, HasOneMore};
ghost use Rattle.outside_switch.specs.Silence.{after_read, is_again, remembered};
ghost use Rattle.outside_switch.specs.LoopRuns.{IsTold, MayShow, SeesLive, Went};

use crate::flood::{Came, came_of};
use crate::live::{Live, live_of, spare_for};
use crate::session::Session;
use crate::steward::{HostEvent, Steward};
use crate::{BodyOutcome, HostLine};
use disk_dcdd::SectorAddress;
use event_callbacks::PORTS;
use pair_events::Role;
use shared_disk::SectorStore;
use std::alloc::Global;

/// How many bodies of one host are taken in a turn at most, so that none keeps the others waiting.
const BODIES_A_TURN: u64 = 512;

/// After how many microseconds hosts are told again that the switch is there.
const TICK: u64 = 50_000;

/// After how many microseconds a host that is alone is told again to begin: it does once a copy has gone early.
const BEGIN: u64 = 10_000;

/// After how many microseconds without a turn the outside was itself stopped: nothing that it has not seen says anything of a host.
const STOPPED: u64 = 250_000;

impl<D: SectorStore, S: Steward + Drop> Session<D, S> {
    /// One turn, at this time. Returns whether anything has come.
    pub(crate) fn turn(&mut self, alloc: Global, now: u64) -> bool
        requires { AreCounted self.old }
        ensures { Went self.old self.new }
    {
        self.see_stop(now);
        self.see_fate();
        let has_keys = self.take_keys(now);
        let has_bodies = self.hear_all(alloc, now);
        self.see_left();
        self.see_sight();
        self.serve_live(alloc, now);
        self.tick(alloc, now);
        has_keys || has_bodies
    }

    // If the outside was itself stopped, what it has not seen meanwhile says nothing.
    #[tactic(auto, using(crate::proofs::TurnsGoing::same))]
    fn see_stop(&mut self, now: u64)
        ensures { Went self.old self.new }
    {
        if now.saturating_sub(self.moments.turned) > STOPPED {
            self.moments.moved = now;
        }
        self.moments.turned = now;
    }

    // From now on packets between hosts fare as the steward wants it.
    #[tactic(auto, using(crate::proofs::TurnsGoing::seen_same))]
    fn see_fate(&mut self)
        ensures { Went self.old self.new }
    {
        let fate = self.steward.fate();
        self.switch.set_fate(fate);
    }

    // Types the keys that have come at both ports.
    fn take_keys(&mut self, now: u64) -> bool
        ensures { Went self.old self.new }
    {
        let has_first = self.type_first();
        let has_second = self.type_second();
        let has_keys = has_first | has_second;
        self.see_move(now, has_keys);
        has_keys
    }

    // Types the keys that have come at the first port.
    #[tactic(auto, using(crate::proofs::TurnsGoing::types_first))]
    fn type_first(&mut self) -> bool
        ensures { Went self.old self.new }
    {
        self.first.type_keys(&mut self.switch, 0)
    }

    // Types the keys that have come at the second port.
    #[tactic(auto, using(crate::proofs::TurnsGoing::types_second))]
    fn type_second(&mut self) -> bool
        ensures { Went self.old self.new }
    {
        self.second.type_keys(&mut self.switch, 1)
    }

    // Remembers when something moved.
    #[tactic(auto, using(crate::proofs::TurnsGoing::same))]
    fn see_move(&mut self, now: u64, has_moved: bool)
        ensures { Went self.old self.new }
    {
        if has_moved {
            self.moments.moved = now;
        }
    }

    // Hears the hosts at all places.
    #[tactic(auto, using(crate::proofs::TurnsGoing::stays, crate::proofs::TurnsGoing::and_then))]
    fn hear_all(&mut self, alloc: Global, now: u64) -> bool
        requires { AreCounted self.old }
        ensures { Went self.old self.new }
    {
        let mut has_heard = false;
        for place in 0..=u8::MAX {
            if !self.has_place(place) {
                break;
            }
            has_heard |= self.hear_host(alloc, now, place);
        }
        has_heard
    }

    // Whether there is such a place.
    fn has_place(&self, place: u8) -> bool {
        usize::from(place) < self.switch.lines().len()
    }

    // Hears the host at one place.
    #[tactic(auto, using(crate::proofs::TurnsGoing::stays, crate::proofs::TurnsGoing::and_then))]
    fn hear_host(&mut self, alloc: Global, now: u64, place: u8) -> bool
        requires { AreCounted self.old }
        ensures { Went self.old self.new }
    {
        let mut has_heard = false;
        for _ in 0..BODIES_A_TURN {
            if !self.hear_next(alloc, now, place) {
                break;
            }
            has_heard = true;
        }
        has_heard
    }

    // Hears the next body of a host, and counts it. Returns false if there is none.
    #[tactic(auto, using(crate::proofs::TurnsGoing::and_then))]
    fn hear_next(&mut self, alloc: Global, now: u64, place: u8) -> bool
        requires { AreCounted self.old }
        ensures went { Went self.old self.new }
        ensures hears { HearsAndCounts place self.old self.new }
    {
        let is_open = self.is_open(place);
        let heard = self.hear_one(alloc, now, place);
        self.judge(alloc, place, came_of(heard, is_open));
        !matches!(heard, BodyOutcome::Nothing)
    }

    // Whether a host is at a place and not cut off.
    fn is_open(&self, place: u8) -> bool
        ensures { result ≡ is_open self.now.switch place }
    {
        match self.switch.lines().get(usize::from(place)) {
            Some(line) => !line.is_cut(),
            None => false,
        }
    }

    // Hears the next body of a host, and shows what there is to show.
    fn hear_one(&mut self, alloc: Global, now: u64, place: u8) -> BodyOutcome
        ensures went { Went self.old self.new }
        ensures hears { HearsOne place result self.old self.new }
        ensures moments { self.new.moments ≡ remembered now result self.old.moments }
    {
        let rooms = self.rooms();
        let heard = self.switch.hear(alloc, place, rooms);
        self.tell(now, place, heard);
        heard
    }

    // Counts what became of the next body of a host.
    #[tactic(auto, using(crate::proofs::TurnsGoing::rested_one, crate::proofs::TurnsGoing::refused_one, crate::proofs::TurnsGoing::paid_one))]
    fn judge(&mut self, alloc: Global, place: u8, came: Came)
        requires { came ≡ of_came.Taken → HasOneMore place self.old }
        ensures went { Went self.old self.new }
        ensures judges { Judges came place self.old self.new }
    {
        match came {
            Came::Nothing => self.flood.rest(place),
            Came::Refused => self.flood.refuse(place),
            Came::Taken => self.take(alloc, place),
            Came::Accepted => self.flood.accept(place),
        }
    }

    // Counts a body that was taken of a host, which is cut off if that is one too many.
    #[tactic(auto, using(crate::proofs::TurnsGoing::takes, crate::proofs::Cutting::few, crate::proofs::Cutting::many))]
    fn take(&mut self, alloc: Global, place: u8)
        requires { HasOneMore place self.old }
        ensures went { Went self.old self.new }
        ensures takes { TakesOne (has_flooded (sent_one place self.old.flood) place) place self.old self.new }
    {
        if self.flood.take(place) {
            self.cut_off(alloc, place);
        }
    }

    // Cuts off a host that has sent too much; what was too much is refused.
    fn cut_off(&mut self, alloc: Global, place: u8)
        requires { MayCut self.old.switch.lines.items place }
        ensures goes { GoesWith [] (seen self.old.switch) (seen self.new.switch) }
        ensures cut { IsCutOff place (refused_one place self.old.flood) self.old self.new }
        ensures ports { (self.new.first ≡ self.old.first) × (self.new.second ≡ self.old.second) }
        ensures screen { self.new.screen ≡ self.old.screen }
    {
        self.flood.refuse(place);
        self.switch.gone(alloc, place);
        self.steward.hears(place, HostEvent::Flooded);
    }

    // Whether the screen has room for a byte of each port.
    fn rooms(&mut self) -> [bool; PORTS]
        ensures told { IsTold [] self.old self.new }
        ensures moments { self.new.moments ≡ self.old.moments }
        ensures room { (heard : BodyOutcome) → HasRoomFor result heard → MayShow self.new.screen heard }
    {
        let has_room = self.screen.has_room();
        [has_room, has_room]
    }

    // Shows and tells what was heard of a host.
    #[tactic(auto, using(crate::proofs::TurnsGoing::tells_nothing))]
    fn tell(&mut self, now: u64, place: u8, heard: BodyOutcome)
        requires { MayShow self.old.screen heard }
        ensures told { IsTold (passed_of heard) self.old self.new }
        ensures moments { self.new.moments ≡ remembered now heard self.old.moments }
    {
        match heard {
            BodyOutcome::Shown { port, byte } => self.show(now, port, byte),
            BodyOutcome::Read(address) => self.see_read(now, address),
            BodyOutcome::Written => self.moments.moved = now,
            BodyOutcome::Nothing | BodyOutcome::Met => {}
            BodyOutcome::Unwritten => self.steward.hears(place, HostEvent::Unwritten),
            BodyOutcome::Became(role) => self.see_role(place, role),
            BodyOutcome::Won(generation) => self.steward.hears(place, HostEvent::Won(generation)),
            BodyOutcome::Lost(generation) => self.steward.hears(place, HostEvent::Lost(generation)),
            BodyOutcome::Ended => self.steward.hears(place, HostEvent::Gone),
            BodyOutcome::Failed => self.steward.hears(place, HostEvent::Failed),
        }
    }

    // Shows a byte that a terminal has accepted, since the screen had room.
    #[tactic(auto, using(crate::proofs::TurnsGoing::shows))]
    fn show(&mut self, now: u64, port: u8, byte: u8)
        requires { MayShow self.old.screen (of_heard.Shown port byte) }
        ensures told { IsTold (Shown port byte ∷ []) self.old self.new }
        ensures moments { self.new.moments ≡ record self.old.moments { moved = now } }
    {
        self.moments.moved = now;
        self.screen.show(port, byte);
    }

    // A sector was read: the pair goes on if its track is another one than before.
    #[tactic(auto, using(crate::proofs::TurnsGoing::tells_nothing))]
    fn see_read(&mut self, now: u64, address: SectorAddress)
        ensures told { IsTold [] self.old self.new }
        ensures moments { self.new.moments ≡ after_read now address self.old.moments }
    {
        if is_again(self.moments.read, address) {
            return;
        }
        self.moments.moved = now;
        self.moments.read = Some(address);
    }

    // The host at a place reports another role.
    #[tactic(auto, using(crate::proofs::TurnsGoing::tells_nothing))]
    fn see_role(&mut self, place: u8, role: Option<Role>)
        ensures told { IsTold [] self.old self.new }
        ensures moments { self.new.moments ≡ self.old.moments }
    {
        let generation = generation_at(self.switch.lines(), place);
        self.steward
            .hears(place, HostEvent::Became(generation, role));
    }

    // Sends the live host its keys, and has it begin with a spare if it is alone.
    #[tactic(auto, using(crate::proofs::TurnsGoing::stays, crate::proofs::TurnsGoing::and_then))]
    fn serve_live(&mut self, alloc: Global, now: u64)
        ensures { Went self.old self.new }
    {
        let Some(live) = live_of(self.switch.lines()) else {
            return;
        };
        self.see_live(&live);
        self.send_keys(alloc, now, &live);
        self.inspect(alloc, now, &live);
        if live.report.role == Some(Role::Alone) {
            self.begin(alloc, now, &live);
        }
    }

    // Remembers since which tick nobody is live. Whoever has heard a later one has heard all that comes of a host that is gone.
    #[tactic(auto, using(crate::proofs::TurnsGoing::same))]
    fn see_left(&mut self)
        ensures { Went self.old self.new }
    {
        let is_served = live_of(self.switch.lines()).is_some();
        let since = self.moments.left.unwrap_or(self.moments.tick);
        self.moments.left = if is_served { None } else { Some(since) };
    }

    // Another host may be live: all keys that it has not taken are sent to it.
    #[tactic(auto, using(crate::proofs::TurnsGoing::stays, crate::proofs::TurnsGoing::rests))]
    fn see_live(&mut self, live: &Live)
        ensures went { Went self.old self.new }
        ensures anew { SeesLive live.now self.old self.new }
    {
        let who = (live.place, live.report.generation);
        if self.moments.live == Some(who) {
            return;
        }
        self.moments.live = Some(who);
        let [first, second] = live.report.taken;
        self.first.begin_anew(first);
        self.second.begin_anew(second);
    }

    // Sends the live host the keys of both ports.
    #[tactic(auto, using(crate::proofs::TurnsGoing::sends))]
    fn send_keys(&mut self, alloc: Global, now: u64, live: &Live)
        ensures { Went self.old self.new }
    {
        let [first, second] = live.report.taken;
        self.first
            .send_keys(&mut self.switch, alloc, now, (live.place, 0), first);
        self.second
            .send_keys(&mut self.switch, alloc, now, (live.place, 1), second);
    }

    // Asks the live host what its machine has if the steward asks that, and again after a while.
    #[tactic(auto, using(crate::proofs::TurnsGoing::stays, crate::proofs::TurnsGoing::same, crate::proofs::TurnsGoing::switched))]
    fn inspect(&mut self, alloc: Global, now: u64, live: &Live)
        ensures { Went self.old self.new }
    {
        let Some(asked) = self.steward.asks() else {
            return;
        };
        let is_old = self.moments.inspection == asked.number;
        if is_old && now.saturating_sub(self.moments.inspected) < TICK {
            return;
        }
        self.moments.inspected = now;
        self.moments.inspection = asked.number;
        let _ = self.switch.inspect(alloc, live.place, asked);
    }

    // Hands on what the live host has shown of its machine. What another one shows is dropped.
    #[tactic(auto, using(crate::proofs::TurnsGoing::stays, crate::proofs::TurnsGoing::seen_same))]
    fn see_sight(&mut self)
        ensures { Went self.old self.new }
    {
        let Some(sight) = self.switch.sight else {
            return;
        };
        self.switch.sight = None;
        if is_live(self.switch.lines(), sight.place) {
            self.steward.sees(&sight);
        }
    }

    // Has a host that is alone begin with a spare, if there is one.
    #[tactic(auto, using(crate::proofs::TurnsGoing::stays, crate::proofs::TurnsGoing::same, crate::proofs::TurnsGoing::switched))]
    fn begin(&mut self, alloc: Global, now: u64, live: &Live)
        ensures { Went self.old self.new }
    {
        if now.saturating_sub(self.moments.begun) < BEGIN {
            return;
        }
        let Some(generation) = live.report.generation.checked_add(1) else {
            return;
        };
        let Some(spare) = spare_for(self.switch.lines(), generation) else {
            self.steward.hears(live.place, HostEvent::Alone);
            return;
        };
        if !self.switch.send_begin(alloc, live.place, generation, spare) {
            return;
        }
        self.moments.begun = now;
        if self.is_open(spare) {
            self.steward.hears(spare, HostEvent::Joins(generation));
        }
    }

    // Tells all hosts that the switch is there, if it is time for that.
    #[tactic(auto, using(crate::proofs::TurnsGoing::same, crate::proofs::TurnsGoing::switched))]
    fn tick(&mut self, alloc: Global, now: u64)
        ensures went { Went self.old self.new }
        ensures ticks { self.new.flood ≡ ticked (is_due now self.old.moments.ticked) self.old.flood }
    {
        let is_due = now.saturating_sub(self.moments.ticked) >= TICK;
        self.flood.end_turn(is_due);
        if !is_due {
            return;
        }
        self.moments.ticked = now;
        self.moments.tick = self.moments.tick.saturating_add(1);
        let speed = self.steward.speed();
        self.switch.tick(alloc, self.moments.tick, speed);
        self.steward
            .looks(self.switch.lines(), self.flood.all_refused());
    }
}

// Whether the host at a place is live.
fn is_live(lines: &[HostLine], place: u8) -> bool {
    match live_of(lines) {
        Some(live) => live.place == place,
        None => false,
    }
}

// Of which generation the host at a place is, by what it reported last; 0 if it has reported nothing.
fn generation_at(lines: &[HostLine], place: u8) -> u32 {
    let Some(line) = lines.get(usize::from(place)) else {
        return 0;
    };
    match line.report() {
        Some(report) => report.generation,
        None => 0,
    }
}

// Whether a sector is on the track of the last that was read.
fn is_again(last: Option<SectorAddress>, address: SectorAddress) -> bool
    ensures { result ≡ is_again last address }
{
    match last {
        Some(last) => last.drive == address.drive && last.track == address.track,
        None => false,
    }
}

//! The user's end of one port: a keyboard, and which keys go to the live host now.
ghost use Rattle.std.specs.Prelude.{◌≡◌, [], None, false, true};
ghost use Rattle.outside_switch.specs.Goes.{GoesWith};
ghost use Rattle.outside_switch.specs.Meets.{seen};
ghost use Rattle.outside_switch.specs.Ports.{BeginsAt, HearsTaken, IsOver, Rests, SendsNext, Types, TypesKeys};

use crate::Switch;
use console_terminal::Keyboard;
use shared_disk::SectorStore;
use std::alloc::Global;

/// How many keys past those that the live host has taken are sent to it at most.
const WINDOW: u64 = 64;

/// After how many microseconds keys that were not taken are sent again.
const AGAIN: u64 = 50_000;

/// How many keys of a port are taken from its keyboard in a turn at most.
const KEYS_A_TURN: u64 = 64;

/// The user's end of one port.
#[derive(Drop)]
pub struct PortEnd {
    pub(crate) keyboard: Keyboard,
    // A key that was not typed yet, since the terminal keeps as many as it can.
    waiting: Option<u8>,
    // How many were typed, and how many the live host has taken.
    typed: u64,
    taken: u64,
    // Which one is sent next, and when one was sent or taken last.
    next: u64,
    at: u64,
}

impl PortEnd {
    /// The end of a port at which nothing was typed yet.
    pub fn new(keyboard: Keyboard) -> PortEnd
        ensures { (result.keyboard ≡ keyboard) × (result.waiting ≡ None) }
    {
        PortEnd {
            keyboard,
            waiting: None,
            typed: 0,
            taken: 0,
            next: 0,
            at: 0,
        }
    }

    /// The keyboard, as it is now.
    pub(crate) fn into_keyboard(self) -> Keyboard
        ensures { result ≡ self.keyboard }
    {
        let PortEnd { keyboard, .. } = self;
        keyboard
    }

    /// Types the keys that have come. Returns whether one was typed.
    #[tactic(auto, using(crate::proofs::Typing::none_typed, crate::proofs::Typing::more_typed))]
    pub(crate) fn type_keys<D: SectorStore>(&mut self, switch: &mut Switch<D>, port: u8) -> bool
        ensures { TypesKeys port self.old self.new (seen switch.old) (seen switch.new) }
    {
        let before = self.typed;
        for _ in 0..KEYS_A_TURN {
            if !self.type_next(switch, port) {
                break;
            }
        }
        self.typed != before
    }

    // Types the next key, if there is one and its terminal takes it. One that is refused waits.
    #[tactic(auto, using(crate::proofs::Typing::none_came, crate::proofs::Typing::refused, crate::proofs::Typing::key_typed))]
    fn type_next<D: SectorStore>(&mut self, switch: &mut Switch<D>, port: u8) -> bool
        ensures { TypesKeys port self.old self.new (seen switch.old) (seen switch.new) }
    {
        let Some(key) = self.next_key() else {
            return false;
        };
        let Ok(index) = switch.type_key(port, key) else {
            return false;
        };
        self.waiting = None;
        self.typed = index.saturating_add(1);
        true
    }

    // The next key, which waits until it is typed.
    #[tactic(auto, using(crate::proofs::Typing::types_none, crate::proofs::Typing::types_next))]
    fn next_key(&mut self) -> Option<u8>
        ensures types { Types [] self.old self.new }
        ensures waits { result ≡ self.new.waiting }
    {
        if self.waiting.is_none() {
            self.waiting = self.keyboard.next();
        }
        self.waiting
    }

    /// Another host is live, and has taken so many keys: those after them are sent at once.
    pub(crate) fn begin_anew(&mut self, taken: u64)
        ensures rests { Rests self.old self.new }
        ensures begins { BeginsAt taken self.new }
    {
        self.taken = taken;
        self.next = taken;
    }

    /// Sends keys to the live host, which has taken so many: those that were not sent yet, and all that it has not taken if nothing
    /// was taken or sent for a while.
    #[tactic(auto, using(crate::proofs::Going::still, crate::proofs::Typing::quiet_on, crate::proofs::Typing::rests_on))]
    pub(crate) fn send_keys<D: SectorStore>(
        &mut self,
        switch: &mut Switch<D>,
        alloc: Global,
        now: u64,
        line: (u8, u8),
        taken: u64,
    )
        ensures goes { GoesWith [] (seen switch.old) (seen switch.new) }
        ensures rests { Rests self.old self.new }
    {
        self.see_taken(now, taken);
        for _ in 0..WINDOW {
            if !self.send_next(switch, alloc, now, line) {
                break;
            }
        }
    }

    // The live host has taken so many keys.
    fn see_taken(&mut self, now: u64, taken: u64)
        ensures rests { Rests self.old self.new }
        ensures hears { HearsTaken taken self.old self.new }
    {
        if taken > self.taken {
            self.taken = taken;
            self.at = now;
        }
        if now.saturating_sub(self.at) > AGAIN || self.next < self.taken {
            self.next = self.taken;
        }
    }

    // Sends the next key to the live host, if there is one within the window. Returns false if none went.
    #[tactic(auto, using(crate::proofs::Going::still))]
    fn send_next<D: SectorStore>(
        &mut self,
        switch: &mut Switch<D>,
        alloc: Global,
        now: u64,
        line: (u8, u8),
    ) -> bool
        ensures goes { GoesWith [] (seen switch.old) (seen switch.new) }
        ensures rests { Rests self.old self.new }
        ensures sends { result ≡ true → SendsNext line.0 line.1 self.old self.new (seen switch.old) (seen switch.new) }
        ensures waits { result ≡ false → self.new ≡ self.old }
    {
        let (place, port) = line;
        if self.next >= self.typed || self.next >= self.taken.saturating_add(WINDOW) {
            return false;
        }
        if !switch.send_key(alloc, place, port, self.next) {
            return false;
        }
        self.next = self.next.saturating_add(1);
        self.at = now;
        true
    }

    /// Whether no more keys can come, and all that came were taken.
    pub(crate) fn is_over(&self) -> bool
        ensures { result ≡ true → IsOver self.now }
    {
        if self.keyboard.is_open() || self.waiting.is_some() {
            return false;
        }
        self.taken >= self.typed
    }
}

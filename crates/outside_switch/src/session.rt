//! The outside of a pair: its switch, the user's ends of both ports, the screen, and what the turns remember.
ghost use Rattle.std.specs.Prelude.{◌≡◌, [], IfErr, IfOk, IsOkUnless, OnErr, OnOk, Some, if◌then◌else◌, length, nat_lt};
ghost use Rattle.i8080_words.specs.declared.refusal.Fault.TheVariants.{OutOfMemory, Unknown};
ghost use Rattle.outside_switch.specs.Held.{at_boot};
ghost use Rattle.outside_switch.specs.Goes.{Adds};
ghost use Rattle.outside_switch.specs.declared.line.HostLine.{HostLine};
ghost use Rattle.outside_switch.specs.Meets.{seen};
ghost use Rattle.outside_switch.specs.Floods.{count_at, unheard};

use crate::Switch;
use crate::flood::Flood;
use crate::port::PortEnd;
use crate::steward::Steward;
use console_terminal::{Keyboard, Screen};
use disk_dcdd::SectorAddress;
use i8080_words::R;
use rtrb::{Consumer, Producer};
use shared_disk::{SectorStore, SharedDisk};
use std::alloc::Global;
use std::sync::Arc;
use std::thread::Parker;

/// The user wants all to end.
#[derive(Clone, Copy)]
pub struct Quit;

/// Why all ends.
#[derive(Clone, Copy, PartialEq, Eq)]
pub enum HostsEnd {
    /// The user wants it.
    UserQuit,
    /// No more keys can come, all that came were taken, and the guest waits for one, with nothing on its way to a device.
    Settled,
    /// No more keys can come, all that came were taken, and for as long as the session says the pair has shown and written nothing and read
    /// on no other track than before, though its guest runs.
    Silent,
    /// No host is left that has the machine.
    NoHosts,
    /// The steward has stopped it.
    Stopped,
}

/// The outside of a pair.
#[derive(Drop)]
pub struct Session<D: SectorStore, S: Steward + Drop> {
    pub(crate) switch: Switch<D>,
    pub(crate) first: PortEnd,
    pub(crate) second: PortEnd,
    pub(crate) screen: Screen,
    pub(crate) quits: Consumer<Quit>,
    pub(crate) steward: S,
    // For how many microseconds a guest that runs may be silent once no more keys can come.
    pub(crate) silence: u64,
    pub(crate) moments: Moments,
    pub(crate) flood: Flood,
}

/// When something happened last, in microseconds.
#[derive(Drop)]
pub(crate) struct Moments {
    // The last turn; 0 if there was none.
    pub(crate) turned: u64,
    pub(crate) ticked: u64,
    // The number of the last tick.
    pub(crate) tick: u64,
    pub(crate) begun: u64,
    // A key was typed, or the pair has shown or written something, or read on another track than before; and what it read last.
    pub(crate) moved: u64,
    pub(crate) read: Option<SectorAddress>,
    // When the live host was asked last what its machine has, and the number of that question; 0 if it was not.
    pub(crate) inspected: u64,
    pub(crate) inspection: u64,
    // The user has asked for the end; and the number of the last tick by then.
    pub(crate) asked: Option<(u64, u64)>,
    // Which host is live, and of which generation.
    pub(crate) live: Option<(u8, u32)>,
    // While nobody is live, the number of the last tick when that was first seen.
    pub(crate) left: Option<u64>,
}

impl<D: SectorStore, S: Steward + Drop> Session<D, S> {
    /// An outside without hosts, over a disk's store. Once no more keys can come its guest may be silent for so many microseconds while
    /// it runs.
    pub fn new(
        alloc: Global,
        store: D,
        first: PortEnd,
        second: PortEnd,
        screen: Screen,
        quits: Consumer<Quit>,
        steward: S,
        silence: u64,
    ) -> R<Session<D, S>>
        ensures ok { IfOk result (λ session. (session.first ≡ first) × (session.second ≡ second)
            × (session.screen ≡ screen) × (session.quits ≡ quits) × (seen session.switch
            ≡ record { devices = record (at_boot (D.records store) (D.may_fail store)) { hosts = 2 }; lines = [] })) }
        ensures silence { IfOk result (λ session. session.silence ≡ silence) }
        ensures unheard { IfOk result (λ session. session.flood ≡ unheard) }
        ensures only_memory { IsOkUnless result OutOfMemory }
    {
        let switch = Switch::new(alloc, store)?;
        Ok(Session {
            switch,
            first,
            second,
            screen,
            quits,
            steward,
            silence,
            moments: Moments {
                turned: 0,
                ticked: 0,
                tick: 0,
                begun: 0,
                moved: 0,
                read: None,
                inspected: 0,
                inspection: 0,
                asked: None,
                live: None,
                left: None,
            },
            flood: Flood::new(),
        })
    }

    /// One host more, by its line. `Unknown` if a byte names no more places.
    pub fn add(
        &mut self,
        from: Consumer<Vec<u8>>,
        to: Producer<Vec<u8>>,
        wake: Arc<Parker>,
    ) -> R<()>
        ensures ok { OnOk result ((line : HostLine) × (line.from ≡ from) × (line.to ≡ Some to)
            × Adds line (seen self.old.switch) (seen self.new.switch)) }
        ensures err { OnErr result (seen self.new.switch ≡ seen self.old.switch) }
        ensures why { IfErr result
            (λ fault. fault ≡ (if nat_lt (length self.old.switch.lines.items) 256 then OutOfMemory else Unknown)) }
        ensures others { (self.new.first ≡ self.old.first) × (self.new.second ≡ self.old.second)
            × (self.new.screen ≡ self.old.screen) × (self.new.quits ≡ self.old.quits) }
        ensures flood { self.new.flood ≡ self.old.flood }
    {
        self.switch.add(from, to, wake)
    }

    /// How many bodies of the host at a place were refused: those that are no frame or mean nothing where they come from, the one
    /// that was too many, and those that came after the host was cut off.
    pub fn refused(&self, place: u8) -> u64
        ensures { result ≡ count_at self.now.flood.refused place }
    {
        self.flood.refused(place)
    }

    /// What it is made of, once it has gone to its end.
    pub fn into_parts(self) -> SessionParts<D, S>
        ensures disk { D.records result.disk ≡ self.switch.devices.records }
        ensures keyboards { (result.keyboards.0 ≡ self.first.keyboard) × (result.keyboards.1 ≡ self.second.keyboard) }
        ensures others { (result.screen ≡ self.screen) × (result.quits ≡ self.quits) × (result.steward ≡ self.steward) }
    {
        let Session {
            switch,
            first,
            second,
            screen,
            quits,
            steward,
            ..
        } = self;
        SessionParts {
            disk: switch.into_disk(),
            keyboards: (first.into_keyboard(), second.into_keyboard()),
            screen,
            quits,
            steward,
        }
    }
}

/// What a session leaves.
#[derive(Drop)]
pub struct SessionParts<D: SectorStore, S: Drop> {
    pub disk: SharedDisk<D>,
    pub keyboards: (Keyboard, Keyboard),
    pub screen: Screen,
    pub quits: Consumer<Quit>,
    pub steward: S,
}

//! Stored closures that complete what a device has done, each kept with what is proved about it.
//!
//! A type that stores an `F: Fn(..)` cannot cite what is known about `F`'s calls. So the trait `Completes` names what a
//! call may take and what it may return; every closure of the right shape has that trait, and a type that stores a
//! closure has it as a bound. In return, no function may name `Kept` or `Callbacks`, or a type that holds them, at the
//! type of a closure that it knows. A caller that has closures passes them, as they are, to a function that is generic
//! over them. That function requires what `Callbacks::of` does, and makes everything that holds them:
//!
//!     fn run<T: Completes + Drop, S: Completes + Drop, W: Completes + Drop>(sent: T, sector: S, written: W)
//!         requires sent { Keeps (T.may sent) (T.gives sent) SENT }
//!         requires sector { Keeps (S.may sector) (S.gives sector) SECTOR }
//!         requires written { Keeps (W.may written) (W.gives written) WRITTEN }
//!     {
//!         let callbacks = Callbacks::of(sent, sector, written);
//!         ..
//!     }
//!
//!     run(plain_completions::sent, plain_completions::sector, plain_completions::written);
//!
//! A closure that is stored more than once has the bound `Completes + Copy`. A closure of the caller's own states its
//! clauses in the source, as the functions of `plain_completions` do.
ghost use Rattle.std.specs.Prelude.{◌≡◌, IsTrue};
ghost use Rattle.event_callbacks.specs.Keeping.{Keeps};
ghost use Rattle.event_callbacks.specs.Completions.{is_due, done_of};
ghost use Rattle.event_callbacks.specs.declared.devices.Devices.{Devices};
ghost use Rattle.event_callbacks.specs.declared.devices.Done.{Done};
ghost use Rattle.event_callbacks.specs.declared.devices.TheConstants.{SENT, SECTOR, WRITTEN};

use crate::devices::{Devices, Done, SECTOR, SENT, WRITTEN};
use std::marker::Model;

/// What may be stored as a completion: every closure that takes the devices and what one of them has done, and returns
/// the devices after it.
pub trait Completes {
    // What it may be called with.
    ghost may: { Self → Devices → Done → Type 0 };

    // What it may then return.
    ghost gives: { Self → Devices → Done → Devices → Type 0 };

    /// The devices after what has been done.
    fn complete(&self, devices: Devices, done: Done) -> Devices
        requires { may self.now devices done }
        ensures { gives self.now devices done result };
}

impl<F: Fn(Devices, Done) -> Devices> Completes for F {
    ghost may = { λ f devices done. F.pre f devices done };

    ghost gives = { λ f devices done after. F.post f devices done after };

    fn complete(&self, devices: Devices, done: Done) -> Devices {
        self(devices, done)
    }
}

/// A closure that completes one kind of `Done`: `SENT`, `SECTOR` or `WRITTEN`.
#[derive(Drop)]
pub struct Kept<F: Completes, const KIND: u8> {
    closure: F,
}

impl<F: Completes, const KIND: u8> Model for Kept<F, KIND> {
    ghost use Rattle.event_callbacks.specs.Keeping.{Keeps};

    ghost Value = { F };

    ghost view = { λ kept. kept.closure };

    ghost invariant = { λ kept. Keeps (F.may kept.closure) (F.gives kept.closure) KIND };
}

// A `new` for each kind: a single one over all kinds would ask its generic callers how much memory a closure takes.
impl<F: Completes> Kept<F, SENT> {
    /// Stores a closure that obeys the completion table for `Done::Sent`.
    pub fn new(closure: F) -> Self
        requires { Keeps (F.may closure) (F.gives closure) SENT }
        ensures { result ≡ closure }
    {
        Kept { closure }
    }
}

impl<F: Completes> Kept<F, SECTOR> {
    /// Stores a closure that obeys the completion table for `Done::Sector`.
    pub fn new(closure: F) -> Self
        requires { Keeps (F.may closure) (F.gives closure) SECTOR }
        ensures { result ≡ closure }
    {
        Kept { closure }
    }
}

impl<F: Completes> Kept<F, WRITTEN> {
    /// Stores a closure that obeys the completion table for `Done::Written`.
    pub fn new(closure: F) -> Self
        requires { Keeps (F.may closure) (F.gives closure) WRITTEN }
        ensures { result ≡ closure }
    {
        Kept { closure }
    }
}

/// The closures of one holder, one of each kind. They are stored here directly, each with what its `Kept` knew, so that
/// a generic holder can drop them without being asked how much memory a closure takes.
#[derive(Drop)]
pub struct Callbacks<T: Completes, S: Completes, W: Completes> {
    sent: T,
    sector: S,
    written: W,
}

impl<T: Completes, S: Completes, W: Completes> Model for Callbacks<T, S, W> {
    ghost use Rattle.event_callbacks.specs.Callbacks.{Closures};
    ghost use Rattle.event_callbacks.specs.Keeping.{Keeps};
    ghost use Rattle.event_callbacks.specs.declared.devices.TheConstants.{SENT, SECTOR, WRITTEN};

    ghost Value = { Closures T S W };

    ghost view = { λ c. record { sent = c.sent; sector = c.sector; written = c.written } };

    ghost invariant = { λ c. record {
      sent : Keeps (T.may c.sent) (T.gives c.sent) SENT;
      sector : Keeps (S.may c.sector) (S.gives c.sector) SECTOR;
      written : Keeps (W.may c.written) (W.gives c.written) WRITTEN;
    } };
}

impl<T: Completes, S: Completes, W: Completes> Callbacks<T, S, W> {
    /// The closures of one holder.
    pub fn new(sent: Kept<T, SENT>, sector: Kept<S, SECTOR>, written: Kept<W, WRITTEN>) -> Self
        ensures { result ≡ record { sent = sent; sector = sector; written = written } }
    {
        let Kept { closure: sent } = sent;
        let Kept { closure: sector } = sector;
        let Kept { closure: written } = written;
        Callbacks {
            sent,
            sector,
            written,
        }
    }

    /// These closures, each of which obeys the completion table for its kind.
    pub fn of(sent: T, sector: S, written: W) -> Self
        requires sent { Keeps (T.may sent) (T.gives sent) SENT }
        requires sector { Keeps (S.may sector) (S.gives sector) SECTOR }
        requires written { Keeps (W.may written) (W.gives written) WRITTEN }
        ensures { result ≡ record { sent = sent; sector = sector; written = written } }
    {
        let sent = Kept::<T, SENT>::new(sent);
        let sector = Kept::<S, SECTOR>::new(sector);
        let written = Kept::<W, WRITTEN>::new(written);
        Callbacks::new(sent, sector, written)
    }

    /// The devices after what is due: the stored closure of its kind completes it.
    pub fn fire(&self, devices: Devices, done: Done) -> Devices
        requires { IsTrue (is_due devices done) }
        ensures { result ≡ done_of devices done }
    {
        match done {
            Done::Sent(_) => self.sent.complete(devices, done),
            Done::Sector(_, _) => self.sector.complete(devices, done),
            Done::Written(_) => self.written.complete(devices, done),
        }
    }
}

//! The list of inputs that is kept with a node.
ghost use Rattle.std.specs.Prelude.{◌≡◌, [], ◌∷◌, ◌++◌, length, take, IfErr, IfOk, OnErr, OnOk};
ghost use Rattle.i8080_words.specs.declared.refusal.Fault.TheVariants.{OutOfMemory};
ghost use Rattle.guest_lockstep.specs.Reach.{timed};
ghost use Rattle.log_entry.specs.Entries.{timed_in, timed_of};

use guest_lockstep::{Bare, Input, Timed};
use i8080_words::R;
use log_entry::Entry;
use std::alloc::Global;
use std::marker::Model;

/// Timed inputs, in order. Their room is no part of their value, so a push that finds no room changes nothing.
#[derive(Drop)]
pub struct Inputs {
    list: Vec<Timed>,
}

impl Model for Inputs {
    ghost use Rattle.std.specs.Prelude.{List};
    ghost use Rattle.guest_lockstep.specs.declared.timed.Timed.{Timed};

    ghost Value = { List Timed };

    ghost view = { λ inputs. inputs.list.items };
}

impl Inputs {
    // No inputs yet.
    pub(crate) fn new(alloc: Global) -> Inputs
        ensures { result ≡ [] }
    {
        Inputs {
            list: Vec::new(alloc),
        }
    }

    // All of them.
    pub(crate) fn as_slice(&self) -> &[Timed]
        ensures { result.now ≡ self.now }
    {
        &self.list
    }

    // A copy of them.
    pub(crate) fn copy(&self, alloc: Global) -> R<Inputs>
        ensures ok { IfOk result (λ copy. copy ≡ self.now) }
        ensures full { IfErr result (λ fault. fault ≡ OutOfMemory) }
    {
        let mut list = Vec::with_capacity(alloc, self.list.len())?;
        list.extend_from_slice(&self.list)?;
        Ok(Inputs { list })
    }

    // How many there are.
    pub(crate) fn len(&self) -> usize
        ensures { result ≡ length self.now }
    {
        self.list.len()
    }

    // Appends an input that is taken at a count.
    pub(crate) fn push(&mut self, count: u64, input: &Input) -> R<()>
        ensures ok { OnOk result (self.new ≡ self.old ++ timed count input.now ∷ []) }
        ensures full { IfErr result (λ fault. fault ≡ OutOfMemory) }
        ensures unchanged { OnErr result (self.new ≡ self.old) }
    {
        let input = match *input {
            Input::Rx(port, byte) => Bare::Rx(port, byte),
            Input::Sent(port) => Bare::Sent(port),
            Input::Sector { drive, sector, .. } => Bare::Sector(drive, sector),
            Input::Written(number) => Bare::Written(number),
        };
        self.list.push(Timed { count, input })?;
        Ok(())
    }

    // Appends the input of an entry; a mark has none.
    pub(crate) fn hold(&mut self, entry: &Entry) -> R<()>
        ensures ok { OnOk result (self.new ≡ self.old ++ timed_in (timed_of entry.now)) }
        ensures full { IfErr result (λ fault. fault ≡ OutOfMemory) }
        ensures unchanged { OnErr result (self.new ≡ self.old) }
    {
        if let Some(timed) = entry.timed() {
            self.list.push(timed)?;
        }
        Ok(())
    }

    // Keeps at most the first `len` of them.
    pub(crate) fn truncate(&mut self, len: usize)
        ensures { self.new ≡ take len self.old }
    {
        self.list.truncate(len);
    }
}

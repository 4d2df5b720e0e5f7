//! A terminal.
ghost use Rattle.std.specs.Prelude.{◌≡◌, [], length, IsTrue, OnOk, OnErr, ok_or, slice_get};
ghost use Rattle.i8080_words.specs.declared.refusal.Fault.TheVariants.{OutOfMemory, Unknown};
ghost use Rattle.terminals.specs.Arrivals.{GoesOn, IsAccepted};
ghost use Rattle.terminals.specs.Screen as table;

use i8080_words::{Fault, R};
use std::alloc::Global;
use std::marker::Model;

/// A terminal at one port: what it accepted, what was typed at it, and how many of its keys it was told are kept.
#[derive(Drop)]
pub struct Terminal {
    accepted: Vec<u8>,
    typed: Vec<u8>,
    told: u64,
}

impl Model for Terminal {
    ghost use Rattle.terminals.specs.Screen.{Screen};

    ghost Value = { Screen };

    ghost view = { λ t. record { accepted = t.accepted.items; typed = t.typed.items; told = t.told } };
}

impl Terminal {
    /// A terminal at which nothing has arrived yet.
    #[tactic(auto, using(crate::proofs::Accepted::nothing_accepted))]
    pub fn new(alloc: Global) -> Terminal
        ensures blank { result ≡ table.blank }
        ensures accepted { IsAccepted [] result.accepted }
    {
        Terminal {
            accepted: Vec::new(alloc),
            typed: Vec::new(alloc),
            told: 0,
        }
    }

    /// A byte arrives. Returns whether it is accepted: bytes are numbered from 1, and each is accepted once, in its
    /// turn. `OutOfMemory` is returned only for a byte in its turn, and changes nothing.
    #[tactic(auto, using(crate::proofs::Accepted::takes_next, crate::proofs::Accepted::drops_others))]
    pub fn arrive(&mut self, number: u64, byte: u8) -> R<bool>
        ensures answer { OnOk result (result ≡ Ok (table.comes_next self.old number)) }
        ensures ok { OnOk result (self.new ≡ table.after_arrival self.old number byte) }
        ensures full { OnErr result ((result ≡ Err OutOfMemory) × IsTrue (table.comes_next self.old number)) }
        ensures err { OnErr result (self.new ≡ self.old) }
        ensures accepted { OnOk result (GoesOn self.old.accepted number byte self.new.accepted) }
    {
        if number == 0 || number - 1 != self.accepted.len() as u64 {
            return Ok(false);
        }
        self.accepted.push(byte)?;
        Ok(true)
    }

    /// The bytes accepted, in order.
    pub fn accepted(&self) -> &[u8]
        ensures { result.now ≡ self.now.accepted }
    {
        &self.accepted
    }

    /// A byte is typed and kept. Returns its index, from 0. `OutOfMemory` changes nothing.
    pub fn typed(&mut self, byte: u8) -> R<u64>
        ensures answer { OnOk result (result ≡ Ok (length self.old.typed)) }
        ensures ok { OnOk result (self.new ≡ table.after_key self.old byte) }
        ensures full { OnErr result (result ≡ Err OutOfMemory) }
        ensures err { OnErr result (self.new ≡ self.old) }
    {
        let index = self.typed.len() as u64;
        self.typed.push(byte)?;
        Ok(index)
    }

    /// The byte typed at an index. `Unknown` if none was typed there.
    pub fn key(&self, index: u64) -> R<u8>
        ensures { result ≡ ok_or (slice_get self.now.typed index) Unknown }
    {
        let key = self.typed.get(index as usize);
        key.copied().ok_or(Fault::Unknown)
    }

    /// The pair keeps this many keys of the terminal, counted from the first typed. A number below one told before
    /// changes nothing.
    pub fn tell(&mut self, keys: u64)
        ensures { self.new ≡ table.after_telling self.old keys }
    {
        self.told = self.told.max(keys);
    }

    /// The greatest number of keys that it was told; 0 if it was told none.
    pub fn told(&self) -> u64
        ensures { result ≡ self.now.told }
    {
        self.told
    }
}

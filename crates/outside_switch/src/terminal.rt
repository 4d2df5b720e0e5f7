//! A terminal of which only what is still needed is kept.
ghost use Rattle.std.specs.Prelude.{◌≡◌, IsOkUnless, IfOk, ok_or};
ghost use Rattle.i8080_words.specs.declared.refusal.Fault.TheVariants.{OutOfMemory, Unknown};
ghost use Rattle.outside_switch.specs.Terminal as table;

use circular_buffer::HeapCircularBuffer;
use i8080_words::{Fault, GREATEST_NUMBER, R};
use std::alloc::Global;
use std::marker::Model;

/// The most keys of a terminal that are kept, since no host has covered them.
pub const KEYS: usize = 4096;

/// A terminal at one port: how many bytes it has accepted, the keys typed at it that are still kept, and how many of its
/// keys it was told are covered. A key that is covered is forgotten, so its memory is bounded.
#[derive(Drop)]
pub struct BoundedTerminal {
    accepted: u64,
    first: u64,
    keys: HeapCircularBuffer<u8>,
    told: u64,
}

impl Model for BoundedTerminal {
    ghost use Rattle.outside_switch.specs.Terminal.{KeptTerminal};

    ghost Value = { KeptTerminal };

    ghost use Rattle.outside_switch.specs.Ring.{IsRing, kept_in};

    ghost view = { kept_in };

    ghost invariant = { IsRing };
}

impl BoundedTerminal {
    /// A terminal at which nothing has happened yet. Allocates all the memory that it will ever need.
    pub fn new(alloc: Global) -> R<BoundedTerminal>
        ensures ok { IfOk result (λ terminal. terminal ≡ table.blank) }
        ensures only_memory { IsOkUnless result OutOfMemory }
    {
        let keys = HeapCircularBuffer::with_capacity(alloc, KEYS)?;
        Ok(BoundedTerminal {
            accepted: 0,
            first: 0,
            keys,
            told: 0,
        })
    }

    /// A byte arrives. Returns whether it is accepted: bytes are numbered from 1, and each is accepted once, in its
    /// turn.
    pub fn arrive(&mut self, number: u64) -> bool
        ensures answer { result ≡ table.comes_next self.old number }
        ensures after { self.new ≡ table.after_arrival self.old number }
    {
        if number == 0 || number - 1 != self.accepted {
            return false;
        }
        self.accepted = number;
        true
    }

    /// How many bytes it has accepted.
    pub fn accepted(&self) -> u64
        ensures { result ≡ self.now.accepted }
    {
        self.accepted
    }

    // Whether one more key can be kept.
    fn room(&self) -> R<u64>
        ensures { result ≡ table.typing_answer self.now }
    {
        if self.keys.len() == KEYS {
            return Err(Fault::NotCovered);
        }
        let index = self.first + self.keys.len() as u64;
        if index == GREATEST_NUMBER {
            return Err(Fault::Spent);
        }
        Ok(index)
    }

    /// A byte is typed and kept. Returns its index, from 0. `NotCovered` if `KEYS` keys are kept that no host has
    /// covered; otherwise `Spent` if its index would be `GREATEST_NUMBER`.
    pub fn typed(&mut self, byte: u8) -> R<u64>
        ensures answer { result ≡ table.typing_answer self.old }
        ensures after { self.new ≡ table.after_typing self.old byte }
    {
        let index = self.room()?;
        match self.keys.try_push_back(byte) {
            Ok(()) => Ok(index),
            Err(_) => unreachable!(),
        }
    }

    /// The byte typed at an index. `Unknown` if none was typed there, or if it is forgotten.
    pub fn key(&self, index: u64) -> R<u8>
        ensures { result ≡ ok_or (table.key_of self.now index) Unknown }
    {
        if index < self.first {
            return Err(Fault::Unknown);
        }
        let key = self.keys.get((index - self.first) as usize);
        key.copied().ok_or(Fault::Unknown)
    }

    /// A host keeps this many keys of the terminal, counted from the first typed: they are forgotten. A number below one
    /// told before changes nothing.
    pub fn tell(&mut self, keys: u64)
        ensures { self.new ≡ table.after_telling self.old keys }
    {
        let covered = keys.saturating_sub(self.first);
        let count = covered.min(self.keys.len() as u64) as usize;
        self.keys.truncate_front(self.keys.len() - count);
        self.first += count as u64;
        self.told = self.told.max(keys);
    }
}

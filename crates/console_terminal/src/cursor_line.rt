//! A line with a cursor.
ghost use Rattle.std.specs.Prelude.{◌≡◌, ◌≤◌, ◌+◌, ◌-◌, ◌++◌, drop, length, take};
ghost use Rattle.console_terminal.specs.Editing.{added, added_all, completed, deleted, ending_in, first_size, last_size, lists, no_bytes, taken_back, to_begin, to_end, to_left, to_right, without_front, without_rest};

use crate::character::{first_size, last_size};
use crate::completing::{completion, is_open_still};
use arrayvec::ArrayVec;
use std::marker::Model;

/// How many bytes a command line has at most.
pub const MOST_BYTES: usize = 80;

/// The bytes of a line, and where the cursor is in it.
#[derive(Drop)]
pub struct CursorLine {
    bytes: ArrayVec<u8, MOST_BYTES>,
    at: usize,
}

impl Model for CursorLine {
    ghost use Rattle.std.specs.Prelude.{◌≤◌, length};
    ghost use Rattle.console_terminal.specs.Editing.{CursorLine as Line};

    ghost Value = { Line };

    ghost view = { λ l. record { bytes = l.bytes.items; at = l.at } };

    ghost invariant = { λ l. l.at ≤ length l.bytes.items };
}

impl CursorLine {
    /// A line with no bytes.
    pub(crate) fn new() -> CursorLine
        ensures { result ≡ no_bytes }
    {
        CursorLine {
            bytes: ArrayVec::new(),
            at: 0,
        }
    }

    /// One like it.
    pub(crate) fn copy(&self) -> CursorLine
        ensures { result ≡ self.now }
    {
        CursorLine {
            bytes: copied(self.bytes.as_slice()),
            at: self.at,
        }
    }

    /// Its bytes.
    pub(crate) fn bytes(&self) -> &[u8]
        ensures bytes { result.now ≡ self.now.bytes }
        ensures within { self.now.at ≤ length self.now.bytes }
        ensures fits { length self.now.bytes ≤ MOST_BYTES }
    {
        self.bytes.as_slice()
    }

    /// Where the cursor is.
    pub(crate) fn at(&self) -> usize
        ensures { result ≡ self.now.at }
    {
        self.at
    }

    pub(crate) fn add(&mut self, byte: u8)
        ensures { self.new ≡ added byte self.old }
    {
        if self.bytes.len() < MOST_BYTES {
            self.bytes.insert(self.at, byte);
            self.at += 1;
        }
    }

    pub(crate) fn take_back(&mut self)
        ensures { self.new ≡ taken_back self.old }
    {
        let begin = left_of(self.bytes.as_slice(), self.at);
        self.bytes = without(self.bytes.as_slice(), begin, self.at);
        self.at = begin;
    }

    pub(crate) fn delete(&mut self)
        ensures { self.new ≡ deleted self.old }
    {
        let end = right_of(self.bytes.as_slice(), self.at);
        self.bytes = without(self.bytes.as_slice(), self.at, end);
    }

    pub(crate) fn go_left(&mut self)
        ensures { self.new ≡ to_left self.old }
    {
        self.at = left_of(self.bytes.as_slice(), self.at);
    }

    pub(crate) fn go_right(&mut self)
        ensures { self.new ≡ to_right self.old }
    {
        self.at = right_of(self.bytes.as_slice(), self.at);
    }

    pub(crate) fn go_to_begin(&mut self)
        ensures { self.new ≡ to_begin self.old }
    {
        self.at = 0;
    }

    pub(crate) fn go_to_end(&mut self)
        ensures { self.new ≡ to_end self.old }
    {
        self.at = self.bytes.len();
    }

    pub(crate) fn cut_front(&mut self)
        ensures { self.new ≡ without_front self.old }
    {
        let (_, rest) = self.bytes.as_slice().split_at(self.at);
        self.bytes = copied(rest);
        self.at = 0;
    }

    pub(crate) fn cut_rest(&mut self)
        ensures { self.new ≡ without_rest self.old }
    {
        self.bytes.truncate(self.at);
    }

    /// At its end it is continued by what the commands have in common that begin as it does, and by a space after the only one.
    pub(crate) fn complete(&mut self)
        ensures { self.new ≡ completed self.old }
    {
        if self.at < self.bytes.len() {
            return;
        }
        let (count, tail) = completion(self.bytes.as_slice());
        self.add_all(tail);
        if count == 1 {
            self.add(b' ');
        }
    }

    // Adds these bytes, one after another.
    fn add_all(&mut self, bytes: &[u8])
        ensures { self.new ≡ added_all bytes.now self.old }
    {
        let mut rest = bytes;
        'bytes: while let [byte, after @ ..] = rest {
            self.add(*byte);
            rest = after;
        }
    }

    /// Whether the cursor is at its end, and several commands begin as it does and have nothing in common after that.
    pub(crate) fn lists(&self) -> bool
        ensures { result ≡ lists self.now }
    {
        self.at >= self.bytes.len() && is_open_still(self.bytes.as_slice())
    }

    /// Puts these bytes in place of its own, and the cursor after them.
    pub(crate) fn replace(&mut self, bytes: &[u8])
        requires { length bytes.now ≤ MOST_BYTES }
        ensures { self.new ≡ ending_in bytes.now }
    {
        self.bytes = copied(bytes);
        self.at = self.bytes.len();
    }
}

// Where the character before a place begins.
fn left_of(bytes: &[u8], at: usize) -> usize
    requires { at ≤ length bytes.now }
    ensures place { result ≡ at - last_size (take at bytes.now) }
    ensures within { result ≤ at }
{
    let (front, _) = bytes.split_at(at);
    at - last_size(front)
}

// Where the character at a place ends.
fn right_of(bytes: &[u8], at: usize) -> usize
    requires { at ≤ length bytes.now }
    ensures place { result ≡ at + first_size (drop at bytes.now) }
    ensures within { result ≤ length bytes.now }
    ensures after { at ≤ result }
{
    let (_, rest) = bytes.split_at(at);
    at + first_size(rest)
}

// Bytes without those between two places.
fn without(bytes: &[u8], begin: usize, end: usize) -> ArrayVec<u8, MOST_BYTES>
    requires { (length bytes.now ≤ MOST_BYTES) × (begin ≤ end) × (end ≤ length bytes.now) }
    ensures { result.items ≡ take begin bytes.now ++ drop end bytes.now }
{
    let (front, _) = bytes.split_at(begin);
    let (_, rest) = bytes.split_at(end);
    let mut left = copied(front);
    let _ = left.try_extend_from_slice(rest);
    left
}

// These bytes in a place of their own.
pub(crate) fn copied(bytes: &[u8]) -> ArrayVec<u8, MOST_BYTES>
    requires { length bytes.now ≤ MOST_BYTES }
    ensures { result.items ≡ bytes.now }
{
    let mut copy = ArrayVec::new();
    let _ = copy.try_extend_from_slice(bytes);
    copy
}

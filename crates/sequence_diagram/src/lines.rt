//! The lines of a diagram, from top to bottom.
ghost use Rattle.std.specs.Prelude.{◌≡◌, ◌++◌, ◌<◌, ◌≤◌, IfOk, IsTrue, length, replicate};
ghost use Rattle.sequence_diagram.specs.Lines.{AreLines, begins, comes_at_once, ends, is_among_keys, is_same, line_at, line_length, passes};

use crate::moment::Moment;
use crate::runs::{key_of, run_length};
use std::alloc::{AllocError, Global};

/// The line of each event of a run, from 0, and how many lines there are.
#[derive(Drop)]
pub struct EventLines {
    pub of: Vec<usize>,
    pub count: usize,
}

impl EventLines {
    /// The line of an event, by its place in the run.
    pub fn line(&self, place: usize) -> usize
        ensures { result ≡ line_at self.now.of.items place }
    {
        match self.of.get(place) {
            Some(line) => *line,
            None => 0,
        }
    }

    /// Whether an event is the first on its line; so is what comes after all events.
    pub fn begins(&self, place: usize) -> bool
        ensures { result ≡ begins self.now.of.items place }
    {
        let of = self.of.as_slice();
        place == 0 || of.len() <= place || self.line(place - 1) != self.line(place)
    }

    /// Whether an event has typed or taken a key, and shares its line with others that have.
    pub fn is_among_keys(&self, moments: &[Moment], place: usize) -> bool
        ensures { result ≡ is_among_keys self.now.of.items moments.now place }
    {
        let Some(moment) = moments.get(place) else {
            return false;
        };
        key_of(moment).is_some() && !(self.begins(place) && self.ends(place))
    }

    // Whether an event is the last on its line.
    fn ends(&self, place: usize) -> bool
        ensures { result ≡ ends self.now.of.items place }
    {
        let of = self.of.as_slice();
        of.len() <= place || self.begins(place + 1)
    }
}

/// Each event has a line of its own, with these exceptions: consecutive parts of a copy share one line; so do many events with which keys
/// of one terminal are typed and taken one after another; and so does a message that arrives right after it was sent, unless it is
/// answered there.
pub fn lines_of(alloc: Global, moments: &[Moment]) -> Result<EventLines, AllocError>
    ensures { IfOk result (λ lines. AreLines 0 moments.now lines.of.items lines.count) }
{
    let mut of = Vec::new(alloc);
    let mut count = 0usize;
    let mut rest = moments;
    'lines: while !rest.is_empty() {
        let events = line_length(rest);
        add_line(&mut of, count, events)?;
        count += 1;
        let (_, after) = rest.split_at(events);
        rest = after;
    }
    Ok(EventLines { of, count })
}

// Adds the line of so many events.
fn add_line(of: &mut Vec<usize>, line: usize, events: usize) -> Result<(), AllocError>
    ensures { IfOk result (λ _. of.new.items ≡ of.old.items ++ replicate events line) }
{
    for event in 0..events {
        of.push(line)?;
    }
    Ok(())
}

// How many of some events share the line which the first of them begins.
fn line_length(moments: &[Moment]) -> usize
    ensures exact { result ≡ line_length moments.now }
    ensures some { 0 < length moments.now → 0 < result }
    ensures within { result ≤ length moments.now }
{
    let run = run_length(moments);
    if run == 1 && comes_at_once(moments) {
        return 2;
    }
    run
}

// Whether the message that the first event sent is brought by the next one.
fn comes_at_once(moments: &[Moment]) -> bool
    ensures exact { result ≡ comes_at_once moments.now }
    ensures two { IsTrue result → 2 ≤ length moments.now }
{
    match moments {
        [first, second, ..] => passes(first, second),
        _ => false,
    }
}

// Whether an event brings the message that another sent. Neither brings or sends another.
fn passes(first: &Moment, second: &Moment) -> bool
    ensures { result ≡ passes first.now second.now }
{
    is_same(first.sends(), second.brings()) && first.brings().is_none() && second.sends().is_none()
}

// Whether these are the same message.
fn is_same(sent: Option<u64>, brought: Option<u64>) -> bool
    ensures { result ≡ is_same sent brought }
{
    match (sent, brought) {
        (Some(sent), Some(brought)) => sent == brought,
        _ => false,
    }
}

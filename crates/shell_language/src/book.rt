//! What the shell has noted of a pair: the messages that were sent, and how far the node that runs the guest has come.
ghost use Rattle.std.specs.Prelude.{◌≡◌, ◌-◌, ◌<◌, IfErr, IfOk, length, slice_get, vec_capacity, vec_len};
ghost use Rattle.shell_language.specs.Noting.{brought};
ghost use Rattle.shell_language.specs.Notes.{IsBlank, all_settled, notes_of, progress, put_at, restarted, restarted_at, settled, waiting_in, without, writes_up_to};

use event_callbacks::PORTS;
use guest_lockstep::{Bare, Timed};
use std::alloc::{AllocError, Global};

/// What a message brings.
#[derive(Clone, Copy)]
pub enum Brings {
    Entry,
    Acknowledgement,
    Part,
    Byte { port: u8 },
    Write,
    Written { number: u64 },
    Sector,
}

/// A message that was sent, and whether it has reached anyone.
#[derive(Clone, Copy)]
pub struct Letter {
    pub brings: Brings,
    pub has_arrived: bool,
}

/// How far a port has come: keys typed at its terminal, keys that the guest has taken and that the terminal was told
/// are covered; bytes that the guest has sent, that the terminal has accepted and that the guest heard of.
#[derive(Clone, Copy)]
pub struct PortNotes {
    pub typed: u64,
    pub taken: u64,
    pub covered: u64,
    pub sent: u64,
    pub accepted: u64,
    pub heard: u64,
}

// Nothing has come of a port yet.
const BLANK: PortNotes = PortNotes {
    typed: 0,
    taken: 0,
    covered: 0,
    sent: 0,
    accepted: 0,
    heard: 0,
};

/// Output that the guest has given and that is still out.
#[derive(Clone, Copy)]
pub struct OutstandingOutput {
    pub bytes: u64,
    pub writes: u64,
}

/// What was noted of the events of a session.
#[derive(Drop)]
pub struct Book {
    /// All messages, by number.
    pub letters: Vec<Letter>,
    pub ports: [PortNotes; PORTS],
    /// How many entries the primary has logged, sent and had acknowledged.
    pub logged: u64,
    pub posted: u64,
    pub held: u64,
    /// How many parts of its image it has sent.
    pub parts: u64,
    /// Whether the guest has made a step.
    pub has_run: bool,
    /// The number of the guest's last write, and the writes that it has not heard of.
    pub writes: u64,
    pub undone: Vec<u64>,
}

impl Book {
    /// Nothing was noted yet.
    pub fn new(alloc: Global) -> Book
        ensures { IsBlank result }
    {
        Book {
            letters: Vec::new(alloc),
            ports: [BLANK; PORTS],
            logged: 0,
            posted: 0,
            held: 0,
            parts: 0,
            has_run: false,
            writes: 0,
            undone: Vec::new(alloc),
        }
    }

    /// Makes room for what one event may bring.
    pub fn make_room(&mut self) -> Result<(), AllocError>
        ensures letters { IfOk result (λ _. vec_len self.new.letters < vec_capacity self.new.letters) }
        ensures undone { IfOk result (λ _. vec_len self.new.undone < vec_capacity self.new.undone) }
        ensures same { (self.new.letters.items ≡ self.old.letters.items) × (progress self.new ≡ progress self.old) }
    {
        self.letters.reserve(1)?;
        self.undone.reserve(1)
    }

    /// How many messages were sent.
    pub fn messages(&self) -> u64
        ensures { result ≡ length self.now.letters.items }
    {
        self.letters.len() as u64
    }

    /// What a message brings.
    pub fn letter(&self, message: u64) -> Option<Letter>
        ensures { result ≡ slice_get self.now.letters.items message }
    {
        self.letters.get(message as usize).copied()
    }

    // What it brings, without the rest.
    pub(crate) fn brought(&self, message: u64) -> Option<Brings>
        ensures { result ≡ brought self.now.letters.items message }
    {
        match self.letters.get(message as usize) {
            Some(letter) => Some(letter.brings),
            None => None,
        }
    }

    /// What is known of a port; nothing of one that is not there.
    pub fn port(&self, port: u8) -> PortNotes
        ensures { result ≡ notes_of self.now.ports port }
    {
        self.ports.get(usize::from(port)).copied().unwrap_or(BLANK)
    }

    /// The bytes that no terminal has accepted, and the writes that the guest has not heard of.
    pub fn waiting(&self) -> OutstandingOutput
        ensures { result ≡ waiting_in self.now }
    {
        let first = bytes_out(self.port(0));
        let second = bytes_out(self.port(1));
        OutstandingOutput {
            bytes: first.saturating_add(second),
            writes: self.undone.len() as u64,
        }
    }

    // What is known of a port from now on; nothing changes at one that is not there.
    pub(crate) fn put(&mut self, port: u8, notes: PortNotes)
        ensures { self.new ≡ record self.old { ports = put_at self.old.ports port notes } }
    {
        match port {
            0 => self.ports[0] = notes,
            1 => self.ports[1] = notes,
            _ => {}
        }
    }

    /// Begins again from what is settled, for a node that has won: which keys its guest has taken, and what it has heard
    /// of the bytes and the writes that were given before.
    pub fn begin_again(&mut self, alloc: Global, inputs: &[Timed]) -> Result<(), AllocError>
        ensures letters { self.new.letters ≡ self.old.letters }
        ensures progress { IfOk result (λ _. progress self.new ≡ all_settled inputs.now (restarted (progress self.old))) }
        ensures refused { IfErr result (λ _. self.new ≡ self.old) }
    {
        self.undone = writes_up_to(alloc, self.writes)?;
        self.restart(0);
        self.restart(1);
        self.settle(inputs);
        Ok(())
    }

    // What settled inputs say, one after another.
    fn settle(&mut self, inputs: &[Timed])
        ensures progress { progress self.new ≡ all_settled inputs.now (progress self.old) }
        ensures letters { self.new.letters ≡ self.old.letters }
    {
        for timed in inputs {
            self.note_input(timed.input);
        }
    }

    // No key of a port was taken yet, and no byte accepted.
    fn restart(&mut self, port: u8)
        ensures progress { progress self.new ≡ restarted_at port (progress self.old) }
        ensures letters { self.new.letters ≡ self.old.letters }
    {
        let notes = self.port(port);
        self.put(
            port,
            PortNotes {
                taken: 0,
                heard: 0,
                ..notes
            },
        );
    }

    // What a settled input says: a key that was taken, a byte that was accepted, a write that is done.
    fn note_input(&mut self, input: Bare)
        ensures progress { progress self.new ≡ settled input (progress self.old) }
        ensures letters { self.new.letters ≡ self.old.letters }
    {
        match input {
            Bare::Rx(port, _) => {
                let notes = self.port(port);
                let taken = notes.taken.saturating_add(1);
                self.put(port, PortNotes { taken, ..notes });
            }
            Bare::Sent(port) => {
                let notes = self.port(port);
                let heard = notes.heard.saturating_add(1);
                self.put(port, PortNotes { heard, ..notes });
            }
            Bare::Written(number) => forget_write(&mut self.undone, number),
            Bare::Sector(..) => {}
        }
    }
}

// The numbers of all writes up to one.
#[tactic(auto, using(crate::proofs::Settling::one_write_more))]
fn writes_up_to(alloc: Global, last: u64) -> Result<Vec<u64>, AllocError>
    ensures { IfOk result (λ numbers. numbers.items ≡ writes_up_to last) }
{
    let mut numbers = Vec::new(alloc);
    for number in 0..last {
        numbers.push(number + 1)?;
    }
    Ok(numbers)
}

// How many bytes of a port its terminal has not accepted.
fn bytes_out(notes: PortNotes) -> u64
    ensures { result ≡ notes.sent - notes.accepted }
{
    notes.sent.saturating_sub(notes.accepted)
}

// A write is not among those that the guest has not heard of.
pub(crate) fn forget_write(undone: &mut Vec<u64>, number: u64)
    ensures { undone.new.items ≡ without undone.old.items number }
{
    undone.retain(|write| *write != number);
}

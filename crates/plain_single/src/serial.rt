//! One serial port of the MITS 88-2SIO: a Motorola MC6850 with a window of sent bytes, the output of its terminal, and
//! the keys taken from it.
ghost use Rattle.std.specs.Prelude.{◌≡◌, ◌<◌, nat_lt, IfOk, IfErr, OnOk};
ghost use Rattle.disk_dcdd.specs.Completion.{answered};
ghost use Rattle.serial_2sio.specs.Port as table;
ghost use Rattle.i8080_words.specs.declared.limits.TheConstants.{GREATEST_NUMBER};
ghost use Rattle.plain_single.specs.Serial.{port_of, line_of, line_at_boot, with_port, after_send, after_key, due_unless};
ghost use Rattle.i8080_words.specs.declared.refusal.Fault.TheVariants.{OutOfMemory};

use i8080_words::{Fault, GREATEST_NUMBER, R};
use std::alloc::Global;

// How many sent bytes may be unaccepted.
const WINDOW: u8 = 16;

/// Whether a byte waits to be read, whether later ones were lost, and whether the overrun shows yet (MC6850 data sheet,
/// "Receiver Overrun").
#[derive(Clone, Copy)]
pub(crate) enum Receiver {
    Empty,
    Full,
    FullLost,
    Over,
}

/// A port with what has gone through it: its registers, how many sent bytes are not accepted, all bytes that it sent,
/// and how many keys arrived.
#[derive(Drop)]
pub(crate) struct SerialLine {
    pub(crate) control: u8,
    pub(crate) received: u8,
    pub(crate) receiver: Receiver,
    pub(crate) unaccepted: u8,
    pub(crate) output: Vec<u8>,
    pub(crate) keys: u64,
}

impl SerialLine {
    /// A port at boot.
    pub(crate) fn new(alloc: Global) -> Self
        ensures { line_of result ≡ line_at_boot }
    {
        SerialLine {
            control: 0x15,
            received: 0x00,
            receiver: Receiver::Empty,
            unaccepted: 0,
            output: Vec::new(alloc),
            keys: 0,
        }
    }

    /// A copy of the port.
    pub(crate) fn copy(&self, alloc: Global) -> R<Self>
        ensures ok { IfOk result (λ line. line_of line ≡ line_of self.now) }
        ensures only_memory { IfErr result (λ fault. fault ≡ OutOfMemory) }
    {
        let output = Vec::from_slice(alloc, &self.output)?;
        Ok(SerialLine {
            control: self.control,
            received: self.received,
            receiver: self.receiver,
            unaccepted: self.unaccepted,
            output,
            keys: self.keys,
        })
    }

    // Whether a byte waits to be read.
    fn is_full(&self) -> bool
        ensures { result ≡ table.is_full (port_of self.now).receiver }
    {
        match self.receiver {
            Receiver::Empty => false,
            Receiver::Full | Receiver::FullLost | Receiver::Over => true,
        }
    }

    // Whether an overrun shows.
    fn is_overrun(&self) -> bool
        ensures { result ≡ table.is_overrun (port_of self.now).receiver }
    {
        match self.receiver {
            Receiver::Over => true,
            Receiver::Empty | Receiver::Full | Receiver::FullLost => false,
        }
    }

    // Whether the window has room for one more byte.
    fn is_ready(&self) -> bool
        ensures { result ≡ table.is_ready (port_of self.now) }
    {
        self.unaccepted < WINDOW
    }

    /// Whether the port asks for an interrupt.
    pub(crate) fn asks(&self) -> bool
        ensures { result ≡ table.line_of (port_of self.now) }
    {
        let control = self.control;
        enables_receive(control) && self.is_full() || enables_transmit(control) && self.is_ready()
    }

    /// IN of the status register.
    pub(crate) fn status(&self) -> u8
        ensures { result ≡ table.status_of (port_of self.now) }
    {
        let full = status_bit(self.is_full(), 0);
        let ready = status_bit(self.is_ready(), 1);
        let overrun = status_bit(self.is_overrun(), 5);
        let asks = status_bit(self.asks(), 7);
        full | ready | overrun | asks
    }

    /// OUT of the control register.
    pub(crate) fn control(&mut self, byte: u8)
        ensures { line_of self.new ≡ with_port (line_of self.old) (table.after_control (port_of self.old) byte) }
    {
        self.control = byte;
        if resets(byte) {
            self.receiver = Receiver::Empty;
        }
    }

    /// IN of the data register.
    pub(crate) fn read(&mut self) -> u8
        ensures byte { result ≡ table.data_in_answer (port_of self.old) }
        ensures after { line_of self.new ≡ with_port (line_of self.old) (table.after_data_in (port_of self.old)) }
    {
        self.receiver = match self.receiver {
            Receiver::FullLost => Receiver::Over,
            Receiver::Empty | Receiver::Full | Receiver::Over => Receiver::Empty,
        };
        self.received
    }

    /// OUT of the data register: the byte goes to the terminal in the port's format, or is lost if the window is full.
    pub(crate) fn send(&mut self, byte: u8) -> R<()>
        ensures ok { IfOk result (λ _. line_of self.new ≡ after_send (line_of self.old) byte) }
        ensures only_memory { IfErr result (λ fault. fault ≡ OutOfMemory) }
    {
        if self.is_ready() {
            self.output.push(in_format(self.control, byte))?;
            self.unaccepted += 1;
        }
        Ok(())
    }

    /// A key arrives. `NotDue` if no more of them can be counted.
    pub(crate) fn receive(&mut self, byte: u8) -> R<()>
        ensures answer { result ≡ answered (due_unless (nat_lt self.old.keys GREATEST_NUMBER)) }
        ensures after { OnOk result (line_of self.new ≡ after_key (line_of self.old) byte) }
    {
        if self.keys >= GREATEST_NUMBER {
            return Err(Fault::NotDue);
        }
        self.keys += 1;
        match self.receiver {
            Receiver::Empty => {
                self.received = in_format(self.control, byte);
                self.receiver = Receiver::Full;
            }
            Receiver::Full => self.receiver = Receiver::FullLost,
            Receiver::FullLost | Receiver::Over => {}
        }
        Ok(())
    }

    /// The terminal has accepted a byte. `NotDue` if none is unaccepted.
    pub(crate) fn accept(&mut self) -> R<()>
        ensures answer { result ≡ answered (due_unless (table.is_sent_due (port_of self.old))) }
        ensures after { OnOk result (line_of self.new
            ≡ with_port (line_of self.old) (table.after_sent (port_of self.old))) }
    {
        if self.unaccepted == 0 {
            return Err(Fault::NotDue);
        }
        self.unaccepted -= 1;
        Ok(())
    }
}

// A bit of the status register.
fn status_bit(holds: bool, place: u8) -> u8
    requires { place < 8 }
    ensures { result ≡ table.bit place holds }
{
    if holds { 1 << place } else { 0 }
}

fn resets(control: u8) -> bool
    ensures { result ≡ table.is_master_reset control }
{
    control & 3 == 3
}

fn enables_transmit(control: u8) -> bool
    ensures { result ≡ table.has_transmit_interrupt control }
{
    control >> 5 & 3 == 1
}

fn enables_receive(control: u8) -> bool
    ensures { result ≡ table.has_receive_interrupt control }
{
    control >> 7 == 1
}

// A byte in the format of a control byte; the first four formats have seven data bits.
fn in_format(control: u8, byte: u8) -> u8
    ensures { result ≡ table.word_of control byte }
{
    if control >> 2 & 7 < 4 {
        byte & 0x7f
    } else {
        byte
    }
}

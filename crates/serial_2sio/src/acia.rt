//! The asynchronous communications interface adapter of one port, as the processor and the terminal see it.

ghost use Rattle.std.specs.Prelude.{◌≡◌, ◌≤◌, if◌then◌else◌};
ghost use Rattle.serial_2sio.specs.Port as table;

use i8080_words::{Fault, R};
use std::marker::Model;

/// How many sent bytes may be unaccepted at once.
pub const WINDOW: u8 = 16;

// The status bits (MC6850 data sheet, "Status Register").
const RDRF: u8 = 0x01;

const TDRE: u8 = 0x02;

const OVRN: u8 = 0x20;

const IRQ: u8 = 0x80;

// Below this, a control byte enables no interrupt: its bits 7 to 5 are 0.
const ENABLES: u8 = 0x20;

/// The receiver, and how the status register shows it (MC6850 data sheet, "Receiver Overrun").
#[derive(Clone, Copy, PartialEq, Eq)]
pub enum Receiver {
    /// No byte waits to be read: RDRF and OVRN are 0.
    Empty,
    /// A byte waits to be read: RDRF is 1, OVRN is 0.
    Full,
    /// A byte waits to be read, and later ones were lost: RDRF is 1, OVRN is still 0.
    FullLost,
    /// The byte before the lost ones was read: RDRF and OVRN are 1.
    Over,
}

/// One port: its control register, its receiver, and the bytes that it has sent and the terminal has not accepted.
#[derive(Clone, Copy)]
pub struct Acia {
    control: u8,
    receive_data: u8,
    receiver: Receiver,
    unaccepted: u8,
}

impl Model for Acia {
    ghost use Rattle.serial_2sio.specs.Port.{Port};

    ghost Value = { Port };

    ghost use Rattle.serial_2sio.specs.Acia.{port_of, acia_of, HoldsPort};

    ghost view = { port_of };

    ghost invariant = { HoldsPort };

    ghost inverse = { acia_of };
}

impl Acia {
    /// A port at boot: format 8N1, interrupts disabled, nothing received and nothing sent.
    pub fn new() -> Self
        ensures { result ≡ table.at_boot }
    {
        Acia {
            control: 0x15,
            receive_data: 0x00,
            receiver: Receiver::Empty,
            unaccepted: 0,
        }
    }

    /// A port in the state that the four readers below show. `Malformed` if more bytes are unaccepted than fit the
    /// window.
    pub fn rebuild(
        control_register: u8,
        data_register: u8,
        receiver: Receiver,
        unaccepted: u8,
    ) -> R<Acia>
        ensures { result ≡ table.rebuild_answer control_register data_register receiver unaccepted }
    {
        if unaccepted > WINDOW {
            return Err(Fault::Malformed);
        }
        Ok(Acia {
            control: control_register,
            receive_data: data_register,
            receiver,
            unaccepted,
        })
    }

    /// The byte that was last written to the control register.
    pub fn control_register(&self) -> u8
        ensures { result ≡ self.now.control }
    {
        self.control
    }

    /// The byte that a data read would return; the read itself is `data_in`.
    pub fn data_register(&self) -> u8
        ensures { result ≡ self.now.receive_data }
    {
        self.receive_data
    }

    /// The receiver.
    pub fn receiver(&self) -> Receiver
        ensures { result ≡ self.now.receiver }
    {
        self.receiver
    }

    /// How many sent bytes the terminal has not accepted, from 0 to `WINDOW`.
    pub fn unaccepted(&self) -> u8
        ensures value { result ≡ self.now.unaccepted }
        ensures within { result ≤ WINDOW }
    {
        self.unaccepted
    }

    /// Whether a data write would send a byte: status bit TDRE.
    pub fn is_ready(&self) -> bool
        ensures { result ≡ table.is_ready self.now }
    {
        self.unaccepted < WINDOW
    }

    /// Whether the port asks for an interrupt: its interrupt line, and status bit IRQ.
    pub fn line(&self) -> bool
        ensures { result ≡ table.line_of self.now }
    {
        if self.control < ENABLES {
            return false;
        }
        let receive = has_receive_interrupt(self.control) && self.receiver != Receiver::Empty;
        let transmit = has_transmit_interrupt(self.control) && self.is_ready();
        receive || transmit
    }

    /// A read of the status register (MC6850 data sheet, "Status Register"). It changes nothing.
    pub fn status(&self) -> u8
        ensures { result ≡ table.status_of self.now }
    {
        bit(RDRF, self.receiver != Receiver::Empty)
            + bit(TDRE, self.is_ready())
            + bit(OVRN, self.receiver == Receiver::Over)
            + bit(IRQ, self.line())
    }

    /// A write of the control register (MC6850 data sheet, "Control Register"). A port in reset works as usual.
    pub fn control(&mut self, byte: u8)
        ensures { self.new ≡ table.after_control self.old byte }
    {
        self.control = byte;
        if is_master_reset(byte) {
            self.receiver = Receiver::Empty;
        }
    }

    /// A read of the data register. If no byte waits, it returns the last one again.
    pub fn data_in(&mut self) -> u8
        ensures answer { result ≡ table.data_in_answer self.old }
        ensures after { self.new ≡ table.after_data_in self.old }
    {
        self.receiver = match self.receiver {
            Receiver::FullLost => Receiver::Over,
            _ => Receiver::Empty,
        };
        self.receive_data
    }

    /// A write of the data register: the byte that goes out to the terminal, or `None` if the byte is lost.
    pub fn data_out(&mut self, byte: u8) -> Option<u8>
        ensures answer { result ≡ table.data_out_answer self.old byte }
        ensures after { self.new ≡ table.after_data_out self.old }
    {
        if !self.is_ready() {
            return None;
        }
        self.unaccepted += 1;
        Some(word(self.control, byte))
    }

    /// A byte arrives from the terminal. A receiver that is not empty loses it.
    pub fn receive(&mut self, byte: u8)
        ensures { self.new ≡ table.after_receive self.old byte }
    {
        match self.receiver {
            Receiver::Empty => {
                self.receive_data = word(self.control, byte);
                self.receiver = Receiver::Full;
            }
            Receiver::Full => self.receiver = Receiver::FullLost,
            Receiver::FullLost | Receiver::Over => {}
        }
    }

    /// The terminal has accepted one of the bytes that were sent. `NotDue` if it had already accepted them all.
    pub fn sent(&mut self) -> R<()>
        ensures answer { result ≡ table.sent_answer self.old }
        ensures after { self.new ≡ table.after_sent self.old }
    {
        if self.unaccepted == 0 {
            return Err(Fault::NotDue);
        }
        self.unaccepted -= 1;
        Ok(())
    }
}

// A byte with this bit alone if the test holds, otherwise 0. A host computes it without a branch.
fn bit(mask: u8, test: bool) -> u8
    ensures { result ≡ (if test then mask else 0) }
{
    if test { mask } else { 0 }
}

fn is_master_reset(control: u8) -> bool
    ensures { result ≡ table.is_master_reset control }
{
    control & 3 == 3
}

fn has_transmit_interrupt(control: u8) -> bool
    ensures { result ≡ table.has_transmit_interrupt control }
{
    control >> 5 & 3 == 1
}

fn has_receive_interrupt(control: u8) -> bool
    ensures { result ≡ table.has_receive_interrupt control }
{
    control >> 7 == 1
}

// A byte in the word format of a control byte: the first four formats have seven data bits.
fn word(control: u8, byte: u8) -> u8
    ensures { result ≡ table.word_of control byte }
{
    let format = control >> 2 & 7;
    if format < 4 { byte & 0x7f } else { byte }
}

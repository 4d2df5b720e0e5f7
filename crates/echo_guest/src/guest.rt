//! A guest of a few numbers.
ghost use Rattle.std.specs.Prelude.{◌≡◌, false};
ghost use Rattle.event_callbacks.specs.declared.operations.Operation.TheVariants.{Byte};

use disk_dcdd::SectorAddress;
use event_callbacks::{OpId, Operation};
use guest_lockstep::{Input, Lockstep};
use i8080_words::{Fault, GREATEST_NUMBER, R};
use std::marker::Model;

/// A guest that reads the key that arrived last and sends it at the next step. It sends no byte while one is not
/// accepted; then it idles if it has no key to read. It has room for a given number of operations in all; the step that
/// would give one more is out of memory.
#[derive(Drop)]
pub struct Echo {
    count: u64,
    keys: u64,
    key: Option<u8>,
    byte: Option<u8>,
    sent: u64,
    waits: bool,
    outgoing: u8,
    operation: Operation,
    room: u64,
}

impl Model for Echo {
    ghost use Rattle.std.specs.Prelude.{◌≡◌, ◌≤◌};
    ghost use Rattle.event_callbacks.specs.declared.operations.Operation.TheVariants.{Byte};
    ghost use Rattle.i8080_words.specs.declared.limits.TheConstants.{GREATEST_NUMBER};
    ghost use Rattle.echo_guest.specs.Echo as echo;

    ghost Value = { echo.Echo };

    ghost view = { λ e. record {
      count = e.count;
      keys = e.keys;
      key = e.key;
      byte = e.byte;
      sent = e.sent;
      waits = e.waits;
      outgoing = e.outgoing;
    } };

    ghost invariant = { λ e. (e.count ≤ GREATEST_NUMBER) × (e.keys ≤ GREATEST_NUMBER) × (e.sent ≤ e.count)
        × (e.operation ≡ Byte 0 e.sent e.outgoing) };
}

impl Echo {
    /// A guest at boot, with room for this many operations.
    pub fn new(room: u64) -> Echo
        ensures { result ≡ at_boot }
    {
        Echo {
            count: 0,
            keys: 0,
            key: None,
            byte: None,
            sent: 0,
            waits: false,
            outgoing: 0,
            operation: byte_of(0, 0),
            room,
        }
    }
}

// The operation that sends a byte.
fn byte_of(number: u64, byte: u8) -> Operation
    ensures { result ≡ Byte 0 number byte }
{
    Operation::Byte {
        port: 0,
        number,
        byte,
    }
}

ghost use Rattle.guest_lockstep.specs.Pages.{every_page};
ghost use Rattle.echo_guest.specs.Echo.{Echo, at_boot, echo};
ghost use Rattle.echo_guest.specs.MoveLaws.{echo_counts, echo_issues_and_completes};

impl Lockstep for Echo {
    ghost State = { Echo };

    ghost state = { λ e. e };

    ghost machine = { echo };

    ghost writes = { λ e page. false };

    ghost stale = { λ e. every_page };

    ghost counts = { echo_counts };

    ghost operations = { echo_issues_and_completes };

    fn step(&mut self) -> R<Option<OpId>> {
        if self.count >= GREATEST_NUMBER {
            return Err(Fault::Spent);
        }
        if self.waits && self.key.is_none() {
            return Err(Fault::Idle);
        }
        if self.waits || self.byte.is_none() {
            self.count += 1;
            self.byte = self.key.take();
            return Ok(None);
        }
        if self.room == 0 {
            return Err(Fault::OutOfMemory);
        }
        self.room -= 1;
        self.count += 1;
        self.outgoing = self.byte.take().unwrap_or(0);
        self.sent += 1;
        self.operation = byte_of(self.sent, self.outgoing);
        self.waits = true;
        Ok(Some(OpId::Byte(0, self.sent)))
    }

    fn check(&self, input: &Input) -> R<()> {
        match input {
            Input::Rx(_, _) => Ok(()),
            Input::Sent(0) if self.waits => Ok(()),
            _ => Err(Fault::NotDue),
        }
    }

    fn take(&mut self, input: Input) -> R<()> {
        self.check(&input)?;
        match input {
            Input::Rx(_, byte) => {
                self.keys += 1;
                self.key = Some(byte);
            }
            _ => self.waits = false,
        }
        Ok(())
    }

    fn count(&self) -> u64 {
        self.count
    }

    fn keys(&self, _port: u8) -> u64 {
        self.keys
    }

    fn due_byte(&self, port: u8) -> Option<u64> {
        if self.waits && port == 0 {
            return Some(self.sent);
        }
        None
    }

    fn outstanding(&self, id: OpId) -> Option<&Operation> {
        if self.waits && id == OpId::Byte(0, self.sent) {
            return Some(&self.operation);
        }
        None
    }

    fn selected(&self) -> Option<u8> {
        None
    }

    fn sector_under(&self, _drive: u8, _sector: u8) -> SectorAddress {
        SectorAddress {
            drive: 0,
            track: 0,
            sector: 0,
        }
    }

    fn step_quietly(&mut self, _turns: u64) -> u64 {
        0
    }
}

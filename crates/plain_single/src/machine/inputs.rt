//! The inputs of the machine.
ghost use Rattle.std.specs.Prelude.{◌≡◌, ◌<◌, ◌==◌, None, IfSome, OnOk, IfErr, reverse, Some};
ghost use Rattle.disk_dcdd.specs.Completion.{answered};
ghost use Rattle.disk_dcdd.specs.declared.address.SectorAddress.{SectorAddress};
ghost use Rattle.plain_single.specs.Serial.{due_unless};
ghost use Rattle.plain_single.specs.SingleState.{state_of, input_refusal, after_input, may_take_key, may_accept, after_key, after_accept, after_taking, disk_after, ReadsSector};
ghost use Rattle.plain_single.specs.Behind.{behind_of};
ghost use Rattle.plain_single.specs.Image.{IsSector, sector_at};
ghost use Rattle.guest_lockstep.specs.Reach.{bytes_after};

use super::Machine;
use crate::wires::Wires;
use disk_dcdd::SectorAddress;
use guest_lockstep::Bare;
use i8080_words::{Fault, R};

impl Machine {
    /// Takes an input. `NotDue` if no device waits for it, otherwise `SectorBusy` if a write of the sector is outstanding.
    pub(crate) fn take(&mut self, input: Bare) -> R<()>
        ensures answer { result ≡ answered (input_refusal (state_of self.old) input) }
        ensures after { OnOk result (state_of self.new
            ≡ after_taking (state_of self.old) input self.new.disk.sectors.items) }
        ensures sector { OnOk result (ReadsSector (state_of self.old) input) }
        ensures disk { OnOk result ((a : SectorAddress) → IsSector a
            → sector_at self.new.disk.sectors.items a ≡ disk_after (state_of self.old) input a) }
    {
        match input {
            Bare::Rx(port, byte) => self.wires.receive(port, byte),
            Bare::Sent(port) => self.wires.accept(port),
            Bare::Sector(drive, sector) => self.bring(drive, sector),
            Bare::Written(number) => {
                self.wires.drives.finish(number)?;
                self.disk.complete(&self.wires.drives.writes, number);
                Ok(())
            }
        }
    }

    // A sector of this drive comes under the head, with the bytes that the disk has.
    fn bring(&mut self, drive: u8, sector: u8) -> R<()>
        ensures answer { result ≡ answered (input_refusal (state_of self.old) (Bare.Sector drive sector)) }
        ensures processor { self.new.processor ≡ self.old.processor }
        ensures behind { OnOk result (behind_of self.new.wires
            ≡ after_input (state_of self.old) (Bare.Sector drive sector)) }
        ensures count { self.new.count ≡ self.old.count }
        ensures levels { self.new.levels ≡ self.old.levels }
        ensures disk { self.new.disk ≡ self.old.disk }
        ensures sector { OnOk result (ReadsSector (state_of self.old) (Bare.Sector drive sector)) }
    {
        let Some(track) = self.wires.drives.track_of(drive) else {
            return Err(Fault::NotDue);
        };
        let bytes = self.disk.get(SectorAddress {
            drive,
            track,
            sector,
        });
        self.wires.drives.arrive(sector, bytes)
    }
}

impl Wires {
    // A key arrives at a port.
    fn receive(&mut self, port: u8, byte: u8) -> R<()>
        ensures answer { result ≡ answered (due_unless (may_take_key (behind_of self.old) port)) }
        ensures after { OnOk result (behind_of self.new ≡ after_key (behind_of self.old) port byte) }
    {
        match port {
            0 => self.first.receive(byte),
            1 => self.second.receive(byte),
            _ => Err(Fault::NotDue),
        }
    }

    // The terminal of a port has accepted a byte.
    fn accept(&mut self, port: u8) -> R<()>
        ensures answer { result ≡ answered (due_unless (may_accept (behind_of self.old) port)) }
        ensures after { OnOk result (behind_of self.new ≡ after_accept (behind_of self.old) port) }
    {
        match port {
            0 => self.first.accept(),
            1 => self.second.accept(),
            _ => Err(Fault::NotDue),
        }
    }
}

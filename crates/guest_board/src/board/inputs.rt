//! The inputs of a board: which it would take, and how one that is taken changes the guest.
ghost use Rattle.std.specs.Prelude.{◌≡◌, ◌<◌, IsTrue, OnOk, OnErr, Some, slice_index};
ghost use Rattle.disk_dcdd.specs.Completion.{answered};
ghost use Rattle.i8080_words.specs.declared.limits.TheConstants.{GREATEST_NUMBER};
ghost use Rattle.event_callbacks.specs.Completions.{is_due, done_of};
ghost use Rattle.event_callbacks.specs.declared.devices.TheConstants.{PORTS};
ghost use Rattle.guest_board.specs.Guest as table;
ghost use Rattle.guest_board.specs.Inputs as inputs;
ghost use Rattle.guest_lockstep.specs.Lockstep.{IsInput, IsNumbered, HasRoom};
ghost use Rattle.guest_lockstep.specs.declared.input.Input.TheVariants as input_of;

use super::Board;
use super::readers::last_completed;
use disk_dcdd::{Controller, SECTOR_BYTES, SectorAddress};
use event_callbacks::{Callbacks, Completes, Devices, Done, OpId, Operation};
use guest_lockstep::Input;
use i8080_words::{Fault, R};

impl<T: Completes, S: Completes, W: Completes> Board<T, S, W> {
    /// Whether an input would be taken now: what `take` would return. A key is taken at any time.
    ///
    /// `NotDue` if no device waits for it, or the drive is not the selected one; otherwise `SectorBusy` if a write of
    /// that sector is outstanding; otherwise `StaleRead` if the number is not that of the sector's last completed
    /// write.
    pub fn check(&self, input: &Input) -> R<()>
        ensures answer { result ≡ answered (inputs.refusal self.now.guest input.now) }
        ensures numbers { OnOk result (IsNumbered input.now) }
    {
        self.wiring.devices.disk.stands();
        match input {
            Input::Rx(_, _) => Ok(()),
            Input::Sent(port) => { due(self.wiring.devices.is_due(&Done::Sent(*port))) }
            Input::Sector {
                drive,
                sector,
                number,
                ..
            } => check_sector(
                &self.wiring.devices.disk,
                &self.completed,
                *drive,
                *sector,
                *number,
            ),
            Input::Written(number) => { due(self.pending.find(OpId::Write(*number)).is_some()) }
        }
    }

    /// Takes an input if it is due: a key at any time. The stored closures complete it, and the count of steps is
    /// unchanged. The refusals are those of `check`, and change nothing.
    pub fn take(&mut self, input: Input) -> R<()>
        requires input { IsInput input }
        requires room { HasRoom inputs.some_altair self.old.guest input }
        ensures answer { result ≡ answered (inputs.refusal self.old.guest input) }
        ensures ok { OnOk result (table.take_from self.old.guest input ≡ Some self.new.guest) }
        ensures versions { self.new.versions ≡ self.old.versions }
        ensures err { OnErr result (self.new ≡ self.old) }
    {
        match input {
            Input::Rx(port, byte) => {
                self.receive(port, byte);
                Ok(())
            }
            Input::Sent(port) => self.sent(port),
            Input::Sector {
                drive,
                sector,
                number,
                bytes,
            } => self.sector(drive, sector, number, bytes),
            Input::Written(number) => self.written(number),
        }
    }

    // A key is taken.
    fn receive(&mut self, port: u8, byte: u8)
        requires port { port < PORTS }
        requires room { slice_index self.old.guest.keys port < GREATEST_NUMBER }
        ensures { self.new ≡ record {
          guest = table.after_rx self.old.guest port byte;
          versions = self.old.versions;
        } }
    {
        self.keys[port as usize] += 1;
        let acia = &mut self.wiring.devices.ports[port as usize];
        acia.receive(byte);
    }

    // The oldest byte of a port is accepted.
    fn sent(&mut self, port: u8) -> R<()>
        requires { port < PORTS }
        ensures answer { result ≡ answered (inputs.refusal self.old.guest (input_of.Sent port)) }
        ensures ok { OnOk result (table.take_from self.old.guest (input_of.Sent port) ≡ Some self.new.guest) }
        ensures versions { self.new.versions ≡ self.old.versions }
        ensures err { OnErr result (self.new ≡ self.old) }
    {
        let Some(oldest) = self.due_byte(port) else {
            return Err(Fault::NotDue);
        };
        let _operation = self.pending.complete(OpId::Byte(port, oldest));
        complete(&self.callbacks, &mut self.wiring.devices, Done::Sent(port));
        Ok(())
    }

    // A sector comes under the head.
    fn sector(&mut self, drive: u8, sector: u8, number: u64, bytes: [u8; SECTOR_BYTES]) -> R<()>
        ensures answer { result
            ≡ answered (inputs.refusal self.old.guest (input_of.Sector drive sector number bytes)) }
        ensures ok { OnOk result (table.take_from self.old.guest (input_of.Sector drive sector number bytes)
            ≡ Some self.new.guest) }
        ensures versions { self.new.versions ≡ self.old.versions }
        ensures err { OnErr result (self.new ≡ self.old) }
    {
        check_sector(
            &self.wiring.devices.disk,
            &self.completed,
            drive,
            sector,
            number,
        )?;
        let done = Done::Sector(sector, bytes);
        complete(&self.callbacks, &mut self.wiring.devices, done);
        Ok(())
    }

    // A write is on the disk.
    fn written(&mut self, number: u64) -> R<()>
        ensures answer { result ≡ answered (inputs.refusal self.old.guest (input_of.Written number)) }
        ensures ok { OnOk result (table.take_from self.old.guest (input_of.Written number)
            ≡ Some self.new.guest) }
        ensures versions { self.new.versions ≡ self.old.versions }
        ensures err { OnErr result (self.new ≡ self.old) }
    {
        let operation = self.pending.complete(OpId::Write(number))?;
        complete(
            &self.callbacks,
            &mut self.wiring.devices,
            Done::Written(number),
        );
        complete_write(&mut self.completed, &operation);
        Ok(())
    }
}

// `NotDue` unless the condition holds.
fn due(holds: bool) -> R<()>
    ensures { result ≡ answered (inputs.unless_due holds) }
{
    if holds { Ok(()) } else { Err(Fault::NotDue) }
}

// Why a sector does not come, given the controller and the last completed writes.
fn check_sector(disk: &Controller, completed: &[u64], drive: u8, sector: u8, number: u64) -> R<()>
    ensures { result ≡ answered (inputs.sector_refusal_at disk.now completed.now drive sector number) }
{
    let Some(selected) = disk.selected() else {
        return Err(Fault::NotDue);
    };
    if selected != drive || !disk.is_sector_due(sector) {
        return Err(Fault::NotDue);
    }
    if disk.is_sector_busy(sector) {
        return Err(Fault::SectorBusy);
    }
    let track = disk.track(drive);
    let address = SectorAddress {
        drive,
        track,
        sector,
    };
    if last_completed(completed, address) != number {
        return Err(Fault::StaleRead);
    }
    Ok(())
}

// The devices after what is due, completed by the stored closures.
fn complete<T: Completes, S: Completes, W: Completes>(
    callbacks: &Callbacks<T, S, W>,
    devices: &mut Devices,
    done: Done,
)
    requires { IsTrue (is_due devices.old done) }
    ensures { devices.new ≡ done_of devices.old done }
{
    let copy = devices.copy();
    *devices = callbacks.fire(copy, done);
}

// A write becomes the last completed one of its sector.
fn complete_write(completed: &mut Vec<u64>, operation: &Operation)
    ensures { completed.new.items ≡ table.with_completed completed.old.items (Some operation.now) }
{
    let Operation::Write(write) = operation else {
        return;
    };
    let address = SectorAddress {
        drive: write.drive,
        track: write.track,
        sector: write.sector,
    };
    let Some(index) = address.index() else {
        return;
    };
    if let Some(last) = completed.get_mut(index) {
        *last = write.number;
    }
}

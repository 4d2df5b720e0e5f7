//! The chores of a primary's worker at the disk.
ghost use Rattle.std.specs.Prelude.{◌≡◌, ◌≢◌, ◌<◌, ◌↔◌, false, true, None, Some, IfSome, IsTrue};
ghost use Rattle.disk_dcdd.specs.declared.controller.TheConstants.{DRIVES};
ghost use Rattle.disk_dcdd.specs.declared.sector.TheConstants.{SECTORS};
ghost use Rattle.event_callbacks.specs.declared.operations.OpId.TheVariants as id;
ghost use Rattle.event_callbacks.specs.declared.operations.Operation.TheVariants.{Write};
ghost use Rattle.pair_rule.specs.Seats.{HasSwapsLeft};
ghost use Rattle.pair_threads.specs.Choosing.{due_sector, due_write, is_write, next_sector, no_sector_waits};
ghost use Rattle.pair_threads.specs.Ending.{NoSectorIsDue};
ghost use Rattle.pair_threads.specs.Primary.{MayAsk, Works};
ghost use Rattle.std.specs.List.{find};

use super::PrimaryWorker;
use disk_dcdd::{SECTOR_BYTES, SECTORS, SectorAddress, SectorWrite};
use event_callbacks::{OpId, Operation};
use guest_lockstep::{Input, Lockstep};
use i8080_words::Fault;
use pair_rule::{DiskAnswer, DiskRequest, Fabric};

impl<B: Lockstep> PrimaryWorker<B> {
    // The sector to read next, if the guest waits for one.
    pub(super) fn due_sector(&self) -> Option<(SectorAddress, bool)>
        ensures { result ≡ due_sector B.machine (B.state self.now.guest.board) self.now.sector }
    {
        let drive = self.guest.board.selected()?;
        let address = self.guest.board.sector_under(drive, self.sector);
        let input = Input::Sector {
            drive,
            sector: self.sector,
            number: 0,
            bytes: [0; SECTOR_BYTES],
        };
        match self.guest.board.check(&input) {
            Ok(()) | Err(Fault::StaleRead) => Some((address, false)),
            Err(Fault::SectorBusy) => Some((address, true)),
            Err(_) => None,
        }
    }

    // Whether none of the track that the selected drive's head is at may come.
    pub(super) fn no_sector_is_due(&self) -> bool
        ensures { IsTrue result ↔ NoSectorIsDue B.machine (B.state self.now.guest.board) }
    {
        let Some(drive) = self.guest.board.selected() else {
            return true;
        };
        for sector in 0..SECTORS {
            if self.may_come(drive, sector) {
                return false;
            }
        }
        true
    }

    // Whether this sector may come, or might if no write of it were outstanding.
    fn may_come(&self, drive: u8, sector: u8) -> bool
        requires drive { drive < DRIVES }
        requires sector { sector < SECTORS }
        ensures { result ≡ B.machine.ready (B.state self.now.guest.board)
            (B.machine.address (B.state self.now.guest.board) drive sector) }
    {
        let input = Input::Sector {
            drive,
            sector,
            number: 0,
            bytes: [0; SECTOR_BYTES],
        };
        match self.guest.board.check(&input) {
            Err(Fault::NotDue) => false,
            _ => true,
        }
    }

    // The oldest write that is not done.
    fn due_write(&self) -> Option<SectorWrite>
        ensures there { IfSome result (λ w. B.machine.find (B.state self.now.guest.board) (id.Write w.number) ≡ Some (Write w)) }
        ensures oldest { result ≡ due_write B.machine (B.state self.now.guest.board) self.now.guest.given.items }
    {
        let id = first_write(&self.guest.given)?;
        match self.guest.board.outstanding(id) {
            Some(Operation::Write(write)) => Some(*write),
            _ => None,
        }
    }

    // The next request to the disk: the oldest write, or the sector that is due.
    fn due_request(&mut self) -> Option<DiskRequest>
        ensures works { Works B.state B.machine self.old self.new }
        ensures same { (self.new.seat ≡ self.old.seat) × (self.new.asked ≡ self.old.asked) }
        ensures may { IfSome result (MayAsk B.state B.machine self.new) }
    {
        if let Some(write) = self.due_write() {
            return if self.is_covered() {
                Some(DiskRequest::Write(write))
            } else {
                None
            };
        }
        let (address, busy) = self.due_sector()?;
        if busy {
            self.pass_sector();
            return None;
        }
        if self.may_take_new() {
            Some(DiskRequest::Read(address))
        } else {
            None
        }
    }

    // The sector after this one is next.
    fn pass_sector(&mut self)
        ensures works { Works B.state B.machine self.old self.new }
        ensures next { self.new.sector ≡ next_sector self.old.sector }
        ensures same { (self.new.seat ≡ self.old.seat) × (self.new.guest ≡ self.old.guest) × (self.new.list ≡ self.old.list)
            × (self.new.asked ≡ self.old.asked) × (self.new.answer ≡ self.old.answer) }
    {
        self.sector = (self.sector + 1) % SECTORS;
    }

    // Asks the disk, if its last request is answered.
    pub(super) fn ask(&mut self, fabric: &Fabric) -> bool
        requires table { self.old.seat.table ≡ fabric.now }
        requires before { self.old.seat.core.known.primary.winner ≡ 0 }
        requires swaps { HasSwapsLeft self.old.seat.core }
        ensures works { Works B.state B.machine self.old self.new }
        ensures asked { IsTrue result ↔ (self.new.asked ≢ self.old.asked) }
    {
        if self.asked || self.answer.is_some() {
            return false;
        }
        match self.due_request() {
            Some(request) => {
                self.seat.request(fabric, request);
                self.asked = true;
                true
            }
            None => false,
        }
    }

    // Receives the disk's answer.
    pub(super) fn hear(&mut self, fabric: &Fabric) -> bool
        requires table { self.old.seat.table ≡ fabric.now }
        requires before { self.old.seat.core.known.primary.winner ≡ 0 }
        requires swaps { HasSwapsLeft self.old.seat.core }
        ensures works { Works B.state B.machine self.old self.new }
        ensures came { IsTrue result ↔ (self.new.asked ≢ self.old.asked) }
    {
        if !self.asked {
            return false;
        }
        match self.seat.answer(fabric) {
            Some(answer) => {
                self.answer = Some(answer);
                self.asked = false;
                true
            }
            None => false,
        }
    }

    // Takes the disk's answer. A sector that is no longer under the head is dropped.
    pub(super) fn complete(&mut self) -> bool
        ensures works { Works B.state B.machine self.old self.new }
        ensures taken { result ≡ true → self.new.answer ≢ self.old.answer }
        ensures passed { self.old.guest.waiting ≡ None → no_sector_waits self.new.guest.waiting ≡ false
            → self.new.sector ≡ next_sector self.old.sector }
    {
        if self.guest.waiting.is_some() {
            return false;
        }
        let Some(answer) = self.answer else {
            return false;
        };
        self.answer = None;
        match answer {
            DiskAnswer::Written(number) => self.guest.written(number),
            DiskAnswer::Read(read) => {
                if self.guest.sector(&read) {
                    self.pass_sector();
                }
                true
            }
        }
    }
}

// The first write among these names.
fn first_write(names: &[OpId]) -> Option<OpId>
    ensures { result ≡ find is_write names.now }
{
    names.iter().copied().find(|id| is_write(*id))
}

// Whether the operation of this name is a write.
fn is_write(id: OpId) -> bool
    ensures { result ≡ is_write id }
{
    match id {
        OpId::Write(_) => true,
        OpId::Byte(..) => false,
    }
}

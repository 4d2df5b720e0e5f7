//! A board as the layers of a pair see it.
use super::Board;
use crate::executed::Step;
use disk_dcdd::SectorAddress;
use event_callbacks::{Completes, OpId, Operation};
use guest_lockstep::{Input, Lockstep};
use i8080_words::R;

impl<T: Completes, S: Completes, W: Completes> Lockstep for Board<T, S, W> {
    ghost use Rattle.guest_parts.specs.Guest.{Guest};
    ghost use Rattle.guest_lockstep.specs.Pages.{every_page};
    ghost use Rattle.guest_board.specs.Inputs.{some_altair};
    ghost use Rattle.guest_board.specs.Pages.{writes_page};
    ghost use Rattle.guest_board.specs.MoveLaws.{guests_count, guests_issue_and_complete};

    ghost State = { Guest };

    ghost state = { λ board. board.guest };

    ghost machine = { some_altair };

    ghost writes = { writes_page };

    ghost stale = { λ board. every_page };

    ghost counts = { guests_count };

    ghost operations = { guests_issue_and_complete };

    #[inline(always)]
    fn step(&mut self) -> R<Option<OpId>> {
        match self.make_step() {
            Ok(Step::Ran(name)) => Ok(name),
            Ok(Step::Accepted) => Ok(None),
            Err(fault) => Err(fault),
        }
    }

    fn check(&self, input: &Input) -> R<()> {
        self.check(input)
    }

    fn take(&mut self, input: Input) -> R<()> {
        self.take(input)
    }

    fn count(&self) -> u64 {
        self.count()
    }

    fn keys(&self, port: u8) -> u64 {
        self.keys(port)
    }

    fn due_byte(&self, port: u8) -> Option<u64> {
        self.due_byte(port)
    }

    fn outstanding(&self, id: OpId) -> Option<&Operation> {
        self.outstanding(id)
    }

    fn selected(&self) -> Option<u8> {
        self.disk().selected()
    }

    fn sector_under(&self, drive: u8, sector: u8) -> SectorAddress {
        SectorAddress {
            drive,
            track: self.disk().track(drive),
            sector,
        }
    }

    #[inline(always)]
    fn step_quietly(&mut self, turns: u64) -> u64 {
        self.make_quiet_steps(turns)
    }
}

//! A board with its draft as the layers of a pair see it: it does what the board does, and the draft keeps up.
ghost use Rattle.std.specs.Prelude.{◌≡◌, ◌≤◌, OnErr, OnOk};
ghost use Rattle.guest_board.specs.Inputs.{some_altair};
ghost use Rattle.guest_lockstep.specs.Lockstep.{Executes, HasRoom, IsInput, Takes};
ghost use Rattle.guest_board.specs.Pages.{writes_page};
ghost use Rattle.guest_lockstep.specs.Pages.{stale_after};
ghost use Rattle.guest_lockstep.specs.Running.{Quiet};
ghost use Rattle.board_image.specs.DraftedBoard.{KeepsUpWith, stale_with};
ghost use Rattle.board_image.specs.Drafts.{KeepsUp, stale_in};

use super::DraftedBoard;
use crate::draft::Draft;
use disk_dcdd::SectorAddress;
use event_callbacks::{Completes, OpId, Operation};
use guest_board::{Board, Executed};
use guest_lockstep::{Input, Lockstep};
use i8080_words::R;

impl<T: Completes, S: Completes, W: Completes> Lockstep for DraftedBoard<T, S, W> {
    ghost use Rattle.guest_parts.specs.Guest.{Guest};
    ghost use Rattle.guest_board.specs.Inputs.{some_altair};
    ghost use Rattle.guest_board.specs.Pages.{writes_page};
    ghost use Rattle.board_image.specs.DraftedBoard.{stale_on};
    ghost use Rattle.guest_board.specs.MoveLaws.{guests_count, guests_issue_and_complete};

    ghost State = { Guest };

    ghost state = { λ d. d.board.guest };

    ghost machine = { some_altair };

    ghost writes = { writes_page };

    ghost stale = { stale_on };

    ghost counts = { guests_count };

    ghost operations = { guests_issue_and_complete };

    #[inline(always)]
    fn step(&mut self) -> R<Option<OpId>> {
        match &self.draft {
            None => self.board.step(),
            Some(draft) => step_with_draft(&mut self.board, draft),
        }
    }

    fn check(&self, input: &Input) -> R<()> {
        self.board.check(input)
    }

    fn take(&mut self, input: Input) -> R<()> {
        take_with_draft(&mut self.board, &self.draft, input)
    }

    fn count(&self) -> u64 {
        self.board.count()
    }

    fn keys(&self, port: u8) -> u64 {
        self.board.keys(port)
    }

    fn due_byte(&self, port: u8) -> Option<u64> {
        self.board.due_byte(port)
    }

    fn outstanding(&self, id: OpId) -> Option<&Operation> {
        self.board.outstanding(id)
    }

    fn selected(&self) -> Option<u8> {
        self.board.selected()
    }

    fn sector_under(&self, drive: u8, sector: u8) -> SectorAddress {
        self.board.sector_under(drive, sector)
    }

    #[inline(always)]
    fn step_quietly(&mut self, turns: u64) -> u64 {
        match &self.draft {
            None => self.board.step_quietly(turns),
            Some(draft) => quiet_steps_with_draft(&mut self.board, draft, turns),
        }
    }
}

// A step of a board that a draft is of.
#[cold]
#[inline(never)]
fn step_with_draft<T: Completes, S: Completes, W: Completes>(
    board: &mut Board<T, S, W>,
    draft: &Draft,
) -> R<Option<OpId>>
    requires { KeepsUp draft.now board.old }
    ensures answer { Executes some_altair board.old.guest result board.new.guest }
    ensures pages { OnOk result (stale_in draft.now board.new
        ≡ stale_after some_altair writes_page (stale_in draft.now board.old) board.old.guest 1) }
    ensures unchanged { OnErr result (board.new ≡ board.old) }
    ensures keeps_up { KeepsUp draft.now board.new }
{
    board.stands();
    draft.has_room();
    match board.exec() {
        Ok(Executed::Ran(None)) => Ok(None),
        Ok(Executed::Ran(Some(operation))) => Ok(Some(operation.id())),
        Ok(Executed::Accepted) => Ok(None),
        Err(fault) => Err(fault),
    }
}

// Steps in one go of a board that a draft is of.
#[inline(never)]
fn quiet_steps_with_draft<T: Completes, S: Completes, W: Completes>(
    board: &mut Board<T, S, W>,
    draft: &Draft,
    turns: u64,
) -> u64
    requires { KeepsUp draft.now board.old }
    ensures few { result ≤ turns }
    ensures steps { Quiet some_altair board.old.guest result board.new.guest }
    ensures pages { stale_in draft.now board.new
        ≡ stale_after some_altair writes_page (stale_in draft.now board.old) board.old.guest result }
    ensures unchanged { result ≡ 0 → board.new ≡ board.old }
    ensures keeps_up { KeepsUp draft.now board.new }
{
    board.stands();
    draft.has_room();
    board.make_quiet_steps(turns)
}

// An input of a board that may have a draft.
fn take_with_draft<T: Completes, S: Completes, W: Completes>(
    board: &mut Board<T, S, W>,
    draft: &Option<Draft>,
    input: Input,
) -> R<()>
    requires input { IsInput input }
    requires room { HasRoom some_altair board.old.guest input }
    requires keeps_up { KeepsUpWith board.old draft.now }
    ensures answer { Takes some_altair board.old.guest input result board.new.guest }
    ensures pages { stale_with board.new draft.now ≡ stale_with board.old draft.now }
    ensures unchanged { OnErr result (board.new ≡ board.old) }
    ensures keeps_up { KeepsUpWith board.new draft.now }
{
    board.take(input)
}

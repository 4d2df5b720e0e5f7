//! A board with the draft of its image, if one was begun: the guest that a node of a pair of Altairs runs.
use crate::draft::Draft;
use event_callbacks::Completes;
use guest_board::Board;
use std::marker::Model;

mod copied;
mod drafting;
mod lockstep;

/// A board, and a draft of it if one was begun. The guest runs as its board does, and the draft stays one of the board
/// whatever the board does.
#[derive(Drop)]
pub struct DraftedBoard<T: Completes, S: Completes, W: Completes> {
    board: Board<T, S, W>,
    draft: Option<Draft>,
}

impl<T: Completes, S: Completes, W: Completes> Model for DraftedBoard<T, S, W> {
    ghost use Rattle.i8080_words.specs.contracts.registers.Processor as the_processor;
    ghost use Rattle.event_callbacks.specs.contracts.devices.Devices as the_devices;
    ghost use Rattle.event_callbacks.specs.contracts.operations.OpId as the_name;
    ghost use Rattle.event_callbacks.specs.contracts.operations.Operation as the_operation;
    ghost use Rattle.guest_parts.specs.Board.{on_board_code};
    ghost use Rattle.board_image.specs.DraftedBoard.{KeepsUpWith, WithDraft, with_draft_code};

    ghost Value = { WithDraft };

    ghost coded = { with_draft_code (on_board_code the_processor.the_row.coded the_devices.the_row.coded
        the_name.the_row.coded the_operation.the_row.coded) };

    ghost view = { λ d. record { board = d.board; draft = d.draft } };

    ghost invariant = { λ d. KeepsUpWith d.board d.draft };
}

impl<T: Completes, S: Completes, W: Completes> DraftedBoard<T, S, W> {
    ghost use Rattle.std.specs.Prelude.{◌≡◌, None};

    /// This board, without a draft.
    pub fn of(board: Board<T, S, W>) -> DraftedBoard<T, S, W>
        ensures { result ≡ record { board = board; draft = None } }
    {
        DraftedBoard { board, draft: None }
    }

    /// The board.
    pub fn board(&self) -> &Board<T, S, W>
        ensures { result.now ≡ self.now.board }
    {
        &self.board
    }
}

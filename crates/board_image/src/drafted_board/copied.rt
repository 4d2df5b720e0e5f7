//! A board with its draft as a guest that can be copied.
use super::{DraftedBoard, drafting};
use crate::boards::board_of;
use clone_state::{Assembly, Copies, Image};
use event_callbacks::{Callbacks, Completes};
use i8080_words::{Fault, R};
use std::alloc::Global;

impl<T: Completes + Drop, S: Completes + Drop, W: Completes + Drop> Copies<Callbacks<T, S, W>>
    for DraftedBoard<T, S, W> {
    ghost copied = { λ d. d.board.guest };

    fn drives(&self) -> u8 {
        self.board.disk().stands();
        self.board.disk().attached()
    }

    fn freshen(&mut self, alloc: Global, pages: u64) -> R<u64> {
        drafting::freshen(alloc, &mut self.draft, &self.board, pages)
    }

    fn forget(&mut self) {
        self.draft = None;
    }

    fn image(&mut self, alloc: Global, generation: u32) -> R<Image> {
        self.board.stands();
        drafting::image(alloc, &mut self.draft, &self.board, generation)
    }

    fn assembled(
        alloc: Global,
        assembly: Assembly,
        resources: Callbacks<T, S, W>,
    ) -> Result<Self, (Assembly, Callbacks<T, S, W>, Fault)> {
        match board_of(alloc, assembly, resources) {
            Ok(board) => Ok(DraftedBoard::of(board)),
            Err(refused) => Err(refused),
        }
    }
}

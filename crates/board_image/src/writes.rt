//! What a guest shows of its disk's writes, so that a driver knows which are outstanding.
ghost use Rattle.std.specs.Prelude.{◌≡◌, List};

use crate::DraftedBoard;
use disk_dcdd::Place;
use event_callbacks::Completes;
use guest_board::Board;

/// A guest that shows which writes of its disk are outstanding.
pub trait OutstandingWrites {
    ghost use Rattle.disk_dcdd.specs.declared.sector.Place.{Place};

    /// Where the outstanding writes go, in order of number.
    ghost writes: { Self → List Place };

    /// Where the outstanding writes go, in order of number.
    fn outstanding_writes(&self) -> &[Place]
        ensures { result.now ≡ writes self.now };
}

impl<T: Completes, S: Completes, W: Completes> OutstandingWrites for Board<T, S, W> {
    ghost writes = { λ b. b.guest.devices.disk.outstanding };

    fn outstanding_writes(&self) -> &[Place] {
        self.disk().outstanding()
    }
}

impl<T: Completes, S: Completes, W: Completes> OutstandingWrites for DraftedBoard<T, S, W> {
    ghost writes = { λ d. d.board.guest.devices.disk.outstanding };

    fn outstanding_writes(&self) -> &[Place] {
        self.board().outstanding_writes()
    }
}

//! The board that the parts of an image make.
ghost use Rattle.std.specs.Prelude.{◌≡◌, Some, IfOk, IfErr, is_some};
ghost use Rattle.guest_memory.specs.Pages.{zeros};
ghost use Rattle.guest_memory.specs.declared.memory.TheConstants.{PAGES};
ghost use Rattle.clone_state.specs.Assembly.{gathered, machine_in};
ghost use Rattle.clone_state.specs.Copies.{refused_as};
ghost use Rattle.clone_state.specs.Parts.{guest_in};

use clone_state::Assembly;
use event_callbacks::{Callbacks, Completes};
use guest_board::Board;
use i8080_words::Fault;
use std::alloc::Global;

/// The board that the parts of an assembly make, with these closures; no page of its memory was written yet.
///
/// `NotWhole` if a part is missing, otherwise `Malformed` if the parts fit no board together, otherwise `OutOfMemory` if
/// there is no memory for it. Each hands everything back, with every part that arrived.
pub fn board_of<T: Completes, S: Completes, W: Completes>(
    alloc: Global,
    assembly: Assembly,
    callbacks: Callbacks<T, S, W>,
) -> Result<Board<T, S, W>, (Assembly, Callbacks<T, S, W>, Fault)>
    ensures guest { IfOk result (λ board. machine_in assembly ≡ Some board.guest) }
    ensures versions { IfOk result (λ board. board.versions ≡ zeros PAGES) }
    ensures back { IfErr result (λ refused. (refused.0 ≡ assembly) × (refused.1 ≡ callbacks)) }
    ensures refused { IfErr result (λ refused. refused.2
        ≡ refused_as (λ parts. is_some (guest_in assembly.drives parts)) (gathered assembly.slots)) }
{
    let parts = match assembly.board_parts(alloc) {
        Ok(parts) => parts,
        Err(fault) => return Err((assembly, callbacks, fault)),
    };
    match Board::rebuild(alloc, parts, callbacks) {
        Ok(board) => Ok(board),
        Err((_, callbacks, fault)) => Err((assembly, callbacks, fault)),
    }
}

//! A host before its loop begins: the primary or the backup of generation 1, or a spare.
ghost use Rattle.std.specs.Prelude.{◌≡◌, IfOk};
ghost use Rattle.command_console.specs.Serving.{Boots};
ghost use Rattle.guest_board.specs.Guest.{guest_at_boot};

use board_image::DraftedBoard;
use clone_state::Copies;
use event_callbacks::{Callbacks, Completes};
use ft_node::Node;
use guest_board::{Board, Setup};
use guest_lockstep::Reads;
use host_node::{HostNode, Mail};
use i8080_words::R;
use log_buffer::LogBuffer;
use std::alloc::Global;

/// What a host boots with: a machine, or the closures of one that comes later.
#[derive(Drop)]
pub enum Booted<B: Copies<K> + Drop, K: Drop> {
    Primary(B),
    Backup(B),
    Spare(K),
}

/// The host that boots with this; its pair's machines have so many drives.
pub(crate) fn host_of<B: Copies<K> + Drop, K: Drop>(
    alloc: Global,
    drives: u8,
    booted: Booted<B, K>,
    mail: Mail,
) -> R<HostNode<B, K>>
    ensures boots { IfOk result (Boots B.state B.machine booted) }
    ensures mail { IfOk result (λ host. host.mail ≡ mail) }
    ensures drives { IfOk result (λ host. host.drives ≡ drives) }
{
    match booted {
        Booted::Primary(board) => {
            let log = LogBuffer::new(alloc, 0)?;
            let node = Node::primary(board, log, 1, Reads::Shared);
            Ok(HostNode::of(alloc, 0, drives, node, mail))
        }
        Booted::Backup(board) => {
            let node = Node::backup(alloc, board, 1, Reads::Shared);
            Ok(HostNode::of(alloc, 1, drives, node, mail))
        }
        Booted::Spare(callbacks) => Ok(HostNode::spare(alloc, drives, callbacks, mail)),
    }
}

/// The machine of a setup at boot.
pub(crate) fn board_of<T: Completes + Drop, S: Completes + Drop, W: Completes + Drop>(
    alloc: Global,
    setup: &Setup,
    callbacks: Callbacks<T, S, W>,
) -> R<DraftedBoard<T, S, W>>
    ensures { IfOk result (λ drafted. drafted.board.guest ≡ guest_at_boot setup.now) }
{
    let board = Board::booted(alloc, setup, callbacks)?;
    Ok(DraftedBoard::of(board))
}

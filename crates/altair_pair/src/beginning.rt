//! How a pair of Altairs begins.
ghost use Rattle.std.specs.Prelude.{◌≡◌, ◌<◌, ◌^◌, IfErr, IfOk, OnOk, length};
ghost use Rattle.altair_laws.specs.Copies.{image_copy};
ghost use Rattle.guest_board.specs.Guest.{guest_at_boot};
ghost use Rattle.guest_board.specs.Inputs.{some_altair};
ghost use Rattle.i8080_words.specs.declared.refusal.Fault.TheVariants.{OutOfMemory};
ghost use Rattle.shared_disk.specs.Records.{HasDrives, IsUnwritten};
ghost use Rattle.ft_world.specs.Applies.{IsFaithful, Shows};
ghost use Rattle.ft_world.specs.Beginning.{beginning};

use altair_laws::{altairs_are_lawful, altairs_stay_on_their_disks, the_image_copies};
use board_image::{DraftedBoard, boards_are_copied_as_guests};
use event_callbacks::{Callbacks, Completes};
use ft_world::{Room, World};
use guest_board::{Board, BoardMemory, Setup};
use i8080_words::Fault;
use shared_disk::SectorStore;
use std::alloc::Global;

/// A pair of Altairs over a disk.
pub type AltairsOn<T, S, W, D> = World<DraftedBoard<T, S, W>, D, Callbacks<T, S, W>>;

/// A pair of Altairs of this setup begins, over a disk that has the setup's drives and is unwritten. Its log carries
/// sectors as the setup says, and an Altair is copied by its image. `OutOfMemory` hands the disk's store and the
/// closures back.
pub fn boot_pair<T: Completes + Drop, S: Completes + Drop, W: Completes + Drop, D: SectorStore>(
    alloc: Global,
    setup: &Setup,
    store: D,
    primary: Callbacks<T, S, W>,
    backup: Callbacks<T, S, W>,
) -> Result<AltairsOn<T, S, W, D>, (D, Callbacks<T, S, W>, Callbacks<T, S, W>, Fault)>
    requires drives { HasDrives (D.records store) setup.now.drives }
    requires unwritten { IsUnwritten (D.records store) }
    ensures ok { IfOk result (λ world. Shows (λ d. d.board.guest) (λ d. d.board.guest) some_altair D.records world
        (beginning some_altair (image_copy setup.now.drives) setup.now.reads (guest_at_boot setup.now) (D.records store))) }
    ensures faithful { OnOk result (IsFaithful some_altair
        (beginning some_altair (image_copy setup.now.drives) setup.now.reads (guest_at_boot setup.now) (D.records store))) }
    ensures disk { IfOk result (λ world. world.disk ≡ store) }
    ensures full { IfErr result (λ refused. refused ≡ (store, primary, backup, OutOfMemory)) }
{
    altairs_are_lawful();
    altairs_stay_on_their_disks();
    the_image_copies();
    boards_are_copied_as_guests();
    sizes(&setup.levels, setup.sense);
    store.has_whole_sectors();
    let (Ok(first), Ok(second), Ok(room)) = (
        BoardMemory::of(alloc, setup),
        BoardMemory::of(alloc, setup),
        Room::new(alloc),
    ) else {
        return Err((store, primary, backup, Fault::OutOfMemory));
    };
    let primary = DraftedBoard::of(Board::boot_in(alloc, first, setup, primary));
    let backup = DraftedBoard::of(Board::boot_in(alloc, second, setup, backup));
    Ok(World::begin_in(alloc, room, setup.reads, primary, backup, store))
}

// The levels and the switches of a setup have the sizes of their types.
fn sizes(levels: &[u8; 3], sense: u8)
    ensures levels { length levels.now ≡ 3 }
    ensures sense { sense < 2 ^ 8 }
{}

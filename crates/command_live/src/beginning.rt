//! What a pair on threads begins with: its guests, its disk, and what is typed.
ghost use Rattle.std.specs.Prelude.{◌≡◌, IfOk};
ghost use Rattle.event_callbacks.specs.declared.devices.TheConstants.{SENT, SECTOR, WRITTEN};
ghost use Rattle.event_callbacks.specs.Keeping.{Keeps};
ghost use Rattle.guest_board.specs.Guest.{guest_at_boot};
ghost use Rattle.command_io.specs.Typed.{typed_by, typed_in};
ghost use Rattle.command_live.specs.Living.{AreTyped, BeginsAs};
ghost use Rattle.shared_disk.specs.Records.{HasWholeSectors, IsAtBoot, IsUnwritten};

use command_io::ScriptInput;
use event_callbacks::{Callbacks, Completes};
use guest_board::{Board, Setup};
use i8080_words::R;
use pair_events::Event;
use pair_threads::{Fate, Workers};
use script_language::Line;
use shared_disk::{MemoryStore, SectorStore, SharedDisk};
use std::alloc::Global;

// How many instructions a guest executes in one turn, at most.
pub(crate) const STEPS: u64 = 20_000;

/// For how many turns a pair runs, how many instructions a guest executes in one at most, and the turn at which each node asks to go on
/// alone.
#[derive(Clone, Copy)]
pub(crate) struct Asked {
    pub(crate) turns: u64,
    pub(crate) steps: u64,
    pub(crate) primary: Option<u64>,
    pub(crate) backup: Option<u64>,
}

/// What the generation of a script begins with, over a link of these fates.
#[tactic(auto, using(crate::proofs::Living::begins_as))]
pub(crate) fn workers_of<
    T: Completes + Drop + Copy,
    S: Completes + Drop + Copy,
    W: Completes + Drop + Copy,
>(
    alloc: Global,
    asked: Asked,
    link: Vec<Fate>,
    input: &ScriptInput,
    sent: T,
    sector: S,
    written: W,
) -> R<Workers<Board<T, S, W>, MemoryStore>>
    requires sent { Keeps (T.may sent) (T.gives sent) SENT }
    requires sector { Keeps (S.may sector) (S.gives sector) SECTOR }
    requires written { Keeps (W.may written) (W.gives written) WRITTEN }
    ensures begins { IfOk result (λ workers. BeginsAs input.now.script.setup input.now.sectors.items
        input.now.script.lines.items workers.primary.guest workers.backup.guest workers.disk workers.typed0.items
        workers.typed1.items) }
    ensures primary_asks { IfOk result (λ workers. workers.primary_contests ≡ asked.primary) }
    ensures backup_asks { IfOk result (λ workers. workers.backup_contests ≡ asked.backup) }
    ensures steps { IfOk result (λ workers. workers.steps ≡ asked.steps) }
    ensures link { IfOk result (λ workers. workers.fates ≡ link) }
{
    let disk = disk_of(alloc, input)?;
    let (typed0, typed1) = typed(alloc, &input.script.lines)?;
    let (primary, backup) = boards(alloc, &input.script.setup.guest, sent, sector, written)?;
    Ok(Workers {
        primary,
        backup,
        disk,
        typed0,
        typed1,
        fates: link,
        primary_contests: asked.primary,
        backup_contests: asked.backup,
        steps: asked.steps,
    })
}

// The disk of both nodes at boot.
fn disk_of(alloc: Global, input: &ScriptInput) -> R<SharedDisk<MemoryStore>>
    ensures at_boot { IfOk result (λ disk. IsAtBoot disk input.now.script.setup.guest.drives input.now.sectors.items) }
    ensures unwritten { IfOk result (λ disk. IsUnwritten disk) }
    ensures whole { IfOk result (λ disk. HasWholeSectors disk) }
{
    let store = MemoryStore::at_boot(alloc, input.script.setup.guest.drives, &input.sectors)?;
    store.has_whole_sectors();
    Ok(SharedDisk::new(store))
}

// The guests of both nodes at boot.
fn boards<T: Completes + Drop + Copy, S: Completes + Drop + Copy, W: Completes + Drop + Copy>(
    alloc: Global,
    setup: &Setup,
    sent: T,
    sector: S,
    written: W,
) -> R<(Board<T, S, W>, Board<T, S, W>)>
    requires sent { Keeps (T.may sent) (T.gives sent) SENT }
    requires sector { Keeps (S.may sector) (S.gives sector) SECTOR }
    requires written { Keeps (W.may written) (W.gives written) WRITTEN }
    ensures primary { IfOk result (λ boards. boards.0.guest ≡ guest_at_boot setup.now) }
    ensures backup { IfOk result (λ boards. boards.1.guest ≡ guest_at_boot setup.now) }
{
    let primary = Board::booted(alloc, setup, Callbacks::of(sent, sector, written))?;
    let backup = Board::booted(alloc, setup, Callbacks::of(sent, sector, written))?;
    Ok((primary, backup))
}

// The bytes that lines type at both ports.
fn typed(alloc: Global, lines: &[Line]) -> R<(Vec<u8>, Vec<u8>)>
    ensures { IfOk result (λ typed. AreTyped lines.now typed.0.items typed.1.items) }
{
    let first = typed_at(alloc, lines, 0)?;
    let second = typed_at(alloc, lines, 1)?;
    Ok((first, second))
}

// The bytes that lines type at a port.
fn typed_at(alloc: Global, lines: &[Line], port: u8) -> R<Vec<u8>>
    ensures { IfOk result (λ typed. typed.items ≡ typed_in port lines.now) }
{
    let mut typed = Vec::new(alloc);
    for line in lines {
        match typed_by(*line, port) {
            Some(byte) => {
                typed.reserve(1)?;
                typed.push_reserved(byte);
            }
            None => {}
        }
    }
    Ok(typed)
}

// The byte that a line types at a port.
fn typed_by(line: Line, port: u8) -> Option<u8>
    ensures { result ≡ typed_by port line }
{
    match line {
        Line::Event(Event::TypeByte { port: at, byte }) if at == port => Some(byte),
        _ => None,
    }
}

//! How a guest boots: in memory that is allocated before it gets its closures.
ghost use Rattle.std.specs.Prelude.{◌≡◌, ◌*◌, IfErr, IfOk};
ghost use Rattle.disk_dcdd.specs.declared.address.TheConstants.{DRIVE_SECTORS};
ghost use Rattle.guest_memory.specs.Pages.{unwritten, zeros};
ghost use Rattle.guest_memory.specs.declared.memory.TheConstants.{PAGES};
ghost use Rattle.i8080_words.specs.declared.refusal.Fault.TheVariants.{OutOfMemory};
ghost use Rattle.guest_board.specs.Guest.{guest_at_boot};

use super::{Board, no_writes, sense_byte};
use crate::setup::Setup;
use crate::wiring::Wiring;
use event_callbacks::{Callbacks, Completes, Devices, PORTS, Pending};
use guest_memory::Memory;
use i8080_core::Cpu;
use i8080_words::{Fault, R};
use std::alloc::Global;

/// All the memory that a guest needs to boot: its own, and a number for each sector of its drives.
#[derive(Drop)]
pub struct BoardMemory {
    memory: Memory,
    completed: Vec<u64>,
}

impl BoardMemory {
    /// The memory of a guest of this setup.
    pub fn of(alloc: Global, setup: &Setup) -> R<BoardMemory>
        ensures memory { IfOk result (λ taken. taken.memory ≡ unwritten setup.now.memory.items) }
        ensures completed { IfOk result (λ taken. taken.completed.items ≡ zeros (setup.now.drives * DRIVE_SECTORS)) }
        ensures full { IfErr result (λ fault. fault ≡ OutOfMemory) }
    {
        let memory = Memory::of_bytes(alloc, &setup.memory)?;
        let completed = no_writes(alloc, setup.drives)?;
        Ok(BoardMemory { memory, completed })
    }
}

impl<T: Completes, S: Completes, W: Completes> Board<T, S, W> {
    /// The guest at boot, in the memory of its setup and with these closures. Allocates no further memory.
    pub fn boot_in(
        alloc: Global,
        taken: BoardMemory,
        setup: &Setup,
        callbacks: Callbacks<T, S, W>,
    ) -> Self
        requires memory { taken.memory ≡ unwritten setup.now.memory.items }
        requires completed { taken.completed.items ≡ zeros (setup.now.drives * DRIVE_SECTORS) }
        ensures { result ≡ record { guest = guest_at_boot setup.now; versions = zeros PAGES } }
    {
        let BoardMemory { memory, completed } = taken;
        Board {
            callbacks,
            cpu: Cpu::reset(),
            wiring: Wiring {
                memory,
                devices: Devices::new(setup.drives),
                issued: [0; PORTS],
                sense: sense_byte(setup.sense),
                given: None,
            },
            pending: Pending::new(alloc),
            completed,
            count: 0,
            ready_until: 0,
            keys: [0; PORTS],
            levels: setup.levels,
        }
    }
}

impl<T: Completes + Drop, S: Completes + Drop, W: Completes + Drop> Board<T, S, W> {
    /// The guest at boot, with these closures. `OutOfMemory` lets them go.
    pub fn booted(alloc: Global, setup: &Setup, callbacks: Callbacks<T, S, W>) -> R<Self>
        ensures ok { IfOk result (λ board. board
            ≡ record { guest = guest_at_boot setup.now; versions = zeros PAGES }) }
        ensures full { IfErr result (λ fault. fault ≡ OutOfMemory) }
    {
        match Board::boot(alloc, setup, callbacks) {
            Ok(board) => Ok(board),
            Err((_, fault)) => Err(fault),
        }
    }
}

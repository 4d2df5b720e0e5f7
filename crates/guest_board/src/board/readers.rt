//! What a board says of its guest.
ghost use Rattle.std.specs.Prelude.{◌≡◌, ◌+◌, ◌-◌, ◌<◌, ◌≤◌, IfSome, Some, length, slice_index};
ghost use Rattle.std.specs.Option.{option_copied, option_map_or};
ghost use Rattle.disk_dcdd.specs.Address.{index_of};
ghost use Rattle.event_callbacks.specs.Completions.{port_of};
ghost use Rattle.i8080_words.specs.declared.limits.TheConstants.{GREATEST_NUMBER};
ghost use Rattle.event_callbacks.specs.Operations.{operation_at, id_of};
ghost use Rattle.event_callbacks.specs.declared.devices.TheConstants.{PORTS};
ghost use Rattle.guest_memory.specs.Pages as pages;
ghost use Rattle.guest_memory.specs.declared.memory.TheConstants.{BYTES, PAGES, PAGE_BYTES};
ghost use Rattle.guest_parts.specs.Board.{IsBoard};
ghost use Rattle.guest_board.specs.Guest as table;
ghost use Rattle.guest_board.specs.Inputs as inputs;

use super::{Board, is_spent, line};
use disk_dcdd::{Controller, SectorAddress};
use event_callbacks::{Completes, Done, OpId, Operation};
use i8080_words::Processor;
use serial_2sio::Acia;

impl<T: Completes, S: Completes, W: Completes> Board<T, S, W> {
    /// How many steps the guest has executed.
    pub fn count(&self) -> u64
        ensures value { result ≡ self.now.guest.count }
        ensures within { result ≤ GREATEST_NUMBER }
    {
        self.count
    }

    /// Whether the guest is halted and accepts no interrupt, so that the next `exec` would be `Idle` if it is not spent.
    pub fn idle(&self) -> bool
        ensures { result ≡ table.is_idle self.now.guest }
    {
        self.cpu.idles(line(&self.wiring.devices, &self.levels))
    }

    /// Whether the count, or a number of bytes or of writes, is at its greatest.
    pub fn is_spent(&self) -> bool
        ensures { result ≡ table.is_spent self.now.guest }
    {
        is_spent(self.count, &self.wiring)
    }

    /// How many keys of a port were taken.
    pub fn keys(&self, port: u8) -> u64
        requires { port < PORTS }
        ensures value { result ≡ slice_index self.now.guest.keys port }
        ensures within { result ≤ GREATEST_NUMBER }
    {
        self.keys[port as usize]
    }

    /// How many bytes were sent to a port.
    pub fn issued(&self, port: u8) -> u64
        requires { port < PORTS }
        ensures value { result ≡ slice_index self.now.guest.issued port }
        ensures within { result ≤ GREATEST_NUMBER }
    {
        self.wiring.issued[port as usize]
    }

    /// The outstanding operation of this name.
    pub fn outstanding(&self, id: OpId) -> Option<&Operation>
        ensures value { option_copied result ≡ operation_at self.now.guest.operations id }
        ensures name { IfSome (option_copied result) (λ op. id_of op ≡ id) }
    {
        self.pending.find(id)
    }

    /// The number of the next byte of a port to be accepted: the oldest that was sent and not accepted.
    pub fn due_byte(&self, port: u8) -> Option<u64>
        requires { port < PORTS }
        ensures { result ≡ table.due_byte self.now.guest port }
    {
        if !self.wiring.devices.is_due(&Done::Sent(port)) {
            return None;
        }
        let acia = &self.wiring.devices.ports[port as usize];
        Some(oldest_byte(self.wiring.issued[port as usize], acia.unaccepted()))
    }

    /// The selected drive, and the track its head is at.
    pub fn place(&self) -> Option<(u8, u8)>
        ensures { result ≡ inputs.place_of self.now.guest }
    {
        let drive = self.wiring.devices.disk.selected()?;
        Some((drive, self.wiring.devices.disk.track(drive)))
    }

    /// The number of the last completed write of a sector, 0 if there is none.
    pub fn done(&self, address: SectorAddress) -> u64
        ensures { result ≡ table.last_completed self.now.guest address }
    {
        last_completed(&self.completed, address)
    }

    /// The number of the last completed write of each sector, by `SectorAddress::index`; 0 if there is none.
    pub fn completed(&self) -> &[u64]
        ensures { result.now ≡ self.now.guest.completed }
    {
        &self.completed
    }

    /// The byte at an address of memory.
    pub fn byte(&self, address: u16) -> u8
        ensures { result ≡ slice_index self.now.guest.memory address }
    {
        self.wiring.memory.read(address)
    }

    /// The 256 bytes of a page, lowest address first.
    pub fn page(&self, page: u8) -> &[u8]
        ensures bytes { result.now ≡ pages.page_bytes
            (record { bytes = self.now.guest.memory; versions = self.now.versions }) page }
        ensures length { length result.now ≡ PAGE_BYTES }
    {
        self.wiring.memory.page(page)
    }

    /// How often a page was written since the board was made or booted.
    pub fn version(&self, page: u8) -> u64
        ensures { result ≡ slice_index self.now.versions page }
    {
        self.wiring.memory.version(page)
    }

    /// The processor: its registers, flags and interrupt enable, and whether it is halted.
    pub fn processor(&self) -> &Processor
        ensures { result.now ≡ self.now.guest.processor }
    {
        self.cpu.processor()
    }

    /// The serial port of this number, 0 or 1.
    pub fn port(&self, port: u8) -> Acia
        requires { port < PORTS }
        ensures { result ≡ port_of self.now.guest.devices port }
    {
        self.wiring.devices.ports[port as usize]
    }

    /// The controller of the drives.
    pub fn disk(&self) -> &Controller
        ensures { result.now ≡ self.now.guest.devices.disk }
    {
        &self.wiring.devices.disk
    }

    /// The interrupt levels of port 0, port 1 and the disk.
    pub fn levels(&self) -> [u8; 3]
        ensures { result ≡ self.now.guest.levels }
    {
        self.levels
    }

    /// The byte of the sense switches.
    pub fn sense(&self) -> u8
        ensures { result ≡ self.now.guest.sense }
    {
        self.wiring.sense
    }

    /// The invariant of boards holds of this one; its memory has a byte at every address and a version for every page.
    pub fn stands(&self)
        ensures board { IsBoard self.now.guest self.now.versions }
        ensures memory { length self.now.guest.memory ≡ BYTES }
        ensures versions { length self.now.versions ≡ PAGES }
    {
        self.wiring.memory.always_whole();
    }
}

// The number of the oldest byte that is not accepted, given how many bytes were issued and how many are unaccepted.
fn oldest_byte(issued: u64, unaccepted: u8) -> u64
    requires sent { unaccepted ≤ issued }
    requires within { issued ≤ GREATEST_NUMBER }
    ensures { result ≡ issued + 1 - unaccepted }
{
    issued + 1 - unaccepted as u64
}

// The number in the table of all sectors, 0 if it has none.
pub(super) fn last_completed(completed: &[u64], address: SectorAddress) -> u64
    ensures { result ≡ option_map_or (λ index. slice_index completed.now index) (index_of address) 0 }
{
    let Some(index) = address.index() else {
        return 0;
    };
    completed.get(index).copied().unwrap_or(0)
}

//! Whether a board can be in the state that its parts describe.
ghost use Rattle.std.specs.Prelude.{◌≡◌, ◌<◌, ◌≤◌, ◌↔◌, true, [], length, map, slice_index_or};
ghost use Rattle.std.specs.List.{list_all};
ghost use Rattle.disk_dcdd.specs.Sector.{place_of};
ghost use Rattle.event_callbacks.specs.Completions.{port_of};
ghost use Rattle.event_callbacks.specs.declared.devices.TheConstants.{PORTS};
ghost use Rattle.guest_memory.specs.Pages.{zeros};
ghost use Rattle.guest_memory.specs.declared.memory.TheConstants.{PAGES};
ghost use Rattle.guest_parts.specs.Board.{IsBoard};
ghost use Rattle.guest_parts.specs.Parts as table;

use super::BoardParts;
use disk_dcdd::{Controller, DRIVE_SECTORS, Place, SectorWrite};
use event_callbacks::{Devices, PORTS};
use i8080_words::GREATEST_NUMBER;

impl BoardParts {
    /// A board can be in the state that the parts describe exactly if what holds of every board's guest holds of
    /// theirs, and their writes are those that the controller waits for, in its order.
    pub fn stand_as_boards_do(&self)
        ensures { (table.stands self.now ≡ true)
            ↔ (IsBoard (table.guest_of_parts self.now) (zeros PAGES)
            × (map place_of self.now.writes.items ≡ self.now.devices.disk.outstanding)) }
    {
        self.devices.disk.stands();
        has_all(&self.devices.ports);
        has_all(&self.issued);
        has_all(&self.keys);
        self.has_window(0);
        self.has_window(1);
        let _sense = self.sense;
    }

    /// The parts have each unaccepted byte of a port.
    pub fn has_window(&self, port: u8)
        requires { port < PORTS }
        ensures { (port_of self.now.devices port).unaccepted ≤ length (slice_index_or self.now.unaccepted port []) }
    {
        let acia = &self.devices.ports[port as usize];
        let _unaccepted = acia.unaccepted();
        has_all(&self.unaccepted[port as usize]);
    }

    /// Whether a board can be in that state.
    pub fn stand(&self) -> bool
        ensures { result ≡ table.stands self.now }
    {
        port_stands(&self.devices, &self.issued, &self.keys, 0)
            && port_stands(&self.devices, &self.issued, &self.keys, 1)
            && self.count <= GREATEST_NUMBER
            && are_levels(&self.levels)
            && go_to(&self.writes, self.devices.disk.outstanding())
            && are_completed(&self.devices.disk, &self.completed)
    }
}

// An array has as many elements as its type says.
fn has_all<X, const N: usize>(array: &[X; N])
    ensures { length array.now ≡ N }
{}

/// Whether the unaccepted bytes of a port were issued, and its numbers are in range.
pub fn port_stands(devices: &Devices, issued: &[u64; PORTS], keys: &[u64; PORTS], port: u8) -> bool
    requires { port < PORTS }
    ensures { result ≡ table.port_stands devices.now issued.now keys.now port }
{
    let place = port as usize;
    let acia = &devices.ports[place];
    u64::from(acia.unaccepted()) <= issued[place]
        && issued[place] <= GREATEST_NUMBER
        && keys[place] <= GREATEST_NUMBER
}

/// Whether RST n has each of these levels.
pub fn are_levels(levels: &[u8; 3]) -> bool
    ensures { result ≡ table.are_levels levels.now }
{
    levels.iter().all(|level| *level < 8)
}

// Whether these are the writes that go to these places.
fn go_to(writes: &[SectorWrite], places: &[Place]) -> bool
    ensures { result ≡ table.go_to writes.now places.now }
{
    if writes.len() != places.len() {
        return false;
    }
    for (index, write) in writes.iter().enumerate() {
        if !goes_to(write, &places[index]) {
            return false;
        }
    }
    true
}

// Whether this is the write that goes to this place.
fn goes_to(write: &SectorWrite, place: &Place) -> bool
    ensures { result ≡ table.goes_to write.now place.now }
{
    write.number == place.number
        && write.drive == place.drive
        && write.track == place.track
        && write.sector == place.sector
}

// Whether these may be the last completed writes of all sectors.
fn are_completed(disk: &Controller, completed: &[u64]) -> bool
    ensures { result ≡ table.are_completed disk.now completed.now }
{
    completed.len() == disk.attached() as usize * DRIVE_SECTORS && are_done(disk, completed)
}

// Whether each of these may be the last completed write of a sector.
fn are_done(disk: &Controller, completed: &[u64]) -> bool
    ensures { result ≡ list_all (table.may_be_completed disk.now) completed.now }
{
    completed
        .iter()
        .all(|number| may_be_completed(disk, *number))
}

// Whether this may be the last completed write of a sector.
fn may_be_completed(disk: &Controller, number: u64) -> bool
    ensures { result ≡ table.may_be_completed disk.now number }
{
    number <= disk.issued() && !disk.is_outstanding(number)
}

//! The sectors that the log does not carry.
ghost use Rattle.std.specs.Prelude.{◌≡◌, ◌<◌, IfSome};
ghost use Rattle.disk_dcdd.specs.Address.{same_address};
ghost use Rattle.disk_dcdd.specs.declared.controller.TheConstants.{DRIVES};
ghost use Rattle.disk_dcdd.specs.declared.sector.TheConstants.{SECTORS};
ghost use Rattle.replayer.specs.Checking as checking;
ghost use Rattle.replayer.specs.Replaying as table;

use disk_dcdd::{SECTOR_BYTES, SectorAddress};
use guest_lockstep::{Input, Lockstep};
use log_channel::Receiver;
use log_entry::Entry;
use shared_disk::SectorRead;

// The drive, the sector and the number of the read that is the first entry, at the guest's count, and whose bytes have
// not arrived.
pub(crate) fn wanted<B: Lockstep>(
    board: &B,
    fetched: Option<[u8; SECTOR_BYTES]>,
    receiver: &Receiver,
) -> Option<(u8, u8, u64)>
    ensures value { result ≡ table.wanted B.machine (B.state board.now) receiver.now.entries fetched }
    ensures within { IfSome result (λ read. (read.0 < DRIVES) × (read.1 < SECTORS)) }
{
    let front = receiver.front()?;
    if fetched.is_some() || board.count() != front.count() {
        return None;
    }
    front.read_of()
}

// Whether this sector was read.
pub(crate) fn is_at(read: &SectorRead, place: SectorAddress) -> bool
    ensures { result ≡ same_address place (table.place_of read.now) }
{
    place.drive == read.drive && place.track == read.track && place.sector == read.sector
}

// The input of an entry; a read has the bytes that have arrived for it.
pub(crate) fn input_with(fetched: Option<[u8; SECTOR_BYTES]>, entry: &Entry) -> Option<Input>
    ensures { result ≡ table.input_with fetched entry.now }
{
    let Some((drive, sector, number)) = entry.read_of() else {
        return entry.input();
    };
    let bytes = fetched?;
    Some(Input::Sector {
        drive,
        sector,
        number,
        bytes,
    })
}

// The bytes that are kept once an entry is taken: those of a read are taken with it.
pub(crate) fn bytes_after(
    fetched: Option<[u8; SECTOR_BYTES]>,
    entry: &Entry,
) -> Option<[u8; SECTOR_BYTES]>
    ensures { result ≡ checking.bytes_after fetched entry.now }
{
    match entry.read_of() {
        Some(_) => None,
        None => fetched,
    }
}

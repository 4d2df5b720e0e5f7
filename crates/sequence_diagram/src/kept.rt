//! What the disk has done with a write that arrived, by the writes of its sector that arrived before it.
ghost use Rattle.std.specs.Prelude.{◌≡◌, ◌≤◌, ◌⊎◌};
ghost use Rattle.std.specs.Fmt.{WritesOnOk};
ghost use Rattle.sequence_diagram.specs.Keeping.{HasArrival, IsAtMost, IsNewest, IsOne, write_of};
ghost use Rattle.sequence_diagram.specs.Words.{kept_text};

use crate::cargo::{write_number, write_number_and};
use crate::flights::cargo_to;
use crate::moment::{Cargo, Moment};
use disk_dcdd::SectorAddress;
use pair_events::Event;
use std::fmt;

/// What the disk has done with the write that the event at a place of a run brought, if it has answered it.
#[derive(Clone, Copy)]
pub struct KeptText<'a> {
    pub moments: &'a [Moment],
    pub place: usize,
}

/// A write that arrived at the disk.
#[derive(Clone, Copy)]
pub struct Arrival {
    pub number: u64,
    pub address: SectorAddress,
}

impl fmt::Display for KeptText<'_> {
    fn fmt<W: fmt::Write>(&self, f: &mut fmt::Formatter<W>) -> fmt::Result {
        let Some(arrival) = arrival_at(self.moments, self.place) else {
            return Ok(());
        };
        let newest = newest_before(self.moments, self.place, arrival.address);
        write_kept(f, arrival.number, newest)
    }
}

// What the disk has done with a write, if this was the newest one of its sector before.
fn write_kept<W: fmt::Write>(f: &mut fmt::Formatter<W>, number: u64, newest: u64) -> fmt::Result
    ensures { WritesOnOk W.write_str_gives f.old result (kept_text number newest) f.new }
{
    if newest > number {
        return write_number(f, "keeps newer write", newest);
    }
    if newest == number {
        return write_number_and(f, "has write", newest, " already");
    }
    write_number(f, "stores write", number)
}

// The write that the event at a place of a run brought to the disk, if the disk has answered it.
fn arrival_at(moments: &[Moment], place: usize) -> Option<Arrival>
    ensures { HasArrival moments.now place result }
{
    let moment = moments.get(place)?;
    match (moment.event, moment.answer) {
        (Event::Put { .. }, Ok(_)) => write_of(cargo_to(moments, place)),
        _ => None,
    }
}

// The write that a message carries.
fn write_of(cargo: Option<Cargo>) -> Option<Arrival>
    ensures { result ≡ write_of cargo }
{
    match cargo {
        Some(Cargo::Write { number, address }) => Some(Arrival { number, address }),
        _ => None,
    }
}

// The greatest number of a write of a sector that arrived before a place of a run; 0 if there is none.
fn newest_before(moments: &[Moment], place: usize, address: SectorAddress) -> u64
    ensures { IsNewest moments.now place address result }
{
    let mut newest = 0u64;
    for before in 0..place {
        newest = newer(arrival_at(moments, before), address, newest);
    }
    newest
}

// The greater number of that of a write, if it is of this sector, and another one.
fn newer(found: Option<Arrival>, address: SectorAddress, newest: u64) -> u64
    ensures least { newest ≤ result }
    ensures counted { IsAtMost address result found }
    ensures one { (result ≡ newest) ⊎ IsOne address result found }
{
    match found {
        Some(arrival) if arrival.address == address => newest.max(arrival.number),
        _ => newest,
    }
}

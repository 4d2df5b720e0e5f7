//! A host: a node of the pair, or one that has no role yet.
ghost use Rattle.std.specs.Prelude.{◌≡◌, IfErr, IfOk};
ghost use Rattle.std.specs.Borrow.{LendsIfOk, sem};
ghost use Rattle.i8080_words.specs.declared.refusal.Fault.TheVariants.{Unknown};
ghost use Rattle.ft_world.specs.Lending.{IsSpare};
ghost use Rattle.ft_world.specs.Opening.{HasJoined};
ghost use Rattle.ft_world.specs.contracts.host.Host as the_host;
ghost use Rattle.ft_world.specs.contracts.station.Station as the_station;
ghost use Rattle.ft_world.specs.declared.host.Host.TheVariants as host;

use crate::opening::Opening;
use crate::station::Station;
use clone_state::Copies;
use i8080_words::{Fault, R};

/// A host: a node of the pair, or one that has no role yet, with the resources for a machine that is copied there.
#[derive(Drop)]
pub enum Host<B, H> {
    Node(Station<B, H>),
    Spare(H),
}

impl<B: Copies<H> + Drop, H: Drop> Host<B, H> {
    // The station, if this is a node; `Unknown` if it is a spare host.
    pub(crate) fn station_mut(&mut self) -> R<&mut Station<B, H>>
        ensures* lends { sem 𝓛 (LendsIfOk (the_host.the_row B.row H.row) (the_station.the_row B.row H.row) self.entry result
            (λ station. host.Node station) self.old) }
        ensures found { IfOk result (λ station. self.old ≡ host.Node station.now) }
        ensures absent { IfErr result (λ fault. (fault ≡ Unknown) × IsSpare self.old) }
    {
        match self {
            Host::Node(station) => Ok(station),
            Host::Spare(_) => Err(Fault::Unknown),
        }
    }

    // A spare host, as a node that joins a generation.
    pub(crate) fn joined(self, opening: Opening) -> Host<B, H>
        requires { IsSpare self }
        ensures { HasJoined B.state B.machine opening result }
    {
        match self {
            Host::Spare(resources) => Host::Node(Station::joining(opening, resources)),
            Host::Node(station) => Host::Node(station),
        }
    }
}

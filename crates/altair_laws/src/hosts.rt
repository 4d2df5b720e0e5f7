//! The law of processes, for the Altair of any setup.
ghost use Rattle.altair_laws.specs.Hosts.{AltairHostsAreFaithful, AltairHostsAreKept};

use crate::{altairs_are_lawful, the_image_copies};

/// Whatever the processes of a pair of Altairs do, interleaved in any order, after each step they show a faithful world,
/// and in the end the outside's terminals and disk have what one never-failing Altair gives.
pub fn altair_hosts_are_faithful()
    ensures faithful { AltairHostsAreFaithful }
    ensures kept { AltairHostsAreKept }
{
    altairs_are_lawful();
    the_image_copies();
}

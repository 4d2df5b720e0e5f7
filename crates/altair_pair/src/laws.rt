//! A pair that is faithful has done what the single machine does. Nothing here runs.
ghost use Rattle.altair_pair.specs.Alike.{FaithfulIsAlike, ShownIsSame};

use altair_laws::{altairs_are_lawful, altairs_stay_on_their_disks};
use disk_dcdd::sectors_stand_apart;

/// Each terminal of a faithful pair of Altairs, and each sector of its disk, has what `compare` asks for. So whatever
/// world of such a pair is shown, `compare` finds `Same`, up to the count that is settled there, or is out of memory.
pub fn faithful_pairs_are_alike<B, H>()
    ensures alike { FaithfulIsAlike }
    ensures same { ShownIsSame B H }
{
    altairs_are_lawful();
    altairs_stay_on_their_disks();
    sectors_stand_apart();
}

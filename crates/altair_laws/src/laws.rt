//! The single machine of an Altair is one that a pair may run.
ghost use Rattle.std.specs.Prelude.{ℕ, List};
ghost use Rattle.disk_dcdd.specs.declared.address.SectorAddress.{SectorAddress};
ghost use Rattle.guest_board.specs.declared.setup.Setup.{Setup};
ghost use Rattle.guest_parts.specs.Guest.{Guest};
ghost use Rattle.guest_board.specs.Guest.{altair};
ghost use Rattle.guest_lockstep.specs.Machine.{Move};
ghost use Rattle.altair_laws.specs.Pairs.{PairsAreFaithful, PairsGrow};
ghost use Rattle.altair_laws.specs.Stands.{AltairStands};
ghost use Rattle.pair_protocol.specs.Lawful.{Lawful, Reaches};
ghost use Rattle.pair_protocol.specs.OnDisk.{StaysOnDisk};

use disk_dcdd::sectors_stand_apart;

/// The Altair of every setup, with any sectors on its disks, is a machine that a pair may run.
pub fn altairs_are_lawful()
    ensures { (setup : Setup) (sectors : SectorAddress → List ℕ) → Lawful (altair setup sectors) }
{
    sectors_stand_apart();
}

/// After any moves from boot no number of an Altair has passed its limit, its controller is well-formed, and what is
/// outstanding is what its ports and its controller wait for.
pub fn altairs_stay_within()
    ensures { (setup : Setup) (sectors : SectorAddress → List ℕ) (moves : List Move) (g : Guest)
        → Reaches (altair setup sectors) moves g → AltairStands setup moves g }
{
    sectors_stand_apart();
}

/// An Altair reads and writes only sectors of its own drives, whatever input it is given.
pub fn altairs_stay_on_their_disks()
    ensures { (setup : Setup) (sectors : SectorAddress → List ℕ) → StaysOnDisk (altair setup sectors) setup.drives }
{
    sectors_stand_apart();
}

/// Whatever events come, in whatever order, every world of a pair of Altairs is faithful, and each further event lets
/// what is settled grow.
pub fn altair_pairs_are_faithful()
    ensures faithful { PairsAreFaithful }
    ensures grows { PairsGrow }
{
    altairs_are_lawful();
}

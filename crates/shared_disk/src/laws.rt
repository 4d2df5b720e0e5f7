//! What follows from the definitions alone.
ghost use Rattle.std.specs.Prelude.{◌≡◌, ℕ, List, [], if◌then◌else◌, Some, None};
ghost use Rattle.disk_dcdd.specs.Address.{has_sector};
ghost use Rattle.disk_dcdd.specs.declared.address.SectorAddress.{SectorAddress};
ghost use Rattle.shared_disk.specs.Arrivals.{ChoosesOne, IsShared};
ghost use Rattle.shared_disk.specs.Records.{HasWholeSectors, blank_record, record_at, unwritten};
ghost use Rattle.shared_disk.specs.declared.store.Record.{Record};

/// A new store has the sectors of its drives and no others, each with zeros under number 0, as many as a sector has.
pub fn new_stores_are_unwritten()
    ensures records { (drives : ℕ) (address : SectorAddress) → record_at (unwritten drives) address
        ≡ (if has_sector drives address then Some blank_record else None) }
    ensures whole { (drives : ℕ) → HasWholeSectors (unwritten drives) }
{}

/// Of a first record and any writes that arrive, one has the greatest number and is the first that has it; if none
/// arrived it is the first record.
#[tactic(auto, using(crate::proofs::Greatest::chooses_one, crate::proofs::Arriving::nothing_arrived))]
pub fn one_write_is_chosen()
    ensures one { (first : Record) (writes : List Record) → ChoosesOne first writes }
    ensures none { (records : List Record) → IsShared records [] records }
{}

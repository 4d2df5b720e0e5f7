//! What an image says of an Altair makes that Altair again.
ghost use Rattle.altair_laws.specs.Copies.{
  AltairsMayBeCopied,
  CopiedPairsAreFaithful,
  CopiedPairsGrow,
  JoiningAltairsAreGiven,
  TheImageCopies,
};

use crate::{
    altair_pairs_are_faithful, altairs_are_lawful, altairs_stay_on_their_disks, altairs_stay_within,
};
use clone_state::parts_make_their_machines;

/// Every Altair that is reached from boot may be copied, if each sector that came under a head had all its bytes: it
/// meets the invariant of boards, no number or table is out of its range, and it is never halted while it waits for the
/// instruction after EI.
pub fn altairs_may_be_copied()
    ensures { AltairsMayBeCopied }
{
    altairs_are_lawful();
    altairs_stay_within();
}

/// The image of an Altair is a copy of it, in the words of the protocol, and its parts make the Altair again.
pub fn the_image_copies()
    ensures { TheImageCopies }
{
    altairs_may_be_copied();
    altairs_stay_within();
    altairs_stay_on_their_disks();
    parts_make_their_machines();
}

/// Whatever events come, in whatever order and over however many generations, every world of a pair of Altairs that is
/// copied by its image is faithful, and each further event lets what is settled grow.
pub fn copied_pairs_are_faithful()
    ensures faithful { CopiedPairsAreFaithful }
    ensures grows { CopiedPairsGrow }
{
    altair_pairs_are_faithful();
    the_image_copies();
}

/// What a joining node is given are the parts of one Altair that was run from boot, and all of them make that Altair.
pub fn joining_altairs_are_given()
    ensures { JoiningAltairsAreGiven }
{
    altairs_are_lawful();
    the_image_copies();
}

//! The laws of `pair_progress`, for the Altair of any setup that is copied by its image.
ghost use Rattle.std.specs.Prelude.{ℕ, List};
ghost use Rattle.disk_dcdd.specs.declared.address.SectorAddress.{SectorAddress};
ghost use Rattle.guest_board.specs.declared.setup.Setup.{Setup};
ghost use Rattle.guest_board.specs.Guest.{altair};
ghost use Rattle.altair_laws.specs.Progress.{AltairsAlways};
ghost use Rattle.pair_progress.specs.CatchingUp.{CatchesUp};
ghost use Rattle.pair_progress.specs.Completion.{Completes, CompletesSoon, Responds};
ghost use Rattle.pair_progress.specs.Following.{IsFollowed};
ghost use Rattle.pair_progress.specs.Going.{CaughtUpGoesOn, ServesOn};
ghost use Rattle.pair_progress.specs.Reading.{ReadsSectors, SectorsCome};
ghost use Rattle.pair_progress.specs.Recovery.{Recovers};
ghost use Rattle.pair_progress.specs.Renewal.{HostsJoin, JoinersLack, Renews};
ghost use Rattle.pair_progress.specs.Settling.{PairsSettle};
ghost use Rattle.pair_progress.specs.Takeover.{TakesOver};

use crate::{altairs_are_lawful, altairs_stay_within, the_image_copies};
use guest_board::boards_issue_and_complete;

/// Outstanding operations of an Altair come and go as they are given and completed; an outstanding byte is of a port at
/// which one is due; a byte that is due is outstanding; and an input that is due is taken. A sector is busy only while
/// something is outstanding.
pub fn altairs_respond()
    ensures responds { (setup : Setup) (sectors : SectorAddress → List ℕ) → Responds (altair setup sectors) }
    ensures reads { (setup : Setup) (sectors : SectorAddress → List ℕ) → ReadsSectors (altair setup sectors) }
{
    boards_issue_and_complete();
    altairs_stay_within();
    altairs_are_lawful();
}

/// Whatever events came, in whatever order: a node that may still serve goes on after a few events of its own; a live node
/// brings all that is outstanding to its devices, and reads its disk; a whole pair empties its log, and comes to rest; a
/// live node makes a whole pair with a spare host; and a host that joins lacks parts of its image, and gets them. Whoever
/// makes these events, and is told of no failure, is where they lead.
pub fn altair_pairs_are_never_stuck()
    ensures takes_over { AltairsAlways TakesOver }
    ensures serves { AltairsAlways ServesOn }
    ensures recovers { AltairsAlways Recovers }
    ensures completes { AltairsAlways Completes }
    ensures soon { AltairsAlways CompletesSoon }
    ensures catch_up { AltairsAlways CatchesUp }
    ensures go_on { AltairsAlways CaughtUpGoesOn }
    ensures settle { AltairsAlways PairsSettle }
    ensures renew { AltairsAlways Renews }
    ensures join { AltairsAlways HostsJoin }
    ensures lack { AltairsAlways JoinersLack }
    ensures read { AltairsAlways SectorsCome }
    ensures followed { AltairsAlways IsFollowed }
{
    altairs_are_lawful();
    altairs_respond();
    the_image_copies();
}

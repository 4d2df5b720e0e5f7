//! The laws, for the Altair of any setup that is copied by its image.
ghost use Rattle.host_progress.specs.Altairs.{AltairHostsAlways, AltairHostsShowAWorld};
ghost use Rattle.host_progress.specs.Laws.{HostsCatchUp, HostsComplete, HostsCompleteSoon, HostsGetParts, HostsGoOn, HostsRead, HostsRecover, HostsRenew, HostsSettle, HostsTakeKeys, HostsTakeOver};

use altair_laws::{altairs_are_lawful, altairs_respond, the_image_copies};

/// Whatever processes of a pair of Altairs did, in whatever order, and whatever was lost: a host that may still serve goes
/// live; a live host brings all that is outstanding to its devices; a whole pair empties its log, and comes to rest; a host
/// that joins gets its parts; a live host makes a whole pair with a spare one, makes steps, takes keys and reads its disk.
pub fn altair_hosts_are_never_stuck()
    ensures shown { AltairHostsShowAWorld }
    ensures takes_over { AltairHostsAlways HostsTakeOver }
    ensures completes { AltairHostsAlways HostsComplete }
    ensures soon { AltairHostsAlways HostsCompleteSoon }
    ensures recovers { AltairHostsAlways HostsRecover }
    ensures catch_up { AltairHostsAlways HostsCatchUp }
    ensures settle { AltairHostsAlways HostsSettle }
    ensures join { AltairHostsAlways HostsGetParts }
    ensures go_on { AltairHostsAlways HostsGoOn }
    ensures keys { AltairHostsAlways HostsTakeKeys }
    ensures read { AltairHostsAlways HostsRead }
    ensures renew { AltairHostsAlways HostsRenew }
{
    altairs_are_lawful();
    altairs_respond();
    the_image_copies();
}

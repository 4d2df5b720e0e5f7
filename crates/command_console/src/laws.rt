//! The law of processes, for the loops that run. Nothing here runs.
ghost use Rattle.command_console.specs.Altairs.{AltairProcessesAreKept};
ghost use Rattle.command_console.specs.Laws.{ProcessesAreAFleet, ProcessesAreKept};
ghost use Rattle.command_console.specs.Runs.{EachHasGone};
ghost use Rattle.command_console.specs.Streams.{StreamsDeliver};

use altair_laws::{altairs_are_lawful, the_image_copies};

/// The processes of a pair do what their loops promise, one after another in any order; what passed between the outside and its user
/// meanwhile is what passed by the moves of its loop.
pub fn processes_go<B, H, S>()
    ensures { EachHasGone B H S }
{}

/// Whatever the processes of a pair do, interleaved in any order, over streams that deliver only what was written to them: together
/// they are a fleet of the law of processes. So the devices of the outside have what one never-failing machine gives; what was shown
/// is what that one puts out, but for the last bytes of a window, from the first of the keys that were typed; and at most one host
/// is alone.
pub fn processes_are_a_fleet<B, H, S>()
    ensures fleet { ProcessesAreAFleet B H S }
    ensures kept { ProcessesAreKept B H S }
{}

/// So it is with the Altair of any setup, copied by its image.
pub fn altair_processes_are_kept<B, H>()
    ensures { AltairProcessesAreKept B H }
{
    altairs_are_lawful();
    the_image_copies();
}

/// The threads at the two ends of a stream alter nothing: what one hands on was given to the other.
pub fn streams_deliver<R, W>()
    ensures { StreamsDeliver R W }
{}

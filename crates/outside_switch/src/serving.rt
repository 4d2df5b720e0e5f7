//! The loop of the outside.
ghost use Rattle.outside_switch.specs.Judging.{AreCounted};
ghost use Rattle.outside_switch.specs.LoopRuns.{Ended, IsWhy, Went};

use crate::session::{HostsEnd, Session};
use crate::steward::Steward;
use host_frames::{Rests, micros};
use shared_disk::SectorStore;
use std::alloc::Global;
use std::sync::Wait;
use std::thread::Parker;
use std::time::Clock;

// How many microseconds the loop rests if nobody wakes it.
const REST: u64 = 5_000;

/// Serves the hosts until there is a reason to end, and then tells them to stop. Whoever has something for the outside wakes it
/// through the parker.
pub fn run_hosts<D: SectorStore, S: Steward + Drop, C: Wait + Clock>(
    rt: &C,
    alloc: Global,
    session: &mut Session<D, S>,
    wake: &Parker,
) -> HostsEnd
    ensures { Ended result session.old session.new }
{
    session.flood.clear();
    let end = serve(rt, alloc, session, wake);
    session.switch.stop(alloc);
    end
}

// Serves the hosts until there is a reason to end.
#[tactic(auto, using(crate::proofs::TurnsGoing::stays))]
fn serve<D: SectorStore, S: Steward + Drop, C: Wait + Clock>(
    rt: &C,
    alloc: Global,
    session: &mut Session<D, S>,
    wake: &Parker,
) -> HostsEnd
    requires { AreCounted session.old }
    ensures went { Went session.old session.new }
    ensures why { IsWhy result session.new }
{
    let mut rests = Rests::new(0);
    for _ in rt.forever() {
        let now = micros(rt, session.moments.turned);
        let is_busy = session.turn(alloc, now);
        if let Some(end) = session.end(now) {
            return end;
        }
        if is_busy {
            rests.find(now);
        } else {
            rests.rest(rt, now, wake, REST);
        }
    }
    unreachable!()
}

//! The five workers of a generation on threads.
ghost use Rattle.std.specs.Thread.{IsSync};
ghost use Rattle.pair_threads.specs.Served.{HasServed, MayBegin};

use crate::gate::{Gate, Who};
use crate::signals::Signals;
use crate::worker::{Worker, serve};
use i8080_words::R;
use pair_rule::Fabric;
use std::thread::{Threads, join};
use std::time::Clock;

/// One thing for each seat.
#[derive(Drop)]
pub(crate) struct Five<P, L, B, T, D> {
    pub(crate) primary: P,
    pub(crate) link: L,
    pub(crate) backup: B,
    pub(crate) terminal: T,
    pub(crate) disk: D,
}

/// A worker after its turns, and its result.
pub(crate) type WorkerEnd<W> = (W, R<()>);

// Runs two workers, each on its own thread.
fn serve_both<
    P: Worker + Send + Drop,
    Q: Worker + Send + Drop,
    G: Gate + Sync,
    H: Threads + Clock + Sync,
>(
    rt: &H,
    first: P,
    first_who: Who,
    second: Q,
    second_who: Who,
    fabric: &Fabric,
    gate: &G,
    signals: &Signals,
    turns: u64,
    contested: bool,
) -> (WorkerEnd<P>, WorkerEnd<Q>)
    requires first { MayBegin P.table P.ready P.came fabric.now first }
    requires second { MayBegin Q.table Q.ready Q.came fabric.now second }
    ensures first { HasServed P.table P.came P.ended fabric.now first result.0 }
    ensures second { HasServed Q.table Q.came Q.ended fabric.now second result.1 }
{
    join(
        rt,
        move || -> (P, R<()>)
            requires { MayBegin P.table P.ready P.came fabric.now first }
            ensures { HasServed P.table P.came P.ended fabric.entry.now first result }
        {
            serve(
                rt, first, first_who, fabric, gate, signals, turns, contested,
            )
        },
        move || -> (Q, R<()>)
            requires { MayBegin Q.table Q.ready Q.came fabric.now second }
            ensures { HasServed Q.table Q.came Q.ended fabric.entry.now second result }
        {
            serve(
                rt, second, second_who, fabric, gate, signals, turns, contested,
            )
        },
    )
}

/// Runs the five workers, each on its own thread, with at most this many turns for the primary and for the backup.
/// `contested` says whether one of them is planned to ask at a turn.
pub(crate) fn work<
    P: Worker + Send + Drop,
    L: Worker + Send + Drop,
    B: Worker + Send + Drop,
    T: Worker + Send + Drop,
    D: Worker + Send + Drop,
    G: Gate + Sync,
    H: Threads + Clock + Sync,
>(
    rt: &H,
    five: Five<P, L, B, T, D>,
    fabric: &Fabric,
    gate: &G,
    turns: u64,
    contested: bool,
) -> Five<WorkerEnd<P>, WorkerEnd<L>, WorkerEnd<B>, WorkerEnd<T>, WorkerEnd<D>>
    requires primary { MayBegin P.table P.ready P.came fabric.now five.primary }
    requires link { MayBegin L.table L.ready L.came fabric.now five.link }
    requires backup { MayBegin B.table B.ready B.came fabric.now five.backup }
    requires terminal { MayBegin T.table T.ready T.came fabric.now five.terminal }
    requires disk { MayBegin D.table D.ready D.came fabric.now five.disk }
    ensures primary { HasServed P.table P.came P.ended fabric.now five.primary result.primary }
    ensures link { HasServed L.table L.came L.ended fabric.now five.link result.link }
    ensures backup { HasServed B.table B.came B.ended fabric.now five.backup result.backup }
    ensures terminal { HasServed T.table T.came T.ended fabric.now five.terminal result.terminal }
    ensures disk { HasServed D.table D.came D.ended fabric.now five.disk result.disk }
{
    let Five {
        primary,
        link,
        backup,
        terminal,
        disk,
    } = five;
    let told = Signals::new();
    let signals = &told;
    let ((primary, backup), ((link, terminal), disk)) = join(
        rt,
        move || -> ((P, R<()>), (B, R<()>))
            requires { MayBegin P.table P.ready P.came fabric.now primary
                × MayBegin B.table B.ready B.came fabric.now backup × IsSync H.row }
            ensures { HasServed P.table P.came P.ended fabric.entry.now primary result.0
                × HasServed B.table B.came B.ended fabric.entry.now backup result.1 }
        {
            let (lead, follow) = (Who::Primary, Who::Backup);
            serve_both(
                rt, primary, lead, backup, follow, fabric, gate, signals, turns, contested,
            )
        },
        move || -> (((L, R<()>), (T, R<()>)), (D, R<()>))
            requires { MayBegin L.table L.ready L.came fabric.now link
                × MayBegin T.table T.ready T.came fabric.now terminal
                × MayBegin D.table D.ready D.came fabric.now disk × IsSync H.row }
            ensures { HasServed L.table L.came L.ended fabric.entry.now link result.0.0
                × HasServed T.table T.came T.ended fabric.entry.now terminal result.0.1
                × HasServed D.table D.came D.ended fabric.entry.now disk result.1 }
        {
            join(
                rt,
                move || -> ((L, R<()>), (T, R<()>))
                    requires { MayBegin L.table L.ready L.came fabric.now link
                        × MayBegin T.table T.ready T.came fabric.now terminal × IsSync H.row }
                    ensures { HasServed L.table L.came L.ended fabric.entry.now link result.0
                        × HasServed T.table T.came T.ended fabric.entry.now terminal result.1 }
                {
                    let (carry, show) = (Who::Link, Who::Terminal);
                    serve_both(
                        rt, link, carry, terminal, show, fabric, gate, signals, turns, contested,
                    )
                },
                move || -> (D, R<()>)
                    requires { MayBegin D.table D.ready D.came fabric.now disk }
                    ensures { HasServed D.table D.came D.ended fabric.entry.now disk result }
                { serve(rt, disk, Who::Disk, fabric, gate, signals, turns, contested) },
            )
        },
    );
    Five {
        primary,
        link,
        backup,
        terminal,
        disk,
    }
}

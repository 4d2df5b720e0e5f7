//! The thread that writes what appears, from its start to its end.
ghost use Rattle.std.specs.Prelude.{◌≡◌, IfOk, IfSome, OnOk, true};
ghost use Rattle.command_console.specs.Showing.{HasFinished};
ghost use Rattle.console_terminal.specs.Screen.{IsClear, Wrote};
ghost use Rattle.rtrb.specs.Ring.{IsFinishedOf, all_sent, received};

use command_io::Failure;
use console_terminal::{Display, Screen, Shown, Signs, show_all};
use rtrb::{Consumer, Finished};
use std::io::{self, Write};
use std::snapshot::Snapshot;
use std::sync::Arc;
use std::thread::{self, Promise, PromisedHandle, Threads};
use std::time::Clock;

/// What comes to a display is written or kept, if no write fails.
#[derive(Drop)]
pub(crate) struct WritesAll<W, N>(Snapshot<Display<W, N>>);

impl<W: Write, N: Write> Promise<(Display<W, N>, io::Result<()>)> for WritesAll<W, N> {
    ghost kept_by = { λ promise result. OnOk result.1 (Wrote W.contents N.contents promise.0.value result.0) };
}

/// The thread that writes what appears.
pub(crate) type Showing<W, N> = PromisedHandle<(Display<W, N>, io::Result<()>), WritesAll<W, N>>;

/// Starts the thread. `OutOfMemory` if there is none for it.
pub(crate) fn start_showing<
    H: Threads + Clock + Copy + Drop + Send + Sync + 'static,
    W: Write + Drop + Send + 'static,
    N: Write + Drop + Send + 'static,
>(rt: H, display: Display<W, N>, signs: Arc<Signs>) -> Result<Showing<W, N>, Failure>
    requires { IsClear display }
    ensures { IfOk result (λ showing. showing.promise.0.value ≡ display) }
{
    let promise = WritesAll(Snapshot::of(&display));
    let thread = thread::spawn_with(
        &rt,
        promise,
        move || -> (Display<W, N>, io::Result<()>)
            requires { IsClear display }
            ensures { OnOk result.1 (Wrote W.contents N.contents display result.0) }
        { show(&rt, display, &signs) },
    );
    match thread {
        Ok(showing) => Ok(showing),
        Err(_) => Err(Failure::OutOfMemory),
    }
}

// Writes what appears until nothing more can come.
fn show<C: Clock, W: Write + Drop, N: Write + Drop>(
    clock: &C,
    display: Display<W, N>,
    signs: &Signs,
) -> (Display<W, N>, io::Result<()>)
    requires { IsClear display }
    ensures { OnOk result.1 (Wrote W.contents N.contents display result.0) }
{
    show_all(clock, display, signs)
}

/// Nothing more goes into the ring of a screen. None if nobody takes anything out of it any more.
pub(crate) fn finish(screen: Screen) -> Option<Finished<Shown>>
    ensures { IfSome result (HasFinished screen) }
{
    screen.into_ring()?.finish()
}

/// Whether all that went into a ring has come out.
pub(crate) fn is_all(mut finished: Finished<Shown>, mut shown: Consumer<Shown>) -> bool
    requires { IsFinishedOf finished shown }
    ensures { result ≡ true → received shown ≡ all_sent finished }
{
    shown.slots_after(&mut finished) == 0
}

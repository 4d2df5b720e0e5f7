//! The thread that writes what appears.
ghost use Rattle.std.specs.Prelude.{OnOk};
ghost use Rattle.console_terminal.specs.Screen.{HasNoMore, IsClear, Wrote};

use crate::display::Display;
use crate::signs::{Over, Signs};
use std::io::{self, ErrorKind, Write};
use std::thread;
use std::time::{Clock, Duration};

// For how many microseconds it rests if nothing has come, at first and at most.
const FIRST_REST: u64 = 50;

const LONGEST_REST: u64 = 1_000;

/// Writes what comes to a display until nothing more can come, and then what is left in its rings. After that no more keys are wanted.
/// Nor are they if a writer fails: what comes after that is dropped, so that nobody waits for a place in a ring that is full.
pub fn show_all<C: Clock, W: Write + Drop, N: Write + Drop>(
    clock: &C,
    mut display: Display<W, N>,
    signs: &Signs,
) -> (Display<W, N>, io::Result<()>)
    requires { IsClear display }
    ensures wrote { OnOk result.1 (Wrote W.contents N.contents display result.0) }
    ensures rest { OnOk result.1 (HasNoMore result.0) }
{
    let end = write_all(clock, &mut display, signs);
    signs.stop();
    if end.is_err() {
        drop_all(clock, &mut display, signs);
    }
    (display, end)
}

// Writes all that comes.
#[tactic(auto, using(crate::proofs::Pieces::and_then))]
fn write_all<C: Clock, W: Write + Drop, N: Write + Drop>(
    clock: &C,
    display: &mut Display<W, N>,
    signs: &Signs,
) -> io::Result<()>
    requires { IsClear display.old }
    ensures wrote { OnOk result (Wrote W.contents N.contents display.old display.new) }
    ensures rest { OnOk result (HasNoMore display.new) }
{
    let over = write_until_over(clock, display, signs)?;
    write_rest(display, signs, over)?;
    Ok(())
}

// Writes what comes until nothing more can come. What came before that was seen may still be in the rings.
#[tactic(auto, using(crate::proofs::Pieces::nothing_yet, crate::proofs::Pieces::and_then))]
fn write_until_over<C: Clock, W: Write + Drop, N: Write + Drop>(
    clock: &C,
    display: &mut Display<W, N>,
    signs: &Signs,
) -> io::Result<Over>
    requires { IsClear display.old }
    ensures { OnOk result (Wrote W.contents N.contents display.old display.new) }
{
    let mut rest = FIRST_REST;
    for _ in 0..u64::MAX {
        if let Some(over) = signs.over() {
            return Ok(over);
        }
        if display.turn()? {
            signs.moves();
            rest = FIRST_REST;
            continue;
        }
        thread::sleep(clock, Duration::from_micros(rest));
        rest = rest.saturating_mul(2).min(LONGEST_REST);
    }
    Err(io::Error::from(ErrorKind::TimedOut))
}

// Writes what is left in the rings, once nothing more can come.
#[tactic(auto, using(crate::proofs::Pieces::nothing_yet, crate::proofs::Pieces::and_then))]
fn write_rest<W: Write + Drop, N: Write + Drop>(
    display: &mut Display<W, N>,
    signs: &Signs,
    _over: Over,
) -> io::Result<()>
    requires { IsClear display.old }
    ensures wrote { OnOk result (Wrote W.contents N.contents display.old display.new) }
    ensures rest { OnOk result (HasNoMore display.new) }
{
    for _ in 0..u64::MAX {
        if !display.turn()? {
            return Ok(());
        }
        signs.moves();
    }
    Err(io::Error::from(ErrorKind::TimedOut))
}

// Drops what comes until nothing more can come.
fn drop_all<C: Clock, W, N>(clock: &C, display: &mut Display<W, N>, signs: &Signs) {
    for _ in 0..u64::MAX {
        let is_over = signs.is_over();
        if display.drop_next() {
            continue;
        }
        if is_over {
            return;
        }
        thread::sleep(clock, Duration::from_millis(1));
    }
}

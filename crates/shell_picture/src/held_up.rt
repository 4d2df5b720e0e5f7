//! What is told after a day of the refusals that hold something up.
ghost use Rattle.std.specs.Prelude.{◌++◌, IfOk, Some};
ghost use Rattle.std.specs.Fmt.{WritesOnOk, decimal};
ghost use Rattle.shell_language.specs.HeldUp.{meeting_of};
ghost use Rattle.shell_language.specs.Texts.{AddsSome, Prints};
ghost use Rattle.shell_picture.specs.HeldUp.{held_if, held_rows, named_last, output_text};

use i8080_words::Fault;
use pair_events::Event;
use shell_language::{
    Book, Meeting, OutstandingOutput, Played, Printed, Spelled, holds_up, meeting_of, refusals,
};
use std::alloc::AllocError;
use std::fmt;

/// A line for each refusal that the events of a tape met and that holds something up after them.
#[tactic(auto, using(shell_language::proofs::Adding::prints_some))]
pub fn print_held_up(tape: &[Played], book: &Book, printed: &mut Printed) -> Result<(), AllocError>
    ensures some { IfOk result (λ _. AddsSome printed.old printed.new) }
    ensures told { IfOk result (λ _. Prints (held_rows tape.now book.now) printed.old printed.new) }
{
    for fault in refusals() {
        print_if(*fault, meeting_of(*fault, tape), book, printed)?;
    }
    Ok(())
}

// The line of a refusal of which so much was met, if it holds something up.
#[tactic(auto, using(shell_language::proofs::Adding::prints_none, shell_language::proofs::Adding::prints_one))]
fn print_if(
    fault: Fault,
    met: Meeting,
    book: &Book,
    printed: &mut Printed,
) -> Result<(), AllocError>
    ensures { IfOk result (λ _. Prints (held_if fault met book.now) printed.old printed.new) }
{
    let waiting = book.waiting();
    if !holds_up(fault, met, waiting) {
        return Ok(());
    }
    let number = fault.number();
    match fault {
        Fault::NotCovered => {
            let front = format_args!("  {}: refused {number}, ", Output(waiting));
            let back = format_args!(
                "; {} of {} entries are acknowledged",
                book.held, book.logged
            );
            printed.around(&front, fault, &back)?;
            Ok(())
        }
        _ => {
            let Meeting { times, last } = met;
            let front = format_args!("  {times} events{}: refused {number}, ", Last(last));
            printed.around(&front, fault, &"")?;
            Ok(())
        }
    }
}

// The output that waits.
#[derive(Clone, Copy)]
struct Output(OutstandingOutput);

impl fmt::Display for Output {
    ghost output = { λ output. Some (output_text output.0) };

    fn fmt<W: fmt::Write>(&self, f: &mut fmt::Formatter<W>) -> fmt::Result {
        let OutstandingOutput { bytes, writes } = self.0;
        match (bytes, writes) {
            (_, 0) => write_count(f, bytes, " bytes wait"),
            (0, _) => write_count(f, writes, " writes wait"),
            (_, _) => {
                write_count(f, bytes, " bytes and ")?;
                write_count(f, writes, " writes wait")
            }
        }
    }
}

// A number, and what it counts.
fn write_count<W: fmt::Write>(f: &mut fmt::Formatter<W>, count: u64, what: &str) -> fmt::Result
    ensures { WritesOnOk W.write_str_gives f.old result (decimal count ++ what.now) f.new }
{
    write!(f, "{count}{what}")
}

// The last event that was refused, if it is known.
#[derive(Clone, Copy)]
struct Last(Option<Event>);

impl fmt::Display for Last {
    ghost output = { λ last. Some (named_last last.0) };

    fn fmt<W: fmt::Write>(&self, f: &mut fmt::Formatter<W>) -> fmt::Result {
        match self.0 {
            Some(event) => write!(f, ", the last `{}`", Spelled(event)),
            None => Ok(()),
        }
    }
}

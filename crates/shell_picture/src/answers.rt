//! What lines that are not events answer.
ghost use Rattle.std.specs.Prelude.{◌≡◌, ◌∷◌, [], IfOk, Some, drop, length};
ghost use Rattle.shell_language.specs.Texts.{AddsSome, Prints, Text};
ghost use Rattle.shell_picture.specs.Screens.{line_rows, screen_rows};
ghost use Rattle.shell_picture.specs.Answers.{counted, help_rows, message_text, others_text, refusal_rows, refused, sum_of, sum_row};

use crate::lists::{FormLine, RefusalLine};
use crate::screen::{ScreenHead, ScreenLine};
use event_callbacks::PORTS;
use i8080_words::{Fault, R};
use pair_events::Reply;
use script_language::first_line;
use shell_language::{Book, Played, Printed, forms, refusals};
use std::alloc::AllocError;

/// A refusal of a line that only the shell has, in words.
#[tactic(auto, using(shell_language::proofs::Adding::prints_one))]
pub fn print_refusal(fault: Fault, printed: &mut Printed) -> Result<(), AllocError>
    ensures some { IfOk result (λ _. AddsSome printed.old printed.new) }
    ensures told { IfOk result (λ _. Prints (refused fault ∷ []) printed.old printed.new) }
{
    printed.around(&format_args!("refused {}, ", fault.number()), fault, &"")?;
    Ok(())
}

/// What the terminal of a port has accepted, as text: all of it, or what came after its first so many bytes.
#[tactic(auto, using(crate::proofs::Screens::screen_shown, crate::proofs::Screens::screen_refused))]
pub fn print_screen(
    port: u8,
    bytes: &[u8],
    seen: Option<usize>,
    printed: &mut Printed,
) -> Result<(), AllocError>
    ensures { IfOk result (λ _. Prints (screen_rows port bytes.now seen) printed.old printed.new) }
{
    if usize::from(port) >= PORTS {
        return print_refusal(Fault::Unknown, printed);
    }
    let shown = after(bytes, seen.unwrap_or(0));
    let head = ScreenHead {
        port,
        count: shown.len(),
        is_new: seen.is_some(),
    };
    printed.line(&head)?;
    print_lines(shown, printed)
}

// The lines of what a terminal shows.
fn print_lines(text: &[u8], printed: &mut Printed) -> Result<(), AllocError>
    ensures { IfOk result (λ _. Prints (line_rows text.now) printed.old printed.new) }
{
    let mut rest = text;
    'lines: while !rest.is_empty() {
        let (line, after) = first_line(rest);
        printed.line(&ScreenLine(line))?;
        rest = after;
    }
    Ok(())
}

// What comes after so many bytes.
pub(crate) fn after(bytes: &[u8], seen: usize) -> &[u8]
    ensures { result.now ≡ drop seen bytes.now }
{
    if seen < bytes.len() {
        &bytes[seen..]
    } else {
        &[]
    }
}

/// The number of the last message.
#[tactic(auto, using(shell_language::proofs::Adding::prints_text))]
pub fn print_last(book: &Book, printed: &mut Printed) -> Result<(), AllocError>
    ensures { IfOk result (λ _. Prints (Text (message_text (length book.now.letters.items)) ∷ []) printed.old printed.new) }
{
    let messages = book.messages();
    if messages == 0 {
        printed.line(&"no message")?;
        return Ok(());
    }
    let message = messages - 1;
    printed.line(&Reply::Message { message })?;
    Ok(())
}

/// All forms of lines.
#[tactic(auto, using(shell_language::proofs::Adding::prints_none))]
pub fn print_help(printed: &mut Printed) -> Result<(), AllocError>
    ensures { IfOk result (λ _. Prints help_rows printed.old printed.new) }
{
    for form in forms() {
        printed.line(&FormLine(form))?;
    }
    Ok(())
}

/// All refusals of events.
#[tactic(auto, using(shell_language::proofs::Adding::prints_none))]
pub fn print_refusals(printed: &mut Printed) -> Result<(), AllocError>
    ensures { IfOk result (λ _. Prints refusal_rows printed.old printed.new) }
{
    for fault in refusals() {
        printed.line(&RefusalLine(*fault))?;
    }
    Ok(())
}

/// How many events of a tape happened, what was answered to the last one, and how many were refused.
#[tactic(auto, using(shell_language::proofs::Adding::prints_one, shell_language::proofs::Adding::prints_text))]
pub fn print_sum(tape: &[Played], printed: &mut Printed) -> Result<(), AllocError>
    ensures some { IfOk result (λ _. AddsSome printed.old printed.new) }
    ensures told { IfOk result (λ _. Prints (sum_row tape.now ∷ []) printed.old printed.new) }
{
    let Sum {
        happened,
        refused,
        last,
    } = sum_of(tape);
    let others = Others(refused);
    match last {
        None => {
            printed.line(&"nothing to do")?;
            Ok(())
        }
        Some(Ok(reply)) => {
            printed.line(&format_args!("{happened} done, the last: {reply}{others}"))?;
            Ok(())
        }
        Some(Err(fault)) => {
            let number = fault.number();
            let front = format_args!("{happened} done, the last: refused {number}, ");
            printed.around(&front, fault, &others)?;
            Ok(())
        }
    }
}

/// How many events happened, how many were refused, and the last answer.
#[derive(Clone, Copy)]
pub struct Sum {
    pub happened: u64,
    pub refused: u64,
    pub last: Option<R<Reply>>,
}

// The same of the events of a tape.
fn sum_of(tape: &[Played]) -> Sum
    ensures { result ≡ sum_of tape.now }
{
    let mut sum = Sum {
        happened: 0,
        refused: 0,
        last: None,
    };
    let mut rest = tape;
    'events: while let [played, after @ ..] = rest {
        sum = counted(played.answer, sum);
        rest = after;
    }
    sum
}

// The same with one event more.
fn counted(answer: R<Reply>, sum: Sum) -> Sum
    ensures { result ≡ counted answer sum }
{
    match answer {
        Ok(_) => Sum {
            happened: sum.happened.saturating_add(1),
            refused: sum.refused,
            last: Some(answer),
        },
        Err(_) => Sum {
            happened: sum.happened,
            refused: sum.refused.saturating_add(1),
            last: Some(answer),
        },
    }
}

// How many were refused, if any.
#[derive(Clone, Copy)]
struct Others(u64);

impl std::fmt::Display for Others {
    ghost output = { λ others. Some (others_text others.0) };

    fn fmt<W: std::fmt::Write>(&self, f: &mut std::fmt::Formatter<W>) -> std::fmt::Result {
        match self.0 {
            0 => Ok(()),
            refused => write!(f, "; {refused} refused"),
        }
    }
}

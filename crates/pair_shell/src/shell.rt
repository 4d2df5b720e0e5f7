//! The shell over a reader and a writer: each line is answered before more is read.
ghost use Rattle.std.specs.Prelude.{◌≡◌, ◌≤◌, ◌∷◌, [], IfErr, IfOk, IfSome, MatchOption, OnOk, false, true, take};
ghost use Rattle.std.specs.Io.KnownBytes.{Appends, Consumes, IsAtEnd};
ghost use Rattle.event_callbacks.specs.declared.devices.TheConstants.{SENT, SECTOR, WRITTEN};
ghost use Rattle.event_callbacks.specs.Keeping.{Keeps};
ghost use Rattle.pair_shell.specs.Lines.{after_byte, byte_ends, ends_in, heard_at, heard_in, is_quit_line, is_run_line, kept_in, kept_with, last_line, without_cr};
ghost use Rattle.pair_shell.specs.Running.{AnswersEach, AnswersFurther, HearsFrom, desk};
ghost use Rattle.pair_shell.specs.Hearing.{Answers, Hears};
ghost use Rattle.shell_language.specs.Outcomes.{is_ended};
ghost use Rattle.command_io.specs.declared.failure.Failure.TheVariants as failure;

use crate::session::ShellSession;
use command_io::Failure;
use event_callbacks::Completes;
use shell_language::{LINE_BYTES, LineOutcome, ShellLine, read_line};
use std::alloc::Global;
use std::io::{ErrorKind, Read, Write};

// The most bytes that a read asks for.
const BLOCK_BYTES: usize = 4096;

// How many bytes of a line are kept: one more than a line may have, and a CR.
const KEPT_BYTES: usize = LINE_BYTES + 2;

/// Answers the lines of a reader, up to its end or to a line `quit`, by a session whose completions are these closures.
#[tactic(auto, using(crate::proofs::Hearing::hears_first, crate::proofs::Hearing::writes_none))]
pub fn run_shell<
    T: Completes + Drop + Copy,
    S: Completes + Drop + Copy,
    W: Completes + Drop + Copy,
    R: Read + Drop,
    O: Write + Drop,
>(
    alloc: Global,
    reader: &mut R,
    writer: &mut O,
    sent: T,
    sector: S,
    written: W,
) -> Result<(), Failure>
    requires sent { Keeps (T.may sent) (T.gives sent) SENT }
    requires sector { Keeps (S.may sector) (S.gives sector) SECTOR }
    requires written { Keeps (W.may written) (W.gives written) WRITTEN }
    ensures { Hears (R.remaining reader.old) result (O.contents writer.old) (O.contents writer.new) }
{
    let mut session = ShellSession::new(alloc)?;
    hear(alloc, &mut session, reader, writer, sent, sector, written)
}

// Answers the lines of a reader by a session.
#[tactic(auto, using(crate::proofs::Hearing::writes_none))]
fn hear<
    T: Completes + Drop + Copy,
    S: Completes + Drop + Copy,
    W: Completes + Drop + Copy,
    R: Read + Drop,
    O: Write + Drop,
>(
    alloc: Global,
    session: &mut ShellSession<T, S, W>,
    reader: &mut R,
    writer: &mut O,
    sent: T,
    sector: S,
    written: W,
) -> Result<(), Failure>
    requires sent { Keeps (T.may sent) (T.gives sent) SENT }
    requires sector { Keeps (S.may sector) (S.gives sector) SECTOR }
    requires written { Keeps (W.may written) (W.gives written) WRITTEN }
    ensures { HearsFrom (λ d. d.board.guest) (desk session.old.opening session.old.world session.old.is_traced)
        (R.remaining reader.old) result (O.contents writer.old) (O.contents writer.new) }
{
    let mut line = Vec::new(alloc);
    'blocks: for _ in 0..u64::MAX {
        let mut block = [0; BLOCK_BYTES];
        let Some(count) = read_block(reader, &mut block)? else {
            return answer_last(alloc, session, &line, writer, sent, sector, written);
        };
        let block = &block[..count];
        let outcome = take_block(
            alloc, session, &mut line, block, writer, sent, sector, written,
        )?;
        if has_ended(outcome) {
            return Ok(());
        }
    }
    Err(Failure::InputOrOutput)
}

// Whether the session has ended with a line.
fn has_ended(outcome: LineOutcome) -> bool
    ensures { result ≡ is_ended outcome }
{
    matches!(outcome, LineOutcome::Ended)
}

// Reads once. None at the reader's end; no bytes if the read was interrupted.
fn read_block<R: Read + Drop>(
    reader: &mut R,
    block: &mut [u8; BLOCK_BYTES],
) -> Result<Option<usize>, Failure>
    ensures within { IfOk result (λ count. IfSome count (λ n. n ≤ BLOCK_BYTES)) }
    ensures bytes { IfOk result (λ count. MatchOption count
        (Consumes (R.remaining reader.old) (R.remaining reader.new) [] × IsAtEnd (R.remaining reader.new))
        (λ n. Consumes (R.remaining reader.old) (R.remaining reader.new) (take n block.new))) }
    ensures errors { IfErr result (λ e. e ≡ failure.InputOrOutput) }
{
    match reader.read(&mut block[..]) {
        Ok(0) => Ok(None),
        Ok(count) => Ok(Some(count)),
        Err(error) if error.kind() == ErrorKind::Interrupted => Ok(Some(0)),
        Err(_) => Err(Failure::InputOrOutput),
    }
}

// Answers the lines that end in a block, up to one with which the session ends, and keeps what comes after them. What it
// returns became of the last of them.
#[tactic(auto, using(crate::proofs::Hearing::writes_none, crate::proofs::Hearing::writes_more, crate::proofs::Hearing::answers_until, crate::proofs::Lines::ends_here, crate::proofs::Lines::ends_later, crate::proofs::Lines::keeps_later))]
fn take_block<
    T: Completes + Drop + Copy,
    S: Completes + Drop + Copy,
    W: Completes + Drop + Copy,
    O: Write + Drop,
>(
    alloc: Global,
    session: &mut ShellSession<T, S, W>,
    line: &mut Vec<u8>,
    block: &[u8],
    writer: &mut O,
    sent: T,
    sector: S,
    written: W,
) -> Result<LineOutcome, Failure>
    requires sent { Keeps (T.may sent) (T.gives sent) SENT }
    requires sector { Keeps (S.may sector) (S.gives sector) SECTOR }
    requires written { Keeps (W.may written) (W.gives written) WRITTEN }
    ensures written { Answers result (O.contents writer.old) (O.contents writer.new) }
    ensures heard { IfOk result (λ _. AnswersEach (λ d. d.board.guest)
        (desk session.old.opening session.old.world session.old.is_traced) (heard_in line.old.items block.now)
        (O.contents writer.old) (O.contents writer.new)
        (desk session.new.opening session.new.world session.new.is_traced)) }
    ensures ended { IfOk result (λ told. is_ended told ≡ ends_in line.old.items block.now) }
    ensures kept { IfOk result (λ told. is_ended told ≡ false → line.new.items ≡ kept_in line.old.items block.now) }
{
    let mut rest = block;
    'bytes: while let Some((byte, after)) = rest.split_first() {
        let outcome = take_byte(alloc, session, line, *byte, writer, sent, sector, written)?;
        if has_ended(outcome) {
            return Ok(LineOutcome::Ended);
        }
        rest = after;
    }
    Ok(LineOutcome::Done)
}

// Keeps a byte of a line, or answers the line that it ends.
#[tactic(auto, using(crate::proofs::Hearing::answers_until, crate::proofs::Hearing::answers_kept, crate::proofs::Hearing::each_kept))]
fn take_byte<
    T: Completes + Drop + Copy,
    S: Completes + Drop + Copy,
    W: Completes + Drop + Copy,
    O: Write + Drop,
>(
    alloc: Global,
    session: &mut ShellSession<T, S, W>,
    line: &mut Vec<u8>,
    byte: u8,
    writer: &mut O,
    sent: T,
    sector: S,
    written: W,
) -> Result<LineOutcome, Failure>
    requires sent { Keeps (T.may sent) (T.gives sent) SENT }
    requires sector { Keeps (S.may sector) (S.gives sector) SECTOR }
    requires written { Keeps (W.may written) (W.gives written) WRITTEN }
    ensures written { Answers result (O.contents writer.old) (O.contents writer.new) }
    ensures heard { IfOk result (λ _. AnswersEach (λ d. d.board.guest)
        (desk session.old.opening session.old.world session.old.is_traced) (heard_at line.old.items byte)
        (O.contents writer.old) (O.contents writer.new)
        (desk session.new.opening session.new.world session.new.is_traced)) }
    ensures ended { IfOk result (λ told. is_ended told ≡ byte_ends line.old.items byte) }
    ensures kept { IfOk result (λ _. line.new.items ≡ after_byte line.old.items byte) }
{
    if byte != b'\n' {
        return keep(line, byte);
    }
    let outcome = answer(alloc, session, line, writer, sent, sector, written)?;
    line.clear();
    Ok(outcome)
}

// Keeps a byte that ends no line.
fn keep(line: &mut Vec<u8>, byte: u8) -> Result<LineOutcome, Failure>
    ensures goes_on { IfOk result (λ told. is_ended told ≡ false) }
    ensures kept { IfOk result (λ _. line.new.items ≡ kept_with line.old.items byte) }
    ensures full { IfErr result (λ e. e ≡ failure.OutOfMemory) }
{
    if line.len() < KEPT_BYTES {
        line.push(byte)?;
    }
    Ok(LineOutcome::Done)
}

// Answers what is left at the reader's end, if it is a line.
#[tactic(auto, using(crate::proofs::Hearing::writes_none, crate::proofs::Answering::each_none))]
fn answer_last<
    T: Completes + Drop + Copy,
    S: Completes + Drop + Copy,
    W: Completes + Drop + Copy,
    O: Write + Drop,
>(
    alloc: Global,
    session: &mut ShellSession<T, S, W>,
    line: &[u8],
    writer: &mut O,
    sent: T,
    sector: S,
    written: W,
) -> Result<(), Failure>
    requires sent { Keeps (T.may sent) (T.gives sent) SENT }
    requires sector { Keeps (S.may sector) (S.gives sector) SECTOR }
    requires written { Keeps (W.may written) (W.gives written) WRITTEN }
    ensures written { Answers result (O.contents writer.old) (O.contents writer.new) }
    ensures heard { IfOk result (λ _. AnswersEach (λ d. d.board.guest)
        (desk session.old.opening session.old.world session.old.is_traced) (last_line line.now)
        (O.contents writer.old) (O.contents writer.new)
        (desk session.new.opening session.new.world session.new.is_traced)) }
{
    if line.is_empty() {
        return Ok(());
    }
    answer(alloc, session, line, writer, sent, sector, written)?;
    Ok(())
}

// Answers a line, and writes the answer at once. If it is a day that pauses, it goes on.
#[tactic(auto, using(crate::proofs::Hearing::answers_until))]
fn answer<
    T: Completes + Drop + Copy,
    S: Completes + Drop + Copy,
    W: Completes + Drop + Copy,
    O: Write + Drop,
>(
    alloc: Global,
    session: &mut ShellSession<T, S, W>,
    line: &[u8],
    writer: &mut O,
    sent: T,
    sector: S,
    written: W,
) -> Result<LineOutcome, Failure>
    requires sent { Keeps (T.may sent) (T.gives sent) SENT }
    requires sector { Keeps (S.may sector) (S.gives sector) SECTOR }
    requires written { Keeps (W.may written) (W.gives written) WRITTEN }
    ensures written { Answers result (O.contents writer.old) (O.contents writer.new) }
    ensures heard { IfOk result (λ _. AnswersEach (λ d. d.board.guest)
        (desk session.old.opening session.old.world session.old.is_traced) (line.now ∷ [])
        (O.contents writer.old) (O.contents writer.new)
        (desk session.new.opening session.new.world session.new.is_traced)) }
    ensures ended { IfOk result (λ told. is_ended told ≡ is_quit_line line.now) }
{
    let outcome = begin(alloc, session, line, writer, sent, sector, written)?;
    if !is_run_line(line) {
        return Ok(outcome);
    }
    go_on(alloc, session, line, writer)?;
    Ok(outcome)
}

// Answers a line, up to a pause of its day, and writes the answer at once.
#[tactic(auto, using(crate::proofs::Hearing::writes_none, crate::proofs::Hearing::wrote))]
fn begin<
    T: Completes + Drop + Copy,
    S: Completes + Drop + Copy,
    W: Completes + Drop + Copy,
    O: Write + Drop,
>(
    alloc: Global,
    session: &mut ShellSession<T, S, W>,
    line: &[u8],
    writer: &mut O,
    sent: T,
    sector: S,
    written: W,
) -> Result<LineOutcome, Failure>
    requires sent { Keeps (T.may sent) (T.gives sent) SENT }
    requires sector { Keeps (S.may sector) (S.gives sector) SECTOR }
    requires written { Keeps (W.may written) (W.gives written) WRITTEN }
    ensures written { Answers result (O.contents writer.old) (O.contents writer.new) }
    ensures heard { IfOk result (λ _. AnswersEach (λ d. d.board.guest)
        (desk session.old.opening session.old.world session.old.is_traced) (line.now ∷ [])
        (O.contents writer.old) (O.contents writer.new)
        (desk session.new.opening session.new.world session.new.is_traced)) }
    ensures ended { IfOk result (λ told. is_ended told ≡ is_quit_line line.now) }
{
    let (outcome, answered) = session.answer(alloc, sent, sector, written, without_cr(line))?;
    write(&answered, writer)?;
    Ok(outcome)
}

// Goes on with the day of a line until it has ended, and writes at once what is answered.
#[tactic(auto, using(crate::proofs::Hearing::writes_none, crate::proofs::Hearing::wrote, crate::proofs::Hearing::writes_more))]
fn go_on<
    T: Completes + Drop + Copy,
    S: Completes + Drop + Copy,
    W: Completes + Drop + Copy,
    O: Write + Drop,
>(
    alloc: Global,
    session: &mut ShellSession<T, S, W>,
    line: &[u8],
    writer: &mut O,
) -> Result<(), Failure>
    requires { is_run_line line.now ≡ true }
    ensures written { Answers result (O.contents writer.old) (O.contents writer.new) }
    ensures further { IfOk result (λ _. AnswersFurther (λ d. d.board.guest) line.now
        (desk session.old.opening session.old.world session.old.is_traced) (O.contents writer.old)
        (O.contents writer.new) (desk session.new.opening session.new.world session.new.is_traced)) }
{
    'pauses: for _ in 0..u64::MAX {
        if !session.goes_on() {
            return Ok(());
        }
        let answered = session.go_on(alloc)?;
        write(&answered, writer)?;
    }
    Ok(())
}

// Whether a line is a day of the pair.
fn is_run_line(line: &[u8]) -> bool
    ensures { result ≡ is_run_line line.now }
{
    matches!(read_line(without_cr(line)), Ok(ShellLine::Run(_)))
}

// Writes an answer at once.
fn write<O: Write + Drop>(answered: &str, writer: &mut O) -> Result<(), Failure>
    ensures written { OnOk result (Appends (O.contents writer.old) (O.contents writer.new) answered.now) }
    ensures errors { IfErr result (λ e. e ≡ failure.InputOrOutput) }
{
    writer.write_all(answered.as_bytes())?;
    writer.flush()?;
    Ok(())
}

// A line without its CR.
fn without_cr(line: &[u8]) -> &[u8]
    ensures { result.now ≡ without_cr line.now }
{
    line.strip_suffix(b"\r").unwrap_or(line)
}

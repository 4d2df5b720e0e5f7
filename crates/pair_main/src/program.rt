//! One run of the program.
ghost use Rattle.std.specs.Prelude.{map, string_bytes};
ghost use Rattle.command_line.specs.declared.options.Request.TheVariants as asked;
ghost use Rattle.pair_main.specs.Runs.{IsEnding, IsObeyed, IsRun, Writes, asked_by};

use command_console::Streams;
use command_io::{Failure, Language, read_input};
use command_line::{LiveOrder, Request, request_of};
use command_live::run_live;
use command_script::{ScriptTask, run_lint, run_picture, run_script};
use event_callbacks::plain_completions;
use pair_shell::run_shell;
use std::alloc::Global;
use std::borrow::CowStr;
use std::io::{IsTerminal, Read, Write};
use std::thread::Threads;
use std::time::Clock;

/// Runs the program on these words, the first of which is its name, and returns its exit status and its text for
/// standard error. All images and the whole script are read, and the script is parsed, before anything of it is run.
pub fn run_program<
    H: Threads + Clock + Sync,
    R: Read + IsTerminal + Drop + Send,
    W: Write + Drop + Send,
    N: Write + Drop + Send,
>(
    rt: &H,
    alloc: Global,
    arguments: &[String],
    streams: Streams<R, W, N>,
) -> (Streams<R, W, N>, (u8, CowStr<'static>))
    ensures { IsEnding R.remaining W.contents streams.reader result.0.reader streams.writer result.0.writer
        (map (λ word. string_bytes word) arguments.now) result.1 }
{
    let (streams, ended) = run(rt, alloc, arguments, streams);
    match ended {
        Ok(()) => (streams, (0, CowStr::Borrowed(""))),
        Err(failure) => (streams, failure.ending(alloc)),
    }
}

// Obeys what the words ask for.
#[tactic(auto, using(crate::proofs::Runs::obeyed, crate::proofs::Runs::refuses_words))]
fn run<
    H: Threads + Clock + Sync,
    R: Read + IsTerminal + Drop + Send,
    W: Write + Drop + Send,
    N: Write + Drop + Send,
>(
    rt: &H,
    alloc: Global,
    arguments: &[String],
    streams: Streams<R, W, N>,
) -> (Streams<R, W, N>, Result<(), Failure>)
    ensures { IsRun R.remaining W.contents streams.reader result.0.reader streams.writer result.0.writer
        (map (λ word. string_bytes word) arguments.now) result.1 }
{
    match request_of(alloc, arguments) {
        Ok(request) => obey(rt, alloc, request, streams),
        Err(failure) => (streams, Err(failure)),
    }
}

// Does what is asked for.
#[tactic(auto, using(crate::proofs::Runs::obeys_script, crate::proofs::Runs::obeys_check, crate::proofs::Runs::obeys_picture, crate::proofs::Runs::obeys_lint, crate::proofs::Runs::obeys_live, crate::proofs::Runs::obeys_shell, crate::proofs::Runs::obeys_host, crate::proofs::Runs::obeys_console, crate::proofs::Runs::obeys_recover, crate::proofs::Runs::obeys_help))]
fn obey<
    H: Threads + Clock + Sync,
    R: Read + IsTerminal + Drop + Send,
    W: Write + Drop + Send,
    N: Write + Drop + Send,
>(
    rt: &H,
    alloc: Global,
    request: Request,
    streams: Streams<R, W, N>,
) -> (Streams<R, W, N>, Result<(), Failure>)
    ensures { IsObeyed R.remaining W.contents streams.reader result.0.reader streams.writer result.0.writer request result.1 }
{
    let mut streams = streams;
    let ended = match request {
        Request::Script(images) => {
            run_order(
                alloc,
                ScriptTask::Script,
                images,
                &mut streams.reader,
                &mut streams.writer,
            )
        }
        Request::Check(images) => {
            run_order(
                alloc,
                ScriptTask::Check,
                images,
                &mut streams.reader,
                &mut streams.writer,
            )
        }
        Request::Picture(images) => draw(alloc, images, &mut streams.reader, &mut streams.writer),
        Request::Lint => run_lint(alloc, &mut streams.reader, &mut streams.writer),
        Request::Live(order) => {
            run_threads(rt, alloc, order, &mut streams.reader, &mut streams.writer)
        }
        Request::Shell => run_shell(
            alloc,
            &mut streams.reader,
            &mut streams.writer,
            plain_completions::sent,
            plain_completions::sector,
            plain_completions::written,
        ),
        Request::Help(text) => print_help(&text, &mut streams.writer),
        // A process of a pair runs over other streams.
        Request::Host(_order) => Ok(()),
        Request::Console(_order) => Ok(()),
        // A disk is taken up over files alone.
        Request::Recover(_path) => Ok(()),
    };
    (streams, ended)
}

// Writes what there is to ask for.
fn print_help<W: Write + Drop>(text: &String, writer: &mut W) -> Result<(), Failure>
    ensures { Writes (string_bytes text.now) result (W.contents writer.old) (W.contents writer.new) }
{
    writer.write_all(text.as_bytes())?;
    writer.flush()?;
    Ok(())
}

// Reads a script and the images before it, and does this with it.
#[tactic(auto, using(crate::proofs::Runs::refuses_order))]
fn run_order<R: Read + Drop, W: Write + Drop>(
    alloc: Global,
    order: ScriptTask,
    images: Vec<u8>,
    reader: &mut R,
    writer: &mut W,
) -> Result<(), Failure>
    ensures { IsObeyed R.remaining W.contents reader.old reader.new writer.old writer.new (asked_by order images) result }
{
    let input = read_input(alloc, Language::Any, &images, reader)?;
    run_script(alloc, order, &input, writer)
}

// Reads a script and the images before it, and draws what happens in it.
#[tactic(auto, using(crate::proofs::Runs::refuses_picture))]
fn draw<R: Read + Drop, W: Write + Drop>(
    alloc: Global,
    images: Vec<u8>,
    reader: &mut R,
    writer: &mut W,
) -> Result<(), Failure>
    ensures { IsObeyed R.remaining W.contents reader.old reader.new writer.old writer.new (asked.Picture images) result }
{
    let input = read_input(alloc, Language::Any, &images, reader)?;
    run_picture(alloc, &input, writer)
}

// Reads a script and the images before it, and runs its pair on threads.
#[tactic(auto, using(crate::proofs::Runs::refuses_live))]
fn run_threads<H: Threads + Clock + Sync, R: Read + Drop, W: Write + Drop>(
    rt: &H,
    alloc: Global,
    order: LiveOrder,
    reader: &mut R,
    writer: &mut W,
) -> Result<(), Failure>
    ensures { IsObeyed R.remaining W.contents reader.old reader.new writer.old writer.new (asked.Live order) result }
{
    let input = read_input(alloc, Language::Threads, &order.images, reader)?;
    run_live(rt, alloc, order, &input, writer)
}

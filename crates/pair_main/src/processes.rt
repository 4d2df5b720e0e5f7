//! One run of the program as a process of a pair: a host, or the console that its user sits at; or over files alone.
ghost use Rattle.std.specs.Prelude.{IfSome, map, string_bytes};
ghost use Rattle.pair_main.specs.Processes.{IsProcess, IsRunAs, Sits};

use command_console::{Streams, ending_of_console, ending_of_host, run_console, run_host};
use command_io::Failure;
use command_line::{ConsoleOrder, HostOrder, Request, request_of};
use disk_file::{recover_image, refusal_text, spoiled_text};
use std::alloc::Global;
use std::borrow::CowStr;
use std::io::{IsTerminal, Read, Write};
use std::sync::Wait;
use std::thread::Threads;
use std::time::Clock;

/// Runs a host or a console over these streams, if that is what the words ask for, and returns its exit status and its text for
/// standard error.
#[tactic(auto, using(crate::proofs::Serving::by_words))]
pub fn run_process<
    H: Threads + Wait + Clock + Copy + Drop + Send + Sync + 'static,
    R: Read + IsTerminal + Drop + Send + 'static,
    W: Write + Drop + Send + 'static,
    N: Write + Drop + Send + 'static,
>(
    rt: H,
    files: HostRuntime,
    alloc: Global,
    arguments: &[String],
    streams: Streams<R, W, N>,
) -> Option<(u8, CowStr<'static>)>
    ensures { IfSome result (IsProcess R.remaining W.contents N.contents (map (λ word. string_bytes word) arguments.now) streams) }
{
    match request_of(alloc, arguments) {
        Ok(request) => run_request(rt, files, alloc, request, streams),
        Err(_) => None,
    }
}

// Runs what is asked for, if it is a process of a pair, or takes a disk up.
#[tactic(auto, using(crate::proofs::Serving::as_console, crate::proofs::Serving::as_host, crate::proofs::Serving::as_recovery))]
fn run_request<
    H: Threads + Wait + Clock + Copy + Drop + Send + Sync + 'static,
    R: Read + IsTerminal + Drop + Send + 'static,
    W: Write + Drop + Send + 'static,
    N: Write + Drop + Send + 'static,
>(
    rt: H,
    files: HostRuntime,
    alloc: Global,
    request: Request,
    streams: Streams<R, W, N>,
) -> Option<(u8, CowStr<'static>)>
    ensures { IfSome result (IsRunAs R.remaining W.contents N.contents request streams) }
{
    match request {
        Request::Host(order) => Some(host(rt, alloc, &order, streams)),
        Request::Console(order) => Some(console(rt, files, alloc, &order, streams)),
        Request::Recover(path) => Some(recover(files, alloc, path.as_str())),
        _ => None,
    }
}

// Takes up what a crash has left in a file, and says so if what it left was cut or spoiled.
fn recover(files: HostRuntime, alloc: Global, path: &str) -> (u8, CowStr<'static>) {
    let (status, text) = match recover_image(alloc, &files, path) {
        Ok(false) => return (0, CowStr::Borrowed("")),
        Ok(true) => (0, spoiled_text(alloc, path)),
        Err(why) => (2, refusal_text(alloc, path, &why)),
    };
    match text {
        Some(text) => (status, CowStr::Owned(text)),
        None => Failure::OutOfMemory.ending(alloc),
    }
}

// Runs a host.
fn host<
    H: Threads + Wait + Clock + Copy + Drop + Send + Sync + 'static,
    R: Read + Drop + Send + 'static,
    W: Write + Drop + Send + 'static,
    N: Drop,
>(rt: H, alloc: Global, order: &HostOrder, streams: Streams<R, W, N>) -> (u8, CowStr<'static>) {
    let Streams {
        reader,
        writer,
        notes: _notes,
    } = streams;
    match run_host(rt, alloc, order, reader, writer) {
        Ok(end) => {
            let (status, text) = ending_of_host(end);
            (status, CowStr::Borrowed(text))
        }
        Err(failure) => failure.ending(alloc),
    }
}

// Runs a console.
#[tactic(auto, using(crate::proofs::Serving::served, crate::proofs::Serving::failed))]
fn console<
    H: Threads + Wait + Clock + Copy + Drop + Send + Sync + 'static,
    R: Read + IsTerminal + Drop + Send + 'static,
    W: Write + Drop + Send + 'static,
    N: Write + Drop + Send + 'static,
>(
    rt: H,
    files: HostRuntime,
    alloc: Global,
    order: &ConsoleOrder,
    streams: Streams<R, W, N>,
) -> (u8, CowStr<'static>)
    ensures { Sits R.remaining W.contents N.contents order.now streams result }
{
    match run_console(rt, files, alloc, order, streams) {
        Ok(end) => {
            let (status, text) = ending_of_console(end);
            (status, CowStr::Borrowed(text))
        }
        Err(failure) => failure.ending(alloc),
    }
}

//! The program `pair`: its words, standard input and standard output, and the status and the text that it ends with.
#![tactic(auto)]

mod processes;
mod program;

use command_console::Streams;
use processes::run_process;
use program::run_program;
use std::env;
use std::io::{self, ErrorKind};
use std::process::ExitCode;

fn main(rt: HostRuntime) -> ExitCode {
    let alloc = rt.alloc();
    let arguments = match env::args(&rt) {
        Ok(arguments) => arguments,
        Err(error) if error.kind() == ErrorKind::OutOfMemory => return ExitCode::from(4),
        Err(_) => return ExitCode::from(5),
    };
    let Ok(arguments) = arguments.collect::<Vec<String>>(alloc) else {
        return ExitCode::from(4);
    };
    let streams = Streams {
        reader: rt.stdin(),
        writer: rt.stdout(),
        notes: rt.stderr(),
    };
    let (status, text) = match run_process(rt, rt, alloc, &arguments, streams) {
        Some(ended) => ended,
        None => {
            let streams = Streams {
                reader: rt.reader(),
                writer: io::writer(&rt),
                notes: rt.stderr(),
            };
            run_program(&rt, alloc, &arguments, streams).1
        }
    };
    if !text.is_empty() {
        let _ = eprintln!(rt; "{text}");
    }
    ExitCode::from(status)
}

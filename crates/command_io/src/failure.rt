//! How a run of the program ends if not well.
ghost use Rattle.std.specs.Prelude.{◌≡◌};
ghost use Rattle.command_io.specs.Statuses.{EndsBy, EndsIn, of_input, of_script};
ghost use Rattle.command_io.specs.declared.failure.Failure.TheVariants as failure;

use i8080_words::Fault;
use script_language::{InputError, ScriptError};
use std::alloc::{AllocError, AllocFailed, Global};
use std::borrow::CowStr;
use std::io;

/// Why a run does not end well.
#[derive(Drop)]
pub enum Failure {
    /// The command line was refused, or asks for help or the version; the text is for the user.
    CommandLine(String),
    /// The number of the first bad line of the script, from 1.
    BadScript(u64),
    /// The allocator refused memory.
    OutOfMemory,
    /// The input could not be read, or the output could not be written.
    InputOrOutput,
    /// A pair on threads was not at its end after all of its turns.
    Stalled,
    /// The pair and the single machine differ.
    Differs,
}

impl Failure {
    /// The exit status, and the text for standard error. If memory for the text is refused, both are those of that
    /// failure.
    pub fn ending(self, alloc: Global) -> (u8, CowStr<'static>)
        ensures { EndsIn self result }
    {
        match self {
            Failure::CommandLine(text) => (2, CowStr::Owned(text)),
            Failure::BadScript(line) => match format!(in alloc; "bad script at line {line}") {
                Ok(text) => (3, CowStr::Owned(text)),
                Err(_) => out_of_memory(),
            },
            Failure::OutOfMemory => out_of_memory(),
            Failure::InputOrOutput => (5, CowStr::Borrowed("input or output failed")),
            Failure::Stalled => (6, CowStr::Borrowed("stalled")),
            Failure::Differs => (7, CowStr::Borrowed("")),
        }
    }
}

fn out_of_memory() -> (u8, CowStr<'static>)
    ensures { EndsBy failure.OutOfMemory result }
{
    (4, CowStr::Borrowed("out of memory"))
}

impl From<AllocError> for Failure {
    ghost from_gives = { λ _ e. e ≡ failure.OutOfMemory };

    fn from(_error: AllocError) -> Failure {
        Failure::OutOfMemory
    }
}

impl<T: Drop> From<AllocFailed<T>> for Failure {
    ghost from_gives = { λ _ e. e ≡ failure.OutOfMemory };

    fn from(_error: AllocFailed<T>) -> Failure {
        Failure::OutOfMemory
    }
}

impl From<io::Error> for Failure {
    ghost from_gives = { λ _ e. e ≡ failure.InputOrOutput };

    fn from(_error: io::Error) -> Failure {
        Failure::InputOrOutput
    }
}

impl From<InputError> for Failure {
    ghost from_gives = { λ error e. e ≡ of_input error };

    fn from(error: InputError) -> Failure {
        match error {
            InputError::Failed => Failure::InputOrOutput,
            InputError::OutOfMemory => Failure::OutOfMemory,
        }
    }
}

impl From<ScriptError> for Failure {
    ghost from_gives = { λ error e. e ≡ of_script error };

    fn from(error: ScriptError) -> Failure {
        match error {
            ScriptError::BadScript { line } => Failure::BadScript(line),
            ScriptError::OutOfMemory => Failure::OutOfMemory,
        }
    }
}

// Outside an event the only refusal is out of memory.
impl From<Fault> for Failure {
    ghost from_gives = { λ _ e. e ≡ failure.OutOfMemory };

    fn from(_fault: Fault) -> Failure {
        Failure::OutOfMemory
    }
}

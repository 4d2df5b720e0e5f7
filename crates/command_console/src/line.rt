//! The lines that tell of a pair.
ghost use Rattle.std.specs.Prelude.{◌≡◌, ◌++◌, Some};
ghost use Rattle.std.specs.Fmt.{WritesOnOk, decimal};
ghost use Rattle.command_console.specs.Lines.{asks_text, begins_text, copies_text, line_text, whole_text};

use std::fmt;

/// A line about a pair.
#[derive(Clone, Copy, PartialEq, Eq)]
pub(crate) enum PairLine {
    /// This host has failed, and that one asks the arbiter.
    Asks {
        failed: u32,
        host: u32,
    },
    /// This host goes on alone.
    Won {
        host: u32,
    },
    /// The machine is being copied to this host.
    Copies {
        host: u32,
    },
    /// The copy did not arrive at this one.
    Lost {
        host: u32,
    },
    /// This host is cut off, since it has broken the protocol.
    CutOff {
        host: u32,
    },
    /// This one is cut off, since it has sent more than any host does.
    Flooded {
        host: u32,
    },
    /// Two hosts have the machine.
    Begins {
        generation: u32,
        primary: u32,
        backup: u32,
    },
    /// This host goes on, and no spare host is left.
    Alone {
        host: u32,
    },
    /// The disk has refused a write of this host.
    Unwritten {
        host: u32,
    },
}

impl fmt::Display for PairLine {
    ghost output = { λ line. Some (line_text line) };

    fn fmt<W: fmt::Write>(&self, f: &mut fmt::Formatter<W>) -> fmt::Result {
        match *self {
            PairLine::Asks { failed, host } => write_asks(f, failed, host),
            PairLine::Won { host } => write_host(f, "host ", host, " has won, and goes on alone"),
            PairLine::Copies { host } => write_copies(f, host),
            PairLine::Lost { host } => {
                write_host(f, "host ", host, " has failed before it had the machine")
            }
            PairLine::CutOff { host } => {
                write_host(
                    f,
                    "host ",
                    host,
                    " is cut off: it has sent what no host sends",
                )
            }
            PairLine::Flooded { host } => {
                write_host(f, "host ", host, " is cut off: it has sent too much")
            }
            PairLine::Begins {
                generation,
                primary,
                backup,
            } => write_begins(f, generation, primary, backup),
            PairLine::Alone { host } => write_host(
                f,
                "no spare host is left; host ",
                host,
                " goes on without a backup until `spare` brings one",
            ),
            PairLine::Unwritten { host } => write_host(
                f,
                "a write of host ",
                host,
                " is not on its disk, whose file has failed; it is tried again",
            ),
        }
    }
}

// A host, by its number, between words.
fn write_host<W: fmt::Write>(
    f: &mut fmt::Formatter<W>,
    before: &str,
    host: u32,
    after: &str,
) -> fmt::Result
    ensures { WritesOnOk W.write_str_gives f.old result (before.now ++ (decimal host ++ after.now)) f.new }
{
    write!(f, "{before}{host}{after}")
}

fn write_asks<W: fmt::Write>(f: &mut fmt::Formatter<W>, failed: u32, host: u32) -> fmt::Result
    ensures { WritesOnOk W.write_str_gives f.old result (asks_text failed host) f.new }
{
    write!(
        f,
        "host {failed} has failed, and host {host} asks to go on alone"
    )
}

fn write_copies<W: fmt::Write>(f: &mut fmt::Formatter<W>, host: u32) -> fmt::Result
    ensures { WritesOnOk W.write_str_gives f.old result (copies_text host) f.new }
{
    write!(f, "copying the machine to host {host}")
}

fn write_begins<W: fmt::Write>(
    f: &mut fmt::Formatter<W>,
    generation: u32,
    primary: u32,
    backup: u32,
) -> fmt::Result
    ensures { WritesOnOk W.write_str_gives f.old result (begins_text generation primary backup) f.new }
{
    let whole = whole_again(generation);
    write!(
        f,
        "generation {generation}: host {primary} is the primary, host {backup} its backup{whole}"
    )
}

// Only the first generation was whole from the beginning.
fn whole_again(generation: u32) -> &'static str
    ensures { result.now ≡ whole_text generation }
{
    if generation > 1 {
        "; the pair is whole again"
    } else {
        ""
    }
}

//! The program's commands and their options, as clap takes them.
ghost use Rattle.std.specs.Prelude.{◌≡◌, [], IfOk, codes};
ghost use Rattle.command_line.specs.Commands.{Adds, AddsScriptCommands, IsCommand, IsOption, alone, attach_options, by_default, command, console_options, disk_options, flag_option, host_options, link_and_disks, live_options, number_option, pair_app, program_shape, script_options, sitting_options, text_option, turn_options};

use clap::builder::ValueParser;
use clap::{Arg, ArgAction, Command};
use std::alloc::{AllocError, Global};

const EXAMPLE: &str = "\
The script comes from standard input: a setup, and then one event or query a line.
Here the guest sends the byte 48 and halts, the backup acknowledges it, and the
terminal of port 0 accepts it:

./pair script << END
mem 0000 3E 03 D3 10 3E 15 D3 10 3E 48 D3 11 76
step 0 10
send 0 0
log 0 1
ack 1
acked 1 0
release 0 byte 0 1
arrive 2
show 0
END

Exit status: 0 the run ended; 2 this text, or a command line that is none; 3 a bad
script; 4 out of memory; 5 input or output failed; 6 a pair on threads stalled; 7
`check` found a difference; 8 a console cut its machine off.";

// The names of the fates of a packet: it is brought, it is lost, it is brought twice.
pub(crate) static FATES: &[&str] = &["pass", "drop", "twice"];

pub(crate) static DRIVES: &[&str] = &["0", "1", "2", "3"];

// What a host is when its pair boots.
pub(crate) static ROLES: &[&str] = &["primary", "backup", "spare"];

const IMAGES: &str =
    "The drives whose disks come before the script, each as an image of 337568 bytes; ./pair sends them for --disk";

const SAVED: &str =
    "The drives whose disks are written as images at the end; ./pair keeps them for --save-disk";

// How many turns there are at most.
const MOST_TURNS: u64 = 1_000_000_000;

const TURNS_HELP: &str =
    "In how many turns the primary, and the backup, may make progress; one that finds nothing to do is none of them";

const TEXT_HELP: &str =
    "Prints what the terminals have accepted as text, line by line, and not in hexadecimal";

const ESCAPE_HELP: &str =
    "The key that opens a command line, as the number of its byte; 5 is Ctrl-E";

const BEFORE_HELP: &str =
    "How many bytes come before the first key or frame: images, then setup and `type` lines";

// How many bytes come before the first key at most.
const MOST_BEFORE: u64 = 1_099_511_627_776;

const SILENCE_HELP: &str =
    "After the end of the keys: for how many seconds a machine that runs may print nothing, write to no disk and read no other track until it is cut off";

// The longest silence: a day.
const MOST_SILENCE: u64 = 86_400;

const MARK: &str =
    "What is written between the guest's output and the disks of --saved; ./pair looks for it";

const APART: &str =
    "Hands each line about the pair over between marks, apart from what else is said; ./pair shows it";

const ATTACH_HELP: &str =
    "The file that is the disk of this drive, as an image of 337568 bytes; ./pair gives it for --attach";

const UNSYNCED_HELP: &str =
    "A write is done once the file system has it, and not only once the disk has; ./pair says so for --sync off";

const RECOVER_HELP: &str =
    "The image whose journal, which a crash has left, is taken up; ./pair gives it for `disk recover FILE`";

const ROLE_HELP: &str =
    "What the host is when its pair boots; a spare is given a copy of the guest when a host has failed";

const PATIENCE_HELP: &str =
    "For how many milliseconds a host may hear nothing of its peer until it suspects it; the time does not count while the outside is stopped";

// The longest patience: an hour.
const MOST_PATIENCE: u64 = 3_600_000;

const FOLDER_HELP: &str =
    "The folder of the named pipes N.in and N.out, for the host at place N; ./pair makes them";

const PLACES_HELP: &str =
    "How many places for hosts there are: the primary has place 0, the backup place 1, spares may come later";

// The commands that run a script: what they do, and how they are called.
const SCRIPT: (&str, &str) = (
    "Runs a script, and prints a line for each event and query",
    "pair script [OPTIONS] < FILE (the script comes from standard input)",
);

const CHECK: (&str, &str) = (
    "Runs a script silently, and compares the pair with a single machine",
    "pair check [OPTIONS] < FILE (the script comes from standard input)",
);

const PICTURE: (&str, &str) = (
    "Runs a script silently, and draws what happened in it as an SVG picture",
    "pair picture [OPTIONS] < FILE > PICTURE.svg (the script comes from standard input)",
);

// The commands without options.
const LINT: (&str, &str) = (
    "Names every bad line of a script, and what was expected there; it runs nothing",
    "pair lint < FILE (the script comes from standard input)",
);

const SHELL: (&str, &str) = (
    "Answers lines as they come; the line `help` lists them all",
    "pair shell (lines come from standard input)",
);

const LIVE: (&str, &str) = (
    "Runs a pair on threads, and prints what its terminals have accepted",
    "pair live [OPTIONS] < FILE (setup and `type` lines come from standard input)",
);

const CONSOLE: (&str, &str) = (
    "Runs a pair that one sits at, whose hosts are processes: its terminals, its disk and its arbiter",
    "pair console [OPTIONS] (keys come from standard input, after what --before says)",
);

const DISK: (&str, &str) = (
    "Takes up what a crash has left in a file that was attached to a drive",
    "pair disk recover FILE",
);

const HOST: (&str, &str) = (
    "Runs one host of a pair: frames from standard input, frames to standard output",
    "pair host [OPTIONS] (frames come from standard input, after what --before says)",
);

/// How clap takes the list of an option. Its contract says what it finds in words only if it leaves lists whole; what it tells of a
/// refused list is of the piece that is wrong only if it has cut them.
#[derive(Clone, Copy)]
pub(crate) enum ListHandling {
    Whole,
    Cut,
}

/// The program with all its commands.
pub(crate) fn pair_command<'a>(
    alloc: Global,
    lists: ListHandling,
) -> Result<Command<'a>, AllocError>
    ensures { IfOk result (λ c. lists ≡ ListHandling.Whole → IsCommand pair_app c) }
{
    let pair = with_script_commands(alloc, lists, program(alloc)?)?;
    let pair = pair.subcommand(plain_command(alloc, "lint", LINT))?;
    let pair = pair.subcommand(plain_command(alloc, "shell", SHELL))?;
    let pair = pair.subcommand(live_command(alloc, lists)?)?;
    let pair = pair.subcommand(console_command(alloc, lists)?)?;
    let pair = pair.subcommand(host_command(alloc, lists)?)?;
    pair.subcommand(disk_command(alloc)?)
}

// The program without its commands.
fn program<'a>(alloc: Global) -> Result<Command<'a>, AllocError>
    ensures { IfOk result (IsCommand (alone program_shape)) }
{
    let pair = Command::new(alloc, "pair").bin_name("pair")?;
    Ok(
        pair.version("0.1.0")
            .about("A fault-tolerant pair of Altair 8800s")
            .after_help(EXAMPLE)
            .subcommand_required(true),
    )
}

// The program with its commands that run a script.
fn with_script_commands<'a>(
    alloc: Global,
    lists: ListHandling,
    program: Command<'a>,
) -> Result<Command<'a>, AllocError>
    ensures { IfOk result (λ c. lists ≡ ListHandling.Whole → AddsScriptCommands program.entry c) }
{
    let pair = program.subcommand(script_command(alloc, lists, "script", SCRIPT)?)?;
    let pair = pair.subcommand(script_command(alloc, lists, "check", CHECK)?)?;
    pair.subcommand(script_command(alloc, lists, "picture", PICTURE)?)
}

// A command without options.
fn plain_command<'a>(alloc: Global, name: &'a str, told: (&'a str, &'a str)) -> Command<'a>
    ensures { IsCommand (alone (command name.now [])) result }
{
    Command::new(alloc, name)
        .about(told.0)
        .override_usage(told.1)
}

// A command that runs a script.
fn script_command<'a>(
    alloc: Global,
    lists: ListHandling,
    name: &'a str,
    told: (&'a str, &'a str),
) -> Result<Command<'a>, AllocError>
    ensures { IfOk result (λ c. lists ≡ ListHandling.Whole → IsCommand (alone (command name.now script_options)) c) }
{
    plain_command(alloc, name, told).arg(images(alloc, lists))
}

// The command that runs a pair on threads.
fn live_command<'a>(alloc: Global, lists: ListHandling) -> Result<Command<'a>, AllocError>
    ensures { IfOk result (λ c. lists ≡ ListHandling.Whole → IsCommand (alone (command (codes "live") live_options)) c) }
{
    let live = with_turns(alloc, plain_command(alloc, "live", LIVE))?;
    with_link_and_disks(alloc, lists, live)
}

// The command that runs one host.
fn host_command<'a>(alloc: Global, lists: ListHandling) -> Result<Command<'a>, AllocError>
    ensures { IfOk result (λ c. lists ≡ ListHandling.Whole → IsCommand (alone (command (codes "host") host_options)) c) }
{
    let host = plain_command(alloc, "host", HOST).arg(role(alloc, lists))?;
    host.arg(patience(alloc))?
        .arg(before(alloc))?
        .arg(images(alloc, lists))
}

// The command that takes up a disk.
fn disk_command<'a>(alloc: Global) -> Result<Command<'a>, AllocError>
    ensures { IfOk result (IsCommand (alone (command (codes "disk") disk_options))) }
{
    plain_command(alloc, "disk", DISK).arg(recover(alloc))
}

// The command that runs a pair that one sits at.
fn console_command<'a>(alloc: Global, lists: ListHandling) -> Result<Command<'a>, AllocError>
    ensures { IfOk result (λ c. lists ≡ ListHandling.Whole → IsCommand (alone (command (codes "console") console_options)) c) }
{
    let console = with_sitting(alloc, plain_command(alloc, "console", CONSOLE))?;
    let console = with_attached(alloc, console)?;
    console
        .arg(images(alloc, lists))?
        .arg(saved(alloc, lists))?
        .arg(mark(alloc))?
        .arg(apart(alloc))
}

// The command with its options that say where hosts are, which key opens a command line, how much comes before the first key, and how long
// the machine may be silent after the last one.
fn with_sitting<'a>(alloc: Global, console: Command<'a>) -> Result<Command<'a>, AllocError>
    ensures { IfOk result (Adds sitting_options console.entry) }
{
    console
        .arg(folder(alloc))?
        .arg(places(alloc))?
        .arg(escape(alloc))?
        .arg(before(alloc))?
        .arg(silence(alloc))
}

// The command with its options for the files of its drives.
fn with_attached<'a>(alloc: Global, console: Command<'a>) -> Result<Command<'a>, AllocError>
    ensures { IfOk result (Adds attach_options console.entry) }
{
    console
        .arg(attach(alloc, "attach0"))?
        .arg(attach(alloc, "attach1"))?
        .arg(attach(alloc, "attach2"))?
        .arg(attach(alloc, "attach3"))?
        .arg(unsynced(alloc))
}

// The command with its options that say for how many turns, when somebody asks, and how what was accepted is printed.
fn with_turns<'a>(alloc: Global, live: Command<'a>) -> Result<Command<'a>, AllocError>
    ensures { IfOk result (Adds turn_options live.entry) }
{
    let turns = turn(alloc, "turns", 1)
        .help(TURNS_HELP)
        .default_value("1000000");
    let primary_asks = turn(alloc, "primary-asks", 0).help(
        "The turn at which the primary asks to go on alone",
    );
    let backup_asks = turn(alloc, "backup-asks", 0).help(
        "The turn at which the backup asks to go on alone",
    );
    live.arg(turns)?
        .arg(primary_asks)?
        .arg(backup_asks)?
        .arg(as_text(alloc))
}

// The command with its options for the link and the disks.
fn with_link_and_disks<'a>(
    alloc: Global,
    lists: ListHandling,
    command: Command<'a>,
) -> Result<Command<'a>, AllocError>
    ensures { IfOk result (λ c. lists ≡ ListHandling.Whole → Adds link_and_disks command.entry c) }
{
    command
        .arg(link(alloc, lists))?
        .arg(images(alloc, lists))?
        .arg(saved(alloc, lists))
}

fn as_text<'a>(alloc: Global) -> Arg<'a>
    ensures { IsOption (flag_option (codes "text")) result }
{
    flag(alloc, "text").help(TEXT_HELP)
}

fn role<'a>(alloc: Global, lists: ListHandling) -> Arg<'a>
    ensures { lists ≡ ListHandling.Whole → IsOption (by_default (codes "spare") (text_option (codes "role"))) result }
{
    let role = text(alloc, "role", "ROLE")
        .default_value("spare")
        .help(ROLE_HELP);
    match lists {
        ListHandling::Whole => role,
        ListHandling::Cut => role.value_parser(ValueParser::Names(ROLES)),
    }
}

fn patience<'a>(alloc: Global) -> Arg<'a>
    ensures { IsOption (by_default (codes "1000") (number_option (codes "patience") 100 3600000)) result }
{
    number(alloc, "patience", 100, MOST_PATIENCE)
        .default_value("1000")
        .help(PATIENCE_HELP)
}

fn before<'a>(alloc: Global) -> Arg<'a>
    ensures { IsOption (by_default (codes "0") (number_option (codes "before") 0 1099511627776)) result }
{
    number(alloc, "before", 0, MOST_BEFORE)
        .default_value("0")
        .help(BEFORE_HELP)
}

fn folder<'a>(alloc: Global) -> Arg<'a>
    ensures { IsOption (by_default (codes ".") (text_option (codes "folder"))) result }
{
    text(alloc, "folder", "FOLDER")
        .default_value(".")
        .help(FOLDER_HELP)
}

fn places<'a>(alloc: Global) -> Arg<'a>
    ensures { IsOption (by_default (codes "3") (number_option (codes "places") 2 99)) result }
{
    number(alloc, "places", 2, 99)
        .default_value("3")
        .help(PLACES_HELP)
}

fn escape<'a>(alloc: Global) -> Arg<'a>
    ensures { IsOption (by_default (codes "5") (number_option (codes "escape") 0 255)) result }
{
    number(alloc, "escape", 0, 255)
        .default_value("5")
        .help(ESCAPE_HELP)
}

fn silence<'a>(alloc: Global) -> Arg<'a>
    ensures { IsOption (by_default (codes "60") (number_option (codes "silence") 1 86400)) result }
{
    number(alloc, "silence", 1, MOST_SILENCE)
        .default_value("60")
        .help(SILENCE_HELP)
}

fn mark<'a>(alloc: Global) -> Arg<'a>
    ensures { IsOption (text_option (codes "mark")) result }
{
    text(alloc, "mark", "TEXT").help(MARK)
}

fn apart<'a>(alloc: Global) -> Arg<'a>
    ensures { IsOption (flag_option (codes "apart")) result }
{
    flag(alloc, "apart").help(APART)
}

fn attach<'a>(alloc: Global, name: &'a str) -> Arg<'a>
    ensures { IsOption (text_option name.now) result }
{
    text(alloc, name, "FILE").help(ATTACH_HELP)
}

fn unsynced<'a>(alloc: Global) -> Arg<'a>
    ensures { IsOption (flag_option (codes "unsynced")) result }
{
    flag(alloc, "unsynced").help(UNSYNCED_HELP)
}

fn recover<'a>(alloc: Global) -> Arg<'a>
    ensures { IsOption (text_option (codes "recover")) result }
{
    text(alloc, "recover", "FILE").help(RECOVER_HELP)
}

fn link<'a>(alloc: Global, lists: ListHandling) -> Arg<'a>
    ensures { lists ≡ ListHandling.Whole → IsOption (text_option (codes "link")) result }
{
    list(alloc, lists, "link", "FATES", FATES).help(
        "The fates of the packets, in order; the last is that of all others",
    )
}

fn images<'a>(alloc: Global, lists: ListHandling) -> Arg<'a>
    ensures { lists ≡ ListHandling.Whole → IsOption (text_option (codes "images")) result }
{
    list(alloc, lists, "images", "DRIVES", DRIVES).help(IMAGES)
}

fn saved<'a>(alloc: Global, lists: ListHandling) -> Arg<'a>
    ensures { lists ≡ ListHandling.Whole → IsOption (text_option (codes "saved")) result }
{
    list(alloc, lists, "saved", "DRIVES", DRIVES).help(SAVED)
}

// An option whose value is a list of these names, with commas between them.
fn list<'a>(
    alloc: Global,
    lists: ListHandling,
    name: &'a str,
    value: &'a str,
    names: &'static [&'static str],
) -> Arg<'a>
    ensures { lists ≡ ListHandling.Whole → IsOption (text_option name.now) result }
{
    let list = text(alloc, name, value);
    match lists {
        ListHandling::Whole => list,
        ListHandling::Cut => list
            .value_delimiter(',')
            .value_parser(ValueParser::Names(names)),
    }
}

// An option whose value is any text.
fn text<'a>(alloc: Global, name: &'a str, value: &'a str) -> Arg<'a>
    ensures { IsOption (text_option name.now) result }
{
    Arg::new(alloc, name).long(name).value_name(value)
}

// An option without a value.
fn flag<'a>(alloc: Global, name: &'a str) -> Arg<'a>
    ensures { IsOption (flag_option name.now) result }
{
    Arg::new(alloc, name).long(name).action(ArgAction::SetTrue)
}

// An option whose value is a number of turns, at least this many.
fn turn<'a>(alloc: Global, name: &'a str, least: u64) -> Arg<'a>
    ensures { IsOption (number_option name.now least 1000000000) result }
{
    number(alloc, name, least, MOST_TURNS)
}

// An option whose value is a number from the first of these to the second.
fn number<'a>(alloc: Global, name: &'a str, least: u64, most: u64) -> Arg<'a>
    ensures { IsOption (number_option name.now least most) result }
{
    text(alloc, name, "N").value_parser(ValueParser::unsigned(least, most))
}

//! The command line.
ghost use Rattle.std.specs.Prelude.{◌≡◌, ◌≢◌, [], ◌∷◌, ◌++◌, IfErr, IfOk, Some, codes, map, string_bytes, true, false};
ghost use Rattle.clap.specs.Words.{HasKind, fault_of, found_of, kind_of, one_of, rows_of, subcommand_of, subcommand_rows_of};
ghost use Rattle.command_io.specs.Statuses.{is_of_command_line};
ghost use Rattle.command_line.specs.Commands.{pair_app};
ghost use Rattle.command_line.specs.Lists.{pieces_in};
ghost use Rattle.command_line.specs.Orders.{Asks, AsksHelp, HasFound, IsAsked, IsConsoleOrdered, IsFlag, IsGiven, IsHostOrdered, IsOrdered, IsRefused, attached_in, command_word, drive_of, drives_in, fate_of, role_of, text_given};

use crate::commands::{ListHandling, pair_command};
use crate::console_order::ConsoleOrder;
use crate::host_order::{HostOrder, HostRole};
use crate::lists::{given_in, lists_hold, pieces_in};
use crate::live_order::LiveOrder;
use clap::error::ErrorKind;
use clap::{ArgMatches, Error};
use command_io::Failure;
use pair_threads::Fate;
use std::alloc::{AllocError, Global};

/// What the command line asks for. A command that runs a script has the numbers of the drives whose images come before it.
#[derive(Drop)]
pub enum Request {
    /// To print what each line of a script answers.
    Script(Vec<u8>),
    /// To compare the pair at the end of a script with a single machine.
    Check(Vec<u8>),
    /// To draw what happens in a script.
    Picture(Vec<u8>),
    /// To name the bad lines of a script.
    Lint,
    /// To run a pair on threads.
    Live(LiveOrder),
    /// To run the outside of a pair that one sits at: its terminals, its disk and its arbiter.
    Console(ConsoleOrder),
    /// To run one host of a pair, over standard input and standard output.
    Host(HostOrder),
    /// To take up what a crash has left in this file, which was attached to a drive.
    Recover(String),
    /// To answer lines as they come.
    Shell,
    /// To print this text, which says what there is to ask for; it ends with a line end.
    Help(String),
}

// What is told of a command line in which clap finds no mistake once it has cut the lists.
const UNTOLD: &str = "error: a command line that asks for nothing\n";

// How many turns there are if the command line does not say.
const TURNS: u64 = 1_000_000;

// The key that opens a command line if it does not say: Ctrl-E.
const ESCAPE: u8 = 5;

// For how many milliseconds a host is patient if the command line does not say.
const PATIENCE: u64 = 1_000;

// For how many seconds a machine may be silent if it does not say.
const SILENCE: u64 = 60;

// How many places for hosts there are if it does not say.
const PLACES: u64 = 3;

/// What the words of a command line ask for; the first word is the program's name.
#[tactic(auto, using(crate::proofs::Orders::asked_if_found, crate::proofs::Orders::asked_if_help))]
pub fn request_of(alloc: Global, arguments: &[String]) -> Result<Request, Failure>
    ensures asked { IfOk result (IsAsked (map (λ word. string_bytes word) arguments.now)) }
    ensures refused { IfErr result (IsRefused (map (λ word. string_bytes word) arguments.now)) }
{
    match pair_command(alloc, ListHandling::Whole)?.try_get_matches_from(arguments) {
        Ok(matches) => request_in(alloc, arguments, &matches),
        Err(error) => help_in(alloc, arguments, &error),
    }
}

// What the words ask for in which clap has found a fault: help, or they are refused.
#[tactic(auto, using(crate::proofs::Orders::help_asked, crate::proofs::Orders::faulty))]
fn help_in(alloc: Global, arguments: &[String], error: &Error) -> Result<Request, Failure>
    requires { HasKind (fault_of pair_app (map (λ word. string_bytes word) arguments.now)) error.now }
    ensures asked { IfOk result (AsksHelp (map (λ word. string_bytes word) arguments.now)) }
    ensures refused { IfErr result (IsRefused (map (λ word. string_bytes word) arguments.now)) }
{
    if lacks_memory(error) {
        return Err(Failure::OutOfMemory);
    }
    if !asks_for_help(command_word(arguments), error) {
        return Err(refusal(alloc, arguments));
    }
    Ok(Request::Help(told_of(alloc, arguments)?))
}

// Whether the command is `help`, and not an option `--help`.
fn asks_for_help(word: &str, error: &Error) -> bool
    ensures word { result ≡ true → word.now ≡ codes "help" }
    ensures kind { result ≡ true → kind_of error.now ≡ ErrorKind.DisplayHelp }
{
    if word != "help" {
        return false;
    }
    matches!(error.kind(), ErrorKind::DisplayHelp)
}

// Whether clap was refused memory.
fn lacks_memory(error: &Error) -> bool
    ensures yes { result ≡ true → kind_of error.now ≡ ErrorKind.OutOfMemory }
    ensures no { result ≡ false → kind_of error.now ≢ ErrorKind.OutOfMemory }
{
    matches!(error.kind(), ErrorKind::OutOfMemory)
}

// The word that names the command: the one after the program's name.
fn command_word(arguments: &[String]) -> &str
    ensures { result.now ≡ command_word (map (λ word. string_bytes word) arguments.now) }
{
    match arguments {
        [_, word, ..] => word.as_str(),
        _ => "",
    }
}

// What the words ask for in which clap has found this; they are refused if a list has a piece that it may not have.
#[tactic(auto, using(crate::proofs::Orders::refused_without, crate::proofs::Orders::refused_by_list, crate::proofs::Orders::asked_by))]
fn request_in(
    alloc: Global,
    arguments: &[String],
    matches: &ArgMatches<'_>,
) -> Result<Request, Failure>
    requires found { subcommand_rows_of matches.now ≡ subcommand_of pair_app (map (λ word. string_bytes word) arguments.now) }
    requires faultless { fault_of pair_app (map (λ word. string_bytes word) arguments.now) ≡ [] }
    ensures asked { IfOk result (HasFound (map (λ word. string_bytes word) arguments.now)) }
    ensures refused { IfErr result (IsRefused (map (λ word. string_bytes word) arguments.now)) }
{
    let Some((name, found)) = matches.subcommand() else {
        return Err(refusal(alloc, arguments));
    };
    if !lists_hold(alloc, found)? {
        return Err(refusal(alloc, arguments));
    }
    Ok(request_after(alloc, name, found)?)
}

// What the command of this name asks for, by what was found after it.
fn request_after(alloc: Global, name: &str, found: &ArgMatches<'_>) -> Result<Request, AllocError>
    ensures { IfOk result (Asks name.now (rows_of (found_of found.now))) }
{
    let images = images_in(alloc, found)?;
    request_named(alloc, name, found, images)
}

// The request of the command of this name, with these images, by what was found after it.
fn request_named(
    alloc: Global,
    name: &str,
    found: &ArgMatches<'_>,
    images: Vec<u8>,
) -> Result<Request, AllocError>
    requires { images.items ≡ drives_in (rows_of (found_of found.now)) (codes "images") }
    ensures { IfOk result (Asks name.now (rows_of (found_of found.now))) }
{
    match name {
        "check" => Ok(Request::Check(images)),
        "picture" => Ok(Request::Picture(images)),
        "lint" => Ok(Request::Lint),
        "shell" => Ok(Request::Shell),
        "live" => Ok(Request::Live(live_order(alloc, found, images)?)),
        "console" => Ok(Request::Console(console_order(alloc, found, images)?)),
        "host" => Ok(Request::Host(host_order(found, images))),
        "disk" => Ok(Request::Recover(text(alloc, found, "recover")?)),
        _ => Ok(Request::Script(images)),
    }
}

// The drives whose images come before the script.
fn images_in(alloc: Global, found: &ArgMatches<'_>) -> Result<Vec<u8>, AllocError>
    ensures { IfOk result (λ drives. drives.items ≡ drives_in (rows_of (found_of found.now)) (codes "images")) }
{
    drives_of(alloc, pieces_in(alloc, found, "images")?.as_slice())
}

// The drives whose images are written at the end.
fn saved_in(alloc: Global, found: &ArgMatches<'_>) -> Result<Vec<u8>, AllocError>
    ensures { IfOk result (λ drives. drives.items ≡ drives_in (rows_of (found_of found.now)) (codes "saved")) }
{
    drives_of(alloc, pieces_in(alloc, found, "saved")?.as_slice())
}

// What becomes of the packets of the link.
fn link_in(alloc: Global, found: &ArgMatches<'_>) -> Result<Vec<Fate>, AllocError>
    ensures { IfOk result (λ fates. fates.items ≡ map fate_of (pieces_in (rows_of (found_of found.now)) (codes "link"))) }
{
    fates_of(alloc, pieces_in(alloc, found, "link")?.as_slice())
}

// What the words after `live` say.
#[tactic(auto, using(crate::proofs::Orders::given_or))]
fn live_order(
    alloc: Global,
    matches: &ArgMatches<'_>,
    images: Vec<u8>,
) -> Result<LiveOrder, AllocError>
    ensures { IfOk result (λ order. IsOrdered (rows_of (found_of matches.now)) images.items order) }
{
    let turns = number(matches, "turns").unwrap_or(TURNS);
    let primary_asks = number(matches, "primary-asks");
    let backup_asks = number(matches, "backup-asks");
    let text = flag(matches, "text");
    let link = link_in(alloc, matches)?;
    let saved = saved_in(alloc, matches)?;
    Ok(LiveOrder {
        turns,
        primary_asks,
        backup_asks,
        text,
        link,
        images,
        saved,
    })
}

// What the words after `host` say.
#[tactic(auto, using(crate::proofs::Orders::given_or))]
fn host_order(matches: &ArgMatches<'_>, images: Vec<u8>) -> HostOrder
    ensures { IsHostOrdered (rows_of (found_of matches.now)) images.items result }
{
    let role = role_of(given_in(matches, "role").unwrap_or(""));
    let patience = number(matches, "patience").unwrap_or(PATIENCE);
    let before = number(matches, "before").unwrap_or(0);
    HostOrder {
        role,
        patience,
        before,
        images,
    }
}

// What a host is at boot, by its name.
fn role_of(word: &str) -> HostRole
    ensures { result ≡ role_of word.now }
{
    match word {
        "primary" => HostRole::Primary,
        "backup" => HostRole::Backup,
        _ => HostRole::Spare,
    }
}

// What the words after `console` say.
#[tactic(auto, using(crate::proofs::Orders::given_or))]
fn console_order(
    alloc: Global,
    matches: &ArgMatches<'_>,
    images: Vec<u8>,
) -> Result<ConsoleOrder, AllocError>
    ensures { IfOk result (λ order. IsConsoleOrdered (rows_of (found_of matches.now)) images.items order) }
{
    let folder = text(alloc, matches, "folder")?;
    let places = number(matches, "places").unwrap_or(PLACES);
    let escape = byte(matches, "escape").unwrap_or(ESCAPE);
    let before = number(matches, "before").unwrap_or(0);
    let saved = saved_in(alloc, matches)?;
    let mark = text(alloc, matches, "mark")?;
    let apart = flag(matches, "apart");
    let attached = attached_in(alloc, matches)?;
    let unsynced = flag(matches, "unsynced");
    let silence = number(matches, "silence").unwrap_or(SILENCE);
    Ok(ConsoleOrder {
        folder,
        places,
        escape,
        before,
        images,
        saved,
        mark,
        apart,
        attached,
        unsynced,
        silence,
    })
}

// The names of the files of drives, that of drive 0 first.
fn attached_in(alloc: Global, matches: &ArgMatches<'_>) -> Result<Vec<String>, AllocError>
    ensures { IfOk result (λ names. map (λ name. string_bytes name) names.items ≡ attached_in (rows_of (found_of matches.now))) }
{
    let mut names = Vec::new(alloc);
    add_name(alloc, matches, "attach0", &mut names)?;
    add_name(alloc, matches, "attach1", &mut names)?;
    add_name(alloc, matches, "attach2", &mut names)?;
    add_name(alloc, matches, "attach3", &mut names)?;
    Ok(names)
}

// Adds the text that an option was given; an empty one if it was not.
fn add_name(
    alloc: Global,
    matches: &ArgMatches<'_>,
    option: &str,
    names: &mut Vec<String>,
) -> Result<(), AllocError>
    ensures { IfOk result (λ _. map (λ name. string_bytes name) names.new.items
        ≡ map (λ name. string_bytes name) names.old.items ++ text_given (rows_of (found_of matches.now)) option.now ∷ []) }
{
    names.push(text(alloc, matches, option)?)?;
    Ok(())
}

// The number that an option was given, if it was.
fn number(matches: &ArgMatches<'_>, option: &str) -> Option<u64>
    ensures { IsGiven 64 (one_of option.now (rows_of (found_of matches.now))) result }
{
    matches.get_one(option)
}

// Whether an option without a value was given.
fn flag(matches: &ArgMatches<'_>, option: &str) -> bool
    ensures { IsFlag (one_of option.now (rows_of (found_of matches.now))) result }
{
    matches.get_flag(option)
}

// The byte that an option was given as a number, if it was.
fn byte(matches: &ArgMatches<'_>, option: &str) -> Option<u8>
    ensures { IsGiven 8 (one_of option.now (rows_of (found_of matches.now))) result }
{
    matches.get_one(option)
}

// The text that an option was given; nothing if it was not.
fn text(alloc: Global, matches: &ArgMatches<'_>, option: &str) -> Result<String, AllocError>
    ensures { IfOk result (λ text. string_bytes text ≡ text_given (rows_of (found_of matches.now)) option.now) }
{
    match given_in(matches, option) {
        Some(text) => String::from_str(alloc, text),
        None => Ok(String::new(alloc)),
    }
}

// The fates of packets, by their names.
fn fates_of(alloc: Global, words: &[&str]) -> Result<Vec<Fate>, AllocError>
    ensures { IfOk result (λ fates. fates.items ≡ map fate_of (map (λ word. word.now) words.now)) }
{
    let mut fates = Vec::new(alloc);
    for word in words {
        fates.push(fate_of(word))?;
    }
    Ok(fates)
}

// The fate of a packet, by its name.
fn fate_of(word: &str) -> Fate
    ensures { result ≡ fate_of word.now }
{
    match word {
        "drop" => Fate::Drop,
        "twice" => Fate::Twice,
        _ => Fate::Pass,
    }
}

// Drives, by their names.
fn drives_of(alloc: Global, words: &[&str]) -> Result<Vec<u8>, AllocError>
    ensures { IfOk result (λ drives. drives.items ≡ map drive_of (map (λ word. word.now) words.now)) }
{
    let mut drives = Vec::new(alloc);
    for word in words {
        drives.push(drive_of(word))?;
    }
    Ok(drives)
}

// A drive, by its name.
fn drive_of(word: &str) -> u8
    ensures { result ≡ drive_of word.now }
{
    match word {
        "1" => 1,
        "2" => 2,
        "3" => 3,
        _ => 0,
    }
}

// The refusal of the words, with what clap tells of them, without the line end after it.
fn refusal(alloc: Global, arguments: &[String]) -> Failure
    ensures { is_of_command_line result ≡ true }
{
    match told_of(alloc, arguments) {
        Ok(mut text) => {
            if text.ends_with("\n") {
                text.pop();
            }
            Failure::CommandLine(text)
        }
        Err(failure) => failure,
    }
}

// What clap tells of words that ask for nothing, or for help.
fn told_of(alloc: Global, arguments: &[String]) -> Result<String, Failure>
    ensures { IfErr result (λ e. e ≡ Failure.OutOfMemory) }
{
    match pair_command(alloc, ListHandling::Cut)?.try_get_matches_from(arguments) {
        Ok(_) => Ok(String::from_str(alloc, UNTOLD)?),
        Err(error) => text_of(alloc, &error),
    }
}

// The text of an error of clap.
fn text_of(alloc: Global, error: &Error) -> Result<String, Failure>
    ensures { IfErr result (λ e. e ≡ Failure.OutOfMemory) }
{
    if lacks_memory(error) {
        return Err(Failure::OutOfMemory);
    }
    match format!(in alloc; "{error}") {
        Ok(text) => Ok(text),
        Err(_) => Err(Failure::OutOfMemory),
    }
}

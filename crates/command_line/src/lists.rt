//! The lists that options are given: cut at their commas, and whether each piece is one that its list may have.
ghost use Rattle.std.specs.Prelude.{◌≡◌, IfOk, bytes_eq, codes, map, option_map};
ghost use Rattle.std.specs.List.{list_any};
ghost use Rattle.clap.specs.Words.{first_of, found_of, rows_of};
ghost use Rattle.command_line.specs.Lists.{are_among, is_among, lists_hold, pieces_in, pieces_of, roles};

use crate::commands::{DRIVES, FATES, ROLES};
use clap::ArgMatches;
use std::alloc::{AllocError, Global};

/// Whether each option that is given names is given such as it has.
pub(crate) fn lists_hold(alloc: Global, found: &ArgMatches<'_>) -> Result<bool, AllocError>
    ensures { IfOk result (λ hold. hold ≡ lists_hold (rows_of (found_of found.now))) }
{
    let link = are_among(pieces_in(alloc, found, "link")?.as_slice(), FATES);
    let images = are_among(pieces_in(alloc, found, "images")?.as_slice(), DRIVES);
    let saved = are_among(pieces_in(alloc, found, "saved")?.as_slice(), DRIVES);
    Ok(link && images && saved && role_holds(found))
}

/// The pieces of the list that an option was given; none if it was not.
pub(crate) fn pieces_in<'a>(
    alloc: Global,
    found: &ArgMatches<'a>,
    option: &str,
) -> Result<Vec<&'a str>, AllocError>
    ensures { IfOk result (λ pieces. map (λ piece. piece.now) pieces.items ≡ pieces_in (rows_of (found_of found.now)) option.now) }
{
    match given_in(found, option) {
        Some(text) => pieces_of(alloc, text),
        None => Ok(Vec::new(alloc)),
    }
}

/// The text that an option was given, if it was.
pub(crate) fn given_in<'a>(found: &ArgMatches<'a>, option: &str) -> Option<&'a str>
    ensures { option_map (λ text. text.now) result ≡ first_of option.now (rows_of (found_of found.now)) }
{
    found.get_str(option)
}

// The pieces of a text between its commas.
fn pieces_of<'a>(alloc: Global, text: &'a str) -> Result<Vec<&'a str>, AllocError>
    ensures { IfOk result (λ pieces. map (λ piece. piece.now) pieces.items ≡ pieces_of text.now) }
{
    let mut pieces = Vec::new(alloc);
    let mut rest = text;
    'cuts: while let Some((piece, more)) = rest.split_once(',') {
        pieces.push(piece)?;
        rest = more;
    }
    pieces.push(rest)?;
    Ok(pieces)
}

// Whether each piece is one of these names.
fn are_among(pieces: &[&str], names: &[&str]) -> bool
    ensures { result ≡ are_among (map (λ name. name.now) names.now) (map (λ piece. piece.now) pieces.now) }
{
    for piece in pieces {
        if !is_one_of(piece, names) {
            return false;
        }
    }
    true
}

// Whether a word is one of these names.
fn is_one_of(word: &str, names: &[&str]) -> bool
    ensures { result ≡ list_any (λ name. bytes_eq name word.now) (map (λ name. name.now) names.now) }
{
    (&*names).contains(&word)
}

// Whether what a host is at boot is one of the three names, if it is said.
fn role_holds(found: &ArgMatches<'_>) -> bool
    ensures { result ≡ is_among roles (rows_of (found_of found.now)) (codes "role") }
{
    match given_in(found, "role") {
        Some(role) => ROLES.contains(&role),
        None => true,
    }
}

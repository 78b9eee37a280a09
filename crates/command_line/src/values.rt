//! What `clap` found for an argument.
ghost use Rattle.clap.specs.Words.{all_of, app_of, fault_of, first_of, found_of, one_of, rows_of};
ghost use Rattle.clap.specs.Words.{is_simple_and_free, matches_of};
ghost use Rattle.command_line.specs.Readings.{AreAccepted, IsNumberWithin, flag_in, names_in};
ghost use Rattle.command_line.specs.Readings.{number_in};
ghost use Rattle.command_line.specs.declared.request.WordsFault.TheVariants as fault;
ghost use Rattle.std.specs.Prelude.{[], IfErr, IfOk, IfSome, true, map, option_map, string_bytes};
ghost use Rattle.std.specs.Prelude.{unwrap_or};
ghost use Rattle.std.specs.Prelude.{◌≡◌, ◌≢◌, ◌≤◌};

use crate::limits::Limits;
use crate::request::WordsFault;
use clap::error::ErrorKind;
use clap::{ArgMatches, Command};
use std::alloc::{AllocError, Global};

/// What a command finds in words, where it takes them.
pub(crate) fn matches_on<'a>(
    command: Command<'a>,
    words: &'a [String],
) -> Result<ArgMatches<'a>, WordsFault>
    requires simple { is_simple_and_free (app_of command) ≡ true }
    ensures takes { IfOk result (λ _.
        fault_of (app_of command.entry) (map string_bytes words.entry.now) ≡ []) }
    ensures rows { IfOk result (λ matches. rows_of (found_of matches)
        ≡ matches_of (app_of command.entry) (map string_bytes words.entry.now)) }
    ensures accepted { IfOk result (λ matches.
        AreAccepted (app_of command.entry).top.rules (rows_of (found_of matches))) }
    ensures usage { IfErr result (λ error. error ≡ fault.Usage
        → fault_of (app_of command.entry) (map string_bytes words.entry.now) ≢ []) }
{
    match command.try_get_matches_from(words) {
        Ok(matches) => Ok(matches),
        Err(error) if error.kind() == ErrorKind::OutOfMemory => Err(WordsFault::NoMemory),
        Err(_) => Err(WordsFault::Usage),
    }
}

/// The number of an argument, if it has one.
pub(crate) fn number(matches: &ArgMatches<'_>, id: &str, limits: Limits) -> Option<u32>
    requires { IsNumberWithin id.now limits.least limits.most
        (rows_of (found_of matches.now)) }
    ensures number { result ≡ number_in (one_of id.now (rows_of (found_of matches.now))) }
    ensures within { IfSome result (λ number.
        (limits.least ≤ number) × (number ≤ limits.most)) }
{
    match wide_number(matches, id, limits) {
        None => None,
        Some(number) => Some(number as u32),
    }
}

// The same, as `clap` reads it.
fn wide_number(matches: &ArgMatches<'_>, id: &str, limits: Limits) -> Option<u64>
    requires { IsNumberWithin id.now limits.least limits.most
        (rows_of (found_of matches.now)) }
    ensures number { result ≡ number_in (one_of id.now (rows_of (found_of matches.now))) }
    ensures within { IfSome result (λ number.
        (limits.least ≤ number) × (number ≤ limits.most)) }
{
    let _limits = limits;
    let Ok(number) = matches.try_get_one::<u64>(id) else {
        unreachable!();
    };
    number
}

/// The number of an argument, or what stands for it where it has none.
pub(crate) fn number_or(matches: &ArgMatches<'_>, id: &str, limits: Limits, otherwise: u32) -> u32
    requires number { IsNumberWithin id.now limits.least limits.most
        (rows_of (found_of matches.now)) }
    requires otherwise { (limits.least ≤ otherwise) × (otherwise ≤ limits.most) }
    ensures number { result
        ≡ unwrap_or (number_in (one_of id.now (rows_of (found_of matches.now)))) otherwise }
    ensures within { (limits.least ≤ result) × (result ≤ limits.most) }
{
    number(matches, id, limits).unwrap_or(otherwise)
}

/// Whether a flag is there.
pub(crate) fn flag(matches: &ArgMatches<'_>, id: &str) -> bool
    ensures { result ≡ flag_in (first_of id.now (rows_of (found_of matches.now))) }
{
    match matches.get_str(id) {
        None => false,
        Some(text) => text == "true",
    }
}

/// The texts of an argument, in order.
pub(crate) fn names<'a>(
    alloc: Global,
    matches: &ArgMatches<'a>,
    id: &str,
) -> Result<Vec<&'a str>, AllocError>
    ensures { IfOk result (λ names. map (λ name. name.now) names.items
        ≡ names_in (all_of id.now (rows_of (found_of matches.now)))) }
{
    match matches.get_strs(id) {
        None => Ok(Vec::new(alloc)),
        Some(names) => Vec::from_slice(alloc, names),
    }
}

/// The text of an argument, if it has one.
pub(crate) fn name<'a>(matches: &ArgMatches<'a>, id: &str) -> Option<&'a str>
    ensures { option_map (λ name. name.now) result
        ≡ first_of id.now (rows_of (found_of matches.now)) }
{
    matches.get_str(id)
}

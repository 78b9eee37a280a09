//! The words of a whole command line.
ghost use Rattle.clap.specs.Words.{found_of, rows_of};
ghost use Rattle.command_line.specs.Commands.{gen_app};
ghost use Rattle.command_line.specs.Limits.{AreMailOptions, AreOptions, HasGenNumbersWithin};
ghost use Rattle.command_line.specs.Limits.{HasMailNumbersWithin, HasNumbersWithin, IsMailWithin};
ghost use Rattle.command_line.specs.Limits.{IsGenWithin};
ghost use Rattle.command_line.specs.Limits.{IsRunWithin, IsWithin};
ghost use Rattle.command_line.specs.Readings.{AreAccepted};
ghost use Rattle.command_line.specs.Requests.{Census, Dump, Gen, Gives, Image, Load, Mail, Replay};
ghost use Rattle.command_line.specs.Requests.{Run, if_some_mail, mail_asked_by, mail_found};
ghost use Rattle.command_line.specs.Requests.{mail_of};
ghost use Rattle.command_line.specs.Requests.{asked_by, dump_of, file_of, gen_found, gen_of};
ghost use Rattle.command_line.specs.Requests.{if_printable, if_some_file, if_some_name, image_of};
ghost use Rattle.command_line.specs.Requests.{names_by, request_behind, request_of, run_asked_by};
ghost use Rattle.command_line.specs.Requests.{run_of, run_with};
ghost use Rattle.std.specs.Prelude.{IfOk, IfSome, codes, length, map, option_map, string_bytes};
ghost use Rattle.std.specs.Prelude.{◌≡◌};
ghost use Rattle.std.specs.Prelude.{◌≤◌};

use crate::commands::{
    dump_command, file_command, gen_command, image_command, mail_command, run_command,
};
use crate::limits::{CELLS, CLIENTS, COMMANDS, CYCLES, KEEP, MINOR, START, VERSIONS};
use crate::request::{GenWords, MailWords, Request, RunWords, WordsFault};
use crate::values::{flag, matches_on, name, names, number, number_or};
use cell_words::GREATEST_CYCLES;
use clap::ArgMatches;
use std::alloc::{AllocError, Global};

/// What the words after the program's name ask for.
pub fn read_words<'a>(alloc: Global, words: &'a [String]) -> Result<Request<'a>, WordsFault>
    ensures request { Gives asked_by result
        (request_of (map string_bytes words.entry.now)) }
    ensures within { IfOk result IsWithin }
{
    match words {
        [] => Err(WordsFault::Usage),
        [word, behind @ ..] => read_behind(alloc, word.as_str(), behind),
    }
}

// What a first word and those after it ask for.
fn read_behind<'a>(
    alloc: Global,
    word: &str,
    words: &'a [String],
) -> Result<Request<'a>, WordsFault>
    ensures request { Gives asked_by result
        (request_behind word.now (map string_bytes words.entry.now)) }
    ensures within { IfOk result IsWithin }
{
    match word {
        "run" => run_request(alloc, words),
        "replay" => replay_request(alloc, words),
        "gen" => gen_request(alloc, words),
        "load" => load_request(alloc, words),
        "image" => image_request(alloc, words),
        "dump" => dump_request(alloc, words),
        "census" => census_request(alloc, words),
        "mail" => mail_request(alloc, words),
        _ => Err(WordsFault::Usage),
    }
}

fn run_request<'a>(alloc: Global, words: &'a [String]) -> Result<Request<'a>, WordsFault>
    ensures request { Gives asked_by result
        (option_map Run (run_of (map string_bytes words.entry.now))) }
    ensures within { IfOk result IsWithin }
{
    match run_words(alloc, words) {
        Ok(run) => Ok(Request::Run(run)),
        Err(fault) => Err(fault),
    }
}

fn replay_request<'a>(alloc: Global, words: &'a [String]) -> Result<Request<'a>, WordsFault>
    ensures request { Gives asked_by result
        (option_map Replay (file_of (codes "replay") (map string_bytes words.entry.now))) }
    ensures within { IfOk result IsWithin }
{
    match file_words(alloc, "replay", words) {
        Ok(name) => Ok(Request::Replay(name)),
        Err(fault) => Err(fault),
    }
}

fn load_request<'a>(alloc: Global, words: &'a [String]) -> Result<Request<'a>, WordsFault>
    ensures request { Gives asked_by result
        (option_map Load (file_of (codes "load") (map string_bytes words.entry.now))) }
    ensures within { IfOk result IsWithin }
{
    match file_words(alloc, "load", words) {
        Ok(name) => Ok(Request::Load(name)),
        Err(fault) => Err(fault),
    }
}

fn image_request<'a>(alloc: Global, words: &'a [String]) -> Result<Request<'a>, WordsFault>
    ensures request { Gives asked_by result
        (option_map Image (image_of (map string_bytes words.entry.now))) }
    ensures within { IfOk result IsWithin }
{
    match image_words(alloc, words) {
        Ok(run) => Ok(Request::Image(run)),
        Err(fault) => Err(fault),
    }
}

fn dump_request<'a>(alloc: Global, words: &'a [String]) -> Result<Request<'a>, WordsFault>
    ensures request { Gives asked_by result
        (option_map Dump (dump_of (map string_bytes words.entry.now))) }
    ensures within { IfOk result IsWithin }
{
    match dump_words(alloc, words) {
        Ok(names) => Ok(Request::Dump(names)),
        Err(fault) => Err(fault),
    }
}

fn census_request<'a>(alloc: Global, words: &'a [String]) -> Result<Request<'a>, WordsFault>
    ensures request { Gives asked_by result
        (option_map Census (file_of (codes "census") (map string_bytes words.entry.now))) }
    ensures within { IfOk result IsWithin }
{
    match file_words(alloc, "census", words) {
        Ok(name) => Ok(Request::Census(name)),
        Err(fault) => Err(fault),
    }
}

fn mail_request<'a>(alloc: Global, words: &'a [String]) -> Result<Request<'a>, WordsFault>
    ensures request { Gives asked_by result
        (option_map Mail (mail_of (map string_bytes words.entry.now))) }
    ensures within { IfOk result IsWithin }
{
    match mail_words(alloc, words) {
        Ok(mail) => Ok(Request::Mail(mail)),
        Err(fault) => Err(fault),
    }
}

fn gen_request<'a>(alloc: Global, words: &'a [String]) -> Result<Request<'a>, WordsFault>
    ensures request { Gives asked_by result
        (option_map Gen (gen_of (map string_bytes words.entry.now))) }
    ensures within { IfOk result IsWithin }
{
    match gen_words(alloc, words) {
        Ok(made) => Ok(Request::Gen(made)),
        Err(fault) => Err(fault),
    }
}

// The words after `run`.
#[tactic(auto, using(crate::proofs::Ends::run_options))]
fn run_words<'a>(alloc: Global, words: &'a [String]) -> Result<RunWords<'a>, WordsFault>
    ensures run { Gives run_asked_by result
        (run_of (map string_bytes words.entry.now)) }
    ensures within { IfOk result IsRunWithin }
{
    let command = run_command(alloc)?;
    match matches_on(command, words) {
        Ok(matches) => {
            let history = flag(&matches, "history");
            let stats = flag(&matches, "stats");
            let run = run_in(alloc, &matches, history, stats)?;
            some_file(run)
        }
        Err(fault) => Err(fault),
    }
}

// The words after `image`.
#[tactic(auto, using(crate::proofs::Ends::image_options))]
fn image_words<'a>(alloc: Global, words: &'a [String]) -> Result<RunWords<'a>, WordsFault>
    ensures run { Gives run_asked_by result
        (image_of (map string_bytes words.entry.now)) }
    ensures within { IfOk result IsRunWithin }
{
    let command = image_command(alloc)?;
    match matches_on(command, words) {
        Ok(matches) => {
            let run = run_in(alloc, &matches, false, false)?;
            some_file(run)
        }
        Err(fault) => Err(fault),
    }
}

// What `clap` found for a run, with these flags.
fn run_in<'a>(
    alloc: Global,
    matches: &ArgMatches<'a>,
    history: bool,
    stats: bool,
) -> Result<RunWords<'a>, AllocError>
    requires { AreOptions (rows_of (found_of matches.now)) }
    ensures ok { IfOk result (λ run. run_asked_by run
        ≡ run_with history stats (rows_of (found_of matches.now))) }
    ensures within { IfOk result HasNumbersWithin }
{
    let files = names(alloc, matches, "file")?;
    Ok(RunWords {
        cells: number_or(matches, "cells", CELLS, 65_536),
        minor: number_or(matches, "minor", MINOR, 8_192),
        keep: number_or(matches, "keep", KEEP, 8),
        versions: number_or(matches, "versions", VERSIONS, 1_000_000),
        cycles: number_or(matches, "cycles", CYCLES, GREATEST_CYCLES),
        history,
        stats,
        files,
    })
}

// A run has a file or more.
fn some_file(run: RunWords<'_>) -> Result<RunWords<'_>, WordsFault>
    requires { HasNumbersWithin run }
    ensures run { Gives run_asked_by result (if_some_file (run_asked_by run.entry)) }
    ensures within { IfOk result IsRunWithin }
{
    if run.files.is_empty() {
        return Err(WordsFault::Usage);
    }
    Ok(run)
}

// The words after `dump`.
fn dump_words<'a>(alloc: Global, words: &'a [String]) -> Result<Vec<&'a str>, WordsFault>
    ensures names { Gives names_by result (dump_of (map string_bytes words.entry.now)) }
    ensures some { IfOk result (λ names. 1 ≤ length names.items) }
{
    let command = dump_command(alloc)?;
    match matches_on(command, words) {
        Ok(matches) => {
            let names = names(alloc, &matches, "file")?;
            some_name(names)
        }
        Err(fault) => Err(fault),
    }
}

// A dump is of a file or more.
fn some_name(names: Vec<&str>) -> Result<Vec<&str>, WordsFault>
    ensures names { Gives names_by result (if_some_name (names_by names.entry)) }
    ensures some { IfOk result (λ names. 1 ≤ length names.items) }
{
    if names.is_empty() {
        return Err(WordsFault::Usage);
    }
    Ok(names)
}

// The words after `mail`.
#[tactic(auto, using(crate::proofs::Ends::mail_options))]
fn mail_words<'a>(alloc: Global, words: &'a [String]) -> Result<MailWords<'a>, WordsFault>
    ensures mail { Gives mail_asked_by result (mail_of (map string_bytes words.entry.now)) }
    ensures within { IfOk result IsMailWithin }
{
    let command = mail_command(alloc)?;
    match matches_on(command, words) {
        Ok(matches) => {
            let mail = mail_in(alloc, &matches)?;
            some_sender(mail)
        }
        Err(fault) => Err(fault),
    }
}

// What `clap` found for a run of a mailbox.
fn mail_in<'a>(alloc: Global, matches: &ArgMatches<'a>) -> Result<MailWords<'a>, AllocError>
    requires { AreMailOptions (rows_of (found_of matches.now)) }
    ensures ok { IfOk result (λ mail. mail_asked_by mail
        ≡ mail_found (rows_of (found_of matches.now))) }
    ensures within { IfOk result HasMailNumbersWithin }
{
    let files = names(alloc, matches, "file")?;
    Ok(MailWords {
        cells: number_or(matches, "cells", CELLS, 65_536),
        cycles: number_or(matches, "cycles", CYCLES, GREATEST_CYCLES),
        files,
    })
}

// A mailbox has a sender or more.
fn some_sender(mail: MailWords<'_>) -> Result<MailWords<'_>, WordsFault>
    requires { HasMailNumbersWithin mail }
    ensures mail { Gives mail_asked_by result (if_some_mail (mail_asked_by mail.entry)) }
    ensures within { IfOk result IsMailWithin }
{
    if mail.files.is_empty() {
        return Err(WordsFault::Usage);
    }
    Ok(mail)
}

// The words after a subcommand that takes one file.
fn file_words<'a>(
    alloc: Global,
    subcommand: &'a str,
    words: &'a [String],
) -> Result<&'a str, WordsFault>
    ensures { Gives (λ name. name.now) result
        (file_of subcommand.entry.now (map string_bytes words.entry.now)) }
{
    let command = file_command(alloc, subcommand)?;
    match matches_on(command, words) {
        Ok(matches) => name(&matches, "file").ok_or(WordsFault::Usage),
        Err(fault) => Err(fault),
    }
}

// The words after `gen`.
fn gen_words(alloc: Global, words: &[String]) -> Result<GenWords, WordsFault>
    ensures made { Gives (λ made. made) result
        (gen_of (map string_bytes words.now)) }
    ensures within { IfOk result IsGenWithin }
{
    let command = gen_command(alloc)?;
    match matches_on(command, words) {
        Ok(matches) => gen_in(&matches).ok_or(WordsFault::Usage),
        Err(fault) => Err(fault),
    }
}

// What `clap` found for generated scripts.
#[tactic(auto, using(crate::proofs::Ends::start, crate::proofs::Ends::clients, crate::proofs::Ends::commands, crate::proofs::Ends::print))]
fn gen_in(matches: &ArgMatches<'_>) -> Option<GenWords>
    requires { AreAccepted gen_app.top.rules (rows_of (found_of matches.now)) }
    ensures made { result ≡ gen_found (rows_of (found_of matches.now)) }
    ensures within { IfSome result IsGenWithin }
{
    printable(GenWords {
        start: number(matches, "start", START)?,
        clients: number(matches, "clients", CLIENTS)?,
        commands: number(matches, "commands", COMMANDS)?,
        print: number(matches, "print", CLIENTS),
    })
}

// The script that is printed is one of those that are made.
fn printable(words: GenWords) -> Option<GenWords>
    requires { HasGenNumbersWithin words }
    ensures words { result ≡ if_printable words }
    ensures within { IfSome result IsGenWithin }
{
    match words.print {
        Some(client) if client > words.clients => None,
        _ => Some(words),
    }
}

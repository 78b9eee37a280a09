//! The commands of `clap` that read the words after each subcommand.
//!
//! None of them has subcommands, short options, or words for help and version.
ghost use Rattle.clap.specs.Words.{app_of, rule_of};
ghost use Rattle.command_line.specs.Commands.{bare, dump_app, file_app, flag_rule, gen_app};
ghost use Rattle.command_line.specs.Commands.{image_app, mail_app, shown_rules};
ghost use Rattle.command_line.specs.Commands.{name_rule, names_rule, number_rule, option_rule};
ghost use Rattle.command_line.specs.Commands.{room_rules, run_app, with_rules};
ghost use Rattle.std.specs.Prelude.{IfOk, false, ◌≡◌};

use crate::limits::{CELLS, CLIENTS, COMMANDS, CYCLES, KEEP, Limits, MINOR, START, VERSIONS};
use clap::builder::ValueParser;
use clap::{Arg, ArgAction, Command};
use std::alloc::{AllocError, Global};

/// The command of `run`.
pub(crate) fn run_command<'a>(alloc: Global) -> Result<Command<'a>, AllocError>
    ensures { IfOk result (λ command. app_of command ≡ run_app) }
{
    with_shown(alloc, with_room(alloc, bare_command(alloc, "run"))?)
}

/// The command of `image`.
pub(crate) fn image_command<'a>(alloc: Global) -> Result<Command<'a>, AllocError>
    ensures { IfOk result (λ command. app_of command ≡ image_app) }
{
    with_room(alloc, bare_command(alloc, "image"))?.arg(names(alloc, "file"))
}

/// The command of `dump`.
pub(crate) fn dump_command<'a>(alloc: Global) -> Result<Command<'a>, AllocError>
    ensures { IfOk result (λ command. app_of command ≡ dump_app) }
{
    bare_command(alloc, "dump").arg(names(alloc, "file"))
}

/// The command of `mail`.
pub(crate) fn mail_command<'a>(alloc: Global) -> Result<Command<'a>, AllocError>
    ensures { IfOk result (λ command. app_of command ≡ mail_app) }
{
    bare_command(alloc, "mail")
        .arg(option(alloc, "cells", CELLS))?
        .arg(option(alloc, "cycles", CYCLES))?
        .arg(names(alloc, "file"))
}

// Adds the options for what a run may use, and for how often the collector may go round.
fn with_room<'a>(alloc: Global, command: Command<'a>) -> Result<Command<'a>, AllocError>
    ensures { IfOk result (λ more. app_of more ≡ with_rules (app_of command.entry) room_rules) }
{
    command
        .arg(option(alloc, "cells", CELLS))?
        .arg(option(alloc, "minor", MINOR))?
        .arg(option(alloc, "keep", KEEP))?
        .arg(option(alloc, "versions", VERSIONS))?
        .arg(option(alloc, "cycles", CYCLES))
}

// Adds what is written, and which files are read.
fn with_shown<'a>(alloc: Global, command: Command<'a>) -> Result<Command<'a>, AllocError>
    ensures { IfOk result (λ more. app_of more ≡ with_rules (app_of command.entry) shown_rules) }
{
    command
        .arg(flag(alloc, "history"))?
        .arg(flag(alloc, "stats"))?
        .arg(names(alloc, "file"))
}

/// The command of each subcommand that takes one file.
pub(crate) fn file_command<'a>(
    alloc: Global,
    subcommand: &'a str,
) -> Result<Command<'a>, AllocError>
    ensures { IfOk result (λ command. app_of command ≡ file_app subcommand.entry.now) }
{
    bare_command(alloc, subcommand).arg(name(alloc, "file"))
}

/// The command of `gen`.
pub(crate) fn gen_command<'a>(alloc: Global) -> Result<Command<'a>, AllocError>
    ensures { IfOk result (λ command. app_of command ≡ gen_app) }
{
    bare_command(alloc, "gen")
        .arg(number(alloc, "start", START))?
        .arg(number(alloc, "clients", CLIENTS))?
        .arg(number(alloc, "commands", COMMANDS))?
        .arg(option(alloc, "print", CLIENTS))
}

// A command that takes no word for the program's name, and has no help.
fn bare_command<'a>(alloc: Global, name: &'a str) -> Command<'a>
    ensures { app_of result ≡ bare name.entry.now }
{
    Command::new(alloc, name)
        .no_binary_name(true)
        .disable_help_flag(true)
        .disable_version_flag(true)
}

// A number after its name.
fn option<'a>(alloc: Global, name: &'a str, limits: Limits) -> Arg<'a>
    ensures rule { rule_of result ≡ option_rule name.entry.now limits.least limits.most }
    ensures own { result.global ≡ false }
{
    Arg::new(alloc, name)
        .long(name)
        .action(ArgAction::Set)
        .value_parser(parser(limits))
}

// A name alone.
fn flag<'a>(alloc: Global, name: &'a str) -> Arg<'a>
    ensures rule { rule_of result ≡ flag_rule name.entry.now }
    ensures own { result.global ≡ false }
{
    Arg::new(alloc, name).long(name).action(ArgAction::SetTrue)
}

// A number in its place.
fn number<'a>(alloc: Global, name: &'a str, limits: Limits) -> Arg<'a>
    ensures rule { rule_of result ≡ number_rule name.entry.now limits.least limits.most }
    ensures own { result.global ≡ false }
{
    Arg::new(alloc, name)
        .required(true)
        .action(ArgAction::Set)
        .value_parser(parser(limits))
}

// A text in its place.
fn name<'a>(alloc: Global, name: &'a str) -> Arg<'a>
    ensures rule { rule_of result ≡ name_rule name.entry.now }
    ensures own { result.global ≡ false }
{
    Arg::new(alloc, name).required(true).action(ArgAction::Set)
}

// One text or more, wherever they stand.
fn names<'a>(alloc: Global, name: &'a str) -> Arg<'a>
    ensures rule { rule_of result ≡ names_rule name.entry.now }
    ensures own { result.global ≡ false }
{
    Arg::new(alloc, name)
        .required(true)
        .action(ArgAction::Append)
}

fn parser<'a>(limits: Limits) -> ValueParser<'a>
    ensures { result ≡ ValueParser.Unsigned limits.least limits.most }
{
    ValueParser::unsigned(u64::from(limits.least), u64::from(limits.most))
}

//! One line of a script.
ghost use Rattle.cmd_text.specs.Answers.{Gives};
ghost use Rattle.cmd_text.specs.Line.{and_then, arguments_in, command_of, last_path_in, number_in};
ghost use Rattle.cmd_text.specs.Line.{path_and_text_in, path_in, reading_of, short_text, text_in};
ghost use Rattle.cmd_text.specs.declared.fault.ScriptKind.TheVariants.{NoQuote};
ghost use Rattle.doc_tree.specs.Words.{is_text_byte};
ghost use Rattle.line_texts.specs.Line.{is_plain_byte};
ghost use Rattle.quoted_text.specs.Quoted.{unquoted_of};
ghost use Rattle.std.specs.List.{list_all};
ghost use Rattle.std.specs.Prelude.{IsTrue, ok_or};

use crate::fault::{LineError, ScriptKind};
use crate::form::Form;
use crate::recent_paths::RecentPaths;
use crate::verb::Verb;
use doc_model::{Command, Path, Text};
use line_texts::{
    after_space, counts, first_word, is_plain, next_rest, next_word, read_digits, without_return,
};
use quoted_text::read_quoted;
use std::alloc::Global;

/// The command that a line holds, if it holds one. The line comes without its line feed.
pub(crate) fn read_line(
    alloc: Global,
    paths: &mut RecentPaths,
    line: &[u8],
) -> Result<Option<Command>, LineError>
    ensures { Gives result (reading_of line.now) }
{
    let line = without_return(line);
    if !counts(line) {
        return Ok(None);
    }
    if !is_plain(line) {
        return Err(LineError::Fault(ScriptKind::BadByte));
    }
    Ok(Some(read_command(alloc, paths, line)?))
}

fn read_command(alloc: Global, paths: &mut RecentPaths, line: &[u8]) -> Result<Command, LineError>
    requires { IsTrue (list_all is_plain_byte line.now) }
    ensures { Gives result (command_of line.now) }
{
    let (word, rest) = first_word(line);
    match Verb::read(word) {
        None => Err(LineError::Fault(ScriptKind::NoCommand)),
        Some(verb) => read_arguments(alloc, paths, Form::Plain, verb, rest),
    }
}

/// What a command has after its first word.
pub(crate) fn read_arguments(
    alloc: Global,
    paths: &mut RecentPaths,
    form: Form,
    verb: Verb,
    rest: &[u8],
) -> Result<Command, LineError>
    requires { IsTrue (list_all is_plain_byte rest.now) }
    ensures { Gives result (arguments_in form verb rest.now) }
{
    match verb {
        Verb::Put => {
            let (path, text) = read_path_and_text(alloc, paths, form, rest)?;
            Ok(Command::Put { path, text })
        }
        Verb::DraftPut => {
            let (path, text) = read_path_and_text(alloc, paths, form, rest)?;
            Ok(Command::DraftPut { path, text })
        }
        Verb::Copy => {
            let from = read_path(alloc, paths, rest)?;
            let to = read_last_path(alloc, paths, next_rest(rest))?;
            Ok(Command::Copy { from, to })
        }
        Verb::Old => {
            let back = read_number(rest)?;
            let path = read_last_path(alloc, paths, next_rest(rest))?;
            Ok(Command::Old { back, path })
        }
        Verb::Del => Ok(Command::Del {
            path: read_last_path(alloc, paths, rest)?,
        }),
        Verb::Get => Ok(Command::Get {
            path: read_last_path(alloc, paths, rest)?,
        }),
        Verb::List => Ok(Command::List {
            path: read_last_path(alloc, paths, rest)?,
        }),
        Verb::Size => Ok(Command::Size {
            path: read_last_path(alloc, paths, rest)?,
        }),
        Verb::DraftGet => Ok(Command::DraftGet {
            path: read_last_path(alloc, paths, rest)?,
        }),
        Verb::Take => Ok(Command::Take {
            path: read_last_path(alloc, paths, rest)?,
        }),
        Verb::Publish => Ok(Command::Publish {
            path: read_last_path(alloc, paths, rest)?,
        }),
    }
}

fn read_path_and_text(
    alloc: Global,
    paths: &mut RecentPaths,
    form: Form,
    rest: &[u8],
) -> Result<(Path, Text), LineError>
    requires { IsTrue (list_all is_plain_byte rest.now) }
    ensures { Gives result (path_and_text_in form rest.now) }
{
    let path = read_path(alloc, paths, rest)?;
    let text = read_text(alloc, form, next_rest(rest))?;
    Ok((path, text))
}

fn read_path(alloc: Global, paths: &mut RecentPaths, rest: &[u8]) -> Result<Path, LineError>
    ensures { Gives result (path_in rest.now) }
{
    match paths.read(alloc, next_word(rest).0)? {
        Some(path) => Ok(path),
        None => Err(LineError::Fault(ScriptKind::BadPath)),
    }
}

// A path with which the line ends.
fn read_last_path(alloc: Global, paths: &mut RecentPaths, rest: &[u8]) -> Result<Path, LineError>
    ensures { Gives result (last_path_in rest.now) }
{
    let path = read_path(alloc, paths, rest)?;
    if !next_rest(rest).is_empty() {
        return Err(LineError::Fault(ScriptKind::Extra));
    }
    Ok(path)
}

fn read_text(alloc: Global, form: Form, rest: &[u8]) -> Result<Text, LineError>
    requires { IsTrue (list_all is_plain_byte rest.now) }
    ensures { Gives result (text_in form rest.now) }
{
    match form {
        Form::Plain => read_short(alloc, after_space(rest)),
        Form::Quoted => read_quotes(alloc, after_space(rest)),
    }
}

// The text between the quotes, however long: whether it is too long is looked at afterwards.
fn read_quotes(alloc: Global, bytes: &[u8]) -> Result<Text, LineError>
    ensures { Gives result (and_then (ok_or (unquoted_of bytes.now) NoQuote) short_text) }
{
    match read_quoted(alloc, bytes)? {
        Some(text) => read_short(alloc, &text),
        None => Err(LineError::Fault(ScriptKind::NoQuote)),
    }
}

fn read_short(alloc: Global, bytes: &[u8]) -> Result<Text, LineError>
    requires { IsTrue (list_all is_text_byte bytes.now) }
    ensures { Gives result (short_text bytes.now) }
{
    match Text::read(alloc, bytes)? {
        Some(text) => Ok(text),
        None => Err(LineError::Fault(ScriptKind::LongText)),
    }
}

fn read_number(rest: &[u8]) -> Result<u32, LineError>
    ensures { Gives result (number_in rest.now) }
{
    match read_digits(next_word(rest).0, 7) {
        Some(number) => Ok(number as u32),
        None => Err(LineError::Fault(ScriptKind::BadNumber)),
    }
}

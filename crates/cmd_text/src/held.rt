//! One line of a script of version 2.
ghost use Rattle.cmd_text.specs.Answers.{Gives};
ghost use Rattle.cmd_text.specs.Held.{edit_of, held_in, held_of, second_reading_of, within};
ghost use Rattle.cmd_text.specs.Line.{and_then, arguments_in, at_end};
ghost use Rattle.cmd_text.specs.declared.form.Form.TheVariants.{Quoted};
ghost use Rattle.line_texts.specs.Line.{is_plain_byte};
ghost use Rattle.std.specs.List.{list_all};
ghost use Rattle.std.specs.Prelude.{IfOk, IsTrue, ◌≡◌};

use crate::fault::{LineError, ScriptKind};
use crate::form::Form;
use crate::line::read_arguments;
use crate::recent_paths::RecentPaths;
use crate::verb::Verb;
use crate::word::Word;
use doc_model::{Command, Edit, NoMemory};
use line_texts::{counts, first_word, is_plain, without_return};
use std::alloc::Global;

/// What a line holds.
#[derive(Drop)]
pub(crate) enum Held {
    Command(Command),
    /// an edit of the batch that it stands in
    Edit(Edit),
    Begin,
    Commit,
}

/// What a line holds, if it holds something. The line comes without its line feed.
pub(crate) fn read_held(
    alloc: Global,
    paths: &mut RecentPaths,
    inside: bool,
    line: &[u8],
) -> Result<Option<Held>, LineError>
    ensures { Gives result (second_reading_of inside line.now) }
{
    let line = without_return(line);
    if !counts(line) {
        return Ok(None);
    }
    if !is_plain(line) {
        return Err(LineError::Fault(ScriptKind::BadByte));
    }
    Ok(Some(read_word(alloc, paths, inside, line)?))
}

fn read_word(
    alloc: Global,
    paths: &mut RecentPaths,
    inside: bool,
    line: &[u8],
) -> Result<Held, LineError>
    requires { IsTrue (list_all is_plain_byte line.now) }
    ensures { Gives result (held_of inside line.now) }
{
    let (word, rest) = first_word(line);
    match Word::read(word) {
        None => Err(LineError::Fault(ScriptKind::NoCommand)),
        Some(word) if !word.is_placed(inside) => Err(LineError::Fault(ScriptKind::NoBatch)),
        Some(word) => read_rest(alloc, paths, inside, word, rest),
    }
}

fn read_rest(
    alloc: Global,
    paths: &mut RecentPaths,
    inside: bool,
    word: Word,
    rest: &[u8],
) -> Result<Held, LineError>
    requires { IsTrue (list_all is_plain_byte rest.now) }
    ensures { Gives result (held_in inside word rest.now) }
{
    match word {
        Word::Begin => at_end(rest, Held::Begin),
        Word::Commit => at_end(rest, Held::Commit),
        Word::Verb(verb) => read_verb(alloc, paths, inside, verb, rest),
    }
}

fn at_end(rest: &[u8], held: Held) -> Result<Held, LineError>
    ensures { Gives result (at_end rest.now held) }
{
    match rest {
        [] => Ok(held),
        _ => Err(LineError::Fault(ScriptKind::Extra)),
    }
}

fn read_verb(
    alloc: Global,
    paths: &mut RecentPaths,
    inside: bool,
    verb: Verb,
    rest: &[u8],
) -> Result<Held, LineError>
    requires { IsTrue (list_all is_plain_byte rest.now) }
    ensures { Gives result (and_then (arguments_in Quoted verb rest.now) (within inside)) }
{
    match read_arguments(alloc, paths, Form::Quoted, verb, rest) {
        Ok(command) => within(inside, command),
        Err(error) => Err(error),
    }
}

fn within(inside: bool, command: Command) -> Result<Held, LineError>
    ensures { Gives result (within inside command) }
{
    if !inside {
        return Ok(Held::Command(command));
    }
    match edit_of(&command)? {
        Some(edit) => Ok(Held::Edit(edit)),
        None => Err(LineError::Fault(ScriptKind::NoBatch)),
    }
}

// The edit of a batch that is written as the command is.
fn edit_of(command: &Command) -> Result<Option<Edit>, NoMemory>
    ensures { IfOk result (λ edit. edit ≡ edit_of command.now) }
{
    Ok(match command {
        Command::Put { path, text } => Some(Edit::Put {
            path: path.copy()?,
            text: text.copy()?,
        }),
        Command::Del { path } => Some(Edit::Del { path: path.copy()? }),
        Command::Copy { from, to } => Some(Edit::Copy {
            from: from.copy()?,
            to: to.copy()?,
        }),
        Command::Publish { path } => Some(Edit::Publish { path: path.copy()? }),
        _ => None,
    })
}

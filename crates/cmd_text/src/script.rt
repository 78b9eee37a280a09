//! A whole script.
ghost use Rattle.cmd_text.specs.Answers.{GivesAt, Reads};
ghost use Rattle.cmd_text.specs.Form.{is_second};
ghost use Rattle.cmd_text.specs.Line.{reading_of};
ghost use Rattle.cmd_text.specs.Script.{first_script_of};
ghost use Rattle.cmd_text.specs.Whole.{script_of};
ghost use Rattle.std.specs.Prelude.{false, length, ◌-◌, ◌<◌, ◌≡◌, ◌^◌};

use crate::fault::{LineError, ScriptError, ScriptFault};
use crate::form::is_second;
use crate::line::read_line;
use crate::recent_paths::{RecentPaths, paths_for};
use crate::second::read_second_script;
use doc_model::Command;
use run_limits::MOST_COMMANDS;
use std::alloc::Global;

/// As many as a script of this length may well have. No more than `MOST_COMMANDS` get their room at
/// once, since a run has no more; the list grows where it has to.
pub(crate) fn commands_for(bytes: &[u8]) -> usize {
    (bytes.len() / 8).min(MOST_COMMANDS as usize)
}

/// The commands of a script, or its first faulty line. The length has its bound so that the number
/// of every line fits.
pub fn read_script(alloc: Global, bytes: &[u8]) -> Result<Vec<Command>, ScriptError>
    requires { length bytes.now < 2 ^ 32 - 1 }
    ensures script { Reads result (script_of bytes.now) }
    ensures first { is_second bytes.now ≡ false → Reads result (first_script_of bytes.now) }
{
    if is_second(bytes) {
        read_second_script(alloc, bytes)
    } else {
        read_first_script(alloc, bytes)
    }
}

fn read_first_script(alloc: Global, bytes: &[u8]) -> Result<Vec<Command>, ScriptError>
    requires { length bytes.now < 2 ^ 32 - 1 }
    ensures script { Reads result (first_script_of bytes.now) }
{
    let mut commands = Vec::with_capacity(alloc, commands_for(bytes))?;
    let mut paths = RecentPaths::with_room(alloc, paths_for(bytes))?;
    let mut number = 0;
    for line in bytes.split(|byte| *byte == b'\n') {
        number += 1;
        match read_numbered(alloc, &mut paths, number, line) {
            Ok(None) => {}
            Ok(Some(command)) => commands.push(command)?,
            Err(error) => return Err(error),
        }
    }
    Ok(commands)
}

fn read_numbered(
    alloc: Global,
    paths: &mut RecentPaths,
    number: u32,
    line: &[u8],
) -> Result<Option<Command>, ScriptError>
    ensures { GivesAt number result (reading_of line.now) }
{
    match read_line(alloc, paths, line) {
        Ok(command) => Ok(command),
        Err(LineError::Fault(kind)) => Err(ScriptError::Fault(ScriptFault { line: number, kind })),
        Err(LineError::NoMemory) => Err(ScriptError::NoMemory),
    }
}

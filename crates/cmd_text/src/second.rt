//! A whole script of version 2.
ghost use Rattle.cmd_text.specs.Answers.{Reads};
ghost use Rattle.cmd_text.specs.Second.{closed_behind, second_script_of, with_last};
ghost use Rattle.std.specs.Prelude.{OnOk, length, ◌-◌, ◌<◌, ◌≡◌, ◌^◌};

use crate::batch::{Batch, Turn, read_turn};
use crate::fault::{ScriptError, ScriptFault, ScriptKind};
use crate::recent_paths::{RecentPaths, paths_for};
use crate::script::commands_for;
use doc_model::{Command, NoMemory};
use line_texts::cut_line;
use std::alloc::Global;

/// The commands of a script of version 2, or its first faulty line.
pub(crate) fn read_second_script(alloc: Global, bytes: &[u8]) -> Result<Vec<Command>, ScriptError>
    requires { length bytes.now < 2 ^ 32 - 1 }
    ensures { Reads result (second_script_of bytes.now) }
{
    let mut commands = Vec::with_capacity(alloc, commands_for(bytes))?;
    let mut batch = None;
    let mut paths = RecentPaths::with_room(alloc, paths_for(bytes))?;
    let mut number = 1;
    let mut rest = cut_line(bytes).1;
    while let Some(left) = rest {
        let (line, more) = cut_line(left);
        number += 1;
        let Turn {
            command,
            batch: next,
        } = match read_turn(alloc, &mut paths, batch, number, line) {
            Ok(turn) => turn,
            Err(error) => return Err(error),
        };
        push_some(&mut commands, command)?;
        batch = next;
        rest = more;
    }
    closed(commands, batch)
}

fn push_some(commands: &mut Vec<Command>, command: Option<Command>) -> Result<(), NoMemory>
    ensures { OnOk result (commands.new.items ≡ with_last commands.old.items command) }
{
    if let Some(command) = command {
        commands.push(command)?;
    }
    Ok(())
}

// The commands, if no batch is left open.
fn closed(commands: Vec<Command>, batch: Option<Batch>) -> Result<Vec<Command>, ScriptError>
    ensures { Reads result (closed_behind commands.items batch) }
{
    match batch {
        None => Ok(commands),
        Some(batch) => Err(ScriptError::Fault(ScriptFault {
            line: batch.line,
            kind: ScriptKind::NoBatch,
        })),
    }
}

//! What the lines of a script of version 2 give, one after another.
ghost use Rattle.cmd_text.specs.Answers.{GivesAt};
ghost use Rattle.cmd_text.specs.Held.{second_reading_of};
ghost use Rattle.cmd_text.specs.Second.{ended, turn_of, turned, with_edit};
ghost use Rattle.std.specs.Prelude.{◌≡◌};

use crate::fault::{LineError, ScriptError, ScriptFault, ScriptKind};
use crate::held::{Held, read_held};
use crate::recent_paths::RecentPaths;
use doc_model::{Command, Edit, Edits};
use std::alloc::Global;

/// A batch whose end is still to come.
#[derive(Drop)]
pub(crate) struct Batch {
    /// the line of its `begin`
    pub(crate) line: u32,
    pub(crate) edits: Edits,
}

/// What a line gives, and the batch that it leaves open.
#[derive(Drop)]
pub(crate) struct Turn {
    /// the command that ends with the line
    pub(crate) command: Option<Command>,
    /// the batch that is open after it
    pub(crate) batch: Option<Batch>,
}

/// What the line with this number gives, after an open batch or none.
pub(crate) fn read_turn(
    alloc: Global,
    paths: &mut RecentPaths,
    batch: Option<Batch>,
    number: u32,
    line: &[u8],
) -> Result<Turn, ScriptError>
    ensures { GivesAt number result (turn_of number batch line.now) }
{
    match read_numbered(alloc, paths, batch.is_some(), number, line) {
        Ok(held) => turned(alloc, batch, number, held),
        Err(error) => Err(error),
    }
}

fn turned(
    alloc: Global,
    batch: Option<Batch>,
    number: u32,
    held: Option<Held>,
) -> Result<Turn, ScriptError>
    ensures { GivesAt number result (turned number held batch) }
{
    match held {
        None => Ok(Turn {
            command: None,
            batch,
        }),
        Some(Held::Command(command)) => Ok(Turn {
            command: Some(command),
            batch,
        }),
        Some(Held::Edit(edit)) => with_edit(batch, number, edit),
        Some(Held::Begin) => Ok(Turn {
            command: None,
            batch: Some(Batch {
                line: number,
                edits: Edits::new(alloc),
            }),
        }),
        Some(Held::Commit) => Ok(ended(batch)),
    }
}

// With one edit more.
fn with_edit(batch: Option<Batch>, number: u32, edit: Edit) -> Result<Turn, ScriptError>
    ensures { GivesAt number result (with_edit edit batch) }
{
    let Some(Batch { line, mut edits }) = batch else {
        return Ok(Turn {
            command: None,
            batch: None,
        });
    };
    if edits.edits().len() == Edits::MOST {
        return Err(ScriptError::Fault(ScriptFault {
            line: number,
            kind: ScriptKind::LongBatch,
        }));
    }
    edits.push(edit)?;
    Ok(Turn {
        command: None,
        batch: Some(Batch { line, edits }),
    })
}

// The batch ends, and is one command.
fn ended(batch: Option<Batch>) -> Turn
    ensures { result ≡ ended batch }
{
    match batch {
        None => Turn {
            command: None,
            batch: None,
        },
        Some(Batch { line: _, edits }) => Turn {
            command: Some(Command::Batch { edits }),
            batch: None,
        },
    }
}

fn read_numbered(
    alloc: Global,
    paths: &mut RecentPaths,
    inside: bool,
    number: u32,
    line: &[u8],
) -> Result<Option<Held>, ScriptError>
    ensures { GivesAt number result (second_reading_of inside line.now) }
{
    match read_held(alloc, paths, inside, line) {
        Ok(held) => Ok(held),
        Err(LineError::Fault(kind)) => Err(ScriptError::Fault(ScriptFault { line: number, kind })),
        Err(LineError::NoMemory) => Err(ScriptError::NoMemory),
    }
}

//! Texts, paths, commands and replies from words.
use doc_model::{Command, Edit, Edits, NoMemory, Path, Reply, Text};
use std::alloc::{AllocFailed, Global};

/// Why a value of a test could not be made.
#[derive(Clone, Copy, Debug)]
pub(crate) enum Unmade {
    NoMemory,
    NoText,
    NoPath,
    LongBatch,
}

/// An edit of a batch, in words.
#[derive(Clone, Copy)]
pub(crate) enum Change<'a> {
    Put(&'a str, &'a str),
    Del(&'a str),
    Copy(&'a str, &'a str),
}

impl From<NoMemory> for Unmade {
    fn from(_: NoMemory) -> Unmade {
        Unmade::NoMemory
    }
}

impl<T: Drop> From<AllocFailed<T>> for Unmade {
    fn from(_: AllocFailed<T>) -> Unmade {
        Unmade::NoMemory
    }
}

fn text(alloc: Global, word: &str) -> Result<Text, Unmade> {
    Text::read(alloc, word.as_bytes())?.ok_or(Unmade::NoText)
}

fn path(alloc: Global, word: &str) -> Result<Path, Unmade> {
    Path::read(alloc, word.as_bytes())?.ok_or(Unmade::NoPath)
}

pub(crate) fn put(alloc: Global, to: &str, word: &str) -> Result<Command, Unmade> {
    Ok(Command::Put {
        path: path(alloc, to)?,
        text: text(alloc, word)?,
    })
}

fn edit(alloc: Global, change: Change<'_>) -> Result<Edit, Unmade> {
    Ok(match change {
        Change::Put(to, word) => Edit::Put {
            path: path(alloc, to)?,
            text: text(alloc, word)?,
        },
        Change::Del(at) => Edit::Del {
            path: path(alloc, at)?,
        },
        Change::Copy(at, to) => Edit::Copy {
            from: path(alloc, at)?,
            to: path(alloc, to)?,
        },
    })
}

pub(crate) fn batch(alloc: Global, changes: &[Change<'_>]) -> Result<Command, Unmade> {
    let mut edits = Edits::new(alloc);
    for change in changes {
        if edits.edits().len() == Edits::MOST {
            return Err(Unmade::LongBatch);
        }
        edits.push(edit(alloc, *change)?)?;
    }
    Ok(Command::Batch { edits })
}

pub(crate) fn get(alloc: Global, from: &str) -> Result<Command, Unmade> {
    Ok(Command::Get {
        path: path(alloc, from)?,
    })
}

pub(crate) fn val(alloc: Global, shown: u64, word: &str) -> Result<Reply, Unmade> {
    Ok(Reply::Val {
        shown,
        text: text(alloc, word)?,
    })
}

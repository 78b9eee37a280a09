//! The edits of a batch: commands on the latest version that make one new version together.
ghost use Rattle.std.specs.Prelude.{◌≡◌, ◌<◌, ◌≤◌, [], ◌∷◌, ◌++◌, IfOk, OnOk, OnErr, length};

use crate::NoMemory;
use doc_tree::{Path, Text};
use std::alloc::Global;
use std::marker::Model;

/// One edit of a batch. Its tree is that which the edit before it made.
#[derive(Debug)]
pub enum Edit {
    /// Gives the node the text.
    Put { path: Path, text: Text },
    /// Removes the node.
    Del { path: Path },
    /// Puts the tree of one path also at another.
    Copy { from: Path, to: Path },
    /// Puts the client's draft at the path.
    Publish { path: Path },
}

/// A list of at most 1,000 edits.
#[derive(Debug)]
pub struct Edits {
    edits: Vec<Edit>,
}

impl Drop for Edit {
    fn drop(self) {
        match self {
            Edit::Put {
                path: _path,
                text: _text,
            } => {}
            Edit::Del { path: _path } => {}
            Edit::Copy {
                from: _from,
                to: _to,
            } => {}
            Edit::Publish { path: _path } => {}
        }
    }
}

impl Drop for Edits {
    fn drop(self) {
        let Edits { edits: _edits } = self;
    }
}

impl Model for Edits {
    ghost use Rattle.std.specs.Prelude.{List, ◌≤◌, length};
    ghost use Rattle.doc_model.specs.declared.edits.Edit.{Edit};

    ghost Value = { List Edit };

    ghost view = { λ e. e.edits.items };

    ghost invariant = { λ e. length e.edits.items ≤ 1000 };
}

impl Edit {
    /// An equal edit.
    pub fn copy(&self) -> Result<Edit, NoMemory>
        ensures { IfOk result (λ edit. edit ≡ self.now) }
    {
        match self {
            Edit::Put { path, text } => Ok(Edit::Put {
                path: path.copy()?,
                text: text.copy()?,
            }),
            Edit::Del { path } => Ok(Edit::Del { path: path.copy()? }),
            Edit::Copy { from, to } => Ok(Edit::Copy {
                from: from.copy()?,
                to: to.copy()?,
            }),
            Edit::Publish { path } => Ok(Edit::Publish { path: path.copy()? }),
        }
    }
}

impl Edits {
    /// The longest list has this many edits.
    pub const MOST: usize = 1000;

    /// No edit yet.
    pub fn new(alloc: Global) -> Edits
        ensures { result ≡ [] }
    {
        Edits {
            edits: Vec::new(alloc),
        }
    }

    /// Adds the edit at the end.
    pub fn push(&mut self, edit: Edit) -> Result<(), NoMemory>
        requires { length self.old < 1000 }
        ensures ok { OnOk result (self.new ≡ self.old ++ edit ∷ []) }
        ensures err { OnErr result (self.new ≡ self.old) }
    {
        self.edits.push(edit)?;
        Ok(())
    }

    /// An equal list.
    pub fn copy(&self) -> Result<Edits, NoMemory>
        ensures { IfOk result (λ edits. edits ≡ self.now) }
    {
        Ok(Edits {
            edits: copies(*self.edits.allocator(), &self.edits)?,
        })
    }

    pub fn edits(&self) -> &[Edit]
        ensures edits { result.now ≡ self.now }
        ensures few { length self.now ≤ 1000 }
    {
        &self.edits
    }
}

fn copies(alloc: Global, edits: &[Edit]) -> Result<Vec<Edit>, NoMemory>
    ensures { IfOk result (λ copies. copies.items ≡ edits.now) }
{
    let mut copies = Vec::with_capacity(alloc, edits.len())?;
    for edit in edits {
        copies.push(edit.copy()?)?;
    }
    Ok(copies)
}

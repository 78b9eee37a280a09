//! What a client asks, what it is answered, and the entry of both in its log.
//!
//! `Command` derives no equality: it has a list with a model, which can derive none, and nothing
//! compares commands.
ghost use Rattle.std.specs.Prelude.{◌≡◌, IfOk};
ghost use Rattle.doc_model.specs.Answers.{is_full, is_ok};

use crate::NoMemory;
use crate::edits::Edits;
use doc_tree::{Names, Path, Text};

/// One command of a client. A store with drafts answers each by the definition `answer_at`.
#[derive(Debug)]
pub enum Command {
    /// Gives the node the text, in a new version.
    Put { path: Path, text: Text },
    /// A new version without the node.
    Del { path: Path },
    /// A new version with the tree of one path also at another.
    Copy { from: Path, to: Path },
    /// The node's text.
    Get { path: Path },
    /// The names of the node's children.
    List { path: Path },
    /// How many nodes the node's tree has.
    Size { path: Path },
    /// The node's text so many versions before the latest.
    Old { back: u32, path: Path },
    /// Gives the node of the client's draft the text.
    DraftPut { path: Path, text: Text },
    /// The text in the client's draft.
    DraftGet { path: Path },
    /// The tree at the path becomes the client's draft.
    Take { path: Path },
    /// A new version with the client's draft at the path.
    Publish { path: Path },
    /// One new version by all of these edits, or none where one of them is refused.
    Batch { edits: Edits },
}

/// The answer to a command. `shown` is the number of the version that it speaks of.
#[derive(Debug, PartialEq, Eq)]
pub enum Reply {
    Committed { shown: u64 },
    Drafted { shown: u64 },
    Val { shown: u64, text: Text },
    Names { shown: u64, names: Names },
    Count { shown: u64, count: u64 },
    Absent { shown: u64 },
    Gone { shown: u64, wanted: u64 },
    Before { shown: u64 },
    Many { shown: u64 },
    Deep { shown: u64 },
    Big { shown: u64 },
    Worn { shown: u64 },
    Full { shown: u64 },
}

/// A command with its answer. A client's commands are numbered from 1.
#[derive(Debug)]
pub struct Entry {
    pub client: u32,
    pub number: u32,
    pub command: Command,
    pub reply: Reply,
    pub place: u64,
}

// By hand, as the two below, so that a proof above takes a drop as one call and not as a case a
// variant.
impl Drop for Command {
    fn drop(self) {
        match self {
            Command::Put {
                path: _path,
                text: _text,
            } => {}
            Command::Del { path: _path } => {}
            Command::Copy {
                from: _from,
                to: _to,
            } => {}
            Command::Get { path: _path } => {}
            Command::List { path: _path } => {}
            Command::Size { path: _path } => {}
            Command::Old {
                back: _,
                path: _path,
            } => {}
            Command::DraftPut {
                path: _path,
                text: _text,
            } => {}
            Command::DraftGet { path: _path } => {}
            Command::Take { path: _path } => {}
            Command::Publish { path: _path } => {}
            Command::Batch { edits: _edits } => {}
        }
    }
}

impl Drop for Reply {
    fn drop(self) {
        match self {
            Reply::Committed { shown: _ } => {}
            Reply::Drafted { shown: _ } => {}
            Reply::Val {
                shown: _,
                text: _text,
            } => {}
            Reply::Names {
                shown: _,
                names: _names,
            } => {}
            Reply::Count { shown: _, count: _ } => {}
            Reply::Absent { shown: _ } => {}
            Reply::Gone {
                shown: _,
                wanted: _,
            } => {}
            Reply::Before { shown: _ } => {}
            Reply::Many { shown: _ } => {}
            Reply::Deep { shown: _ } => {}
            Reply::Big { shown: _ } => {}
            Reply::Worn { shown: _ } => {}
            Reply::Full { shown: _ } => {}
        }
    }
}

impl Drop for Entry {
    fn drop(self) {
        let Entry {
            client: _,
            number: _,
            command: _command,
            reply: _reply,
            place: _,
        } = self;
    }
}

impl Command {
    /// An equal command.
    pub fn copy(&self) -> Result<Command, NoMemory>
        ensures { IfOk result (λ command. command ≡ self.now) }
    {
        match self {
            Command::Put { path, text } => Ok(Command::Put {
                path: path.copy()?,
                text: text.copy()?,
            }),
            Command::Del { path } => Ok(Command::Del { path: path.copy()? }),
            Command::Copy { from, to } => Ok(Command::Copy {
                from: from.copy()?,
                to: to.copy()?,
            }),
            Command::Get { path } => Ok(Command::Get { path: path.copy()? }),
            Command::List { path } => Ok(Command::List { path: path.copy()? }),
            Command::Size { path } => Ok(Command::Size { path: path.copy()? }),
            Command::Old { back, path } => Ok(Command::Old {
                back: *back,
                path: path.copy()?,
            }),
            Command::DraftPut { path, text } => Ok(Command::DraftPut {
                path: path.copy()?,
                text: text.copy()?,
            }),
            Command::DraftGet { path } => Ok(Command::DraftGet { path: path.copy()? }),
            Command::Take { path } => Ok(Command::Take { path: path.copy()? }),
            Command::Publish { path } => Ok(Command::Publish { path: path.copy()? }),
            Command::Batch { edits } => Ok(Command::Batch {
                edits: edits.copy()?,
            }),
        }
    }
}

impl Reply {
    /// Whether the command made a version.
    pub fn is_ok(&self) -> bool
        ensures { result ≡ is_ok self.now }
    {
        matches!(self, Reply::Committed { .. })
    }

    /// Whether the heap was full.
    pub fn is_full(&self) -> bool
        ensures { result ≡ is_full self.now }
    {
        matches!(self, Reply::Full { .. })
    }

    /// An equal reply.
    pub fn copy(&self) -> Result<Reply, NoMemory>
        ensures { IfOk result (λ reply. reply ≡ self.now) }
    {
        match self {
            Reply::Committed { shown } => Ok(Reply::Committed { shown: *shown }),
            Reply::Drafted { shown } => Ok(Reply::Drafted { shown: *shown }),
            Reply::Val { shown, text } => Ok(Reply::Val {
                shown: *shown,
                text: text.copy()?,
            }),
            Reply::Names { shown, names } => Ok(Reply::Names {
                shown: *shown,
                names: names.copy()?,
            }),
            Reply::Count { shown, count } => Ok(Reply::Count {
                shown: *shown,
                count: *count,
            }),
            Reply::Absent { shown } => Ok(Reply::Absent { shown: *shown }),
            Reply::Gone { shown, wanted } => Ok(Reply::Gone {
                shown: *shown,
                wanted: *wanted,
            }),
            Reply::Before { shown } => Ok(Reply::Before { shown: *shown }),
            Reply::Many { shown } => Ok(Reply::Many { shown: *shown }),
            Reply::Deep { shown } => Ok(Reply::Deep { shown: *shown }),
            Reply::Big { shown } => Ok(Reply::Big { shown: *shown }),
            Reply::Worn { shown } => Ok(Reply::Worn { shown: *shown }),
            Reply::Full { shown } => Ok(Reply::Full { shown: *shown }),
        }
    }
}

impl Entry {
    /// An equal entry.
    pub fn copy(&self) -> Result<Entry, NoMemory>
        ensures { IfOk result (λ entry. entry ≡ self.now) }
    {
        Ok(Entry {
            client: self.client,
            number: self.number,
            command: self.command.copy()?,
            reply: self.reply.copy()?,
            place: self.place,
        })
    }
}

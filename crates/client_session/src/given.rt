//! What a turn hands on: an answer, the latest version once it is read, what was made of it, or how
//! far a batch came.

use doc_model::Reply;
use doc_tree::{EditFault, Path};
use version_rule::HeldVersion;

/// What a command is given. The reply is there twice, for the client and for its log, since once a
/// version is made nothing may fail any more.
#[derive(Debug, Drop)]
pub(crate) struct Given {
    pub(crate) reply: Reply,
    pub(crate) kept: Reply,
    pub(crate) place: u64,
}

/// A version that was the latest, and the root of its tree.
#[derive(Clone, Copy)]
pub(crate) struct Opened<At> {
    pub(crate) version: HeldVersion,
    pub(crate) root: At,
}

/// A tree that an edit made of a version's, at this node.
#[derive(Clone, Copy)]
pub(crate) struct Edited<At> {
    pub(crate) opened: Opened<At>,
    pub(crate) node: At,
}

/// Where an edit goes: its path, and that of what it copies. It looks at nothing but the children
/// of the root by the first names of these, and changes the one of its own.
#[derive(Clone, Copy)]
pub(crate) struct Along<'a> {
    pub(crate) path: &'a Path,
    pub(crate) source: Option<&'a Path>,
}

/// How a try to commit ended.
#[derive(Drop)]
pub(crate) enum Tried<At> {
    /// The command has its answer.
    Answered(Given),
    /// Another client was faster. What was made stands at this node, shared if that came so far.
    Lost(At),
}

/// How far the edits of a batch came.
#[derive(Drop)]
pub(crate) enum Worked<At> {
    /// All were made, and the last tree is at this root.
    Made(Opened<At>),
    /// One was refused.
    Refused(EditFault),
    /// Behind a collection the latest version was a newer one.
    Outrun,
    /// No room could be made for the next.
    Full,
}

/// A reply that bears no words, made twice without memory.
macro_rules! brief {
    ($reply:expr, $place:expr) => {
        Given {
            reply: $reply,
            kept: $reply,
            place: $place,
        }
    };
}

pub(crate) use brief;

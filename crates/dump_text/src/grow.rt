//! A tree that grows by one node after another.
ghost use Rattle.doc_tree.specs.Lawful.{IsLawful};
ghost use Rattle.doc_tree.specs.Tree.{no_kids};
ghost use Rattle.std.specs.Prelude.{IfOk, length, ◌≡◌};
ghost use Rattle.std.specs.Result.{ForOk};
ghost use Rattle.dump_text.specs.Answers.{Grows, IsGrown, Turns, refused};
ghost use Rattle.dump_text.specs.Contents.{placed, turn_of};
ghost use Rattle.dump_text.specs.Line.{line_of};
ghost use Rattle.dump_text.specs.Listing.{listed};

use crate::fault::{LineError, LoadKind};
use crate::line::{Held, read_line};
use crate::order::is_next;
use doc_tree::{EditFault, Name, NoMemory, Path, Text, Tree};
use std::alloc::Global;

/// A dump has at most this many nodes.
pub const MOST_NODES: u64 = 10_000;

/// What a line gives: a node more, or the end.
#[derive(Drop)]
pub(crate) enum Turn {
    End,
    /// the tree with a node at this path
    Grown { path: Path, tree: Tree },
}

/// What the next line gives after the lines of this tree, the last of which is at this path.
pub(crate) fn read_turn(
    alloc: Global,
    tree: &Tree,
    last: &[Name],
    line: &[u8],
    has_feed: bool,
) -> Result<Turn, LineError>
    requires { IsGrown last.now tree.now }
    ensures { Turns result (turn_of (listed tree.now) (line_of (length (listed tree.now)) has_feed line.now)) }
{
    match read_line(alloc, line, has_feed, tree.count()) {
        Ok(Held::End) => Ok(Turn::End),
        Ok(Held::Node { path, text }) => match with_node(alloc, tree, last, &path, &text) {
            Ok(tree) => Ok(Turn::Grown { path, tree }),
            Err(error) => Err(error),
        },
        Err(error) => Err(error),
    }
}

fn with_node(
    alloc: Global,
    tree: &Tree,
    last: &[Name],
    path: &Path,
    text: &Text,
) -> Result<Tree, LineError>
    requires { IsGrown last.now tree.now }
    ensures { Grows path.now result (placed (listed tree.now) (record { path = path.now; text = text.now })) }
{
    if !is_next(last, path.names()) {
        return Err(LineError::Kind(LoadKind::NoOrder));
    }
    let grown = match tree.set_text(alloc, path, text) {
        Ok(grown) => grown,
        Err(refusal) => return Err(refused(refusal)),
    };
    if tree.count() >= MOST_NODES {
        return Err(LineError::Kind(LoadKind::Big));
    }
    Ok(grown)
}

// A node in its order is refused for its parent alone.
fn refused(refusal: EditFault) -> LineError
    ensures { result ≡ refused refusal }
{
    match refusal {
        EditFault::NoMemory => LineError::NoMemory,
        EditFault::Absent | EditFault::Many | EditFault::Deep | EditFault::Big => {
            LineError::Kind(LoadKind::Many)
        }
    }
}

/// The tree of one node.
pub(crate) fn lone_node(alloc: Global, text: &Text) -> Result<Tree, NoMemory>
    ensures tree { IfOk result (λ tree. tree ≡ record { text = text.now; kids = no_kids }) }
    ensures lawful { ForOk result IsLawful }
{
    // A tree's root has no path, so this is the child of another.
    let Some(path) = Path::read(alloc, b"r")? else {
        return Tree::empty(alloc);
    };
    let above = match Tree::empty(alloc)?.set_text(alloc, &path, text) {
        Ok(above) => above,
        // no limit is near
        Err(_) => return Err(NoMemory),
    };
    match above.node(&path) {
        Some(tree) => tree.copy(),
        None => Tree::empty(alloc),
    }
}

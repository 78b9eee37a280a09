//! A whole dump.
ghost use Rattle.doc_tree.specs.Lawful.{IsLawful};
ghost use Rattle.doc_tree.specs.Tree.{DocTree, count};
ghost use Rattle.line_texts.specs.Lines.{is_end, lines_left, lines_of};
ghost use Rattle.std.specs.Prelude.{IfOk, [], ℕ, ◌≡◌, ◌≤◌};
ghost use Rattle.std.specs.Result.{ForOk};
ghost use Rattle.dump_text.specs.Answers.{IsGrown, IsLoaded, Lists, Reads, error_in};
ghost use Rattle.dump_text.specs.Answers.{names_in};
ghost use Rattle.dump_text.specs.Contents.{contents_of, ended, nodes_from, nodes_of};
ghost use Rattle.dump_text.specs.Laws.{IsDump};
ghost use Rattle.dump_text.specs.Listing.{listed};
ghost use Rattle.dump_text.specs.declared.fault.LoadError.TheVariants as load;

use crate::fault::{LineError, LoadError, LoadFault, LoadKind};
use crate::grow::{MOST_NODES, Turn, lone_node, read_turn};
use crate::line::{read_head, read_root};
use doc_tree::{Name, Path, Tree};
use line_texts::{cut_line, is_end};
use std::alloc::Global;

/// A version and its tree.
#[derive(Drop)]
pub struct Loaded {
    pub version: u64,
    pub tree: Tree,
}

/// The version and the tree of which the bytes are the dump, or the first line by which they are
/// none.
pub fn load(alloc: Global, bytes: &[u8]) -> Result<Loaded, LoadError>
    ensures dump { IfOk result (λ loaded. IsDump bytes.now loaded.version loaded.tree) }
    ensures dumps { (v : ℕ) (t : DocTree) → IsDump bytes.now v t → IsLoaded result v t }
    ensures contents { Reads result (contents_of bytes.now) }
{
    read_dump(alloc, bytes)
}

fn read_dump(alloc: Global, bytes: &[u8]) -> Result<Loaded, LoadError>
    ensures contents { Reads result (contents_of bytes.now) }
    ensures lawful { IfOk result (λ loaded. IsLawful loaded.tree) }
{
    let (head, more) = cut_line(bytes);
    let Some(rest) = more else {
        return Err(fault_at(1, LoadKind::NoHead));
    };
    let Some(version) = read_head(head) else {
        return Err(fault_at(1, LoadKind::NoHead));
    };
    match read_tree(alloc, rest) {
        Ok(tree) => Ok(Loaded { version, tree }),
        Err(error) => Err(error),
    }
}

fn fault_at(line: u32, kind: LoadKind) -> LoadError
    ensures { result ≡ load.Fault (record { line = line; kind = kind }) }
{
    LoadError::Fault(LoadFault { line, kind })
}

fn error_at(line: u32, error: LineError) -> LoadError
    ensures { result ≡ error_in line error }
{
    match error {
        LineError::Kind(kind) => fault_at(line, kind),
        LineError::NoMemory => LoadError::NoMemory,
    }
}

// The tree of the lines after the head.
fn read_tree(alloc: Global, bytes: &[u8]) -> Result<Tree, LoadError>
    ensures nodes { Lists result (nodes_of (lines_of bytes.now)) }
    ensures lawful { ForOk result IsLawful }
{
    let (line, rest) = cut_line(bytes);
    let text = match read_root(alloc, line, rest.is_some()) {
        Ok(text) => text,
        Err(error) => return Err(error_at(2, error)),
    };
    read_below(alloc, lone_node(alloc, &text)?, rest)
}

// The tree with the nodes of the lines after the root's.
fn read_below(alloc: Global, root: Tree, bytes: Option<&[u8]>) -> Result<Tree, LoadError>
    requires { IsGrown [] root }
    ensures nodes { Lists result (nodes_from (listed root) (lines_left bytes.entry)) }
    ensures lawful { ForOk result IsLawful }
{
    let mut tree = root;
    let mut last = None;
    let mut rest = bytes;
    while let Some(left) = rest {
        let (line, more) = cut_line(left);
        match read_turn(alloc, &tree, names_of(&last), line, more.is_some()) {
            Ok(Turn::End) => return ended(tree, more),
            Ok(Turn::Grown { path, tree: grown }) => {
                tree = grown;
                last = Some(path);
                rest = more;
            }
            Err(error) => return Err(error_at(tree.count() as u32 + 2, error)),
        }
    }
    Err(fault_at(tree.count() as u32 + 2, LoadKind::BadEnd))
}

// The names on the way to the last node, none where that is the root.
fn names_of(last: &Option<Path>) -> &[Name]
    ensures { result.now ≡ names_in last.now }
{
    match last {
        Some(path) => path.names(),
        None => &[],
    }
}

// The tree, if no byte follows the end.
fn ended(tree: Tree, rest: Option<&[u8]>) -> Result<Tree, LoadError>
    requires lawful { IsLawful tree }
    requires few { count tree ≤ MOST_NODES }
    ensures nodes { Lists result (ended (listed tree) (lines_left rest.entry)) }
    ensures lawful { ForOk result IsLawful }
{
    if is_end(rest) {
        Ok(tree)
    } else {
        Err(fault_at(tree.count() as u32 + 3, LoadKind::BadEnd))
    }
}

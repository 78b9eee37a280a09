//! The calls of client_trees as the tests make them: on the tree of one root, where there is room.
ghost use Rattle.std.specs.Prelude.{◌≡◌, ◌+◌, ◌≤◌, OnOk, length, true};
ghost use Rattle.std.specs.Option.{ForSome};
ghost use Rattle.client_trees.specs.declared.at.NodeAt.TheVariants as at;
ghost use Rattle.client_tests.specs.Works.{Works};
ghost use Rattle.client_trees.specs.Nodes.{IsTreeAt};

use crate::heaps::CELLS;
use client_trees::{
    NodeAt, attach, child, count, delete, empty_node, height, names, set_text, text_of,
};
use doc_tree::{EditFault, Name, Names, NoMemory, Path, Text};
use free_cells::{FreeQueue, Hints};
use heap_rule::NoRule;
use minor_heap::{MinorHeap, MinorRef};
use mutator_seat::{HeapFull, Mutator};
use promotion::Promoter;
use std::alloc::Global;
use std::sync::Wait;

fn path(alloc: Global, names: &str) -> Result<Path, EditFault> {
    Path::read(alloc, names.as_bytes())?.ok_or(EditFault::Absent)
}

fn text(alloc: Global, letters: &str) -> Result<Text, EditFault> {
    Text::read(alloc, letters.as_bytes())?.ok_or(EditFault::Absent)
}

/// Whether there is room for an edit.
fn has_room(m: &Mutator<'_, NoRule>, minor: &MinorHeap) -> bool
    ensures places { result ≡ true
        → length m.now.seat.me.own.held + 8192 ≤ m.now.seat.me.room }
    ensures spare { result ≡ true → length minor.now.records + 2285 ≤ minor.now.room }
{
    m.room() >= 8192 && minor.spare() >= 2285
}

/// The empty tree.
#[tactic(auto, using(crate::proofs::Working::working))]
pub(crate) fn begin_tree(m: &mut Mutator<'_, NoRule>, minor: &mut MinorHeap) -> NodeAt
    requires inside { m.old.seat.me.presence.inside ≡ true }
    requires spare { length minor.old.records + 2285 ≤ minor.old.room }
    ensures works { Works m.new minor.new result }
{
    let root = empty_node(m, minor);
    root
}

#[tactic(auto, using(crate::proofs::Working::working))]
pub(crate) fn put(
    alloc: Global,
    m: &mut Mutator<'_, NoRule>,
    minor: &mut MinorHeap,
    root: &mut NodeAt,
    at: &str,
    letters: &str,
) -> Result<(), EditFault>
    requires works { Works m.old minor.old root.old }
    ensures works { Works m.new minor.new root.new }
{
    let path = path(alloc, at)?;
    let text = text(alloc, letters)?;
    if !has_room(m, minor) {
        return Err(EditFault::NoMemory);
    }
    *root = set_text(m, minor, *root, &path, &text)?;
    Ok(())
}

#[tactic(auto, using(crate::proofs::Working::working))]
pub(crate) fn remove(
    alloc: Global,
    m: &mut Mutator<'_, NoRule>,
    minor: &mut MinorHeap,
    root: &mut NodeAt,
    at: &str,
) -> Result<(), EditFault>
    requires works { Works m.old minor.old root.old }
    ensures works { Works m.new minor.new root.new }
{
    let path = path(alloc, at)?;
    if !has_room(m, minor) {
        return Err(EditFault::NoMemory);
    }
    *root = delete(m, minor, *root, &path)?;
    Ok(())
}

/// Puts what stands at one path at another path, too.
#[tactic(auto, using(crate::proofs::Working::working))]
pub(crate) fn copy(
    alloc: Global,
    m: &mut Mutator<'_, NoRule>,
    minor: &mut MinorHeap,
    root: &mut NodeAt,
    from: &str,
    to: &str,
) -> Result<(), EditFault>
    requires works { Works m.old minor.old root.old }
    ensures works { Works m.new minor.new root.new }
{
    let from = path(alloc, from)?;
    let to = path(alloc, to)?;
    let Some(sub) = node_at(m, minor, *root, *root, from.names()) else {
        return Err(EditFault::Absent);
    };
    if !has_room(m, minor) {
        return Err(EditFault::NoMemory);
    }
    *root = attach(m, minor, *root, &to, sub)?;
    Ok(())
}

/// The node at the end of a path down from a node, if there is one.
#[tactic(auto, using(crate::proofs::Working::working))]
fn node_at(
    m: &mut Mutator<'_, NoRule>,
    minor: &mut MinorHeap,
    root: NodeAt,
    at: NodeAt,
    names: &[Name],
) -> Option<NodeAt>
    requires works { Works m.old minor.old root }
    requires at { IsTreeAt m.old minor.old at }
    ensures works { Works m.new minor.new root }
    ensures at { ForSome result (IsTreeAt m.new minor.new) }
{
    let [name, rest @ ..] = names else {
        return Some(at);
    };
    if !has_room(m, minor) {
        return None;
    }
    let below = child(m, minor, at, name)?;
    node_at(m, minor, root, below, rest)
}

/// How many nodes and levels the tree has.
#[tactic(auto, using(crate::proofs::Working::working))]
pub(crate) fn sizes(m: &mut Mutator<'_, NoRule>, minor: &mut MinorHeap, root: NodeAt) -> (u64, u32)
    requires works { Works m.old minor.old root }
    ensures works { Works m.new minor.new root }
{
    if !has_room(m, minor) {
        return (0, 0);
    }
    let nodes = count(m, minor, root);
    (nodes, height(m, minor, root))
}

/// The text at a path.
#[tactic(auto, using(crate::proofs::Working::working))]
pub(crate) fn text_at(
    alloc: Global,
    m: &mut Mutator<'_, NoRule>,
    minor: &mut MinorHeap,
    root: NodeAt,
    at: &str,
) -> Result<Text, EditFault>
    requires works { Works m.old minor.old root }
    ensures works { Works m.new minor.new root }
{
    let path = path(alloc, at)?;
    let Some(node) = node_at(m, minor, root, root, path.names()) else {
        return Err(EditFault::Absent);
    };
    if !has_room(m, minor) {
        return Err(EditFault::NoMemory);
    }
    Ok(text_of(alloc, m, minor, node)?)
}

/// The names below a path.
#[tactic(auto, using(crate::proofs::Working::working))]
pub(crate) fn names_at(
    alloc: Global,
    m: &mut Mutator<'_, NoRule>,
    minor: &mut MinorHeap,
    root: NodeAt,
    at: &str,
) -> Result<Names, EditFault>
    requires works { Works m.old minor.old root }
    ensures works { Works m.new minor.new root }
{
    let path = path(alloc, at)?;
    let Some(node) = node_at(m, minor, root, root, path.names()) else {
        return Err(EditFault::Absent);
    };
    if !has_room(m, minor) {
        return Err(EditFault::NoMemory);
    }
    Ok(names(alloc, m, minor, node)?)
}

/// Copies a private node into the shared heap, and drops all private records. The copy is held
/// after the anchor, and nothing else is.
fn collect_private<R: Wait>(
    rt: &R,
    hints: &mut Hints<'_>,
    promoter: &mut Promoter,
    m: &mut Mutator<'_, NoRule>,
    minor: &mut MinorHeap,
    r: MinorRef,
) -> Result<(), HeapFull>
    requires works { Works m.old minor.old (at.Minor r) }
    requires fits { length minor.old.records ≤ promoter.old }
    requires room { length m.old.seat.me.own.held + length minor.old.records + 1
        ≤ m.old.seat.me.room }
    ensures works { OnOk result (Works m.new minor.new (at.Shared 1)) }
{
    // As many places are known as are held.
    let _held = m.held_len();
    promoter.collect(rt, hints, m, minor, &[r], 1)?;
    Ok(())
}

/// Does so, where there is room and memory.
fn share_private<R: Wait>(
    alloc: Global,
    rt: &R,
    m: &mut Mutator<'_, NoRule>,
    minor: &mut MinorHeap,
    r: MinorRef,
) -> Result<(), EditFault>
    requires works { Works m.old minor.old (at.Minor r) }
    ensures works { OnOk result (Works m.new minor.new (at.Shared 1)) }
{
    if m.room() <= minor.len() as usize {
        return Err(EditFault::NoMemory);
    }
    let (queue, pass) = FreeQueue::open(alloc, rt, CELLS, 1)?;
    let mut promoter = Promoter::with_room(alloc, minor.len())?;
    let mut hints = queue.hints(pass);
    match collect_private(rt, &mut hints, &mut promoter, m, minor, r) {
        Ok(()) => Ok(()),
        Err(_) => Err(EditFault::NoMemory),
    }
}

/// Copies the tree into the shared heap, if it is private and there is memory.
pub(crate) fn share<R: Wait>(
    alloc: Global,
    rt: &R,
    m: &mut Mutator<'_, NoRule>,
    minor: &mut MinorHeap,
    root: &mut NodeAt,
) -> Result<(), EditFault>
    requires works { Works m.old minor.old root.old }
    ensures works { OnOk result (Works m.new minor.new root.new) }
{
    match *root {
        NodeAt::Minor(r) => {
            share_private(alloc, rt, m, minor, r)?;
            *root = NodeAt::Shared(1);
            Ok(())
        }
        NodeAt::Shared(_) => Ok(()),
    }
}

//! How many nodes and levels a node has of which one child comes, goes or is changed.
//!
//! The sizes of the node as it was, of the child that goes and of the one that comes tell them. The
//! other children are asked for their levels only where a lower child comes in place of one that
//! was as high as any, or none does, and only until one is found that is as high.
ghost use Rattle.std.specs.Prelude.{◌≡◌, ◌+◌, ◌*◌, ◌≤◌, ◌<◌, ◌^◌};
ghost use Rattle.std.specs.Option.{ForSome, option_map};
ghost use Rattle.cell_words.specs.Term.{part, IsFive};
ghost use Rattle.doc_tree.specs.Tree.{count, height, height_below, kid_count, nodes_below};
ghost use Rattle.doc_records.specs.Pool.{Later, Stands, part_term};
ghost use Rattle.doc_records.specs.Trees.{AreEntries, IsNodeAt, tree_of};
ghost use Rattle.doc_edits.specs.Sizes.{Changes, IsChange, levels_in};
ghost use Rattle.doc_tree.specs.Tree.{nodes_in};
ghost use Rattle.doc_edits.specs.Tops.{IsRowAt, IsTop, row_of, tree_under};

use crate::bounds::LEVELS_PLACES;
use doc_records::{
    ENTRY_LEFT, ENTRY_RIGHT, NODE_COUNT, NODE_HEIGHT, Part, RecordPool, entry_child, read_number,
    read_part,
};

#[derive(Clone, Copy)]
pub(crate) struct Sizes {
    pub(crate) nodes: u64,
    pub(crate) levels: u64,
}

/// The sizes of a node as it was, and what a child that goes and one that comes add to them.
#[derive(Clone, Copy)]
pub(crate) struct Change {
    pub(crate) old: Sizes,
    pub(crate) gone: Sizes,
    pub(crate) come: Sizes,
}

// The nodes of a tree, and its levels.
#[tactic(auto, using(crate::proofs::Sized::child_fields))]
#[inline(always)]
fn node_sizes<R: RecordPool>(records: &mut R, at: R::At) -> Sizes
    requires node { IsNodeAt (R.shown records.old) at }
    requires places { (R.shown records.old).held + 1 ≤ (R.shown records.old).room }
    ensures nodes { result.nodes ≡ count (tree_of ((R.shown records.old).term at)) }
    ensures levels { result.levels ≡ height (tree_of ((R.shown records.old).term at)) }
    ensures low { result.levels < 2 ^ 62 }
    ensures later { Later (R.shown records.old) (R.shown records.new) }
    ensures held { (R.shown records.new).held ≡ (R.shown records.old).held }
    ensures records { (R.shown records.new).records ≡ (R.shown records.old).records }
{
    let nodes = read_number(records, at, NODE_COUNT);
    let levels = read_number(records, at, NODE_HEIGHT);
    Sizes { nodes, levels }
}

// The sizes of a node, or of none.
fn top_sizes<R: RecordPool>(records: &mut R, at: Option<R::At>) -> Sizes
    requires top { IsTop (R.shown records.old) at }
    requires places { (R.shown records.old).held + 1 ≤ (R.shown records.old).room }
    ensures nodes { result.nodes ≡ count (tree_under (R.shown records.old) at) }
    ensures levels { result.levels ≡ height (tree_under (R.shown records.old) at) }
    ensures later { Later (R.shown records.old) (R.shown records.new) }
    ensures held { (R.shown records.new).held ≡ (R.shown records.old).held }
    ensures records { (R.shown records.new).records ≡ (R.shown records.old).records }
{
    match at {
        Some(node) => node_sizes(records, node),
        None => Sizes {
            nodes: 1,
            levels: 0,
        },
    }
}

// What a child adds to the sizes of a node.
fn child_sizes<R: RecordPool>(records: &mut R, child: Option<R::At>) -> Sizes
    requires child { ForSome child (IsNodeAt (R.shown records.old)) }
    requires places { (R.shown records.old).held + 1 ≤ (R.shown records.old).room }
    ensures nodes { result.nodes
        ≡ nodes_in (option_map (λ a. tree_of ((R.shown records.old).term a)) child) }
    ensures levels { result.levels
        ≡ levels_in (option_map (λ a. tree_of ((R.shown records.old).term a)) child) }
    ensures later { Later (R.shown records.old) (R.shown records.new) }
    ensures held { (R.shown records.new).held ≡ (R.shown records.old).held }
    ensures records { (R.shown records.new).records ≡ (R.shown records.old).records }
{
    match child {
        Some(node) => {
            let own = node_sizes(records, node);
            Sizes {
                nodes: own.nodes,
                levels: own.levels + 1,
            }
        }
        None => Sizes {
            nodes: 0,
            levels: 0,
        },
    }
}

/// The sizes of a node, and of a child that goes and one that comes.
#[inline(always)]
pub(crate) fn change_of<R: RecordPool>(
    records: &mut R,
    at: Option<R::At>,
    gone: Option<R::At>,
    come: Option<R::At>,
) -> Change
    requires top { IsTop (R.shown records.old) at }
    requires gone { ForSome gone (IsNodeAt (R.shown records.old)) }
    requires come { ForSome come (IsNodeAt (R.shown records.old)) }
    requires places { (R.shown records.old).held + 1 ≤ (R.shown records.old).room }
    ensures change { IsChange result (tree_under (R.shown records.old) at)
        (option_map (λ a. tree_of ((R.shown records.old).term a)) gone)
        (option_map (λ a. tree_of ((R.shown records.old).term a)) come) }
    ensures later { Later (R.shown records.old) (R.shown records.new) }
    ensures held { (R.shown records.new).held ≡ (R.shown records.old).held }
    ensures records { (R.shown records.new).records ≡ (R.shown records.old).records }
{
    let old = top_sizes(records, at);
    let gone = child_sizes(records, gone);
    let come = child_sizes(records, come);
    Change { old, gone, come }
}

// The levels that an entry's child makes.
fn entry_levels<R: RecordPool>(records: &mut R, at: R::At) -> u64
    requires stands { (R.shown records.old).stands (R.shown records.old).held at }
    requires five { IsFive ((R.shown records.old).term at) }
    requires entry { AreEntries ((R.shown records.old).term at) }
    requires places { (R.shown records.old).held + 2 ≤ (R.shown records.old).room }
    ensures levels { result ≡ height (tree_of (part 1 ((R.shown records.old).term at))) + 1 }
    ensures later { Later (R.shown records.old) (R.shown records.new) }
    ensures held { (R.shown records.new).held ≤ (R.shown records.old).held + 1 }
    ensures records { (R.shown records.new).records ≡ (R.shown records.old).records }
{
    let child = entry_child(records, at);
    node_sizes(records, child).levels + 1
}

// The levels of all children, none of which makes more than so many. Each entry takes three places.
#[tactic(auto, using(crate::proofs::Sized::sized))]
fn levels_under<R: RecordPool>(records: &mut R, top: Part<R::At>, most: u64) -> u64
    requires stands { Stands (R.shown records.old) top }
    requires entries { AreEntries (part_term (R.shown records.old).term top) }
    requires most { height_below (row_of (R.shown records.old) top) ≤ most }
    requires places { (R.shown records.old).held + 3 * kid_count (row_of (R.shown records.old) top)
        + 1 ≤ (R.shown records.old).room }
    ensures levels { result ≡ height_below (row_of (R.shown records.old) top) }
    ensures later { Later (R.shown records.old) (R.shown records.new) }
    ensures held { (R.shown records.new).held ≤ (R.shown records.old).held
        + 3 * kid_count (row_of (R.shown records.old) top) }
    ensures records { (R.shown records.new).records ≡ (R.shown records.old).records }
{
    let Part::Record(at) = top else {
        return 0;
    };
    let own = entry_levels(records, at);
    if own >= most {
        return own;
    }
    let left = read_part(records, at, ENTRY_LEFT);
    let before = levels_under(records, left, most);
    if before >= most {
        return before;
    }
    let right = read_part(records, at, ENTRY_RIGHT);
    let after = levels_under(records, right, most);
    own.max(before).max(after)
}

// The levels of all children. The places that were taken on the way are given back.
#[tactic(auto, using(doc_records::proofs::Spellings::kept_back))]
fn levels_of<R: RecordPool>(records: &mut R, top: Part<R::At>, most: u64) -> u64
    requires row { IsRowAt (R.shown records.old) top }
    requires most { height_below (row_of (R.shown records.old) top) ≤ most }
    requires places { (R.shown records.old).held + LEVELS_PLACES ≤ (R.shown records.old).room }
    ensures levels { result ≡ height_below (row_of (R.shown records.old) top) }
    ensures later { Later (R.shown records.old) (R.shown records.new) }
    ensures held { (R.shown records.new).held ≡ (R.shown records.old).held }
    ensures records { (R.shown records.new).records ≡ (R.shown records.old).records }
{
    let held = records.held();
    let levels = levels_under(records, top, most);
    records.cut(held);
    levels
}

/// The sizes of a node with the changed children.
#[inline(always)]
pub(crate) fn sizes_after<R: RecordPool>(records: &mut R, change: Change, top: Part<R::At>) -> Sizes
    requires row { IsRowAt (R.shown records.old) top }
    requires change { Changes change (row_of (R.shown records.old) top) }
    requires places { (R.shown records.old).held + LEVELS_PLACES ≤ (R.shown records.old).room }
    ensures nodes { result.nodes ≡ nodes_below (row_of (R.shown records.old) top) + 1 }
    ensures levels { result.levels ≡ height_below (row_of (R.shown records.old) top) }
    ensures later { Later (R.shown records.old) (R.shown records.new) }
    ensures held { (R.shown records.new).held ≡ (R.shown records.old).held }
    ensures records { (R.shown records.new).records ≡ (R.shown records.old).records }
{
    let Change { old, gone, come } = change;
    let nodes = old.nodes + come.nodes - gone.nodes;
    let levels = if come.levels >= old.levels {
        come.levels
    } else if gone.levels < old.levels {
        old.levels
    } else {
        levels_of(records, top, old.levels)
    };
    Sizes { nodes, levels }
}

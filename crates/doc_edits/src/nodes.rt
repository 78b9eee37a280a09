//! Nodes that an edit makes of others, and of none, which is as a node of the empty tree.
ghost use Rattle.std.specs.Prelude.{◌≡◌, ◌+◌, ◌/◌, ◌≤◌, ◌<◌, ◌^◌, None, Some, length};
ghost use Rattle.std.specs.Option.{ForSome, option_map};
ghost use Rattle.doc_tree.specs.Edits.{with_child, with_text, without_child};
ghost use Rattle.doc_tree.specs.Tree.{child as child_of_name, count, height, kid_count};
ghost use Rattle.doc_tree.specs.Tree.{height_below, nodes_below};
ghost use Rattle.doc_records.specs.Pool.{Later, Stands, part_term};
ghost use Rattle.doc_records.specs.Texts.{IsText, text_of};
ghost use Rattle.doc_records.specs.Trees.{IsNodeAt, tree_of};
ghost use Rattle.doc_edits.specs.Sizes.{Changes};
ghost use Rattle.doc_edits.specs.Tops.{IsRowAt, IsTop, IsTreeAt, row_of, tree_under};

use crate::bounds::{LEVEL_RECORDS, LEVELS_PLACES, MAKING_PLACES, NODE_PLACES, WITHOUT_RECORDS};
use crate::rows::{with_entry, without_entry};
use crate::sizes::{Change, change_of, sizes_after};
use doc_records::{NODE_ENTRIES, NODE_TEXT, Part, RecordPool, make_text, read_part, with_text};
use doc_tree::{Name, Text, Tree};

// What a node is made of.
#[derive(Clone, Copy)]
pub(crate) struct Opened<At> {
    pub(crate) text: Part<At>,
    pub(crate) entries: Part<At>,
}

/// The text and the children of a node, or of none.
#[tactic(auto, using(crate::proofs::Makings::opened))]
#[inline(always)]
pub(crate) fn open<R: RecordPool>(records: &mut R, at: Option<R::At>) -> Opened<R::At>
    requires top { IsTop (R.shown records.old) at }
    requires places { (R.shown records.old).held + 2 ≤ (R.shown records.old).room }
    ensures written { Stands (R.shown records.new) result.text }
    ensures is_text { IsText (part_term (R.shown records.new).term result.text) }
    ensures text { text_of (part_term (R.shown records.new).term result.text)
        ≡ (tree_under (R.shown records.old) at).text }
    ensures row { IsRowAt (R.shown records.new) result.entries }
    ensures kids { row_of (R.shown records.new) result.entries
        ≡ (tree_under (R.shown records.old) at).kids }
    ensures later { Later (R.shown records.old) (R.shown records.new) }
    ensures held { (R.shown records.new).held ≤ (R.shown records.old).held + 2 }
    ensures records { (R.shown records.new).records ≡ (R.shown records.old).records }
{
    match at {
        Some(node) => {
            let text = read_part(records, node, NODE_TEXT);
            let entries = read_part(records, node, NODE_ENTRIES);
            Opened { text, entries }
        }
        None => Opened {
            text: Part::Null,
            entries: Part::Null,
        },
    }
}

// A node of a text that is written and of these children, by what changed with them.
#[tactic(auto, using(crate::proofs::Makings::made))]
#[inline(always)]
fn make_node<R: RecordPool>(
    records: &mut R,
    text: Part<R::At>,
    entries: Part<R::At>,
    change: Change,
) -> R::At
    requires written { Stands (R.shown records.old) text }
    requires is_text { IsText (part_term (R.shown records.old).term text) }
    requires row { IsRowAt (R.shown records.old) entries }
    requires change { Changes change (row_of (R.shown records.old) entries) }
    requires low { height_below (row_of (R.shown records.old) entries) < 2 ^ 61 }
    requires places { (R.shown records.old).held + LEVELS_PLACES ≤ (R.shown records.old).room }
    requires records { 1 ≤ (R.shown records.old).records }
    ensures node { IsNodeAt (R.shown records.new) result }
    ensures tree { tree_of ((R.shown records.new).term result)
        ≡ record {
          text = text_of (part_term (R.shown records.old).term text);
          kids = row_of (R.shown records.old) entries;
        } }
    ensures later { Later (R.shown records.old) (R.shown records.new) }
    ensures held { (R.shown records.new).held ≡ (R.shown records.old).held }
    ensures records { (R.shown records.old).records ≡ (R.shown records.new).records + 1 }
{
    let sizes = sizes_after(records, change, entries);
    let count = Part::Num(sizes.nodes);
    let height = Part::Num(sizes.levels);
    records.make(text, entries, count, height, Part::Null)
}

/// A node with this one as its child of that name, in place of one that was there.
#[tactic(auto, using(crate::proofs::Makings::with_low))]
pub(crate) fn with_child<R: RecordPool>(
    records: &mut R,
    at: Option<R::At>,
    name: &Name,
    was: Option<R::At>,
    child: R::At,
) -> R::At
    requires top { IsTop (R.shown records.old) at }
    requires was { ForSome was (IsNodeAt (R.shown records.old)) }
    requires there { option_map (λ a. tree_of ((R.shown records.old).term a)) was
        ≡ child_of_name name.now (tree_under (R.shown records.old) at).kids }
    requires child { IsNodeAt (R.shown records.old) child }
    requires few { count (tree_of ((R.shown records.old).term child)) ≤ 10_000_000_000 }
    requires low { height (tree_of ((R.shown records.old).term child)) ≤ 100 }
    requires room { child_of_name name.now (tree_under (R.shown records.old) at).kids ≡ None
        → kid_count (tree_under (R.shown records.old) at).kids < Tree.MOST_CHILDREN }
    requires places { (R.shown records.old).held + MAKING_PLACES ≤ (R.shown records.old).room }
    requires records { LEVEL_RECORDS ≤ (R.shown records.old).records }
    ensures node { IsNodeAt (R.shown records.new) result }
    ensures tree { tree_of ((R.shown records.new).term result) ≡ with_child name.now
        (tree_of ((R.shown records.old).term child)) (tree_under (R.shown records.old) at) }
    ensures later { Later (R.shown records.old) (R.shown records.new) }
    ensures held { (R.shown records.new).held ≤ (R.shown records.old).held + NODE_PLACES }
    ensures records { (R.shown records.old).records
        ≤ (R.shown records.new).records + LEVEL_RECORDS }
{
    let change = change_of(records, at, was, Some(child));
    let node = open(records, at);
    let entries = with_entry(records, node.entries, name, child);
    make_node(records, node.text, entries, change)
}

/// A node without its child of that name.
#[tactic(auto, using(doc_tree::proofs::Sizes::delete_lower))]
pub(crate) fn without_child<R: RecordPool>(
    records: &mut R,
    at: R::At,
    name: &Name,
    was: R::At,
) -> R::At
    requires node { IsTreeAt (R.shown records.old) at }
    requires was { IsNodeAt (R.shown records.old) was }
    requires there { Some (tree_of ((R.shown records.old).term was))
        ≡ child_of_name name.now (tree_of ((R.shown records.old).term at)).kids }
    requires places { (R.shown records.old).held + MAKING_PLACES ≤ (R.shown records.old).room }
    requires records { WITHOUT_RECORDS ≤ (R.shown records.old).records }
    ensures node { IsNodeAt (R.shown records.new) result }
    ensures tree { tree_of ((R.shown records.new).term result) ≡ without_child name.now
        (tree_of ((R.shown records.old).term at)) }
    ensures later { Later (R.shown records.old) (R.shown records.new) }
    ensures held { (R.shown records.new).held ≤ (R.shown records.old).held + NODE_PLACES }
    ensures records { (R.shown records.old).records
        ≤ (R.shown records.new).records + WITHOUT_RECORDS }
{
    let change = change_of(records, Some(at), Some(was), None);
    let node = open(records, Some(at));
    let entries = without_entry(records, node.entries, name);
    make_node(records, node.text, entries, change)
}

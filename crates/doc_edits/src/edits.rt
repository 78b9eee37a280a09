//! The edits: down the path, and back up with a copy of each node on it.
//!
//! An edit makes nothing on its way down, and for a missing child it makes no node: there it goes
//! on in none, which is as a node of the empty tree.
ghost use Rattle.std.specs.Prelude.{◌≡◌, ◌+◌, ◌*◌, ◌≤◌, ◌<◌, ◌↔◌, None, OnErr, IsTrue, length};
ghost use Rattle.std.specs.Option.{option_map};
ghost use Rattle.std.specs.Result.{ForOk};
ghost use Rattle.doc_tree.specs.Edits.{answered, attach, edit_along, edited, set_text, start};
ghost use Rattle.doc_tree.specs.Edits.{with_text, within_limits};
ghost use Rattle.doc_tree.specs.Tree.{child as child_of_name, kid_count};
ghost use Rattle.doc_records.specs.Pool.{Later};
ghost use Rattle.doc_records.specs.Trees.{IsNodeAt, IsTreeNode, tree_of};
ghost use Rattle.doc_edits.specs.Ends.{StandsAtEnd, made_at};
ghost use Rattle.doc_edits.specs.Tops.{IsTop, IsTreeAt, IsWithin, tree_under};

use crate::bounds::{
    BEGIN_PLACES, EDIT_PLACES, EDIT_RECORDS, END_PLACES, FEW_NODES, LEVEL_PLACES, LEVEL_RECORDS,
    ROOM_PLACES, STEP_PLACES, TEXT_RECORDS,
};
use crate::nodes::{open, with_child};
use crate::rows::has_room;
use doc_records::{
    NODE_COUNT, NODE_HEIGHT, Part, RecordPool, find_child, make_text, read_number, with_text,
};
use doc_tree::{EditFault, Name, Path, Text, Tree};

/// What an edit puts at the end of its path: a text for the node there, or a node in its place.
#[derive(Clone, Copy)]
pub(crate) enum End<'a, At> {
    Text(&'a Text),
    Node(At),
}

// A node of this text with the children of another, or of none.
#[tactic(auto, using(crate::proofs::Along::text_few))]
fn text_under<R: RecordPool>(records: &mut R, at: Option<R::At>, text: &Text) -> R::At
    requires top { IsTop (R.shown records.old) at }
    requires places { (R.shown records.old).held + 2 ≤ (R.shown records.old).room }
    requires records { TEXT_RECORDS ≤ (R.shown records.old).records }
    ensures node { IsNodeAt (R.shown records.new) result }
    ensures tree { tree_of ((R.shown records.new).term result)
        ≡ with_text text.now (tree_under (R.shown records.old) at) }
    ensures later { Later (R.shown records.old) (R.shown records.new) }
    ensures held { (R.shown records.new).held ≤ (R.shown records.old).held + 2 }
    ensures records { (R.shown records.old).records ≤ (R.shown records.new).records + TEXT_RECORDS }
{
    let bytes = text.bytes();
    match at {
        Some(node) => with_text(records, node, text),
        None => {
            let written = make_text(records, bytes);
            records.make(written, Part::Null, Part::Num(1), Part::Num(0), Part::Null)
        }
    }
}

fn at_end<R: RecordPool>(records: &mut R, at: Option<R::At>, end: End<'_, R::At>) -> R::At
    requires top { IsTop (R.shown records.old) at }
    requires end { StandsAtEnd (R.shown records.old) end }
    requires places { (R.shown records.old).held + 2 ≤ (R.shown records.old).room }
    requires records { TEXT_RECORDS ≤ (R.shown records.old).records }
    ensures node { IsNodeAt (R.shown records.new) result }
    ensures tree { tree_of ((R.shown records.new).term result)
        ≡ made_at (R.shown records.old) end.entry (tree_under (R.shown records.old) at) }
    ensures later { Later (R.shown records.old) (R.shown records.new) }
    ensures held { (R.shown records.new).held ≤ (R.shown records.old).held + 2 }
    ensures records { (R.shown records.old).records ≤ (R.shown records.new).records + TEXT_RECORDS }
{
    match end {
        End::Text(text) => text_under(records, at, text),
        End::Node(node) => node,
    }
}

// A node has room for one more child. One of at most `FEW_NODES` nodes, itself counted, has fewer
// children than that, so only the children of larger ones are counted.
#[tactic(auto, using(crate::proofs::Sized::child_fields, crate::proofs::Counted::kids_few))]
fn node_has_room<R: RecordPool>(records: &mut R, node: R::At) -> bool
    requires node { IsTreeAt (R.shown records.old) node }
    requires places { (R.shown records.old).held + ROOM_PLACES ≤ (R.shown records.old).room }
    ensures room { IsTrue result ↔ (kid_count (tree_of ((R.shown records.old).term node)).kids
        < Tree.MOST_CHILDREN) }
    ensures later { Later (R.shown records.old) (R.shown records.new) }
    ensures held { (R.shown records.new).held ≤ (R.shown records.old).held + 2 }
    ensures records { (R.shown records.new).records ≡ (R.shown records.old).records }
{
    if read_number(records, node, NODE_COUNT) <= FEW_NODES {
        return true;
    }
    let opened = open(records, Some(node));
    has_room(records, opened.entries)
}

// The tree of a node has room for one more child, or an edit that needs one is refused.
#[tactic(auto, using(crate::proofs::Along::begun_new, crate::proofs::Along::begun_many))]
fn begin_new<R: RecordPool>(
    records: &mut R,
    node: R::At,
    name: &Name,
) -> Result<Option<R::At>, EditFault>
    requires node { IsTreeAt (R.shown records.old) node }
    requires none { child_of_name name.now (tree_of ((R.shown records.old).term node)).kids ≡ None }
    requires places { (R.shown records.old).held + ROOM_PLACES ≤ (R.shown records.old).room }
    ensures begun { answered (tree_under (R.shown records.new)) result
        ≡ start name.now (tree_of ((R.shown records.old).term node)) }
    ensures none { ForOk result (λ o. o ≡ None) }
    ensures child { ForOk result (IsTop (R.shown records.new)) }
    ensures later { Later (R.shown records.old) (R.shown records.new) }
    ensures held { (R.shown records.new).held ≤ (R.shown records.old).held + 2 }
    ensures records { (R.shown records.new).records ≡ (R.shown records.old).records }
{
    if node_has_room(records, node) {
        Ok(None)
    } else {
        Err(EditFault::Many)
    }
}

// The child of that name in which an edit goes on, or none where there is room for a new one.
#[tactic(auto, using(crate::proofs::Along::begun_there, crate::proofs::Lawful::tree_child))]
fn begin<R: RecordPool>(
    records: &mut R,
    at: Option<R::At>,
    name: &Name,
) -> Result<Option<R::At>, EditFault>
    requires top { IsTop (R.shown records.old) at }
    requires places { (R.shown records.old).held + BEGIN_PLACES ≤ (R.shown records.old).room }
    ensures begun { answered (tree_under (R.shown records.new)) result
        ≡ start name.now (tree_under (R.shown records.old) at) }
    ensures there { ForOk result
        (λ o. option_map (λ a. tree_of ((R.shown records.new).term a)) o
        ≡ child_of_name name.now (tree_under (R.shown records.old) at).kids) }
    ensures child { ForOk result (IsTop (R.shown records.new)) }
    ensures later { Later (R.shown records.old) (R.shown records.new) }
    ensures held { (R.shown records.new).held ≤ (R.shown records.old).held + STEP_PLACES }
    ensures records { (R.shown records.new).records ≡ (R.shown records.old).records }
{
    let Some(node) = at else {
        return Ok(None);
    };
    match find_child(records, node, name) {
        Some(child) => Ok(Some(child)),
        None => begin_new(records, node, name),
    }
}

fn edit_along<R: RecordPool>(
    records: &mut R,
    at: Option<R::At>,
    names: &[Name],
    end: End<'_, R::At>,
) -> Result<R::At, EditFault>
    requires top { IsTop (R.shown records.old) at }
    requires end { StandsAtEnd (R.shown records.old) end }
    requires few { length names.now ≤ 8 }
    requires places { (R.shown records.old).held + LEVEL_PLACES * length names.now + END_PLACES
        ≤ (R.shown records.old).room }
    requires records { LEVEL_RECORDS * length names.now + TEXT_RECORDS
        ≤ (R.shown records.old).records }
    ensures tree { answered (λ a. tree_of ((R.shown records.new).term a)) result ≡ edit_along
        (made_at (R.shown records.old) end.entry) names.now (tree_under (R.shown records.old) at) }
    ensures node { ForOk result (IsNodeAt (R.shown records.new)) }
    ensures within { ForOk result
        (λ a. IsWithin (length names.now) (tree_of ((R.shown records.new).term a))) }
    ensures later { Later (R.shown records.old) (R.shown records.new) }
    ensures held { (R.shown records.new).held
        ≤ (R.shown records.old).held + LEVEL_PLACES * length names.now + 2 }
    ensures records { (R.shown records.old).records
        ≤ (R.shown records.new).records + (LEVEL_RECORDS * length names.now + TEXT_RECORDS) }
{
    let [name, rest @ ..] = names else {
        return Ok(at_end(records, at, end));
    };
    let child = begin(records, at, name)?;
    let edited = edit_along(records, child, rest, end)?;
    Ok(with_child(records, at, name, child, edited))
}

// The limits on a whole tree, of which an edit that adds asks once.
#[tactic(auto, using(crate::proofs::Sized::child_fields, crate::proofs::Along::limits))]
fn within_limits<R: RecordPool>(records: &mut R, root: R::At) -> Result<R::At, EditFault>
    requires node { IsNodeAt (R.shown records.old) root }
    requires places { (R.shown records.old).held + 1 ≤ (R.shown records.old).room }
    ensures tree { answered (λ a. tree_of ((R.shown records.new).term a)) result
        ≡ within_limits (tree_of ((R.shown records.old).term root)) }
    ensures node { ForOk result (IsNodeAt (R.shown records.new)) }
    ensures later { Later (R.shown records.old) (R.shown records.new) }
    ensures held { (R.shown records.new).held ≡ (R.shown records.old).held }
    ensures records { (R.shown records.new).records ≡ (R.shown records.old).records }
{
    if read_number(records, root, NODE_HEIGHT) > u64::from(Tree::HIGHEST) {
        return Err(EditFault::Deep);
    }
    if read_number(records, root, NODE_COUNT) > Tree::MOST_NODES {
        return Err(EditFault::Big);
    }
    Ok(root)
}

// An edit that adds, and the limits of its whole tree.
fn edit_whole<R: RecordPool>(
    records: &mut R,
    root: R::At,
    names: &[Name],
    end: End<'_, R::At>,
) -> Result<R::At, EditFault>
    requires root { IsTreeAt (R.shown records.old) root }
    requires end { StandsAtEnd (R.shown records.old) end }
    requires few { length names.now ≤ 8 }
    requires places { (R.shown records.old).held + EDIT_PLACES ≤ (R.shown records.old).room }
    requires records { EDIT_RECORDS ≤ (R.shown records.old).records }
    ensures tree { answered (λ a. tree_of ((R.shown records.new).term a)) result
        ≡ edited within_limits (edit_along (made_at (R.shown records.old) end.entry) names.now
        (tree_of ((R.shown records.old).term root))) }
    ensures node { ForOk result (IsNodeAt (R.shown records.new)) }
    ensures later { Later (R.shown records.old) (R.shown records.new) }
    ensures held { (R.shown records.new).held ≤ (R.shown records.old).held + EDIT_PLACES }
    ensures records { (R.shown records.old).records ≤ (R.shown records.new).records + EDIT_RECORDS }
{
    let whole = edit_along(records, Some(root), names, end)?;
    within_limits(records, whole)
}

// An edit that adds. After a refusal all places are given back.
#[tactic(auto, using(doc_records::proofs::Spellings::kept_back))]
fn edit<R: RecordPool>(
    records: &mut R,
    root: R::At,
    names: &[Name],
    end: End<'_, R::At>,
) -> Result<R::At, EditFault>
    requires root { IsTreeAt (R.shown records.old) root }
    requires end { StandsAtEnd (R.shown records.old) end }
    requires few { length names.now ≤ 8 }
    requires places { (R.shown records.old).held + EDIT_PLACES ≤ (R.shown records.old).room }
    requires records { EDIT_RECORDS ≤ (R.shown records.old).records }
    ensures tree { answered (λ a. tree_of ((R.shown records.new).term a)) result
        ≡ edited within_limits (edit_along (made_at (R.shown records.old) end.entry) names.now
        (tree_of ((R.shown records.old).term root))) }
    ensures node { ForOk result (IsNodeAt (R.shown records.new)) }
    ensures later { Later (R.shown records.old) (R.shown records.new) }
    ensures held { (R.shown records.new).held ≤ (R.shown records.old).held + EDIT_PLACES }
    ensures refused { OnErr result ((R.shown records.new).held ≡ (R.shown records.old).held) }
    ensures records { (R.shown records.old).records ≤ (R.shown records.new).records + EDIT_RECORDS }
{
    let held = records.held();
    match edit_whole(records, root, names, end) {
        Ok(node) => Ok(node),
        Err(fault) => {
            records.cut(held);
            Err(fault)
        }
    }
}

/// Gives the node at the path the text. Missing nodes on the way are made with empty texts.
#[tactic(auto, using(doc_tree::proofs::Orderly::path_short))]
pub fn set_text<R: RecordPool>(
    records: &mut R,
    root: R::At,
    path: &Path,
    text: &Text,
) -> Result<R::At, EditFault>
    requires stands { (R.shown records.old).stands (R.shown records.old).held root }
    requires node { IsTreeNode ((R.shown records.old).term root) }
    requires places { (R.shown records.old).held + EDIT_PLACES ≤ (R.shown records.old).room }
    requires records { EDIT_RECORDS ≤ (R.shown records.old).records }
    ensures tree { answered (λ a. tree_of ((R.shown records.new).term a)) result
        ≡ set_text path.now text.now (tree_of ((R.shown records.old).term root)) }
    ensures node { ForOk result (IsTreeAt (R.shown records.new)) }
    ensures later { Later (R.shown records.old) (R.shown records.new) }
    ensures held { (R.shown records.new).held ≤ (R.shown records.old).held + EDIT_PLACES }
    ensures refused { OnErr result ((R.shown records.new).held ≡ (R.shown records.old).held) }
    ensures records { (R.shown records.old).records ≤ (R.shown records.new).records + EDIT_RECORDS }
{
    edit(records, root, path.names(), End::Text(text))
}

/// Puts the node `sub`, with all that is below it, at the path, in place of what stands there.
/// Missing nodes before it are made with empty texts.
#[tactic(auto, using(doc_tree::proofs::Orderly::path_short))]
pub fn attach<R: RecordPool>(
    records: &mut R,
    root: R::At,
    path: &Path,
    sub: R::At,
) -> Result<R::At, EditFault>
    requires stands { (R.shown records.old).stands (R.shown records.old).held root }
    requires node { IsTreeNode ((R.shown records.old).term root) }
    requires sub_stands { (R.shown records.old).stands (R.shown records.old).held sub }
    requires sub { IsTreeNode ((R.shown records.old).term sub) }
    requires places { (R.shown records.old).held + EDIT_PLACES ≤ (R.shown records.old).room }
    requires records { EDIT_RECORDS ≤ (R.shown records.old).records }
    ensures tree { answered (λ a. tree_of ((R.shown records.new).term a)) result
        ≡ attach path.now (tree_of ((R.shown records.old).term sub))
        (tree_of ((R.shown records.old).term root)) }
    ensures node { ForOk result (IsTreeAt (R.shown records.new)) }
    ensures later { Later (R.shown records.old) (R.shown records.new) }
    ensures held { (R.shown records.new).held ≤ (R.shown records.old).held + EDIT_PLACES }
    ensures refused { OnErr result ((R.shown records.new).held ≡ (R.shown records.old).held) }
    ensures records { (R.shown records.old).records ≤ (R.shown records.new).records + EDIT_RECORDS }
{
    edit(records, root, path.names(), End::Node(sub))
}

//! Edits of trees, and the empty tree. What an edit makes is private.
ghost use Rattle.std.specs.Prelude.{◌≡◌, ◌+◌, ◌≤◌, true, OnErr, length};
ghost use Rattle.std.specs.Result.{ForOk};
ghost use Rattle.client_trees.specs.Leaves.{Leaves};
ghost use Rattle.client_trees.specs.Nodes.{IsTreeAt, tree_at};
ghost use Rattle.doc_tree.specs.Edits.{answered, attach, delete, set_text};
ghost use Rattle.doc_tree.specs.Tree.{empty};

use crate::at::NodeAt;
use crate::records::ClientRecords;
use crate::seat::ClientSeat;
use doc_edits::{EDIT_PLACES, EDIT_RECORDS};
use doc_tree::{EditFault, Path, Text};
use minor_heap::MinorHeap;

/// A node of the empty tree. It is private.
#[tactic(auto, using(crate::proofs::Leaving::leaving))]
pub fn empty_node<M: ClientSeat>(m: &mut M, minor: &mut MinorHeap) -> NodeAt
    requires inside { (M.bound m.old).seat.me.presence.inside ≡ true }
    requires spare { length minor.old.records + EDIT_RECORDS ≤ minor.old.room }
    ensures tree { tree_at (M.bound m.new) minor.new result ≡ empty }
    ensures node { IsTreeAt (M.bound m.new) minor.new result }
    ensures leaves { Leaves (M.bound m.old) (M.bound m.new) minor.old minor.new }
    ensures held { length (M.bound m.new).seat.me.own.held
        ≡ length (M.bound m.old).seat.me.own.held }
    ensures records { length minor.new.records ≡ length minor.old.records + 1 }
{
    let _spare = minor.spare();
    let mut records = ClientRecords::new(m, minor);
    let node = doc_records::empty_node(&mut records);
    let _spare = minor.spare();
    node
}

/// Gives the node at the path the text. Missing nodes on the way are made with empty texts.
#[tactic(auto, using(crate::proofs::Leaving::leaving))]
pub fn set_text<M: ClientSeat>(
    m: &mut M,
    minor: &mut MinorHeap,
    root: NodeAt,
    path: &Path,
    text: &Text,
) -> Result<NodeAt, EditFault>
    requires inside { (M.bound m.old).seat.me.presence.inside ≡ true }
    requires node { IsTreeAt (M.bound m.old) minor.old root }
    requires room { length (M.bound m.old).seat.me.own.held + EDIT_PLACES
        ≤ (M.bound m.old).seat.me.room }
    requires spare { length minor.old.records + EDIT_RECORDS ≤ minor.old.room }
    ensures tree { answered (tree_at (M.bound m.new) minor.new) result
        ≡ set_text path.now text.now (tree_at (M.bound m.old) minor.old root) }
    ensures node { ForOk result (IsTreeAt (M.bound m.new) minor.new) }
    ensures leaves { Leaves (M.bound m.old) (M.bound m.new) minor.old minor.new }
    ensures held { length (M.bound m.new).seat.me.own.held
        ≤ length (M.bound m.old).seat.me.own.held + EDIT_PLACES }
    ensures refused { OnErr result
        (length (M.bound m.new).seat.me.own.held ≡ length (M.bound m.old).seat.me.own.held) }
    ensures records { length minor.new.records ≤ length minor.old.records + EDIT_RECORDS }
{
    let _spare = minor.spare();
    let mut records = ClientRecords::new(m, minor);
    let made = doc_edits::set_text(&mut records, root, path, text);
    let _spare = minor.spare();
    made
}

/// Puts the node `sub`, with all that is below it, at the path, in place of what stands there.
/// Missing nodes on the way are made with empty texts.
#[tactic(auto, using(crate::proofs::Leaving::leaving))]
pub fn attach<M: ClientSeat>(
    m: &mut M,
    minor: &mut MinorHeap,
    root: NodeAt,
    path: &Path,
    sub: NodeAt,
) -> Result<NodeAt, EditFault>
    requires inside { (M.bound m.old).seat.me.presence.inside ≡ true }
    requires node { IsTreeAt (M.bound m.old) minor.old root }
    requires sub { IsTreeAt (M.bound m.old) minor.old sub }
    requires room { length (M.bound m.old).seat.me.own.held + EDIT_PLACES
        ≤ (M.bound m.old).seat.me.room }
    requires spare { length minor.old.records + EDIT_RECORDS ≤ minor.old.room }
    ensures tree { answered (tree_at (M.bound m.new) minor.new) result
        ≡ attach path.now (tree_at (M.bound m.old) minor.old sub)
        (tree_at (M.bound m.old) minor.old root) }
    ensures node { ForOk result (IsTreeAt (M.bound m.new) minor.new) }
    ensures leaves { Leaves (M.bound m.old) (M.bound m.new) minor.old minor.new }
    ensures held { length (M.bound m.new).seat.me.own.held
        ≤ length (M.bound m.old).seat.me.own.held + EDIT_PLACES }
    ensures refused { OnErr result
        (length (M.bound m.new).seat.me.own.held ≡ length (M.bound m.old).seat.me.own.held) }
    ensures records { length minor.new.records ≤ length minor.old.records + EDIT_RECORDS }
{
    let _spare = minor.spare();
    let mut records = ClientRecords::new(m, minor);
    let made = doc_edits::attach(&mut records, root, path, sub);
    let _spare = minor.spare();
    made
}

/// Removes the node at the path, with all that is below it.
#[tactic(auto, using(crate::proofs::Leaving::leaving))]
pub fn delete<M: ClientSeat>(
    m: &mut M,
    minor: &mut MinorHeap,
    root: NodeAt,
    path: &Path,
) -> Result<NodeAt, EditFault>
    requires inside { (M.bound m.old).seat.me.presence.inside ≡ true }
    requires node { IsTreeAt (M.bound m.old) minor.old root }
    requires room { length (M.bound m.old).seat.me.own.held + EDIT_PLACES
        ≤ (M.bound m.old).seat.me.room }
    requires spare { length minor.old.records + EDIT_RECORDS ≤ minor.old.room }
    ensures tree { answered (tree_at (M.bound m.new) minor.new) result
        ≡ delete path.now (tree_at (M.bound m.old) minor.old root) }
    ensures node { ForOk result (IsTreeAt (M.bound m.new) minor.new) }
    ensures leaves { Leaves (M.bound m.old) (M.bound m.new) minor.old minor.new }
    ensures held { length (M.bound m.new).seat.me.own.held
        ≤ length (M.bound m.old).seat.me.own.held + EDIT_PLACES }
    ensures refused { OnErr result
        (length (M.bound m.new).seat.me.own.held ≡ length (M.bound m.old).seat.me.own.held) }
    ensures records { length minor.new.records ≤ length minor.old.records + EDIT_RECORDS }
{
    let _spare = minor.spare();
    let mut records = ClientRecords::new(m, minor);
    let made = doc_edits::delete(&mut records, root, path);
    let _spare = minor.spare();
    made
}

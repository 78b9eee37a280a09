//! Reading a node. The places of what was read are given back, except that of a shared child.
ghost use Rattle.std.specs.Prelude.{◌≡◌, ◌+◌, ◌≤◌, [], ◌∷◌, true};
ghost use Rattle.std.specs.Prelude.{IfOk, OnOk, length};
ghost use Rattle.std.specs.Option.{ForSome, option_map};
ghost use Rattle.cell_words.specs.declared.fields.Field.TheVariants as field;
ghost use Rattle.client_trees.specs.Records.{is_shared};
ghost use Rattle.client_trees.specs.Leaves.{Leaves, LeavesAll, IsLast};
ghost use Rattle.client_trees.specs.Nodes.{IsTreeAt, tree_at};
ghost use Rattle.doc_records.specs.Texts.{name_asks, text_asks};
ghost use Rattle.doc_tree.specs.Tree.{child as child_of_name, count, height, names_of};
ghost use Rattle.trails.specs.Asks.{Shows, gave};
ghost use Rattle.trails.specs.Marks.{marks_of};

use crate::at::NodeAt;
use crate::records::ClientRecords;
use crate::seat::ClientSeat;
use doc_edits::EDIT_PLACES;
use doc_tree::{Name, Names, NoMemory, Text};
use minor_heap::MinorHeap;
use std::alloc::Global;

/// The text of a node.
#[tactic(auto, using(crate::proofs::Leaving::leaving_all))]
pub fn text_of<M: ClientSeat>(
    alloc: Global,
    m: &mut M,
    minor: &mut MinorHeap,
    at: NodeAt,
) -> Result<Text, NoMemory>
    requires inside { (M.bound m.old).seat.me.presence.inside ≡ true }
    requires node { IsTreeAt (M.bound m.old) minor.old at }
    requires room { length (M.bound m.old).seat.me.own.held + EDIT_PLACES
        ≤ (M.bound m.old).seat.me.room }
    ensures text { IfOk result (λ text. text ≡ (tree_at (M.bound m.old) minor.old at).text) }
    ensures leaves { LeavesAll (M.bound m.old) (M.bound m.new) minor.old minor.new }
    ensures shows { OnOk result (is_shared at ≡ true
        → Shows (text_asks (tree_at (M.bound m.old) minor.old at).text)
        (marks_of (M.bound m.old).seat.me.trail) (marks_of (M.bound m.new).seat.me.trail)) }
{
    let _spare = minor.spare();
    let mut records = ClientRecords::new(m, minor);
    let text = doc_records::text_of(alloc, &mut records, at);
    let _spare = minor.spare();
    text
}

/// The names of a node's children, in their order.
#[tactic(auto, using(crate::proofs::Leaving::leaving_all))]
pub fn names<M: ClientSeat>(
    alloc: Global,
    m: &mut M,
    minor: &mut MinorHeap,
    at: NodeAt,
) -> Result<Names, NoMemory>
    requires inside { (M.bound m.old).seat.me.presence.inside ≡ true }
    requires node { IsTreeAt (M.bound m.old) minor.old at }
    requires room { length (M.bound m.old).seat.me.own.held + EDIT_PLACES
        ≤ (M.bound m.old).seat.me.room }
    ensures names { IfOk result
        (λ names. names ≡ names_of (tree_at (M.bound m.old) minor.old at).kids) }
    ensures leaves { LeavesAll (M.bound m.old) (M.bound m.new) minor.old minor.new }
    ensures shows { OnOk result (is_shared at ≡ true
        → Shows (name_asks (names_of (tree_at (M.bound m.old) minor.old at).kids))
        (marks_of (M.bound m.old).seat.me.trail) (marks_of (M.bound m.new).seat.me.trail)) }
{
    let _spare = minor.spare();
    let mut records = ClientRecords::new(m, minor);
    let names = doc_records::names(alloc, &mut records, at);
    let _spare = minor.spare();
    names
}

/// How many nodes the tree of a node has.
#[tactic(auto, using(crate::proofs::Leaving::leaving_all))]
pub fn count<M: ClientSeat>(m: &mut M, minor: &mut MinorHeap, at: NodeAt) -> u64
    requires inside { (M.bound m.old).seat.me.presence.inside ≡ true }
    requires node { IsTreeAt (M.bound m.old) minor.old at }
    requires room { length (M.bound m.old).seat.me.own.held + EDIT_PLACES
        ≤ (M.bound m.old).seat.me.room }
    ensures count { result ≡ count (tree_at (M.bound m.old) minor.old at) }
    ensures leaves { LeavesAll (M.bound m.old) (M.bound m.new) minor.old minor.new }
    ensures shows { is_shared at ≡ true → Shows (gave (field.Num result) ∷ [])
        (marks_of (M.bound m.old).seat.me.trail) (marks_of (M.bound m.new).seat.me.trail) }
{
    let _spare = minor.spare();
    let mut records = ClientRecords::new(m, minor);
    let count = doc_records::count(&mut records, at);
    let _spare = minor.spare();
    count
}

/// How many levels the tree of a node has below it.
#[tactic(auto, using(crate::proofs::Leaving::leaving_all))]
pub fn height<M: ClientSeat>(m: &mut M, minor: &mut MinorHeap, at: NodeAt) -> u32
    requires inside { (M.bound m.old).seat.me.presence.inside ≡ true }
    requires node { IsTreeAt (M.bound m.old) minor.old at }
    requires room { length (M.bound m.old).seat.me.own.held + EDIT_PLACES
        ≤ (M.bound m.old).seat.me.room }
    ensures height { result ≡ height (tree_at (M.bound m.old) minor.old at) }
    ensures leaves { LeavesAll (M.bound m.old) (M.bound m.new) minor.old minor.new }
{
    let _spare = minor.spare();
    let mut records = ClientRecords::new(m, minor);
    let height = doc_records::height(&mut records, at);
    let _spare = minor.spare();
    height
}

/// The child of that name. A shared one stands at the end of the held list, after all that was
/// held.
#[tactic(auto, using(crate::proofs::Leaving::finding))]
pub fn child<M: ClientSeat>(
    m: &mut M,
    minor: &mut MinorHeap,
    at: NodeAt,
    name: &Name,
) -> Option<NodeAt>
    requires inside { (M.bound m.old).seat.me.presence.inside ≡ true }
    requires node { IsTreeAt (M.bound m.old) minor.old at }
    requires room { length (M.bound m.old).seat.me.own.held + EDIT_PLACES
        ≤ (M.bound m.old).seat.me.room }
    ensures child { option_map (tree_at (M.bound m.new) minor.new) result
        ≡ child_of_name name.now (tree_at (M.bound m.old) minor.old at).kids }
    ensures node { ForSome result (IsTreeAt (M.bound m.new) minor.new) }
    ensures shared { is_shared at ≡ true → ForSome result (λ a. is_shared a ≡ true) }
    ensures leaves { Leaves (M.bound m.old) (M.bound m.new) minor.old minor.new }
    ensures minor { minor.new ≡ minor.old }
    ensures last { IsLast (length (M.bound m.old).seat.me.own.held)
        (length (M.bound m.new).seat.me.own.held) result }
{
    let _spare = minor.spare();
    let mut records = ClientRecords::new(m, minor);
    let child = doc_records::child(&mut records, at, name);
    let _spare = minor.spare();
    child
}

//! Walking down a tree by names.
ghost use Rattle.std.specs.Prelude.{◌≡◌, ◌+◌, ◌≤◌, length, true};
ghost use Rattle.std.specs.Option.{ForSome, option_map};
ghost use Rattle.client_heap.specs.Carries.{Carries};
ghost use Rattle.client_trees.specs.Records.{is_shared};
ghost use Rattle.client_trees.specs.Nodes.{IsTreeAt, tree_at};
ghost use Rattle.doc_tree.specs.Tree.{child as child_of_name, node};

use client_history::{CALL_PLACES, Documents};
use client_trees::{ClientSeat, NodeAt, child};
use doc_tree::Name;
use minor_heap::MinorHeap;

/// The node at the end of a path down from a node. A place is held for each shared node on the
/// path.
pub(crate) fn node_below<M: ClientSeat<Pass = Documents>>(
    m: &mut M,
    minor: &mut MinorHeap,
    at: NodeAt,
    names: &[Name],
) -> Option<NodeAt>
    requires inside { (M.bound m.old).seat.me.presence.inside ≡ true }
    requires node { IsTreeAt (M.bound m.old) minor.old at }
    requires room { length (M.bound m.old).seat.me.own.held + (CALL_PLACES + length names.now)
        ≤ (M.bound m.old).seat.me.room }
    ensures tree { option_map (tree_at (M.bound m.new) minor.new) result
        ≡ node names.now (tree_at (M.bound m.old) minor.old at) }
    ensures node { ForSome result (IsTreeAt (M.bound m.new) minor.new) }
    ensures shared { is_shared at ≡ true → ForSome result (λ a. is_shared a ≡ true) }
    ensures carries { Carries (length (M.bound m.old).seat.me.own.held) (M.bound m.old)
        (M.bound m.new) minor.old minor.new }
    ensures pass { (M.bound m.new).seat.me.pass ≡ (M.bound m.old).seat.me.pass }
    ensures claims { (M.bound m.new).seat.me.own.claims ≡ (M.bound m.old).seat.me.own.claims }
    ensures minor { minor.new ≡ minor.old }
    ensures held { length (M.bound m.new).seat.me.own.held
        ≤ length (M.bound m.old).seat.me.own.held + length names.now }
{
    match names {
        [] => Some(at),
        [name, rest @ ..] => match step(m, minor, at, name) {
            Some(below) => {
                let found = node_below(m, minor, below, rest);
                found
            }
            None => None,
        },
    }
}

/// The child of a node.
fn step<M: ClientSeat<Pass = Documents>>(
    m: &mut M,
    minor: &mut MinorHeap,
    at: NodeAt,
    name: &Name,
) -> Option<NodeAt>
    requires inside { (M.bound m.old).seat.me.presence.inside ≡ true }
    requires node { IsTreeAt (M.bound m.old) minor.old at }
    requires room { length (M.bound m.old).seat.me.own.held + CALL_PLACES
        ≤ (M.bound m.old).seat.me.room }
    ensures child { option_map (tree_at (M.bound m.new) minor.new) result
        ≡ child_of_name name.now (tree_at (M.bound m.old) minor.old at).kids }
    ensures node { ForSome result (IsTreeAt (M.bound m.new) minor.new) }
    ensures shared { is_shared at ≡ true → ForSome result (λ a. is_shared a ≡ true) }
    ensures carries { Carries (length (M.bound m.old).seat.me.own.held) (M.bound m.old)
        (M.bound m.new) minor.old minor.new }
    ensures pass { (M.bound m.new).seat.me.pass ≡ (M.bound m.old).seat.me.pass }
    ensures claims { (M.bound m.new).seat.me.own.claims ≡ (M.bound m.old).seat.me.own.claims }
    ensures minor { minor.new ≡ minor.old }
    ensures held { length (M.bound m.new).seat.me.own.held
        ≤ length (M.bound m.old).seat.me.own.held + 1 }
{
    let found = child(m, minor, at, name);
    found
}

//! Ageing: the private records that the draft and a tree in the making reach are copied within the
//! private heap, and the others are dropped. The shared heap has no part in it.
ghost use Rattle.std.specs.Prelude.{◌≡◌, ◌<◌, ◌≤◌, ◌+◌, false, length, true};
ghost use Rattle.client_heap.specs.Ages.{Ages, is_there};
ghost use Rattle.client_trees.specs.declared.at.NodeAt.TheVariants as at;
ghost use Rattle.minor_heap.specs.Nursery.{Stands};

use aged_nursery::AgedNursery;
use client_history::EDIT_SPARE;
use client_trees::NodeAt;
use minor_heap::MinorRef;

/// Drops all private records except those that one of them reaches. The answer is where that one is
/// then.
fn age_record(nursery: &mut AgedNursery, r: MinorRef) -> MinorRef
    requires there { Stands nursery.old.heap.records r }
    requires whole { nursery.old.heap.room ≡ nursery.old.records }
    ensures node { Ages nursery.old.heap.records nursery.new.heap.records (at.Minor r)
        (at.Minor result) }
    ensures aged { nursery.new.aged ≡ length nursery.new.heap.records }
    ensures fewer { length nursery.new.heap.records ≤ length nursery.old.heap.records }
    ensures room { nursery.new.heap.room ≡ nursery.old.heap.room }
    ensures records { nursery.new.records ≡ nursery.old.records }
{
    let mut roots = [r];
    nursery.age(&mut roots);
    let _ordered = nursery.heap().len();
    roots[0]
}

/// The same for two records.
fn age_records(nursery: &mut AgedNursery, q: MinorRef, r: MinorRef) -> (MinorRef, MinorRef)
    requires first { Stands nursery.old.heap.records q }
    requires second { Stands nursery.old.heap.records r }
    requires whole { nursery.old.heap.room ≡ nursery.old.records }
    ensures first { Ages nursery.old.heap.records nursery.new.heap.records (at.Minor q)
        (at.Minor result.0) }
    ensures second { Ages nursery.old.heap.records nursery.new.heap.records (at.Minor r)
        (at.Minor result.1) }
    ensures aged { nursery.new.aged ≡ length nursery.new.heap.records }
    ensures fewer { length nursery.new.heap.records ≤ length nursery.old.heap.records }
    ensures room { nursery.new.heap.room ≡ nursery.old.heap.room }
    ensures records { nursery.new.records ≡ nursery.old.records }
{
    let mut roots = [q, r];
    nursery.age(&mut roots);
    let _ordered = nursery.heap().len();
    (roots[0], roots[1])
}

/// Drops all private records.
fn age_none(nursery: &mut AgedNursery)
    requires whole { nursery.old.heap.room ≡ nursery.old.records }
    ensures aged { nursery.new.aged ≡ length nursery.new.heap.records }
    ensures fewer { length nursery.new.heap.records ≤ length nursery.old.heap.records }
    ensures room { nursery.new.heap.room ≡ nursery.old.heap.room }
    ensures records { nursery.new.records ≡ nursery.old.records }
{
    nursery.age(&mut []);
}

/// Drops all private records except those that a node reaches. The answer is where the node is
/// then.
fn age_node(nursery: &mut AgedNursery, node: NodeAt) -> NodeAt
    requires there { is_there nursery.old.heap.records node }
    requires whole { nursery.old.heap.room ≡ nursery.old.records }
    ensures node { Ages nursery.old.heap.records nursery.new.heap.records node result }
    ensures aged { nursery.new.aged ≡ length nursery.new.heap.records }
    ensures fewer { length nursery.new.heap.records ≤ length nursery.old.heap.records }
    ensures room { nursery.new.heap.room ≡ nursery.old.heap.room }
    ensures records { nursery.new.records ≡ nursery.old.records }
{
    match node {
        NodeAt::Minor(r) => NodeAt::Minor(age_record(nursery, r)),
        NodeAt::Shared(_) => {
            age_none(nursery);
            node
        }
    }
}

/// The same for two nodes.
fn age_nodes(nursery: &mut AgedNursery, x: NodeAt, y: NodeAt) -> (NodeAt, NodeAt)
    requires first { is_there nursery.old.heap.records x }
    requires second { is_there nursery.old.heap.records y }
    requires whole { nursery.old.heap.room ≡ nursery.old.records }
    ensures first { Ages nursery.old.heap.records nursery.new.heap.records x result.0 }
    ensures second { Ages nursery.old.heap.records nursery.new.heap.records y result.1 }
    ensures aged { nursery.new.aged ≡ length nursery.new.heap.records }
    ensures fewer { length nursery.new.heap.records ≤ length nursery.old.heap.records }
    ensures room { nursery.new.heap.room ≡ nursery.old.heap.room }
    ensures records { nursery.new.records ≡ nursery.old.records }
{
    match (x, y) {
        (NodeAt::Minor(q), NodeAt::Minor(r)) => {
            let (first, second) = age_records(nursery, q, r);
            (NodeAt::Minor(first), NodeAt::Minor(second))
        }
        (NodeAt::Minor(q), NodeAt::Shared(_)) => (NodeAt::Minor(age_record(nursery, q)), y),
        (NodeAt::Shared(_), NodeAt::Minor(r)) => (x, NodeAt::Minor(age_record(nursery, r))),
        (NodeAt::Shared(_), NodeAt::Shared(_)) => {
            age_none(nursery);
            (x, y)
        }
    }
}

/// Whether there are enough places, and nothing has aged since the last collection.
fn is_due(nursery: &AgedNursery, places: bool) -> bool
    ensures due { result ≡ true → (places ≡ true) × (nursery.now.aged ≡ 0) }
    ensures waits { result ≡ false → places ≡ true → 0 < nursery.now.aged }
{
    places && nursery.aged_len() == 0
}

/// Ages, with the draft as the root, where there are enough places and nothing has aged since the
/// last collection. It tells whether there is room for an edit's records then.
pub(crate) fn age_draft(nursery: &mut AgedNursery, draft: &mut NodeAt, places: bool) -> bool
    requires there { is_there nursery.old.heap.records draft.old }
    requires whole { nursery.old.heap.room ≡ nursery.old.records }
    ensures draft { Ages nursery.old.heap.records nursery.new.heap.records draft.old draft.new }
    ensures ages { places ≡ true → nursery.old.aged ≡ 0
        → nursery.new.aged ≡ length nursery.new.heap.records }
    ensures once { 0 < nursery.old.aged → (nursery.new ≡ nursery.old) × (draft.new ≡ draft.old) }
    ensures spare { result ≡ true → (places ≡ true)
        × (length nursery.new.heap.records + EDIT_SPARE ≤ nursery.new.heap.room) }
    ensures fewer { length nursery.new.heap.records ≤ length nursery.old.heap.records }
    ensures room { nursery.new.heap.room ≡ nursery.old.heap.room }
    ensures records { nursery.new.records ≡ nursery.old.records }
{
    if !is_due(nursery, places) {
        return false;
    }
    *draft = age_node(nursery, *draft);
    EDIT_SPARE <= nursery.heap().spare()
}

/// The same with a tree in the making as a second root; the first answer is where that is then.
pub(crate) fn age_both(
    nursery: &mut AgedNursery,
    draft: &mut NodeAt,
    tree: NodeAt,
    places: bool,
) -> (NodeAt, bool)
    requires draft { is_there nursery.old.heap.records draft.old }
    requires tree { is_there nursery.old.heap.records tree }
    requires whole { nursery.old.heap.room ≡ nursery.old.records }
    ensures draft { Ages nursery.old.heap.records nursery.new.heap.records draft.old draft.new }
    ensures tree { Ages nursery.old.heap.records nursery.new.heap.records tree result.0 }
    ensures ages { places ≡ true → nursery.old.aged ≡ 0
        → nursery.new.aged ≡ length nursery.new.heap.records }
    ensures once { 0 < nursery.old.aged → (nursery.new ≡ nursery.old) × (draft.new ≡ draft.old) }
    ensures spare { result.1 ≡ true → (places ≡ true)
        × (length nursery.new.heap.records + EDIT_SPARE ≤ nursery.new.heap.room) }
    ensures fewer { length nursery.new.heap.records ≤ length nursery.old.heap.records }
    ensures room { nursery.new.heap.room ≡ nursery.old.heap.room }
    ensures records { nursery.new.records ≡ nursery.old.records }
{
    if !is_due(nursery, places) {
        return (tree, false);
    }
    let (first, second) = age_nodes(nursery, *draft, tree);
    *draft = first;
    (second, EDIT_SPARE <= nursery.heap().spare())
}

//! Room for one more edit of a tree that is in the making: it and the draft age or are collected.
ghost use Rattle.std.specs.Prelude.{◌≡◌, ◌≤◌, ◌+◌, ◌-◌, [], IfOk, IfSome, IsNone, None};
ghost use Rattle.std.specs.Prelude.{Ok, OnErr, OnOk, length, max, true};
ghost use Rattle.client_heap.specs.Carries.{Carries, Follows};
ghost use Rattle.client_heap.specs.Shared.{HoldsTerm, shared_place};
ghost use Rattle.client_heap.specs.Shows.{node_term};
ghost use Rattle.client_heap.specs.Sound.{HasRoom, IsSound};
ghost use Rattle.client_trees.specs.declared.at.NodeAt.TheVariants as at;
ghost use Rattle.client_trees.specs.Nodes.{IsTreeAt, tree_at};
ghost use Rattle.free_cells.specs.Hints.{queue_of};
ghost use Rattle.trails.specs.Claims.{IsFull};
ghost use Rattle.trails.specs.Stretches.{Had};
ghost use Rattle.version_store.specs.Lasts.{marks};

use crate::ageing::age_both;
use crate::collecting::share_nodes;
use crate::places::keep_pair;
use aged_nursery::AgedNursery;
use client_history::{BATCH_ROOM, Documents, EDIT_SPARE, READY_ROOM};
use client_trees::NodeAt;
use free_cells::Hints;
use minor_heap::MinorHeap;
use mutator_seat::{HeapFull, Mutator};
use promotion::Promoter;
use std::sync::Wait;

/// Where a node stands after a copy of it was made at the place, if it was private.
fn place_of(copy: usize, node: NodeAt) -> usize
    ensures { result ≡ shared_place copy node }
{
    match node {
        NodeAt::Shared(place) => place,
        NodeAt::Minor(_) => copy,
    }
}

/// Copies what two nodes reach into the shared heap, as far as it is private, and drops all private
/// records. All that is held stays, and the copies are held after it, the second one last.
fn share_both<R: Wait>(
    rt: &R,
    hints: &mut Hints<'_>,
    m: &mut Mutator<'_, Documents>,
    minor: &mut MinorHeap,
    promoter: &mut Promoter,
    x: NodeAt,
    y: NodeAt,
) -> Result<usize, HeapFull>
    requires inside { m.old.seat.me.presence.inside ≡ true }
    requires some { 1 ≤ length m.old.seat.me.own.held }
    requires first { IsTreeAt m.old minor.old x }
    requires second { IsTreeAt m.old minor.old y }
    requires copies { minor.old.room ≤ promoter.old }
    requires room { length m.old.seat.me.own.held + length minor.old.records + 2
        ≤ m.old.seat.me.room }
    ensures place { IfOk result (λ first. first ≡ length m.old.seat.me.own.held) }
    ensures first { IfOk result (λ first. HoldsTerm m.new (shared_place first x)
        (node_term m.old minor.old x)) }
    ensures second { OnOk result (HoldsTerm m.new
        (shared_place (length m.new.seat.me.own.held - 1) y) (node_term m.old minor.old y)) }
    ensures held { OnOk result (length m.new.seat.me.own.held
        ≤ length m.old.seat.me.own.held + 2) }
    ensures emptied { OnOk result (minor.new.records ≡ []) }
    ensures full { OnErr result (Had (IsFull m.old.seat.me.shape.cells) (marks m.old)
        (marks m.new)) }
    ensures refused { OnErr result (Carries (length m.old.seat.me.own.held) m.old m.new minor.old
        minor.new) }
    ensures same { OnErr result (length m.new.seat.me.own.held ≡ length m.old.seat.me.own.held) }
    ensures unchanged { OnErr result (minor.new.records ≡ minor.old.records) }
    ensures follows { Follows m.old m.new minor.old minor.new }
    ensures pass { m.new.seat.me.pass ≡ m.old.seat.me.pass }
    ensures promoter { promoter.new ≡ promoter.old }
    ensures queue { queue_of hints.new ≡ queue_of hints.old }
{
    match (x, y) {
        (NodeAt::Minor(q), NodeAt::Minor(r)) => {
            let both = share_nodes(rt, hints, m, minor, promoter, &[q, r]);
            both
        }
        (NodeAt::Minor(r), NodeAt::Shared(_)) => {
            let one = share_nodes(rt, hints, m, minor, promoter, &[r]);
            one
        }
        (NodeAt::Shared(_), NodeAt::Minor(r)) => {
            let other = share_nodes(rt, hints, m, minor, promoter, &[r]);
            other
        }
        (NodeAt::Shared(_), NodeAt::Shared(_)) => {
            let none = share_nodes(rt, hints, m, minor, promoter, &[]);
            none
        }
    }
}

/// Drops all private records except those of the draft and of a tree in the making, which become
/// shared. They are held after the anchor, and nothing else is.
fn share_pair<R: Wait>(
    rt: &R,
    hints: &mut Hints<'_>,
    m: &mut Mutator<'_, Documents>,
    minor: &mut MinorHeap,
    promoter: &mut Promoter,
    draft: NodeAt,
    base: usize,
    tree: NodeAt,
) -> Result<(), HeapFull>
    requires sound { IsSound m.old minor.old draft base }
    requires node { IsTreeAt m.old minor.old tree }
    requires copies { minor.old.room ≤ promoter.old }
    requires ready { length m.old.seat.me.own.held + length minor.old.records + READY_ROOM
        ≤ m.old.seat.me.room }
    ensures shared { OnOk result (IsSound m.new minor.new (at.Shared 1) 2) }
    ensures term { OnOk result (node_term m.new minor.new (at.Shared 1)
        ≡ node_term m.old minor.old draft) }
    ensures node { OnOk result (IsTreeAt m.new minor.new (at.Shared 2)) }
    ensures tree { OnOk result (node_term m.new minor.new (at.Shared 2)
        ≡ node_term m.old minor.old tree) }
    ensures held { OnOk result (length m.new.seat.me.own.held ≡ 3) }
    ensures emptied { OnOk result (minor.new.records ≡ []) }
    ensures sound { OnErr result (IsSound m.new minor.new draft base) }
    ensures same { OnErr result (node_term m.new minor.new draft
        ≡ node_term m.old minor.old draft) }
    ensures full { OnErr result (Had (IsFull m.old.seat.me.shape.cells) (marks m.old)
        (marks m.new)) }
    ensures kept { OnErr result (length m.new.seat.me.own.held + length minor.new.records
        ≡ length m.old.seat.me.own.held + length minor.old.records) }
    ensures follows { Follows m.old m.new minor.old minor.new }
    ensures pass { m.new.seat.me.pass ≡ m.old.seat.me.pass }
    ensures promoter { promoter.new ≡ promoter.old }
    ensures queue { queue_of hints.new ≡ queue_of hints.old }
{
    let _ = base;
    match share_both(rt, hints, m, minor, promoter, draft, tree) {
        Ok(first) => {
            let held = m.held_len();
            let x = place_of(first, draft);
            let y = place_of(held - 1, tree);
            keep_pair(m, minor, x, y);
            Ok(())
        }
        Err(full) => Err(full),
    }
}

/// A collection with the draft and a tree in the making as its roots: the nursery is then empty,
/// and has nothing that aged.
fn collect_pair<R: Wait>(
    rt: &R,
    hints: &mut Hints<'_>,
    m: &mut Mutator<'_, Documents>,
    nursery: &mut AgedNursery,
    promoter: &mut Promoter,
    draft: NodeAt,
    base: usize,
    tree: NodeAt,
) -> Result<(), HeapFull>
    requires sound { IsSound m.old nursery.old.heap draft base }
    requires node { IsTreeAt m.old nursery.old.heap tree }
    requires copies { nursery.old.heap.room ≤ promoter.old }
    requires ready { length m.old.seat.me.own.held + length nursery.old.heap.records + READY_ROOM
        ≤ m.old.seat.me.room }
    ensures shared { OnOk result (IsSound m.new nursery.new.heap (at.Shared 1) 2) }
    ensures term { OnOk result (node_term m.new nursery.new.heap (at.Shared 1)
        ≡ node_term m.old nursery.old.heap draft) }
    ensures node { OnOk result (IsTreeAt m.new nursery.new.heap (at.Shared 2)) }
    ensures tree { OnOk result (node_term m.new nursery.new.heap (at.Shared 2)
        ≡ node_term m.old nursery.old.heap tree) }
    ensures held { OnOk result (length m.new.seat.me.own.held ≡ 3) }
    ensures emptied { OnOk result (length nursery.new.heap.records ≡ 0) }
    ensures aged { OnOk result (nursery.new.aged ≡ 0) }
    ensures records { nursery.new.records ≡ nursery.old.records }
    ensures sound { OnErr result (IsSound m.new nursery.new.heap draft base) }
    ensures same { OnErr result (node_term m.new nursery.new.heap draft
        ≡ node_term m.old nursery.old.heap draft) }
    ensures full { OnErr result (Had (IsFull m.old.seat.me.shape.cells) (marks m.old)
        (marks m.new)) }
    ensures kept { OnErr result (length m.new.seat.me.own.held + length nursery.new.heap.records
        ≡ length m.old.seat.me.own.held + length nursery.old.heap.records) }
    ensures follows { Follows m.old m.new nursery.old.heap nursery.new.heap }
    ensures pass { m.new.seat.me.pass ≡ m.old.seat.me.pass }
    ensures promoter { promoter.new ≡ promoter.old }
    ensures queue { queue_of hints.new ≡ queue_of hints.old }
{
    match share_pair(
        rt,
        hints,
        m,
        nursery.heap_mut(),
        promoter,
        draft,
        base,
        tree,
    ) {
        Ok(()) => {
            nursery.promoted();
            Ok(())
        }
        Err(full) => Err(full),
    }
}

/// Where there is too little room for one more edit, drops all private records except those of the
/// draft and of a tree in the making. If there are enough places, these age once, and become shared
/// only if that leaves too little room. The answer is the node where the tree is then.
pub(crate) fn make_room_for<R: Wait>(
    rt: &R,
    hints: &mut Hints<'_>,
    m: &mut Mutator<'_, Documents>,
    nursery: &mut AgedNursery,
    promoter: &mut Promoter,
    draft: &mut NodeAt,
    base: &mut usize,
    tree: NodeAt,
) -> Result<Option<NodeAt>, HeapFull>
    requires sound { IsSound m.old nursery.old.heap draft.old base.old }
    requires node { IsTreeAt m.old nursery.old.heap tree }
    requires whole { nursery.old.heap.room ≡ nursery.old.records }
    requires copies { nursery.old.heap.room ≤ promoter.old }
    requires ready { length m.old.seat.me.own.held + length nursery.old.heap.records + READY_ROOM
        ≤ m.old.seat.me.room }
    ensures sound { IsSound m.new nursery.new.heap draft.new base.new }
    ensures records { nursery.new.records ≡ nursery.old.records }
    ensures room { OnOk result (HasRoom m.new nursery.new.heap) }
    ensures unmoved { HasRoom m.old nursery.old.heap → result ≡ Ok None }
    ensures idle { IfOk result (λ moved. IsNone moved → (m.new ≡ m.old)
        × (nursery.new ≡ nursery.old) × (draft.new ≡ draft.old) × (base.new ≡ base.old)) }
    ensures node { IfOk result (λ moved. IfSome moved (IsTreeAt m.new nursery.new.heap)) }
    ensures tree { IfOk result (λ moved. IfSome moved (λ next. tree_at m.new nursery.new.heap next
        ≡ tree_at m.old nursery.old.heap tree)) }
    ensures full { OnErr result (Had (IsFull m.old.seat.me.shape.cells) (marks m.old)
        (marks m.new)) }
    ensures kept { length m.new.seat.me.own.held + length nursery.new.heap.records
        ≤ length m.old.seat.me.own.held + length nursery.old.heap.records }
    ensures term { node_term m.new nursery.new.heap draft.new
        ≡ node_term m.old nursery.old.heap draft.old }
    ensures small { base.new ≤ max base.old 2 }
    ensures follows { Follows m.old m.new nursery.old.heap nursery.new.heap }
    ensures pass { m.new.seat.me.pass ≡ m.old.seat.me.pass }
    ensures promoter { promoter.new ≡ promoter.old }
    ensures queue { queue_of hints.new ≡ queue_of hints.old }
{
    let records = nursery.heap().len() as usize;
    let places = BATCH_ROOM + records <= m.room();
    if places && EDIT_SPARE <= nursery.heap().spare() {
        return Ok(None);
    }
    let (next, enough) = age_both(nursery, draft, tree, places);
    if enough {
        return Ok(Some(next));
    }
    match collect_pair(rt, hints, m, nursery, promoter, *draft, *base, next) {
        Ok(()) => {
            *draft = NodeAt::Shared(1);
            *base = 2;
            Ok(Some(NodeAt::Shared(2)))
        }
        Err(full) => Err(full),
    }
}

//! The draft: a node becomes it, and an ageing or a minor collection moves it.
ghost use Rattle.std.specs.Prelude.{◌≡◌, ◌+◌, ◌<◌, ◌≤◌, OnErr, OnOk, length};
ghost use Rattle.std.specs.Prelude.{[], max, true};
ghost use Rattle.client_heap.specs.Carries.{Carries, Follows};
ghost use Rattle.client_heap.specs.Shows.{node_term};
ghost use Rattle.client_heap.specs.Sound.{IsCleared, IsSound, is_cleared};
ghost use Rattle.client_trees.specs.declared.at.NodeAt.TheVariants as at;
ghost use Rattle.client_trees.specs.Nodes.{IsTreeAt};
ghost use Rattle.free_cells.specs.Hints.{queue_of};
ghost use Rattle.trails.specs.Claims.{IsFull};
ghost use Rattle.trails.specs.Stretches.{Had};
ghost use Rattle.version_store.specs.Lasts.{marks};

use crate::ageing::age_draft;
use crate::collecting::{clear_records, share_node};
use crate::places::keep_alone;
use aged_nursery::AgedNursery;
use client_history::{Documents, EDIT_SPARE, MADE_ROOM, READY_ROOM, SETTLED_ROOM};
use client_trees::NodeAt;
use free_cells::Hints;
use minor_heap::{MinorHeap, MinorRef};
use mutator_seat::{HeapFull, Mutator};
use promotion::Promoter;
use std::sync::Wait;

/// Makes a node the draft. For a shared one the place after the anchor is enough; for a private one
/// all places that are held stay.
pub(crate) fn make_draft(
    m: &mut Mutator<'_, Documents>,
    minor: &MinorHeap,
    draft: &mut NodeAt,
    base: &mut usize,
    at: NodeAt,
)
    requires sound { IsSound m.old minor.now draft.old base.old }
    requires node { IsTreeAt m.old minor.now at }
    requires room { length m.old.seat.me.own.held + length minor.now.records + SETTLED_ROOM
        ≤ m.old.seat.me.room }
    ensures sound { IsSound m.new minor.now draft.new base.new }
    ensures term { node_term m.new minor.now draft.new ≡ node_term m.old minor.now at }
    ensures pass { m.new.seat.me.pass ≡ m.old.seat.me.pass }
    ensures held { length m.new.seat.me.own.held ≤ length m.old.seat.me.own.held }
    ensures follows { Follows m.old m.new minor.now minor.now }
{
    let held = m.held_len();
    match at {
        NodeAt::Shared(place) => {
            if 2 <= held {
                keep_alone(m, minor, place);
                *draft = NodeAt::Shared(1);
                *base = 2;
            } else {
                *draft = at;
                *base = held;
            }
        }
        NodeAt::Minor(_) => {
            *draft = at;
            *base = held;
        }
    }
}

/// Collects the records of a private draft, which becomes shared.
fn share_draft<R: Wait>(
    rt: &R,
    hints: &mut Hints<'_>,
    m: &mut Mutator<'_, Documents>,
    minor: &mut MinorHeap,
    promoter: &mut Promoter,
    r: MinorRef,
    base: usize,
) -> Result<(), HeapFull>
    requires sound { IsSound m.old minor.old (at.Minor r) base }
    requires copies { minor.old.room ≤ promoter.old }
    requires ready { length m.old.seat.me.own.held + length minor.old.records + READY_ROOM
        ≤ m.old.seat.me.room }
    ensures shared { OnOk result (IsSound m.new minor.new (at.Shared 1) 2) }
    ensures term { OnOk result (node_term m.new minor.new (at.Shared 1)
        ≡ node_term m.old minor.old (at.Minor r)) }
    ensures cleared { OnOk result (IsCleared m.new minor.new) }
    ensures emptied { OnOk result (minor.new.records ≡ []) }
    ensures sound { OnErr result (IsSound m.new minor.new (at.Minor r) base) }
    ensures same { OnErr result (node_term m.new minor.new (at.Minor r)
        ≡ node_term m.old minor.old (at.Minor r)) }
    ensures full { OnErr result (Had (IsFull m.old.seat.me.shape.cells) (marks m.old)
        (marks m.new)) }
    ensures kept { length m.new.seat.me.own.held + length minor.new.records
        ≤ length m.old.seat.me.own.held + length minor.old.records }
    ensures follows { Follows m.old m.new minor.old minor.new }
    ensures pass { m.new.seat.me.pass ≡ m.old.seat.me.pass }
    ensures promoter { promoter.new ≡ promoter.old }
    ensures queue { queue_of hints.new ≡ queue_of hints.old }
{
    let _ = base;
    match share_node(rt, hints, m, minor, promoter, r) {
        Ok(()) => Ok(()),
        Err(full) => Err(full),
    }
}

/// Drops all private records, with a shared draft.
fn clear_around<R: Wait>(
    rt: &R,
    hints: &mut Hints<'_>,
    m: &mut Mutator<'_, Documents>,
    minor: &mut MinorHeap,
    promoter: &mut Promoter,
    place: usize,
    base: usize,
) -> Result<(), HeapFull>
    requires sound { IsSound m.old minor.old (at.Shared place) base }
    requires few { base ≤ 2 }
    requires copies { minor.old.room ≤ promoter.old }
    requires ready { length m.old.seat.me.own.held + length minor.old.records + READY_ROOM
        ≤ m.old.seat.me.room }
    ensures sound { IsSound m.new minor.new (at.Shared place) base }
    ensures term { node_term m.new minor.new (at.Shared place)
        ≡ node_term m.old minor.old (at.Shared place) }
    ensures cleared { OnOk result (IsCleared m.new minor.new) }
    ensures emptied { OnOk result (minor.new.records ≡ []) }
    ensures full { OnErr result (Had (IsFull m.old.seat.me.shape.cells) (marks m.old)
        (marks m.new)) }
    ensures kept { length m.new.seat.me.own.held + length minor.new.records
        ≤ length m.old.seat.me.own.held + length minor.old.records }
    ensures follows { Follows m.old m.new minor.old minor.new }
    ensures pass { m.new.seat.me.pass ≡ m.old.seat.me.pass }
    ensures promoter { promoter.new ≡ promoter.old }
    ensures queue { queue_of hints.new ≡ queue_of hints.old }
{
    let _ = place;
    match clear_records(rt, hints, m, minor, promoter, base) {
        Ok(()) => Ok(()),
        Err(full) => Err(full),
    }
}

/// Holds a shared draft after the anchor, and nothing else.
fn draw_in(m: &mut Mutator<'_, Documents>, minor: &MinorHeap, place: usize, base: usize)
    requires sound { IsSound m.old minor.now (at.Shared place) base }
    requires many { 2 < base }
    ensures sound { IsSound m.new minor.now (at.Shared 1) 2 }
    ensures term { node_term m.new minor.now (at.Shared 1)
        ≡ node_term m.old minor.now (at.Shared place) }
    ensures held { length m.new.seat.me.own.held ≤ length m.old.seat.me.own.held }
    ensures follows { Follows m.old m.new minor.now minor.now }
    ensures pass { m.new.seat.me.pass ≡ m.old.seat.me.pass }
{
    let _ = base;
    keep_alone(m, minor, place);
}

/// Drops all private records except those of the draft, which become shared.
fn share_or_clear<R: Wait>(
    rt: &R,
    hints: &mut Hints<'_>,
    m: &mut Mutator<'_, Documents>,
    minor: &mut MinorHeap,
    promoter: &mut Promoter,
    draft: &mut NodeAt,
    base: &mut usize,
) -> Result<(), HeapFull>
    requires sound { IsSound m.old minor.old draft.old base.old }
    requires copies { minor.old.room ≤ promoter.old }
    requires ready { length m.old.seat.me.own.held + length minor.old.records + READY_ROOM
        ≤ m.old.seat.me.room }
    ensures sound { IsSound m.new minor.new draft.new base.new }
    ensures cleared { OnOk result (IsCleared m.new minor.new) }
    ensures emptied { OnOk result (minor.new.records ≡ []) }
    ensures full { OnErr result (Had (IsFull m.old.seat.me.shape.cells) (marks m.old)
        (marks m.new)) }
    ensures kept { length m.new.seat.me.own.held + length minor.new.records
        ≤ length m.old.seat.me.own.held + length minor.old.records }
    ensures term { node_term m.new minor.new draft.new ≡ node_term m.old minor.old draft.old }
    ensures small { base.new ≤ max base.old 2 }
    ensures follows { Follows m.old m.new minor.old minor.new }
    ensures pass { m.new.seat.me.pass ≡ m.old.seat.me.pass }
    ensures promoter { promoter.new ≡ promoter.old }
    ensures queue { queue_of hints.new ≡ queue_of hints.old }
{
    match *draft {
        NodeAt::Minor(r) => {
            share_draft(rt, hints, m, minor, promoter, r, *base)?;
            *draft = NodeAt::Shared(1);
            *base = 2;
            Ok(())
        }
        NodeAt::Shared(place) => {
            if 2 < *base {
                draw_in(m, minor, place, *base);
                *draft = NodeAt::Shared(1);
                *base = 2;
                let cleared = clear_around(rt, hints, m, minor, promoter, 1, 2);
                cleared
            } else {
                let cleared = clear_around(rt, hints, m, minor, promoter, place, *base);
                cleared
            }
        }
    }
}

/// A collection with the draft as its root: the nursery is then empty, and has nothing that aged.
fn collect_draft<R: Wait>(
    rt: &R,
    hints: &mut Hints<'_>,
    m: &mut Mutator<'_, Documents>,
    nursery: &mut AgedNursery,
    promoter: &mut Promoter,
    draft: &mut NodeAt,
    base: &mut usize,
) -> Result<(), HeapFull>
    requires sound { IsSound m.old nursery.old.heap draft.old base.old }
    requires copies { nursery.old.heap.room ≤ promoter.old }
    requires ready { length m.old.seat.me.own.held + length nursery.old.heap.records + READY_ROOM
        ≤ m.old.seat.me.room }
    ensures sound { IsSound m.new nursery.new.heap draft.new base.new }
    ensures cleared { OnOk result (IsCleared m.new nursery.new.heap) }
    ensures emptied { OnOk result (nursery.new.heap.records ≡ []) }
    ensures aged { OnOk result (nursery.new.aged ≡ 0) }
    ensures records { nursery.new.records ≡ nursery.old.records }
    ensures full { OnErr result (Had (IsFull m.old.seat.me.shape.cells) (marks m.old)
        (marks m.new)) }
    ensures kept { length m.new.seat.me.own.held + length nursery.new.heap.records
        ≤ length m.old.seat.me.own.held + length nursery.old.heap.records }
    ensures term { node_term m.new nursery.new.heap draft.new
        ≡ node_term m.old nursery.old.heap draft.old }
    ensures small { base.new ≤ max base.old 2 }
    ensures follows { Follows m.old m.new nursery.old.heap nursery.new.heap }
    ensures pass { m.new.seat.me.pass ≡ m.old.seat.me.pass }
    ensures promoter { promoter.new ≡ promoter.old }
    ensures queue { queue_of hints.new ≡ queue_of hints.old }
{
    match share_or_clear(rt, hints, m, nursery.heap_mut(), promoter, draft, base) {
        Ok(()) => {
            nursery.promoted();
            Ok(())
        }
        Err(full) => Err(full),
    }
}

/// Whether there is room for an edit, so that none has to be made.
pub(crate) fn has_room(m: &Mutator<'_, Documents>, minor: &MinorHeap) -> bool
    ensures room { result ≡ is_cleared m.now minor.now }
{
    let records = minor.len() as usize;
    MADE_ROOM + records <= m.room() && EDIT_SPARE <= minor.spare()
}

/// Where there is too little room for an edit, drops all private records except those of the draft.
/// If there are enough places, these age once, and become shared only if that leaves too little
/// room.
pub(crate) fn make_room<R: Wait>(
    rt: &R,
    hints: &mut Hints<'_>,
    m: &mut Mutator<'_, Documents>,
    nursery: &mut AgedNursery,
    promoter: &mut Promoter,
    draft: &mut NodeAt,
    base: &mut usize,
) -> Result<(), HeapFull>
    requires sound { IsSound m.old nursery.old.heap draft.old base.old }
    requires whole { nursery.old.heap.room ≡ nursery.old.records }
    requires copies { nursery.old.heap.room ≤ promoter.old }
    requires ready { length m.old.seat.me.own.held + length nursery.old.heap.records + READY_ROOM
        ≤ m.old.seat.me.room }
    ensures sound { IsSound m.new nursery.new.heap draft.new base.new }
    ensures records { nursery.new.records ≡ nursery.old.records }
    ensures cleared { OnOk result (IsCleared m.new nursery.new.heap) }
    ensures idle { IsCleared m.old nursery.old.heap → (m.new ≡ m.old)
        × (nursery.new ≡ nursery.old) × (draft.new ≡ draft.old) × (base.new ≡ base.old) }
    ensures full { OnErr result (Had (IsFull m.old.seat.me.shape.cells) (marks m.old)
        (marks m.new)) }
    ensures kept { length m.new.seat.me.own.held + length nursery.new.heap.records
        ≤ length m.old.seat.me.own.held + length nursery.old.heap.records }
    ensures term { node_term m.new nursery.new.heap draft.new
        ≡ node_term m.old nursery.old.heap draft.old }
    ensures small { base.new ≤ max base.old 2 }
    ensures follows { Follows m.old m.new nursery.old.heap nursery.new.heap }
    ensures pass { m.new.seat.me.pass ≡ m.old.seat.me.pass }
    ensures promoter { promoter.new ≡ promoter.old }
    ensures queue { queue_of hints.new ≡ queue_of hints.old }
{
    let records = nursery.heap().len() as usize;
    let places = MADE_ROOM + records <= m.room();
    if places && EDIT_SPARE <= nursery.heap().spare() {
        return Ok(());
    }
    if age_draft(nursery, draft, places) {
        return Ok(());
    }
    collect_draft(rt, hints, m, nursery, promoter, draft, base)
}

//! Minor collections: of the draft, of some nodes in addition to all that is held, and of nothing.
ghost use Rattle.std.specs.Prelude.{ℕ, ◌≡◌, ◌<◌, ◌≤◌, ◌+◌, [], IfOk, OnErr, OnOk};
ghost use Rattle.std.specs.Prelude.{length, slice_index_or, true};
ghost use Rattle.std.specs.List.{All};
ghost use Rattle.client_heap.specs.Carries.{Carries, Follows};
ghost use Rattle.client_heap.specs.Shared.{HoldsTerm};
ghost use Rattle.client_heap.specs.Shows.{node_term};
ghost use Rattle.client_trees.specs.declared.at.NodeAt.TheVariants as at;
ghost use Rattle.client_trees.specs.Nodes.{IsTreeAt};
ghost use Rattle.free_cells.specs.Hints.{queue_of};
ghost use Rattle.heap_rule.specs.Asks.{known_of};
ghost use Rattle.minor_heap.specs.declared.fields.MinorRef.{MinorRef};
ghost use Rattle.trails.specs.Claims.{IsFull};
ghost use Rattle.trails.specs.Stretches.{Had};
ghost use Rattle.version_store.specs.Lasts.{marks};

use client_history::Documents;
use free_cells::Hints;
use minor_heap::{MinorHeap, MinorRef};
use mutator_seat::{HeapFull, Mutator};
use promotion::Promoter;
use std::sync::Wait;

/// Copies what a private node reaches into the shared heap, and drops all private records. The copy
/// is held after the anchor, and nothing else is.
pub(crate) fn share_node<R: Wait>(
    rt: &R,
    hints: &mut Hints<'_>,
    m: &mut Mutator<'_, Documents>,
    minor: &mut MinorHeap,
    promoter: &mut Promoter,
    r: MinorRef,
) -> Result<(), HeapFull>
    requires inside { m.old.seat.me.presence.inside ≡ true }
    requires some { 1 ≤ length m.old.seat.me.own.held }
    requires node { IsTreeAt m.old minor.old (at.Minor r) }
    requires copies { minor.old.room ≤ promoter.old }
    requires room { length m.old.seat.me.own.held + length minor.old.records + 1
        ≤ m.old.seat.me.room }
    ensures node { OnOk result (IsTreeAt m.new minor.new (at.Shared 1)) }
    ensures term { OnOk result (node_term m.new minor.new (at.Shared 1)
        ≡ node_term m.old minor.old (at.Minor r)) }
    ensures held { OnOk result (length m.new.seat.me.own.held ≡ 2) }
    ensures emptied { OnOk result (minor.new.records ≡ []) }
    ensures full { OnErr result (Had (IsFull m.old.seat.me.shape.cells) (marks m.old)
        (marks m.new)) }
    ensures refused { OnErr result (Carries (length m.old.seat.me.own.held) m.old m.new minor.old
        minor.new) }
    ensures same { OnErr result (length m.new.seat.me.own.held ≡ length m.old.seat.me.own.held) }
    ensures unchanged { OnErr result (minor.new.records ≡ minor.old.records) }
    ensures follows { Follows m.old m.new minor.old minor.new }
    ensures pass { m.new.seat.me.pass ≡ m.old.seat.me.pass }
    ensures promoter { promoter.new ≡ promoter.old }
    ensures queue { queue_of hints.new ≡ queue_of hints.old }
{
    // What is held is what the trail left, and there are no more records than there is room for.
    let _held = m.held_len();
    let _records = minor.len();
    let _spare = minor.spare();
    match promoter.collect(rt, hints, m, minor, &[r], 1) {
        Ok(_) => Ok(()),
        Err(full) => Err(full),
    }
}

/// Drops all private records. Of the held list so many first places stay.
pub(crate) fn clear_records<R: Wait>(
    rt: &R,
    hints: &mut Hints<'_>,
    m: &mut Mutator<'_, Documents>,
    minor: &mut MinorHeap,
    promoter: &mut Promoter,
    base: usize,
) -> Result<(), HeapFull>
    requires inside { m.old.seat.me.presence.inside ≡ true }
    requires some { 1 ≤ base }
    requires kept { base ≤ length m.old.seat.me.own.held }
    requires copies { minor.old.room ≤ promoter.old }
    requires room { length m.old.seat.me.own.held + length minor.old.records
        ≤ m.old.seat.me.room }
    ensures known { OnOk result ((p : ℕ) → p < base
        → known_of m.new.seat.me p ≡ known_of m.old.seat.me p) }
    ensures held { OnOk result (length m.new.seat.me.own.held ≡ base) }
    ensures emptied { OnOk result (minor.new.records ≡ []) }
    ensures full { OnErr result (Had (IsFull m.old.seat.me.shape.cells) (marks m.old)
        (marks m.new)) }
    ensures refused { OnErr result (Carries (length m.old.seat.me.own.held) m.old m.new minor.old
        minor.new) }
    ensures same { OnErr result (length m.new.seat.me.own.held ≡ length m.old.seat.me.own.held) }
    ensures unchanged { OnErr result (minor.new.records ≡ minor.old.records) }
    ensures follows { Follows m.old m.new minor.old minor.new }
    ensures pass { m.new.seat.me.pass ≡ m.old.seat.me.pass }
    ensures promoter { promoter.new ≡ promoter.old }
    ensures queue { queue_of hints.new ≡ queue_of hints.old }
{
    let _held = m.held_len();
    let _records = minor.len();
    let _spare = minor.spare();
    match promoter.collect(rt, hints, m, minor, &[], base) {
        Ok(_) => Ok(()),
        Err(full) => Err(full),
    }
}

/// Copies what private nodes reach into the shared heap, and drops all private records. All that is
/// held stays, and the copies are held after it; the answer is the place of the first one.
pub(crate) fn share_nodes<R: Wait>(
    rt: &R,
    hints: &mut Hints<'_>,
    m: &mut Mutator<'_, Documents>,
    minor: &mut MinorHeap,
    promoter: &mut Promoter,
    roots: &[MinorRef],
) -> Result<usize, HeapFull>
    requires inside { m.old.seat.me.presence.inside ≡ true }
    requires some { 1 ≤ length m.old.seat.me.own.held }
    requires nodes { All (λ r. IsTreeAt m.old minor.old (at.Minor r)) roots.now }
    requires copies { minor.old.room ≤ promoter.old }
    requires room { length m.old.seat.me.own.held + length minor.old.records + length roots.now
        ≤ m.old.seat.me.room }
    ensures first { IfOk result (λ first. first ≡ length m.old.seat.me.own.held) }
    ensures copied { IfOk result (λ first. (k : ℕ) (r : MinorRef) → k < length roots.now
        → slice_index_or roots.now k r ≡ r
        → HoldsTerm m.new (first + k) (node_term m.old minor.old (at.Minor r))) }
    ensures known { OnOk result ((p : ℕ) → p < length m.old.seat.me.own.held
        → known_of m.new.seat.me p ≡ known_of m.old.seat.me p) }
    ensures held { OnOk result (length m.new.seat.me.own.held
        ≡ length m.old.seat.me.own.held + length roots.now) }
    ensures emptied { OnOk result (minor.new.records ≡ []) }
    ensures full { OnErr result (Had (IsFull m.old.seat.me.shape.cells) (marks m.old)
        (marks m.new)) }
    ensures refused { OnErr result (Carries (length m.old.seat.me.own.held) m.old m.new minor.old
        minor.new) }
    ensures same { OnErr result (length m.new.seat.me.own.held ≡ length m.old.seat.me.own.held) }
    ensures unchanged { OnErr result (minor.new.records ≡ minor.old.records) }
    ensures follows { Follows m.old m.new minor.old minor.new }
    ensures pass { m.new.seat.me.pass ≡ m.old.seat.me.pass }
    ensures promoter { promoter.new ≡ promoter.old }
    ensures queue { queue_of hints.new ≡ queue_of hints.old }
{
    let held = m.held_len();
    let _records = minor.len();
    let _spare = minor.spare();
    match promoter.collect(rt, hints, m, minor, roots, held) {
        Ok(first) => Ok(first),
        Err(full) => Err(full),
    }
}

//! The end of a copying: the copies of the roots are held after the first places, and no others.
ghost use Rattle.std.specs.Prelude.{◌≡◌, ◌<◌, ◌≤◌, ◌+◌, All, length, map, slice_index_or, true};
ghost use Rattle.heap_rule.specs.Lore.{known_at};
ghost use Rattle.mutator_seat.specs.Bound.{IsBound, bound, held_cells};
ghost use Rattle.promotion.specs.Copying.{Appended};
ghost use Rattle.promotion.specs.Promoting.{knows_term};
ghost use Rattle.minor_heap.specs.Nursery.{Stands};
ghost use Rattle.record_copying.specs.Settling.{Settled};

use heap_rule::Keeping;
use heap_table::CellHeap;
use minor_heap::{MinorHeap, MinorRef};
use mutator_seat::{MutSeat, operations};

/// Holds the copy of each root at one more place, in their order.
fn hold_copies<P: Keeping>(
    heap: &CellHeap<P>,
    seat: &mut MutSeat<P>,
    places: &[usize],
    roots: &[MinorRef],
)
    requires seat { IsBound heap.now seat.old }
    requires inside { seat.old.me.presence.inside ≡ true }
    requires fit { length seat.old.me.own.held ≡ length seat.old.me.known }
    requires room { length seat.old.me.own.held + length roots.now ≤ seat.old.me.room }
    requires stand { All (λ r. r.number < length places.now) roots.now }
    requires there { All (λ r. slice_index_or places.now r.number 0
        < length seat.old.me.own.held) roots.now }
    ensures seat { IsBound heap.now seat.new }
    ensures appended { Appended (bound heap.now seat.old)
        (map (λ r. slice_index_or (held_cells (bound heap.now seat.old))
        (slice_index_or places.now r.number 0) 0) roots.now)
        (map (λ r. known_at seat.old.me.known (slice_index_or places.now r.number 0)) roots.now)
        (bound heap.now seat.new) }
{
    for r in roots {
        let held = seat.held_len();
        operations::keep(heap, seat, held, places[r.number as usize], 1);
    }
}

/// Holds the first `base` places, and then the copy of each root.
pub(crate) fn settle<P: Keeping>(
    heap: &CellHeap<P>,
    seat: &mut MutSeat<P>,
    minor: &MinorHeap,
    places: &[usize],
    roots: &[MinorRef],
    base: usize,
)
    requires seat { IsBound heap.now seat.old }
    requires inside { seat.old.me.presence.inside ≡ true }
    requires some { 1 ≤ base }
    requires base { base ≤ length seat.old.me.own.held }
    requires room { length seat.old.me.own.held + length roots.now ≤ seat.old.me.room }
    requires fits { length minor.now.records ≤ length places.now }
    requires stand { All (Stands minor.now.records) roots.now }
    requires copied { All (λ r. known_at seat.old.me.known (slice_index_or places.now r.number 0)
        ≡ knows_term (bound heap.now seat.old) minor.now.records r) roots.now }
    ensures seat { IsBound heap.now seat.new }
    ensures settled { Settled (bound heap.now seat.old) minor.now.records roots.now base
        (bound heap.now seat.new) }
{
    let _ = minor;
    let first = seat.held_len();
    hold_copies(heap, seat, places, roots);
    operations::keep(heap, seat, base, first, roots.len());
}

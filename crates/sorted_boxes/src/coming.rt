//! Coming in and going out, and claiming the cells that boxes are made of.
//!
//! A mutator that comes in holds the anchor alone.
ghost use Rattle.std.specs.Prelude.{◌≡◌, ◌<◌, ◌+◌, ◌∷◌, ◌++◌, [], false, length, true};
ghost use Rattle.std.specs.Prelude.{IfNone, IfSome};
ghost use Rattle.mutator_seat.specs.Bound.{IsBound, bound, held_cells};
ghost use Rattle.mutator_seat.specs.Claims.{Claimed, HasMode};
ghost use Rattle.mutator_seat.specs.Stretches.{Calm};
ghost use Rattle.record_copying.specs.Copies.{StillRecords};
ghost use Rattle.sorted_boxes.specs.Calls.{KeepsPlaces};
ghost use Rattle.sorted_boxes.specs.Holding.{HoldsAs, HoldsRaw};
ghost use Rattle.sorted_boxes.specs.Sorts.{Serves, SortList};
ghost use Rattle.trails.specs.Claims.{AllUsed};

use heap_table::CellHeap;
use mutator_seat::{MutSeat, operations};
use sorted_rule::Sorting;

/// Comes in, and holds the anchor alone.
pub fn begin(heap: &CellHeap<Sorting>, seat: &mut MutSeat<Sorting>)
    requires seat { IsBound heap.now seat.old }
    requires out { seat.old.me.presence.inside ≡ false }
    ensures seat { IsBound heap.now seat.new }
    ensures held { (sorts : SortList) → Serves sorts seat.old.me → HoldsAs sorts seat.new.me }
    ensures alone { length seat.new.me.own.held ≡ 1 }
    ensures pass { seat.new.me.pass ≡ seat.old.me.pass }
    ensures room { seat.new.me.room ≡ seat.old.me.room }
{
    operations::begin(heap, seat);
}

/// Goes out, and holds nothing.
pub fn end(heap: &CellHeap<Sorting>, seat: &mut MutSeat<Sorting>)
    requires seat { IsBound heap.now seat.old }
    requires inside { seat.old.me.presence.inside ≡ true }
    ensures seat { IsBound heap.now seat.new }
    ensures out { seat.new.me.presence.inside ≡ false }
    ensures serves { (sorts : SortList) → Serves sorts seat.old.me → Serves sorts seat.new.me }
    ensures pass { seat.new.me.pass ≡ seat.old.me.pass }
    ensures room { seat.new.me.room ≡ seat.old.me.room }
{
    operations::end(heap, seat);
}

/// Looks at the control, before cells are tried. One look serves many tries.
pub fn look(heap: &CellHeap<Sorting>, seat: &mut MutSeat<Sorting>)
    requires seat { IsBound heap.now seat.old }
    requires inside { seat.old.me.presence.inside ≡ true }
    ensures seat { IsBound heap.now seat.new }
    ensures mode { HasMode (bound heap.now seat.new) }
    ensures held { (sorts : SortList) → HoldsAs sorts seat.old.me → HoldsAs sorts seat.new.me }
    ensures records { StillRecords seat.old.me.known seat.new.me.known }
    ensures keeps { KeepsPlaces (bound heap.now seat.old) (bound heap.now seat.new) }
{
    let _ = operations::look_once(heap, seat);
}

/// Claims this cell, if it is free: its place, which is the next one.
pub fn try_cell(heap: &CellHeap<Sorting>, seat: &mut MutSeat<Sorting>, cell: u32) -> Option<usize>
    requires seat { IsBound heap.now seat.old }
    requires inside { seat.old.me.presence.inside ≡ true }
    requires mode { HasMode (bound heap.now seat.old) }
    requires cell { cell < seat.old.me.shape.cells }
    requires room { length seat.old.me.own.held < seat.old.me.room }
    ensures seat { IsBound heap.now seat.new }
    ensures claimed { IfSome result (λ place. Claimed (bound heap.now seat.old) place
        (bound heap.now seat.new)) }
    ensures got { IfSome result (λ place. (sorts : SortList) → HoldsAs sorts seat.old.me
        → HoldsRaw sorts (bound heap.now seat.new) place) }
    ensures place { IfSome result (λ place. place ≡ length seat.old.me.own.held) }
    ensures longer { IfSome result (λ place. length seat.new.me.own.held
        ≡ length seat.old.me.own.held + 1) }
    ensures cells { IfSome result (λ place. held_cells (bound heap.now seat.new)
        ≡ held_cells (bound heap.now seat.old) ++ cell ∷ []) }
    ensures pass { seat.new.me.pass ≡ seat.old.me.pass }
    ensures room { seat.new.me.room ≡ seat.old.me.room }
    ensures records { StillRecords seat.old.me.known seat.new.me.known }
    ensures used { IfNone result (Calm (AllUsed cell (cell + 1)) (bound heap.now seat.old)
        (bound heap.now seat.new)) }
    ensures held { IfNone result ((sorts : SortList) → HoldsAs sorts seat.old.me
        → HoldsAs sorts seat.new.me) }
    ensures keeps { IfNone result (KeepsPlaces (bound heap.now seat.old)
        (bound heap.now seat.new)) }
    ensures mode { IfNone result (HasMode (bound heap.now seat.new)) }
{
    match operations::try_cell(heap, seat, cell) {
        Some(place) => Some(place),
        None => None,
    }
}

//! What the mutator of a seat without more does: it comes in, and it goes.
ghost use Rattle.std.specs.Prelude.{◌≡◌, true};
ghost use Rattle.heap_rule.specs.Asks.{MayComeIn};
ghost use Rattle.heap_table.specs.Seats.{IsSeatOf};
ghost use Rattle.mutator_seat.specs.Bound.{IsBound};

use cell_heap::{CellHeap, MutSeat};
use heap_rule::NoRule;
use mutator_seat::operations;

/// The mutator comes in.
pub(crate) fn come_in(heap: &CellHeap<NoRule>, seat: &mut MutSeat<NoRule>)
    requires seat { IsSeatOf heap.now seat.old }
    requires may { MayComeIn seat.old.me }
    ensures seat { IsBound heap.now seat.new }
    ensures inside { seat.new.me.presence.inside ≡ true }
{
    // Who is out has begun no write.
    let _inside = seat.is_in();
    operations::begin(heap, seat);
}

/// The mutator goes out and is over.
pub(crate) fn leave(heap: &CellHeap<NoRule>, seat: &mut MutSeat<NoRule>)
    requires seat { IsBound heap.now seat.old }
    requires inside { seat.old.me.presence.inside ≡ true }
    ensures seat { IsSeatOf heap.now seat.new }
    ensures over { seat.new.me.presence.over ≡ true }
{
    operations::end(heap, seat);
    operations::finish(heap, seat);
}

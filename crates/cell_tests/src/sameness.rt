//! Whether two places hold one cell, asked by the bare seat and by a mutator.
ghost use Rattle.std.specs.Prelude.{◌≡◌, ◌≤◌, true};
ghost use Rattle.heap_rule.specs.Asks.{MayComeIn};
ghost use Rattle.heap_table.specs.Seats.{IsSeatOf};

use cell_heap::{CellHeap, MutSeat};
use heap_rule::NoRule;
use mutator_seat::Mutator;

/// Comes in, holds the anchor once more, asks of both places, and goes out.
pub(crate) fn ask_of_anchor(heap: &CellHeap<NoRule>, seat: &mut MutSeat<NoRule>) -> bool
    requires seat { IsSeatOf heap.now seat.old }
    requires may { MayComeIn seat.old.me }
    requires room { 2 ≤ seat.old.me.room }
    ensures seat { IsSeatOf heap.now seat.new }
    ensures may { MayComeIn seat.new.me }
    ensures room { 2 ≤ seat.new.me.room }
    ensures same { result ≡ true }
{
    // Who is out has begun no write.
    let _inside = seat.is_in();
    seat.begin(heap);
    seat.keep(heap, 1, 0, 1);
    let same = seat.is_same(heap, 0, 1);
    seat.end(heap);
    same
}

/// The same by a mutator, which is over then.
pub(crate) fn ask_and_leave(
    heap: &CellHeap<NoRule>,
    seat: MutSeat<NoRule>,
) -> (MutSeat<NoRule>, bool)
    requires seat { IsSeatOf heap.now seat }
    requires may { MayComeIn seat.me }
    requires room { 2 ≤ seat.me.room }
    ensures seat { IsSeatOf heap.now result.0 }
    ensures over { result.0.me.presence.over ≡ true }
    ensures same { result.1 ≡ true }
{
    let mut mutator = Mutator::new(heap, seat);
    mutator.begin();
    mutator.keep(1, 0, 1);
    let same = mutator.is_same(0, 1);
    mutator.end();
    (mutator.finish(), same)
}

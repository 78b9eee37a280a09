//! Safe points, which places are kept, and whether two of them hold one cell.
ghost use Rattle.std.specs.Prelude.{◌≡◌, ◌<◌, ◌≤◌, ◌+◌, ◌==◌, ◌⊎◌, length, true};
ghost use Rattle.std.specs.List.{CopiedTo, SameBelow};
ghost use Rattle.heap_rule.specs.Asks.{target};
ghost use Rattle.mutator_seat.specs.Bound.{IsBound, bound};
ghost use Rattle.mutator_seat.specs.Stretches.{Calm, LookAndAnswer};
ghost use Rattle.record_copying.specs.Copies.{StillRecords};
ghost use Rattle.sorted_boxes.specs.Calls.{Drops, KeepsPlaces, KeepsRecords, Narrows};
ghost use Rattle.sorted_boxes.specs.Holding.{HoldsAs, HoldsFirst};
ghost use Rattle.sorted_boxes.specs.Sorts.{SortList};

use crate::sorts::Sorts;
use heap_table::CellHeap;
use mutator_seat::{MutSeat, operations};
use sorted_rule::Sorting;

/// Answers a handshake, if one is asked for: whether it was.
pub fn answer(heap: &CellHeap<Sorting>, seat: &mut MutSeat<Sorting>) -> bool
    requires seat { IsBound heap.now seat.old }
    requires inside { seat.old.me.presence.inside ≡ true }
    ensures seat { IsBound heap.now seat.new }
    ensures held { (sorts : SortList) → HoldsAs sorts seat.old.me → HoldsAs sorts seat.new.me }
    ensures records { StillRecords seat.old.me.known seat.new.me.known }
    ensures calm { Calm (LookAndAnswer seat.old.me.number seat.old.me.presence.status result)
        (bound heap.now seat.old) (bound heap.now seat.new) }
{
    operations::answer(heap, seat)
}

/// Keeps the first places, the anchor's at least, and then so many from a place on. The anchor is
/// not held twice.
pub fn keep(
    heap: &CellHeap<Sorting>,
    seat: &mut MutSeat<Sorting>,
    sorts: &mut Sorts,
    first: usize,
    place: usize,
    count: usize,
)
    requires seat { IsBound heap.now seat.old }
    requires held { HoldsAs sorts.old seat.old.me }
    requires some { 1 ≤ first }
    requires kept { first ≤ length seat.old.me.own.held }
    requires others { place + count ≤ length seat.old.me.own.held }
    requires apart { (1 ≤ place) ⊎ (count ≡ 0) }
    requires room { first + count ≤ seat.old.me.room }
    ensures seat { IsBound heap.now seat.new }
    ensures held { HoldsAs sorts.new seat.new.me }
    ensures narrows { Narrows first place count (bound heap.now seat.old)
        (bound heap.now seat.new) }
    ensures same { SameBelow sorts.old.records sorts.new.records first }
    ensures moved { CopiedTo sorts.old.records sorts.new.records place first count }
    ensures records { KeepsRecords first seat.old.me.known seat.new.me.known }
{
    // As much is known as there are places, and there is room for them.
    let _held = seat.held_len();
    let _room = seat.room();
    operations::keep(heap, seat, first, place, count);
    sorts.keep(first, place, count);
}

/// Keeps the first places alone.
pub(crate) fn cut(heap: &CellHeap<Sorting>, seat: &mut MutSeat<Sorting>, sorts: &Sorts, n: usize)
    requires seat { IsBound heap.now seat.old }
    requires first { HoldsFirst n sorts.now seat.old.me }
    requires some { 1 ≤ n }
    ensures seat { IsBound heap.now seat.new }
    ensures held { HoldsAs sorts.now seat.new.me }
    ensures many { length seat.new.me.own.held ≡ n }
    ensures drops { Drops n (bound heap.now seat.old) (bound heap.now seat.new) }
    ensures records { KeepsRecords n seat.old.me.known seat.new.me.known }
{
    let _held = seat.held_len();
    operations::cut(heap, seat, n);
}

/// Whether two places hold one cell.
pub fn is_same(
    heap: &CellHeap<Sorting>,
    seat: &mut MutSeat<Sorting>,
    first: usize,
    second: usize,
) -> bool
    requires seat { IsBound heap.now seat.old }
    requires inside { seat.old.me.presence.inside ≡ true }
    requires first { first < length seat.old.me.own.held }
    requires second { second < length seat.old.me.own.held }
    ensures seat { IsBound heap.now seat.new }
    ensures held { (sorts : SortList) → HoldsAs sorts seat.old.me → HoldsAs sorts seat.new.me }
    ensures records { StillRecords seat.old.me.known seat.new.me.known }
    ensures same { result ≡ (target seat.old.me first == target seat.old.me second) }
    ensures keeps { KeepsPlaces (bound heap.now seat.old) (bound heap.now seat.new) }
{
    // As much is known as there are places.
    let _held = seat.held_len();
    operations::is_same(heap, seat, first, second)
}

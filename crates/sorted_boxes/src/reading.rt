//! Reading one field of a box or of a record, or all five.
ghost use Rattle.std.specs.Prelude.{◌≡◌, ◌<◌, ◌≤◌, ◌+◌, length};
ghost use Rattle.std.specs.List.{SameBelow};
ghost use Rattle.mutator_seat.specs.Bound.{IsBound, bound};
ghost use Rattle.record_copying.specs.Copies.{StillRecords};
ghost use Rattle.sorted_boxes.specs.Calls.{AreOfTheirSort, Gave, GaveAll};
ghost use Rattle.sorted_boxes.specs.Holding.{HoldsAs};
ghost use Rattle.sorted_boxes.specs.Sorts.{IsOfTheSort, sort_found};

use crate::sorts::Sorts;
use heap_table::CellHeap;
use mutator_seat::{MutSeat, Value, operations};
use sorted_rule::Sorting;
use std::marker::Brand;

/// Reads a field. The cell that it finds is held at the next place, for which there has to be room:
/// what the field of a box names, and a record of a record's field. One load.
pub fn read(
    heap: &CellHeap<Sorting>,
    seat: &mut MutSeat<Sorting>,
    sorts: &mut Sorts,
    place: usize,
    field: usize,
) -> Value
    requires seat { IsBound heap.now seat.old }
    requires held { HoldsAs sorts.old seat.old.me }
    requires there { place < length seat.old.me.own.held }
    requires field { field ≤ 4 }
    requires room { length seat.old.me.own.held < seat.old.me.room }
    ensures seat { IsBound heap.now seat.new }
    ensures held { HoldsAs sorts.new seat.new.me }
    ensures gave { Gave (bound heap.now seat.old) place field result (bound heap.now seat.new) }
    ensures sort { IsOfTheSort sorts.new (sort_found sorts.old place field) result }
    ensures same { SameBelow sorts.old.records sorts.new.records (length seat.old.me.own.held) }
    ensures records { StillRecords seat.old.me.known seat.new.me.known }
{
    let next = seat.held_len();
    let found = operations::read::<Sorting, Brand>(heap, seat, place, field);
    sorts.set(next, sorts.finds_record(place, field));
    found
}

/// Reads all fields, one after the other.
pub fn read_all(
    heap: &CellHeap<Sorting>,
    seat: &mut MutSeat<Sorting>,
    sorts: &mut Sorts,
    place: usize,
) -> [Value; 5]
    requires seat { IsBound heap.now seat.old }
    requires held { HoldsAs sorts.old seat.old.me }
    requires there { place < length seat.old.me.own.held }
    requires room { length seat.old.me.own.held + 5 ≤ seat.old.me.room }
    ensures seat { IsBound heap.now seat.new }
    ensures held { HoldsAs sorts.new seat.new.me }
    ensures gave { GaveAll (bound heap.now seat.old) place result (bound heap.now seat.new) }
    ensures sorts { AreOfTheirSort sorts.old place result sorts.new }
    ensures same { SameBelow sorts.old.records sorts.new.records (length seat.old.me.own.held) }
    ensures records { StillRecords seat.old.me.known seat.new.me.known }
{
    let first = read(heap, seat, sorts, place, 0);
    let second = read(heap, seat, sorts, place, 1);
    let third = read(heap, seat, sorts, place, 2);
    let fourth = read(heap, seat, sorts, place, 3);
    let fifth = read(heap, seat, sorts, place, 4);
    [first, second, third, fourth, fifth]
}

//! Showing a new box: it names itself in its first field, and from then on is known as a box that
//! others may know. Then its first value stands there in the place of its name.
ghost use Rattle.std.specs.Prelude.{◌≡◌, ◌<◌, ◌≤◌, false, length, true};
ghost use Rattle.std.specs.Bool.{OnFalse, OnTrue};
ghost use Rattle.mutator_events.specs.declared.values.Value.TheVariants as values;
ghost use Rattle.mutator_seat.specs.Bound.{IsBound, bound};
ghost use Rattle.record_copying.specs.Copies.{StillRecords};
ghost use Rattle.sorted_boxes.specs.Calls.{Drops, KeepsPlaces, KeepsRecords, SetsFirst};
ghost use Rattle.sorted_boxes.specs.Holding.{HoldsAs, HoldsFirst, HoldsNew};
ghost use Rattle.sorted_boxes.specs.Sorts.{IsValue, holds_record, is_fit};
ghost use Rattle.sorted_rule.specs.Open.{sort_at};
ghost use Rattle.sorted_rule.specs.Sorts.{Boxes, sort_of};

use crate::placing::cut;
use crate::sorts::Sorts;
use crate::writing::swap;
use heap_table::CellHeap;
use mutator_seat::{MutSeat, Value, operations};
use sorted_rule::Sorting;
use std::marker::Brand;

/// The field by which a new box is shown.
const FIRST: usize = 0;

/// Names the new box at the last place in its own first field. Nobody else knows it, so it holds
/// null there still, and the exchange is made.
pub(crate) fn show(
    heap: &CellHeap<Sorting>,
    seat: &mut MutSeat<Sorting>,
    sorts: &Sorts,
    fresh: usize,
)
    requires seat { IsBound heap.now seat.old }
    requires new { HoldsNew fresh sorts.now seat.old.me }
    requires boxed { holds_record sorts.now fresh ≡ false }
    requires sort { sort_at seat.old.me 1 0 ≡ Boxes }
    ensures seat { IsBound heap.now seat.new }
    ensures held { HoldsAs sorts.now seat.new.me }
    ensures named { SetsFirst fresh values.Null (values.Held fresh) (bound heap.now seat.old)
        (bound heap.now seat.new) }
    ensures keeps { KeepsPlaces (bound heap.now seat.old) (bound heap.now seat.new) }
    ensures records { StillRecords seat.old.me.known seat.new.me.known }
{
    match operations::update::<Sorting, Brand>(
        heap,
        seat,
        fresh,
        FIRST,
        Value::Null,
        Value::Held(fresh),
    ) {
        Ok(()) => (),
        Err(_) => (),
    }
}

/// Puts the value in the place of the name of the box at the last place: whether it did. If not the
/// box is dropped.
pub(crate) fn put_first(
    heap: &CellHeap<Sorting>,
    seat: &mut MutSeat<Sorting>,
    sorts: &Sorts,
    place: usize,
    value: Value,
) -> bool
    requires seat { IsBound heap.now seat.old }
    requires held { HoldsAs sorts.now seat.old.me }
    requires behind { 1 ≤ place }
    requires there { place < length seat.old.me.own.held }
    requires boxed { holds_record sorts.now place ≡ false }
    requires value { IsValue (length seat.old.me.own.held) value }
    requires fits { is_fit sorts.now (sort_of sorts.now.boxes place 0) value ≡ true }
    ensures seat { IsBound heap.now seat.new }
    ensures held { HoldsAs sorts.now seat.new.me }
    ensures put { OnTrue result (SetsFirst place (values.Held place) value
        (bound heap.now seat.old) (bound heap.now seat.new)) }
    ensures keeps { OnTrue result (KeepsPlaces (bound heap.now seat.old)
        (bound heap.now seat.new)) }
    ensures lost { OnFalse result (Drops place (bound heap.now seat.old)
        (bound heap.now seat.new)) }
    ensures records { KeepsRecords place seat.old.me.known seat.new.me.known }
{
    if swap(heap, seat, sorts, place, FIRST, Value::Held(place), value) {
        true
    } else {
        drop_new(heap, seat, sorts, place)
    }
}

/// Holds what stands before the new box alone.
fn drop_new(
    heap: &CellHeap<Sorting>,
    seat: &mut MutSeat<Sorting>,
    sorts: &Sorts,
    fresh: usize,
) -> bool
    requires seat { IsBound heap.now seat.old }
    requires first { HoldsFirst fresh sorts.now seat.old.me }
    requires some { 1 ≤ fresh }
    ensures seat { IsBound heap.now seat.new }
    ensures held { HoldsAs sorts.now seat.new.me }
    ensures dropped { Drops fresh (bound heap.now seat.old) (bound heap.now seat.new) }
    ensures records { KeepsRecords fresh seat.old.me.known seat.new.me.known }
    ensures lost { result ≡ false }
{
    cut(heap, seat, sorts, fresh);
    false
}

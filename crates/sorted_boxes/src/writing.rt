//! Writing a field of a box, whatever it holds, and exchanging what it holds.
ghost use Rattle.std.specs.Prelude.{◌≡◌, ◌<◌, ◌≤◌, false, length, true};
ghost use Rattle.std.specs.Bool.{OnFalse, OnTrue};
ghost use Rattle.cell_words.specs.declared.fields.Field.{Field};
ghost use Rattle.core_machine.specs.Words.{same_field};
ghost use Rattle.heap_rule.specs.NoRule.{no_field_is_fixed};
ghost use Rattle.heap_rule.specs.Steps.{same_pass};
ghost use Rattle.mutator_events.specs.Values.{field_at};
ghost use Rattle.mutator_seat.specs.Bound.{IsBound, bound};
ghost use Rattle.mutator_seat.specs.Writes.{Updated};
ghost use Rattle.record_copying.specs.Copies.{StillRecords};
ghost use Rattle.sorted_boxes.specs.Calls.{AllRefused, KeepsPlaces, Refused, Stored, Wrote};
ghost use Rattle.sorted_boxes.specs.Holding.{HoldsAs};
ghost use Rattle.sorted_boxes.specs.Sorts.{IsValue, holds_record, is_fit};
ghost use Rattle.sorted_rule.specs.Sorted.{HoldsSorted};
ghost use Rattle.sorted_rule.specs.Sorts.{sort_of};

use crate::sorts::Sorts;
use heap_table::CellHeap;
use mutator_seat::{MutSeat, Value, operations};
use sorted_rule::Sorting;
use std::marker::Brand;

/// How often a write is tried. A try is refused in one moment of a cycle alone, and then only if
/// another thread wrote the field in between.
const TRIES: u32 = 64;

/// Stores a value in a field of a box, whatever is there: whether it was written. If not, each try
/// was refused, and nothing has changed. For a moment one more place is needed.
pub fn write(
    heap: &CellHeap<Sorting>,
    seat: &mut MutSeat<Sorting>,
    sorts: &Sorts,
    place: usize,
    field: usize,
    value: Value,
) -> bool
    requires seat { IsBound heap.now seat.old }
    requires held { HoldsAs sorts.now seat.old.me }
    requires there { place < length seat.old.me.own.held }
    requires boxed { holds_record sorts.now place ≡ false }
    requires field { field ≤ 4 }
    requires value { IsValue (length seat.old.me.own.held) value }
    requires fits { is_fit sorts.now (sort_of sorts.now.boxes place field) value ≡ true }
    requires room { length seat.old.me.own.held < seat.old.me.room }
    ensures seat { IsBound heap.now seat.new }
    ensures held { HoldsAs sorts.now seat.new.me }
    ensures records { StillRecords seat.old.me.known seat.new.me.known }
    ensures keeps { KeepsPlaces (bound heap.now seat.old) (bound heap.now seat.new) }
    ensures wrote { OnTrue result (Wrote place field value (bound heap.now seat.old)
        (bound heap.now seat.new)) }
    ensures refused { OnFalse result (AllRefused place field value (bound heap.now seat.old)
        (bound heap.now seat.new)) }
{
    for _tried in 0..TRIES {
        if write_once(heap, seat, sorts, place, field, value) {
            return true;
        }
    }
    false
}

/// One try of it.
fn write_once(
    heap: &CellHeap<Sorting>,
    seat: &mut MutSeat<Sorting>,
    sorts: &Sorts,
    place: usize,
    field: usize,
    value: Value,
) -> bool
    requires seat { IsBound heap.now seat.old }
    requires held { HoldsAs sorts.now seat.old.me }
    requires there { place < length seat.old.me.own.held }
    requires boxed { holds_record sorts.now place ≡ false }
    requires field { field ≤ 4 }
    requires value { IsValue (length seat.old.me.own.held) value }
    requires fits { is_fit sorts.now (sort_of sorts.now.boxes place field) value ≡ true }
    requires room { length seat.old.me.own.held < seat.old.me.room }
    ensures seat { IsBound heap.now seat.new }
    ensures held { HoldsAs sorts.now seat.new.me }
    ensures records { StillRecords seat.old.me.known seat.new.me.known }
    ensures keeps { KeepsPlaces (bound heap.now seat.old) (bound heap.now seat.new) }
    ensures stored { OnTrue result (Stored place field value (bound heap.now seat.old)
        (bound heap.now seat.new)) }
    ensures refused { OnFalse result (Refused place field value (bound heap.now seat.old)
        (bound heap.now seat.new)) }
{
    // As much is known as there are places.
    let _held = seat.held_len();
    match operations::store::<Sorting, Brand, Brand>(heap, seat, place, field, value) {
        Ok(()) => true,
        Err(_) => false,
    }
}

/// Exchanges what a field of a box holds for another value, if it holds the expected one: whether
/// it did. One compare and exchange; no place more is needed.
pub fn swap(
    heap: &CellHeap<Sorting>,
    seat: &mut MutSeat<Sorting>,
    sorts: &Sorts,
    place: usize,
    field: usize,
    expected: Value,
    value: Value,
) -> bool
    requires seat { IsBound heap.now seat.old }
    requires held { HoldsAs sorts.now seat.old.me }
    requires there { place < length seat.old.me.own.held }
    requires boxed { holds_record sorts.now place ≡ false }
    requires field { field ≤ 4 }
    requires expected { IsValue (length seat.old.me.own.held) expected }
    requires value { IsValue (length seat.old.me.own.held) value }
    requires fits { is_fit sorts.now (sort_of sorts.now.boxes place field) value ≡ true }
    ensures seat { IsBound heap.now seat.new }
    ensures held { HoldsAs sorts.now seat.new.me }
    ensures records { StillRecords seat.old.me.known seat.new.me.known }
    ensures keeps { KeepsPlaces (bound heap.now seat.old) (bound heap.now seat.new) }
    ensures made { OnTrue result (Updated HoldsSorted no_field_is_fixed same_pass
        (bound heap.now seat.old) place field expected value
        (field_at seat.old.me.own.held expected) (bound heap.now seat.new)) }
    ensures moved { OnFalse result ((found : Field)
        × (same_field found (field_at seat.old.me.own.held expected) ≡ false)
        × Updated HoldsSorted no_field_is_fixed same_pass (bound heap.now seat.old) place field
        expected value found (bound heap.now seat.new)) }
{
    match operations::update::<Sorting, Brand>(heap, seat, place, field, expected, value) {
        Ok(()) => true,
        Err(_) => false,
    }
}

//! Making a box of a raw cell, and showing it at once.
ghost use Rattle.std.specs.Prelude.{◌≡◌, ◌≤◌, false};
ghost use Rattle.std.specs.Bool.{OnFalse, OnTrue};
ghost use Rattle.std.specs.List.{SameBelow};
ghost use Rattle.cell_making.specs.Makes.{Filled, MayFillAll, value_at};
ghost use Rattle.mutator_events.specs.declared.values.Value.TheVariants as values;
ghost use Rattle.mutator_seat.specs.Bound.{IsBound, bound};
ghost use Rattle.record_copying.specs.Copies.{StillRecords};
ghost use Rattle.sorted_boxes.specs.Calls.{Drops, Made, Sealed};
ghost use Rattle.sorted_boxes.specs.Holding.{HoldsAs, HoldsNew, HoldsRaw};
ghost use Rattle.sorted_boxes.specs.Sorts.{AreFit, AreValues, holds_record};

use crate::showing::{put_first, show};
use crate::sorts::Sorts;
use heap_table::CellHeap;
use mutator_seat::{MutSeat, Value, operations};
use promotion::is_filled_in;
use sorted_rule::Sorting;
use std::marker::Brand;

/// Makes a box with these fields of the raw cell at the last place, which was claimed just now, and
/// shows it: whether it did. The box is held at that place then. It did not if the first field was
/// written by somebody else between two writes of this call, which nobody can who does not know the
/// box: the cell is dropped then, and is free again after a cycle.
pub fn make(
    heap: &CellHeap<Sorting>,
    seat: &mut MutSeat<Sorting>,
    sorts: &mut Sorts,
    place: usize,
    fields: [Value; 5],
) -> bool
    requires seat { IsBound heap.now seat.old }
    requires raw { HoldsRaw sorts.old (bound heap.now seat.old) place }
    requires values { AreValues place fields }
    requires fit { AreFit sorts.old fields }
    requires boxes { 1 ≤ sorts.old.boxes }
    ensures seat { IsBound heap.now seat.new }
    ensures held { HoldsAs sorts.new seat.new.me }
    ensures boxed { holds_record sorts.new place ≡ false }
    ensures same { SameBelow sorts.old.records sorts.new.records place }
    ensures records { StillRecords seat.old.me.known seat.new.me.known }
    ensures made { OnTrue result (Made place fields (bound heap.now seat.old)
        (bound heap.now seat.new)) }
    ensures lost { OnFalse result (Drops place (bound heap.now seat.old)
        (bound heap.now seat.new)) }
{
    // The place is one of those that there is room for.
    let _room = seat.room();
    sorts.set(place, false);
    make_shown(heap, seat, sorts, place, fields)
}

/// Makes it where its place is told to hold a box.
fn make_shown(
    heap: &CellHeap<Sorting>,
    seat: &mut MutSeat<Sorting>,
    sorts: &Sorts,
    place: usize,
    fields: [Value; 5],
) -> bool
    requires seat { IsBound heap.now seat.old }
    requires raw { HoldsRaw sorts.now (bound heap.now seat.old) place }
    requires boxed { holds_record sorts.now place ≡ false }
    requires values { AreValues place fields }
    requires fit { AreFit sorts.now fields }
    requires boxes { 1 ≤ sorts.now.boxes }
    ensures seat { IsBound heap.now seat.new }
    ensures held { HoldsAs sorts.now seat.new.me }
    ensures records { StillRecords seat.old.me.known seat.new.me.known }
    ensures made { OnTrue result (Made place fields (bound heap.now seat.old)
        (bound heap.now seat.new)) }
    ensures lost { OnFalse result (Drops place (bound heap.now seat.old)
        (bound heap.now seat.new)) }
{
    let mut others = fields;
    others[0] = Value::Null;
    make_box(heap, seat, sorts, place, others);
    show(heap, seat, sorts, place);
    put_first(heap, seat, sorts, place, fields[0])
}

/// Fills and seals the raw cell.
fn make_box(
    heap: &CellHeap<Sorting>,
    seat: &mut MutSeat<Sorting>,
    sorts: &Sorts,
    place: usize,
    fields: [Value; 5],
)
    requires seat { IsBound heap.now seat.old }
    requires raw { HoldsRaw sorts.now (bound heap.now seat.old) place }
    requires values { AreValues place fields }
    requires fit { AreFit sorts.now fields }
    ensures seat { IsBound heap.now seat.new }
    ensures made { Sealed place fields (bound heap.now seat.old) (bound heap.now seat.new) }
    ensures new { value_at fields 0 ≡ values.Null → HoldsNew place sorts.now seat.new.me }
    ensures records { StillRecords seat.old.me.known seat.new.me.known }
{
    fill_fields(heap, seat, place, fields);
    operations::seal_box(heap, seat, place);
}

/// Fills the fields. A raw cell's fields are null as they are.
fn fill_fields(
    heap: &CellHeap<Sorting>,
    seat: &mut MutSeat<Sorting>,
    place: usize,
    fields: [Value; 5],
)
    requires seat { IsBound heap.now seat.old }
    requires may { MayFillAll (bound heap.now seat.old) place fields }
    ensures seat { IsBound heap.now seat.new }
    ensures filled { Filled (bound heap.now seat.old) place fields 5 (bound heap.now seat.new) }
{
    for i in 0..5 {
        if is_filled_in(fields[i]) {
            operations::fill::<Sorting, Brand>(heap, seat, place, i, fields[i]);
        }
    }
}

//! What a mutator does with fields for C: each function tests what it is given, and answers why it
//! did nothing.
ghost use Rattle.std.specs.Prelude.{◌≡◌, ◌<◌, ◌≤◌, ◌⊎◌, false, length, true};
ghost use Rattle.std.specs.Bool.{OnFalse, OnTrue};
ghost use Rattle.heap_c.specs.Calls.{ComparesPlaces, ReadsAllFields, ReadsField, SwapsField};
ghost use Rattle.heap_c.specs.Calls.{WritesField};
ghost use Rattle.heap_c.specs.Holding.{IsMine, held_by};
ghost use Rattle.record_copying.specs.Copies.{StillRecords};
ghost use Rattle.sorted_boxes.specs.Sorts.{holds_record};

use crate::codes::Code;
use crate::rule::Rule;
use crate::turns::Turns;
use crate::values::{FIELDS, FIRST, HeapVal, is_field, is_place, value_of};
use heap_table::CellHeap;
use mutator_events::MutSeat;
use mutator_seat::Value;
use sorted_boxes::{Sorts, placing, reading, writing};

/// Reads one field.
pub(crate) fn read(
    heap: &CellHeap<Rule>,
    seat: &mut MutSeat<Rule>,
    sorts: &mut Sorts,
    place: usize,
    field: usize,
) -> Result<Value, Code>
    requires mine { IsMine heap.now seat.old sorts.old }
    ensures mine { IsMine heap.now seat.new sorts.new }
    ensures records { StillRecords seat.old.me.known seat.new.me.known }
    ensures longer { length seat.old.me.known ≤ length seat.new.me.known }
    ensures inside { seat.new.me.presence.inside ≡ seat.old.me.presence.inside }
    ensures read { ReadsField (held_by heap.now seat.old sorts.old)
        (held_by heap.now seat.new sorts.new) place field result }
{
    if !seat.is_in() {
        return Err(Code::NotIn);
    }
    if !is_place(place, seat.held_len()) {
        return Err(Code::BadPlace);
    }
    if !is_field(field) {
        return Err(Code::BadField);
    }
    if seat.room() < 1 {
        return Err(Code::NoRoom);
    }
    let value = reading::read(heap, seat, sorts, place, field);
    let _held = seat.held_len();
    Ok(value)
}

/// Reads all five.
pub(crate) fn read_all(
    heap: &CellHeap<Rule>,
    seat: &mut MutSeat<Rule>,
    sorts: &mut Sorts,
    place: usize,
    five: usize,
) -> Result<[Value; 5], Code>
    requires mine { IsMine heap.now seat.old sorts.old }
    ensures mine { IsMine heap.now seat.new sorts.new }
    ensures records { StillRecords seat.old.me.known seat.new.me.known }
    ensures longer { length seat.old.me.known ≤ length seat.new.me.known }
    ensures inside { seat.new.me.presence.inside ≡ seat.old.me.presence.inside }
    ensures read { ReadsAllFields (held_by heap.now seat.old sorts.old)
        (held_by heap.now seat.new sorts.new) place five result }
{
    if !seat.is_in() {
        return Err(Code::NotIn);
    }
    if place < FIRST || seat.held_len() <= place {
        return Err(Code::BadPlace);
    }
    if five != FIELDS {
        return Err(Code::BadSize);
    }
    if seat.room() < FIELDS {
        return Err(Code::NoRoom);
    }
    let values = reading::read_all(heap, seat, sorts, place);
    let _held = seat.held_len();
    Ok(values)
}

/// Whether a box is held at this place, where so many are held.
fn is_box(sorts: &Sorts, place: usize, held: usize) -> bool
    ensures there { OnTrue result (place < held) }
    ensures boxed { OnTrue result (holds_record sorts.now place ≡ false) }
    ensures none { OnFalse result ((held ≤ place) ⊎ (holds_record sorts.now place ≡ true)) }
{
    place < held && !sorts.is_record(place)
}

/// Stores a value in a field, whatever stands there.
pub(crate) fn write(
    heap: &CellHeap<Rule>,
    seat: &mut MutSeat<Rule>,
    sorts: &Sorts,
    turns: Turns,
    place: usize,
    field: usize,
    val: HeapVal,
) -> Code
    requires mine { IsMine heap.now seat.old sorts.now }
    ensures mine { IsMine heap.now seat.new sorts.now }
    ensures records { StillRecords seat.old.me.known seat.new.me.known }
    ensures longer { length seat.old.me.known ≤ length seat.new.me.known }
    ensures inside { seat.new.me.presence.inside ≡ seat.old.me.presence.inside }
    ensures wrote { WritesField turns (held_by heap.now seat.old sorts.now)
        (held_by heap.now seat.new sorts.now) place field val result }
{
    if !seat.is_in() {
        return Code::NotIn;
    }
    if !is_box(sorts, place, seat.held_len()) {
        return Code::BadPlace;
    }
    if !is_field(field) {
        return Code::BadField;
    }
    if seat.room() < 1 {
        return Code::NoRoom;
    }
    let Some(value) = value_of(turns, val, seat.held_len()) else {
        return Code::BadValue;
    };
    if !sorts.fits(place, field, value) {
        return Code::BadValue;
    }
    let written = writing::write(heap, seat, sorts, place, field, value);
    let _held = seat.held_len();
    if written { Code::Ok } else { Code::Moved }
}

/// Exchanges what a field holds, if it is as expected.
pub(crate) fn swap(
    heap: &CellHeap<Rule>,
    seat: &mut MutSeat<Rule>,
    sorts: &Sorts,
    turns: Turns,
    place: usize,
    field: usize,
    was: HeapVal,
    now: HeapVal,
) -> Code
    requires mine { IsMine heap.now seat.old sorts.now }
    ensures mine { IsMine heap.now seat.new sorts.now }
    ensures records { StillRecords seat.old.me.known seat.new.me.known }
    ensures longer { length seat.old.me.known ≤ length seat.new.me.known }
    ensures inside { seat.new.me.presence.inside ≡ seat.old.me.presence.inside }
    ensures swapped { SwapsField turns (held_by heap.now seat.old sorts.now)
        (held_by heap.now seat.new sorts.now) place field was now result }
{
    if !seat.is_in() {
        return Code::NotIn;
    }
    if !is_box(sorts, place, seat.held_len()) {
        return Code::BadPlace;
    }
    if !is_field(field) {
        return Code::BadField;
    }
    let Some(expected) = value_of(turns, was, seat.held_len()) else {
        return Code::BadValue;
    };
    let Some(value) = value_of(turns, now, seat.held_len()) else {
        return Code::BadValue;
    };
    if !sorts.fits(place, field, value) {
        return Code::BadValue;
    }
    let swapped = writing::swap(heap, seat, sorts, place, field, expected, value);
    let _held = seat.held_len();
    if swapped { Code::Ok } else { Code::Moved }
}

/// Whether two places hold one cell.
pub(crate) fn is_same(
    heap: &CellHeap<Rule>,
    seat: &mut MutSeat<Rule>,
    sorts: &Sorts,
    one: usize,
    other: usize,
) -> Result<bool, Code>
    requires mine { IsMine heap.now seat.old sorts.now }
    ensures mine { IsMine heap.now seat.new sorts.now }
    ensures records { StillRecords seat.old.me.known seat.new.me.known }
    ensures longer { length seat.old.me.known ≤ length seat.new.me.known }
    ensures inside { seat.new.me.presence.inside ≡ seat.old.me.presence.inside }
    ensures same { ComparesPlaces (held_by heap.now seat.old sorts.now)
        (held_by heap.now seat.new sorts.now) one other result }
{
    let _ = sorts;
    if !seat.is_in() {
        return Err(Code::NotIn);
    }
    if !is_place(one, seat.held_len()) || !is_place(other, seat.held_len()) {
        return Err(Code::BadPlace);
    }
    let same = placing::is_same(heap, seat, one, other);
    let _held = seat.held_len();
    Ok(same)
}

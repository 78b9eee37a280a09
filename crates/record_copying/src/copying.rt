//! One copy: the fields of a raw cell are filled as those of a record, and it is sealed.
ghost use Rattle.std.specs.Prelude.{◌≡◌, ◌<◌, ◌≤◌, length, ℕ};
ghost use Rattle.minor_heap.specs.Nursery.{Stands, field_at};
ghost use Rattle.mutator_seat.specs.Bound.{Bound, IsBound, bound};
ghost use Rattle.mutator_seat.specs.Claims.{Claimed};
ghost use Rattle.promotion.specs.Copying.{Copied, IsReady, copied_term, value_of};
ghost use Rattle.record_copying.specs.Raw.{HoldsRaw};

use heap_rule::Keeping;
use heap_table::CellHeap;
use minor_heap::{MinorField, MinorHeap, MinorRef};
use mutator_seat::{MutSeat, Value, operations};
use promotion::is_filled_in;
use std::marker::Brand;

/// A field of a record, where the copies of older records stand at these places.
fn value_of(minor: &MinorHeap, places: &[usize], r: MinorRef, i: usize) -> Value
    requires stands { Stands minor.now.records r }
    requires older { r.number ≤ length places.now }
    requires range { i < 5 }
    ensures value { result ≡ value_of places.now (field_at minor.now.records r.number i) }
{
    match minor.field(r, i) {
        MinorField::Null => Value::Null,
        MinorField::Num(number) => Value::Num(number),
        MinorField::Minor(older) => Value::Held(places[older.number as usize]),
        MinorField::Shared(place) => Value::Held(place),
    }
}

/// Makes the raw cell at a place the copy of a record. The copies of the records that this one
/// names stand at these places.
pub fn copy_record<P: Keeping>(
    heap: &CellHeap<P>,
    seat: &mut MutSeat<P>,
    minor: &MinorHeap,
    places: &[usize],
    r: MinorRef,
    place: usize,
)
    requires seat { IsBound heap.now seat.old }
    requires raw { HoldsRaw place (bound heap.now seat.old) }
    requires stands { Stands minor.now.records r }
    requires older { r.number ≤ length places.now }
    requires ready { (i : ℕ) → i < 5 → IsReady seat.old.me.known
        (value_of places.now (field_at minor.now.records r.number i)) }
    ensures seat { IsBound heap.now seat.new }
    ensures copied { (before : Bound P) → Claimed before place (bound heap.now seat.old)
        → Copied before place
        (copied_term before.seat.me.known places.now minor.now.records r.number)
        (bound heap.now seat.new) }
{
    for i in 0..5 {
        let value = value_of(minor, places, r, i);
        if is_filled_in(value) {
            operations::fill::<P, Brand>(heap, seat, place, i, value);
        }
    }
    operations::seal_record(heap, seat, place);
}

//! What a mutator does for C: each function tests what it is given, and answers why it did nothing.
ghost use Rattle.std.specs.Prelude.{◌≡◌, ◌<◌, ◌≤◌, false, if◌then◌else◌, length, ℕ};
ghost use Rattle.std.specs.Bool.{OnFalse, OnTrue};
ghost use Rattle.cell_making.specs.Makes.{value_at};
ghost use Rattle.heap_c.specs.Calls.{ComesIn, GoesOut, KeepsChosen, MakesAt, MakesCell};
ghost use Rattle.heap_c.specs.Calls.{ReachesSafePoint};
ghost use Rattle.heap_c.specs.Holding.{IsMine, held_by};
ghost use Rattle.record_copying.specs.Copies.{StillRecords};
ghost use Rattle.sorted_boxes.specs.Calls.{KeepsRecords};
ghost use Rattle.heap_c.specs.declared.codes.Code.TheVariants as code;
ghost use Rattle.sorted_boxes.specs.Sorts.{AreFit, is_fit};
ghost use Rattle.sorted_rule.specs.Sorts.{sort_of};

use crate::claiming::{Waiting, claim};
use crate::codes::Code;
use crate::rule::Rule;
use crate::sharing::Sharing;
use crate::turns::Turns;
use crate::values::{FIELDS, FIRST, HeapVal, values_of};
use heap_table::CellHeap;
use mutator_events::MutSeat;
use mutator_seat::Value;
use sorted_boxes::{Sorts, coming, making, placing};

/// Comes in.
pub(crate) fn begin(heap: &CellHeap<Rule>, seat: &mut MutSeat<Rule>, sorts: &Sorts) -> Code
    requires mine { IsMine heap.now seat.old sorts.now }
    ensures mine { IsMine heap.now seat.new sorts.now }
    ensures begun { ComesIn (held_by heap.now seat.old sorts.now)
        (held_by heap.now seat.new sorts.now) result }
{
    let _ = sorts;
    if seat.is_in() {
        return Code::IsIn;
    }
    coming::begin(heap, seat);
    Code::Ok
}

/// Goes out.
pub(crate) fn end(heap: &CellHeap<Rule>, seat: &mut MutSeat<Rule>, sorts: &Sorts) -> Code
    requires mine { IsMine heap.now seat.old sorts.now }
    ensures mine { IsMine heap.now seat.new sorts.now }
    ensures answer { result ≡ (if seat.old.me.presence.inside then code.Ok else code.NotIn) }
    ensures ended { GoesOut (held_by heap.now seat.old sorts.now)
        (held_by heap.now seat.new sorts.now) result }
{
    let _ = sorts;
    if !seat.is_in() {
        return Code::NotIn;
    }
    coming::end(heap, seat);
    Code::Ok
}

/// The safe point.
pub(crate) fn answer(heap: &CellHeap<Rule>, seat: &mut MutSeat<Rule>, sorts: &Sorts) -> Code
    requires mine { IsMine heap.now seat.old sorts.now }
    ensures mine { IsMine heap.now seat.new sorts.now }
    ensures records { StillRecords seat.old.me.known seat.new.me.known }
    ensures longer { length seat.old.me.known ≤ length seat.new.me.known }
    ensures inside { seat.new.me.presence.inside ≡ seat.old.me.presence.inside }
    ensures answer { result ≡ (if seat.old.me.presence.inside then code.Ok else code.NotIn) }
    ensures answered { ReachesSafePoint (held_by heap.now seat.old sorts.now)
        (held_by heap.now seat.new sorts.now) result }
{
    let _ = sorts;
    if !seat.is_in() {
        return Code::NotIn;
    }
    let _was_asked = placing::answer(heap, seat);
    let _held = seat.held_len();
    Code::Ok
}

/// Keeps the first n places, and after them so many from a place on.
pub(crate) fn keep(
    heap: &CellHeap<Rule>,
    seat: &mut MutSeat<Rule>,
    sorts: &mut Sorts,
    n: usize,
    place: usize,
    count: usize,
) -> Code
    requires mine { IsMine heap.now seat.old sorts.old }
    ensures mine { IsMine heap.now seat.new sorts.new }
    ensures records { KeepsRecords n seat.old.me.known seat.new.me.known }
    ensures longer { (m : ℕ) → m ≤ n → m ≤ length seat.old.me.known
        → m ≤ length seat.new.me.known }
    ensures inside { seat.new.me.presence.inside ≡ seat.old.me.presence.inside }
    ensures kept { KeepsChosen (held_by heap.now seat.old sorts.old)
        (held_by heap.now seat.new sorts.new) n place count result }
{
    if !seat.is_in() {
        return Code::NotIn;
    }
    let held = seat.held_len();
    let room = seat.room();
    if n < FIRST || held < n {
        return Code::BadPlace;
    }
    if count == 0 {
        placing::keep(heap, seat, sorts, n, 0, 0);
        let _held = seat.held_len();
        return Code::Ok;
    }
    if place < FIRST || held < place || held - place < count {
        return Code::BadPlace;
    }
    let dropped = held - n;
    if dropped < count && room < count - dropped {
        return Code::NoRoom;
    }
    placing::keep(heap, seat, sorts, n, place, count);
    let _held = seat.held_len();
    Code::Ok
}

/// Whether each of five values may stand in its field of a new box.
fn are_fit(sorts: &Sorts, fields: [Value; 5]) -> bool
    ensures fit { OnTrue result (AreFit sorts.now fields) }
    ensures unfit { OnFalse result ((i : ℕ) × (i < 5)
        × (is_fit sorts.now (sort_of sorts.now.boxes 1 i) (value_at fields i) ≡ false)) }
{
    sorts.fits(1, 0, fields[0])
        && sorts.fits(1, 1, fields[1])
        && sorts.fits(1, 2, fields[2])
        && sorts.fits(1, 3, fields[3])
        && sorts.fits(1, 4, fields[4])
}

/// Makes a box with these fields. A handshake that is asked for is answered first.
pub(crate) fn make(
    heap: &CellHeap<Rule>,
    seat: &mut MutSeat<Rule>,
    sorts: &mut Sorts,
    sharing: &Sharing,
    wait: &mut Waiting,
    turns: Turns,
    vals: &[HeapVal],
) -> Result<usize, Code>
    requires mine { IsMine heap.now seat.old sorts.old }
    ensures mine { IsMine heap.now seat.new sorts.new }
    ensures records { StillRecords seat.old.me.known seat.new.me.known }
    ensures longer { length seat.old.me.known ≤ length seat.new.me.known }
    ensures inside { seat.new.me.presence.inside ≡ seat.old.me.presence.inside }
    ensures made { MakesCell turns (held_by heap.now seat.old sorts.old)
        (held_by heap.now seat.new sorts.new) vals.now result }
{
    if !seat.is_in() {
        return Err(Code::NotIn);
    }
    if FIELDS < vals.len() {
        return Err(Code::BadSize);
    }
    if seat.room() < 1 {
        return Err(Code::NoRoom);
    }
    let Some(fields) = values_of(turns, vals, seat.held_len()) else {
        return Err(Code::BadValue);
    };
    if !are_fit(sorts, fields) {
        return Err(Code::BadValue);
    }
    let place = claim(heap, seat, sharing, wait)?;
    let made = making::make(heap, seat, sorts, place, fields);
    let _held = seat.held_len();
    if made { Ok(place) } else { Err(Code::Wait) }
}

/// Makes a box, and keeps the first places and it alone.
pub(crate) fn make_at(
    heap: &CellHeap<Rule>,
    seat: &mut MutSeat<Rule>,
    sorts: &mut Sorts,
    sharing: &Sharing,
    wait: &mut Waiting,
    turns: Turns,
    first: usize,
    vals: &[HeapVal],
) -> Code
    requires mine { IsMine heap.now seat.old sorts.old }
    ensures mine { IsMine heap.now seat.new sorts.new }
    ensures records { KeepsRecords first seat.old.me.known seat.new.me.known }
    ensures longer { (m : ℕ) → m ≤ first → m ≤ length seat.old.me.known
        → m ≤ length seat.new.me.known }
    ensures inside { seat.new.me.presence.inside ≡ seat.old.me.presence.inside }
    ensures made { MakesAt turns (held_by heap.now seat.old sorts.old)
        (held_by heap.now seat.new sorts.new) first vals.now result }
{
    if !seat.is_in() {
        return Code::NotIn;
    }
    if first < FIRST || seat.held_len() < first {
        return Code::BadPlace;
    }
    match make(heap, seat, sorts, sharing, wait, turns, vals) {
        Ok(place) => {
            let _room = seat.room();
            placing::keep(heap, seat, sorts, first, place, 1);
            let _held = seat.held_len();
            Code::Ok
        }
        Err(code) => code,
    }
}

//! What a mutator that has private records does with its places: they stay in force.
ghost use Rattle.std.specs.Prelude.{◌≡◌, ◌<◌, ◌≤◌, ◌+◌, ◌⊎◌, if◌then◌else◌, length, true};
ghost use Rattle.heap_c.specs.Calls.{ComesIn, ComparesPlaces, KeepsChosen};
ghost use Rattle.heap_c.specs.Calls.{MakesCell, ReachesSafePoint, ReadsAllFields, ReadsField};
ghost use Rattle.heap_c.specs.Calls.{SwapsField, WritesField};
ghost use Rattle.heap_c.specs.Holding.{IsOwned, NotesCopies, held_by, owned_by};
ghost use Rattle.heap_c.specs.Keeps.{EndsAll, KeepsAbove, MakesAbove};
ghost use Rattle.heap_c.specs.Walking.{MayStay};
ghost use Rattle.heap_c.specs.declared.codes.Code.TheVariants as code;

use crate::claiming::Waiting;
use crate::codes::Code;
use crate::rule::Rule;
use crate::sharing::Sharing;
use crate::turns::Turns;
use crate::values::HeapVal;
use crate::{fields, using};
use heap_table::CellHeap;
use local_records::LocalRecords;
use mutator_events::MutSeat;
use mutator_seat::Value;
use sorted_boxes::{Sorts, placing};

/// Comes in.
pub(crate) fn begin(
    heap: &CellHeap<Rule>,
    seat: &mut MutSeat<Rule>,
    sorts: &Sorts,
    local: &LocalRecords,
) -> Code
    requires owned { IsOwned heap.now seat.old sorts.now local.now }
    ensures owned { IsOwned heap.now seat.new sorts.now local.now }
    ensures begun { ComesIn (held_by heap.now seat.old sorts.now)
        (held_by heap.now seat.new sorts.now) result }
{
    let _ = local;
    using::begin(heap, seat, sorts)
}

/// Goes out, and lets all private records go, and their copies.
pub(crate) fn end(
    heap: &CellHeap<Rule>,
    seat: &mut MutSeat<Rule>,
    sorts: &Sorts,
    local: &mut LocalRecords,
    copied: &mut bool,
) -> Code
    requires owned { IsOwned heap.now seat.old sorts.now local.old }
    requires noted { NotesCopies copied.old local.old }
    ensures owned { IsOwned heap.now seat.new sorts.now local.new }
    ensures noted { NotesCopies copied.new local.new }
    ensures answer { result ≡ (if seat.old.me.presence.inside then code.Ok else code.NotIn) }
    ensures ended { EndsAll (owned_by heap.now seat.old sorts.now local.old)
        (owned_by heap.now seat.new sorts.now local.new) result }
{
    let code = using::end(heap, seat, sorts);
    if code == Code::Ok {
        local.clear();
        *copied = false;
    }
    code
}

/// The safe point.
pub(crate) fn answer(
    heap: &CellHeap<Rule>,
    seat: &mut MutSeat<Rule>,
    sorts: &Sorts,
    local: &LocalRecords,
) -> Code
    requires owned { IsOwned heap.now seat.old sorts.now local.now }
    ensures owned { IsOwned heap.now seat.new sorts.now local.now }
    ensures answer { result ≡ (if seat.old.me.presence.inside then code.Ok else code.NotIn) }
    ensures answered { ReachesSafePoint (held_by heap.now seat.old sorts.now)
        (held_by heap.now seat.new sorts.now) result }
{
    let _ = local;
    using::answer(heap, seat, sorts)
}

/// Keeps the first n places, and after them so many from a place on.
pub(crate) fn keep(
    heap: &CellHeap<Rule>,
    seat: &mut MutSeat<Rule>,
    sorts: &mut Sorts,
    local: &LocalRecords,
    n: usize,
    place: usize,
    count: usize,
) -> Code
    requires owned { IsOwned heap.now seat.old sorts.old local.now }
    ensures owned { IsOwned heap.now seat.new sorts.new local.now }
    ensures kept { KeepsAbove (owned_by heap.now seat.old sorts.old local.now)
        (owned_by heap.now seat.new sorts.new local.now) n place count result }
{
    if n < local.named() {
        return Code::BadPlace;
    }
    using::keep(heap, seat, sorts, n, place, count)
}

/// How many places are held. Those may be kept alone at any time later.
pub(crate) fn base(
    heap: &CellHeap<Rule>,
    seat: &MutSeat<Rule>,
    sorts: &Sorts,
    local: &LocalRecords,
) -> usize
    requires owned { IsOwned heap.now seat.now sorts.now local.now }
    ensures len { result ≡ length seat.now.me.own.held }
    ensures stays { MayStay result (owned_by heap.now seat.now sorts.now local.now) }
{
    let _ = heap;
    let _ = sorts;
    let _ = local;
    seat.held_len()
}

/// Keeps the first places, which are all that private records name, and after them so many from a
/// place on.
pub(crate) fn narrow(
    heap: &CellHeap<Rule>,
    seat: &mut MutSeat<Rule>,
    sorts: &mut Sorts,
    local: &LocalRecords,
    base: usize,
    place: usize,
    count: usize,
)
    requires owned { IsOwned heap.now seat.old sorts.old local.now }
    requires stays { MayStay base (owned_by heap.now seat.old sorts.old local.now) }
    requires inside { seat.old.me.presence.inside ≡ true }
    requires others { place + count ≤ length seat.old.me.own.held }
    requires after { (base ≤ place) ⊎ (count ≡ 0) }
    ensures owned { IsOwned heap.now seat.new sorts.new local.now }
    ensures kept { KeepsChosen (held_by heap.now seat.old sorts.old)
        (held_by heap.now seat.new sorts.new) base place count code.Ok }
{
    let _ = local;
    let _room = seat.room();
    placing::keep(heap, seat, sorts, base, place, count);
    let _held = seat.held_len();
}

/// Makes a box.
pub(crate) fn make(
    heap: &CellHeap<Rule>,
    seat: &mut MutSeat<Rule>,
    sorts: &mut Sorts,
    local: &LocalRecords,
    sharing: &Sharing,
    wait: &mut Waiting,
    turns: Turns,
    vals: &[HeapVal],
) -> Result<usize, Code>
    requires owned { IsOwned heap.now seat.old sorts.old local.now }
    ensures owned { IsOwned heap.now seat.new sorts.new local.now }
    ensures made { MakesCell turns (held_by heap.now seat.old sorts.old)
        (held_by heap.now seat.new sorts.new) vals.now result }
{
    let _ = local;
    using::make(heap, seat, sorts, sharing, wait, turns, vals)
}

/// Makes a box, and keeps the first places and it alone.
pub(crate) fn make_at(
    heap: &CellHeap<Rule>,
    seat: &mut MutSeat<Rule>,
    sorts: &mut Sorts,
    local: &LocalRecords,
    sharing: &Sharing,
    wait: &mut Waiting,
    turns: Turns,
    first: usize,
    vals: &[HeapVal],
) -> Code
    requires owned { IsOwned heap.now seat.old sorts.old local.now }
    ensures owned { IsOwned heap.now seat.new sorts.new local.now }
    ensures made { MakesAbove (owned_by heap.now seat.old sorts.old local.now)
        (owned_by heap.now seat.new sorts.new local.now) turns first vals.now result }
{
    if first < local.named() {
        return Code::BadPlace;
    }
    using::make_at(heap, seat, sorts, sharing, wait, turns, first, vals)
}

/// Reads one field.
pub(crate) fn read(
    heap: &CellHeap<Rule>,
    seat: &mut MutSeat<Rule>,
    sorts: &mut Sorts,
    local: &LocalRecords,
    place: usize,
    field: usize,
) -> Result<Value, Code>
    requires owned { IsOwned heap.now seat.old sorts.old local.now }
    ensures owned { IsOwned heap.now seat.new sorts.new local.now }
    ensures read { ReadsField (held_by heap.now seat.old sorts.old)
        (held_by heap.now seat.new sorts.new) place field result }
{
    let _ = local;
    fields::read(heap, seat, sorts, place, field)
}

/// Reads all five.
pub(crate) fn read_all(
    heap: &CellHeap<Rule>,
    seat: &mut MutSeat<Rule>,
    sorts: &mut Sorts,
    local: &LocalRecords,
    place: usize,
    five: usize,
) -> Result<[Value; 5], Code>
    requires owned { IsOwned heap.now seat.old sorts.old local.now }
    ensures owned { IsOwned heap.now seat.new sorts.new local.now }
    ensures read { ReadsAllFields (held_by heap.now seat.old sorts.old)
        (held_by heap.now seat.new sorts.new) place five result }
{
    let _ = local;
    fields::read_all(heap, seat, sorts, place, five)
}

/// Stores a value in a field.
pub(crate) fn write(
    heap: &CellHeap<Rule>,
    seat: &mut MutSeat<Rule>,
    sorts: &Sorts,
    local: &LocalRecords,
    turns: Turns,
    place: usize,
    field: usize,
    val: HeapVal,
) -> Code
    requires owned { IsOwned heap.now seat.old sorts.now local.now }
    ensures owned { IsOwned heap.now seat.new sorts.now local.now }
    ensures wrote { WritesField turns (held_by heap.now seat.old sorts.now)
        (held_by heap.now seat.new sorts.now) place field val result }
{
    let _ = local;
    fields::write(heap, seat, sorts, turns, place, field, val)
}

/// Exchanges what a field holds.
pub(crate) fn swap(
    heap: &CellHeap<Rule>,
    seat: &mut MutSeat<Rule>,
    sorts: &Sorts,
    local: &LocalRecords,
    turns: Turns,
    place: usize,
    field: usize,
    was: HeapVal,
    now: HeapVal,
) -> Code
    requires owned { IsOwned heap.now seat.old sorts.now local.now }
    ensures owned { IsOwned heap.now seat.new sorts.now local.now }
    ensures swapped { SwapsField turns (held_by heap.now seat.old sorts.now)
        (held_by heap.now seat.new sorts.now) place field was now result }
{
    let _ = local;
    fields::swap(heap, seat, sorts, turns, place, field, was, now)
}

/// Whether two places hold one cell.
pub(crate) fn is_same(
    heap: &CellHeap<Rule>,
    seat: &mut MutSeat<Rule>,
    sorts: &Sorts,
    local: &LocalRecords,
    one: usize,
    other: usize,
) -> Result<bool, Code>
    requires owned { IsOwned heap.now seat.old sorts.now local.now }
    ensures owned { IsOwned heap.now seat.new sorts.now local.now }
    ensures same { ComparesPlaces (held_by heap.now seat.old sorts.now)
        (held_by heap.now seat.new sorts.now) one other result }
{
    let _ = local;
    fields::is_same(heap, seat, sorts, one, other)
}

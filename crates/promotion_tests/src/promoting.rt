//! The calls on a heap and private records of their own, from the opening to the close.
ghost use Rattle.std.specs.Prelude.{◌≡◌, ◌≤◌, true};
ghost use Rattle.heap_rule.specs.Asks.{MayComeIn};
ghost use Rattle.heap_table.specs.Seats.{IsSeatOf};
ghost use Rattle.promotion_tests.specs.Two.{two};

use crate::calls::{collect_roots, first_fields, make_both, promote_second};
use crate::heaps::{close_one, come_in, leave, open_one, two_records};
use crate::shown::{Cells, cells_of};
use cell_heap::{CellHeap, MutSeat, NoMemory};
use free_cells::{FreeQueue, Hints};
use heap_rule::NoRule;
use minor_heap::MinorHeap;
use mutator_seat::{HeapFull, Value};
use promotion::Promoter;
use std::alloc::Global;
use std::sync::Wait;

/// What the call gave; then how many cells the mutator has claimed, how many places it holds, and
/// how many private records there are.
pub(crate) type Found = (Result<usize, HeapFull>, u64, usize, u32);

/// The mutator of this seat promotes the record that names the other, and leaves.
fn promote_by<R: Wait>(
    rt: &R,
    heap: &CellHeap<NoRule>,
    seat: MutSeat<NoRule>,
    hints: &mut Hints<'_>,
    promoter: &mut Promoter,
    minor: &MinorHeap,
) -> (MutSeat<NoRule>, Found)
    requires seat { IsSeatOf heap.now seat }
    requires may { MayComeIn seat.me }
    requires room { seat.me.room ≡ 8 }
    requires promoter { promoter.old ≡ 2 }
    requires records { minor.now.records ≡ two }
    ensures seat { IsSeatOf heap.now result.0 }
    ensures over { result.0.me.presence.over ≡ true }
{
    let mut m = come_in(heap, seat);
    let given = promote_second(rt, hints, &mut m, promoter, minor);
    let found = (given, m.claims(), m.held_len(), minor.len());
    (leave(m), found)
}

/// It collects with the roots, and leaves. The last values are the first fields after the anchor.
fn collect_by<R: Wait>(
    rt: &R,
    heap: &CellHeap<NoRule>,
    seat: MutSeat<NoRule>,
    hints: &mut Hints<'_>,
    promoter: &mut Promoter,
    minor: &mut MinorHeap,
) -> (MutSeat<NoRule>, Found, [Option<Value>; 3])
    requires seat { IsSeatOf heap.now seat }
    requires may { MayComeIn seat.me }
    requires room { seat.me.room ≡ 8 }
    requires promoter { promoter.old ≡ 2 }
    requires records { minor.old.records ≡ two }
    ensures seat { IsSeatOf heap.now result.0 }
    ensures over { result.0.me.presence.over ≡ true }
{
    let mut m = come_in(heap, seat);
    let given = collect_roots(rt, hints, &mut m, promoter, minor);
    let found = (given, m.claims(), m.held_len(), minor.len());
    let fields = first_fields(&mut m);
    (leave(m), found, fields)
}

/// It makes a record and a box, and leaves.
fn make_by<R: Wait>(
    rt: &R,
    heap: &CellHeap<NoRule>,
    seat: MutSeat<NoRule>,
    hints: &mut Hints<'_>,
) -> (MutSeat<NoRule>, Found)
    requires seat { IsSeatOf heap.now seat }
    requires may { MayComeIn seat.me }
    requires room { seat.me.room ≡ 8 }
    ensures seat { IsSeatOf heap.now result.0 }
    ensures over { result.0.me.presence.over ≡ true }
{
    let mut m = come_in(heap, seat);
    let given = make_both(rt, hints, &mut m);
    let found = (given, m.claims(), m.held_len(), 0);
    (leave(m), found)
}

/// The result of a promotion in a heap of so many cells, where hints name the cells from one on.
pub(crate) fn promoted<R: Wait>(
    alloc: Global,
    rt: &R,
    cells: u32,
    first: u32,
) -> Result<(Found, Cells), NoMemory>
    requires some { 1 ≤ cells }
    requires few { cells ≤ 1000 }
    requires first { first ≤ cells }
{
    let (queue, pass) = FreeQueue::open(alloc, rt, cells, first)?;
    let mut promoter = Promoter::with_room(alloc, 2)?;
    let minor = two_records(alloc)?;
    let (heap, collector, seat) = open_one(alloc, cells)?;
    let mut hints = queue.hints(pass);
    let (seat, found) = promote_by(rt, &heap, seat, &mut hints, &mut promoter, &minor);
    Ok((found, cells_of(&close_one(heap, collector, seat))))
}

/// The result of making a record and a box in a heap of so many cells.
pub(crate) fn made<R: Wait>(alloc: Global, rt: &R, cells: u32) -> Result<(Found, Cells), NoMemory>
    requires some { 1 ≤ cells }
    requires few { cells ≤ 1000 }
{
    let (queue, pass) = FreeQueue::open(alloc, rt, cells, 1)?;
    let (heap, collector, seat) = open_one(alloc, cells)?;
    let mut hints = queue.hints(pass);
    let (seat, found) = make_by(rt, &heap, seat, &mut hints);
    Ok((found, cells_of(&close_one(heap, collector, seat))))
}

/// The result of a collection in a heap of so many cells.
pub(crate) fn collected<R: Wait>(
    alloc: Global,
    rt: &R,
    cells: u32,
) -> Result<(Found, [Option<Value>; 3], Cells), NoMemory>
    requires some { 1 ≤ cells }
    requires few { cells ≤ 1000 }
{
    let (queue, pass) = FreeQueue::open(alloc, rt, cells, 1)?;
    let mut promoter = Promoter::with_room(alloc, 2)?;
    let mut minor = two_records(alloc)?;
    let (heap, collector, seat) = open_one(alloc, cells)?;
    let mut hints = queue.hints(pass);
    let (seat, found, fields) = collect_by(rt, &heap, seat, &mut hints, &mut promoter, &mut minor);
    Ok((found, fields, cells_of(&close_one(heap, collector, seat))))
}

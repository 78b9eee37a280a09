//! A heap with one mutator, and rows that are each worked on such a heap.
ghost use Rattle.std.specs.Prelude.{◌≡◌, ◌+◌, ◌≤◌, IfOk, length, true};
ghost use Rattle.heap_rule.specs.Asks.{MayComeIn};
ghost use Rattle.heap_table.specs.Seats.{IsSeatOf};

use cell_heap::{CellHeap, ColSeat, MutSeat, NoMemory};
use cell_words::Field;
use doc_tree::EditFault;
use heap_rule::NoRule;
use minor_heap::MinorHeap;
use mutator_seat::Mutator;
use std::alloc::Global;
use std::sync::Wait;

/// How many cells these heaps have.
pub(crate) const CELLS: u32 = 4000;

/// How many places the mutator may hold.
const ROOM: u32 = 40_000;

/// A heap of so many cells, with the seat of its one mutator, which may hold so many places. The
/// collector's seat is dropped, so the collector stays off duty.
fn open_one(
    alloc: Global,
    cells: u32,
    room: u32,
) -> Result<(CellHeap<NoRule>, MutSeat<NoRule>), NoMemory>
    requires some { 1 ≤ cells }
    requires few { cells ≤ 10000 }
    requires room { 1 ≤ room }
    ensures mutator { IfOk result (λ made. IsSeatOf made.0 made.1) }
    ensures may { IfOk result (λ made. MayComeIn made.1.me) }
{
    let null = Field::Null;
    let anchor = [Field::Num(0), null, null, null, null, Field::Num(2)];
    let (heap, mut collector) = ColSeat::<NoRule>::open(alloc, cells, 1, 0, &[anchor])?;
    let mutator = collector.split(alloc, &heap, 0, room)?;
    Ok((heap, mutator))
}

/// The mutator, in.
fn come_in<'a>(heap: &'a CellHeap<NoRule>, seat: MutSeat<NoRule>) -> Mutator<'a, NoRule>
    requires seat { IsSeatOf heap.now seat }
    requires may { MayComeIn seat.me }
    ensures inside { result.seat.me.presence.inside ≡ true }
{
    let mut m = Mutator::new(heap, seat);
    m.begin();
    m
}

/// What a row does on a heap of its own, where there is room, and what it finds.
pub(crate) trait Row: Copy {
    type Found: Copy;

    fn work<R: Wait>(
        self,
        alloc: Global,
        rt: &R,
        m: &mut Mutator<'_, NoRule>,
        minor: &mut MinorHeap,
    ) -> Result<Self::Found, EditFault>
        requires inside { m.old.seat.me.presence.inside ≡ true }
        requires spare { length minor.old.records + 2285 ≤ minor.old.room };
}

/// What a row finds on a new heap, with room for so many private records.
pub(crate) fn worked<T: Row, R: Wait>(
    alloc: Global,
    rt: &R,
    row: T,
    records: u32,
) -> Result<T::Found, EditFault>
    requires records { 2285 ≤ records }
{
    let mut minor = MinorHeap::with_room(alloc, records)?;
    let (heap, seat) = open_one(alloc, CELLS, ROOM)?;
    let mut m = come_in(&heap, seat);
    row.work(alloc, rt, &mut m, &mut minor)
}

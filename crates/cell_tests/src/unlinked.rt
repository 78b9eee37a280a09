//! A cell that nothing names: one mutator makes it, and the collector frees it in its first cycle.
ghost use Rattle.std.specs.Prelude.{◌≡◌, ◌<◌, ◌≤◌, IfOk, true};
ghost use Rattle.cell_tests.specs.Collecting.{Drives, nothing};
ghost use Rattle.heap_rule.specs.Asks.{MayComeIn};
ghost use Rattle.heap_table.specs.Seats.{IsSeatOf};

use crate::collecting::{Flags, step};
use cell_heap::{CellHeap, ColSeat, Image, MutSeat, NoMemory};
use cell_words::{Field, Kind};
use heap_rule::NoRule;
use std::alloc::Global;

/// What a new heap has not.
pub(crate) const NOTHING: Flags = Flags {
    answered: false,
    marked: false,
    polled: false,
};

/// A heap of three cells, with the seats of its collector and of its one mutator.
pub(crate) fn open_one(
    alloc: Global,
) -> Result<(CellHeap<NoRule>, ColSeat<NoRule>, MutSeat<NoRule>), NoMemory>
    ensures heap { IfOk result (λ made. made.0.shape.cells ≡ 3) }
    ensures collector { IfOk result (λ made. Drives made.0 nothing made.1) }
    ensures mutator { IfOk result (λ made. IsSeatOf made.0 made.2) }
    ensures may { IfOk result (λ made. MayComeIn made.2.me) }
    ensures room { IfOk result (λ made. 2 ≤ made.2.me.room) }
{
    let null = Field::Null;
    let anchor = [Field::Num(0), null, null, null, null, Field::Num(2)];
    let (heap, mut collector) = ColSeat::<NoRule>::open(alloc, 3, 1, 0, &[anchor])?;
    let mutator = collector.split(alloc, &heap, 0, 2)?;
    Ok((heap, collector, mutator))
}

/// Comes in, makes cell 1 a record if that is free, and goes out.
pub(crate) fn make_and_leave(heap: &CellHeap<NoRule>, seat: &mut MutSeat<NoRule>)
    requires seat { IsSeatOf heap.now seat.old }
    requires may { MayComeIn seat.old.me }
    requires room { 2 ≤ seat.old.me.room }
    requires cells { 1 < heap.now.shape.cells }
    ensures seat { IsSeatOf heap.now seat.new }
    ensures may { MayComeIn seat.new.me }
{
    // Who is out has begun no write.
    let _inside = seat.is_in();
    seat.begin(heap);
    seat.look(heap);
    if seat.claim(heap, 1) {
        seat.seal(heap, 1, Kind::Record);
    }
    seat.end(heap);
}

/// The collector's first cycle, and how many events it took.
pub(crate) fn first_cycle(heap: &CellHeap<NoRule>, seat: &mut ColSeat<NoRule>) -> u32
    requires drives { Drives heap.now nothing seat.old }
    ensures seat { IsSeatOf heap.now seat.new }
{
    let mut flags = NOTHING;
    let mut events = 0;
    for number in 0..100 {
        if seat.control().cycles == 0 {
            flags = step(heap, seat, flags);
            events = number + 1;
        }
    }
    events
}

/// Joins the mutator's seat and closes the heap.
pub(crate) fn close_one(
    heap: CellHeap<NoRule>,
    collector: ColSeat<NoRule>,
    mutator: MutSeat<NoRule>,
) -> Image
    requires collector { IsSeatOf heap collector }
    requires mutator { IsSeatOf heap mutator }
    requires may { MayComeIn mutator.me }
    ensures cells { result.cells ≡ heap.shape.cells }
{
    let mut mutator = mutator;
    mutator.over(&heap);
    close_over(heap, collector, mutator)
}

/// The same of a mutator that is over.
pub(crate) fn close_over(
    heap: CellHeap<NoRule>,
    collector: ColSeat<NoRule>,
    mutator: MutSeat<NoRule>,
) -> Image
    requires collector { IsSeatOf heap collector }
    requires mutator { IsSeatOf heap mutator }
    requires over { mutator.me.presence.over ≡ true }
    ensures cells { result.cells ≡ heap.shape.cells }
{
    let mut collector = collector;
    collector.join(&heap, mutator);
    let (image, _) = collector.close(heap);
    image
}

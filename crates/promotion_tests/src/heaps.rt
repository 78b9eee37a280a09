//! A heap with one mutator, which holds the anchor, and a private heap of two records.
ghost use Rattle.std.specs.Prelude.{◌≡◌, ◌≤◌, ◌∷◌, IfOk, [], length, true};
ghost use Rattle.heap_rule.specs.Asks.{MayComeIn};
ghost use Rattle.heap_rule.specs.declared.known.Known.TheVariants as knows;
ghost use Rattle.heap_table.specs.Seats.{IsSeatOf};
ghost use Rattle.promotion_tests.specs.Two.{two};

use cell_heap::{CellHeap, ColSeat, Image, MutSeat, NoMemory};
use cell_words::Field;
use heap_rule::NoRule;
use minor_heap::MinorField::{Minor, Null, Num};
use minor_heap::MinorHeap;
use mutator_seat::Mutator;
use std::alloc::Global;

/// A heap of so many cells, with the seats of its collector and of its one mutator.
pub(crate) fn open_one(
    alloc: Global,
    cells: u32,
) -> Result<(CellHeap<NoRule>, ColSeat<NoRule>, MutSeat<NoRule>), NoMemory>
    requires some { 1 ≤ cells }
    requires few { cells ≤ 1000 }
    ensures cells { IfOk result (λ made. made.0.shape.cells ≡ cells) }
    ensures collector { IfOk result (λ made. IsSeatOf made.0 made.1) }
    ensures mutator { IfOk result (λ made. IsSeatOf made.0 made.2) }
    ensures may { IfOk result (λ made. MayComeIn made.2.me) }
    ensures room { IfOk result (λ made. made.2.me.room ≡ 8) }
{
    let null = Field::Null;
    let anchor = [Field::Num(0), null, null, null, null, Field::Num(2)];
    let (heap, mut collector) = ColSeat::<NoRule>::open(alloc, cells, 1, 0, &[anchor])?;
    let mutator = collector.split(alloc, &heap, 0, 8)?;
    Ok((heap, collector, mutator))
}

/// Two records, of which the second names the first twice.
pub(crate) fn two_records(alloc: Global) -> Result<MinorHeap, NoMemory>
    ensures records { IfOk result (λ minor. minor.records ≡ two) }
{
    let mut minor = MinorHeap::with_room(alloc, 2)?;
    let Ok(r0) = minor.make([Num(5), Null, Null, Null, Null]) else {
        unreachable!()
    };
    let Ok(_) = minor.make([Minor(r0), Minor(r0), Null, Null, Null]) else {
        unreachable!()
    };
    Ok(minor)
}

/// The mutator, in.
pub(crate) fn come_in<'a>(heap: &'a CellHeap<NoRule>, seat: MutSeat<NoRule>) -> Mutator<'a, NoRule>
    requires seat { IsSeatOf heap.now seat }
    requires may { MayComeIn seat.me }
    ensures heap { result.heap ≡ heap.now }
    ensures inside { result.seat.me.presence.inside ≡ true }
    ensures held { length result.seat.me.own.held ≡ 1 }
    ensures known { result.seat.me.known ≡ knows.Nothing ∷ [] }
    ensures room { result.seat.me.room ≡ seat.me.room }
{
    let mut m = Mutator::new(heap, seat);
    m.begin();
    m
}

/// The mutator goes out and is over, its seat is joined, and the heap is closed.
pub(crate) fn leave(m: Mutator<'_, NoRule>) -> MutSeat<NoRule>
    requires inside { m.seat.me.presence.inside ≡ true }
    ensures seat { IsSeatOf m.entry.heap result }
    ensures over { result.me.presence.over ≡ true }
{
    let mut m = m;
    m.end();
    m.finish()
}

/// Joins the mutator's seat and closes the heap.
pub(crate) fn close_one(
    heap: CellHeap<NoRule>,
    collector: ColSeat<NoRule>,
    mutator: MutSeat<NoRule>,
) -> Image
    requires collector { IsSeatOf heap collector }
    requires mutator { IsSeatOf heap mutator }
    requires over { mutator.me.presence.over ≡ true }
    ensures cells { result.cells ≡ heap.shape.cells }
{
    let mut collector = collector;
    collector.join(&heap, mutator);
    let (image, _) = collector.close(heap);
    image
}

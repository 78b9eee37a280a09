//! A heap with the counter and two mutators: how it opens, and what it shows at its close.
ghost use Rattle.std.specs.Prelude.{◌≡◌, ◌≤◌, ◌+◌, IfOk, length};
ghost use Rattle.cell_tests.specs.Counting.{CounterIs};
ghost use Rattle.cell_tests.specs.Working.{IsDone, IsOpened};
ghost use Rattle.heap_table.specs.Seats.{IsSeatOf};

use crate::counter::Added;
use cell_heap::{CellHeap, ColSeat, Image, MutSeat, NoMemory};
use cell_words::Field;
use std::alloc::Global;

/// A heap of so many cells, with the seats of its collector and of its two mutators.
pub(crate) fn open_two(
    alloc: Global,
    cells: u32,
) -> Result<
    (
        CellHeap<Added>,
        ColSeat<Added>,
        MutSeat<Added>,
        MutSeat<Added>,
    ),
    NoMemory,
>
    requires some { 1 ≤ cells }
    requires few { cells ≤ 1000 }
    ensures opened { IfOk result (λ made. IsOpened made.0 made.1 made.2 made.3) }
    ensures cells { IfOk result (λ made. made.0.shape.cells ≡ cells) }
{
    let null = Field::Null;
    let anchor = [Field::Num(0), null, null, null, null, Field::Num(2)];
    let (heap, mut collector) = ColSeat::<Added>::open(alloc, cells, 2, 0, &[anchor])?;
    let first = collector.split(alloc, &heap, 0, 4)?;
    let second = collector.split(alloc, &heap, 1, 4)?;
    Ok((heap, collector, first, second))
}

/// Joins the seats of both mutators and closes the heap: the counter is the sum of what they have
/// added.
pub(crate) fn close_two(
    heap: CellHeap<Added>,
    collector: ColSeat<Added>,
    first: (MutSeat<Added>, u64),
    second: (MutSeat<Added>, u64),
) -> Image
    requires collector { IsSeatOf heap collector }
    requires two { heap.shape.mutators ≡ 2 }
    requires places { length collector.me.places ≡ 2 }
    requires first { IsDone heap first.1 first.0 }
    requires first_is { first.0.me.number ≡ 0 }
    requires second { IsDone heap second.1 second.0 }
    requires second_is { second.0.me.number ≡ 1 }
    ensures counter { CounterIs result.words (first.1 + second.1) }
    ensures cells { result.cells ≡ heap.shape.cells }
{
    let mut collector = collector;
    collector.join(&heap, first.0);
    collector.join(&heap, second.0);
    let (image, _) = collector.close(heap);
    image
}

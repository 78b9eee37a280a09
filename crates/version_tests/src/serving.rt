//! The collector of these tests, and what a closed heap shows of versions.
ghost use Rattle.std.specs.Prelude.{◌≡◌, ◌<◌};
ghost use Rattle.free_cells.specs.Hints.{cells_of as hinted_of};
ghost use Rattle.free_cells.specs.Passes.{IsHintPass};
ghost use Rattle.heap_table.specs.Seats.{IsSeatOf};
ghost use Rattle.version_tests.specs.Grows.{IsOver};
ghost use Rattle.version_tests.specs.Serves.{IsIdle};

use crate::bare::Store;
use cell_heap::{CellHeap, ColSeat, Image, MutSeat};
use cell_words::{Field, GREATEST_CYCLES};
use collector::{Collector, MarkStack};
use free_cells::{FreeQueue, HintPass};
use std::sync::Wait;

/// Makes cycle after cycle, until two began after both mutators were found over. It gives how many
/// cells were freed.
pub(crate) fn serve_on<R: Wait>(
    rt: &R,
    heap: &CellHeap<Store>,
    seat: ColSeat<Store>,
    stack: MarkStack,
    queue: &FreeQueue,
    pass: HintPass,
) -> (ColSeat<Store>, u64)
    requires idle { IsIdle heap.now seat }
    requires pass { IsHintPass queue.now pass }
    requires cells { hinted_of queue.now ≡ heap.now.shape.cells }
    ensures seat { IsSeatOf heap.now result.0 }
{
    let mut hints = queue.hints(pass);
    let mut collector = Collector::new(heap, seat, heap.mutators(), stack);
    let freed = collector.serve(rt, &mut hints, GREATEST_CYCLES);
    (collector.into_seat(), freed)
}

/// Joins the seats of both mutators and closes the heap.
pub(crate) fn close_two(
    heap: CellHeap<Store>,
    collector: ColSeat<Store>,
    first: MutSeat<Store>,
    second: MutSeat<Store>,
) -> Image
    requires collector { IsSeatOf heap collector }
    requires first { IsOver heap first }
    requires second { IsOver heap second }
{
    let mut collector = collector;
    collector.join(&heap, first);
    collector.join(&heap, second);
    let (image, _) = collector.close(heap);
    image
}

/// The versions that the anchor leads to: the number of the newest, and how many there are.
#[derive(Clone, Copy, Debug, PartialEq, Eq)]
pub(crate) struct Chain {
    pub newest: Option<u64>,
    pub versions: u32,
}

/// The cell that a field names.
fn named(image: &Image, cell: u32, field: usize) -> Option<u32>
    requires cell { cell < image.now.cells }
    requires field { field < 5 }
{
    match image.field(cell, field) {
        Field::Cell(other) if other < image.cells() => Some(other),
        Field::Cell(_) | Field::Null | Field::Num(_) => None,
    }
}

/// The chain of versions of a closed heap.
pub(crate) fn chain_of(image: &Image) -> Chain {
    if image.cells() == 0 {
        return Chain {
            newest: None,
            versions: 0,
        };
    }
    let newest = named(image, 0, 0);
    Chain {
        newest: number_of(image, newest),
        versions: length_from(image, newest),
    }
}

/// The number of a version.
fn number_of(image: &Image, version: Option<u32>) -> Option<u64> {
    match version {
        Some(cell) if cell < image.cells() => match image.field(cell, 0) {
            Field::Num(number) => Some(number),
            Field::Null | Field::Cell(_) => None,
        },
        Some(_) | None => None,
    }
}

/// How many versions are in the chain from this one on.
fn length_from(image: &Image, newest: Option<u32>) -> u32 {
    let mut at = newest;
    for versions in 0..image.cells() {
        match at {
            Some(cell) if cell < image.cells() => at = named(image, cell, 2),
            Some(_) | None => return versions,
        }
    }
    image.cells()
}

//! A store of versions and its mutators.
ghost use Rattle.std.specs.Prelude.{◌≡◌, ◌≤◌, IfOk};
ghost use Rattle.version_tests.specs.Grows.{IsNew, IsOf, Works};
ghost use Rattle.version_tests.specs.Serves.{IsIdle};

use crate::bare::Store;
use cell_heap::{CellHeap, ColSeat, MutSeat, NoMemory};
use mutator_seat::Mutator;
use std::alloc::Global;
use version_store::opening_rows;

/// A store with the seats of its collector and of its two mutators.
#[derive(Drop)]
pub(crate) struct Served {
    pub(crate) heap: CellHeap<Store>,
    pub(crate) collector: ColSeat<Store>,
    pub(crate) first: MutSeat<Store>,
    pub(crate) second: MutSeat<Store>,
}

/// A store that keeps so many versions for a collector and two mutators, on a heap of so many
/// cells. The collector is off duty.
pub(crate) fn open_served(alloc: Global, cells: u32, keep: u64) -> Result<Served, NoMemory>
    requires some { 3 ≤ cells }
    requires few { cells ≤ 1000000 }
    requires keeps_some { 1 ≤ keep }
    requires keeps_few { keep ≤ 100 }
    ensures idle { IfOk result (λ made. IsIdle made.heap made.collector) }
    ensures first { IfOk result (λ made. IsNew made.heap keep made.first) }
    ensures second { IfOk result (λ made. IsNew made.heap keep made.second) }
    ensures cells { IfOk result (λ made. made.heap.shape.cells ≡ cells) }
{
    let (heap, mut collector) = ColSeat::<Store>::open(alloc, cells, 2, keep, &opening_rows())?;
    let first = collector.split(alloc, &heap, 0, 300)?;
    let second = collector.split(alloc, &heap, 1, 300)?;
    Ok(Served {
        heap,
        collector,
        first,
        second,
    })
}

/// Comes in, and holds the anchor.
pub(crate) fn come_in<'a>(
    heap: &'a CellHeap<Store>,
    seat: MutSeat<Store>,
    keep: u64,
) -> Mutator<'a, Store>
    requires new { IsNew heap.now keep seat }
    ensures works { Works 1 0 keep result }
    ensures of { IsOf heap.now result }
{
    let _ = keep;
    let mut m = Mutator::new(heap, seat);
    m.begin();
    m
}

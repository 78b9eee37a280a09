//! The scan of a cell in one call, on a heap whose anchor names others.
ghost use Rattle.std.specs.Prelude.{◌≡◌, IfOk, IfSome, Some};
ghost use Rattle.cell_heap.specs.Scans.{scan_at};
ghost use Rattle.cell_tests.specs.Collecting.{Drives, nothing};
ghost use Rattle.heap_rule.specs.Asks.{MayComeIn};
ghost use Rattle.heap_table.specs.Seats.{IsSeatOf};

use crate::collecting::step;
use crate::unlinked::NOTHING;
use cell_heap::{CellHeap, ColSeat, MutSeat, NoMemory};
use cell_words::Field;
use heap_rule::NoRule;
use std::alloc::Global;

/// The cell whose scan begins, if that of one does.
pub(crate) fn begun(seat: &ColSeat<NoRule>) -> Option<u32>
    ensures begun { IfSome result (λ cell. seat.now.me.part.scan ≡ Some (scan_at cell 0)) }
{
    match seat.scanning() {
        Some(scan) => {
            if scan.next == 0 && scan.child.is_none() {
                Some(scan.cell)
            } else {
                None
            }
        }
        None => None,
    }
}

/// A heap of three boxes. The anchor names cell 2, then cell 1, then cell 2 again, with a number
/// and a null between them.
pub(crate) fn open_family(
    alloc: Global,
) -> Result<(CellHeap<NoRule>, ColSeat<NoRule>, MutSeat<NoRule>), NoMemory>
    ensures heap { IfOk result (λ made. made.0.shape.cells ≡ 3) }
    ensures collector { IfOk result (λ made. Drives made.0 nothing made.1) }
    ensures mutator { IfOk result (λ made. IsSeatOf made.0 made.2) }
    ensures may { IfOk result (λ made. MayComeIn made.2.me) }
{
    let null = Field::Null;
    let anchor = [
        Field::Cell(2),
        Field::Num(1),
        Field::Cell(1),
        null,
        Field::Cell(2),
        Field::Num(2),
    ];
    let child = [null, null, null, null, null, Field::Num(2)];
    let (heap, mut collector) = ColSeat::<NoRule>::open(alloc, 3, 1, 0, &[anchor, child, child])?;
    let mutator = collector.split(alloc, &heap, 0, 1)?;
    Ok((heap, collector, mutator))
}

/// The children that the first scan of the collector's first cycle gives.
pub(crate) fn first_scan(
    heap: &CellHeap<NoRule>,
    seat: &mut ColSeat<NoRule>,
) -> Option<[Option<u32>; 5]>
    requires drives { Drives heap.now nothing seat.old }
    ensures seat { IsSeatOf heap.now seat.new }
{
    let mut flags = NOTHING;
    for _event in 0..100 {
        match begun(seat) {
            Some(cell) => return Some(seat.scan_cell(heap, cell)),
            None => flags = step(heap, seat, flags),
        }
    }
    None
}

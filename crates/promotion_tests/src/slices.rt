//! Copies of the two records, a part at a time.
ghost use Rattle.std.specs.Prelude.{◌≡◌, ◌≤◌, true};
ghost use Rattle.minor_heap.specs.Spans.{NoneMarked};
ghost use Rattle.mutator_seat.specs.Bound.{IsBound};
ghost use Rattle.record_copying.specs.Copies.{AreCopies};
ghost use Rattle.promotion_tests.specs.Two.{two};

use crate::cells::NextCells;
use crate::heaps::{close_one, open_one, two_records};
use crate::seats::{come_in, leave};
use crate::shown::{Cells, cells_of};
use cell_heap::NoMemory;
use heap_rule::NoRule;
use heap_table::CellHeap;
use minor_heap::{MinorHeap, MinorRef};
use mutator_seat::MutSeat;
use record_copying::{CopyTable, Progress};
use std::alloc::Global;

/// How far a call came, and how many cells the mutator has claimed by then.
pub(crate) type Step = (Progress, u64);

/// Copies at most so many records of what the second one reaches, where it gets at most so many
/// cells.
fn copy_some(
    heap: &CellHeap<NoRule>,
    seat: &mut MutSeat<NoRule>,
    cells: &mut NextCells,
    table: &mut CopyTable,
    minor: &MinorHeap,
    given: u32,
    most: usize,
) -> Step
    requires seat { IsBound heap.now seat.old }
    requires inside { seat.old.me.presence.inside ≡ true }
    requires records { minor.now.records ≡ two }
    requires table { table.old.room ≡ 2 }
    requires copies { AreCopies seat.old.me.known minor.now.records table.old.copied
        table.old.places }
    ensures seat { IsBound heap.now seat.new }
    ensures inside { seat.new.me.presence.inside ≡ true }
    ensures table { table.new.room ≡ 2 }
    ensures copies { AreCopies seat.new.me.known minor.now.records table.new.copied
        table.new.places }
{
    cells.left = given;
    let most = most.min(seat.room());
    let roots = [MinorRef { number: 1 }];
    let progress = table.copy_reached(heap, seat, cells, minor, &roots, most);
    (progress, seat.claims())
}

/// Five calls: one gets no cell; one may copy one record; one gets no cell again; one gets the cell
/// that it needs; and one finds nothing left to copy. Then the places of the copies.
fn copy_in_slices(
    heap: &CellHeap<NoRule>,
    seat: &mut MutSeat<NoRule>,
    table: &mut CopyTable,
    minor: &MinorHeap,
) -> ([Step; 5], [Option<usize>; 2])
    requires seat { IsBound heap.now seat.old }
    requires inside { seat.old.me.presence.inside ≡ true }
    requires records { minor.now.records ≡ two }
    requires table { table.old.room ≡ 2 }
    requires none { NoneMarked table.old.copied }
    ensures seat { IsBound heap.now seat.new }
    ensures inside { seat.new.me.presence.inside ≡ true }
{
    let mut cells = NextCells {
        next: 1,
        left: 0,
        refusals: 0,
    };
    let waits = copy_some(heap, seat, &mut cells, table, minor, 0, 1);
    let one = copy_some(heap, seat, &mut cells, table, minor, 2, 1);
    let again = copy_some(heap, seat, &mut cells, table, minor, 0, 5);
    let other = copy_some(heap, seat, &mut cells, table, minor, 1, 1);
    let nothing = copy_some(heap, seat, &mut cells, table, minor, 0, 0);
    let places = [
        table.place(MinorRef { number: 0 }),
        table.place(MinorRef { number: 1 }),
    ];
    ([waits, one, again, other, nothing], places)
}

/// The five calls in a heap of four cells, and its cells after it was closed.
pub(crate) fn copied(alloc: Global) -> Result<([Step; 5], [Option<usize>; 2], Cells), NoMemory> {
    let mut table = CopyTable::with_room(alloc, 2)?;
    let minor = two_records(alloc)?;
    let (heap, collector, mut seat) = open_one(alloc, 4)?;
    come_in(&heap, &mut seat);
    let (steps, places) = copy_in_slices(&heap, &mut seat, &mut table, &minor);
    leave(&heap, &mut seat);
    let image = close_one(heap, collector, seat);
    Ok((steps, places, cells_of(&image)))
}

/// The place of the copy of a record once the table has forgotten all.
pub(crate) fn forgotten(alloc: Global) -> Result<Option<usize>, NoMemory> {
    let mut table = CopyTable::with_room(alloc, 2)?;
    table.forget(2);
    Ok(table.place(MinorRef { number: 1 }))
}

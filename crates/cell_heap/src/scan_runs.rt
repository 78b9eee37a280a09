//! The scan of a gray cell in one call. Each event is the one of its own call, by the same atomic
//! operation; the run keeps in locals where it is, and the seat has it again at the end. The single
//! calls of `tracing` call the same functions.
ghost use Rattle.std.specs.Prelude.{◌≡◌, ◌<◌, ◌+◌, Some, true};
ghost use Rattle.cell_heap.specs.Collecting.{IsCollectors};
ghost use Rattle.cell_heap.specs.Scans.{IsAtField, ScansCell, ScansField, scan_at};
ghost use Rattle.cell_heap.specs.Telling.{FindsKnown, TellsColour, collector_tells};
ghost use Rattle.core_machine.specs.InRange.{NamesBelow};
ghost use Rattle.core_machine.specs.Next.{can};
ghost use Rattle.core_machine.specs.Tracing.{child_or_anchor, scan_or_none};
ghost use Rattle.core_machine.specs.declared.events.Event.TheVariants as event;
ghost use Rattle.core_machine.specs.declared.events.Found.TheVariants as finds;
ghost use Rattle.heap_rule.specs.Asks.{collector_state};
ghost use Rattle.heap_table.specs.Seats.{IsSeatOf};

use crate::seat::ColSeat;
use crate::words::{colour_word, field_word};
use cell_words::{Colour, Field, pack_colour};
use core_machine::Event;
use heap_rule::Keeping;
use heap_table::words::field_of;
use heap_table::{CellHeap, HeapSeat};
use std::marker::Brand;

/// Loads the next field of the cell under scan.
pub(crate) fn scan_at<P: Keeping>(
    heap: &CellHeap<P>,
    seat: &mut HeapSeat<P>,
    mutators: u32,
    cell: u32,
    field: usize,
) -> Field
    requires seat { IsSeatOf heap.now seat.old }
    requires collector { IsCollectors seat.old.me }
    requires mutators { mutators ≡ seat.old.me.shape.mutators }
    requires cell { cell ≡ (scan_or_none seat.old.me.part.scan).cell }
    requires field { field ≡ (scan_or_none seat.old.me.part.scan).next }
    requires there { field < 6 }
    requires can { can (collector_state seat.old.me) event.Scan ≡ true }
    ensures told { seat.new ≡ collector_tells seat.old event.Scan (finds.Field result) }
    ensures known { FindsKnown seat.old.me event.Scan (finds.Field result) }
    ensures below { NamesBelow seat.old.me.shape.cells result }
    ensures collector { IsCollectors seat.new.me }
{
    let word = field_word(mutators, cell, field);
    let found = heap.collector_load::<Brand>(seat, Event::Scan, word);
    field_of(found)
}

/// Shades the cell that the scan found.
pub(crate) fn shade_at<P: Keeping>(
    heap: &CellHeap<P>,
    seat: &mut HeapSeat<P>,
    mutators: u32,
    child: u32,
)
    requires seat { IsSeatOf heap.now seat.old }
    requires collector { IsCollectors seat.old.me }
    requires mutators { mutators ≡ seat.old.me.shape.mutators }
    requires child { child ≡ child_or_anchor (scan_or_none seat.old.me.part.scan).child }
    requires can { can (collector_state seat.old.me) event.Shade ≡ true }
    ensures told { TellsColour seat.old event.Shade seat.new }
    ensures collector { IsCollectors seat.new.me }
{
    let word = colour_word(mutators, child);
    let old = pack_colour(Colour::White);
    let new = pack_colour(Colour::Gray);
    heap.collector_exchange::<Brand>(seat, Event::Shade, word, old, new);
}

/// Stores black as the colour of the cell under scan.
pub(crate) fn blacken_at<P: Keeping>(
    heap: &CellHeap<P>,
    seat: &mut HeapSeat<P>,
    mutators: u32,
    cell: u32,
)
    requires seat { IsSeatOf heap.now seat.old }
    requires collector { IsCollectors seat.old.me }
    requires mutators { mutators ≡ seat.old.me.shape.mutators }
    requires cell { cell ≡ (scan_or_none seat.old.me.part.scan).cell }
    requires can { can (collector_state seat.old.me) event.Blacken ≡ true }
    ensures told { seat.new ≡ collector_tells seat.old event.Blacken finds.Stored }
    ensures known { FindsKnown seat.old.me event.Blacken finds.Stored }
    ensures collector { IsCollectors seat.new.me }
{
    let word = colour_word(mutators, cell);
    let black = pack_colour(Colour::Black);
    heap.collector_store::<Brand>(seat, Event::Blacken, word, black);
}

/// Loads a field, and shades the cell in it, whose number it gives.
fn child_at<P: Keeping>(
    heap: &CellHeap<P>,
    seat: &mut HeapSeat<P>,
    mutators: u32,
    cell: u32,
    field: usize,
) -> Option<u32>
    requires at { IsAtField heap.now mutators cell field seat.old }
    requires there { field < 5 }
    ensures scanned { ScansField cell field result seat.old seat.new }
    ensures at { IsAtField heap.now mutators cell (field + 1) seat.new }
{
    match scan_at(heap, seat, mutators, cell, field) {
        Field::Null => None,
        Field::Num(_) => None,
        Field::Cell(child) => {
            shade_at(heap, seat, mutators, child);
            Some(child)
        }
    }
}

/// Loads all fields, shades the cell in each, and blackens the cell. It gives the cells by field.
fn scan_all<P: Keeping>(
    heap: &CellHeap<P>,
    seat: &mut HeapSeat<P>,
    mutators: u32,
    cell: u32,
) -> [Option<u32>; 5]
    requires at { IsAtField heap.now mutators cell 0 seat.old }
    ensures scanned { ScansCell result seat.old seat.new }
    ensures collector { IsCollectors seat.new.me }
{
    let first = child_at(heap, seat, mutators, cell, 0);
    let second = child_at(heap, seat, mutators, cell, 1);
    let third = child_at(heap, seat, mutators, cell, 2);
    let fourth = child_at(heap, seat, mutators, cell, 3);
    let fifth = child_at(heap, seat, mutators, cell, 4);
    blacken_at(heap, seat, mutators, cell);
    [first, second, third, fourth, fifth]
}

impl<P: Keeping> ColSeat<P> {
    /// Scans the cell under scan from its first field on: it loads each of the five, shades the
    /// cell in it straight after, and stores black at the end. It gives these cells, by field.
    ///
    /// Five loads, a compare and exchange for each cell that a field names, and a store.
    pub fn scan_cell(&mut self, heap: &CellHeap<P>, cell: u32) -> [Option<u32>; 5]
        requires seat { IsSeatOf heap.now self.old }
        requires scan { self.old.me.part.scan ≡ Some (scan_at cell 0) }
        ensures scanned { ScansCell result self.old self.new }
    {
        let children = scan_all(heap, &mut self.seat, self.mutators, cell);
        self.progress.scan = None;
        children
    }
}

//! The calls that clear and trace, an event each.
ghost use Rattle.std.specs.Prelude.{◌≡◌, true};
ghost use Rattle.cell_heap.specs.Telling.{FindsKnown, TellsColour, collector_tells};
ghost use Rattle.core_machine.specs.InRange.{NamesBelow};
ghost use Rattle.core_machine.specs.Next.{can};
ghost use Rattle.core_machine.specs.declared.events.Event.TheVariants as event;
ghost use Rattle.core_machine.specs.declared.events.Found.TheVariants as finds;
ghost use Rattle.heap_rule.specs.Asks.{collector_state};
ghost use Rattle.heap_table.specs.Seats.{IsSeatOf};

use crate::progress::{child_or_anchor, scan_or_none, scan_shaded, scanned};
use crate::scan_runs::{blacken_at, scan_at, shade_at};
use crate::seat::ColSeat;
use crate::trace_runs::{clear_at, see_at};
use crate::words::colour_word;
use cell_words::{Colour, Field, pack_colour};
use core_machine::Event;
use heap_rule::Keeping;
use heap_table::CellHeap;
use std::marker::Brand;

impl<P: Keeping> ColSeat<P> {
    /// Clears the cell at the cursor: one compare and exchange on its colour, from black to white.
    pub fn clear(&mut self, heap: &CellHeap<P>)
        requires seat { IsSeatOf heap.now self.old }
        requires can { can (collector_state self.old.me) event.ClearCell ≡ true }
        ensures told { TellsColour self.old event.ClearCell self.new }
    {
        let cursor = self.progress.cursor;
        clear_at(heap, &mut self.seat, self.mutators, cursor);
        self.progress.cursor = cursor + 1;
    }

    /// Marks the anchor: one compare and exchange on its colour, from white to gray.
    pub fn anchor(&mut self, heap: &CellHeap<P>)
        requires seat { IsSeatOf heap.now self.old }
        requires can { can (collector_state self.old.me) event.Anchor ≡ true }
        ensures told { TellsColour self.old event.Anchor self.new }
    {
        let word = colour_word(self.mutators, 0);
        let old = pack_colour(Colour::White);
        let new = pack_colour(Colour::Gray);
        heap.collector_exchange::<Brand>(&mut self.seat, Event::Anchor, word, old, new);
    }

    /// Loads the colour of a cell. A gray cell is under scan from then on.
    pub fn see(&mut self, heap: &CellHeap<P>, cell: u32) -> Colour
        requires seat { IsSeatOf heap.now self.old }
        requires can { can (collector_state self.old.me) (event.See cell) ≡ true }
        ensures told { self.new ≡ collector_tells self.old (event.See cell) (finds.Colour result) }
        ensures known { FindsKnown self.old.me (event.See cell) (finds.Colour result) }
    {
        let colour = see_at(heap, &mut self.seat, self.mutators, cell);
        self.progress.see(self.cells, cell, colour);
        colour
    }

    /// Loads the next field of the cell under scan. A cell in it is to be shaded.
    pub fn scan(&mut self, heap: &CellHeap<P>) -> Field
        requires seat { IsSeatOf heap.now self.old }
        requires can { can (collector_state self.old.me) event.Scan ≡ true }
        ensures told { self.new ≡ collector_tells self.old event.Scan (finds.Field result) }
        ensures known { FindsKnown self.old.me event.Scan (finds.Field result) }
        ensures below { NamesBelow self.old.me.shape.cells result }
    {
        let scan = scan_or_none(self.progress.scan);
        let field = scan_at(heap, &mut self.seat, self.mutators, scan.cell, scan.next);
        let further = scanned(scan, field);
        self.progress.scan = Some(further);
        field
    }

    /// Shades the cell that the scan found: one compare and exchange on its colour, from white to
    /// gray.
    pub fn shade(&mut self, heap: &CellHeap<P>)
        requires seat { IsSeatOf heap.now self.old }
        requires can { can (collector_state self.old.me) event.Shade ≡ true }
        ensures told { TellsColour self.old event.Shade self.new }
    {
        let scan = scan_or_none(self.progress.scan);
        let child = child_or_anchor(scan.child);
        shade_at(heap, &mut self.seat, self.mutators, child);
        let further = scan_shaded(scan);
        self.progress.scan = Some(further);
    }

    /// Stores black as the colour of the cell under scan, which is under scan no longer.
    pub fn blacken(&mut self, heap: &CellHeap<P>)
        requires seat { IsSeatOf heap.now self.old }
        requires can { can (collector_state self.old.me) event.Blacken ≡ true }
        ensures told { self.new ≡ collector_tells self.old event.Blacken finds.Stored }
        ensures known { FindsKnown self.old.me event.Blacken finds.Stored }
    {
        let scan = scan_or_none(self.progress.scan);
        blacken_at(heap, &mut self.seat, self.mutators, scan.cell);
        self.progress.scan = None;
    }
}

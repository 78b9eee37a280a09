//! Runs of clearing and tracing. Each event is the one of its own call, by the same atomic
//! operation; a run keeps in a local where it is, and the seat has it again at the end. The single
//! calls of `tracing` call the same functions.
ghost use Rattle.std.specs.Prelude.{◌≡◌, ◌≤◌, None, true};
ghost use Rattle.std.specs.List.{list_all};
ghost use Rattle.cell_heap.specs.Collecting.{IsCollectors};
ghost use Rattle.cell_heap.specs.Runs.{ClearsOn, SeesOn};
ghost use Rattle.cell_heap.specs.Telling.{FindsKnown, TellsColour, collector_tells};
ghost use Rattle.cell_words.specs.declared.controls.Stage.TheVariants as stage;
ghost use Rattle.core_machine.specs.Next.{can};
ghost use Rattle.core_machine.specs.Words.{is_gray};
ghost use Rattle.core_machine.specs.declared.events.Event.TheVariants as event;
ghost use Rattle.core_machine.specs.declared.events.Found.TheVariants as finds;
ghost use Rattle.heap_rule.specs.Asks.{collector_state};
ghost use Rattle.heap_table.specs.Seats.{IsSeatOf};

use crate::seat::ColSeat;
use crate::words::colour_word;
use cell_words::{Colour, pack_colour};
use core_machine::{Event, Scanning};
use heap_rule::Keeping;
use heap_table::words::colour_of;
use heap_table::{CellHeap, HeapSeat};
use std::marker::Brand;

fn is_gray(colour: Colour) -> bool
    ensures gray { result ≡ is_gray colour }
{
    match colour {
        Colour::Gray => true,
        Colour::Blue | Colour::White | Colour::Black => false,
    }
}

/// Clears the cell at the cursor.
pub(crate) fn clear_at<P: Keeping>(
    heap: &CellHeap<P>,
    seat: &mut HeapSeat<P>,
    mutators: u32,
    cell: u32,
)
    requires seat { IsSeatOf heap.now seat.old }
    requires collector { IsCollectors seat.old.me }
    requires mutators { mutators ≡ seat.old.me.shape.mutators }
    requires cell { cell ≡ seat.old.me.part.cursor }
    requires can { can (collector_state seat.old.me) event.ClearCell ≡ true }
    ensures told { TellsColour seat.old event.ClearCell seat.new }
    ensures collector { IsCollectors seat.new.me }
{
    let word = colour_word(mutators, cell);
    let old = pack_colour(Colour::Black);
    let new = pack_colour(Colour::White);
    heap.collector_exchange::<Brand>(seat, Event::ClearCell, word, old, new);
}

/// Clears the cells from the cursor on.
fn clear_from<P: Keeping>(
    heap: &CellHeap<P>,
    seat: &mut HeapSeat<P>,
    cells: u32,
    mutators: u32,
    first: u32,
)
    requires seat { IsSeatOf heap.now seat.old }
    requires collector { IsCollectors seat.old.me }
    requires cells { cells ≡ seat.old.me.shape.cells }
    requires mutators { mutators ≡ seat.old.me.shape.mutators }
    requires first { first ≡ seat.old.me.part.cursor }
    requires stage { seat.old.me.control.stage ≡ stage.Clear }
    requires within { first ≤ cells }
    ensures cleared { ClearsOn seat.old seat.new }
    ensures collector { IsCollectors seat.new.me }
{
    for cell in first..cells {
        clear_at(heap, seat, mutators, cell);
    }
}

/// Loads the colour of a cell.
pub(crate) fn see_at<P: Keeping>(
    heap: &CellHeap<P>,
    seat: &mut HeapSeat<P>,
    mutators: u32,
    cell: u32,
) -> Colour
    requires seat { IsSeatOf heap.now seat.old }
    requires collector { IsCollectors seat.old.me }
    requires mutators { mutators ≡ seat.old.me.shape.mutators }
    requires can { can (collector_state seat.old.me) (event.See cell) ≡ true }
    ensures told { seat.new ≡ collector_tells seat.old (event.See cell) (finds.Colour result) }
    ensures known { FindsKnown seat.old.me (event.See cell) (finds.Colour result) }
    ensures collector { IsCollectors seat.new.me }
{
    let word = colour_word(mutators, cell);
    let found = heap.collector_load::<Brand>(seat, Event::See(cell), word);
    colour_of(found)
}

/// Goes by the cells from the cursor on, up to a gray one, whose number it gives.
fn see_from<P: Keeping>(
    heap: &CellHeap<P>,
    seat: &mut HeapSeat<P>,
    cells: u32,
    mutators: u32,
    first: u32,
) -> Option<u32>
    requires seat { IsSeatOf heap.now seat.old }
    requires collector { IsCollectors seat.old.me }
    requires cells { cells ≡ seat.old.me.shape.cells }
    requires mutators { mutators ≡ seat.old.me.shape.mutators }
    requires first { first ≡ seat.old.me.part.cursor }
    requires stage { seat.old.me.control.stage ≡ stage.Trace }
    requires answered { list_all (λ answered. answered) seat.old.me.part.answered ≡ true }
    requires scan { seat.old.me.part.scan ≡ None }
    requires within { first ≤ cells }
    ensures seen { SeesOn result seat.old seat.new }
    ensures collector { IsCollectors seat.new.me }
{
    for cell in first..cells {
        let colour = see_at(heap, seat, mutators, cell);
        if is_gray(colour) {
            return Some(cell);
        }
    }
    None
}

impl<P: Keeping> ColSeat<P> {
    /// Clears the cells from the cursor on: a compare and exchange on the colour of each.
    pub fn clear_on(&mut self, heap: &CellHeap<P>)
        requires seat { IsSeatOf heap.now self.old }
        requires stage { self.old.me.control.stage ≡ stage.Clear }
        requires within { self.old.me.part.cursor ≤ self.old.me.shape.cells }
        ensures cleared { ClearsOn self.old self.new }
    {
        let first = self.progress.cursor;
        clear_from(heap, &mut self.seat, self.cells, self.mutators, first);
        self.progress.cursor = self.cells;
    }

    /// Goes on by cells that are not gray, from the cursor on, up to a gray one, which is under
    /// scan from then on; or by the last cell. It gives the number of the gray one. A load a cell.
    pub fn see_on(&mut self, heap: &CellHeap<P>) -> Option<u32>
        requires seat { IsSeatOf heap.now self.old }
        requires stage { self.old.me.control.stage ≡ stage.Trace }
        requires answered { list_all (λ answered. answered) self.old.me.part.answered ≡ true }
        requires scan { self.old.me.part.scan ≡ None }
        requires within { self.old.me.part.cursor ≤ self.old.me.shape.cells }
        ensures seen { SeesOn result self.old self.new }
    {
        let first = self.progress.cursor;
        match see_from(heap, &mut self.seat, self.cells, self.mutators, first) {
            Some(cell) => {
                self.progress.cursor = cell;
                self.progress.clean = false;
                self.progress.scan = Some(Scanning {
                    cell,
                    next: 0,
                    child: None,
                });
                Some(cell)
            }
            None => {
                self.progress.cursor = self.cells;
                None
            }
        }
    }
}

ghost use Rattle.std.specs.Prelude.{◌≡◌, ◌<◌, ◌≤◌, ◌^◌, None, is_some, length, true};
ghost use Rattle.std.specs.List.{list_all};
ghost use Rattle.cell_words.specs.declared.controls.Stage.TheVariants as stage;
ghost use Rattle.core_machine.specs.State.{greatest_cells};
ghost use Rattle.heap_rule.specs.Opening.{opening_view};

use crate::progress::Progress;
use cell_words::{Control, Stage};
use core_machine::{Scanning, Sweeping};
use heap_rule::Keeping;
use heap_table::{CellHeap, HeapSeat};
use std::marker::Model;

/// The collector's seat. Each call is one event of the event table by one atomic operation, and its
/// condition is the one that the table has for it. No call takes memory.
#[derive(Drop)]
pub struct ColSeat<P: Keeping> {
    pub(crate) seat: HeapSeat<P>,
    pub(crate) cells: u32,
    pub(crate) mutators: u32,
    pub(crate) control: Control,
    pub(crate) progress: Progress,
}

impl<P: Keeping> Model for ColSeat<P> {
    ghost use Rattle.cell_heap.specs.Collecting.{IsCollector};
    ghost use Rattle.cell_words.specs.contracts.terms.Term as term;
    ghost use Rattle.heap_table.specs.Seats.{SeatView};
    ghost use Rattle.std.specs.Coded.{codes};

    ghost Value = { SeatView P };

    ghost coded = { Prim.hlevel (codes, term.the_row.coded) };

    ghost view = { λ s. s.seat };

    ghost invariant = { λ s. IsCollector s.seat.me s.cells s.mutators s.control s.progress };
}

impl<P: Keeping> ColSeat<P> {
    /// The collector's seat, of a heap that was opened just now.
    pub fn of(heap: &CellHeap<P>, seat: HeapSeat<P>) -> ColSeat<P>
        requires opening { seat
            ≡ record { table = heap.now.table; me = opening_view P.opening heap.now.shape } }
        requires some_cells { 0 < heap.now.shape.cells }
        requires few_cells { heap.now.shape.cells ≤ greatest_cells }
        ensures seat { result ≡ seat }
    {
        let control = Control {
            stage: Stage::Idle,
            position: 0,
            cycles: 0,
            duty: false,
        };
        let progress = Progress {
            cursor: 0,
            clean: false,
            scan: None,
            sweep: Sweeping::Fresh,
            freed: 0,
        };
        ColSeat {
            seat,
            cells: heap.cells(),
            mutators: heap.mutators(),
            control,
            progress,
        }
    }

    /// The bare seat.
    pub fn into_seat(self) -> HeapSeat<P>
        ensures seat { result ≡ self }
    {
        let ColSeat { seat, .. } = self;
        seat
    }

    /// How many cells the heap has.
    pub fn cells(&self) -> u32
        ensures cells { result ≡ self.now.me.shape.cells }
        ensures some { 0 < result }
    {
        self.cells
    }

    /// How many mutators it has. The seat keeps for each whether it has answered, and whether it
    /// was found over; once all were, it knows the state.
    pub fn mutators(&self) -> u32
        ensures mutators { result ≡ self.now.me.shape.mutators }
        ensures answers { length self.now.me.part.answered ≡ result }
        ensures over { length self.now.me.over ≡ result }
        ensures knows { 0 < result → list_all (λ found. found) self.now.me.over ≡ true
            → is_some self.now.me.alone ≡ true }
    {
        self.mutators
    }

    /// The control, as this seat stored it last.
    pub fn control(&self) -> Control
        ensures control { result ≡ self.now.me.control }
    {
        self.control
    }

    /// The cell that clearing, or this pass of tracing, has come to.
    pub fn cursor(&self) -> u32
        ensures cursor { result ≡ self.now.me.part.cursor }
    {
        self.progress.cursor
    }

    /// Whether this pass of tracing has met no gray cell.
    pub fn is_clean(&self) -> bool
        ensures clean { result ≡ self.now.me.part.clean }
    {
        self.progress.clean
    }

    /// The scan of a gray cell, while there is one.
    pub fn scanning(&self) -> Option<Scanning>
        ensures scan { result ≡ self.now.me.part.scan }
        ensures none { self.now.me.control.stage ≡ stage.Idle → result ≡ None }
    {
        self.progress.scan
    }

    /// How far the sweep of the cell at the position is.
    pub fn sweeping(&self) -> Sweeping
        ensures sweep { result ≡ self.now.me.part.sweep }
    {
        self.progress.sweep
    }

    /// How many cells this seat freed in all.
    pub fn freed(&self) -> u64
        ensures freed { result ≡ self.now.me.part.number_freed }
        ensures few { result < 2 ^ 63 }
    {
        self.progress.freed
    }
}

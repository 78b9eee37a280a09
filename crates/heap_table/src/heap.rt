ghost use Rattle.std.specs.Prelude.{◌≡◌};

use crate::rule::HeapRule;
use atomic_table::{Seat, Table};
use heap_rule::{HeapShape, Keeping, View};
use std::alloc::Global;
use std::marker::Model;

/// A collected heap: words that threads share, of which each changes in single atomic steps. There
/// is one for the control, one a mutator and seven a cell (`core_machine`, specs/Table, says where
/// each lies).
///
/// Between any two steps the words show a core state that the steps have led to, and the client's
/// rule stands on its boxes (`heap_rule`).
#[derive(Drop)]
pub struct CellHeap<P: Keeping> {
    pub(crate) table: Table<(), View<P>, HeapShape, HeapRule<P>, Global>,
    pub(crate) cells: u32,
    pub(crate) mutators: u32,
}

impl<P: Keeping> Model for CellHeap<P> {
    ghost use Rattle.heap_table.specs.Seats.{HeapId, IsHeap};

    ghost Value = { HeapId };

    ghost view = { λ h. record { table = h.table.shared.table_id; shape = h.table.shared.key } };

    ghost invariant = { λ h. IsHeap h.table.shared.table_id h.table.shared.key h.cells h.mutators };
}

impl<P: Keeping> CellHeap<P> {
    /// The number of cells.
    pub fn cells(&self) -> u32
        ensures cells { result ≡ self.now.shape.cells }
    {
        self.cells
    }

    /// The number of mutators.
    pub fn mutators(&self) -> u32
        ensures mutators { result ≡ self.now.shape.mutators }
    {
        self.mutators
    }
}

/// The right to make steps on a heap, and what its owner knows. It takes no room at run time, and
/// whoever has it steps with it: a mutator's events, or the collector's.
#[derive(Drop)]
pub struct HeapSeat<P> {
    pub(crate) seat: Seat<(), View<P>>,
}

impl<P> Model for HeapSeat<P> {
    ghost use Rattle.std.specs.Prelude.{◌≡◌, []};
    ghost use Rattle.std.specs.Coded.{codes};
    ghost use Rattle.cell_words.specs.contracts.terms.Term as term;
    ghost use Rattle.heap_table.specs.Seats.{SeatView};

    ghost Value = { SeatView P };

    ghost coded = { Prim.hlevel (codes, term.the_row.coded) };

    ghost view = { λ s. record { table = s.seat.table_id; me = s.seat.me.0 } };

    ghost invariant = { λ s. s.seat.me.1 ≡ [] };
}

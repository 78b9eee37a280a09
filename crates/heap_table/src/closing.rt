//! Closing a heap: its words stay, as an image that no thread changes any more.
ghost use Rattle.std.specs.Prelude.{◌≡◌, ◌<◌, length, slice_index};
ghost use Rattle.core_machine.specs.State.{State, colour_of, field_of};
ghost use Rattle.heap_rule.specs.Laws.{Ended};
ghost use Rattle.heap_rule.specs.declared.view.Role.TheVariants as role;
ghost use Rattle.heap_table.specs.Images.{Shows};
ghost use Rattle.heap_table.specs.Seats.{IsSeatOf};

use crate::heap::{CellHeap, HeapSeat};
use crate::words::{colour_of, control_of, field_of};
use atomic_table::Closed;
use cell_words::{Colour, Control, Field};
use heap_rule::{Keeping, View};
use std::alloc::Global;
use std::marker::Model;
use std::snapshot::Snapshot;

/// The words of a heap at its close.
pub struct Image {
    closed: Closed<(), Global>,
    cells: u32,
    mutators: u32,
}

impl Model for Image {
    ghost use Rattle.std.specs.Prelude.{◌≡◌};
    ghost use Rattle.std.specs.Mem.Slots.{IsFull, slots_items, slots_len};
    ghost use Rattle.heap_table.specs.Images.{ImageView, IsImage};

    ghost Value = { ImageView };

    ghost view = { λ i. record {
      words = slots_items i.closed.words;
      cells = i.cells;
      mutators = i.mutators;
    } };

    ghost invariant = { λ i. IsFull i.closed.words × (slots_len i.closed.slots ≡ 0)
        × IsImage record { words = slots_items i.closed.words; cells = i.cells; mutators = i.mutators } };
}

impl Drop for Image {
    fn drop(self) {
        let Image {
            closed,
            cells: _,
            mutators: _,
        } = self;
        closed.free();
    }
}

/// What the collector's seat knew at the close: its own part and trail, and of each mutator that
/// was joined the part, the pass and the trail. It takes no room.
#[derive(Drop)]
pub struct Passes<P> {
    seat: Snapshot<HeapSeat<P>>,
}

impl<P> Model for Passes<P> {
    ghost use Rattle.std.specs.Coded.{codes};
    ghost use Rattle.cell_words.specs.contracts.terms.Term as term;
    ghost use Rattle.heap_rule.specs.declared.view.View.{View as HeapView};

    ghost Value = { HeapView P };

    ghost coded = { Prim.hlevel (codes, term.the_row.coded) };

    ghost view = { λ p. p.seat.value.me };
}

impl<P: Keeping> CellHeap<P> {
    /// Closes the heap with the collector's seat.
    pub fn close(self, seat: HeapSeat<P>) -> (Image, Passes<P>)
        requires seat { IsSeatOf self seat }
        requires role { seat.me.role ≡ role.Collector }
        ensures sizes { (result.0.cells ≡ self.shape.cells) × (result.0.mutators ≡ self.shape.mutators) }
        ensures ended { Ended P.opening P.holds P.fixed self.shape (Unit {0}) result.0.words seat.me }
        ensures shown { (ended : Ended P.opening P.holds P.fixed self.shape (Unit {0}) result.0.words seat.me)
            → Shows result.0 ended.shows.core }
        ensures passes { result.1 ≡ seat.me }
    {
        let passes = Passes {
            seat: Snapshot::of(&seat),
        };
        let HeapSeat { seat } = seat;
        let CellHeap {
            table,
            cells,
            mutators,
        } = self;
        let closed = table.close_with(seat);
        (
            Image {
                closed,
                cells,
                mutators,
            },
            passes,
        )
    }
}

impl Image {
    fn word(&self, index: usize) -> u64
        requires { index < length self.now.words }
        ensures word { result ≡ slice_index self.now.words index }
    {
        self.closed.word(index)
    }

    /// The number of cells.
    pub fn cells(&self) -> u32
        ensures cells { result ≡ self.now.cells }
    {
        self.cells
    }

    /// The control at the close.
    pub fn control(&self) -> Control
        ensures control { (s : State) → Shows self.now s → result ≡ s.control }
    {
        let _ = &self.closed;
        control_of(self.word(0))
    }

    /// The colour of a cell.
    pub fn colour(&self, cell: u32) -> Colour
        requires cell { cell < self.now.cells }
        ensures colour { (s : State) → Shows self.now s → result ≡ colour_of s cell }
    {
        let index = 1 + self.mutators as usize + 7 * cell as usize;
        colour_of(self.word(index))
    }

    /// A field of a cell: the payload 0 to 4, and the kind in field 5.
    pub fn field(&self, cell: u32, i: usize) -> Field
        requires cell { cell < self.now.cells }
        requires field { i < 6 }
        ensures field { (s : State) → Shows self.now s → result ≡ field_of s cell i }
    {
        let index = 1 + self.mutators as usize + 7 * cell as usize + 1 + i;
        field_of(self.word(index))
    }
}

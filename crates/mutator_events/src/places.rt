//! What places stand for: cells, and the words of these.
ghost use Rattle.std.specs.Prelude.{length, true, ◌≡◌, ◌<◌};
ghost use Rattle.cell_words.specs.Field.{IsValidField};
ghost use Rattle.core_machine.specs.Places.{names_rightly};
ghost use Rattle.core_machine.specs.Table.{ColourOf, FieldOf, index_of};
ghost use Rattle.heap_rule.specs.Asks.{target};
ghost use Rattle.heap_table.specs.Seats.{IsSeatOf, words_many};
ghost use Rattle.mutator_events.specs.Values.{field_at};

use crate::cells::field_among;
use crate::seat::MutSeat;
use crate::values::Value;
use crate::words::{colour_word, field_word};
use cell_words::Field;
use heap_rule::Keeping;
use heap_table::CellHeap;

impl<P: Keeping> MutSeat<P> {
    /// The cell that it holds at a place.
    pub(crate) fn cell(&self, place: usize) -> u32
        requires there { place < length self.now.me.own.held }
        ensures cell { result ≡ target self.now.me place }
        ensures below { result < self.now.me.shape.cells }
    {
        self.held[place]
    }

    /// What a value stands for.
    pub(crate) fn stands_for(&self, value: Value) -> Field
        requires names { names_rightly self.now.me.own.held (field_at self.now.me.own.held value)
            ≡ true }
        ensures field { result ≡ field_at self.now.me.own.held value }
        ensures valid { IsValidField result }
    {
        field_among(&self.held, value)
    }

    /// Where the colour word of the cell at a place lies.
    pub(crate) fn colour_at(&self, heap: &CellHeap<P>, place: usize) -> usize
        requires seat { IsSeatOf heap.now self.now }
        requires there { place < length self.now.me.own.held }
        ensures word { result
            ≡ index_of self.now.me.shape.mutators (ColourOf (target self.now.me place)) }
        ensures below { result < words_many heap.now.shape }
    {
        let cell = self.cell(place);
        colour_word(heap, cell)
    }

    /// Where a field word of the cell at a place lies.
    pub(crate) fn field_at(&self, heap: &CellHeap<P>, place: usize, field: usize) -> usize
        requires seat { IsSeatOf heap.now self.now }
        requires there { place < length self.now.me.own.held }
        requires field { field < 6 }
        ensures word { result
            ≡ index_of self.now.me.shape.mutators (FieldOf (target self.now.me place) field) }
        ensures below { result < words_many heap.now.shape }
    {
        let cell = self.cell(place);
        field_word(heap, cell, field)
    }
}

//! Where words lie in the table, and what is written there.
ghost use Rattle.std.specs.Prelude.{◌≡◌, ◌<◌};
ghost use Rattle.cell_words.specs.Field.{IsValidField};
ghost use Rattle.core_machine.specs.Table.{ColourOf, FieldOf, StatusOf, index_of};
ghost use Rattle.core_machine.specs.Words.{kind_field};
ghost use Rattle.heap_table.specs.Seats.{words_many};

use cell_words::{Field, Kind};
use heap_rule::Keeping;
use heap_table::CellHeap;

/// The word of the control.
pub(crate) const CONTROL: usize = 0;

/// Where the status word of a mutator lies.
pub(crate) fn status_word<P: Keeping>(heap: &CellHeap<P>, number: u32) -> usize
    requires number { number < heap.now.shape.mutators }
    ensures word { result ≡ index_of heap.now.shape.mutators (StatusOf number) }
    ensures below { result < words_many heap.now.shape }
{
    let _ = heap;
    1 + number as usize
}

/// Where the colour word of a cell lies.
pub(crate) fn colour_word<P: Keeping>(heap: &CellHeap<P>, cell: u32) -> usize
    requires cell { cell < heap.now.shape.cells }
    ensures word { result ≡ index_of heap.now.shape.mutators (ColourOf cell) }
    ensures below { result < words_many heap.now.shape }
{
    1 + heap.mutators() as usize + 7 * cell as usize
}

/// Where a field word of a cell lies.
pub(crate) fn field_word<P: Keeping>(heap: &CellHeap<P>, cell: u32, field: usize) -> usize
    requires cell { cell < heap.now.shape.cells }
    requires field { field < 6 }
    ensures word { result ≡ index_of heap.now.shape.mutators (FieldOf cell field) }
    ensures below { result < words_many heap.now.shape }
{
    1 + heap.mutators() as usize + 7 * cell as usize + 1 + field
}

/// What field 5 of a sealed cell is.
pub(crate) fn kind_field(kind: Kind) -> Field
    ensures field { result ≡ kind_field kind }
    ensures valid { IsValidField result }
{
    match kind {
        Kind::Record => Field::Num(1),
        Kind::Boxed => Field::Num(2),
    }
}

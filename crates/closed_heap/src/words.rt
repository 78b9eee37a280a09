//! The fields of a closed heap, read off its image: whatever the run was, and for whoever walks
//! from cell to cell.
ghost use Rattle.std.specs.Prelude.{◌≡◌, ◌<◌};
ghost use Rattle.closed_heap.specs.Words.{number_in};
ghost use Rattle.core_machine.specs.State.{State, field_of};
ghost use Rattle.heap_table.specs.Images.{Shows};

use cell_words::Field;
use heap_table::Image;

/// A field of a cell, and null where there is no such cell.
pub fn field_at(image: &Image, cell: u32, i: usize) -> Field
    requires { i < 6 }
    ensures field { (s : State) → Shows image.now s → result ≡ field_of s cell i }
{
    if cell < image.cells() {
        image.field(cell, i)
    } else {
        Field::Null
    }
}

/// The number that a field is, and 0 where it is none.
pub fn number_of(field: Field) -> u64
    ensures number { result ≡ number_in field }
{
    match field {
        Field::Num(number) => number,
        Field::Null | Field::Cell(_) => 0,
    }
}

//! The cells of a held list, place by place, as the seat has them. Their memory is reserved.
ghost use Rattle.std.specs.Prelude.{◌≡◌, ◌+◌, ◌<◌, ◌≤◌, IsTrue};
ghost use Rattle.std.specs.Prelude.{length, slice_index_or, take, vec_capacity};
ghost use Rattle.cell_words.specs.Field.{IsValidField};
ghost use Rattle.mutator_events.specs.Values.{cells_kept, cells_read, field_among, is_small};
ghost use Rattle.mutator_events.specs.Values.{value_found};

use crate::values::Value;
use cell_words::Field;

/// What a value stands for. Past the end it is the anchor.
pub(crate) fn field_among(cells: &[u32], value: Value) -> Field
    requires small { IsTrue (is_small value) }
    ensures field { result ≡ field_among cells.now value }
    ensures valid { IsValidField result }
{
    match value {
        Value::Null => Field::Null,
        Value::Num(number) => Field::Num(number),
        Value::Held(place) => Field::Cell(cell_among(cells, place)),
    }
}

/// The cell at a place, and the anchor past the end.
fn cell_among(cells: &[u32], place: usize) -> u32
    ensures cell { result ≡ slice_index_or cells.now place 0 }
{
    if place < cells.len() { cells[place] } else { 0 }
}

/// Holds the cell that a read found, if it found one, and gives the place.
pub(crate) fn hold_found(cells: &mut Vec<u32>, found: Field) -> Value
    requires room { length cells.old.items < vec_capacity cells.old }
    ensures value { result ≡ value_found (length cells.old.items) found }
    ensures cells { cells.new.items ≡ cells_read cells.old.items found }
    ensures capacity { vec_capacity cells.old ≤ vec_capacity cells.new }
{
    match found {
        Field::Null => Value::Null,
        Field::Num(number) => Value::Num(number),
        Field::Cell(cell) => {
            let place = cells.len();
            cells.push_reserved(cell);
            Value::Held(place)
        }
    }
}

/// The first `count` cells, and then the `copies` that stood from `from` on.
///
/// The copies may lie among the first ones and reach past the end, so the list is first made as
/// long as it needs to be.
pub(crate) fn keep_cells(cells: &mut Vec<u32>, count: usize, from: usize, copies: usize)
    requires count { count ≤ length cells.old.items }
    requires from { from + copies ≤ length cells.old.items }
    requires capacity { count + copies ≤ vec_capacity cells.old }
    ensures cells { cells.new.items ≡ cells_kept cells.old.items count from copies }
    ensures capacity { vec_capacity cells.old ≤ vec_capacity cells.new }
{
    lengthen(cells, count + copies);
    cells.copy_within(from..from + copies, count);
    cells.truncate(count + copies);
}

/// Adds anchors at the end until there are so many cells.
fn lengthen(cells: &mut Vec<u32>, len: usize)
    requires capacity { len ≤ vec_capacity cells.old }
    ensures front { take (length cells.old.items) cells.new.items ≡ cells.old.items }
    ensures long { len ≤ length cells.new.items }
    ensures capacity { vec_capacity cells.old ≤ vec_capacity cells.new }
{
    while cells.len() < len {
        cells.push_reserved(0);
    }
}

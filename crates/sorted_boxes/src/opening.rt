//! What a heap opens with whose fields are sorted.
ghost use Rattle.std.specs.Prelude.{◌≡◌};
ghost use Rattle.heap_rule.specs.Shape.{Shape};
ghost use Rattle.heap_table.specs.Opening.{Opens};
ghost use Rattle.sorted_rule.specs.Opening.{first_rows};
ghost use Rattle.sorted_rule.specs.Sorted.{HoldsSorted, opening_pass};
ghost use Rattle.sorted_rule.specs.declared.sorting.Sorting.{Sorting};

use cell_words::{Field, Row};

/// The kind of the first row.
const BOXED: Field = Field::Num(2);

/// The first row, that of the anchor, with nothing in it.
pub fn opening_rows() -> [Row; 1]
    ensures rows { result ≡ first_rows }
{
    let null = Field::Null;
    [[null, null, null, null, null, BOXED]]
}

/// A heap with this first row opens with the rule, whatever its setting and its numbers of cells
/// and of mutators: what `ColSeat::open` asks.
pub fn a_heap_opens_sorted()
    ensures { (h : Shape) → h.first ≡ first_rows
        → Opens {P = Sorting} opening_pass HoldsSorted h }
{}

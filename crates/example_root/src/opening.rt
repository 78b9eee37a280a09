//! The opening of a heap with the box, and two mutators.
ghost use Rattle.std.specs.Prelude.{◌≤◌, IfOk};
ghost use Rattle.mutator_threads.specs.Mutators.{IsOpened};
ghost use Rattle.example_root.specs.Leaving.{kept_shape};
ghost use Rattle.example_root.specs.Rule.{nothing_kept};
ghost use Rattle.example_root.specs.Working.{anything_of};

use crate::kept::Kept;
use cell_heap::NoMemory;
use cell_words::Field;
use mutator_threads::{Opened, open};
use std::alloc::Global;
use std::sync::Wait;

/// The kind of the first rows.
const BOXED: Field = Field::Num(2);

/// Opens a heap of so many cells for two mutators, of which the anchor names the box, with nothing
/// in it.
pub(crate) fn open_two<R: Wait>(
    alloc: Global,
    rt: &R,
    cells: u32,
) -> Result<Opened<Kept, ()>, NoMemory>
    requires some { 2 ≤ cells }
    requires few { cells ≤ 1000 }
    ensures opened { IfOk result (λ made.
        IsOpened nothing_kept (kept_shape cells) 8 anything_of made) }
{
    let null = Field::Null;
    let anchor = [Field::Cell(1), null, null, null, null, BOXED];
    let empty = [null, null, null, null, null, BOXED];
    let own = move |_number: u32| -> Result<(), NoMemory>
        ensures { IfOk result (λ made. anything_of 0 made) }
    { Ok(()) };
    open(alloc, rt, cells, 2, 0, &[anchor, empty], 8, own)
}

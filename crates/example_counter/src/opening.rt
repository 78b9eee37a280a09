//! The opening of a heap with the counter, and a mutator for each thread.
ghost use Rattle.std.specs.Prelude.{◌≤◌, IfOk};
ghost use Rattle.mutator_threads.specs.Mutators.{IsOpened};
ghost use Rattle.example_counter.specs.Adding.{IsIdle};
ghost use Rattle.example_counter.specs.Counting.{nothing_added};
ghost use Rattle.example_counter.specs.Leaving.{counter_shape};

use crate::counter::Added;
use crate::running::{Adder, new_adder};
use cell_heap::NoMemory;
use cell_words::Field;
use mutator_threads::{Opened, open};
use std::alloc::Global;
use std::sync::Wait;

/// The kinds of the first rows.
const RECORD: Field = Field::Num(1);

const BOXED: Field = Field::Num(2);

/// Opens a heap of so many cells for so many threads, of which the anchor names the record of 0.
/// Each mutator may hold eight cells.
pub(crate) fn open_counter<R: Wait>(
    alloc: Global,
    rt: &R,
    cells: u32,
    threads: u32,
) -> Result<Opened<Added, Adder>, NoMemory>
    requires some { 2 ≤ cells }
    requires few { cells ≤ 1000 }
    ensures opened { IfOk result (λ made. IsOpened nothing_added (counter_shape cells threads) 8
        (λ number adder. IsIdle adder) made) }
{
    let null = Field::Null;
    let anchor = [Field::Cell(1), null, null, null, null, BOXED];
    let zero = [Field::Num(0), null, null, null, null, RECORD];
    let own = move |_number: u32| -> Result<Adder, NoMemory>
        ensures { IfOk result (λ made. IsIdle made) }
    { new_adder(alloc) };
    open(alloc, rt, cells, threads, 0, &[anchor, zero], 8, own)
}

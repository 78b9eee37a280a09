//! The opening of a heap with a log, and a mutator for each thread.
ghost use Rattle.std.specs.Prelude.{◌≡◌, ◌≤◌, IfOk};
ghost use Rattle.mutator_threads.specs.Mutators.{IsOpened};
ghost use Rattle.example_log.specs.Appending.{IsIdle};
ghost use Rattle.example_log.specs.Leaving.{log_shape};
ghost use Rattle.example_log.specs.Logging.{nothing_appended};

use crate::log::Appended;
use cell_heap::NoMemory;
use cell_words::Field;
use mutator_threads::{Opened, open};
use std::alloc::Global;
use std::sync::Wait;

/// The kind of the first rows.
const BOXED: Field = Field::Num(2);

/// Opens a heap of so many cells for so many threads, of which the anchor names the box before the
/// first entry. Each mutator may hold eight cells.
pub(crate) fn open_log<R: Wait>(
    alloc: Global,
    rt: &R,
    cells: u32,
    threads: u32,
) -> Result<Opened<Appended, u64>, NoMemory>
    requires some { 2 ≤ cells }
    requires few { cells ≤ 1000 }
    ensures opened { IfOk result (λ made.
        IsOpened nothing_appended (log_shape cells threads) 8 IsIdle made) }
{
    let null = Field::Null;
    let anchor = [Field::Cell(1), null, null, null, null, BOXED];
    let start = [Field::Num(0), null, null, null, null, BOXED];
    let own = move |_number: u32| -> Result<u64, NoMemory>
        ensures { IfOk result (λ count. count ≡ 0) }
    { Ok(0) };
    open(alloc, rt, cells, threads, 0, &[anchor, start], 8, own)
}

//! How often the cells with a role name each cell.
ghost use Rattle.heap_census.specs.Heap.{Heap};
ghost use Rattle.heap_census.specs.Roles.{HasRole, TellsRoles};
ghost use Rattle.heap_census.specs.Times.{TellsShared, Told, is_often, more_often, with_name};
ghost use Rattle.heap_census.specs.declared.layouts.Role.{Role as RoleOf};
ghost use Rattle.std.specs.Prelude.{IfOk, length, ◌+◌, ◌<◌, ◌≡◌};

use crate::flags::Roles;
use crate::reading::Cells;
use cell_words::Field;
use heap_table::NoMemory;
use std::alloc::Global;

/// How many fields were seen that name a cell.
#[derive(Clone, Copy)]
pub(crate) enum Times {
    Never,
    Once,
    Often,
}

impl Times {
    pub(crate) fn is_often(self) -> bool
        ensures { result ≡ is_often self }
    {
        matches!(self, Times::Often)
    }

    // Once more.
    fn more_often(self) -> Times
        ensures { result ≡ more_often self }
    {
        match self {
            Times::Never => Times::Once,
            Times::Once | Times::Often => Times::Often,
        }
    }
}

/// How often each cell is named.
pub(crate) fn times_named<C: Cells>(
    alloc: Global,
    cells: &C,
    marks: &[Roles],
) -> Result<Vec<Times>, NoMemory>
    requires { length marks.now ≡ C.size cells.now }
    ensures size { IfOk result (λ times. length times.items ≡ C.size cells.now) }
    ensures shared { IfOk result (λ times. (h : Heap) → C.shows cells.now h → TellsRoles h marks.now
        → TellsShared h times.items) }
{
    let count = cells.cells();
    let mut times = vec![in alloc; Times::Never; count as usize]?;
    for cell in 0..count {
        if marks[cell as usize].has_any() {
            add_names(cells, cell, &mut times);
        }
    }
    Ok(times)
}

// The cell names others.
fn add_names<C: Cells>(cells: &C, cell: u32, times: &mut [Times])
    requires size { length times.old ≡ C.size cells.now }
    requires cell { cell < C.size cells.now }
    ensures { (h : Heap) → C.shows cells.now h → (r : RoleOf) → HasRole h r cell
        → Told h cell 0 times.old → Told h (cell + 1) 0 times.new }
{
    for i in 0..6 {
        if let Field::Cell(named) = cells.field(cell, i) {
            add_name(named, times);
        }
    }
}

fn add_name(named: u32, times: &mut [Times])
    ensures { times.new ≡ with_name times.old named }
{
    let index = named as usize;
    if index < times.len() {
        times[index] = times[index].more_often();
    }
}

//! Taking a census.
ghost use Rattle.heap_census.specs.Census.{AddsUp, IsCensus, IsFaulty, IsSound};
ghost use Rattle.heap_census.specs.Flaws.{IsChecked};
ghost use Rattle.heap_census.specs.Heap.{Heap};
ghost use Rattle.heap_census.specs.Roles.{TellsRoles};
ghost use Rattle.heap_census.specs.Times.{TellsShared};
ghost use Rattle.std.specs.Prelude.{IfOk, IfSome, MatchOption, length, ◌≡◌};

use crate::counting::{count_floating, count_free, count_role, count_shared};
use crate::finding::find_roles;
use crate::flags::Roles;
use crate::flaws::{Flawed, first_flaw};
use crate::layouts::Role;
use crate::naming::{Times, times_named};
use crate::numbers::Census;
use crate::reading::Cells;
use heap_table::NoMemory;
use std::alloc::Global;

/// The census of cells, or the first of them with which something is wrong.
#[derive(Clone, Copy, Debug, PartialEq, Eq)]
pub enum Checked {
    Sound(Census),
    Faulty(Flawed),
}

/// The census of any cells that nobody changes any more. There is none where a cell with a role is
/// free or has not its layout.
pub fn census_of<C: Cells>(alloc: Global, cells: &C) -> Result<Option<Census>, NoMemory>
    ensures found { IfOk result (λ found. (h : Heap) → C.shows cells.now h
        → MatchOption found (IsFaulty h) (λ x. IsSound h)) }
    ensures counts { IfOk result (λ found. (h : Heap) → C.shows cells.now h
        → IfSome found (IsCensus h)) }
    ensures sum { IfOk result (λ found. (h : Heap) → C.shows cells.now h
        → IfSome found AddsUp) }
{
    let checked = check_cells(alloc, cells)?;
    match checked {
        Checked::Sound(census) => Ok(Some(census)),
        Checked::Faulty(_) => Ok(None),
    }
}

/// The census of any cells that nobody changes any more, or what is wrong with them.
pub fn check_cells<C: Cells>(alloc: Global, cells: &C) -> Result<Checked, NoMemory>
    ensures { IfOk result (λ found. (h : Heap) → C.shows cells.now h → IsChecked h found) }
{
    let marks = find_roles(alloc, cells)?;
    if let Some(flawed) = first_flaw(cells, &marks) {
        return Ok(Checked::Faulty(flawed));
    }
    let times = times_named(alloc, cells, &marks)?;
    Ok(Checked::Sound(counted(cells, &marks, &times)))
}

// The numbers of a heap whose cells with a role have their layouts.
fn counted<C: Cells>(cells: &C, marks: &[Roles], times: &[Times]) -> Census
    requires marks { length marks.now ≡ C.size cells.now }
    requires times { length times.now ≡ C.size cells.now }
    ensures { (h : Heap) → C.shows cells.now h → TellsRoles h marks.now
        → TellsShared h times.now → IsSound h → IsCensus h result × AddsUp result }
{
    Census {
        cells: u64::from(cells.cells()),
        free: count_free(cells),
        versions: count_role(marks, Role::Version),
        nodes: count_role(marks, Role::Node),
        entries: count_role(marks, Role::Entry),
        texts: count_role(marks, Role::Text),
        shared: count_shared(times),
        floating: count_floating(cells, marks),
    }
}

//! What can be wrong with a cell, so that there is no census.
ghost use Rattle.heap_census.specs.Flags.{has_any};
ghost use Rattle.heap_census.specs.Flaws.{IsFirstFlaw, IsFlawOf, NamesFree, names_free};
ghost use Rattle.heap_census.specs.Flaws.{StandsBlue, TellsRole};
ghost use Rattle.heap_census.specs.Heap.{Heap};
ghost use Rattle.heap_census.specs.Roles.{TellsRoles};
ghost use Rattle.core_machine.specs.InRange.{NamesBelow};
ghost use Rattle.std.specs.Prelude.{false, length, true, ◌<◌, ◌≡◌};

use crate::checking::{fits_all, is_free};
use crate::flags::Roles;
use crate::reading::Cells;
use cell_words::Field;

/// What is wrong with a cell. Where both are, the first counts.
#[derive(Clone, Copy, Debug, PartialEq, Eq)]
pub enum Flaw {
    /// the anchor is free, or a cell with a role names a free one
    Blue,
    /// a cell in use has not the layout of its role, or has two roles
    BadShape,
}

/// A cell, and what is wrong with it.
#[derive(Clone, Copy, Debug, PartialEq, Eq)]
pub struct Flawed {
    pub cell: u32,
    pub flaw: Flaw,
}

/// The least cell with which something is wrong, if there is one.
pub(crate) fn first_flaw<C: Cells>(cells: &C, marks: &[Roles]) -> Option<Flawed>
    requires { length marks.now ≡ C.size cells.now }
    ensures { (h : Heap) → C.shows cells.now h → TellsRoles h marks.now → IsFirstFlaw h result }
{
    for cell in 0..cells.cells() {
        if let Some(flaw) = flaw_of(cells, marks[cell as usize], cell) {
            return Some(Flawed { cell, flaw });
        }
    }
    None
}

// What is wrong with a cell that has these roles.
fn flaw_of<C: Cells>(cells: &C, roles: Roles, cell: u32) -> Option<Flaw>
    requires { cell < C.size cells.now }
    ensures { (h : Heap) → C.shows cells.now h → TellsRole h roles cell → IsFlawOf h cell result }
{
    if stands_blue(cells, roles, cell) {
        return Some(Flaw::Blue);
    }
    if is_free(cells.colour(cell)) || fits_all(cells, roles, cell) {
        return None;
    }
    Some(Flaw::BadShape)
}

// Whether the cell is the anchor and free, or has a role and names a free cell.
fn stands_blue<C: Cells>(cells: &C, roles: Roles, cell: u32) -> bool
    requires { cell < C.size cells.now }
    ensures is { (h : Heap) → C.shows cells.now h → TellsRole h roles cell → result ≡ true
        → StandsBlue h cell }
    ensures not { (h : Heap) → C.shows cells.now h → TellsRole h roles cell → result ≡ false
        → StandsBlue h cell → ⊥ }
{
    let is_anchor = cell == 0 && is_free(cells.colour(cell));
    is_anchor || (roles.has_any() && names_free(cells, cell))
}

// Whether a field of the cell names a free one.
fn names_free<C: Cells>(cells: &C, cell: u32) -> bool
    requires { cell < C.size cells.now }
    ensures is { (h : Heap) → C.shows cells.now h → result ≡ true → NamesFree h cell }
    ensures not { (h : Heap) → C.shows cells.now h → result ≡ false → NamesFree h cell → ⊥ }
{
    for i in 0..6 {
        if is_free_name(cells, cells.field(cell, i)) {
            return true;
        }
    }
    false
}

// Whether the field names a free cell.
fn is_free_name<C: Cells>(cells: &C, field: Field) -> bool
    ensures { (h : Heap) → C.shows cells.now h → NamesBelow (C.size cells.now) field
        → result ≡ names_free h field }
{
    match field {
        Field::Cell(named) => named < cells.cells() && is_free(cells.colour(named)),
        _ => false,
    }
}

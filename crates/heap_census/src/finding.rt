//! The roles of all cells, found by following fields from the anchor. Each field of a cell with a
//! role is looked at once for that role.
ghost use Rattle.heap_census.specs.Heap.{Heap};
ghost use Rattle.heap_census.specs.Roles.{HasRole, TellsRoles};
ghost use Rattle.heap_census.specs.Search.{FoundNamed, GrowsTo, IsFound};
ghost use Rattle.std.specs.Prelude.{IfOk, OnOk, length, ◌<◌, ◌≡◌};

use crate::flags::Roles;
use crate::layouts::{Role, layout, named_by};
use crate::reading::Cells;
use crate::searching::{Named, Searching};
use cell_words::Field;
use heap_table::NoMemory;
use std::alloc::Global;

/// The roles of each cell.
pub(crate) fn find_roles<C: Cells>(alloc: Global, cells: &C) -> Result<Vec<Roles>, NoMemory>
    ensures size { IfOk result (λ marks. length marks.items ≡ C.size cells.now) }
    ensures roles { IfOk result
        (λ marks. (h : Heap) → C.shows cells.now h → TellsRoles h marks.items) }
{
    let mut found = Searching::new(alloc, cells.cells())?;
    found.add(Role::Anchor, 0)?;
    while let Some(next) = found.take() {
        add_named(cells, &mut found, next)?;
    }
    Ok(found.into_marks())
}

// What a cell with a role names is found.
fn add_named<C: Cells>(cells: &C, found: &mut Searching, next: Named) -> Result<(), NoMemory>
    requires size { length found.old.marks ≡ C.size cells.now }
    requires cell { next.cell < C.size cells.now }
    ensures grows { OnOk result (GrowsTo found.old found.new) }
    ensures found { OnOk result ((h : Heap) → C.shows cells.now h → HasRole h next.role next.cell
        → IsFound h found.old → IsFound h found.new) }
    ensures named { OnOk result ((h : Heap) → C.shows cells.now h
        → FoundNamed h next.role next.cell 6 found.new) }
{
    let parts = layout(next.role);
    for i in 0..6 {
        if let Some(role) = named_by(parts[i]) {
            if let Field::Cell(cell) = cells.field(next.cell, i) {
                found.add(role, cell)?;
            }
        }
    }
    Ok(())
}

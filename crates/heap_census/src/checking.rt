//! Whether a cell with roles is in use, and has their layout.
ghost use Rattle.heap_census.specs.Fit.{FitsAs, Misfits};
ghost use Rattle.heap_census.specs.Flags.{has_role};
ghost use Rattle.heap_census.specs.Heap.{Heap};
ghost use Rattle.heap_census.specs.Layouts.{fits, part_of};
ghost use Rattle.core_machine.specs.Words.{is_blue};
ghost use Rattle.std.specs.Prelude.{ℕ, false, true, ◌<◌, ◌≡◌};
ghost use Rattle.heap_census.specs.declared.layouts.Role.{Role as RoleOf};

use crate::flags::Roles;
use crate::layouts::{Role, fits, layout};
use crate::reading::Cells;
use cell_words::Colour;

/// Whether the cell is fit for all its roles.
pub(crate) fn fits_all<C: Cells>(cells: &C, roles: Roles, cell: u32) -> bool
    requires { cell < C.size cells.now }
    ensures fit { (h : Heap) → C.shows cells.now h → result ≡ true
        → (r : RoleOf) → has_role roles r ≡ true → FitsAs h r cell }
    ensures misfit { (h : Heap) → C.shows cells.now h → result ≡ false → Misfits h roles cell }
{
    let boxes = fits_as(cells, roles, cell, Role::Anchor)
        & fits_as(cells, roles, cell, Role::Version);
    let records = fits_as(cells, roles, cell, Role::Node)
        & fits_as(cells, roles, cell, Role::Entry)
        & fits_as(cells, roles, cell, Role::Text);
    boxes & records
}

// Whether the cell is fit for a role, if it has that.
fn fits_as<C: Cells>(cells: &C, roles: Roles, cell: u32, role: Role) -> bool
    requires { cell < C.size cells.now }
    ensures fit { (h : Heap) → C.shows cells.now h → result ≡ true
        → has_role roles role ≡ true → FitsAs h role cell }
    ensures misfit { (h : Heap) → C.shows cells.now h → result ≡ false → Misfits h roles cell }
{
    if !roles.has(role) {
        return true;
    }
    if is_free(cells.colour(cell)) {
        return false;
    }
    has_layout(cells, cell, role)
}

// Whether each field of the cell is one of the layout.
fn has_layout<C: Cells>(cells: &C, cell: u32, role: Role) -> bool
    requires { cell < C.size cells.now }
    ensures fit { (h : Heap) → C.shows cells.now h → result ≡ true
        → (i : ℕ) → i < 6 → fits (part_of role i) (h.field cell i) ≡ true }
    ensures misfit { (h : Heap) → C.shows cells.now h → result ≡ false
        → (i : ℕ) × (i < 6) × (fits (part_of role i) (h.field cell i) ≡ false) }
{
    let parts = layout(role);
    for i in 0..6 {
        if !fits(parts[i], cells.field(cell, i)) {
            return false;
        }
    }
    true
}

/// Whether a cell of this colour is nobody's.
pub(crate) fn is_free(colour: Colour) -> bool
    ensures { result ≡ is_blue colour }
{
    matches!(colour, Colour::Blue)
}

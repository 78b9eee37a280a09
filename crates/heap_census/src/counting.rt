//! How many cells are such.
ghost use Rattle.core_machine.specs.Words.{is_blue};
ghost use Rattle.heap_census.specs.Counts.{count_below};
ghost use Rattle.heap_census.specs.Flags.{floats, has_role, no_roles};
ghost use Rattle.heap_census.specs.Heap.{Heap, is_free};
ghost use Rattle.heap_census.specs.Times.{is_often, never};
ghost use Rattle.std.specs.Prelude.{length, slice_index_or, ◌<◌, ◌^◌, ◌≡◌};

use crate::checking::is_free;
use crate::flags::Roles;
use crate::layouts::Role;
use crate::naming::Times;
use crate::reading::Cells;
use cell_words::Colour;

/// How many cells have the role.
pub(crate) fn count_role(marks: &[Roles], role: Role) -> u64
    requires { length marks.now < 2 ^ 32 }
    ensures { result ≡ count_below (λ c. has_role (slice_index_or marks.now c no_roles) role)
        (length marks.now) }
{
    let mut count = 0;
    for roles in marks {
        if roles.has(role) {
            count += 1;
        }
    }
    count
}

/// How many cells nobody has.
pub(crate) fn count_free<C: Cells>(cells: &C) -> u64
    ensures { (h : Heap) → C.shows cells.now h
        → result ≡ count_below (is_free h) (C.size cells.now) }
{
    let mut count = 0;
    for cell in 0..cells.cells() {
        if is_free(cells.colour(cell)) {
            count += 1;
        }
    }
    count
}

/// How many cells are in use and have no role.
pub(crate) fn count_floating<C: Cells>(cells: &C, marks: &[Roles]) -> u64
    requires { length marks.now ≡ C.size cells.now }
    ensures { (h : Heap) → C.shows cells.now h
        → result ≡ count_below (λ c. floats (is_free h c) (slice_index_or marks.now c no_roles))
        (C.size cells.now) }
{
    let mut count = 0;
    for cell in 0..cells.cells() {
        if is_floating(cells.colour(cell), marks[cell as usize]) {
            count += 1;
        }
    }
    count
}

// Whether a cell of this colour and with these roles is floating.
fn is_floating(colour: Colour, roles: Roles) -> bool
    ensures { result ≡ floats (is_blue colour) roles }
{
    !is_free(colour) && !roles.has_any()
}

/// How many cells are named often.
pub(crate) fn count_shared(times: &[Times]) -> u64
    requires { length times.now < 2 ^ 32 }
    ensures { result ≡ count_below (λ c. is_often (slice_index_or times.now c never))
        (length times.now) }
{
    let mut count = 0;
    for named in times {
        if named.is_often() {
            count += 1;
        }
    }
    count
}

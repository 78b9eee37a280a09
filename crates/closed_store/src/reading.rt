//! What is counted of a closed heap's words: the cells that are used, and the nodes of the latest
//! version's tree. Each is read off the image alone, whatever the run was.
ghost use Rattle.std.specs.Prelude.{List, length, ℕ, ◌≡◌, ◌<◌, ◌≤◌, ◌-◌};
ghost use Rattle.closed_store.specs.Chain.{ShowsVersions};
ghost use Rattle.closed_store.specs.Words.{field_behind};
ghost use Rattle.core_machine.specs.State.{State, colour_of, field_of};
ghost use Rattle.dlg_core.specs.Sums.{is_used as counts, used_count_of};
ghost use Rattle.doc_model.specs.Store.{tree_at};
ghost use Rattle.doc_tree.specs.Tree.{DocTree, count};
ghost use Rattle.heap_table.specs.Images.{Shows};

use cell_words::{Colour, Field};
use closed_heap::{field_at, number_of};
use heap_table::Image;

/// How many cells are not free.
pub fn used_cells(image: &Image) -> u64
    ensures used { (s : State) → Shows image.now s → result ≡ used_count_of s }
    ensures few { result ≤ image.now.cells }
{
    let mut used = 0;
    for cell in 0..image.cells() {
        if is_used(image, cell) {
            used += 1;
        }
    }
    used
}

// Whether a cell is not free.
fn is_used(image: &Image, cell: u32) -> bool
    requires { cell < image.now.cells }
    ensures used { (s : State) → Shows image.now s → result ≡ counts (colour_of s cell) }
{
    match image.colour(cell) {
        Colour::Blue => false,
        Colour::White | Colour::Gray | Colour::Black => true,
    }
}

/// How many nodes the tree of the latest version has, where the words show versions: as the root's
/// record says. The anchor names the box of that version, and the box the root. Of other words it
/// is a number without meaning, and 0 where a word on the way is of another form.
pub fn latest_nodes(image: &Image) -> u64
    ensures nodes { (s : State) (keep : ℕ) (trees : List DocTree) → Shows image.now s
        → ShowsVersions s keep trees → result ≡ count (tree_at trees (length trees - 1)) }
{
    let latest = field_at(image, 0, 0);
    let root = followed(image, latest, 1);
    number_of(followed(image, root, 2))
}

// A field of the cell that a field names, and null where that names none.
fn followed(image: &Image, from: Field, i: usize) -> Field
    requires { i < 6 }
    ensures field { (s : State) → Shows image.now s → result ≡ field_behind s from i }
{
    match from {
        Field::Cell(cell) => field_at(image, cell, i),
        Field::Null | Field::Num(_) => Field::Null,
    }
}

//! A chunk of the children of a node: kids one after another, with one owner.
//!
//! A chunk knows how many nodes its kids have and how high they are, so that a new list of chunks
//! is summed up without a look at the kids of those that are shared.
ghost use Rattle.std.specs.Prelude.{◌≡◌, ◌++◌, ◌<◌, IfOk, MatchResult, OnOk, length};
ghost use Rattle.std.specs.Option.{option_copied};
ghost use Rattle.doc_tree.specs.Tree.{child, height_below, names_of, nodes_below, put_child};
ghost use Rattle.doc_tree.specs.Tree.{IsRising};
ghost use Rattle.doc_tree.specs.Edits.{delete_child};
ghost use Rattle.doc_tree.specs.Rows.{as_u32, as_u64, begins_by, row_of, IsGap, IsHere};
ghost use Rattle.doc_tree.specs.Chunks.{IsChunk};

use crate::NoMemory;
use crate::path::Names;
use crate::text::Name;
use crate::tree::Tree;
use std::alloc::Global;
use std::rc::Rc;

/// A child: its name and its tree.
#[cycle(tree)]
#[derive(Drop)]
pub(crate) struct Kid {
    pub(crate) tree: Tree,
    pub(crate) name: Name,
}

/// Kids one after another, and what they count up to.
#[cycle(tree)]
#[derive(Drop)]
pub(crate) struct Chunk {
    pub(crate) nodes: u64,
    pub(crate) levels: u32,
    pub(crate) row: Vec<Rc<Kid>>,
}

/// A chunk of these kids.
pub(crate) fn make_chunk(alloc: Global, row: Vec<Rc<Kid>>) -> Result<Rc<Chunk>, NoMemory>
    requires { 0 < length row.items }
    ensures row { IfOk result (λ chunk. chunk.value.row.items ≡ row.items) }
    ensures sound { IfOk result (λ chunk. IsChunk chunk.value) }
{
    let (nodes, levels) = sizes_of_row(&row);
    Ok(Rc::new(alloc, Chunk { row, nodes, levels })?)
}

impl Chunk {
    /// Whether its first name is this one, or comes before it.
    pub(crate) fn begins_at_or_before(&self, name: &Name) -> bool
        ensures { result ≡ begins_by name.now (row_of self.now.row.items) }
    {
        match self.row.as_slice() {
            [] => false,
            [kid, ..] => kid.name.order(name).is_le(),
        }
    }
}

/// Where the kid of that name stands in the row, or where it would go, and its tree if there is
/// one.
#[tactic(auto, using(crate::proofs::Places::here_room, crate::proofs::Places::here_child, crate::proofs::Places::gap_child))]
pub(crate) fn find_in_row<'a>(
    row: &'a [Rc<Kid>],
    name: &Name,
) -> (Result<usize, usize>, Option<&'a Tree>)
    requires { IsRising (row_of row.now) }
    ensures place { MatchResult result.0 (IsHere name.now (row_of row.now))
        (IsGap name.now (row_of row.now)) }
    ensures tree { option_copied result.1 ≡ child name.now (row_of row.now) }
{
    match find(row, name) {
        Ok(at) => (Ok(at), Some(&row[at].tree)),
        Err(at) => (Err(at), None),
    }
}

/// The kids with one more at its place, in the place of that of its name if there is one.
#[tactic(auto, using(crate::proofs::Places::here_room, crate::proofs::Places::gap_room, crate::proofs::Places::set_here, crate::proofs::Places::insert_gap))]
pub(crate) fn with_kid_in_row(
    row: &Vec<Rc<Kid>>,
    place: Result<usize, usize>,
    kid: Rc<Kid>,
) -> Result<Vec<Rc<Kid>>, NoMemory>
    requires { MatchResult place (IsHere kid.value.name (row_of row.now.items))
        (IsGap kid.value.name (row_of row.now.items)) }
    ensures { IfOk result (λ all. row_of all.items
        ≡ put_child kid.value.name kid.value.tree (row_of row.now.items)) }
{
    let mut all = shared_row(row)?;
    match place {
        Ok(at) => all[at] = kid,
        Err(at) => all.insert(at, kid)?,
    }
    Ok(all)
}

#[tactic(auto, using(crate::proofs::Places::here_room, crate::proofs::Places::remove_here, crate::proofs::Places::gap_delete))]
pub(crate) fn without_kid_in_row(row: &Vec<Rc<Kid>>, name: &Name) -> Result<Vec<Rc<Kid>>, NoMemory>
    requires { IsRising (row_of row.now.items) }
    ensures { IfOk result (λ all. row_of all.items ≡ delete_child name.now (row_of row.now.items)) }
{
    let mut all = shared_row(row)?;
    if let Ok(at) = find(&all, name) {
        let _ = all.remove(at);
    }
    Ok(all)
}

/// Adds the names of the kids, in their order.
pub(crate) fn push_names(names: &mut Names, row: &[Rc<Kid>]) -> Result<(), NoMemory>
    ensures { OnOk result (names.new ≡ names.old ++ names_of (row_of row.now)) }
{
    for kid in row {
        names.push(kid.name.copy()?)?;
    }
    Ok(())
}

// The same kids once more.
#[tactic(auto, using(crate::proofs::Places::same_row))]
fn shared_row(row: &Vec<Rc<Kid>>) -> Result<Vec<Rc<Kid>>, NoMemory>
    ensures { IfOk result (λ all. row_of all.items ≡ row_of row.now.items) }
{
    row.clone()
}

fn sizes_of_row(row: &[Rc<Kid>]) -> (u64, u32)
    ensures nodes { result.0 ≡ as_u64 (nodes_below (row_of row.now)) }
    ensures levels { result.1 ≡ as_u32 (height_below (row_of row.now)) }
{
    let mut nodes: u64 = 0;
    let mut levels: u32 = 0;
    for kid in row {
        nodes = nodes.saturating_add(kid.tree.count());
        levels = levels.max(kid.tree.height().saturating_add(1));
    }
    (nodes, levels)
}

// Where the kid of that name stands in the row, or where it would go.
fn find(row: &[Rc<Kid>], name: &Name) -> Result<usize, usize>
    requires { IsRising (row_of row.now) }
    ensures { MatchResult result (IsHere name.now (row_of row.now))
        (IsGap name.now (row_of row.now)) }
{
    row.binary_search_by(|kid| kid.name.order(name))
}

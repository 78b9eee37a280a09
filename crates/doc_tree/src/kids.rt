//! The children of a node, in chunks: one long row of kids, cut where it grows long.
//!
//! An edit copies the list of chunks and the one chunk that it changes, and shares all others. It
//! looks for the child once: `find_child` gives the child and its place. Only a child that is
//! removed is looked for again.
ghost use Rattle.std.specs.Prelude.{◌≡◌, ◌<◌, ◌≤◌, ◌+◌, IfOk, OnOk, length};
ghost use Rattle.std.specs.List.{AllZip};
ghost use Rattle.std.specs.Option.{option_copied};
ghost use Rattle.doc_tree.specs.Tree.{child, height_below, kid_count, names_of, nodes_below};
ghost use Rattle.doc_tree.specs.Tree.{put_child, IsRising};
ghost use Rattle.doc_tree.specs.Edits.{delete_child};
ghost use Rattle.doc_tree.specs.Rows.{as_u32, as_u64, row_of};
ghost use Rattle.doc_tree.specs.Chunks.{kids_of, with_row, AreChunks, IsIn, IsPlace};

use crate::NoMemory;
use crate::chunk::{
    Chunk, Kid, find_in_row, make_chunk, push_names, with_kid_in_row, without_kid_in_row,
};
use crate::path::Names;
use crate::text::Name;
use crate::tree::Tree;
use std::alloc::Global;
use std::rc::Rc;

// A chunk has at most this many kids: one more, and it is cut in halves.
const MOST_KIDS: usize = 16;

/// Where a child stands, or where it would go: a chunk, and a place in its row.
#[derive(Drop)]
pub(crate) struct Place {
    chunk: usize,
    kid: Result<usize, usize>,
}

/// The place of the child of that name, and its tree if there is one.
#[tactic(auto, using(crate::proofs::Chunks::in_room, crate::proofs::Chunks::in_rising, crate::proofs::Chunks::in_child))]
pub(crate) fn find_child<'a>(chunks: &'a [Rc<Chunk>], name: &Name) -> (Place, Option<&'a Tree>)
    requires chunks { AreChunks chunks.now }
    requires rising { IsRising (kids_of chunks.now) }
    ensures place { IsPlace name.now chunks.now result.0 }
    ensures child { option_copied result.1 ≡ child name.now (kids_of chunks.now) }
{
    if chunks.is_empty() {
        let place = Place {
            chunk: 0,
            kid: Err(0),
        };
        return (place, None);
    }
    let chunk = chunk_of(chunks, name);
    let (kid, tree) = find_in_row(&chunks[chunk].row, name);
    (Place { chunk, kid }, tree)
}

/// The children with one more at its place, instead of that of its name if there is one.
#[tactic(auto, using(crate::proofs::Chunks::in_room, crate::proofs::Chunks::put_at))]
pub(crate) fn with_kid(
    alloc: Global,
    chunks: &Vec<Rc<Chunk>>,
    place: Place,
    kid: Rc<Kid>,
) -> Result<Vec<Rc<Chunk>>, NoMemory>
    requires chunks { AreChunks chunks.now.items }
    requires place { IsPlace kid.value.name chunks.now.items place }
    ensures chunks { IfOk result (λ all. AreChunks all.items) }
    ensures kids { IfOk result (λ all. kids_of all.items
        ≡ put_child kid.value.name kid.value.tree (kids_of chunks.now.items)) }
{
    let mut all = shared(chunks)?;
    if chunks.is_empty() {
        let mut row = Vec::new(alloc);
        row.push(kid)?;
        all.push(make_chunk(alloc, row)?)?;
        return Ok(all);
    }
    let Place { chunk, kid: at } = place;
    let row = with_kid_in_row(&chunks[chunk].row, at, kid)?;
    put_row(alloc, &mut all, chunk, row)?;
    Ok(all)
}

/// The children without that of the name, if there is one.
#[tactic(auto, using(crate::proofs::Chunks::in_room, crate::proofs::Chunks::in_rising, crate::proofs::Chunks::in_delete))]
pub(crate) fn without_kid(
    alloc: Global,
    chunks: &Vec<Rc<Chunk>>,
    name: &Name,
) -> Result<Vec<Rc<Chunk>>, NoMemory>
    requires chunks { AreChunks chunks.now.items }
    requires rising { IsRising (kids_of chunks.now.items) }
    ensures chunks { IfOk result (λ all. AreChunks all.items) }
    ensures kids { IfOk result
        (λ all. kids_of all.items ≡ delete_child name.now (kids_of chunks.now.items)) }
{
    let mut all = shared(chunks)?;
    if all.is_empty() {
        return Ok(all);
    }
    let at = chunk_of(&all, name);
    let row = without_kid_in_row(&all[at].row, name)?;
    put_row(alloc, &mut all, at, row)?;
    Ok(all)
}

// Puts a row in the place of a chunk's: as two chunks if it is long, as none if it is empty.
#[tactic(auto, using(crate::proofs::Chunks::remove_row, crate::proofs::Chunks::chunks_remove, crate::proofs::Chunks::chunks_set, crate::proofs::Chunks::chunks_insert, crate::proofs::Chunks::set_row, crate::proofs::Chunks::cut_row))]
fn put_row(
    alloc: Global,
    chunks: &mut Vec<Rc<Chunk>>,
    at: usize,
    mut row: Vec<Rc<Kid>>,
) -> Result<(), NoMemory>
    requires chunks { AreChunks chunks.old.items }
    requires room { at < length chunks.old.items }
    ensures chunks { OnOk result (AreChunks chunks.new.items) }
    ensures kids { OnOk result
        (kids_of chunks.new.items ≡ with_row chunks.old.items at (row_of row.items)) }
{
    if row.is_empty() {
        let _ = chunks.remove(at);
        return Ok(());
    }
    if row.len() <= MOST_KIDS {
        chunks[at] = make_chunk(alloc, row)?;
        return Ok(());
    }
    let later = row.split_off(MOST_KIDS / 2)?;
    chunks[at] = make_chunk(alloc, later)?;
    chunks.insert(at, make_chunk(alloc, row)?)?;
    Ok(())
}

/// The same chunks once more: each has one more owner.
#[tactic(auto, using(crate::proofs::Chunks::same_kids, crate::proofs::Chunks::same_chunks))]
pub(crate) fn shared(chunks: &Vec<Rc<Chunk>>) -> Result<Vec<Rc<Chunk>>, NoMemory>
    requires { AreChunks chunks.now.items }
    ensures chunks { IfOk result (λ all. AreChunks all.items) }
    ensures kids { IfOk result (λ all. kids_of all.items ≡ kids_of chunks.now.items) }
    ensures same { IfOk result
        (λ all. AllZip (λ c other. other.value ≡ c.value) chunks.now.items all.items) }
{
    chunks.clone()
}

/// How many nodes a tree with these children has, and its height.
#[tactic(auto, using(crate::proofs::Joined::height_join))]
pub(crate) fn sizes(chunks: &[Rc<Chunk>]) -> (u64, u32)
    requires { AreChunks chunks.now }
    ensures nodes { result.0 ≡ as_u64 (nodes_below (kids_of chunks.now) + 1) }
    ensures levels { result.1 ≡ as_u32 (height_below (kids_of chunks.now)) }
{
    let mut nodes: u64 = 1;
    let mut levels: u32 = 0;
    for chunk in chunks {
        nodes = nodes.saturating_add(chunk.nodes);
        levels = levels.max(chunk.levels);
    }
    (nodes, levels)
}

/// How many children there are.
#[tactic(auto, using(crate::proofs::Joined::count_join, crate::proofs::Places::count_kids))]
pub(crate) fn count(chunks: &[Rc<Chunk>]) -> usize
    requires { kid_count (kids_of chunks.now) ≤ Tree.MOST_CHILDREN }
    ensures { result ≡ kid_count (kids_of chunks.now) }
{
    let mut count = 0;
    for chunk in chunks {
        count += chunk.row.len();
    }
    count
}

/// The names of the children, in their order.
#[tactic(auto, using(crate::proofs::Joined::names_join))]
pub(crate) fn names_of(alloc: Global, chunks: &[Rc<Chunk>]) -> Result<Names, NoMemory>
    ensures { IfOk result (λ names. names ≡ names_of (kids_of chunks.now)) }
{
    let mut names = Names::new(alloc);
    for chunk in chunks {
        push_names(&mut names, &chunk.row)?;
    }
    Ok(names)
}

// The chunk in which a child of that name stands, or would stand if there is none.
fn chunk_of(chunks: &[Rc<Chunk>], name: &Name) -> usize
    requires some { 0 < length chunks.now }
    requires chunks { AreChunks chunks.now }
    requires rising { IsRising (kids_of chunks.now) }
    ensures { IsIn name.now chunks.now result }
{
    chunks
        .partition_point(|chunk| chunk.begins_at_or_before(name))
        .saturating_sub(1)
}

//! The names of a node's children, in their order.
ghost use Rattle.std.specs.Prelude.{◌≡◌, ◌+◌, ◌*◌, ◌≤◌, ◌++◌, true, IfOk, OnOk};
ghost use Rattle.cell_words.specs.Term.{part, IsFive};
ghost use Rattle.doc_tree.specs.Tree.{kid_count, names_of};
ghost use Rattle.kids_avl.specs.Entries.{kids_of};
ghost use Rattle.trails.specs.Asks.{Shows};
ghost use Rattle.trails.specs.Telling.{Tells};
ghost use Rattle.doc_records.specs.Pool.{Later, Stands, part_term, is_shared};
ghost use Rattle.doc_records.specs.Shapes.{ask_names, ask_text};
ghost use Rattle.doc_records.specs.Texts.{name_asks, text_of};
ghost use Rattle.doc_records.specs.Trees.{AreEntries, IsNode, IsTreeNode, entries_of, tree_of};

use crate::bounds::NAMES_PLACES;
use crate::layout::{ENTRY_LEFT, ENTRY_NAME, ENTRY_RIGHT, NODE_ENTRIES};
use crate::pool::{Part, RecordPool};
use crate::reads::read_part;
use crate::texts::push_text;
use doc_tree::{Name, Names, NoMemory};
use std::alloc::Global;

// The name of an entry.
#[tactic(auto, using(crate::proofs::Rows::entry_name, crate::proofs::Rows::name_chain, crate::proofs::Rows::name_cells))]
fn read_name<R: RecordPool>(alloc: Global, records: &mut R, at: R::At) -> Result<Name, NoMemory>
    requires stands { (R.shown records.old).stands (R.shown records.old).held at }
    requires five { IsFive ((R.shown records.old).term at) }
    requires entry { AreEntries ((R.shown records.old).term at) }
    requires places { (R.shown records.old).held + 5 ≤ (R.shown records.old).room }
    ensures name { IfOk result (λ name. name ≡ text_of (part 0 ((R.shown records.old).term at))) }
    ensures later { Later (R.shown records.old) (R.shown records.new) }
    ensures held { (R.shown records.new).held ≤ (R.shown records.old).held + 4 }
    ensures records { (R.shown records.new).records ≡ (R.shown records.old).records }
    ensures told { OnOk result (R.shared at ≡ true
        → Tells (ask_text (part 0 ((R.shown records.old).term at)))
        (R.shown records.old).marks (R.shown records.new).marks) }
{
    let top = read_part(records, at, ENTRY_NAME);
    let mut bytes = Vec::new(alloc);
    push_text(records, top, &mut bytes)?;
    match Name::read(alloc, &bytes)? {
        Some(name) => Ok(name),
        None => unreachable!(),
    }
}

// Adds the names of entries. Each entry takes six places at most.
#[tactic(auto, using(crate::proofs::Rows::entries))]
fn push_names<R: RecordPool>(
    alloc: Global,
    records: &mut R,
    top: Part<R::At>,
    names: &mut Names,
) -> Result<(), NoMemory>
    requires stands { Stands (R.shown records.old) top }
    requires entries { AreEntries (part_term (R.shown records.old).term top) }
    requires places { (R.shown records.old).held + 6 * kid_count (kids_of (entries_of
        (part_term (R.shown records.old).term top))) ≤ (R.shown records.old).room }
    ensures names { OnOk result (names.new ≡ names.old ++ names_of (kids_of (entries_of
        (part_term (R.shown records.old).term top)))) }
    ensures later { Later (R.shown records.old) (R.shown records.new) }
    ensures held { (R.shown records.new).held ≤ (R.shown records.old).held
        + 6 * kid_count (kids_of (entries_of (part_term (R.shown records.old).term top))) }
    ensures records { (R.shown records.new).records ≡ (R.shown records.old).records }
    ensures told { OnOk result (is_shared R.shared top ≡ true
        → Tells (ask_names (part_term (R.shown records.old).term top))
        (R.shown records.old).marks (R.shown records.new).marks) }
{
    let Part::Record(at) = top else {
        return Ok(());
    };
    let left = read_part(records, at, ENTRY_LEFT);
    push_names(alloc, records, left, names)?;
    let name = read_name(alloc, records, at)?;
    names.push(name)?;
    let right = read_part(records, at, ENTRY_RIGHT);
    push_names(alloc, records, right, names)?;
    Ok(())
}

// The names of a node's children, and the places of all that was read.
#[tactic(auto, using(crate::proofs::Rows::node_entries, crate::proofs::Rows::node_kids, crate::proofs::Rows::node_few))]
fn read_names<R: RecordPool>(alloc: Global, records: &mut R, at: R::At) -> Result<Names, NoMemory>
    requires stands { (R.shown records.old).stands (R.shown records.old).held at }
    requires node { IsTreeNode ((R.shown records.old).term at) }
    requires places { (R.shown records.old).held + NAMES_PLACES ≤ (R.shown records.old).room }
    ensures names { IfOk result
        (λ names. names ≡ names_of (tree_of ((R.shown records.old).term at)).kids) }
    ensures later { Later (R.shown records.old) (R.shown records.new) }
    ensures records { (R.shown records.new).records ≡ (R.shown records.old).records }
    ensures told { OnOk result (R.shared at ≡ true
        → Tells (ask_names (part 1 ((R.shown records.old).term at)))
        (R.shown records.old).marks (R.shown records.new).marks) }
{
    let top = read_part(records, at, NODE_ENTRIES);
    let mut names = Names::new(alloc);
    push_names(alloc, records, top, &mut names)?;
    Ok(names)
}

/// The names of a node's children, in their order.
#[tactic(auto, using(crate::proofs::Spellings::kept_back))]
pub fn names<R: RecordPool>(alloc: Global, records: &mut R, at: R::At) -> Result<Names, NoMemory>
    requires stands { (R.shown records.old).stands (R.shown records.old).held at }
    requires node { IsTreeNode ((R.shown records.old).term at) }
    requires places { (R.shown records.old).held + NAMES_PLACES ≤ (R.shown records.old).room }
    ensures names { IfOk result
        (λ names. names ≡ names_of (tree_of ((R.shown records.old).term at)).kids) }
    ensures later { Later (R.shown records.old) (R.shown records.new) }
    ensures held { (R.shown records.new).held ≡ (R.shown records.old).held }
    ensures records { (R.shown records.new).records ≡ (R.shown records.old).records }
    ensures shows { OnOk result (R.shared at ≡ true
        → Shows (name_asks (names_of (tree_of ((R.shown records.old).term at)).kids))
        (R.shown records.old).marks (R.shown records.new).marks) }
{
    let held = records.held();
    let names = read_names(alloc, records, at);
    records.cut(held);
    names
}

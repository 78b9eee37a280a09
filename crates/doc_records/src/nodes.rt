//! Reading a node: its text, and how many nodes and levels there are.
ghost use Rattle.std.specs.Prelude.{◌≡◌, ◌+◌, ◌≤◌, [], ◌∷◌, true, IfOk, IsTrue, OnOk};
ghost use Rattle.cell_words.specs.Term.{part};
ghost use Rattle.cell_words.specs.declared.fields.Field.TheVariants as field;
ghost use Rattle.doc_tree.specs.Tree.{count, empty, height};
ghost use Rattle.trails.specs.Asks.{Shows, gave};
ghost use Rattle.trails.specs.Telling.{Tells};
ghost use Rattle.doc_records.specs.Pool.{Later, part_term};
ghost use Rattle.doc_records.specs.Shapes.{ask_text};
ghost use Rattle.doc_records.specs.Texts.{bytes_here, text_asks};
ghost use Rattle.doc_tree.specs.Words.{is_text};
ghost use Rattle.doc_records.specs.Trees.{IsNode, IsTreeNode, Spells, tree_of};

use crate::bounds::{TEXT_CELLS, TEXT_PLACES};
use crate::layout::{NODE_COUNT, NODE_HEIGHT, NODE_TEXT};
use crate::pool::{Part, RecordPool};
use crate::reads::{read_number, read_part};
use crate::texts::{CELL, Cell, push_text, read_cell};
use crate::words::letters;
use doc_tree::{NoMemory, Text};
use std::alloc::Global;

// A text that is one cell.
fn short_text(alloc: Global, cell: Cell) -> Result<Text, NoMemory>
    requires short { cell.count ≤ 21 }
    requires text { IsTrue (is_text
        (bytes_here cell.count cell.first cell.second cell.third)) }
    ensures { IfOk result
        (λ text. text ≡ bytes_here cell.count cell.first cell.second cell.third) }
{
    let letters = letters(cell.first, cell.second, cell.third);
    match Text::read(alloc, &letters[..cell.count as usize])? {
        Some(text) => Ok(text),
        None => unreachable!(),
    }
}

// The text of a node, and the places of its cells but the first.
#[tactic(auto, using(crate::proofs::Spellings::node_text, crate::proofs::Spellings::node_five, crate::proofs::Spellings::text_chain, crate::proofs::Spellings::text_cells))]
fn read_text<R: RecordPool>(alloc: Global, records: &mut R, at: R::At) -> Result<Text, NoMemory>
    requires stands { (R.shown records.old).stands (R.shown records.old).held at }
    requires node { IsNode ((R.shown records.old).term at) }
    requires places { (R.shown records.old).held + TEXT_PLACES ≤ (R.shown records.old).room }
    ensures text { IfOk result (λ text. text ≡ (tree_of ((R.shown records.old).term at)).text) }
    ensures later { Later (R.shown records.old) (R.shown records.new) }
    ensures held { (R.shown records.new).held ≤ (R.shown records.old).held + TEXT_CELLS }
    ensures records { (R.shown records.new).records ≡ (R.shown records.old).records }
    ensures told { OnOk result (R.shared at ≡ true
        → Tells (ask_text (part 0 ((R.shown records.old).term at)))
        (R.shown records.old).marks (R.shown records.new).marks) }
{
    let top = read_part(records, at, NODE_TEXT);
    let Part::Record(first) = top else {
        return Ok(Text::empty());
    };
    let cell = read_cell(records, first);
    if cell.count <= CELL {
        return short_text(alloc, cell);
    }
    let mut bytes = Vec::new(alloc);
    push_text(records, Part::Record(first), &mut bytes)?;
    match Text::read(alloc, &bytes)? {
        Some(text) => Ok(text),
        None => unreachable!(),
    }
}

/// The text of a node.
#[tactic(auto, using(crate::proofs::Spellings::kept_back, crate::proofs::Spellings::text_shown, crate::proofs::Spellings::node_text))]
pub fn text_of<R: RecordPool>(alloc: Global, records: &mut R, at: R::At) -> Result<Text, NoMemory>
    requires stands { (R.shown records.old).stands (R.shown records.old).held at }
    requires node { IsNode ((R.shown records.old).term at) }
    requires places { (R.shown records.old).held + TEXT_PLACES ≤ (R.shown records.old).room }
    ensures text { IfOk result (λ text. text ≡ (tree_of ((R.shown records.old).term at)).text) }
    ensures later { Later (R.shown records.old) (R.shown records.new) }
    ensures held { (R.shown records.new).held ≡ (R.shown records.old).held }
    ensures records { (R.shown records.new).records ≡ (R.shown records.old).records }
    ensures shows { OnOk result (R.shared at ≡ true
        → Shows (text_asks (tree_of ((R.shown records.old).term at)).text)
        (R.shown records.old).marks (R.shown records.new).marks) }
{
    let held = records.held();
    let text = read_text(alloc, records, at);
    records.cut(held);
    text
}

/// How many nodes the tree of a node has.
#[tactic(auto, using(crate::proofs::Spellings::node_count, crate::proofs::Fields::not_null, crate::proofs::Fields::not_record))]
pub fn count<R: RecordPool>(records: &mut R, at: R::At) -> u64
    requires stands { (R.shown records.old).stands (R.shown records.old).held at }
    requires node { IsNode ((R.shown records.old).term at) }
    requires places { (R.shown records.old).held + 1 ≤ (R.shown records.old).room }
    ensures count { result ≡ count (tree_of ((R.shown records.old).term at)) }
    ensures later { Later (R.shown records.old) (R.shown records.new) }
    ensures held { (R.shown records.new).held ≡ (R.shown records.old).held }
    ensures records { (R.shown records.new).records ≡ (R.shown records.old).records }
    ensures shows { R.shared at ≡ true → Shows (gave (field.Num result) ∷ [])
        (R.shown records.old).marks (R.shown records.new).marks }
{
    match records.read(at, NODE_COUNT) {
        Part::Num(count) => count,
        Part::Null => 0,
        Part::Record(_) => 0,
    }
}

/// How many levels the tree of a node has below it.
pub fn height<R: RecordPool>(records: &mut R, at: R::At) -> u32
    requires stands { (R.shown records.old).stands (R.shown records.old).held at }
    requires node { IsTreeNode ((R.shown records.old).term at) }
    requires places { (R.shown records.old).held + 1 ≤ (R.shown records.old).room }
    ensures height { result ≡ height (tree_of ((R.shown records.old).term at)) }
    ensures later { Later (R.shown records.old) (R.shown records.new) }
    ensures held { (R.shown records.new).held ≡ (R.shown records.old).held }
    ensures records { (R.shown records.new).records ≡ (R.shown records.old).records }
{
    read_number(records, at, NODE_HEIGHT) as u32
}

/// A node of the empty tree.
#[tactic(auto, using(crate::proofs::Makings::empty_made))]
pub fn empty_node<R: RecordPool>(records: &mut R) -> R::At
    requires records { 1 ≤ (R.shown records.old).records }
    ensures tree { Spells ((R.shown records.new).term result) empty }
    ensures node { IsTreeNode ((R.shown records.new).term result) }
    ensures stands { (R.shown records.new).stands (R.shown records.new).held result }
    ensures later { Later (R.shown records.old) (R.shown records.new) }
    ensures held { (R.shown records.new).held ≡ (R.shown records.old).held }
    ensures records { (R.shown records.old).records ≡ (R.shown records.new).records + 1 }
{
    records.make(
        Part::Null,
        Part::Null,
        Part::Num(1),
        Part::Num(0),
        Part::Null,
    )
}

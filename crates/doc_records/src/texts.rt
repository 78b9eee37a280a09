//! Reading texts: chains of cells with 21 bytes each.
ghost use Rattle.std.specs.Prelude.{◌≡◌, ◌+◌, ◌-◌, ◌≤◌, ◌<◌, ◌++◌, true, min, OnOk, IfOk};
ghost use Rattle.cell_words.specs.Term.{number, part, IsFive};
ghost use Rattle.trails.specs.Telling.{Tells};
ghost use Rattle.doc_records.specs.Pool.{Later, Stands, part_term, is_shared};
ghost use Rattle.doc_records.specs.Shapes.{IsChain, cells_of, ask_cell, ask_text};
ghost use Rattle.doc_records.specs.Texts.{text_of, bytes_here};

use crate::layout::{TEXT_LENGTH, TEXT_REST};
use crate::pool::{Part, RecordPool};
use crate::reads::{read_number, read_part, read_word};
use crate::words::push_bytes;
use doc_tree::NoMemory;

/// How many bytes of a text a cell has.
pub(crate) const CELL: u64 = 21;

// The numbers in a cell: how many bytes there are from it on, and three words.
#[derive(Clone, Copy)]
pub(crate) struct Cell {
    pub(crate) count: u64,
    pub(crate) first: u64,
    pub(crate) second: u64,
    pub(crate) third: u64,
}

#[tactic(auto, using(crate::proofs::Chains::cell))]
pub(crate) fn read_cell<R: RecordPool>(records: &mut R, at: R::At) -> Cell
    requires stands { (R.shown records.old).stands (R.shown records.old).held at }
    requires five { IsFive ((R.shown records.old).term at) }
    requires place { (R.shown records.old).held < (R.shown records.old).room }
    requires chain { IsChain ((R.shown records.old).term at) }
    ensures count { result.count ≡ number (part 0 ((R.shown records.old).term at)) }
    ensures text { text_of ((R.shown records.old).term at)
        ≡ bytes_here result.count result.first result.second result.third
        ++ text_of (part 4 ((R.shown records.old).term at)) }
    ensures later { Later (R.shown records.old) (R.shown records.new) }
    ensures held { (R.shown records.new).held ≡ (R.shown records.old).held }
    ensures records { (R.shown records.new).records ≡ (R.shown records.old).records }
    ensures told { R.shared at ≡ true
        → Tells (ask_cell ((R.shown records.old).term at))
        (R.shown records.old).marks (R.shown records.new).marks }
{
    let count = read_number(records, at, TEXT_LENGTH);
    let first = read_word(records, at, 1);
    let second = read_word(records, at, 2);
    let third = read_word(records, at, 3);
    Cell {
        count,
        first,
        second,
        third,
    }
}

// How many bytes a word has, where there are so many from its cell on and so many before it.
pub(crate) fn bytes_in(count: u64, before: u64) -> usize
    ensures { result ≡ min 7 (count - before) }
{
    count.saturating_sub(before).min(7) as usize
}

fn push_cell(bytes: &mut Vec<u8>, cell: Cell) -> Result<(), NoMemory>
    ensures { OnOk result (bytes.new.items ≡ bytes.old.items
        ++ bytes_here cell.count cell.first cell.second cell.third) }
{
    push_bytes(bytes, cell.first, bytes_in(cell.count, 0))?;
    push_bytes(bytes, cell.second, bytes_in(cell.count, 7))?;
    push_bytes(bytes, cell.third, bytes_in(cell.count, 14))?;
    Ok(())
}

/// Adds the bytes of a text. Each of its cells but the first takes a place.
#[tactic(auto, using(crate::proofs::Chains::next))]
pub(crate) fn push_text<R: RecordPool>(
    records: &mut R,
    top: Part<R::At>,
    bytes: &mut Vec<u8>,
) -> Result<(), NoMemory>
    requires stands { Stands (R.shown records.old) top }
    requires chain { IsChain (part_term (R.shown records.old).term top) }
    requires places { (R.shown records.old).held
        + cells_of (part_term (R.shown records.old).term top) ≤ (R.shown records.old).room }
    ensures bytes { OnOk result (bytes.new.items ≡ bytes.old.items
        ++ text_of (part_term (R.shown records.old).term top)) }
    ensures later { Later (R.shown records.old) (R.shown records.new) }
    ensures held { (R.shown records.new).held ≤ (R.shown records.old).held
        + (cells_of (part_term (R.shown records.old).term top) - 1) }
    ensures records { (R.shown records.new).records ≡ (R.shown records.old).records }
    ensures told { OnOk result (is_shared R.shared top ≡ true
        → Tells (ask_text (part_term (R.shown records.old).term top))
        (R.shown records.old).marks (R.shown records.new).marks) }
{
    let Part::Record(at) = top else {
        return Ok(());
    };
    let cell = read_cell(records, at);
    push_cell(bytes, cell)?;
    let next = read_part(records, at, TEXT_REST);
    push_text(records, next, bytes)?;
    Ok(())
}

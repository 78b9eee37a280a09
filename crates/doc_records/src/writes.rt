//! Making texts and nodes. Of a text the last cell comes first, since a record names older ones.
ghost use Rattle.std.specs.Prelude.{◌≡◌, ◌+◌, ◌/◌, ◌≤◌, ◌<◌, ◌^◌, drop, length};
ghost use Rattle.doc_records.specs.Pool.{Later, Stands, part_term};
ghost use Rattle.doc_tree.specs.Edits.{with_text};
ghost use Rattle.doc_records.specs.Texts.{SpellsText};
ghost use Rattle.doc_records.specs.Trees.{IsNode, Spells, tree_of};

use crate::layout::{NODE_COUNT, NODE_ENTRIES, NODE_HEIGHT};
use crate::pool::{Part, RecordPool};
use crate::reads::{read_number, read_part};
use crate::words::word;
use doc_tree::Text;

// The bytes past the first so many.
#[tactic(auto, using(crate::proofs::Spelled::drop_least))]
fn past(bytes: &[u8], count: usize) -> &[u8]
    ensures { result.now ≡ drop count bytes.now }
{
    bytes.split_at(count.min(bytes.len())).1
}

/// A text of these bytes, 21 of them a record.
#[tactic(auto, using(crate::proofs::Spelled::text_made, crate::proofs::Spelled::cells_made))]
pub fn make_text<R: RecordPool>(records: &mut R, bytes: &[u8]) -> Part<R::At>
    requires few { length bytes.now < 2 ^ 62 }
    requires records { (length bytes.now + 20) / 21 ≤ (R.shown records.old).records }
    ensures text { SpellsText (part_term (R.shown records.new).term result) bytes.now }
    ensures stands { Stands (R.shown records.new) result }
    ensures later { Later (R.shown records.old) (R.shown records.new) }
    ensures held { (R.shown records.new).held ≡ (R.shown records.old).held }
    ensures records { (R.shown records.old).records
        ≡ (R.shown records.new).records + (length bytes.now + 20) / 21 }
{
    if bytes.is_empty() {
        return Part::Null;
    }
    let next = make_text(records, past(bytes, 21));
    let count = bytes.len() as u64;
    let first = word(bytes);
    let second = word(past(bytes, 7));
    let third = word(past(bytes, 14));
    Part::Record(records.make(
        Part::Num(count),
        Part::Num(first),
        Part::Num(second),
        Part::Num(third),
        next,
    ))
}

/// A node with this text and the children of another.
#[tactic(auto, using(crate::proofs::Spellings::node_count, crate::proofs::Spellings::node_height, crate::proofs::Makings::node_with_text, crate::proofs::Makings::text_low))]
pub fn with_text<R: RecordPool>(records: &mut R, at: R::At, text: &Text) -> R::At
    requires stands { (R.shown records.old).stands (R.shown records.old).held at }
    requires node { IsNode ((R.shown records.old).term at) }
    requires places { (R.shown records.old).held + 2 ≤ (R.shown records.old).room }
    requires records { (length text.now + 20) / 21 + 1 ≤ (R.shown records.old).records }
    ensures tree { Spells ((R.shown records.new).term result)
        (with_text text.now (tree_of ((R.shown records.old).term at))) }
    ensures stands { (R.shown records.new).stands (R.shown records.new).held result }
    ensures later { Later (R.shown records.old) (R.shown records.new) }
    ensures held { (R.shown records.new).held ≤ (R.shown records.old).held + 1 }
    ensures records { (R.shown records.old).records
        ≡ (R.shown records.new).records + (length text.now + 20) / 21 + 1 }
{
    let entries = read_part(records, at, NODE_ENTRIES);
    let count = read_number(records, at, NODE_COUNT);
    let height = read_number(records, at, NODE_HEIGHT);
    let text = make_text(records, text.bytes());
    records.make(
        text,
        entries,
        Part::Num(count),
        Part::Num(height),
        Part::Null,
    )
}

//! Reading one field of a record: what every reader above is made of.
//!
//! Each of these tells one thing of the trail, so that a caller's own clause is their composition.
ghost use Rattle.std.specs.Prelude.{◌≡◌, ◌+◌, ◌≤◌, ◌<◌, ◌^◌, ℕ, true};
ghost use Rattle.cell_words.specs.Term.{part, number, IsFive};
ghost use Rattle.trails.specs.Telling.{Tells};
ghost use Rattle.doc_records.specs.Pool.{Later, Stands, IsOn, PartOn, part_term, places_of};
ghost use Rattle.doc_records.specs.Pool.{is_shared};
ghost use Rattle.doc_records.specs.Shapes.{IsNum, ask_word};

use crate::pool::{Part, RecordPool};

/// A word of a text. It takes no place.
#[tactic(auto, using(crate::proofs::Fields::not_null, crate::proofs::Fields::not_record))]
#[inline(always)]
pub(crate) fn read_word<R: RecordPool>(records: &mut R, at: R::At, index: usize) -> u64
    requires stands { (R.shown records.old).stands (R.shown records.old).held at }
    requires range { index < 5 }
    requires place { (R.shown records.old).held < (R.shown records.old).room }
    requires num { IsNum (part index ((R.shown records.old).term at)) }
    ensures number { result ≡ number (part index ((R.shown records.old).term at)) }
    ensures fits { result < 2 ^ 62 }
    ensures later { Later (R.shown records.old) (R.shown records.new) }
    ensures held { (R.shown records.new).held ≡ (R.shown records.old).held }
    ensures records { (R.shown records.new).records ≡ (R.shown records.old).records }
    ensures told { R.shared at ≡ true
        → Tells (ask_word result) (R.shown records.old).marks (R.shown records.new).marks }
{
    match records.read(at, index) {
        Part::Num(number) => number,
        Part::Null => 0,
        Part::Record(_) => 0,
    }
}

/// A number that nothing is told of.
#[tactic(auto, using(crate::proofs::Fields::untold))]
#[inline(always)]
pub fn read_number<R: RecordPool>(records: &mut R, at: R::At, index: usize) -> u64
    requires stands { (R.shown records.old).stands (R.shown records.old).held at }
    requires range { index < 5 }
    requires place { (R.shown records.old).held < (R.shown records.old).room }
    requires num { IsNum (part index ((R.shown records.old).term at)) }
    ensures number { result ≡ number (part index ((R.shown records.old).term at)) }
    ensures fits { result < 2 ^ 62 }
    ensures later { Later (R.shown records.old) (R.shown records.new) }
    ensures held { (R.shown records.new).held ≡ (R.shown records.old).held }
    ensures records { (R.shown records.new).records ≡ (R.shown records.old).records }
    ensures told { R.shared at ≡ true
        → Tells (λ rest. rest) (R.shown records.old).marks (R.shown records.new).marks }
{
    read_word(records, at, index)
}

/// A field that nothing is told of.
#[tactic(auto, using(crate::proofs::Fields::untold))]
#[inline(always)]
pub fn read_part<R: RecordPool>(records: &mut R, at: R::At, index: usize) -> Part<R::At>
    requires stands { (R.shown records.old).stands (R.shown records.old).held at }
    requires range { index < 5 }
    requires place { (R.shown records.old).held < (R.shown records.old).room }
    ensures part { part_term (R.shown records.new).term result
        ≡ part index ((R.shown records.old).term at) }
    ensures stands { Stands (R.shown records.new) result }
    ensures later { Later (R.shown records.old) (R.shown records.new) }
    ensures held { (R.shown records.new).held ≤ (R.shown records.old).held + places_of result }
    ensures records { (R.shown records.new).records ≡ (R.shown records.old).records }
    ensures shared { R.shared at ≡ true → is_shared R.shared result ≡ true }
    ensures on { (places : ℕ) → places ≤ (R.shown records.old).held
        → IsOn R.shared (R.shown records.old) places at
        → PartOn R.shared (R.shown records.new) places result }
    ensures told { R.shared at ≡ true
        → Tells (λ rest. rest) (R.shown records.old).marks (R.shown records.new).marks }
{
    records.read(at, index)
}

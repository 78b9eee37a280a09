//! One more record.
ghost use Rattle.std.specs.Prelude.{◌≡◌, ◌++◌, ◌∷◌, ◌≤◌, ◌↔◌, [], All, Err, IfOk, List, OnErr};
ghost use Rattle.std.specs.Prelude.{OnOk};
ghost use Rattle.std.specs.Prelude.{length, max, true, ℕ};
ghost use Rattle.cell_words.specs.Term.{Term};
ghost use Rattle.heap_rule.specs.declared.known.Known.{Known};
ghost use Rattle.minor_heap.specs.Record.{IsWithin, field_of, fields_of};
ghost use Rattle.minor_heap.specs.Terms.{record_term, terms_of};
ghost use Rattle.minor_heap.specs.declared.fields.MinorField.{MinorField};
ghost use Rattle.promotion.specs.Sharing.{SharesRecord};
ghost use Rattle.local_records.specs.Local.{IsFieldBelow, IsLocal};
ghost use Rattle.local_records.specs.declared.making.NotMade.TheVariants as cause;

use crate::local::LocalRecords;
use local_references::LocalRef;
use minor_heap::FieldKind;

/// Why a record was not made.
#[derive(Clone, Copy, Debug, PartialEq, Eq)]
pub enum NotMade {
    /// a field names a record or a place that is not there, or its number is 2^62 or more
    Unfit,
    /// as many records stand as there is room for
    Full,
    /// this is the last turn, of which no reference is given
    Spent,
}

/// Raises a number to the one after the last place of these fields.
fn name_places(kinds: &[FieldKind; 5], words: &[u64; 5], named: &mut usize)
    requires below { All (IsFieldBelow 18446744073709551615) (fields_of kinds.now words.now) }
    ensures more { named.old ≤ named.new }
    ensures below { All (IsFieldBelow named.new) (fields_of kinds.now words.now) }
    ensures least { (n : ℕ) → named.old ≤ n → All (IsFieldBelow n) (fields_of kinds.now words.now)
        → named.new ≤ n }
{
    for i in 0..5 {
        name_place(kinds[i], words[i], named);
    }
}

/// Raises a number to the one after the place of this field.
fn name_place(kind: FieldKind, word: u64, named: &mut usize)
    requires below { IsFieldBelow 18446744073709551615 (field_of kind word) }
    ensures more { named.old ≤ named.new }
    ensures below { IsFieldBelow named.new (field_of kind word) }
    ensures least { (n : ℕ) → named.old ≤ n → IsFieldBelow n (field_of kind word) → named.new ≤ n }
{
    if kind == FieldKind::Shared && *named <= word as usize {
        *named = word as usize + 1;
    }
}

impl LocalRecords {
    /// Makes one more record, of fields by their kinds and words as they lie, where the mutator
    /// holds so many places. A private field is a record by its number, which `find` gives. It
    /// moves nothing.
    pub fn make(
        &mut self,
        kinds: [FieldKind; 5],
        words: [u64; 5],
        held: usize,
    ) -> Result<LocalRef, NotMade>
        ensures number { IfOk result (λ r. r.number ≡ length self.old.records) }
        ensures turn { IfOk result (λ r. r.turn ≡ self.old.turn) }
        ensures records { OnOk result
            (self.new.records ≡ self.old.records ++ fields_of kinds words ∷ []) }
        ensures term { OnOk result ((shared : List Term) → terms_of shared self.new.records
            ≡ terms_of shared self.old.records
            ++ record_term shared (terms_of shared self.old.records) (fields_of kinds words) ∷ []) }
        ensures within { OnOk result
            (All (IsWithin (length self.old.records) held) (fields_of kinds words)) }
        ensures only { self.new ≡ record self.old {
          records = self.new.records;
          named = self.new.named;
        } }
        ensures local { (known : List Known) → IsLocal self.old known
            → All (SharesRecord known) (fields_of kinds words) → IsLocal self.new known }
        ensures unfit { result ≡ Err cause.Unfit
            → All (IsWithin (length self.old.records) held) (fields_of kinds words) → ⊥ }
        ensures full { result ≡ Err cause.Full → length self.old.records ≡ self.old.room }
        ensures spent { result ≡ Err cause.Spent → self.old.turn ≡ 4294967295 }
        ensures unchanged { OnErr result (self.new ≡ self.old) }
    {
        if self.turns.is_last() {
            return Err(NotMade::Spent);
        }
        if !self.nursery.heap().may_make(&kinds, &words, held) {
            return Err(NotMade::Unfit);
        }
        match self.nursery.heap_mut().make_of_words(kinds, words) {
            Ok(made) => {
                name_places(&kinds, &words, &mut self.named);
                Ok(self.turns.give(made))
            }
            Err(_) => Err(NotMade::Full),
        }
    }
}
